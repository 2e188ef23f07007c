// The start of a session: from the texts of a program and a query to both, read and checked.
ghost use Rattle.std.specs.Prelude.{◌≡◌};
ghost use Rattle.ghc_term.specs.Answered.{AnsweredUnless};
ghost use Rattle.ghcdb.specs.Start.{IsStarted, IsStartRefusal, IsOutOfMemory, told_of};

use crate::refusal::Refusal;
use crate::refused_part::RefusedPart;
use ghc_flat::{Program, Refused, judge};
use ghc_reader::{Query, read_program, read_query};
use std::alloc::Global;

/// A program and a query that are accepted together.
#[derive(Drop)]
pub struct Started {
    pub program: Program,
    pub query: Query,
}

/// The program and the query that the texts say. Both texts are read before either is checked: the refusal is that of the program's
/// text, else that of the query's text, else the fault of the program, else that of the query. Or it is F1, of the query while that is
/// read, and else of the program. Time and memory grow with the texts.
pub fn start(alloc: Global, program: &[u8], query: &[u8]) -> Result<Started, Refusal>
    ensures answer { AnsweredUnless (IsOutOfMemory program.now) (IsStarted program.now query.now) (IsStartRefusal program.now query.now) result }
{
    let written = match read_program(alloc, program) {
        Ok(written) => written,
        Err(fault) => {
            let part = RefusedPart::Program;
            return Err(Refusal { part, fault });
        }
    };
    let query = match read_query(alloc, query) {
        Ok(query) => query,
        Err(fault) => {
            let part = RefusedPart::Query;
            return Err(Refusal { part, fault });
        }
    };
    match judge(alloc, written, &query) {
        Ok(program) => Ok(Started { program, query }),
        Err(refused) => Err(refusal_of(refused)),
    }
}

// The refusal of the text at fault.
fn refusal_of(refused: Refused) -> Refusal
    ensures { result ≡ told_of refused }
{
    match refused {
        Refused::Program(fault) => {
            let part = RefusedPart::Program;
            Refusal { part, fault }
        }
        Refused::Query(fault) => {
            let part = RefusedPart::Query;
            Refusal { part, fault }
        }
    }
}
