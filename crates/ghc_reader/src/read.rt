// The reader's calls: from the bytes of a text to what it says, in the terms of the language.
ghost use Rattle.std.specs.Prelude.{◌≡◌, ◌<◌, length};
ghost use Rattle.ghc_term.specs.Answered.{Answered};
ghost use Rattle.ghc_term.specs.declared.limit.Limit.TheVariants.{Text};
ghost use Rattle.ghc_term.specs.Limit.{text_limit};
ghost use Rattle.ghc_reader.specs.ClauseLines.{AreClauseLines};
ghost use Rattle.ghc_reader.specs.Tests.{a_program, a_query, a_term, an_ask, a_body, IsRefusal};
ghost use Rattle.ghc_reader.specs.Read.{IsReadProgram, IsReadQuery, IsReadTerm, IsReadAsk, IsReadBody};

use crate::ask::WrittenAsk;
use crate::clause_lines::ClauseLines;
use crate::lowering::{lower_ask, lower_closed, lower_program, lower_query};
use crate::parse_trees::{
    parsed_ask, parsed_body, parsed_lines, parsed_program, parsed_query, parsed_term,
};
use crate::written::{Query, Source};
use ghc_term::{Fault, Ground, Name};
use std::alloc::Global;

/// The program that a text says. Else the refusal of the first test that the text does not pass: `Limit::Text` past
/// `TEXT_LIMIT` bytes; a syntax error at the first byte that begins no token; `Limit::Depth`; a syntax error at the first
/// token with which no program goes on; at a head or goal that is reserved; `Limit::Clauses`, `Arity`, `Goals` and
/// `Variables`; or `Memory`. Time and memory grow with the text.
pub fn read_program(alloc: Global, text: &[u8]) -> Result<Source, Fault>
    ensures answer { Answered (IsReadProgram text.now) (IsRefusal a_program text.now) result }
    ensures too_long { text_limit < length text.now → result ≡ Err (Fault.Limit Text) }
{
    let clauses = parsed_program(alloc, text)?;
    let source = lower_program(alloc, &clauses)?;
    Ok(source)
}

/// The lines at which the clauses of a program begin that a text says, or its refusal, as `read_program`. Time and memory grow with
/// the text.
pub fn read_clause_lines(alloc: Global, text: &[u8]) -> Result<ClauseLines, Fault>
    ensures { Answered (AreClauseLines text.now) (IsRefusal a_program text.now) result }
{
    parsed_lines(alloc, text)
}

/// The query that a text says, or its refusal, as `read_program`; there is no `Limit::Clauses`.
pub fn read_query(alloc: Global, text: &[u8]) -> Result<Query, Fault>
    ensures answer { Answered (IsReadQuery text.now) (IsRefusal a_query text.now) result }
    ensures too_long { text_limit < length text.now → result ≡ Err (Fault.Limit Text) }
{
    let goals = parsed_query(alloc, text)?;
    let query = lower_query(alloc, &goals)?;
    Ok(query)
}

/// What a text asks for in mid-run, where the variables of the query have these names; or its refusal, as `read_query`. Here a
/// variable `_n_m` names one of the state, by the values of its digits, and is a syntax error at its first byte where one of them
/// is over 4294967295; and any `instream` of one argument is a syntax error at its first byte. Last, it is `Limit::Depth` where more
/// than 1,000 operators stand inside one another: printed, each but the outermost has brackets. Time and memory grow with the text
/// and the names.
pub fn read_ask(alloc: Global, text: &[u8], query: &[Name]) -> Result<WrittenAsk, Fault>
    ensures answer { Answered (IsReadAsk query.now text.now) (IsRefusal an_ask text.now) result }
    ensures too_long { text_limit < length text.now → result ≡ Err (Fault.Limit Text) }
{
    let goals = parsed_ask(alloc, text)?;
    let asked = lower_ask(alloc, &goals, query)?;
    Ok(asked)
}

/// What a text asks for as a history has it, of any length; or its refusal, as `read_ask`, but for the tests of length and depth. A
/// variable that is not of the form `_n_m` is new. `Memory` also where the text has more bytes than numbers of 32 bits count, and where
/// more than 1,000 brackets are open at one place.
pub fn read_body(alloc: Global, text: &[u8]) -> Result<WrittenAsk, Fault>
    ensures { Answered (IsReadBody text.now) (IsRefusal a_body text.now) result }
{
    let goals = parsed_body(alloc, text)?;
    let asked = lower_ask(alloc, &goals, &[])?;
    Ok(asked)
}

/// The input term that a text says, or its refusal, as `read_program`; in place of `Limit::Clauses`, `Goals` and `Variables`
/// there is `Limit::Term` past 10,000 nodes.
pub fn read_ground_term(alloc: Global, text: &[u8]) -> Result<Ground, Fault>
    ensures answer { Answered (IsReadTerm text.now) (IsRefusal a_term text.now) result }
    ensures too_long { text_limit < length text.now → result ≡ Err (Fault.Limit Text) }
{
    let parsed = parsed_term(alloc, text)?;
    let term = lower_closed(alloc, &parsed)?;
    Ok(Ground::of(alloc, term)?.unwrap())
}
