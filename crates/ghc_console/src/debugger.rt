// What a session works on.
ghost use Rattle.std.specs.Prelude.{◌≡◌};

use ghc_core::Core;
use ghc_pool::Workers;
use ghc_reader::ClauseLines;
use ghc_trace::SpySet;

/// A core, the predicates that are spied in it, how many workers make a run of it, and the lines at which the clauses of its program
/// begin.
#[derive(Drop)]
pub struct Debugger {
    /// The core.
    pub core: Core,
    /// The predicates that are spied.
    pub spies: SpySet,
    /// How many workers make a run.
    pub workers: Workers,
    /// The lines at which the clauses of the program begin.
    pub clause_lines: ClauseLines,
}

impl Debugger {
    /// The core with these predicates spied, of whose program the clauses begin at these lines; one worker makes a run. It takes no
    /// memory.
    pub fn new(core: Core, spies: SpySet, clause_lines: ClauseLines) -> Debugger
        ensures core { result.core ≡ core }
        ensures spies { result.spies ≡ spies }
        ensures workers { result.workers ≡ 1 }
        ensures lines { result.clause_lines ≡ clause_lines }
    {
        let workers = Workers::one();
        Debugger {
            core,
            spies,
            workers,
            clause_lines,
        }
    }

    /// The same, of which so many workers make a run.
    pub fn with_workers(self, workers: Workers) -> Debugger
        ensures core { result.core ≡ self.core }
        ensures spies { result.spies ≡ self.spies }
        ensures workers { result.workers ≡ workers }
        ensures lines { result.clause_lines ≡ self.clause_lines }
    {
        let Debugger {
            core,
            spies,
            workers: _,
            clause_lines,
        } = self;
        Debugger {
            core,
            spies,
            workers,
            clause_lines,
        }
    }
}
