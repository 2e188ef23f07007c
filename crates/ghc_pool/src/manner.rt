// How a round takes a step of a goal, where nothing is spied.
ghost use Rattle.std.specs.Prelude.{◌≡◌, length};
ghost use Rattle.ghc_records.specs.Journal.{Opening};
ghost use Rattle.ghc_shared.specs.inner.Calls.{code_of};
ghost use Rattle.ghc_pool.specs.inner.Manners.{Serves};

use ghc_core::Core;
use ghc_shared::{Naming, Shared};
use std::sync::Wait;

// How a step of a goal is taken, where nothing is spied.
#[derive(Clone, Copy, Drop)]
pub enum Manner {
    // It is proposed and submitted under one holding of the lock.
    AtOnce,
    // It is proposed apart from what workers share and then submitted, where there is an excerpt of it; else it is taken at once.
    Apart,
    // It is proposed, and then submitted.
    Proposed,
}

impl Manner {
    // The manner that serves the program: at once where it has few clauses, and apart where it has many; but where a worker may be held
    // up between a proposal and its submit, one after the other.
    pub fn serving<N: Naming, R: Wait>(rt: &R, shared: &Shared<Core, N>, holds_up: bool) -> Manner
        ensures { (o : Opening) × (code_of o ≡ N.opened) × Serves holds_up (length o.program) result }
    {
        let few = shared.has_few_clauses(rt);
        if holds_up {
            return Manner::Proposed;
        }
        if few {
            return Manner::AtOnce;
        }
        Manner::Apart
    }
}
