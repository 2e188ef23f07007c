// Answers to names that a round took, and why a round stops.
ghost use Rattle.std.specs.Prelude.{◌≡◌};
ghost use Rattle.ghc_pool.specs.inner.Stops.{joined};

use ghc_core::Reply;
use ghc_shared::Receipt;
use ghc_term::GoalName;

/// What came of a name that was taken.
#[derive(Drop)]
pub enum Answer {
    /// A step of the goal was proposed and submitted; this is the receipt of the submit.
    Submitted(Receipt<Reply>),
    /// The goal was tried and noted; this is the receipt of the note.
    Noted(Receipt<Reply>),
    /// Memory was refused while a step was proposed.
    Starved,
}

impl Answer {
    ghost use Rattle.std.specs.Prelude.{◌≡◌};
    ghost use Rattle.ghc_pool.specs.inner.Answers.{submits_in};

    /// How many submits it tells of: one or none.
    pub fn submits(&self) -> u64
        ensures { result ≡ submits_in self.now }
    {
        match self {
            Answer::Submitted(_) => 1,
            Answer::Noted(_) => 0,
            Answer::Starved => 0,
        }
    }
}

/// Why a round ended with names left.
#[derive(Clone, Copy, Drop)]
pub enum RoundStop {
    /// Memory was refused.
    Memory,
    /// As many submits were made as the limit allows.
    Limit,
    /// No new step has room.
    Full,
    /// The goal is ready, and a call of a spied predicate.
    Spied(GoalName),
    /// The goal has failed.
    Clash(GoalName),
}

/// What a worker of a round did: the names that it offered, those that it took with their answers, those that it left, and why it
/// stopped, if it did.
#[derive(Drop)]
pub struct Work {
    pub offered: Vec<GoalName>,
    pub taken: Vec<(GoalName, Answer)>,
    pub left: Vec<GoalName>,
    pub stop: Option<RoundStop>,
}

// The stop for memory, if it is one of the two; else the first, if there is one, and else the second.
pub(crate) fn joined(first: Option<RoundStop>, second: Option<RoundStop>) -> Option<RoundStop>
    ensures { result ≡ joined first second }
{
    match first {
        None => second,
        Some(_) => match second {
            Some(RoundStop::Memory) => second,
            _ => first,
        },
    }
}
