// Why a run stopped, and what it reports.
use ghc_term::GoalName;

/// Why a run stopped.
#[derive(Clone, Copy, Drop, Debug, PartialEq, Eq)]
pub enum Stop {
    /// No goal in question is untried, ready or failed.
    Quiet,
    /// This goal is in question and ready, and is a call of a spied predicate.
    Spied(GoalName),
    /// This goal is in question, and has failed.
    Clash(GoalName),
    /// As many steps were taken as the limit allows.
    Limit,
    /// A new step has no room: the numbers are used up, or 1,000,000 steps are kept.
    Full,
    /// Memory was refused.
    Memory,
}

/// What a run did: how many steps it took, which are the last of the record, and why it stopped.
#[derive(Clone, Copy, Drop, Debug, PartialEq, Eq)]
pub struct Report {
    pub added: usize,
    pub stop: Stop,
}
