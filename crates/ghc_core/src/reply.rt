// Replies to events.

use ghc_hooks::Verdict;
use ghc_term::{Fault, GoalName};

/// The reply to an event.
#[derive(Drop)]
pub enum Reply {
    /// The hand holds a proposal.
    Held(u32),
    /// The step of this number was taken, or taken again.
    Stepped(u32),
    /// The goal was tried, and this is what it can do.
    Noted(GoalName, Verdict),
    /// The steps of these numbers, in recorded order, were taken away.
    Undone(Vec<u32>),
    /// The record was put into the order.
    Arranged,
    /// The event was refused.
    Refused(Fault),
}

impl Reply {
    ghost use Rattle.std.specs.Prelude.{◌≡◌};
    ghost use Rattle.ghc_core.specs.EventCode.{reply_of};
    ghost use Rattle.ghc_core.specs.Playing.{tells_change};

    /// Whether the reply tells of a change: a step was taken or taken again, steps were undone, or the record was arranged.
    pub fn tells_change(&self) -> bool
        ensures { result ≡ tells_change (reply_of self.now) }
    {
        matches!(self, Reply::Stepped(_) | Reply::Undone(_) | Reply::Arranged)
    }
}
