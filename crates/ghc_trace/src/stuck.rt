// How goals are stuck.
ghost use Rattle.std.specs.Prelude.{◌≡◌, ◌↔◌, IfOk, IsTrue};
ghost use Rattle.std.specs.FinMap as finite;
ghost use Rattle.ghc_hooks.specs.Verdict.{status_of};
ghost use Rattle.ghc_trace.specs.Disturbed.{stuck_of, stuck_by};

use ghc_hooks::{Tries, Verdict, variables_again};
use ghc_term::{GoalName, Variables};
use std::alloc::{AllocError, Global};

/// How a goal is stuck.
#[derive(Drop)]
pub enum Stuck {
    /// It waits for one of these variables.
    Waiting(Variables),
    /// It has failed, with the refusal of this number.
    Failed(u32),
}

// How a goal of this verdict is stuck, if it is.
fn way_stuck(alloc: Global, verdict: &Verdict) -> Result<Option<Stuck>, AllocError>
    ensures { IfOk result (λ s. s ≡ stuck_of (status_of verdict.now)) }
{
    match verdict {
        Verdict::Ready => Ok(None),
        Verdict::Waiting(awaited) => Ok(Some(Stuck::Waiting(variables_again(alloc, awaited)?))),
        Verdict::Failed(cause) => Ok(Some(Stuck::Failed(cause.number()))),
    }
}

// How the goal is stuck by its note, if it is: one look-up, and a copy of the variables for which it waits.
pub(crate) fn stuck_now(
    alloc: Global,
    tries: &Tries,
    goal: GoalName,
) -> Result<Option<Stuck>, AllocError>
    ensures { IfOk result (λ s. s ≡ stuck_by (finite.get tries.now.notes goal)) }
{
    match tries.get(goal) {
        Some(note) => way_stuck(alloc, note.verdict()),
        None => Ok(None),
    }
}

// Whether a goal that was stuck so, if it was, is stuck in the same way by this verdict: two look-ups for each variable for
// which it waits.
pub(crate) fn stands_so(before: &Option<Stuck>, verdict: &Verdict) -> bool
    ensures { IsTrue result ↔ (before.now ≡ stuck_of (status_of verdict.now)) }
{
    match (before, verdict) {
        (None, Verdict::Ready) => true,
        (Some(Stuck::Waiting(former)), Verdict::Waiting(awaited)) => former.same(awaited),
        (Some(Stuck::Failed(former)), Verdict::Failed(cause)) => *former == cause.number(),
        _ => false,
    }
}
