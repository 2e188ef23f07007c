// What a round hears from a reply or a fault: a reason to stop, or the step that was taken.
ghost use Rattle.std.specs.Prelude.{◌≡◌, ◌↔◌, IsTrue};
ghost use Rattle.ghc_term.specs.declared.fault.Fault.TheVariants.{Memory as memory};
ghost use Rattle.ghc_hooks.specs.Status.{ready};
ghost use Rattle.ghc_pool.specs.inner.Told.{TellsStatus};
ghost use Rattle.ghc_pool.specs.inner.Plans.{IsSubmitStop, IsSettlingStop, IsNoteStop, step_in, made_if_stepped};

use crate::answer::RoundStop;
use ghc_core::Reply;
use ghc_hooks::Verdict;
use ghc_term::{Fault, GoalName};

// Whether memory was refused.
pub fn is_memory(fault: &Fault) -> bool
    ensures { IsTrue result ↔ (fault.now ≡ memory) }
{
    matches!(fault, Fault::Memory)
}

// Whether the reply tells that a goal is ready.
pub fn is_ready(reply: &Reply) -> bool
    ensures { IsTrue result ↔ TellsStatus ready reply.now }
{
    matches!(reply, Reply::Noted(_, Verdict::Ready))
}

// The reason to stop, if the reply to a submit is one.
pub fn stop_of_submit(reply: &Reply) -> Option<RoundStop>
    ensures { IsSubmitStop reply.now result }
{
    match reply {
        Reply::Refused(Fault::Memory) => Some(RoundStop::Memory),
        Reply::Refused(Fault::Full) => Some(RoundStop::Full),
        _ => None,
    }
}

// The reason to stop, if the reply to a note of the goal is one.
pub fn stop_of_note(reply: &Reply, goal: GoalName, spied: bool) -> Option<RoundStop>
    ensures { IsNoteStop spied goal reply.now result }
{
    match reply {
        Reply::Refused(Fault::Memory) => Some(RoundStop::Memory),
        Reply::Noted(_, Verdict::Failed(_)) => Some(RoundStop::Clash(goal)),
        Reply::Noted(_, Verdict::Ready) => {
            if spied {
                return Some(RoundStop::Spied(goal));
            }
            None
        }
        _ => None,
    }
}

// The stop for memory, if the reply says that memory was refused.
pub fn stop_of_settling(reply: &Reply) -> Option<RoundStop>
    ensures { IsSettlingStop reply.now result }
{
    match reply {
        Reply::Refused(Fault::Memory) => Some(RoundStop::Memory),
        _ => None,
    }
}

// The step that was taken, and how many goals it made; or none, if the reply tells of no step.
pub fn step_and_made(reply: &Reply, made: u32) -> (u32, u32)
    ensures step { result.0 ≡ step_in reply.now }
    ensures made { result.1 ≡ made_if_stepped reply.now made }
{
    match reply {
        Reply::Stepped(step) => (*step, made),
        _ => (0, 0),
    }
}
