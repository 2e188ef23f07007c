// A step with the goal that it took. Where memory is refused, a part of it may stand written.
ghost use Rattle.std.specs.Prelude.{◌≡◌, ◌++◌, OnOk, string_bytes};
ghost use Rattle.ghc_trace.specs.StepGoals.{goal_behind, step_with_goal};

use ghc_records::{Record, push_step};
use ghc_term::push_goal_written;
use std::alloc::AllocError;

// Writes the goal that the step took, as it was written then, after a space, if it took one.
fn push_goal_behind(step: &Record, out: &mut String) -> Result<(), AllocError>
    ensures { OnOk result (string_bytes out.new ≡ string_bytes out.old ++ goal_behind step.now.consumed) }
{
    match step.consumed() {
        Some(goal) => {
            out.push_str(" ")?;
            push_goal_written(goal, out)
        }
        None => Ok(()),
    }
}

/// Writes the step at the end of `out`, and then the goal that it took, as it was written then, as `17 9.3 by 8 skip(_1_2)`. It fails
/// only where memory is refused. It costs the text.
pub fn push_step_with_goal(step: &Record, out: &mut String) -> Result<(), AllocError>
    ensures { OnOk result (string_bytes out.new ≡ string_bytes out.old ++ step_with_goal step.now) }
{
    push_step(step, out)?;
    push_goal_behind(step, out)
}
