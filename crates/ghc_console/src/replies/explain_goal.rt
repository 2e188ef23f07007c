// The reply that tells why a goal is there and stands as it does.
ghost use Rattle.std.specs.Prelude.{◌≡◌, ◌++◌, [], List, ℕ, OnOk, string_bytes};
ghost use Rattle.ghc_core.specs.Settling.{AreKept};
ghost use Rattle.ghc_trace.specs.Laws.{IsSettled};
ghost use Rattle.ghc_console.specs.Explaining.{RepliesToExplainGoal, TellsOrigin};

use crate::replies::explain::push_steps_line;
use crate::replies::found::push_goal_named;
use crate::replies::refused;
use crate::replies::settled::settle;
use ghc_core::Core;
use ghc_term::{Goal, GoalName};
use ghc_trace::{holders_for, push_holders, push_steps, slice_of_goal};
use std::alloc::{AllocError, Global};

// Writes who else holds a variable for which the goal waits, the steps of its slice, and how many these are.
fn push_origin(
    alloc: Global,
    core: &Core,
    name: GoalName,
    goal: &Goal,
    reply: &mut String,
) -> Result<(), AllocError>
    requires settled { IsSettled core.now.world core.now.notes }
    ensures { OnOk result ((text : List ℕ) × TellsOrigin core.now.world name goal.now text × (string_bytes reply.new ≡ string_bytes reply.old ++ text)) }
{
    let slice = slice_of_goal(alloc, core, name, goal)?;
    let held = holders_for(alloc, core, name)?;
    push_holders(core, held.as_slice(), reply)?;
    push_steps(alloc, core, slice.as_slice(), reply)?;
    push_steps_line(core, slice.as_slice(), reply)?;
    Ok(())
}

/// Tells the goal of this name as `goals` does; for each variable for which it waits the other goals that hold it, with their status;
/// the kept steps that made the goal or bound what it looks at, with all on which these depend, in recorded order, each with the other
/// clauses by which it could have been; and how many of the kept steps these are. Or the refusal. What is untried is tried first. It
/// costs what `print_goal`, `slice_of_goal`, `holders_for` and `push_steps` cost.
#[inline(never)]
pub fn explain_goal(
    alloc: Global,
    core: &mut Core,
    name: GoalName,
    reply: &mut String,
) -> Result<(), AllocError>
    requires { string_bytes reply.old ≡ [] }
    ensures text { OnOk result (RepliesToExplainGoal core.old.world name (string_bytes reply.new)) }
    ensures world { core.new.world ≡ core.old.world }
    ensures kept { AreKept core.old.notes core.new.notes }
    ensures firings { core.new.meter.firings ≡ core.old.meter.firings }
{
    settle(alloc, core)?;
    match push_goal_named(alloc, core, name, reply) {
        Ok(goal) => push_origin(alloc, core, name, goal, reply),
        Err(fault) => refused(&fault, reply),
    }
}
