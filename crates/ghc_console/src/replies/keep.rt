// The commands that keep what the value of a variable rests on, or a goal: each other step is rolled back.
ghost use Rattle.std.specs.Prelude.{◌≡◌, [], List, ℕ, IfOk, MatchOption, None, OnErr, OnOk, Some, string_bytes};
ghost use Rattle.std.specs.FinMap as finite;
ghost use Rattle.ghc_term.specs.Goal.{Goal as goal_spec};
ghost use Rattle.ghc_term.specs.Lists.{In};
ghost use Rattle.ghc_records.specs.Orders.{Picks};
ghost use Rattle.ghc_records.specs.Record.{numbers};
ghost use Rattle.ghc_trace.specs.Causes.{IsToldGoalSliceOf};
ghost use Rattle.ghc_console.specs.Keeping.{TellsKept};
ghost use Rattle.ghc_console.specs.Replies.{RepliesToKeep, RepliesToKeepGoal};

use crate::named_variable::variable_named;
use crate::replies::outside::outside;
use crate::replies::refused;
use crate::replies::rollbacks::take_back;
use ghc_core::Core;
use ghc_term::{Fault, GoalName};
use ghc_trace::{slice_of, slice_of_goal};
use std::alloc::{AllocError, Global};

// Rolls back each kept step that has none of these numbers, which are of kept steps, in recorded order.
fn keep_alone(
    alloc: Global,
    core: &mut Core,
    slice: &[u32],
    reply: &mut String,
) -> Result<(), AllocError>
    requires empty { string_bytes reply.old ≡ [] }
    requires slice { Picks (λ n. In n slice.now) (numbers core.old.world.kept) slice.now }
    ensures told { OnOk result ((ns : List ℕ) × Picks (λ n. ¬ In n slice.now) (numbers core.old.world.kept) ns × TellsKept core.old.world ns (string_bytes reply.new) core.new.world) }
    ensures err { OnErr result (core.new.world ≡ core.old.world) }
    ensures firings { core.new.meter.firings ≡ core.old.meter.firings }
{
    let kept = core.kept_numbers(alloc)?;
    let rest = outside(alloc, kept.as_slice(), slice)?;
    take_back(alloc, core, rest.as_slice(), reply)
}

/// Rolls back each kept step outside of the slice of the variable that the word names, in recorded order, as far as it is still kept
/// then. It tells which steps are undone, a line for each rollback, and how many are kept then; or the refusal. Where memory is refused
/// on the way, what was rolled back stays so, and the refusal stands in place of the rest. An error leaves the world as it was. It costs
/// what `slice_of` costs, a step for each place of the record, and what each rollback costs.
#[inline(never)]
pub fn keep(
    alloc: Global,
    core: &mut Core,
    word: &str,
    reply: &mut String,
) -> Result<(), AllocError>
    requires { string_bytes reply.old ≡ [] }
    ensures text { OnOk result (RepliesToKeep core.old.world word.now (string_bytes reply.new) core.new.world) }
    ensures err { OnErr result (core.new.world ≡ core.old.world) }
    ensures opening { core.new.world.opening ≡ core.old.world.opening }
    ensures firings { core.new.meter.firings ≡ core.old.meter.firings }
{
    let Some(x) = variable_named(core, word.as_bytes()) else {
        return refused(&Fault::NoVariable, reply);
    };
    core.stands();
    let slice = slice_of(alloc, core, x)?;
    keep_alone(alloc, core, slice.as_slice(), reply)
}

// The steps of the slice of the goal of this name, by their numbers, if there is such a goal.
fn slice_of_named(
    alloc: Global,
    core: &Core,
    name: GoalName,
) -> Result<Option<Vec<u32>>, AllocError>
    ensures { IfOk result (λ slice. MatchOption slice
        (finite.get core.now.world.state.goals name ≡ None)
        (λ told. (b : goal_spec) × (finite.get core.now.world.state.goals name ≡ Some b) × IsToldGoalSliceOf core.now.world.opening.program core.now.world.kept core.now.world.state name b told.items)) }
{
    match core.goals().get(name) {
        Some(goal) => {
            let slice = slice_of_goal(alloc, core, name, goal)?;
            Ok(Some(slice))
        }
        None => Ok(None),
    }
}

/// Rolls back each kept step outside of the slice of the goal of this name, in recorded order, as far as it is still kept then, and
/// tells it as `keep` does; or the refusal. Where memory is refused on the way, what was rolled back stays so, and the refusal stands
/// in place of the rest. An error leaves the world as it was. It costs what `slice_of_goal` costs, a step for each place of the record,
/// and what each rollback costs.
#[inline(never)]
pub fn keep_goal(
    alloc: Global,
    core: &mut Core,
    name: GoalName,
    reply: &mut String,
) -> Result<(), AllocError>
    requires { string_bytes reply.old ≡ [] }
    ensures text { OnOk result (RepliesToKeepGoal core.old.world name (string_bytes reply.new) core.new.world) }
    ensures err { OnErr result (core.new.world ≡ core.old.world) }
    ensures opening { core.new.world.opening ≡ core.old.world.opening }
    ensures firings { core.new.meter.firings ≡ core.old.meter.firings }
{
    let found = slice_of_named(alloc, core, name)?;
    let Some(slice) = found else {
        return refused(&Fault::NoGoal, reply);
    };
    core.stands();
    keep_alone(alloc, core, slice.as_slice(), reply)
}
