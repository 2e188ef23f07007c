// The slice of a goal: the kept steps that made it or bound what it looks at, and all on which these depend.
ghost use Rattle.std.specs.Prelude.{◌↔◌, IfOk};
ghost use Rattle.ghc_term.specs.Lists.{In};
ghost use Rattle.ghc_term.specs.Store.{value_at};
ghost use Rattle.ghc_match.specs.Looked.{GoalLooksAt};
ghost use Rattle.ghc_records.specs.Record.{Record};
ghost use Rattle.ghc_depend.specs.Slices.{GaveGoal};
ghost use Rattle.ghc_trace.specs.Causes.{AreBindersOf, IsToldGoalSliceOf};

use crate::given::binders_of;
use crate::slices::slice;
use ghc_core::{Core, is_stream};
use ghc_depend::place_of_goal_maker;
use ghc_hooks::try_goal;
use ghc_term::{Goal, GoalName};
use std::alloc::{AllocError, Global};

// The numbers of the kept steps that bound what the goal looks at. It costs a try of the goal, and a look-up for each variable.
fn binders_for(alloc: Global, core: &Core, goal: &Goal) -> Result<Vec<u32>, AllocError>
    ensures { IfOk result (λ ns. AreBindersOf core.now.world.kept (GoalLooksAt core.now.world.opening.program (value_at core.now.world.state.store) goal.now) ns.items) }
{
    if is_stream(goal) {
        return Ok(Vec::new(alloc));
    }
    let note = try_goal(alloc, core.program(), core.store(), goal)?;
    binders_of(alloc, core.records(), note.looked().members())
}

// The numbers of the kept steps that bound what the goal looks at, and of the one that made it.
fn given_to_goal(
    alloc: Global,
    core: &Core,
    name: GoalName,
    goal: &Goal,
) -> Result<Vec<u32>, AllocError>
    ensures { IfOk result (λ ns. (r : Record) → In r core.now.world.kept → (In r.number ns.items ↔ GaveGoal core.now.world.opening.program (value_at core.now.world.state.store) name goal.now r)) }
{
    let records = core.records();
    let _count = records.len();
    let mut givers = binders_for(alloc, core, goal)?;
    if place_of_goal_maker(records, name).is_some() {
        givers.push(name.step)?;
    }
    Ok(givers)
}

/// The numbers of the steps of the slice of the goal of this name, in recorded order. These are the kept steps that made it or bound
/// what it looks at, and all on which those depend. It fails only where memory is refused. It costs a try of the goal, and what
/// `slice` costs.
pub fn slice_of_goal(
    alloc: Global,
    core: &Core,
    name: GoalName,
    goal: &Goal,
) -> Result<Vec<u32>, AllocError>
    ensures { IfOk result (λ told. IsToldGoalSliceOf core.now.world.opening.program core.now.world.kept core.now.world.state name goal.now told.items) }
{
    let givers = given_to_goal(alloc, core, name, goal)?;
    slice(alloc, core.records(), givers.as_slice())
}
