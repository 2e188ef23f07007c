// The reply that tells what a call was given, and what it gave.
ghost use Rattle.std.specs.Prelude.{◌≡◌, [], IfNone, IfSome, None, OnOk, Some, string_bytes};
ghost use Rattle.std.specs.FinMap as finite;
ghost use Rattle.ghc_term.specs.Lists.{In};
ghost use Rattle.ghc_core.specs.Settling.{AreKept};
ghost use Rattle.ghc_trace.specs.Laws.{IsSettled};
ghost use Rattle.ghc_console.specs.PartReplies.{RepliesToPart, TellsCallOrTooLong};

use crate::replies::refused;
use crate::replies::settled::settle;
use ghc_core::Core;
use ghc_records::Record;
use ghc_term::{Fault, Goal, GoalName, GoalView};
use ghc_trace::{push_call, taker_of};
use std::alloc::{AllocError, Global};

// Tells of the call of this name, which a kept step took, or which else is there.
fn told_call(
    alloc: Global,
    core: &Core,
    name: GoalName,
    goal: &Goal,
    taker: Option<&Record>,
    reply: &mut String,
) -> Result<(), AllocError>
    requires empty { string_bytes reply.old ≡ [] }
    requires settled { IsSettled core.now.world core.now.notes }
    requires taken { IfSome taker (λ r. In r.now core.now.world.kept × (r.now.goal ≡ Some name) × (r.now.consumed ≡ Some goal.now)) }
    requires there { IfNone taker (finite.get core.now.world.state.goals name ≡ Some goal.now) }
    ensures { OnOk result (TellsCallOrTooLong core.now.world name goal.now (string_bytes reply.new)) }
{
    match push_call(alloc, core, name, goal, taker, reply) {
        Ok(()) => Ok(()),
        Err(fault) => refused(&fault, reply),
    }
}

// Tells of the goal of this name, which a kept step took, or which else is there.
fn told_goal(
    alloc: Global,
    core: &Core,
    name: GoalName,
    goal: &Goal,
    taker: Option<&Record>,
    reply: &mut String,
) -> Result<(), AllocError>
    requires empty { string_bytes reply.old ≡ [] }
    requires settled { IsSettled core.now.world core.now.notes }
    requires taken { IfSome taker (λ r. In r.now core.now.world.kept × (r.now.goal ≡ Some name) × (r.now.consumed ≡ Some goal.now)) }
    requires there { IfNone taker (finite.get core.now.world.state.goals name ≡ Some goal.now) }
    ensures { OnOk result (RepliesToPart core.now.world name (string_bytes reply.new)) }
{
    match goal.view() {
        GoalView::Call(_, _) => told_call(alloc, core, name, goal, taker, reply),
        GoalView::Unify(_, _) => refused(&Fault::NoClause, reply),
        GoalView::Assign(_, _) => refused(&Fault::NoClause, reply),
        GoalView::Stream(_, _) => refused(&Fault::NoGoal, reply),
    }
}

// Tells of the goal of this name, which is not there, if a kept step took it.
fn told_taken(
    alloc: Global,
    core: &Core,
    name: GoalName,
    reply: &mut String,
) -> Result<(), AllocError>
    requires empty { string_bytes reply.old ≡ [] }
    requires settled { IsSettled core.now.world core.now.notes }
    requires gone { finite.get core.now.world.state.goals name ≡ None }
    ensures { OnOk result (RepliesToPart core.now.world name (string_bytes reply.new)) }
{
    core.stands();
    let Some(step) = taker_of(core.records(), name) else {
        return refused(&Fault::NoGoal, reply);
    };
    let goal = step.consumed().unwrap();
    told_goal(alloc, core, name, goal, Some(step), reply)
}

// Tells of the goal of this name, if there is or was one.
fn told_named(
    alloc: Global,
    core: &Core,
    name: GoalName,
    reply: &mut String,
) -> Result<(), AllocError>
    requires empty { string_bytes reply.old ≡ [] }
    requires settled { IsSettled core.now.world core.now.notes }
    ensures { OnOk result (RepliesToPart core.now.world name (string_bytes reply.new)) }
{
    match core.goals().get(name) {
        Some(goal) => told_goal(alloc, core, name, goal, None, reply),
        None => told_taken(alloc, core, name, reply),
    }
}

/// Tells what the call of this name was given by steps that are not of its part, the asks that reach into that, and whether it went in
/// turns. Where a kept step took the call, it tells what the call gave, each goal that the step made, and the step; else how the call
/// stands. It refuses with `NoGoal` where no goal of this name is there or was taken, or it is a stream; with `NoClause` where it is no
/// call; then with the limit `print`. What is untried is tried first. It costs what `taker_of` and `push_call` cost.
#[inline(never)]
pub fn part(
    alloc: Global,
    core: &mut Core,
    name: GoalName,
    reply: &mut String,
) -> Result<(), AllocError>
    requires { string_bytes reply.old ≡ [] }
    ensures text { OnOk result (RepliesToPart core.old.world name (string_bytes reply.new)) }
    ensures world { core.new.world ≡ core.old.world }
    ensures kept { AreKept core.old.notes core.new.notes }
    ensures firings { core.new.meter.firings ≡ core.old.meter.firings }
{
    settle(alloc, core)?;
    told_named(alloc, core, name, reply)
}
