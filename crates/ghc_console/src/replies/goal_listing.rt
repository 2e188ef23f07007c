// The listing of the goals, which is written line by line.
ghost use Rattle.std.specs.Prelude.{◌≡◌, ◌⊎◌, ◌↔◌, [], Some, List, ℕ, IsTrue, OnOk, string_bytes};
ghost use Rattle.std.specs.FinMap as finite;
ghost use Rattle.ghc_term.specs.declared.fault.Fault.{Fault};
ghost use Rattle.ghc_term.specs.Lists.{In};
ghost use Rattle.ghc_trace.specs.GoalLines.{IsGoalLineOf, IsTooLong, Named};
ghost use Rattle.ghc_trace.specs.inner.GoalLinesCode.{lent};
ghost use Rattle.ghc_trace.specs.Laws.{IsSettled};
ghost use Rattle.ghc_console.specs.inner.Device.{WritesFront};
ghost use Rattle.ghc_console.specs.inner.WritesTold.{WritesGoal, WritesGoals};
ghost use Rattle.ghc_console.specs.TextLines.{refusal};
ghost use Rattle.ghc_console.specs.Replies.{RepliesToGoals};
ghost use Rattle.ghc_console.specs.inner.OnlyWrites.{OnlyWrites};

use crate::devices::device::{Broken, Device};
use crate::devices::made_line::write_made;
use crate::devices::writing::write_all;
use crate::replies::run_lines::UNTOLD;
use crate::replies::settled::settle;
use crate::replies::write_refusal;
use ghc_core::Core;
use ghc_term::{Fault, Goal, GoalName, Limit, Store, print_goal};
use ghc_trace::push_goal;
use std::alloc::{AllocError, Global};
use std::collections::BTreeMap;

// Whether the refusal says that a text is too long to print.
fn is_of_print(fault: &Fault) -> bool
    ensures { IsTrue result ↔ (fault.now ≡ Fault.Limit Limit.Print) }
{
    match fault {
        Fault::Limit(Limit::Print) => true,
        _ => false,
    }
}

// Whether the text of the goal is too long; not, where memory is refused for it.
fn is_too_long(alloc: Global, goal: &Goal, store: &Store) -> bool
    ensures { IsTrue result → IsTooLong store.now.held goal.now }
{
    match print_goal(alloc, goal, store) {
        Ok(_) => false,
        Err(fault) => is_of_print(&fault),
    }
}

// Whether that of one of the goals is.
fn has_too_long(alloc: Global, goals: &BTreeMap<GoalName, &Goal>, store: &Store) -> bool
    ensures { IsTrue result → (goal : Named) × In goal (lent goals.now.entries) × IsTooLong store.now.held goal.1 }
{
    for (_, goal) in goals {
        if is_too_long(alloc, *goal, store) {
            return true;
        }
    }
    false
}

// The line of a goal, where its text is not too long.
fn tell_goal(
    alloc: Global,
    core: &Core,
    name: GoalName,
    goal: &Goal,
    line: &mut String,
) -> Result<(), AllocError>
    requires empty { string_bytes line.old ≡ [] }
    requires settled { IsSettled core.now.world core.now.notes }
    requires there { finite.get core.now.world.state.goals name ≡ Some goal.now }
    ensures text { OnOk result (IsGoalLineOf core.now.world name goal.now (string_bytes line.new)) }
    ensures short { OnOk result (¬ IsTooLong core.now.world.state.store goal.now) }
{
    match push_goal(alloc, core, name, goal, line) {
        Ok(()) => Ok(()),
        Err(_) => Err(AllocError),
    }
}

// Writes the line of a goal.
fn write_goal<D: Device>(
    alloc: Global,
    device: &mut D,
    core: &Core,
    name: GoalName,
    goal: &Goal,
    line: &mut String,
) -> Result<(), Broken>
    requires settled { IsSettled core.now.world core.now.notes }
    requires there { finite.get core.now.world.state.goals name ≡ Some goal.now }
    ensures told { WritesGoal core.now.world (name, goal.now) (D.written device.old) (D.written device.new) result }
    ensures writes { OnlyWrites D.Device device.old device.new result }
{
    line.clear();
    let made = tell_goal(alloc, core, name, goal, line);
    write_made(device, made, line)
}

// Writes the lines of the goals.
fn write_each<D: Device>(
    alloc: Global,
    device: &mut D,
    core: &Core,
    goals: &BTreeMap<GoalName, &Goal>,
    line: &mut String,
) -> Result<(), Broken>
    requires settled { IsSettled core.now.world core.now.notes }
    requires there { (goal : Named) → In goal (lent goals.now.entries) → finite.get core.now.world.state.goals goal.0 ≡ Some goal.1 }
    ensures told { WritesGoals core.now.world (lent goals.now.entries) (D.written device.old) (D.written device.new) result }
    ensures writes { OnlyWrites D.Device device.old device.new result }
{
    for (name, goal) in goals {
        write_goal(alloc, device, core, *name, *goal, line)?;
    }
    Ok(())
}

// Writes the goals in this order, or `none`, or the refusal where one is too long.
fn write_ordered<D: Device>(
    alloc: Global,
    device: &mut D,
    core: &Core,
    goals: &BTreeMap<GoalName, &Goal>,
    line: &mut String,
) -> Result<(), Broken>
    requires settled { IsSettled core.now.world core.now.notes }
    requires ordered { lent goals.now.entries ≡ finite.entries core.now.world.state.goals }
    ensures told { (text : List ℕ) × (RepliesToGoals core.now.world text ⊎ (text ≡ refusal Fault.Memory)) × WritesFront (D.written device.old) (D.written device.new) result text }
    ensures writes { OnlyWrites D.Device device.old device.new result }
{
    if goals.len() == 0 {
        return write_all(device, b"none\n");
    }
    if has_too_long(alloc, goals, core.store()) {
        return write_refusal(device, &Fault::Limit(Limit::Print), line);
    }
    write_each(alloc, device, core, goals, line)
}

// Writes the goals, which were all tried.
fn write_tried<D: Device>(
    alloc: Global,
    device: &mut D,
    core: &Core,
    line: &mut String,
) -> Result<(), Broken>
    requires settled { IsSettled core.now.world core.now.notes }
    ensures told { (text : List ℕ) × (RepliesToGoals core.now.world text ⊎ (text ≡ refusal Fault.Memory)) × WritesFront (D.written device.old) (D.written device.new) result text }
    ensures writes { OnlyWrites D.Device device.old device.new result }
{
    match core.goals().by_name(alloc) {
        Ok(ordered) => write_ordered(alloc, device, core, &ordered, line),
        Err(_) => write_all(device, UNTOLD.as_bytes()),
    }
}

/// Writes each goal with its status, a line each by name, or `none`, one at a time, in place of what stands in the text; or the
/// refusal where one is too long to print. What is untried is tried first. Where memory is refused for a line, that stands in its
/// place; where it is refused for the tries or for the order, that stands alone. It costs some look-ups for each goal, and twice what
/// it costs to print each; and memory for the order and for one line.
pub(crate) fn write_goals<D: Device>(
    alloc: Global,
    device: &mut D,
    core: &mut Core,
    line: &mut String,
) -> Result<(), Broken>
    ensures told { (text : List ℕ) × (RepliesToGoals core.old.world text ⊎ (text ≡ refusal Fault.Memory)) × WritesFront (D.written device.old) (D.written device.new) result text }
    ensures world { core.new.world ≡ core.old.world }
    ensures firings { core.new.meter.firings ≡ core.old.meter.firings }
    ensures writes { OnlyWrites D.Device device.old device.new result }
{
    match settle(alloc, core) {
        Ok(()) => write_tried(alloc, device, core, line),
        Err(_) => write_all(device, UNTOLD.as_bytes()),
    }
}
