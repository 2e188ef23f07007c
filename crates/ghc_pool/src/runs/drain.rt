// A stretch of a run: steps taken one after another, as long as a goal is met that can be stepped.
ghost use Rattle.std.specs.Prelude.{◌≡◌, ◌≤◌, ◌++◌, true, false, OnErr, OnOk};
ghost use mathlib.Core.List.{IsPrefix};
ghost use Rattle.ghc_term.specs.declared.goal_name.GoalName.{GoalName as goal_name};
ghost use Rattle.ghc_records.specs.Record.{Record as record_spec};
ghost use Rattle.ghc_core.specs.Settling.{AreKept};
ghost use Rattle.ghc_pool.specs.Runs.{HasFailed, HasMetNoFailure};
ghost use Rattle.ghc_pool.specs.inner.Meeting.{TookInQuestion, HasStepped, IsMet, made_back};
ghost use Rattle.ghc_pool.specs.inner.Stretches.{TakesSoMany};

use crate::runs::meet::{Met, is_to_meet, meet};
use ghc_core::Core;
use ghc_term::GoalName;
use ghc_trace::SpySet;
use std::alloc::{AllocError, Global};

// Meets the goals that are listed and still untried or noted as ready, the last one first, up to one that the run does not go by.
fn among_listed(
    core: &mut Core,
    alloc: Global,
    spies: &SpySet,
    root: Option<GoalName>,
    since: u32,
    listed: &mut Vec<GoalName>,
) -> Met
    requires took { TookInQuestion root core.old.world.kept since }
    requires unfailed { HasMetNoFailure root core.old.world.kept core.old.notes }
    ensures { IsMet spies.now root core.old.world core.old.notes result core.new.world core.new.notes }
{
    while let Some(goal) = listed.pop() {
        core.stands();
        if is_to_meet(core, goal) {
            match meet(core, alloc, spies, root, since, goal) {
                Met::Passed => {}
                met => return met,
            }
        }
    }
    Met::Passed
}

// Meets the untried goals, up to one that the run does not go by.
fn among_untried(
    core: &mut Core,
    alloc: Global,
    spies: &SpySet,
    root: Option<GoalName>,
    since: u32,
) -> Met
    requires took { TookInQuestion root core.old.world.kept since }
    requires unfailed { HasMetNoFailure root core.old.world.kept core.old.notes }
    ensures { IsMet spies.now root core.old.world core.old.notes result core.new.world core.new.notes }
{
    while let Some(goal) = core.tries().next_untried() {
        core.stands();
        match meet(core, alloc, spies, root, since, goal) {
            Met::Passed => {}
            met => return met,
        }
    }
    Met::Passed
}

// Takes a step, where one is found: the goals that are listed come before the others that are untried, which were woken.
fn take_one(
    core: &mut Core,
    alloc: Global,
    spies: &SpySet,
    root: Option<GoalName>,
    since: u32,
    listed: &mut Vec<GoalName>,
) -> Met
    requires took { TookInQuestion root core.old.world.kept since }
    requires unfailed { HasMetNoFailure root core.old.world.kept core.old.notes }
    ensures { IsMet spies.now root core.old.world core.old.notes result core.new.world core.new.notes }
{
    match among_listed(core, alloc, spies, root, since, listed) {
        Met::Passed => among_untried(core, alloc, spies, root, since),
        met => met,
    }
}

// Lists the goals that a step made, the first one last. Where memory is refused some are not listed, and are met after all that are.
fn list_made(step: u32, count: u32, listed: &mut Vec<GoalName>) -> Result<(), AllocError>
    ensures all { OnOk result (listed.new.items ≡ listed.old.items ++ made_back step count) }
    ensures some { OnErr result (IsPrefix listed.new.items (listed.old.items ++ made_back step count)) }
{
    for index in 0..count {
        let place = count - index;
        listed.push(GoalName { step, place })?;
    }
    Ok(())
}

// Takes one step, lists the goals that it makes, and says whether one was taken.
fn advance(
    core: &mut Core,
    alloc: Global,
    spies: &SpySet,
    root: Option<GoalName>,
    since: u32,
    listed: &mut Vec<GoalName>,
) -> bool
    requires took { TookInQuestion root core.old.world.kept since }
    requires unfailed { HasMetNoFailure root core.old.world.kept core.old.notes }
    ensures step { result ≡ true → (r : record_spec) × HasStepped spies.now root core.old.world core.old.notes r core.new.world core.new.notes }
    ensures none { result ≡ false → (core.new.world ≡ core.old.world) × AreKept core.old.notes core.new.notes }
{
    match take_one(core, alloc, spies, root, since, listed) {
        Met::Stepped(step, count) => {
            let _ = list_made(step, count, listed);
            true
        }
        Met::Stop => false,
        Met::Passed => false,
    }
}

// Takes steps of goals that are listed or untried, at most as many as it may, and says how many: one attempt each. The last one
// listed comes first, and what a step makes is listed. It ends at a goal that may be a reason to stop, as one in question that has
// failed, where memory is refused, or where none of the goals is left.
pub fn drain(
    core: &mut Core,
    alloc: Global,
    spies: &SpySet,
    root: Option<GoalName>,
    most: usize,
    listed: &mut Vec<GoalName>,
) -> usize
    requires { (g : goal_name) → ¬ HasFailed root core.old.world g }
    ensures taken { TakesSoMany result 1 spies.now root core.old.world core.old.notes core.new.world core.new.notes }
    ensures few { result ≤ most }
{
    core.stands();
    let since = core.next();
    for taken in 0..most {
        if !advance(core, alloc, spies, root, since, listed) {
            return taken;
        }
    }
    most
}
