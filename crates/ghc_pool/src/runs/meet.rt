// What a run does with a goal that it meets.
ghost use Rattle.std.specs.Prelude.{◌≡◌, ◌↔◌, IsTrue, Some, Option as option};
ghost use Rattle.std.specs.FinMap as finite;
ghost use Rattle.ghc_term.specs.Goal.{Goal as goal_spec};
ghost use Rattle.ghc_term.specs.declared.goal_name.GoalName.{GoalName as goal_name};
ghost use Rattle.ghc_term.specs.Sets.{Variables};
ghost use Rattle.ghc_hooks.specs.Verdict.{status_of};
ghost use Rattle.ghc_hooks.specs.Status.{ready, waiting};
ghost use Rattle.ghc_core.specs.World.{IsNextStep};
ghost use Rattle.ghc_core.specs.Core.{Core as core_spec};
ghost use Rattle.ghc_core.specs.Settling.{AreKept};
ghost use Rattle.ghc_trace.specs.Spies.{Spies};
ghost use Rattle.ghc_pool.specs.Runs.{HasMetNoFailure};
ghost use Rattle.ghc_pool.specs.inner.Meeting.{TookInQuestion, WasTried, WasTaken, IsMet, IsPassed, IsNotedReady, IsNotedWaiting, IsToMeet};

use crate::runs::question::{is_in_question_since, is_spied_in};
use ghc_core::Core;
use ghc_hooks::Verdict;
use ghc_records::Record;
use ghc_term::{Fault, GoalName};
use ghc_trace::SpySet;
use std::alloc::Global;

// What a run made of a goal that it met.
#[derive(Clone, Copy, Drop)]
pub enum Met {
    // It took a step of it, which has this number and made so many goals.
    Stepped(u32, u32),
    // It may be a reason to stop, or memory was refused.
    Stop,
    // It was tried and noted, and the run goes by it.
    Passed,
}

// Whether the verdict is that a goal can be reduced.
fn is_ready(verdict: &Verdict) -> bool
    ensures { IsTrue result ↔ (status_of verdict.now ≡ ready) }
{
    match verdict {
        Verdict::Ready => true,
        Verdict::Waiting(_) => false,
        Verdict::Failed(_) => false,
    }
}

// Whether the verdict is that a goal waits.
fn is_waiting(verdict: &Verdict) -> bool
    ensures { IsTrue result ↔ ((xs : Variables) × (status_of verdict.now ≡ waiting xs)) }
{
    match verdict {
        Verdict::Ready => false,
        Verdict::Waiting(_) => true,
        Verdict::Failed(_) => false,
    }
}

// Whether the goal is noted as ready: one look-up.
fn is_noted_ready(core: &Core, goal: GoalName) -> bool
    ensures { IsTrue result ↔ IsNotedReady core.now.notes goal }
{
    match core.tries().get(goal) {
        Some(note) => is_ready(note.verdict()),
        None => false,
    }
}

// Whether the goal is noted as waiting: one look-up.
fn is_noted_waiting(core: &Core, goal: GoalName) -> bool
    ensures { IsTrue result ↔ IsNotedWaiting core.now.notes goal }
{
    match core.tries().get(goal) {
        Some(note) => is_waiting(note.verdict()),
        None => false,
    }
}

// Whether the goal is untried or noted as ready: two look-ups.
pub fn is_to_meet(core: &Core, goal: GoalName) -> bool
    ensures { IsTrue result ↔ IsToMeet core.now goal }
{
    if core.tries().is_untried(goal) {
        return true;
    }
    is_noted_ready(core, goal)
}

// Tries the goal and notes the outcome, where memory is found: one try.
fn pass(core: &mut Core, alloc: Global, goal: GoalName) -> Met
    ensures world { core.new.world ≡ core.old.world }
    ensures kept { AreKept core.old.notes core.new.notes }
    ensures tried { WasTried core.old.world goal core.old.notes result core.new.notes }
    ensures passed { IsPassed core.old goal result core.new }
{
    match core.note(alloc, goal) {
        Ok(()) => Met::Passed,
        Err(_) => Met::Stop,
    }
}

// The same, for a spied goal: the run goes by it if it waits.
fn pass_spied(core: &mut Core, alloc: Global, goal: GoalName) -> Met
    ensures met { (spies : Spies) (root : option goal_name) → HasMetNoFailure root core.old.world.kept core.old.notes → IsMet spies root core.old.world core.old.notes result core.new.world core.new.notes }
    ensures passed { IsPassed core.old goal result core.new }
{
    let met = pass(core, alloc, goal);
    if is_noted_waiting(core, goal) {
        return met;
    }
    Met::Stop
}

// Takes a step that was found; where memory is refused for it nothing changes.
fn take(core: &mut Core, alloc: Global, step: Record) -> Met
    requires { IsNextStep core.old.world step }
    ensures taken { WasTaken core.old.world core.old.notes step result core.new.world core.new.notes }
    ensures passed { (before : core_spec) (g : goal_name) → IsPassed before g result core.new }
{
    let (number, count) = (step.number(), step.effect().made());
    match core.take_step(alloc, step) {
        Ok(()) => Met::Stepped(number, count),
        Err(_) => Met::Stop,
    }
}

// Meets a goal: a step of it is taken, with one attempt, or the run goes by it or may have to stop. It is noted only where its
// step is refused since it waits, where it is spied, or where it is not in question; so the run goes by no failed goal in question.
// Since the number given each kept step took a goal in question.
#[inline(always)]
pub fn meet(
    core: &mut Core,
    alloc: Global,
    spies: &SpySet,
    root: Option<GoalName>,
    since: u32,
    goal: GoalName,
) -> Met
    requires there { (b : goal_spec) × (finite.get core.old.world.state.goals goal ≡ Some b) }
    requires took { TookInQuestion root core.old.world.kept since }
    requires unfailed { HasMetNoFailure root core.old.world.kept core.old.notes }
    ensures met { IsMet spies.now root core.old.world core.old.notes result core.new.world core.new.notes }
    ensures passed { IsPassed core.old goal result core.new }
{
    if !is_in_question_since(core, root, since, goal) {
        return pass(core, alloc, goal);
    }
    if is_spied_in(core, spies, goal) {
        return pass_spied(core, alloc, goal);
    }
    core.stands();
    match core.prepare_step(alloc, goal, None) {
        Ok(step) => take(core, alloc, step),
        Err(Fault::Waits) => pass(core, alloc, goal),
        Err(_) => Met::Stop,
    }
}
