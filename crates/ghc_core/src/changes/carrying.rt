// Noted outcomes and untried goals, carried over a step that is taken or taken away.
ghost use Rattle.std.specs.Prelude.{◌≡◌, ◌↔◌, ◌<◌, ◌≤◌, ◌+◌, false, length, None, Some, IfOk, IsTrue};
ghost use Rattle.std.specs.FinMap as finite;
ghost use Rattle.std.specs.FinSet as set;
ghost use Rattle.ghc_term.specs.declared.goal_name.GoalName.{GoalName};
ghost use Rattle.ghc_flat.specs.Flat.{is_stream};
ghost use Rattle.ghc_hooks.specs.Tries.{AreSpared, AreWoken};
ghost use Rattle.ghc_records.specs.Replay.{MakesGoal};
ghost use Rattle.ghc_core.specs.inner.Carried.{IsBound, IsGiven, Consumed, AreDropped, AreMarked, AreCarriedOver, AreCarriedBack, IsToTry, ConsumedToTry};

use ghc_hooks::Tries;
use ghc_records::Record;
use ghc_term::{Bindings, Goal, GoalName, GoalView};
use std::alloc::{AllocError, Global};

/// Whether it is a stream goal, which nobody tries.
pub fn is_stream(goal: &Goal) -> bool
    ensures { result ≡ is_stream goal.now }
{
    matches!(goal.view(), GoalView::Stream(_, _))
}

// Takes away the note or the mark of the goal of this name, if one is named.
#[inline(always)]
fn drop_named(tries: &mut Tries, name: Option<GoalName>)
    ensures dropped { AreDropped (λ g. name ≡ Some g) tries.old tries.new }
    ensures room { tries.old.room ≤ tries.new.room }
{
    if let Some(goal) = name {
        tries.drop_goal(goal);
    }
}

// Takes away the notes and the marks of the goals `n.1`, .., `n.k`.
fn drop_made(tries: &mut Tries, step: u32, count: u32)
    ensures dropped { AreDropped (IsGiven step 0 count) tries.old tries.new }
    ensures room { tries.old.room ≤ tries.new.room }
{
    let mut place = count;
    while place > 0 {
        tries.drop_goal(GoalName { step, place });
        place -= 1;
    }
}

// What the bindings bind was bound or freed: each goal whose note looked at it loses the note and is untried again.
#[inline(always)]
fn wake_at_bound(tries: &mut Tries, binds: &Bindings)
    ensures notes { AreSpared (IsBound binds.now) tries.old.notes tries.new.notes }
    ensures untried { AreWoken (IsBound binds.now) tries.old.notes tries.old.untried tries.new.untried }
    ensures room { tries.old.room ≤ tries.new.room }
{
    for (x, _) in binds.entries() {
        tries.wake_at(*x);
    }
}

// Marks the goal untried, unless it is a stream goal.
#[inline(always)]
fn mark(tries: &mut Tries, name: GoalName, goal: &Goal)
    requires room { 0 < tries.old.room }
    requires new { finite.get tries.old.notes name ≡ None }
    ensures marked { AreMarked (λ g. (g ≡ name) × (is_stream goal.now ≡ false)) tries.old tries.new }
    ensures room { tries.old.room ≤ tries.new.room + 1 }
{
    if !is_stream(goal) {
        tries.add_goal(name);
    }
}

/// Marks the goals `n.1`, `n.2`, .., of which there are as many as counted, untried, but for stream goals, where there is
/// room: a look-up for each.
#[inline(always)]
pub(crate) fn mark_made(tries: &mut Tries, step: u32, makes: &[Goal], count: u32)
    requires count { count ≡ length makes.now }
    requires room { length makes.now ≤ tries.old.room }
    requires new { (g : GoalName) → IsGiven step 0 count g → finite.get tries.old.notes g ≡ None }
    ensures { AreMarked (IsToTry step makes.now) tries.old tries.new }
{
    for index in 0..count {
        let name = GoalName {
            step,
            place: index + 1,
        };
        mark(tries, name, &makes[index as usize]);
    }
}

/// The tries of a query's goals before any step: each goal is untried, but for stream goals, and none is noted. It costs a
/// look-up for each goal.
pub(crate) fn tries_of(alloc: Global, goals: &[Goal]) -> Result<Tries, AllocError>
    requires count { length goals.now ≤ 4294967295 }
    ensures notes { IfOk result (λ tries. tries.notes ≡ finite.empty) }
    ensures untried { IfOk result (λ tries. (g : GoalName) → IsTrue (set.contains tries.untried g) ↔ IsToTry 0 goals.now g) }
{
    let mut tries = Tries::new(alloc);
    tries.reserve(goals.len(), 0)?;
    mark_made(&mut tries, 0, goals, goals.len() as u32);
    Ok(tries)
}

// Marks the goal that a step consumed untried, if it consumed one, unless it is a stream goal.
fn mark_consumed(tries: &mut Tries, step: &Record)
    requires room { 0 < tries.old.room }
    requires new { (g : GoalName) → Consumed step.now g → finite.get tries.old.notes g ≡ None }
    ensures marked { AreMarked (ConsumedToTry step.now) tries.old tries.new }
    ensures room { tries.old.room ≤ tries.new.room + 1 }
{
    if let (Some(name), Some(goal)) = (step.goal(), step.consumed()) {
        mark(tries, name, goal);
    }
}

/// Carries notes and marks over a step that was taken, where there is room for the goals that it made. It costs a look-up for
/// each goal and each binding, and some for each goal that looked at what was bound.
#[inline(always)]
pub(crate) fn carry_over(tries: &mut Tries, step: &Record)
    requires room { length step.now.effect.makes ≤ tries.old.room }
    requires new { (g : GoalName) → MakesGoal step.now g → finite.get tries.old.notes g ≡ None }
    ensures { AreCarriedOver step.now tries.old tries.new }
{
    let effect = step.effect();
    drop_named(tries, step.goal());
    wake_at_bound(tries, effect.binds());
    mark_made(tries, step.number(), effect.makes(), effect.made());
}

/// Carries notes and marks over a step that was taken away, where there is room for a goal, at the same cost.
pub(crate) fn carry_back(tries: &mut Tries, step: &Record)
    requires room { 0 < tries.old.room }
    requires new { (g : GoalName) → Consumed step.now g → finite.get tries.old.notes g ≡ None }
    ensures carried { AreCarriedBack step.now tries.old tries.new }
    ensures room { tries.old.room ≤ tries.new.room + 1 }
{
    drop_made(tries, step.number(), step.effect().made());
    wake_at_bound(tries, step.effect().binds());
    mark_consumed(tries, step);
}
