// The effect of an act on a goal, and whether it is one that was recorded.
ghost use Rattle.std.specs.Prelude.{◌≡◌, ◌≢◌, ◌↔◌, IfOk, IfSome, IfNone, IsTrue};
ghost use Rattle.ghc_term.specs.Store.{value_at};
ghost use Rattle.ghc_fire.specs.Effect.{Effect as effect_spec, Reduces, Unites, Assigns, HasEffect};
ghost use Rattle.ghc_fire.specs.Meter.{fired};

use crate::act::Act;
use crate::calls::attempt_choice;
use crate::effect::Effect;
use crate::equations::{attempt_assignment, attempt_unification};
use crate::meter::Meter;
use crate::streams::{close, feed};
use ghc_flat::Program;
use ghc_term::{Expr, Fault, Goal, GoalView, Name, Store, Term};
use std::alloc::{AllocError, Global};

// What a refusal says of an effect: there is none, unless memory was refused.
fn none_but_memory(fault: Fault) -> Result<Option<Effect>, AllocError>
    ensures some { IfOk result (λ found. IfSome found (λ e. ⊥)) }
    ensures none { IfOk result (λ found. fault ≢ Fault.Memory) }
{
    match fault {
        Fault::Memory => Err(AllocError),
        _ => Ok(None),
    }
}

// The effect of the call's reduction by the clause of this number, as this step; none where the clause does not accept it.
#[inline(always)]
fn by_clause(
    alloc: Global,
    program: &Program,
    store: &Store,
    name: &Name,
    arguments: &[Term],
    clause: u32,
    step: u32,
) -> Result<Option<Effect>, AllocError>
    ensures some { IfOk result (λ found. IfSome found (Reduces program.now name.now arguments.now clause step (value_at store.now.held))) }
    ensures none { IfOk result (λ found. IfNone found ((e : effect_spec) → ¬ Reduces program.now name.now arguments.now clause step (value_at store.now.held) e)) }
{
    store.acyclic();
    match attempt_choice(alloc, program, store, name, arguments, clause, step) {
        Ok(effect) => Ok(Some(effect)),
        Err(fault) => none_but_memory(fault),
    }
}

// The effect of the unification of the two sides; none where they cannot be made equal.
#[inline(always)]
fn by_unification(
    alloc: Global,
    store: &Store,
    left: &Term,
    right: &Term,
) -> Result<Option<Effect>, AllocError>
    ensures some { IfOk result (λ found. IfSome found (Unites left.now right.now (value_at store.now.held))) }
    ensures none { IfOk result (λ found. IfNone found ((e : effect_spec) → ¬ Unites left.now right.now (value_at store.now.held) e)) }
{
    store.acyclic();
    match attempt_unification(alloc, store, left, right) {
        Ok(effect) => Ok(Some(effect)),
        Err(fault) => none_but_memory(fault),
    }
}

// The effect of the assignment of the expression's value; none where it has no value, or not that of the left side.
fn by_assignment(
    alloc: Global,
    store: &Store,
    left: &Term,
    value: &Expr,
) -> Result<Option<Effect>, AllocError>
    ensures some { IfOk result (λ found. IfSome found (Assigns left.now value.now (value_at store.now.held))) }
    ensures none { IfOk result (λ found. IfNone found ((e : effect_spec) → ¬ Assigns left.now value.now (value_at store.now.held) e)) }
{
    store.acyclic();
    match attempt_assignment(alloc, store, left, value) {
        Ok(effect) => Ok(Some(effect)),
        Err(fault) => none_but_memory(fault),
    }
}

// The effect of the act on the goal as the step of this number, if it has one.
#[inline(always)]
fn effect_of(
    alloc: Global,
    program: &Program,
    store: &Store,
    goal: &Goal,
    act: &Act,
    number: u32,
) -> Result<Option<Effect>, AllocError>
    ensures some { IfOk result (λ found. IfSome found (HasEffect program.now goal.now act.now number (value_at store.now.held))) }
    ensures none { IfOk result (λ found. IfNone found ((e : effect_spec) → ¬ HasEffect program.now goal.now act.now number (value_at store.now.held) e)) }
{
    store.acyclic();
    match (goal.view(), act) {
        (GoalView::Call(name, arguments), Act::ByClause(clause)) => {
            by_clause(alloc, program, store, name, arguments, *clause, number)
        }
        (GoalView::Unify(left, right), Act::Unified) => by_unification(alloc, store, left, right),
        (GoalView::Assign(left, value), Act::Assigned) => by_assignment(alloc, store, left, value),
        (GoalView::Stream(stream, tail), Act::Given(input)) => {
            feed(alloc, store, stream, tail, input, number)
        }
        (GoalView::Stream(_, tail), Act::Closed) => close(alloc, store, tail),
        _ => Ok(None),
    }
}

/// The effect of the act on the goal as the step of this number, if it has one, and counts a firing; an act of another kind
/// than the goal has none. It fails only where memory is refused. It costs what an attempt at the goal with this act costs, or for
/// a stream a look-up for each variable of its tail's chain.
pub fn effect_as(
    alloc: Global,
    meter: &mut Meter,
    program: &Program,
    store: &Store,
    goal: &Goal,
    act: &Act,
    number: u32,
) -> Result<Option<Effect>, AllocError>
    ensures some { IfOk result (λ found. IfSome found (HasEffect program.now goal.now act.now number (value_at store.now.held))) }
    ensures none { IfOk result (λ found. IfNone found ((e : effect_spec) → ¬ HasEffect program.now goal.now act.now number (value_at store.now.held) e)) }
    ensures counted { meter.new ≡ fired meter.old }
{
    meter.count_firing();
    effect_of(alloc, program, store, goal, act, number)
}

/// Whether the act on the goal has this effect as the step of this number, and counts a firing. It fails only where
/// memory is refused. It costs what an attempt at the goal with this act costs, or for a stream a look-up for each variable of its
/// tail's chain, and a comparison with the effect as written.
pub fn has_effect(
    alloc: Global,
    meter: &mut Meter,
    program: &Program,
    store: &Store,
    goal: &Goal,
    act: &Act,
    number: u32,
    effect: &Effect,
) -> Result<bool, AllocError>
    ensures answer { IfOk result (λ yes. IsTrue yes ↔ HasEffect program.now goal.now act.now number (value_at store.now.held) effect.now) }
    ensures counted { meter.new ≡ fired meter.old }
{
    store.acyclic();
    meter.count_firing();
    match effect_of(alloc, program, store, goal, act, number)? {
        Some(found) => found.same(alloc, effect),
        None => Ok(false),
    }
}
