// What a step of a goal would do, and what it does as a step of some number.
ghost use Rattle.std.specs.Prelude.{◌≡◌, ◌⊎◌, Err, IfOk, IfErr};
ghost use Rattle.ghc_term.specs.Answered.{Answered};
ghost use Rattle.ghc_term.specs.Store.{value_at};
ghost use Rattle.ghc_flat.specs.Clause.{Program as program_spec};
ghost use Rattle.ghc_fire.specs.Attempt.{proposes, refused, ChoiceAnswers, UnificationAnswers, AssignmentAnswers, AttemptsAs, Attempts};
ghost use Rattle.ghc_fire.specs.Attempted.{AttemptsAt, IsProposed, IsFiredAs};
ghost use Rattle.ghc_fire.specs.Effect.{no_step};
ghost use Rattle.ghc_fire.specs.Firing.{IsReductionOf};
ghost use Rattle.ghc_fire.specs.Meter.{fired};
ghost use Rattle.ghc_fire.specs.Proposal.{under};

use crate::act::Act;
use crate::calls::{attempt_call, attempt_choice};
use crate::effect::{Effect, NO_STEP};
use crate::equations::{attempt_assignment, attempt_unification};
use crate::firing::{Firing, Reduction};
use crate::goals::Goals;
use crate::instances::number_goals;
use crate::meter::Meter;
use crate::proposal::Proposal;
use ghc_flat::Program;
use ghc_term::{Expr, Fault, GoalName, GoalView, Name, Store, Term};
use std::alloc::{AllocError, Global};
use std::sync::Arc;

/// Proposes a step of the goal of this name, with a clause chosen or not, and counts a firing. Without a choice it takes the
/// least clause that accepts a call. The refusals, in this order: `NoGoal` where there is no such goal or it is a stream;
/// `NoClause` where no clause of the number chosen is for the goal. A call gets `Waits` or `NoMatch` by what its clauses say,
/// without a choice only where none accepts; a unification `Clash` or `Cycle`; an assignment `Waits`, `Arithmetic` or `Clash`.
/// Else it fails only where memory is refused. It costs what the goal's clauses look at and what the step would bind and make.
pub fn attempt(
    alloc: Global,
    meter: &mut Meter,
    program: &Program,
    goals: &Goals,
    store: &Store,
    goal: GoalName,
    choice: Option<u32>,
) -> Result<Proposal, Fault>
    ensures answer { Answered (IsProposed program.now goals.now.held store.now.held goal choice) (λ f. AttemptsAt program.now goals.now.held store.now.held goal choice (refused f)) result }

    // F1 never hides what look-ups refuse.
    ensures no_goal { AttemptsAt program.now goals.now.held store.now.held goal choice (refused Fault.NoGoal) → result ≡ Err Fault.NoGoal }
    ensures no_clause { AttemptsAt program.now goals.now.held store.now.held goal choice (refused Fault.NoClause) → result ≡ Err Fault.NoClause }
    ensures counted { meter.new ≡ fired meter.old }
{
    meter.count_firing();
    let Some(consumed) = goals.handle(goal) else {
        return Err(Fault::NoGoal);
    };
    let reduction = Reduction {
        step: NO_STEP,
        name: goal,
        goal: consumed,
    };
    let fired = reduce(alloc, program, store, choice, &reduction)?;
    let consumed = consumed.share()?;
    match Arc::try_unwrap(fired) {
        Ok(fired) => {
            let (act, effect) = fired.into_act();
            Ok(Proposal::new(goal, consumed, act, effect))
        }
        Err(_) => Err(Fault::Memory),
    }
}

/// Fires a step of the goal of this name, as the step of this number, and counts a firing: what `attempt` proposes, with its effect as
/// that step has it. The refusals are those of `attempt`.
pub fn fire_as(
    alloc: Global,
    meter: &mut Meter,
    program: &Program,
    goals: &Goals,
    store: &Store,
    goal: GoalName,
    choice: Option<u32>,
    step: u32,
) -> Result<Arc<Firing>, Fault>
    ensures answer { Answered (λ f. IsFiredAs step program.now goals.now.held store.now.held goal choice f.value) (λ f. AttemptsAt program.now goals.now.held store.now.held goal choice (refused f)) result }

    // F1 never hides what look-ups refuse.
    ensures no_goal { AttemptsAt program.now goals.now.held store.now.held goal choice (refused Fault.NoGoal) → result ≡ Err Fault.NoGoal }
    ensures no_clause { AttemptsAt program.now goals.now.held store.now.held goal choice (refused Fault.NoClause) → result ≡ Err Fault.NoClause }
    ensures counted { meter.new ≡ fired meter.old }
{
    meter.count_firing();
    match goals.handle(goal) {
        Some(consumed) => {
            let reduction = Reduction {
                step,
                name: goal,
                goal: consumed,
            };
            let fired = reduce(alloc, program, store, choice, &reduction)?;
            Ok(fired)
        }
        None => Err(Fault::NoGoal),
    }
}

// The step that reduces a call by the clause of this number.
fn reduce_by_choice(
    alloc: Global,
    program: &Program,
    store: &Store,
    name: &Name,
    arguments: &[Term],
    number: u32,
    reduction: &Reduction<'_>,
) -> Result<Arc<Firing>, Fault>
    ensures fired { IfOk result (λ f. IsReductionOf reduction.now.step reduction.now.name reduction.now.goal.now f.value) }
    ensures proposed { IfOk result (λ f. ChoiceAnswers reduction.now.step program.now name.now arguments.now number (value_at store.now.held) (proposes f.value.act f.value.effect)) }
    ensures fault { IfErr result (λ f. (f ≡ Fault.Memory) ⊎ ChoiceAnswers no_step program.now name.now arguments.now number (value_at store.now.held) (refused f)) }
    ensures no_clause { ChoiceAnswers no_step program.now name.now arguments.now number (value_at store.now.held) (refused Fault.NoClause) → result ≡ Err Fault.NoClause }
{
    let effect = attempt_choice(
        alloc,
        program,
        store,
        name,
        arguments,
        number,
        reduction.step,
    )?;
    let fired = reduction.fire(alloc, Act::ByClause(number), effect)?;
    Ok(fired)
}

// The step that unifies the two sides.
#[inline(always)]
fn reduce_unification(
    alloc: Global,
    store: &Store,
    left: &Term,
    right: &Term,
    reduction: &Reduction<'_>,
) -> Result<Arc<Firing>, Fault>
    ensures fired { IfOk result (λ f. IsReductionOf reduction.now.step reduction.now.name reduction.now.goal.now f.value) }
    ensures proposed { IfOk result (λ f. (P : program_spec) → UnificationAnswers P left.now right.now (value_at store.now.held) (proposes f.value.act f.value.effect)) }
    ensures fault { IfErr result (λ f. (f ≡ Fault.Memory) ⊎ ((P : program_spec) → UnificationAnswers P left.now right.now (value_at store.now.held) (refused f))) }
{
    let effect = attempt_unification(alloc, store, left, right)?;
    let fired = reduction.fire(alloc, Act::Unified, effect)?;
    Ok(fired)
}

// The step that assigns the value of the expression.
#[inline(never)]
fn reduce_assignment(
    alloc: Global,
    store: &Store,
    left: &Term,
    value: &Expr,
    reduction: &Reduction<'_>,
) -> Result<Arc<Firing>, Fault>
    ensures fired { IfOk result (λ f. IsReductionOf reduction.now.step reduction.now.name reduction.now.goal.now f.value) }
    ensures proposed { IfOk result (λ f. (P : program_spec) → AssignmentAnswers P left.now value.now (value_at store.now.held) (proposes f.value.act f.value.effect)) }
    ensures fault { IfErr result (λ f. (f ≡ Fault.Memory) ⊎ ((P : program_spec) → AssignmentAnswers P left.now value.now (value_at store.now.held) (refused f))) }
{
    let effect = attempt_assignment(alloc, store, left, value)?;
    let fired = reduction.fire(alloc, Act::Assigned, effect)?;
    Ok(fired)
}

// The step that reduces the goal.
#[inline(always)]
fn reduce(
    alloc: Global,
    program: &Program,
    store: &Store,
    choice: Option<u32>,
    reduction: &Reduction<'_>,
) -> Result<Arc<Firing>, Fault>
    ensures fired { IfOk result (λ f. IsReductionOf reduction.now.step reduction.now.name reduction.now.goal.now f.value) }
    ensures proposed { IfOk result (λ f. AttemptsAs reduction.now.step program.now (value_at store.now.held) (Some reduction.now.goal.now) choice (proposes f.value.act f.value.effect)) }
    ensures fault { IfErr result (λ f. (f ≡ Fault.Memory) ⊎ Attempts program.now (value_at store.now.held) (Some reduction.now.goal.now) choice (refused f)) }
    ensures no_goal { Attempts program.now (value_at store.now.held) (Some reduction.now.goal.now) choice (refused Fault.NoGoal) → result ≡ Err Fault.NoGoal }
    ensures no_clause { Attempts program.now (value_at store.now.held) (Some reduction.now.goal.now) choice (refused Fault.NoClause) → result ≡ Err Fault.NoClause }
{
    match (reduction.goal.goal().view(), choice) {
        (GoalView::Stream(_, _), _) => Err(Fault::NoGoal),
        (GoalView::Call(name, arguments), None) => {
            attempt_call(alloc, program, store, name, arguments, reduction)
        }
        (GoalView::Call(name, arguments), Some(number)) => {
            reduce_by_choice(alloc, program, store, name, arguments, number, reduction)
        }
        (GoalView::Unify(left, right), None) => {
            reduce_unification(alloc, store, left, right, reduction)
        }
        (GoalView::Assign(left, value), None) => {
            reduce_assignment(alloc, store, left, value, reduction)
        }
        _ => Err(Fault::NoClause),
    }
}

/// The effect that was proposed, as the step of this number has it: the variables that it makes get the number. It goes
/// once through the goals that are made, and shares each part of their terms that has no such variable.
pub fn finish(alloc: Global, effect: Effect, number: u32) -> Result<Effect, AllocError>
    ensures { IfOk result (λ e. e ≡ under number effect) }
{
    let (reads, binds, makes) = effect.into_parts();
    let makes = number_goals(alloc, &makes, number)?;
    Ok(Effect::new(reads, binds, makes))
}
