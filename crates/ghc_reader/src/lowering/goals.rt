// From the parse trees of goals to goals.
ghost use Rattle.std.specs.Prelude.{◌≡◌, ◌<◌, ◌≤◌, length, IfOk, option_copied};
ghost use Rattle.ghc_term.specs.declared.limit.Limit.TheVariants.{Goals};
ghost use Rattle.ghc_term.specs.Variables.{variables_of_goal, variables_of_goals};
ghost use Rattle.ghc_reader.specs.Limits.{most};
ghost use Rattle.ghc_reader.specs.Source.{unify, assign};
ghost use Rattle.ghc_reader.specs.inner.Views.{view, value_view, goal_view, goal_views};
ghost use Rattle.ghc_reader.specs.Lowered.{Each, SaysGoal, SaysAsked, is_true, doing, variable_of, tail_of, AreCounted};
ghost use Rattle.ghc_reader.specs.inner.Scope.{MeetsAll, Counts};

use crate::lowering::expressions::lower_expression;
use crate::lowering::lists::Lists;
use crate::lowering::scope::Scope;
use crate::lowering::terms::{lower_term, lower_terms};
use crate::source::{SourceExpression, SourceGoal, SourceTerm};
use ghc_term::{Goal, Name, Term};
use std::alloc::AllocError;

/// The goal that a parse tree says. Its variables are looked up in the scope, from left to right.
pub(crate) fn lower_goal(
    lists: &Lists,
    goal: &SourceGoal,
    scope: &mut Scope,
) -> Result<Goal, AllocError>
    ensures says { IfOk result (λ w. SaysGoal scope.new (goal_view goal.now) w) }
    ensures met { IfOk result (λ w. MeetsAll scope.old (variables_of_goal w) scope.new) }
{
    match goal {
        SourceGoal::Call(call) => {
            let arguments = lower_terms(lists, &call.arguments, scope)?;
            Goal::call(lists.alloc(), call.name.share()?, arguments)
        }
        SourceGoal::Unify(left, right) => lower_equation(lists, left, right, scope),
        SourceGoal::Assign(name, value) => lower_assignment(lists, name, value, scope),
    }
}

// The equation of two sides.
#[inline(always)]
fn lower_equation(
    lists: &Lists,
    left: &SourceTerm,
    right: &SourceTerm,
    scope: &mut Scope,
) -> Result<Goal, AllocError>
    ensures says { IfOk result (λ w. SaysGoal scope.new (unify (view left.now) (view right.now)) w) }
    ensures met { IfOk result (λ w. MeetsAll scope.old (variables_of_goal w) scope.new) }
{
    let left = lower_term(lists, left, scope)?;
    let right = lower_term(lists, right, scope)?;
    Ok(Goal::unify(left, right))
}

// The assignment of a value to the variable of that name.
#[inline(always)]
fn lower_assignment(
    lists: &Lists,
    name: &Name,
    value: &SourceExpression,
    scope: &mut Scope,
) -> Result<Goal, AllocError>
    ensures says { IfOk result (λ w. SaysGoal scope.new (assign name.now (value_view value.now)) w) }
    ensures met { IfOk result (λ w. MeetsAll scope.old (variables_of_goal w) scope.new) }
{
    let variable = scope.variable(name)?;
    let value = lower_expression(lists.alloc(), value, scope)?;
    Ok(Goal::assign(Term::variable(variable), value))
}

/// The goals of a clause's body, but `true`.
pub(crate) fn lower_body(
    lists: &Lists,
    goals: &[SourceGoal],
    scope: &mut Scope,
) -> Result<Vec<Goal>, AllocError>
    ensures says { IfOk result (λ ws. Each (SaysGoal scope.new) (doing (goal_views goals.now)) ws.items) }
    ensures met { IfOk result (λ ws. MeetsAll scope.old (variables_of_goals ws.items) scope.new) }
{
    let mut lowered = Vec::new(lists.alloc());
    for goal in goals {
        if !is_true(goal) {
            lowered.push(lower_goal(lists, goal, scope)?)?;
        }
    }
    Ok(lowered)
}

/// The goals of a query, no more than it may have, but `true`.
pub(crate) fn lower_asked(
    lists: &Lists,
    goals: &[SourceGoal],
    scope: &mut Scope,
) -> Result<Vec<Goal>, AllocError>
    requires { length goals.now ≤ most Goals }
    ensures says { IfOk result (λ ws. Each (SaysAsked scope.new) (doing (goal_views goals.now)) ws.items) }
    ensures met { IfOk result (λ ws. MeetsAll scope.old (variables_of_goals ws.items) scope.new) }
    ensures streams { IfOk result (λ ws. AreCounted ws.items) }
{
    let mut lowered = Vec::new(lists.alloc());
    let mut streams = 0;
    for goal in goals {
        if !is_true(goal) {
            lowered.push(lower_asked_goal(lists, goal, &mut streams, scope)?)?;
        }
    }
    Ok(lowered)
}

// The goal of a query that a parse tree says, where so many streams stand before it.
fn lower_asked_goal(
    lists: &Lists,
    goal: &SourceGoal,
    streams: &mut u32,
    scope: &mut Scope,
) -> Result<Goal, AllocError>
    requires { streams.old < most Goals }
    ensures says { IfOk result (λ w. SaysAsked scope.new (goal_view goal.now) w) }
    ensures met { IfOk result (λ w. MeetsAll scope.old (variables_of_goal w) scope.new) }
    ensures counted { IfOk result (λ w. Counts streams.old w streams.new) }
{
    let Some(tail) = tail_of(goal) else {
        return lower_goal(lists, goal, scope);
    };
    *streams += 1;
    Ok(Goal::stream(*streams, scope.variable(tail)?))
}

// Whether the goal is `true`.
fn is_true(goal: &SourceGoal) -> bool
    ensures { result ≡ is_true (goal_view goal.now) }
{
    match goal {
        SourceGoal::Call(call) => call.name.as_str() == "true" && call.arguments.is_empty(),
        SourceGoal::Unify(_, _) => false,
        SourceGoal::Assign(_, _) => false,
    }
}

// The variable of a goal `instream(X)`.
fn tail_of(goal: &SourceGoal) -> Option<&Name>
    ensures { option_copied result ≡ tail_of (goal_view goal.now) }
{
    let SourceGoal::Call(call) = goal else {
        return None;
    };
    if call.name.as_str() != "instream" || call.arguments.len() != 1 {
        return None;
    }
    variable_of(&call.arguments[0])
}

// The variable that a term is. A list without elements is its tail.
fn variable_of(term: &SourceTerm) -> Option<&Name>
    ensures { option_copied result ≡ variable_of (view term.now) }
{
    match term {
        SourceTerm::Variable(name) => Some(name),
        SourceTerm::Integer(_) => None,
        SourceTerm::Structure(_, _) => None,
        SourceTerm::Empty => None,
        SourceTerm::List(elements, tail) => {
            if elements.is_empty() {
                variable_of(tail)
            } else {
                None
            }
        }
    }
}
