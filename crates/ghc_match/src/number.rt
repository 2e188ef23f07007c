// The integer that an expression is worth.
ghost use Rattle.std.specs.Prelude.{◌≡◌, ◌+◌, ◌<◌, [], ◌∷◌, IfOk, OnOk, reverse};
ghost use Rattle.ghc_term.specs.Expression.{leaf, operation};
ghost use Rattle.ghc_match.specs.inner.Ends.{EndsAt};
ghost use Rattle.ghc_match.specs.inner.Tasks.{IsWorth, AppliesToLast, GoesOn, steps_of, steps};

use crate::arithmetic::apply;
use crate::scope::{End, Scope, end_of};
use ghc_term::{Expr, ExprView, Operator, Store, Term, TermView};
use std::alloc::{AllocError, Global};

// What is still to be done: to find the value of an expression, or to apply an operator to the last two values.
#[derive(Clone, Copy, Drop)]
pub enum Task<'a> {
    Find(&'a Expr),
    Apply(Operator),
}

// The integer at a leaf, if there is one.
fn integer_at(store: &Store, scope: Scope<'_>, term: &Term) -> Option<i64>
    ensures { IsWorth (EndsAt scope.entry store.now.held) (leaf term.now) result }
{
    match term.view() {
        TermView::Int(k) => Some(k),
        TermView::Var(x) => match end_of(store, scope, x) {
            End::Value(value) => match value.view() {
                TermView::Int(k) => Some(k),
                _ => None,
            },
            _ => None,
        },
        _ => None,
    }
}

// Takes the last two values away and applies the operator to them.
fn apply_to_last(operator: Operator, values: &mut Vec<i64>) -> Option<i64>
    ensures { AppliesToLast operator values.old.items values.new.items result }
{
    let right = values.pop()?;
    let left = values.pop()?;
    apply(operator, left, right)
}

// Puts the value of a leaf after the others, or the tasks of an operation; false where a leaf has no value.
fn find<'a>(
    store: &Store,
    scope: Scope<'_>,
    expression: &'a Expr,
    tasks: &mut Vec<Task<'a>>,
    values: &mut Vec<i64>,
) -> Result<bool, AllocError>
    ensures goes { IfOk result (GoesOn (EndsAt scope.entry store.now.held) (Task.Find expression.entry) tasks.old.items values.old.items tasks.new.items values.new.items) }
    ensures shorter { OnOk result (steps (reverse tasks.new.items) < steps_of expression.now + steps (reverse tasks.old.items)) }
{
    match expression.view() {
        ExprView::Leaf(term) => {
            let Some(integer) = integer_at(store, scope, term) else {
                return Ok(false);
            };
            values.push(integer)?;
        }
        ExprView::Operation(operator, left, right) => {
            tasks.push(Task::Apply(operator))?;
            tasks.push(Task::Find(right))?;
            tasks.push(Task::Find(left))?;
        }
    }
    Ok(true)
}

// Does the task; false where it makes no value.
fn perform<'a>(
    store: &Store,
    scope: Scope<'_>,
    task: Task<'a>,
    tasks: &mut Vec<Task<'a>>,
    values: &mut Vec<i64>,
) -> Result<bool, AllocError>
    ensures goes { IfOk result (GoesOn (EndsAt scope.entry store.now.held) task.entry tasks.old.items values.old.items tasks.new.items values.new.items) }
    ensures shorter { OnOk result (steps (reverse tasks.new.items) < steps (task.entry ∷ reverse tasks.old.items)) }
{
    match task {
        Task::Find(expression) => find(store, scope, expression, tasks, values),
        Task::Apply(operator) => {
            let Some(integer) = apply_to_last(operator, values) else {
                return Ok(false);
            };
            values.push(integer)?;
            Ok(true)
        }
    }
}

// What the operator makes of the integers at two leaves, if there is such an integer.
fn operate(
    store: &Store,
    scope: Scope<'_>,
    operator: Operator,
    left: &Term,
    right: &Term,
) -> Option<i64>
    ensures { IsWorth (EndsAt scope.entry store.now.held) (operation operator (leaf left.now) (leaf right.now)) result }
{
    let Some(x) = integer_at(store, scope, left) else {
        return None;
    };
    let Some(y) = integer_at(store, scope, right) else {
        return None;
    };
    apply(operator, x, y)
}

// The integer that the expression is worth, by a list of tasks.
#[inline(never)]
fn compute(
    alloc: Global,
    store: &Store,
    scope: Scope<'_>,
    expression: &Expr,
) -> Result<Option<i64>, AllocError>
    ensures { IfOk result (IsWorth (EndsAt scope.entry store.now.held) expression.now) }
{
    let mut tasks = Vec::new(alloc);
    let mut values = Vec::new(alloc);
    perform_all(store, scope, expression, &mut tasks, &mut values)
}

// The same, where there are no tasks and no values yet.
#[inline(always)]
fn perform_all<'a>(
    store: &Store,
    scope: Scope<'_>,
    expression: &'a Expr,
    tasks: &mut Vec<Task<'a>>,
    values: &mut Vec<i64>,
) -> Result<Option<i64>, AllocError>
    requires tasks { tasks.old.items ≡ [] }
    requires values { values.old.items ≡ [] }
    ensures { IfOk result (IsWorth (EndsAt scope.entry store.now.held) expression.now) }
{
    tasks.push(Task::Find(expression))?;
    while let Some(task) = tasks.pop() {
        if !perform(store, scope, task, tasks, values)? {
            return Ok(None);
        }
    }
    Ok(values.pop())
}

// The integer that the expression is worth, if there is one: one step for each part of the expression, by a loop. A leaf, or one
// operation on leaves, takes no memory.
pub fn integer_of(
    alloc: Global,
    store: &Store,
    scope: Scope<'_>,
    expression: &Expr,
) -> Result<Option<i64>, AllocError>
    ensures { IfOk result (IsWorth (EndsAt scope.entry store.now.held) expression.now) }
{
    match expression.view() {
        ExprView::Leaf(term) => Ok(integer_at(store, scope, term)),
        ExprView::Operation(operator, left, right) => match (left.view(), right.view()) {
            (ExprView::Leaf(x), ExprView::Leaf(y)) => Ok(operate(store, scope, operator, x, y)),
            _ => compute(alloc, store, scope, expression),
        },
    }
}
