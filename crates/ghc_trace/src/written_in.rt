// Whether variables of a set stand in goals as they are written.
ghost use Rattle.std.specs.Prelude.{◌↔◌, ◌∷◌, [], IfOk, IsTrue, map};
ghost use Rattle.std.specs.FinSet as set;
ghost use Rattle.ghc_term.specs.declared.var_name.VarName.{VarName as var_name};
ghost use Rattle.ghc_hooks.specs.Reached.{leaves};
ghost use Rattle.ghc_trace.specs.inner.WhyNotCode.{GoalHasOneOf, HasOneOf, OneHasOneOf, SomeHasOneOf};

use crate::holding::push_leaves;
use ghc_term::{Expr, Goal, GoalView, Term, TermView, Variables};
use std::alloc::{AllocError, Global};

// Whether the sets have a variable in common: a look-up for each of the first.
fn do_meet(written: &Variables, xs: &Variables) -> bool
    ensures { IsTrue result ↔ ((x : var_name) × IsTrue (set.contains written.now x) × IsTrue (set.contains xs.now x)) }
{
    for x in written.members() {
        if xs.contains(*x) {
            return true;
        }
    }
    false
}

// Whether a variable of the set stands in the term.
fn has_one_of(alloc: Global, term: &Term, xs: &Variables) -> Result<bool, AllocError>
    ensures { IfOk result (λ has. IsTrue has ↔ HasOneOf xs.now term.now) }
{
    if let TermView::Var(x) = term.view() {
        return Ok(xs.contains(x));
    }
    if term.is_closed() {
        return Ok(false);
    }
    let written = term.variables(alloc)?;
    Ok(do_meet(&written, xs))
}

// Whether a variable of the set stands in one of the terms.
fn one_has_one_of(alloc: Global, terms: &[Term], xs: &Variables) -> Result<bool, AllocError>
    ensures { IfOk result (λ has. IsTrue has ↔ OneHasOneOf xs.now terms.now) }
{
    for term in terms {
        let has = has_one_of(alloc, term, xs)?;
        if has {
            return Ok(true);
        }
    }
    Ok(false)
}

// Whether a variable of the set stands in one of these terms.
fn one_lent_has_one_of(alloc: Global, terms: &[&Term], xs: &Variables) -> Result<bool, AllocError>
    ensures { IfOk result (λ has. IsTrue has ↔ OneHasOneOf xs.now (map (λ t. t.now) terms.now)) }
{
    for term in terms {
        let has = has_one_of(alloc, *term, xs)?;
        if has {
            return Ok(true);
        }
    }
    Ok(false)
}

// Whether a variable of the set stands in the expression.
fn a_leaf_has_one_of(alloc: Global, value: &Expr, xs: &Variables) -> Result<bool, AllocError>
    ensures { IfOk result (λ has. IsTrue has ↔ OneHasOneOf xs.now (leaves value.now)) }
{
    let mut terms = Vec::new(alloc);
    push_leaves(alloc, value, &mut terms)?;
    one_lent_has_one_of(alloc, terms.as_slice(), xs)
}

// Whether a variable of the set stands in one of the two terms.
fn one_of_two_has(
    alloc: Global,
    left: &Term,
    right: &Term,
    xs: &Variables,
) -> Result<bool, AllocError>
    ensures { IfOk result (λ has. IsTrue has ↔ OneHasOneOf xs.now (left.now ∷ right.now ∷ [])) }
{
    let has = has_one_of(alloc, left, xs)?;
    if has {
        return Ok(true);
    }
    has_one_of(alloc, right, xs)
}

// Whether a variable of the set stands in the target or in a leaf of the expression.
fn assignment_has(
    alloc: Global,
    target: &Term,
    value: &Expr,
    xs: &Variables,
) -> Result<bool, AllocError>
    ensures { IfOk result (λ has. IsTrue has ↔ OneHasOneOf xs.now (target.now ∷ leaves value.now)) }
{
    let has = has_one_of(alloc, target, xs)?;
    if has {
        return Ok(true);
    }
    a_leaf_has_one_of(alloc, value, xs)
}

// Whether a variable of the set stands in the goal. Closed terms cost a step.
pub(crate) fn goal_has_one_of(
    alloc: Global,
    goal: &Goal,
    xs: &Variables,
) -> Result<bool, AllocError>
    ensures { IfOk result (λ has. IsTrue has ↔ GoalHasOneOf xs.now goal.now) }
{
    match goal.view() {
        GoalView::Call(_, arguments) => one_has_one_of(alloc, arguments, xs),
        GoalView::Unify(left, right) => one_of_two_has(alloc, left, right, xs),
        GoalView::Assign(target, value) => assignment_has(alloc, target, value, xs),
        GoalView::Stream(_, tail) => Ok(xs.contains(tail)),
    }
}

// Whether a variable of the set stands in one of the goals.
pub(crate) fn some_has_one_of(
    alloc: Global,
    goals: &[Goal],
    xs: &Variables,
) -> Result<bool, AllocError>
    ensures { IfOk result (λ has. IsTrue has ↔ SomeHasOneOf xs.now goals.now) }
{
    for goal in goals {
        let has = goal_has_one_of(alloc, goal, xs)?;
        if has {
            return Ok(true);
        }
    }
    Ok(false)
}
