// Comparisons of small expressions, a leaf or one operation on leaves: each chain is followed once, and nothing is collected.
ghost use Rattle.std.specs.Prelude.{◌≡◌, ◌↔◌, ℤ, Option, Some, IfOk, IfSome, OnOk, IsTrue, MatchOption};
ghost use Rattle.ghc_term.specs.declared.var_name.VarName.{VarName};
ghost use Rattle.ghc_term.specs.Tree.{variable};
ghost use Rattle.ghc_term.specs.Expression.{leaf, operation};
ghost use Rattle.ghc_term.specs.Store.{value_at};
ghost use Rattle.ghc_flat.specs.Variables.{leaf_variables, variables_of_test};
ghost use Rattle.ghc_match.specs.Value.{Wants};
ghost use Rattle.ghc_match.specs.inner.Ends.{StandsAndEnds};
ghost use Rattle.ghc_match.specs.inner.Meeting.{Gains};
ghost use Rattle.ghc_match.specs.inner.Guarding.{StandsAndPasses, PassedFrom, IsSaid};
ghost use Rattle.ghc_match.specs.inner.Small.{spelled, IsAsked, ComputesOf, ComparesOf};

use crate::arithmetic::{apply, compares};
use crate::guard::Says;
use crate::passing::follow_noting;
use crate::stands::Stands;
use ghc_flat::Test;
use ghc_term::{Comparison, Expr, ExprView, Operator, Store, Term, TermView, VarName, Variables};
use std::alloc::AllocError;

// A leaf, or one operation on leaves.
#[derive(Clone, Copy)]
pub enum Small<'a> {
    Leaf(&'a Term),
    Operation(Operator, &'a Term, &'a Term),
}

// What an expression says: it waits, or it is worth this integer, if there is one.
#[derive(Clone, Copy, Drop)]
pub enum Asked {
    Waits,
    Worth(Option<i64>),
}

// The expression, if it is small.
fn as_small(expression: &Expr) -> Option<Small<'_>>
    ensures { IfSome result (λ s. spelled s ≡ expression.now) }
{
    match expression.view() {
        ExprView::Leaf(term) => Some(Small::Leaf(term)),
        ExprView::Operation(operator, left, right) => match (left.view(), right.view()) {
            (ExprView::Leaf(x), ExprView::Leaf(y)) => Some(Small::Operation(operator, x, y)),
            _ => None,
        },
    }
}

// The comparison of the test and its sides, if these are small.
pub fn small_sides(test: &Test) -> Option<(Comparison, Small<'_>, Small<'_>)>
    ensures { IfSome result (λ s. Test.Compare s.0 (spelled s.1) (spelled s.2) ≡ test.now) }
{
    let Test::Compare(comparison, left, right) = test else {
        return None;
    };
    let left = as_small(left)?;
    let right = as_small(right)?;
    Some((*comparison, left, right))
}

// What a variable says. Where it ends unbound, that variable is wanted, and its chain is looked at.
#[inline(always)]
fn ask_variable(
    store: &Store,
    stands: &Stands<'_>,
    name: VarName,
    wanted: &mut Variables,
    looked: &mut Variables,
) -> Result<Asked, AllocError>
    ensures asked { IfOk result (IsAsked (StandsAndEnds stands.now (value_at store.now.held)) (leaf (variable name))) }
    ensures wanted { OnOk result (Gains wanted.old wanted.new (λ x. StandsAndEnds stands.now (value_at store.now.held) name (variable x))) }
    ensures looked { OnOk result (Gains looked.old looked.new (StandsAndPasses stands.now (value_at store.now.held) name)) }
{
    let Some(term) = stands.get(name) else {
        return Ok(Asked::Worth(None));
    };
    let end = follow_noting(store, term, looked)?;
    match end.view() {
        TermView::Var(x) => {
            wanted.insert(x)?;
            Ok(Asked::Waits)
        }
        TermView::Int(k) => Ok(Asked::Worth(Some(k))),
        _ => Ok(Asked::Worth(None)),
    }
}

// What a leaf says, with what it wants and looks at.
#[inline(always)]
fn ask_leaf(
    store: &Store,
    stands: &Stands<'_>,
    term: &Term,
    wanted: &mut Variables,
    looked: &mut Variables,
) -> Result<Asked, AllocError>
    ensures asked { IfOk result (IsAsked (StandsAndEnds stands.now (value_at store.now.held)) (leaf term.now)) }
    ensures wanted { OnOk result (Gains wanted.old wanted.new (Wants (StandsAndEnds stands.now (value_at store.now.held)) (leaf_variables (leaf term.now)))) }
    ensures looked { OnOk result (Gains looked.old looked.new (PassedFrom stands.now (value_at store.now.held) (leaf_variables (leaf term.now)))) }
{
    match term.view() {
        TermView::Var(x) => ask_variable(store, stands, x, wanted, looked),
        TermView::Int(k) => Ok(Asked::Worth(Some(k))),
        _ => Ok(Asked::Worth(None)),
    }
}

// What the operator makes of the two, if both are there and there is such an integer.
fn apply_to(operator: Operator, left: Option<i64>, right: Option<i64>) -> Option<i64>
    ensures { MatchOption result ((z : ℤ) → ¬ ComputesOf operator left right z) (ComputesOf operator left right) }
{
    apply(operator, left?, right?)
}

// What an operation on two leaves says, with what they want and look at.
#[inline(always)]
fn ask_operation(
    store: &Store,
    stands: &Stands<'_>,
    operator: Operator,
    left: &Term,
    right: &Term,
    wanted: &mut Variables,
    looked: &mut Variables,
) -> Result<Asked, AllocError>
    ensures asked { IfOk result (IsAsked (StandsAndEnds stands.now (value_at store.now.held)) (operation operator (leaf left.now) (leaf right.now))) }
    ensures wanted { OnOk result (Gains wanted.old wanted.new (Wants (StandsAndEnds stands.now (value_at store.now.held)) (leaf_variables (operation operator (leaf left.now) (leaf right.now))))) }
    ensures looked { OnOk result (Gains looked.old looked.new (PassedFrom stands.now (value_at store.now.held) (leaf_variables (operation operator (leaf left.now) (leaf right.now))))) }
{
    let first = ask_leaf(store, stands, left, wanted, looked)?;
    let second = ask_leaf(store, stands, right, wanted, looked)?;
    let Asked::Worth(x) = first else {
        return Ok(Asked::Waits);
    };
    let Asked::Worth(y) = second else {
        return Ok(Asked::Waits);
    };
    Ok(Asked::Worth(apply_to(operator, x, y)))
}

// What a small expression says, with what it wants and looks at.
#[inline(always)]
fn ask(
    store: &Store,
    stands: &Stands<'_>,
    expression: Small<'_>,
    wanted: &mut Variables,
    looked: &mut Variables,
) -> Result<Asked, AllocError>
    ensures asked { IfOk result (IsAsked (StandsAndEnds stands.now (value_at store.now.held)) (spelled expression.entry)) }
    ensures wanted { OnOk result (Gains wanted.old wanted.new (Wants (StandsAndEnds stands.now (value_at store.now.held)) (leaf_variables (spelled expression.entry)))) }
    ensures looked { OnOk result (Gains looked.old looked.new (PassedFrom stands.now (value_at store.now.held) (leaf_variables (spelled expression.entry)))) }
{
    match expression {
        Small::Leaf(term) => ask_leaf(store, stands, term, wanted, looked),
        Small::Operation(operator, left, right) => {
            ask_operation(store, stands, operator, left, right, wanted, looked)
        }
    }
}

// Whether both are there and the comparison holds between them.
fn compares_to(comparison: Comparison, left: Option<i64>, right: Option<i64>) -> bool
    ensures { IsTrue result ↔ ComparesOf comparison left right }
{
    match (left, right) {
        (Some(x), Some(y)) => compares(comparison, x, y),
        _ => false,
    }
}

// What the comparison of two small expressions says, with what it wants and looks at: one look-up for each variable passed.
pub fn compare_small(
    store: &Store,
    stands: &Stands<'_>,
    comparison: Comparison,
    left: Small<'_>,
    right: Small<'_>,
    wanted: &mut Variables,
    looked: &mut Variables,
) -> Result<Says, AllocError>
    ensures says { IfOk result (IsSaid (StandsAndEnds stands.now (value_at store.now.held)) (Test.Compare comparison (spelled left.entry) (spelled right.entry))) }
    ensures wanted { OnOk result (Gains wanted.old wanted.new (Wants (StandsAndEnds stands.now (value_at store.now.held)) (variables_of_test (Test.Compare comparison (spelled left.entry) (spelled right.entry))))) }
    ensures looked { OnOk result (Gains looked.old looked.new (PassedFrom stands.now (value_at store.now.held) (variables_of_test (Test.Compare comparison (spelled left.entry) (spelled right.entry))))) }
{
    let first = ask(store, stands, left, wanted, looked)?;
    let second = ask(store, stands, right, wanted, looked)?;
    let Asked::Worth(x) = first else {
        return Ok(Says::Waits);
    };
    let Asked::Worth(y) = second else {
        return Ok(Says::Waits);
    };
    if compares_to(comparison, x, y) {
        return Ok(Says::Yes);
    }
    Ok(Says::No)
}
