// The variables of expressions and tests.
ghost use Rattle.std.specs.Prelude.{◌≡◌, [], ◌++◌, OnOk};
ghost use Rattle.ghc_term.specs.Expression.{leaf};
ghost use Rattle.ghc_flat.specs.Variables.{leaf_variables};

use ghc_term::{Expr, ExprView, Term, TermView, VarName};
use std::alloc::{AllocError, Global};

// Adds the leaf, where it is a variable.
fn push_leaf(term: &Term, names: &mut Vec<VarName>) -> Result<(), AllocError>
    ensures { OnOk result (names.new.items ≡ names.old.items ++ leaf_variables (leaf term.now)) }
{
    if let TermView::Var(x) = term.view() {
        names.push(x)?;
    }
    Ok(())
}

// Adds the leaves of the expression that are variables, by a list of the parts that wait.
#[inline(never)]
fn push_parts(alloc: Global, expression: &Expr, names: &mut Vec<VarName>) -> Result<(), AllocError>
    ensures { OnOk result (names.new.items ≡ names.old.items ++ leaf_variables expression.now) }
{
    let mut waiting = Vec::new(alloc);
    push_waiting(expression, &mut waiting, names)
}

// The same, where no part waits yet.
#[inline(always)]
fn push_waiting<'a>(
    expression: &'a Expr,
    waiting: &mut Vec<&'a Expr>,
    names: &mut Vec<VarName>,
) -> Result<(), AllocError>
    requires { waiting.old.items ≡ [] }
    ensures { OnOk result (names.new.items ≡ names.old.items ++ leaf_variables expression.now) }
{
    waiting.push(expression)?;
    while let Some(part) = waiting.pop() {
        match part.view() {
            ExprView::Leaf(term) => push_leaf(term, names)?,
            ExprView::Operation(_, left, right) => {
                waiting.push(right)?;
                waiting.push(left)?;
            }
        }
    }
    Ok(())
}

// Adds the leaves of the expression that are variables, from left to right. One step for each part of the expression. A leaf, or
// one operation on leaves, takes no more memory than the variables do.
pub fn push_leaves(
    alloc: Global,
    expression: &Expr,
    names: &mut Vec<VarName>,
) -> Result<(), AllocError>
    ensures { OnOk result (names.new.items ≡ names.old.items ++ leaf_variables expression.now) }
{
    match expression.view() {
        ExprView::Leaf(term) => push_leaf(term, names),
        ExprView::Operation(_, left, right) => match (left.view(), right.view()) {
            (ExprView::Leaf(x), ExprView::Leaf(y)) => {
                push_leaf(x, names)?;
                push_leaf(y, names)
            }
            _ => push_parts(alloc, expression, names),
        },
    }
}
