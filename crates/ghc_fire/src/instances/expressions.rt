// Expressions with their variables replaced.
ghost use Rattle.std.specs.Prelude.{◌≡◌, IfOk};
ghost use Rattle.ghc_fire.specs.Instance.{replace_in_expression};
ghost use Rattle.ghc_fire.specs.inner.Renaming.{replacement, operated};

use crate::instances::bodies::replace_term;
use crate::instances::renaming::Renaming;
use ghc_term::{Expr, ExprView, Operator};
use std::alloc::{AllocError, Global};

// Puts the expression in as the left operand of the last operation, that as the left operand of the one before, and so on.
fn rebuild(alloc: Global, mut rights: Vec<(Operator, Expr)>, end: Expr) -> Result<Expr, AllocError>
    ensures { IfOk result (λ a. a ≡ operated rights.items end) }
{
    let mut expression = end;
    while let Some((operator, right)) = rights.pop() {
        expression = Expr::operation(alloc, operator, expression, right)?;
    }
    Ok(expression)
}

// The expression with its variables replaced. It goes along left operands in a loop, and into the others by calls.
pub fn replace_expression(
    alloc: Global,
    expression: &Expr,
    by: Renaming<'_>,
) -> Result<Expr, AllocError>
    ensures { IfOk result (λ a. a ≡ replace_in_expression (replacement by.entry) expression.now) }
{
    let mut rights = Vec::new(alloc);
    let mut place = expression;
    loop {
        match place.view() {
            ExprView::Leaf(term) => {
                return rebuild(alloc, rights, Expr::leaf(replace_term(alloc, term, by)?));
            }
            ExprView::Operation(operator, left, right) => {
                rights.push((operator, replace_expression(alloc, right, by)?))?;
                place = left;
            }
        }
    }
}
