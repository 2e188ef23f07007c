// Expressions: operators over leaves, whose inner parts are shared.
ghost use Rattle.std.specs.Prelude.{◌≡◌, IfOk};
ghost use Rattle.ghc_term.specs.Expression.{leaf, operation};

use crate::expr_view::ExprView;
use crate::operator::Operator;
use crate::term::Term;
use std::alloc::{AllocError, Global};
use std::marker::Model;
use std::sync::Arc;

/// An expression as written. Its parts are shared, so one of any size is lent once more by `share` in one step.
#[cycle(expr)]
pub struct Expr {
    shape: Shape,
}

// An operator stands before the piece of its operands, where it takes no memory.
#[cycle(expr)]
enum Shape {
    Leaf(Term),
    Operation(Operator, Arc<Operands>),
}

// The two expressions that an operator stands between.
#[cycle(expr)]
struct Operands {
    left: Expr,
    right: Expr,
}

impl Model for Expr {
    ghost use Rattle.ghc_term.specs.Expression.{Expression};
    ghost use Rattle.ghc_term.specs.inner.GoalCode.{expression_code};

    ghost Value = { Expression };

    ghost coded = { expression_code };

    ghost use Rattle.ghc_term.specs.inner.ExpressionView.{expression_of, depth_of};

    ghost view = { λ e. expression_of e.shape };

    ghost size = { depth_of };

    ghost use Rattle.ghc_term.specs.inner.ExpressionFalls.{deep_falls};

    ghost size_decreases = { λ e h. deep_falls e.shape };
}

impl Expr {
    ghost use Rattle.ghc_term.specs.inner.ExpressionShown.{shown};

    /// A leaf, which is a term as written.
    pub fn leaf(term: Term) -> Expr
        ensures { result ≡ leaf term }
    {
        Expr {
            shape: Shape::Leaf(term),
        }
    }

    /// An operator between two expressions, which are shared and not copied.
    pub fn operation(
        alloc: Global,
        operator: Operator,
        left: Expr,
        right: Expr,
    ) -> Result<Expr, AllocError>
        ensures { IfOk result (λ e. e ≡ operation operator left right) }
    {
        match Arc::new(alloc, Operands { left, right }) {
            Ok(operands) => Ok(Expr {
                shape: Shape::Operation(operator, operands),
            }),
            Err(failed) => {
                let Operands {
                    left: _left,
                    right: _right,
                } = failed.value;
                Err(AllocError)
            }
        }
    }

    /// The same expression once more, with its parts shared: one step. Fails where a count of handles is full.
    pub fn share(&self) -> Result<Expr, AllocError>
        ensures { IfOk result (λ e. e ≡ self.now) }
    {
        match &self.shape {
            Shape::Leaf(term) => Ok(Expr::leaf(term.share()?)),
            Shape::Operation(operator, operands) => Ok(Expr {
                shape: Shape::Operation(*operator, Arc::try_clone(operands)?),
            }),
        }
    }

    /// The expression lent in parts: one step.
    pub fn view(&self) -> ExprView<'_>
        ensures { shown result ≡ self.now }
    {
        match &self.shape {
            Shape::Leaf(term) => ExprView::Leaf(term),
            Shape::Operation(operator, operands) => {
                ExprView::Operation(*operator, &operands.left, &operands.right)
            }
        }
    }
}

impl Drop for Expr {
    // goes along the left sides, so that a long sum takes no stack
    fn drop(mut self) {
        loop {
            let Expr { shape } = self;
            match shape {
                Shape::Leaf(_term) => return,
                Shape::Operation(_operator, operands) => {
                    let Some(
                        Operands {
                            left,
                            right: _right,
                        },
                    ) = Arc::into_inner(operands)
                    else {
                        return;
                    };
                    self = left;
                }
            }
        }
    }
}
