// An expression lent in parts.
use crate::expr::Expr;
use crate::operator::Operator;
use crate::term::Term;

/// An expression as one level: a leaf, or an operator between two expressions.
#[derive(Clone, Copy)]
pub enum ExprView<'a> {
    Leaf(&'a Term),
    Operation(Operator, &'a Expr, &'a Expr),
}
