// The pieces of expressions.
ghost use Rattle.std.specs.Prelude.{◌≡◌, ◌+◌, [], IfOk, string_bytes};
ghost use Rattle.std.specs.Io.{StartsWith};
ghost use Rattle.ghc_term.specs.GoalText.{operator_text, expression_text_by, operand};
ghost use Rattle.ghc_term.specs.inner.Pieces.{Unfolds, expression_size};

use crate::expr::Expr;
use crate::expr_view::ExprView;
use crate::operator::Operator;
use crate::printing::pieces::{Piece, push_sides};
use std::alloc::AllocError;

// The operator, with a space on each side.
fn mark_of(operator: Operator) -> &'static str
    ensures { result.now ≡ operator_text operator }
{
    match operator {
        Operator::Add => " + ",
        Operator::Subtract => " - ",
        Operator::Multiply => " * ",
        Operator::Divide => " / ",
        Operator::Modulo => " mod ",
    }
}

// Leaves an expression's parts.
pub(crate) fn push_expression<'a>(
    expression: &'a Expr,
    pieces: &mut Vec<Piece<'a>>,
) -> Result<(), AllocError>
    ensures { IfOk result (λ _. Unfolds (λ r. expression_text_by r expression.now) (λ w. expression_size w expression.now + 1) pieces.old.items pieces.new.items [] []) }
{
    match expression.view() {
        ExprView::Leaf(term) => {
            pieces.push(Piece::Term(term))?;
            Ok(())
        }
        ExprView::Operation(operator, left, right) => {
            let mark = mark_of(operator);
            push_sides(Piece::Operand(left), mark, Piece::Operand(right), pieces)
        }
    }
}

// Writes an operand's parenthesis, if it has an operator, and leaves the rest.
pub(crate) fn push_operand<'a>(
    expression: &'a Expr,
    pieces: &mut Vec<Piece<'a>>,
    out: &mut String,
) -> Result<(), AllocError>
    ensures text { IfOk result (λ _. Unfolds (λ r. operand expression.now (expression_text_by r expression.now)) (λ w. expression_size w expression.now + 3) pieces.old.items pieces.new.items (string_bytes out.old) (string_bytes out.new)) }
    ensures begun { StartsWith (string_bytes out.new) (string_bytes out.old) }
{
    match expression.view() {
        ExprView::Leaf(term) => {
            pieces.push(Piece::Term(term))?;
            Ok(())
        }
        ExprView::Operation(_, _, _) => {
            out.push_str("(")?;
            pieces.push(Piece::Mark(")"))?;
            pieces.push(Piece::Expr(expression))?;
            Ok(())
        }
    }
}
