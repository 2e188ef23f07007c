// From the parse trees of expressions to expressions.
ghost use Rattle.std.specs.Prelude.{◌≡◌, IfOk};
ghost use Rattle.ghc_term.specs.Variables.{variables_of_expression};
ghost use Rattle.ghc_reader.specs.Source.{Value, products, sums};
ghost use Rattle.ghc_reader.specs.inner.Views.{value_view, factor_views, summand_views};
ghost use Rattle.ghc_reader.specs.Lowered.{Names, SaysValue, product_operator, sum_operator};
ghost use Rattle.ghc_reader.specs.inner.Scope.{MeetsAll};

use crate::lowering::scope::Scope;
use crate::source::SourceExpression;
use crate::token::{Product, Sum};
use ghc_term::{Expr, Operator, Term};
use std::alloc::{AllocError, Global};

/// The expression that a parse tree says. Its variables are looked up in the scope, from left to right.
#[cycle(expression)]
pub(crate) fn lower_expression(
    alloc: Global,
    expression: &SourceExpression,
    scope: &mut Scope,
) -> Result<Expr, AllocError>
    ensures says { IfOk result (λ e. SaysValue scope.new (value_view expression.now) e) }
    ensures met { IfOk result (λ e. MeetsAll scope.old (variables_of_expression e) scope.new) }
{
    match expression {
        SourceExpression::Integer(integer) => Ok(Expr::leaf(Term::integer(*integer))),
        SourceExpression::Variable(name) => Ok(Expr::leaf(Term::variable(scope.variable(name)?))),
        SourceExpression::Products(first, others) => {
            let first = lower_expression(alloc, first, scope)?;
            lower_products(alloc, others, first, scope)
        }
        SourceExpression::Sums(first, others) => {
            let first = lower_expression(alloc, first, scope)?;
            lower_sums(alloc, others, first, scope)
        }
    }
}

// The products of a first operand and further ones.
#[cycle(expression)]
fn lower_products(
    alloc: Global,
    others: &[(Product, SourceExpression)],
    first: Expr,
    scope: &mut Scope,
) -> Result<Expr, AllocError>
    ensures says { (left : Value) → SaysValue scope.old left first → IfOk result (λ e. SaysValue scope.new (products left (factor_views others.now)) e) }
    ensures met { (names : Names) → MeetsAll names (variables_of_expression first) scope.old → IfOk result (λ e. MeetsAll names (variables_of_expression e) scope.new) }
{
    let mut value = first;
    for (operator, other) in others {
        let right = lower_expression(alloc, other, scope)?;
        value = Expr::operation(alloc, product_operator(*operator), value, right)?;
    }
    Ok(value)
}

// The sums of a first operand and further ones.
#[cycle(expression)]
fn lower_sums(
    alloc: Global,
    others: &[(Sum, SourceExpression)],
    first: Expr,
    scope: &mut Scope,
) -> Result<Expr, AllocError>
    ensures says { (left : Value) → SaysValue scope.old left first → IfOk result (λ e. SaysValue scope.new (sums left (summand_views others.now)) e) }
    ensures met { (names : Names) → MeetsAll names (variables_of_expression first) scope.old → IfOk result (λ e. MeetsAll names (variables_of_expression e) scope.new) }
{
    let mut value = first;
    for (operator, other) in others {
        let right = lower_expression(alloc, other, scope)?;
        value = Expr::operation(alloc, sum_operator(*operator), value, right)?;
    }
    Ok(value)
}

fn product_operator(mark: Product) -> Operator
    ensures { result ≡ product_operator mark }
{
    match mark {
        Product::Times => Operator::Multiply,
        Product::Divide => Operator::Divide,
        Product::Modulo => Operator::Modulo,
    }
}

fn sum_operator(mark: Sum) -> Operator
    ensures { result ≡ sum_operator mark }
{
    match mark {
        Sum::Plus => Operator::Add,
        Sum::Minus => Operator::Subtract,
    }
}
