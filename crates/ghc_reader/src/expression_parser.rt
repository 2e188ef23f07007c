// From tokens to expressions.
ghost use Rattle.std.specs.Prelude.{◌≡◌, ◌<◌, length, IfOk, IfErr};
ghost use Rattle.ghc_reader.specs.Grammar.{Operand, Factors, Expression, operand, product, expression};
ghost use Rattle.ghc_reader.specs.Source.{Value, products, sums};
ghost use Rattle.ghc_reader.specs.Derived.{operand_of, product_of, value_of};
ghost use Rattle.ghc_reader.specs.inner.Views.{value_view, factor_views, summand_views};
ghost use Rattle.ghc_reader.specs.inner.Parts.{EndsOperand, EndsProduct, EndsExpression, Found, Fault};
ghost use Rattle.ghc_reader.specs.Viable.{IfSyntax};

use crate::front::{eat, next, next_product, next_sum};
use crate::parse_error::ParseError;
use crate::source::SourceExpression;
use crate::token::{Mark, Product, Sum, Token};
use std::alloc::Global;

/// The expression that the tokens begin with, and the tokens after it.
#[cycle(expression)]
pub fn expression(
    alloc: Global,
    tokens: &[Token],
) -> Result<(SourceExpression, &[Token]), ParseError>
    ensures found { IfOk result (λ x. Found Expression Value expression value_of EndsExpression tokens.now (value_view x.0) x.1.now) }
    ensures shorter { IfOk result (λ x. length x.1.now < length tokens.now) }
    ensures fault { IfErr result (λ e. IfSyntax e (λ left. Fault Expression expression EndsExpression tokens.now left)) }
{
    let (first, mut rest) = factors(alloc, tokens)?;
    let mut others = Vec::new(alloc);
    while let Some((operator, after)) = next_sum(rest) {
        let (next, behind) = factors(alloc, after)?;
        others.push((operator, next))?;
        rest = behind;
    }
    Ok((sums(alloc, first, others)?, rest))
}

#[cycle(expression)]
fn factors(alloc: Global, tokens: &[Token]) -> Result<(SourceExpression, &[Token]), ParseError>
    ensures found { IfOk result (λ x. Found Factors Value product product_of EndsProduct tokens.now (value_view x.0) x.1.now) }
    ensures shorter { IfOk result (λ x. length x.1.now < length tokens.now) }
    ensures fault { IfErr result (λ e. IfSyntax e (λ left. Fault Factors product EndsProduct tokens.now left)) }
{
    let (first, mut rest) = operand(alloc, tokens)?;
    let mut others = Vec::new(alloc);
    while let Some((operator, after)) = next_product(rest) {
        let (next, behind) = operand(alloc, after)?;
        others.push((operator, next))?;
        rest = behind;
    }
    Ok((products(alloc, first, others)?, rest))
}

#[cycle(expression)]
fn operand(alloc: Global, tokens: &[Token]) -> Result<(SourceExpression, &[Token]), ParseError>
    ensures found { IfOk result (λ x. Found Operand Value operand operand_of EndsOperand tokens.now (value_view x.0) x.1.now) }
    ensures shorter { IfOk result (λ x. length x.1.now < length tokens.now) }
    ensures fault { IfErr result (λ e. IfSyntax e (λ left. Fault Operand operand EndsOperand tokens.now left)) }
{
    let Some((token, behind)) = next(tokens) else {
        return Err(ParseError::Syntax(0));
    };
    match token {
        Token::Variable(variable) => Ok((SourceExpression::Variable(variable.share()?), behind)),
        Token::Integer(integer) => Ok((SourceExpression::Integer(*integer), behind)),
        Token::Name(_) => Err(ParseError::Syntax(tokens.len())),
        Token::Comparison(_) => Err(ParseError::Syntax(tokens.len())),
        Token::Sum(_) => Err(ParseError::Syntax(tokens.len())),
        Token::Product(_) => Err(ParseError::Syntax(tokens.len())),
        Token::Mark(_) => {
            let Some(inside) = eat(Mark::Open, tokens) else {
                return Err(ParseError::Syntax(tokens.len()));
            };
            let (value, rest) = expression(alloc, inside)?;
            match eat(Mark::Close, rest) {
                None => Err(ParseError::Syntax(rest.len())),
                Some(after) => Ok((value, after)),
            }
        }
    }
}

// The sum of an operand and further ones; without these it is the operand alone.
fn sums(
    alloc: Global,
    first: SourceExpression,
    others: Vec<(Sum, SourceExpression)>,
) -> Result<SourceExpression, ParseError>
    ensures value { IfOk result (λ x. value_view x ≡ sums (value_view first) (summand_views others.items)) }
    ensures memory { IfErr result (λ e. e ≡ ParseError.Memory) }
{
    if others.is_empty() {
        return Ok(first);
    }
    Ok(SourceExpression::Sums(Box::new(alloc, first)?, others))
}

// The product of an operand and further ones; without these it is the operand alone.
fn products(
    alloc: Global,
    first: SourceExpression,
    others: Vec<(Product, SourceExpression)>,
) -> Result<SourceExpression, ParseError>
    ensures value { IfOk result (λ x. value_view x ≡ products (value_view first) (factor_views others.items)) }
    ensures memory { IfErr result (λ e. e ≡ ParseError.Memory) }
{
    if others.is_empty() {
        return Ok(first);
    }
    Ok(SourceExpression::Products(Box::new(alloc, first)?, others))
}
