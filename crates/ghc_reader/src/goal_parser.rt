// From tokens to goals.
ghost use Rattle.std.specs.Prelude.{◌≡◌, ◌<◌, List, ◌∷◌, length, IfOk, IfErr};
ghost use Rattle.ghc_reader.specs.Grammar.{Term, Item, Body, term, item, body};
ghost use Rattle.ghc_reader.specs.Source.{Tree, Goal, unify};
ghost use Rattle.ghc_reader.specs.Derived.{tree_of, item_of, goals_of};
ghost use Rattle.ghc_reader.specs.inner.Views.{view, goal_view, goal_views};
ghost use Rattle.ghc_reader.specs.inner.Parts.{EndsTerm, EndsItem, EndsBody, Found, FoundAt, Fault};
ghost use Rattle.ghc_reader.specs.Viable.{IfSyntax};

use crate::expression_parser::expression;
use crate::front::{assigned, eat, name};
use crate::parse_error::ParseError;
use crate::source::{SourceCall, SourceGoal, SourceTerm};
use crate::term_parser::{arguments, term};
use crate::token::{Mark, Token};
use ghc_term::Name;
use std::alloc::Global;

/// The goals that the tokens begin with, and the tokens after them.
pub fn body(alloc: Global, tokens: &[Token]) -> Result<(Vec<SourceGoal>, &[Token]), ParseError>
    ensures found { IfOk result (λ x. FoundAt Body (List Goal) body goals_of EndsBody tokens.now (goal_views x.0.items) x.1.now) }
    ensures shorter { IfOk result (λ x. length x.1.now < length tokens.now) }
    ensures fault { IfErr result (λ e. IfSyntax e (λ left. Fault Body body EndsBody tokens.now left)) }
{
    let mut goals = Vec::new(alloc);
    let (first, mut rest) = item(alloc, tokens)?;
    goals.push(first)?;
    while let Some(after) = eat(Mark::Comma, rest) {
        let (next, behind) = item(alloc, after)?;
        goals.push(next)?;
        rest = behind;
    }
    Ok((goals, rest))
}

/// The goal that the tokens begin with, and the tokens after it.
pub fn item(alloc: Global, tokens: &[Token]) -> Result<(SourceGoal, &[Token]), ParseError>
    ensures found { IfOk result (λ x. FoundAt Item Goal item item_of EndsItem tokens.now (goal_view x.0) x.1.now) }
    ensures shorter { IfOk result (λ x. length x.1.now < length tokens.now) }
    ensures fault { IfErr result (λ e. IfSyntax e (λ left. Fault Item item EndsItem tokens.now left)) }
{
    if let Some((name, behind)) = name(tokens) {
        return named(alloc, tokens, name, behind);
    }
    if let Some((variable, after)) = assigned(tokens) {
        return assignment(alloc, variable, after);
    }
    let (left, rest) = term(alloc, tokens)?;
    match eat(Mark::Equals, rest) {
        None => Err(ParseError::Syntax(rest.len())),
        Some(after) => equation(alloc, left, after),
    }
}

// The goal that begins with a name, the first of the tokens, and the tokens after it.
#[inline(always)]
fn named<'a>(
    alloc: Global,
    tokens: &'a [Token],
    name: &Name,
    behind: &'a [Token],
) -> Result<(SourceGoal, &'a [Token]), ParseError>
    requires { tokens.now ≡ Token.Name name.now ∷ behind.now }
    ensures found { IfOk result (λ x. FoundAt Item Goal item item_of EndsItem tokens.now (goal_view x.0) x.1.now) }
    ensures shorter { IfOk result (λ x. length x.1.now < length tokens.now) }
    ensures fault { IfErr result (λ e. IfSyntax e (λ left. Fault Item item EndsItem tokens.now left)) }
{
    let (arguments, rest) = arguments(alloc, behind)?;
    let name = name.share()?;
    if let Some(after) = eat(Mark::Equals, rest) {
        return equation(alloc, SourceTerm::Structure(name, arguments), after);
    }
    let left = tokens.len();
    let call = SourceCall {
        left,
        name,
        arguments,
    };
    Ok((SourceGoal::Call(call), rest))
}

// The assignment to the variable of the value that the tokens begin with, and the tokens after it.
#[inline(always)]
fn assignment<'a>(
    alloc: Global,
    variable: &Name,
    tokens: &'a [Token],
) -> Result<(SourceGoal, &'a [Token]), ParseError>
    ensures found { IfOk result (λ x. FoundAt Item Goal item item_of EndsItem (Token.Variable variable.now ∷ Token.Mark Mark.Assign ∷ tokens.now) (goal_view x.0) x.1.now) }
    ensures shorter { IfOk result (λ x. length x.1.now < length tokens.now) }
    ensures fault { IfErr result (λ e. IfSyntax e (λ left. Fault Item item EndsItem (Token.Variable variable.now ∷ Token.Mark Mark.Assign ∷ tokens.now) left)) }
{
    let (value, rest) = expression(alloc, tokens)?;
    Ok((SourceGoal::Assign(variable.share()?, value), rest))
}

// The equation of a term and the one that the tokens begin with, and the tokens after it.
#[inline(always)]
fn equation(
    alloc: Global,
    left: SourceTerm,
    tokens: &[Token],
) -> Result<(SourceGoal, &[Token]), ParseError>
    ensures found { IfOk result (λ x. (right : Tree) × (goal_view x.0 ≡ unify (view left) right) × Found Term Tree term tree_of EndsTerm tokens.now right x.1.now) }
    ensures shorter { IfOk result (λ x. length x.1.now < length tokens.now) }
    ensures fault { IfErr result (λ e. IfSyntax e (λ left. Fault Term term EndsTerm tokens.now left)) }
{
    let (right, rest) = term(alloc, tokens)?;
    Ok((SourceGoal::Unify(left, right), rest))
}
