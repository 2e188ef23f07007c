// From tokens to clauses.
ghost use Rattle.std.specs.Prelude.{◌≡◌, ◌≢◌, ◌<◌, List, ◌∷◌, length, IfOk, IfErr, MatchOption};
ghost use Rattle.ghc_reader.specs.Grammar.{Arguments, Test as TestDerivation, Tests, Right, Clause, arguments, test, tests, right, clause};
ghost use Rattle.ghc_reader.specs.Source.{Trees, Goal, Test, Right as RightTree, Clause as ClauseTree, plains};
ghost use Rattle.ghc_reader.specs.Derived.{arguments_of, test_of, tests_of, right_of, clause_of};
ghost use Rattle.ghc_reader.specs.inner.Views.{views, goal_views, test_view, test_views, right_view, clause_view};
ghost use Rattle.ghc_reader.specs.inner.Parts.{EndsArguments, EndsTest, EndsTests, EndsRight, EndsClause, Found, FoundAt, Fault};
ghost use Rattle.ghc_reader.specs.Viable.{IfSyntax};

use crate::expression_parser::expression;
use crate::front::{eat, item_like, name, next_comparison};
use crate::goal_parser::{body, item};
use crate::parse_error::ParseError;
use crate::source::{SourceCall, SourceClause, SourceGoal, SourceTest};
use crate::term_parser::arguments;
use crate::token::{Mark, Token};
use std::alloc::{AllocError, Global};

// What stands after the mark that follows a head.
#[derive(Drop)]
struct SourceRight {
    guard: Vec<SourceTest>,
    body: Vec<SourceGoal>,
}

/// The clause that the tokens begin with, and the tokens after it.
pub fn clause(alloc: Global, tokens: &[Token]) -> Result<(SourceClause, &[Token]), ParseError>
    ensures found { IfOk result (λ x. FoundAt Clause ClauseTree clause clause_of EndsClause tokens.now (clause_view x.0) x.1.now) }
    ensures shorter { IfOk result (λ x. length x.1.now < length tokens.now) }
    ensures fault { IfErr result (λ e. IfSyntax e (λ left. Fault Clause clause EndsClause tokens.now left)) }
{
    let (head, rest) = head(alloc, tokens)?;
    if let Some(after) = eat(Mark::Stop, rest) {
        let guard = Vec::new(alloc);
        let body = Vec::new(alloc);
        return Ok((SourceClause { head, guard, body }, after));
    }
    let Some(inside) = eat(Mark::Define, rest) else {
        return Err(ParseError::Syntax(rest.len()));
    };
    let (right, after) = right(alloc, inside)?;
    let SourceRight { guard, body } = right;
    Ok((SourceClause { head, guard, body }, after))
}

// The head that the tokens begin with, and the tokens after it.
#[inline(always)]
fn head(alloc: Global, tokens: &[Token]) -> Result<(SourceCall, &[Token]), ParseError>
    ensures left { IfOk result (λ x. x.0.left ≡ length tokens.now) }
    ensures found { IfOk result (λ x. (behind : List Token) × (tokens.now ≡ Token.Name x.0.name ∷ behind) × Found Arguments Trees arguments arguments_of EndsArguments behind (views x.0.arguments.items) x.1.now) }
    ensures shorter { IfOk result (λ x. length x.1.now < length tokens.now) }
    ensures fault { IfErr result (λ e. IfSyntax e (λ left. Fault Clause clause EndsClause tokens.now left)) }
{
    let left = tokens.len();
    let Some((name, behind)) = name(tokens) else {
        return Err(ParseError::Syntax(left));
    };
    let (arguments, rest) = arguments(alloc, behind)?;
    let name = name.share()?;
    let head = SourceCall {
        left,
        name,
        arguments,
    };
    Ok((head, rest))
}

// What stands after the mark that follows a head. Tests and goals are read as tests, and what ends them tells which they are.
fn right(alloc: Global, tokens: &[Token]) -> Result<(SourceRight, &[Token]), ParseError>
    ensures found { IfOk result (λ x. FoundAt Right RightTree right right_of EndsRight tokens.now (right_view x.0) x.1.now) }
    ensures shorter { IfOk result (λ x. length x.1.now < length tokens.now) }
    ensures fault { IfErr result (λ e. IfSyntax e (λ left. Fault Right right EndsRight tokens.now left)) }
{
    let (tests, rest) = tests(alloc, tokens)?;
    if let Some(after) = eat(Mark::Stop, rest) {
        let Some(body) = as_body(alloc, tests)? else {
            return Err(ParseError::Syntax(rest.len()));
        };
        let guard = Vec::new(alloc);
        return Ok((SourceRight { guard, body }, after));
    }
    let Some(behind) = eat(Mark::Bar, rest) else {
        return Err(ParseError::Syntax(rest.len()));
    };
    let (body, rest) = body(alloc, behind)?;
    match eat(Mark::Stop, rest) {
        None => Err(ParseError::Syntax(rest.len())),
        Some(after) => Ok((SourceRight { guard: tests, body }, after)),
    }
}

// The goals that these tests are, where none is a comparison.
fn as_body(alloc: Global, tests: Vec<SourceTest>) -> Result<Option<Vec<SourceGoal>>, AllocError>
    ensures { IfOk result (λ o. MatchOption o ((gs : List Goal) → test_views tests.items ≢ plains gs) (λ goals. test_views tests.items ≡ plains (goal_views goals.items))) }
{
    let mut tests = tests;
    let mut goals = Vec::new(alloc);
    while let Some(test) = tests.pop() {
        match test {
            SourceTest::Goal(goal) => goals.push(goal)?,
            SourceTest::Compare(_, _, _) => return Ok(None),
        }
    }
    goals.reverse();
    Ok(Some(goals))
}

fn tests(alloc: Global, tokens: &[Token]) -> Result<(Vec<SourceTest>, &[Token]), ParseError>
    ensures found { IfOk result (λ x. FoundAt Tests (List Test) tests tests_of EndsTests tokens.now (test_views x.0.items) x.1.now) }
    ensures shorter { IfOk result (λ x. length x.1.now < length tokens.now) }
    ensures fault { IfErr result (λ e. IfSyntax e (λ left. Fault Tests tests EndsTests tokens.now left)) }
{
    let mut all = Vec::new(alloc);
    let (first, mut rest) = test(alloc, tokens)?;
    all.push(first)?;
    while let Some(after) = eat(Mark::Comma, rest) {
        let (next, behind) = test(alloc, after)?;
        all.push(next)?;
        rest = behind;
    }
    Ok((all, rest))
}

fn test(alloc: Global, tokens: &[Token]) -> Result<(SourceTest, &[Token]), ParseError>
    ensures found { IfOk result (λ x. FoundAt TestDerivation Test test test_of EndsTest tokens.now (test_view x.0) x.1.now) }
    ensures shorter { IfOk result (λ x. length x.1.now < length tokens.now) }
    ensures fault { IfErr result (λ e. IfSyntax e (λ left. Fault TestDerivation test EndsTest tokens.now left)) }
{
    if item_like(tokens) {
        let (item, rest) = item(alloc, tokens)?;
        return Ok((SourceTest::Goal(item), rest));
    }
    let (left, rest) = expression(alloc, tokens)?;
    let Some((operator, after)) = next_comparison(rest) else {
        return Err(ParseError::Syntax(rest.len()));
    };
    let (right, rest) = expression(alloc, after)?;
    Ok((SourceTest::Compare(left, operator, right), rest))
}
