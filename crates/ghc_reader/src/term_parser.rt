// From tokens to terms.
ghost use Rattle.std.specs.Prelude.{◌≡◌, ◌<◌, ◌≤◌, length, IfOk, IfErr};
ghost use Rattle.ghc_reader.specs.Grammar.{Term, Arguments, Rest, Terms, term, arguments, rest, terms};
ghost use Rattle.ghc_reader.specs.Source.{Tree, Trees};
ghost use Rattle.ghc_reader.specs.Derived.{tree_of, arguments_of, list_of, trees_of};
ghost use Rattle.ghc_reader.specs.inner.Views.{view, views};
ghost use Rattle.ghc_reader.specs.inner.Parts.{EndsTerm, EndsArguments, EndsTerms, EndsRest, Found, Fault};
ghost use Rattle.ghc_reader.specs.Viable.{IfSyntax};

use crate::front::{eat, next};
use crate::parse_error::ParseError;
use crate::source::SourceTerm;
use crate::token::{Mark, Token};
use std::alloc::Global;

/// The term that the tokens begin with, and the tokens after it.
#[cycle(term)]
pub fn term(alloc: Global, tokens: &[Token]) -> Result<(SourceTerm, &[Token]), ParseError>
    ensures found { IfOk result (λ x. Found Term Tree term tree_of EndsTerm tokens.now (view x.0) x.1.now) }
    ensures shorter { IfOk result (λ x. length x.1.now < length tokens.now) }
    ensures fault { IfErr result (λ e. IfSyntax e (λ left. Fault Term term EndsTerm tokens.now left)) }
{
    let Some((token, behind)) = next(tokens) else {
        return Err(ParseError::Syntax(0));
    };
    match token {
        Token::Variable(variable) => Ok((SourceTerm::Variable(variable.share()?), behind)),
        Token::Integer(integer) => Ok((SourceTerm::Integer(*integer), behind)),
        Token::Name(name) => {
            let (args, rest) = arguments(alloc, behind)?;
            Ok((SourceTerm::Structure(name.share()?, args), rest))
        }
        Token::Comparison(_) => Err(ParseError::Syntax(tokens.len())),
        Token::Sum(_) => Err(ParseError::Syntax(tokens.len())),
        Token::Product(_) => Err(ParseError::Syntax(tokens.len())),
        Token::Mark(_) => match eat(Mark::OpenList, tokens) {
            None => Err(ParseError::Syntax(tokens.len())),
            Some(inside) => list(alloc, inside),
        },
    }
}

/// What stands in the brackets after a name, where there are any, and the tokens after them.
#[cycle(term)]
pub fn arguments(alloc: Global, tokens: &[Token]) -> Result<(Vec<SourceTerm>, &[Token]), ParseError>
    ensures found { IfOk result (λ x. Found Arguments Trees arguments arguments_of EndsArguments tokens.now (views x.0.items) x.1.now) }
    ensures shorter { IfOk result (λ x. length x.1.now ≤ length tokens.now) }
    ensures fault { IfErr result (λ e. IfSyntax e (λ left. Fault Arguments arguments EndsArguments tokens.now left)) }
{
    let Some(inside) = eat(Mark::Open, tokens) else {
        return Ok((Vec::new(alloc), tokens));
    };
    let (args, rest) = terms(alloc, inside)?;
    match eat(Mark::Close, rest) {
        None => Err(ParseError::Syntax(rest.len())),
        Some(after) => Ok((args, after)),
    }
}

#[cycle(term)]
fn terms(alloc: Global, tokens: &[Token]) -> Result<(Vec<SourceTerm>, &[Token]), ParseError>
    ensures found { IfOk result (λ x. Found Terms Trees terms trees_of EndsTerms tokens.now (views x.0.items) x.1.now) }
    ensures shorter { IfOk result (λ x. length x.1.now < length tokens.now) }
    ensures fault { IfErr result (λ e. IfSyntax e (λ left. Fault Terms terms EndsTerms tokens.now left)) }
{
    let mut all = Vec::new(alloc);
    let (first, mut rest) = term(alloc, tokens)?;
    all.push(first)?;
    while let Some(after) = eat(Mark::Comma, rest) {
        let (next, behind) = term(alloc, after)?;
        all.push(next)?;
        rest = behind;
    }
    Ok((all, rest))
}

// What stands after the bracket that opens a list.
#[cycle(term)]
fn list(alloc: Global, tokens: &[Token]) -> Result<(SourceTerm, &[Token]), ParseError>
    ensures found { IfOk result (λ x. Found Rest Tree rest list_of EndsRest tokens.now (view x.0) x.1.now) }
    ensures shorter { IfOk result (λ x. length x.1.now < length tokens.now) }
    ensures fault { IfErr result (λ e. IfSyntax e (λ left. Fault Rest rest EndsRest tokens.now left)) }
{
    if let Some(after) = eat(Mark::CloseList, tokens) {
        return Ok((SourceTerm::Empty, after));
    }
    let (items, rest) = terms(alloc, tokens)?;
    if let Some(after) = eat(Mark::CloseList, rest) {
        let end = Box::new(alloc, SourceTerm::Empty)?;
        return Ok((SourceTerm::List(items, end), after));
    }
    let Some(behind) = eat(Mark::Bar, rest) else {
        return Err(ParseError::Syntax(rest.len()));
    };
    let (tail, rest) = term(alloc, behind)?;
    match eat(Mark::CloseList, rest) {
        None => Err(ParseError::Syntax(rest.len())),
        Some(after) => Ok((SourceTerm::List(items, Box::new(alloc, tail)?), after)),
    }
}
