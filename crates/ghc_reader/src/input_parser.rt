// From the tokens of an input term to its tree.
ghost use Rattle.std.specs.Prelude.{◌≡◌, [], IfOk, IfErr, MatchResult};
ghost use Rattle.ghc_reader.specs.Grammar.{Term, Input, term, input};
ghost use Rattle.ghc_reader.specs.Derived.{tree_of};
ghost use Rattle.ghc_reader.specs.inner.Views.{view};
ghost use Rattle.ghc_reader.specs.inner.Parts.{ClosedFront, EndsWhole, Fault};
ghost use Rattle.ghc_reader.specs.Viable.{FaultAt, IfSyntax};

use crate::front::next;
use crate::parse_error::ParseError;
use crate::source::SourceTerm;
use crate::term_parser::term;
use crate::token::Token;
use std::alloc::Global;

/// The term that the tokens are, all of the tokens, in which no variable stands. Where they aren't the tokens of such
/// a term, `Syntax` has the number of tokens in front of the first one with which they begin none; that is the first
/// variable, if nothing in front of it is amiss. Time and memory grow with the number of tokens.
pub fn parse_term(alloc: Global, tokens: &[Token]) -> Result<SourceTerm, ParseError>
    ensures found { IfOk result (λ t. (i : Input) × (tokens.now ≡ input i []) × (tree_of i.term ≡ view t)) }
    ensures only { (i : Input) → tokens.now ≡ input i [] → MatchResult result (λ t. tree_of i.term ≡ view t) (λ e. e ≡ ParseError.Memory) }
    ensures fault { IfErr result (λ e. IfSyntax e (λ n. FaultAt Input input tokens.now n)) }
{
    let closed = closed_front(tokens);
    match whole_term(alloc, closed) {
        Err(ParseError::Memory) => Err(ParseError::Memory),
        Err(ParseError::Syntax(left)) => Err(ParseError::Syntax(closed.len() - left)),
        Ok(term) => {
            if closed.len() == tokens.len() {
                Ok(term)
            } else {
                Err(ParseError::Syntax(closed.len()))
            }
        }
    }
}

// The tokens in front of the first variable.
fn closed_front(tokens: &[Token]) -> &[Token]
    ensures { ClosedFront tokens.now result.now }
{
    let mut rest = tokens;
    while let Some((token, after)) = next(rest) {
        if let Token::Variable(_) = token {
            let count = tokens.len() - rest.len();
            return &tokens[..count];
        }
        rest = after;
    }
    tokens
}

fn whole_term(alloc: Global, tokens: &[Token]) -> Result<SourceTerm, ParseError>
    ensures found { IfOk result (λ t. (d : Term) × (tokens.now ≡ term d []) × (tree_of d ≡ view t)) }
    ensures fault { IfErr result (λ e. IfSyntax e (λ left. Fault Term term EndsWhole tokens.now left)) }
{
    let (term, rest) = term(alloc, tokens)?;
    if rest.is_empty() {
        Ok(term)
    } else {
        Err(ParseError::Syntax(rest.len()))
    }
}
