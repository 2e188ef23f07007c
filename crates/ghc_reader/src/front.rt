// The front of a list of tokens.
ghost use Rattle.std.specs.Prelude.{◌≡◌, ◌≢◌, [], ◌∷◌, Some, MatchOption};
ghost use Rattle.ghc_term.specs.declared.comparison.Comparison.{Comparison};
ghost use Rattle.ghc_reader.specs.declared.token.Sum.{Sum};
ghost use Rattle.ghc_reader.specs.declared.token.Product.{Product};
ghost use Rattle.ghc_reader.specs.inner.Front.{first, Begins, IsNotNamed, IsNotAssigned, item_like};

use crate::token::{Mark, Product, Sum, Token};
use ghc_term::{Comparison, Name};

/// The tokens after this mark, where they begin with it.
pub fn eat(mark: Mark, tokens: &[Token]) -> Option<&[Token]>
    ensures { MatchOption result (¬ Begins mark tokens.now) (λ rest. tokens.now ≡ Token.Mark mark ∷ rest.now) }
{
    match tokens {
        [Token::Mark(first), rest @ ..] if *first == mark => Some(rest),
        _ => None,
    }
}

/// The first token, and those after it.
pub fn next(tokens: &[Token]) -> Option<(&Token, &[Token])>
    ensures { MatchOption result (tokens.now ≡ []) (λ found. tokens.now ≡ found.0.now ∷ found.1.now) }
{
    match tokens {
        [] => None,
        [token, rest @ ..] => Some((token, rest)),
    }
}

/// The name that the tokens begin with, and those after it.
pub fn name(tokens: &[Token]) -> Option<(&Name, &[Token])>
    ensures { MatchOption result (IsNotNamed tokens.now) (λ found. tokens.now ≡ Token.Name found.0.now ∷ found.1.now) }
{
    match tokens {
        [Token::Name(name), rest @ ..] => Some((name, rest)),
        _ => None,
    }
}

/// The variable that the tokens begin with an assignment to, and those after its mark.
pub fn assigned(tokens: &[Token]) -> Option<(&Name, &[Token])>
    ensures { MatchOption result (IsNotAssigned tokens.now) (λ found. tokens.now ≡ Token.Variable found.0.now ∷ Token.Mark Mark.Assign ∷ found.1.now) }
{
    match tokens {
        [
            Token::Variable(variable),
            Token::Mark(Mark::Assign),
            rest @ ..,
        ] => Some((variable, rest)),
        _ => None,
    }
}

/// The comparison that the tokens begin with, and those after it.
pub fn next_comparison(tokens: &[Token]) -> Option<(Comparison, &[Token])>
    ensures { MatchOption result ((o : Comparison) → first tokens.now ≢ Some (Token.Comparison o)) (λ found. tokens.now ≡ Token.Comparison found.0 ∷ found.1.now) }
{
    match tokens {
        [Token::Comparison(operator), rest @ ..] => Some((*operator, rest)),
        _ => None,
    }
}

/// The addition or subtraction that the tokens begin with, and those after it.
pub fn next_sum(tokens: &[Token]) -> Option<(Sum, &[Token])>
    ensures { MatchOption result ((o : Sum) → first tokens.now ≢ Some (Token.Sum o)) (λ found. tokens.now ≡ Token.Sum found.0 ∷ found.1.now) }
{
    match tokens {
        [Token::Sum(operator), rest @ ..] => Some((*operator, rest)),
        _ => None,
    }
}

/// The multiplication or division that the tokens begin with, and those after it.
pub fn next_product(tokens: &[Token]) -> Option<(Product, &[Token])>
    ensures { MatchOption result ((o : Product) → first tokens.now ≢ Some (Token.Product o)) (λ found. tokens.now ≡ Token.Product found.0 ∷ found.1.now) }
{
    match tokens {
        [Token::Product(operator), rest @ ..] => Some((*operator, rest)),
        _ => None,
    }
}

/// Whether the tokens begin as an item does, and no comparison.
pub fn item_like(tokens: &[Token]) -> bool
    ensures { result ≡ item_like tokens.now }
{
    match tokens {
        [Token::Name(_), ..] => true,
        [Token::Mark(Mark::OpenList), ..] => true,
        [Token::Variable(_), Token::Mark(Mark::Equals), ..] => true,
        [Token::Variable(_), Token::Mark(Mark::Assign), ..] => true,
        [Token::Integer(_), Token::Mark(Mark::Equals), ..] => true,
        _ => false,
    }
}
