// The tokens that have one spelling each, and the longest one at the front of a text.
ghost use Rattle.std.specs.Prelude.{◌≡◌, ◌≢◌, ◌∷◌, ◌++◌, ◌≤◌, ℕ, List, length, MatchOption};
ghost use Rattle.ghc_reader.specs.Bytes.{is_word, Lacks};
ghost use Rattle.ghc_reader.specs.Symbols.{spelling, token_of_symbol, IsLongest};

use crate::token::{Mark, Product, Sum, Token};
use ghc_term::Comparison;

/// A token that has one spelling.
#[derive(Clone, Copy)]
pub(crate) enum Symbol {
    Mark(Mark),
    Comparison(Comparison),
    Sum(Sum),
    Product(Product),
}

/// The token that the symbol is.
pub(crate) fn symbol_token(symbol: Symbol) -> Token
    ensures { result ≡ token_of_symbol symbol }
{
    match symbol {
        Symbol::Mark(mark) => Token::Mark(mark),
        Symbol::Comparison(comparison) => Token::Comparison(comparison),
        Symbol::Sum(sum) => Token::Sum(sum),
        Symbol::Product(product) => Token::Product(product),
    }
}

/// The symbol that a colon begins, and the bytes after it.
fn after_colon(rest: &[u8]) -> Option<(Symbol, &[u8])>
    ensures { MatchOption result
        ((s : Symbol) (more : List ℕ) → 58 ∷ rest.now ≢ spelling s ++ more)
        (λ x. (58 ∷ rest.now ≡ spelling x.0 ++ x.1.now) × IsLongest x.0 x.1.now) }
{
    match rest {
        [b'-', more @ ..] => Some((Symbol::Mark(Mark::Define), more)),
        [b'=', more @ ..] => Some((Symbol::Mark(Mark::Assign), more)),
        _ => None,
    }
}

/// The symbol that an equals sign begins, and the bytes after it.
fn after_equals(rest: &[u8]) -> (Symbol, &[u8])
    ensures spelled { 61 ∷ rest.now ≡ spelling result.0 ++ result.1.now }
    ensures longest { IsLongest result.0 result.1.now }
{
    match rest {
        [b':', b'=', more @ ..] => (Symbol::Comparison(Comparison::Equal), more),
        [b'\\', b'=', more @ ..] => (Symbol::Comparison(Comparison::NotEqual), more),
        [b'<', more @ ..] => (Symbol::Comparison(Comparison::AtMost), more),
        _ => (Symbol::Mark(Mark::Equals), rest),
    }
}

/// The symbol that a greater-than sign begins, and the bytes after it.
fn after_greater(rest: &[u8]) -> (Symbol, &[u8])
    ensures spelled { 62 ∷ rest.now ≡ spelling result.0 ++ result.1.now }
    ensures longest { IsLongest result.0 result.1.now }
{
    match rest {
        [b'=', more @ ..] => (Symbol::Comparison(Comparison::AtLeast), more),
        _ => (Symbol::Comparison(Comparison::Greater), rest),
    }
}

/// The longest symbol at the front of a text that no word begins, and the bytes after it.
pub(crate) fn longest_symbol(text: &[u8]) -> Option<(Symbol, &[u8])>
    requires { Lacks is_word text.now }
    ensures { MatchOption result
        ((s : Symbol) (more : List ℕ) → text.now ≢ spelling s ++ more)
        (λ x. (text.now ≡ spelling x.0 ++ x.1.now) × IsLongest x.0 x.1.now) }
{
    let [first, rest @ ..] = text else {
        return None;
    };
    match *first {
        b':' => after_colon(rest),
        b'=' => Some(after_equals(rest)),
        b'>' => Some(after_greater(rest)),
        b'<' => Some((Symbol::Comparison(Comparison::Less), rest)),
        b'+' => Some((Symbol::Sum(Sum::Plus), rest)),
        b'-' => Some((Symbol::Sum(Sum::Minus), rest)),
        b'*' => Some((Symbol::Product(Product::Times), rest)),
        b'/' => Some((Symbol::Product(Product::Divide), rest)),
        b'(' => Some((Symbol::Mark(Mark::Open), rest)),
        b')' => Some((Symbol::Mark(Mark::Close), rest)),
        b'[' => Some((Symbol::Mark(Mark::OpenList), rest)),
        b']' => Some((Symbol::Mark(Mark::CloseList), rest)),
        b',' => Some((Symbol::Mark(Mark::Comma), rest)),
        b'|' => Some((Symbol::Mark(Mark::Bar), rest)),
        b'.' => Some((Symbol::Mark(Mark::Stop), rest)),
        _ => None,
    }
}
