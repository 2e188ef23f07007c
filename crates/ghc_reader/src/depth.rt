// How deep the brackets of a text are nested.
ghost use Rattle.std.specs.Prelude.{◌≡◌, ◌≤◌, ◌↔◌, IsTrue};
ghost use Rattle.ghc_reader.specs.Depth.{open_behind, IsDeeperThan, IsTooDeep};

use crate::token::{Mark, Token};

/// The most brackets that may be open at one place.
pub(crate) const MOST_OPEN: usize = 64;

/// The most brackets that may be open at one place of a body in a history: the parser calls itself for each of them.
pub(crate) const MOST_OPEN_IN_BODY: usize = 1_000;

/// How many brackets are open after the token.
fn open_behind(depth: usize, token: &Token) -> usize
    requires { depth ≤ MOST_OPEN_IN_BODY }
    ensures { result ≡ open_behind depth token.now }
{
    match token {
        Token::Mark(Mark::Open) => depth + 1,
        Token::Mark(Mark::OpenList) => depth + 1,
        Token::Mark(Mark::Close) => depth.saturating_sub(1),
        Token::Mark(Mark::CloseList) => depth.saturating_sub(1),
        _ => depth,
    }
}

/// Whether more than so many of `(` and `[` are open at one place. A closing bracket takes one off where one is open.
pub(crate) fn is_deeper_than(most: usize, tokens: &[Token]) -> bool
    requires { most ≤ MOST_OPEN_IN_BODY }
    ensures { IsTrue result ↔ IsDeeperThan most tokens.now }
{
    let mut depth = 0;
    for token in tokens {
        depth = open_behind(depth, token);
        if depth > most {
            return true;
        }
    }
    false
}

/// Whether more than `MOST_OPEN` of `(` and `[` are open at one place.
pub(crate) fn is_too_deep(tokens: &[Token]) -> bool
    ensures { IsTrue result ↔ IsTooDeep tokens.now }
{
    is_deeper_than(MOST_OPEN, tokens)
}
