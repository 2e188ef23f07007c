// The piece at the front of a text.
ghost use Rattle.std.specs.Prelude.{◌≡◌, ◌==◌, ◌↔◌, Bool, true, IsTrue, MatchOption};
ghost use Rattle.std.specs.Char.{is_ascii_digit, is_ascii_lowercase};
ghost use Rattle.ghc_reader.specs.Bytes.{is_blank, is_word, begins_variable, Begins, BeginsNegative, Lacks};
ghost use Rattle.ghc_reader.specs.Pieces.{IsFront, HasNoPiece};

use crate::lexer::run::{Run, split_run};
use crate::lexer::symbol::{Symbol, longest_symbol};
use crate::token::Product;

/// The kinds of pieces that a text is cut into.
#[derive(Clone, Copy)]
pub(crate) enum Kind {
    /// A space, a tab, a line feed or a carriage return.
    Blank,
    /// `%` and what follows it up to a line feed or the end.
    Comment,
    Name,
    Variable,
    /// Digits, and a sign before them where there is one.
    Integer,
    Symbol(Symbol),
}

/// The piece at the front of a text, and the text after it.
#[derive(Clone, Copy)]
pub(crate) struct Front<'a> {
    pub(crate) kind: Kind,
    pub(crate) bytes: &'a [u8],
    pub(crate) rest: &'a [u8],
}

fn is_blank(byte: u8) -> bool
    ensures { result ≡ is_blank byte }
{
    byte == b' ' || byte == b'\t' || byte == b'\n' || byte == b'\r'
}

fn begins_variable(byte: u8) -> bool
    ensures { result ≡ begins_variable byte }
{
    byte.is_ascii_uppercase() || byte == b'_'
}

/// The blank at the front.
fn blank(text: &[u8]) -> Front<'_>
    requires { Begins is_blank text.now }
    ensures { (signs : Bool) → IsFront signs text.now result }
{
    let (bytes, rest) = text.split_at(1);
    Front {
        kind: Kind::Blank,
        bytes,
        rest,
    }
}

/// The comment at the front.
fn comment(text: &[u8]) -> Front<'_>
    requires { Begins (λ b. b == 37) text.now }
    ensures { (signs : Bool) → IsFront signs text.now result }
{
    let (bytes, rest) = split_run(Run::Comment, text);
    Front {
        kind: Kind::Comment,
        bytes,
        rest,
    }
}

/// The name at the front, or the operator `mod`.
fn name(text: &[u8]) -> Front<'_>
    requires { Begins is_ascii_lowercase text.now }
    ensures { (signs : Bool) → IsFront signs text.now result }
{
    let (bytes, rest) = split_run(Run::Word, text);
    let kind = if bytes == b"mod".as_slice() {
        Kind::Symbol(Symbol::Product(Product::Modulo))
    } else {
        Kind::Name
    };
    Front { kind, bytes, rest }
}

/// The variable at the front.
fn variable(text: &[u8]) -> Front<'_>
    requires { Begins begins_variable text.now }
    ensures { (signs : Bool) → IsFront signs text.now result }
{
    let (bytes, rest) = split_run(Run::Word, text);
    Front {
        kind: Kind::Variable,
        bytes,
        rest,
    }
}

/// The integer without a sign at the front.
fn integer(text: &[u8]) -> Front<'_>
    requires { Begins is_ascii_digit text.now }
    ensures { (signs : Bool) → IsFront signs text.now result }
{
    let (bytes, rest) = split_run(Run::Digits, text);
    Front {
        kind: Kind::Integer,
        bytes,
        rest,
    }
}

/// Whether the text begins with a minus and a digit directly after it.
fn begins_negative(text: &[u8]) -> bool
    ensures { IsTrue result ↔ BeginsNegative text.now }
{
    match text {
        [b'-', digit, ..] => digit.is_ascii_digit(),
        _ => false,
    }
}

/// The integer with a sign at the front.
fn negative(text: &[u8]) -> Front<'_>
    requires { BeginsNegative text.now }
    ensures { IsFront true text.now result }
{
    let (digits, _) = split_run(Run::Digits, &text[1..]);
    let (bytes, rest) = text.split_at(1 + digits.len());
    Front {
        kind: Kind::Integer,
        bytes,
        rest,
    }
}

/// The symbol at the front, where nothing else can stand.
fn symbol(text: &[u8], signs: bool) -> Option<Front<'_>>
    requires no_word { Lacks is_word text.now }
    requires no_blank { Lacks is_blank text.now }
    requires no_percent { Lacks (λ b. b == 37) text.now }
    requires no_sign { ¬ (IsTrue signs × BeginsNegative text.now) }
    ensures { MatchOption result (HasNoPiece signs text.now) (λ front. IsFront signs text.now front) }
{
    let (symbol, behind) = longest_symbol(text)?;
    let (bytes, rest) = text.split_at(text.len() - behind.len());
    Some(Front {
        kind: Kind::Symbol(symbol),
        bytes,
        rest,
    })
}

/// The piece at the front of the text, where one is there. `signs` says whether a minus directly before a digit is a
/// sign there.
pub(crate) fn cut_front(text: &[u8], signs: bool) -> Option<Front<'_>>
    ensures { MatchOption result (HasNoPiece signs text.now) (λ front. IsFront signs text.now front) }
{
    let [first, ..] = text else {
        return None;
    };
    if is_blank(*first) {
        return Some(blank(text));
    }
    if *first == b'%' {
        return Some(comment(text));
    }
    if first.is_ascii_lowercase() {
        return Some(name(text));
    }
    if begins_variable(*first) {
        return Some(variable(text));
    }
    if first.is_ascii_digit() {
        return Some(integer(text));
    }
    if signs && begins_negative(text) {
        return Some(negative(text));
    }
    symbol(text, signs)
}
