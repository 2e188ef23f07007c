// What the bytes of a piece say: the token of a name, a variable, an integer or a symbol.
ghost use Rattle.std.specs.Prelude.{◌≡◌, ◌≢◌, ◌∷◌, ◌++◌, ◌<◌, ℕ, List, ◌↔◌, ◌⊎◌, true, IsTrue, IfOk, IfErr, MatchOption, MatchResult, FitsSigned};
ghost use Rattle.std.specs.Int.{w64};
ghost use Rattle.std.specs.List.{list_all};
ghost use Rattle.std.specs.Str.{IsAscii};
ghost use Rattle.std.specs.Str.Parse.{digits_value, signed_digits_value};
ghost use Rattle.ghc_reader.specs.declared.lexer.front.Kind.TheVariants.{Integer};
ghost use Rattle.ghc_reader.specs.Bytes.{is_word};
ghost use Rattle.ghc_reader.specs.Pieces.{HasForm};
ghost use Rattle.ghc_reader.specs.Places.{fault_at};
ghost use Rattle.ghc_reader.specs.Lexed.{AreDigits, BeginsNumber, IsReserved, IsReservedBy, IsTooGreat, IsNumberedAs, greatest_number, IsRefused, piece_of, token_of};

use crate::lexer::front::{Front, Kind};
use crate::lexer::names::Names;
use crate::lexer::run::{Run, split_run};
use crate::lexer::symbol::symbol_token;
use crate::place::Place;
use crate::token::Token;
use ghc_term::{Fault, Name};
use std::alloc::AllocError;
use std::str;

/// Whether a text may hold reserved variables, those that stand for variables of the state.
#[derive(Clone, Copy, PartialEq, Eq)]
pub(crate) enum Reserved {
    /// It may not, as in a program, a query or an input term.
    Refused,
    /// It may, as where goals are asked for, but with numbers of 32 bits.
    Allowed,
}

/// The digits after a `_` at the front of the text, one or more, as many as there are; and what follows them.
fn split_number(text: &[u8]) -> Option<(&[u8], &[u8])>
    ensures { MatchOption result
        ((digits more : List ℕ) → AreDigits digits → text.now ≢ 95 ∷ (digits ++ more))
        (λ split. BeginsNumber text.now split.0.now split.1.now) }
{
    let [b'_', behind @ ..] = text else {
        return None;
    };
    let (digits, rest) = split_run(Run::Digits, behind);
    if digits.is_empty() {
        None
    } else {
        Some((digits, rest))
    }
}

/// The digits of a reserved variable, `_`, digits, `_`, digits: the first and the second ones.
fn digits_of(bytes: &[u8]) -> Option<(&[u8], &[u8])>
    ensures { MatchOption result
        (¬ (IsReserved bytes.now))
        (λ digits. IsReservedBy bytes.now digits.0.now digits.1.now) }
{
    let Some((first, behind)) = split_number(bytes) else {
        return None;
    };
    let Some((second, end)) = split_number(behind) else {
        return None;
    };
    if end.is_empty() {
        Some((first, second))
    } else {
        None
    }
}

/// Whether the bytes are those of a reserved variable.
fn is_reserved(bytes: &[u8]) -> bool
    ensures { IsTrue result ↔ IsReserved bytes.now }
{
    digits_of(bytes).is_some()
}

/// The bytes as text.
fn ascii_text(bytes: &[u8]) -> &str
    requires { IsAscii bytes.now }
    ensures { result.now ≡ bytes.now }
{
    str::from_utf8(bytes).unwrap()
}

/// The value of an integer, where it fits 64 bits.
fn value(bytes: &[u8]) -> Option<i64>
    requires { HasForm true Integer bytes.now }
    ensures { MatchOption result
        (¬ (FitsSigned w64 (signed_digits_value 10 bytes.now)))
        (λ value. (value ≡ signed_digits_value 10 bytes.now) × FitsSigned w64 value) }
{
    match ascii_text(bytes).parse::<i64>() {
        Ok(value) => Some(value),
        Err(_) => None,
    }
}

/// The value of digits, where it has 32 bits at most.
fn number(digits: &[u8]) -> Option<u32>
    requires { AreDigits digits.now }
    ensures { MatchOption result
        (greatest_number < digits_value 10 digits.now)
        (λ number. number ≡ digits_value 10 digits.now) }
{
    match ascii_text(digits).parse::<u32>() {
        Ok(number) => Some(number),
        Err(_) => None,
    }
}

/// The numbers of a reserved variable, where each has 32 bits at most.
pub(crate) fn numbers(bytes: &[u8]) -> Option<(u32, u32)>
    ensures { MatchOption result
        ((n m : ℕ) → ¬ (IsNumberedAs bytes.now n m))
        (λ numbers. IsNumberedAs bytes.now numbers.0 numbers.1) }
{
    let Some((first, second)) = digits_of(bytes) else {
        return None;
    };
    let Some(step) = number(first) else {
        return None;
    };
    let Some(place) = number(second) else {
        return None;
    };
    Some((step, place))
}

/// Whether the bytes are those of a reserved variable with a number that is too great.
fn is_too_great(bytes: &[u8]) -> bool
    ensures { IsTrue result ↔ IsTooGreat bytes.now }
{
    is_reserved(bytes) && numbers(bytes).is_none()
}

/// The name that the bytes are.
fn word<'a>(names: &mut Names<'a>, bytes: &'a [u8]) -> Result<Name, AllocError>
    requires { IsTrue (list_all is_word bytes.now) }
    ensures { IfOk result (λ name. name ≡ bytes.now) }
{
    names.name(ascii_text(bytes))
}

/// The token of a piece that stands at the place. A blank and a comment are no token; what is refused is a syntax error
/// at the place.
pub(crate) fn token<'a>(
    names: &mut Names<'a>,
    front: &Front<'a>,
    reserved: Reserved,
    place: Place,
) -> Result<Option<Token>, Fault>
    requires { HasForm true front.now.kind front.now.bytes.now }
    ensures found { IfOk result (λ token.
        (token ≡ token_of (piece_of front.now)) × ¬ (IsRefused reserved (piece_of front.now))) }
    ensures refused { IfErr result (λ fault.
        (fault ≡ Fault.Memory) ⊎ ((fault ≡ fault_at place) × IsRefused reserved (piece_of front.now))) }
{
    match front.kind {
        Kind::Blank => Ok(None),
        Kind::Comment => Ok(None),
        Kind::Name => Ok(Some(Token::Name(word(names, front.bytes)?))),
        Kind::Variable => {
            let refused = match reserved {
                Reserved::Refused => is_reserved(front.bytes),
                Reserved::Allowed => is_too_great(front.bytes),
            };
            if refused {
                return Err(place.fault());
            }
            Ok(Some(Token::Variable(word(names, front.bytes)?)))
        }
        Kind::Integer => match value(front.bytes) {
            Some(value) => Ok(Some(Token::Integer(value))),
            None => Err(place.fault()),
        },
        Kind::Symbol(symbol) => Ok(Some(symbol_token(symbol))),
    }
}
