// From bytes to tokens.
ghost use Rattle.std.specs.Prelude.{◌≡◌, ◌+◌, ◌<◌, ◌≤◌, ◌⊎◌, ◌++◌, List, [], length, IfOk, IfErr, OnOk, IsErrAnd, MatchResult};
ghost use Rattle.std.specs.Option.{option_to_list};
ghost use Rattle.ghc_reader.specs.Pieces.{signs_behind};
ghost use Rattle.ghc_reader.specs.Places.{fault_at};
ghost use Rattle.ghc_reader.specs.Lexed.{place_of_token, IsLexed, IsBadAt, IsCutFault, IsLexFault, greatest_number};
ghost use Rattle.ghc_term.specs.Limit.{text_limit};

pub(crate) mod front;
pub(crate) mod laws;
pub(crate) mod names;
pub(crate) mod run;
pub(crate) mod symbol;
pub(crate) mod value;

use crate::lexer::front::{Kind, cut_front};
use crate::lexer::names::Names;
use crate::lexer::symbol::Symbol;
use crate::lexer::value::{Reserved, token};
use crate::place::Place;
use crate::token::{Mark, Token};
use ghc_term::{Fault, Limit, TEXT_LIMIT};
use std::alloc::{AllocError, Global};

/// So many bytes, and more, may have places past 32 bits.
const TOO_MANY_BYTES: usize = 4_294_967_294;

/// The tokens of a text, and their places. The last place, after those of the tokens, is that of the end of the text.
pub(crate) struct Lexed {
    pub(crate) tokens: Vec<Token>,
    pub(crate) places: Vec<Place>,
}

impl Drop for Lexed {
    fn drop(self) {
        let Lexed {
            tokens: _tokens,
            places: _places,
        } = self;
    }
}

impl Lexed {
    /// Adds a token, where there is one, and its place.
    fn add(&mut self, token: Option<Token>, place: Place) -> Result<(), AllocError>
        ensures tokens { OnOk result (self.new.tokens.items ≡ self.old.tokens.items ++ option_to_list token) }
        ensures places { OnOk result (self.new.places.items ≡ self.old.places.items ++ place_of_token token place []) }
    {
        if let Some(token) = token {
            self.tokens.push(token)?;
            self.places.push(place)?;
        }
        Ok(())
    }
}

/// Whether a minus directly before a digit is a sign after this kind of piece.
fn signs_behind(signs: bool, kind: Kind) -> bool
    ensures { result ≡ signs_behind signs kind }
{
    match kind {
        Kind::Blank => signs,
        Kind::Comment => signs,
        Kind::Variable => false,
        Kind::Integer => false,
        Kind::Symbol(Symbol::Mark(Mark::Close)) => false,
        Kind::Symbol(_) => true,
        Kind::Name => true,
    }
}

/// The tokens of a text whose places have numbers of 32 bits.
fn cut(alloc: Global, text: &[u8], reserved: Reserved) -> Result<Lexed, Fault>
    requires { length text.now + 1 < greatest_number }
    ensures found { IfOk result (λ lexed. IsLexed reserved text.now lexed.tokens.items lexed.places.items) }
    ensures fault { IfErr result (λ fault. IsCutFault reserved text.now fault) }
{
    let mut lexed = Lexed {
        tokens: Vec::new(alloc),
        places: Vec::new(alloc),
    };
    let mut names = Names::new(alloc);
    cut_into(&mut lexed, &mut names, text, reserved)?;
    Ok(lexed)
}

// The same, into no tokens and no places.
#[inline(always)]
fn cut_into<'a>(
    lexed: &mut Lexed,
    names: &mut Names<'a>,
    text: &'a [u8],
    reserved: Reserved,
) -> Result<(), Fault>
    requires tokens { lexed.old.tokens.items ≡ [] }
    requires places { lexed.old.places.items ≡ [] }
    requires length { length text.now + 1 < greatest_number }
    ensures found { OnOk result (IsLexed reserved text.now lexed.new.tokens.items lexed.new.places.items) }
    ensures fault { IfErr result (λ fault. IsCutFault reserved text.now fault) }
{
    let mut place = Place::start();
    let mut signs = true;
    let mut rest = text;
    while !rest.is_empty() {
        let Some(front) = cut_front(rest, signs) else {
            return Err(place.fault());
        };
        lexed.add(token(names, &front, reserved, place)?, place)?;
        place = place.behind(&front);
        signs = signs_behind(signs, front.kind);
        rest = front.rest;
    }
    lexed.places.push(place)?;
    Ok(())
}

/// The tokens of a text. Refused: `Limit::Text` where the text has more than `TEXT_LIMIT` bytes; else a syntax error at
/// the first byte at which no token starts, or that begins a token that is refused; `Memory`. One pass over the text, with
/// one look-up among the spellings met so far for each name and variable.
pub(crate) fn tokens(alloc: Global, text: &[u8], reserved: Reserved) -> Result<Lexed, Fault>
    ensures found { IfOk result (λ lexed. IsLexed reserved text.now lexed.tokens.items lexed.places.items) }
    ensures paired { IfOk result (λ lexed. length lexed.places.items ≡ length lexed.tokens.items + 1) }
    ensures fault { IfErr result (λ fault. IsLexFault reserved text.now fault) }
    ensures too_long { text_limit < length text.now → result ≡ Err (Fault.Limit Limit.Text) }

    // No other tokens and places are those of the text, and no other byte is its first bad one.
    ensures only { (tokens : List Token) (places : List Place) → length text.now ≤ text_limit
        → IsLexed reserved text.now tokens places
        → MatchResult result
        (λ lexed. (lexed.tokens.items ≡ tokens) × (lexed.places.items ≡ places))
        (λ fault. fault ≡ Fault.Memory) }
    ensures only_bad { (place : Place) → length text.now ≤ text_limit → IsBadAt reserved text.now place
        → IsErrAnd result (λ fault. (fault ≡ fault_at place) ⊎ (fault ≡ Fault.Memory)) }
{
    if text.len() > TEXT_LIMIT {
        return Err(Fault::Limit(Limit::Text));
    }
    cut(alloc, text, reserved)
}

/// The tokens of a text of any length. Refused: a syntax error, as `tokens`; `Memory`, also where the text has more bytes than
/// numbers of 32 bits count. One pass over the text, as `tokens`.
pub(crate) fn all_tokens(alloc: Global, text: &[u8], reserved: Reserved) -> Result<Lexed, Fault>
    ensures found { IfOk result (λ lexed. IsLexed reserved text.now lexed.tokens.items lexed.places.items) }
    ensures paired { IfOk result (λ lexed. length lexed.places.items ≡ length lexed.tokens.items + 1) }
    ensures fault { IfErr result (λ fault. IsCutFault reserved text.now fault) }
{
    if text.len() >= TOO_MANY_BYTES {
        return Err(Fault::Memory);
    }
    cut(alloc, text, reserved)
}
