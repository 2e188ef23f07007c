// Reading the lines of predicates, as chronicles have them.
ghost use Rattle.std.specs.Prelude.{◌≡◌, ◌≢◌, ◌↔◌, ◌+◌, ◌≤◌, ◌<◌, ◌∷◌, ◌++◌, ◌⊎◌, ℕ, List, IsTrue, codes, drop, length, IfOk, IfErr, IfSome, IfNone};
ghost use Rattle.std.specs.Fmt.{decimal};
ghost use Rattle.std.specs.List.{list_all};
ghost use Rattle.ghc_term.specs.InputTerm.{IsNameText, is_name_byte};
ghost use Rattle.ghc_term.specs.declared.fault.Fault.{Fault as fault_spec};
ghost use Rattle.ghc_records.specs.declared.predicate.Predicate.{Predicate as predicate_spec};
ghost use Rattle.ghc_records.specs.HistoryText.{IsLineOf, pieces_of};
ghost use Rattle.ghc_reader.specs.Lexed.{greatest_number};
ghost use Rattle.ghc_records.specs.Sections.{TellsItems, TellsNoMoreItems};
ghost use Rattle.ghc_records.specs.Predicates.{GoTogether, SaysPredicate};

use crate::predicate::Predicate;
use crate::text::cutting::{cut, next_line, number};
use ghc_term::{Fault, Name};
use std::alloc::{AllocError, Global};

// Whether each byte is a letter, a digit or `_`.
fn are_name_bytes(bytes: &[u8]) -> bool
    ensures { result ≡ list_all is_name_byte bytes.now }
{
    bytes.iter().all(|b| b.is_ascii_lowercase()
        || b.is_ascii_uppercase()
        || b.is_ascii_digit()
        || *b == b'_')
}

// Whether a word is a name of the grammar.
fn is_name(word: &[u8]) -> bool
    ensures { IsTrue result ↔ IsNameText word.now }
{
    let [first, rest @ ..] = word else {
        return false;
    };
    if !first.is_ascii_lowercase() || word == b"mod".as_slice() {
        return false;
    }
    are_name_bytes(rest)
}

// The name and the arity of the predicate that a line says.
fn predicate_parts(line: &[u8]) -> Option<(&[u8], u32)>
    ensures some { IfSome result (λ parts. line.now ≡ parts.0.now ++ 47 ∷ decimal parts.1) }
    ensures name { IfSome result (λ parts. IsNameText parts.0.now) }
    ensures small { IfSome result (λ parts. parts.1 ≤ greatest_number) }
    ensures none { IfNone result ((p : predicate_spec) → ¬ SaysPredicate line.now p) }
{
    let Some((name, word)) = cut(line, b'/') else {
        return None;
    };
    if !is_name(name) {
        return None;
    }
    match number(word) {
        Some(arity) => Some((name, arity)),
        None => None,
    }
}

// The name that a word is.
fn name_of(alloc: Global, word: &[u8]) -> Result<Name, AllocError>
    requires { IsNameText word.now }
    ensures { IfOk result (λ name. name ≡ word.now) }
{
    match str::from_utf8(word) {
        Ok(text) => Name::new(alloc, text),
        Err(_) => unreachable!(),
    }
}

// The predicate that a line says, as `append/3`; none where it says none. Time and memory grow with the line.
fn read_predicate(alloc: Global, line: &[u8]) -> Result<Option<Predicate>, AllocError>
    ensures some { IfOk result (λ found. IfSome found (λ p. SaysPredicate line.now p)) }
    ensures none { IfOk result (λ found. IfNone found ((p : predicate_spec) → ¬ SaysPredicate line.now p)) }
{
    let Some((word, arity)) = predicate_parts(line) else {
        return Ok(None);
    };
    let name = name_of(alloc, word)?;
    Ok(Some(Predicate { name, arity }))
}

// The predicate that the first line says, and what follows the line; none where it says none.
fn next_predicate<'a>(
    alloc: Global,
    text: &'a [u8],
) -> Result<Option<(Predicate, &'a [u8])>, AllocError>
    ensures some { IfOk result (λ found. IfSome found (λ told. (line : List ℕ) × (pieces_of text.now ≡ line ∷ pieces_of told.1.now) × SaysPredicate line told.0)) }
    ensures none { IfOk result (λ found. IfNone found ((line : List ℕ) (p : predicate_spec) → IsLineOf (pieces_of text.now) 0 line → ¬ SaysPredicate line p)) }
{
    let Some((line, rest)) = next_line(text) else {
        return Ok(None);
    };
    match read_predicate(alloc, line) {
        Ok(Some(predicate)) => Ok(Some((predicate, rest))),
        Ok(None) => Ok(None),
        Err(error) => Err(error),
    }
}

// So many predicates, which the first lines say, and what follows them. Else the first of these lines that is wrong, where the
// first has this number.
pub(crate) fn read_predicates<'a>(
    alloc: Global,
    text: &'a [u8],
    count: u32,
    first: u32,
) -> Result<(Vec<Predicate>, &'a [u8]), Fault>
    requires { first + count ≤ greatest_number }
    ensures told { IfOk result (λ read. TellsItems SaysPredicate GoTogether (pieces_of text.now) read.0.items) }
    ensures all { IfOk result (λ read. length read.0.items ≡ count) }
    ensures rest { IfOk result (λ read. drop count (pieces_of text.now) ≡ pieces_of read.1.now) }
    ensures fault { IfErr result (λ fault. (fault ≡ fault_spec.Memory) ⊎ ((items : List predicate_spec) × (fault ≡ fault_spec.History (first + length items))
        × TellsNoMoreItems SaysPredicate GoTogether (pieces_of text.now) count items)) }
{
    let mut predicates = Vec::new(alloc);
    let mut rest = text;
    for index in 0..count {
        match next_predicate(alloc, rest) {
            Ok(Some((predicate, further))) => {
                predicates.push(predicate)?;
                rest = further;
            }
            Ok(None) => return Err(Fault::History {
                line: first + index,
            }),
            Err(_) => return Err(Fault::Memory),
        }
    }
    Ok((predicates, rest))
}
