// The lines of a chronicle that are no items: the heading, those that tell how many items there are, and the end.
ghost use Rattle.std.specs.Prelude.{◌≡◌, ◌≢◌, ◌≤◌, ◌∷◌, ◌++◌, ℕ, IfSome, IfNone};
ghost use Rattle.std.specs.Fmt.{decimal};
ghost use Rattle.ghc_records.specs.Numbers.{kept_limit};
ghost use Rattle.ghc_records.specs.HistoryText.{IsLineOf, pieces_of};
ghost use Rattle.ghc_reader.specs.Lexed.{greatest_number};
ghost use Rattle.ghc_records.specs.ChronicleText.{IsNext, chronicle_heading, opening_line};

use crate::text::cutting::{behind, cut, next_line, number, positive};

// What follows the heading; none where the first line is another.
pub(crate) fn behind_chronicle_heading(text: &[u8]) -> Option<&[u8]>
    ensures some { IfSome result (λ rest. pieces_of text.now ≡ chronicle_heading ∷ pieces_of rest.now) }
    ensures none { IfNone result (¬ IsLineOf (pieces_of text.now) 0 chronicle_heading) }
{
    match next_line(text) {
        Some((line, rest)) if line == b"ghc-history 2".as_slice() => Some(rest),
        _ => None,
    }
}

// How many steps an opening has, of which the two words tell, and the number that the next step gets.
fn opening_words(count: &[u8], next: &[u8]) -> Option<(u32, u32)>
    ensures count { IfSome result (λ told. count.now ≡ decimal told.0) }
    ensures next { IfSome result (λ told. next.now ≡ decimal told.1) }
    ensures few { IfSome result (λ told. told.0 ≤ kept_limit) }
    ensures small { IfSome result (λ told. IsNext told.1) }
    ensures none { IfNone result ((m n : ℕ) → IsNext n → m ≤ kept_limit → count.now ≡ decimal m → next.now ≢ decimal n) }
{
    let Some(count) = number(count) else {
        return None;
    };
    let Some(next) = positive(next) else {
        return None;
    };
    if count > 1_000_000 {
        return None;
    }
    Some((count, next))
}

// How many steps the line tells that the opening has, a million at most, and the number that the next step gets.
fn opening_numbers(line: &[u8]) -> Option<(u32, u32)>
    ensures some { IfSome result (λ told. line.now ≡ opening_line told.1 told.0) }
    ensures few { IfSome result (λ told. told.0 ≤ kept_limit) }
    ensures next { IfSome result (λ told. IsNext told.1) }
    ensures none { IfNone result ((next count : ℕ) → IsNext next → count ≤ kept_limit → line.now ≢ opening_line next count) }
{
    let Some(words) = behind(line, b"opening ".as_slice()) else {
        return None;
    };
    let Some((count, next)) = cut(words, b' ') else {
        return None;
    };
    opening_words(count, next)
}

// How many steps the opening has by the first line, the number that the next step gets, and what follows the line. None where it tells
// nothing of the kind.
pub(crate) fn read_opening(text: &[u8]) -> Option<(u32, u32, &[u8])>
    ensures some { IfSome result (λ told. pieces_of text.now ≡ opening_line told.1 told.0 ∷ pieces_of told.2.now) }
    ensures few { IfSome result (λ told. told.0 ≤ kept_limit) }
    ensures next { IfSome result (λ told. IsNext told.1) }
    ensures none { IfNone result ((next count : ℕ) → IsNext next → count ≤ kept_limit → ¬ IsLineOf (pieces_of text.now) 0 (opening_line next count)) }
{
    let Some((line, rest)) = next_line(text) else {
        return None;
    };
    match opening_numbers(line) {
        Some((count, next)) => Some((count, next, rest)),
        None => None,
    }
}

// The number that the line says after these bytes, where it is not over the limit.
fn number_up_to(line: &[u8], front: &[u8], limit: u32) -> Option<u32>
    ensures some { IfSome result (λ n. line.now ≡ front.now ++ decimal n) }
    ensures small { IfSome result (λ n. n ≤ limit) }
    ensures none { IfNone result ((n : ℕ) → n ≤ limit → line.now ≢ front.now ++ decimal n) }
{
    let Some(word) = behind(line, front) else {
        return None;
    };
    match number(word) {
        Some(value) => {
            if value > limit {
                return None;
            }
            Some(value)
        }
        None => None,
    }
}

// How many items the first line tells after these bytes, not more than the limit, and what follows the line. None where it tells
// nothing of the kind.
pub(crate) fn read_amount<'a>(text: &'a [u8], front: &[u8], limit: u32) -> Option<(u32, &'a [u8])>
    ensures some { IfSome result (λ told. pieces_of text.now ≡ (front.now ++ decimal told.0) ∷ pieces_of told.1.now) }
    ensures few { IfSome result (λ told. told.0 ≤ limit) }
    ensures none { IfNone result ((n : ℕ) → n ≤ limit → ¬ IsLineOf (pieces_of text.now) 0 (front.now ++ decimal n)) }
{
    let Some((line, rest)) = next_line(text) else {
        return None;
    };
    match number_up_to(line, front, limit) {
        Some(count) => Some((count, rest)),
        None => None,
    }
}
