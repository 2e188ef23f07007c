// The lines of a history that are no steps: the heading, the count, and the end.
ghost use Rattle.std.specs.Prelude.{◌≡◌, ◌≢◌, ◌+◌, ◌≤◌, ◌∷◌, [], ℕ, drop, option_map, IfSome, IfNone};
ghost use Rattle.ghc_records.specs.Numbers.{kept_limit, number_limit};
ghost use Rattle.ghc_records.specs.HistoryText.{IsLineOf, TellsNext, count_line, end_line, heading, pieces_of};

use crate::text::cutting::{behind, next_line, number, positive};

// What follows the heading; none where the first line is another.
pub(crate) fn behind_heading(text: &[u8]) -> Option<&[u8]>
    ensures some { IfSome result (λ rest. pieces_of text.now ≡ heading ∷ pieces_of rest.now) }
    ensures none { IfNone result (¬ IsLineOf (pieces_of text.now) 0 heading) }
{
    match next_line(text) {
        Some((line, rest)) if line == b"ghc-history 1".as_slice() => Some(rest),
        _ => None,
    }
}

// How many steps the line tells, a million at most.
fn count_number(line: &[u8]) -> Option<u32>
    ensures some { IfSome result (λ count. line.now ≡ count_line count) }
    ensures few { IfSome result (λ count. count ≤ kept_limit) }
    ensures none { IfNone result ((count : ℕ) → count ≤ kept_limit → line.now ≢ count_line count) }
{
    let Some(word) = behind(line, b"steps ".as_slice()) else {
        return None;
    };
    match number(word) {
        Some(count) => {
            if count > 1_000_000 {
                return None;
            }
            Some(count)
        }
        None => None,
    }
}

// How many steps the first line tells, and what follows it; none where it tells nothing of the kind.
pub(crate) fn read_count(text: &[u8]) -> Option<(u32, &[u8])>
    ensures some { IfSome result (λ told. pieces_of text.now ≡ count_line told.0 ∷ pieces_of told.1.now) }
    ensures few { IfSome result (λ told. told.0 ≤ kept_limit) }
    ensures none { IfNone result ((count : ℕ) → count ≤ kept_limit → ¬ IsLineOf (pieces_of text.now) 0 (count_line count)) }
{
    let Some((line, rest)) = next_line(text) else {
        return None;
    };
    match count_number(line) {
        Some(count) => Some((count, rest)),
        None => None,
    }
}

// The number that the line tells that the next step gets.
fn end_number(line: &[u8]) -> Option<u32>
    ensures some { IfSome result (λ next. line.now ≡ end_line next) }
    ensures first { IfSome result (λ next. 1 ≤ next) }
    ensures small { IfSome result (λ next. next ≤ number_limit) }
    ensures none { IfNone result ((next : ℕ) → 1 ≤ next → next ≤ number_limit → line.now ≢ end_line next) }
{
    match behind(line, b"end ".as_slice()) {
        Some(word) => positive(word),
        None => None,
    }
}

// What follows so many lines; none where there are not so many.
fn skip_lines(text: &[u8], count: u32) -> Option<&[u8]>
    ensures some { IfSome result (λ rest. drop count (pieces_of text.now) ≡ pieces_of rest.now) }
    ensures none { IfNone result (drop count (pieces_of text.now) ≡ []) }
{
    let mut rest = text;
    for _index in 0..count {
        let Some((_, further)) = next_line(rest) else {
            return None;
        };
        rest = further;
    }
    Some(rest)
}

// The number that the next step gets, as the line after so many others tells, and what follows that line.
pub(crate) fn find_end(text: &[u8], count: u32) -> Option<(u32, &[u8])>
    ensures some { IfSome result (λ told. TellsNext (pieces_of text.now) count told.0) }
    ensures rest { IfSome result (λ told. drop (count + 1) (pieces_of text.now) ≡ pieces_of told.1.now) }
    ensures none { IfNone result ((next : ℕ) → ¬ TellsNext (pieces_of text.now) count next) }
{
    let Some(end) = skip_lines(text, count) else {
        return None;
    };
    let Some((line, rest)) = next_line(end) else {
        return None;
    };
    match end_number(line) {
        Some(next) => Some((next, rest)),
        None => None,
    }
}

// The number of an end, if there is one.
pub(crate) fn next_of(end: Option<(u32, &[u8])>) -> Option<u32>
    ensures { result ≡ option_map (λ told. told.0) end.entry }
{
    match end {
        Some((next, _)) => Some(next),
        None => None,
    }
}
