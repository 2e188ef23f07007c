// Reading chronicles.
ghost use Rattle.std.specs.Prelude.{◌≡◌, ◌↔◌, ◌+◌, ◌≤◌, ◌∷◌, ◌⊎◌, ℕ, List, drop, length, map, IfOk, IfErr, IfSome, IfNone, IsTrue};
ghost use Rattle.ghc_term.specs.Answered.{Answered};
ghost use Rattle.ghc_term.specs.declared.fault.Fault.{Fault as fault_spec};
ghost use Rattle.ghc_records.specs.Numbers.{number_limit, kept_limit};
ghost use Rattle.ghc_records.specs.HistoryText.{IsLine, IsLineOf, end_line, pieces_of};
ghost use Rattle.ghc_reader.specs.Lexed.{greatest_number};
ghost use Rattle.ghc_records.specs.Sections.{IsFirstWrongOf, TellsSection};
ghost use Rattle.ghc_records.specs.Chronicle.{AreInTurn, entry_limit, next_behind, spy_limit};
ghost use Rattle.ghc_records.specs.EntryText.{SaysEntry};
ghost use Rattle.ghc_records.specs.Predicates.{GoTogether, SaysPredicate};
ghost use Rattle.ghc_records.specs.inner.WrittenEntryCode.{said_by};
ghost use Rattle.ghc_records.specs.ChronicleText.{IsChronicleRefusal, IsNext, TellsChronicle, TellsOpening, behind_lines, chronicle_heading, entries_line, spies_line};

use crate::chronicle::Chronicle;
use crate::history::History;
use crate::predicate::Predicate;
use crate::text::chronicle_lines::{behind_chronicle_heading, read_amount, read_opening};
use crate::text::entries_reading::read_entries;
use crate::text::opening_reading::read_opening_steps;
use crate::text::predicate_reading::read_predicates;
use crate::written_entry::WrittenEntry;
use ghc_term::Fault;
use std::alloc::Global;

// At most this many entries follow an opening.
const ENTRY_LIMIT: u32 = 4_000_000_000;

// At most this many spies follow the entries.
const SPY_LIMIT: u32 = 100_000_000;

/// Whether the first line of a text is that of a chronicle, so that `read_chronicle` and not `read_history` reads it: one line.
pub fn is_chronicle(text: &[u8]) -> bool
    ensures { IsTrue result ↔ IsLine text.now 0 chronicle_heading }
{
    match behind_chronicle_heading(text) {
        Some(_rest) => true,
        None => false,
    }
}

// The opening that a text begins with, and what follows its steps.
fn open(alloc: Global, text: &[u8]) -> Result<(History, &[u8]), Fault>
    ensures told { IfOk result (λ read. TellsOpening text.now read.0) }
    ensures rest { IfOk result (λ read. behind_lines (length read.0.steps + 2) text.now ≡ pieces_of read.1.now) }
    ensures fault { IfErr result (λ fault. (fault ≡ fault_spec.Memory) ⊎ IsChronicleRefusal text.now fault) }
{
    let Some(behind) = behind_chronicle_heading(text) else {
        return Err(Fault::History { line: 1 });
    };
    let Some((count, next, told)) = read_opening(behind) else {
        return Err(Fault::History { line: 2 });
    };
    match read_opening_steps(alloc, told, count, next) {
        Ok((steps, rest)) => Ok((History::new(alloc, steps, next)?, rest)),
        Err(fault) => Err(fault),
    }
}

// The entries of the section with which the bytes begin, the next step's number after them (`next` in front of them), and what follows.
// Else the section's first wrong line, where its first line has this number.
fn entries_of<'a>(
    alloc: Global,
    text: &'a [u8],
    line: u32,
    next: u32,
) -> Result<(Vec<WrittenEntry>, u32, &'a [u8]), Fault>
    requires room { line + entry_limit + 1 ≤ greatest_number }
    requires next { next ≤ number_limit }
    ensures told { IfOk result (λ read. TellsSection SaysEntry (AreInTurn next) entries_line entry_limit (pieces_of text.now) (map said_by read.0.items)) }
    ensures next { IfOk result (λ read. read.1 ≡ next_behind next (map said_by read.0.items)) }
    ensures rest { IfOk result (λ read. drop (length (map said_by read.0.items) + 1) (pieces_of text.now) ≡ pieces_of read.2.now) }
    ensures fault { IfErr result (λ fault. (fault ≡ fault_spec.Memory) ⊎ ((i : ℕ) × (fault ≡ fault_spec.History (line + i)) × IsFirstWrongOf SaysEntry (AreInTurn next) entries_line entry_limit (pieces_of text.now) i)) }
{
    let Some((count, told)) = read_amount(text, b"entries ".as_slice(), ENTRY_LIMIT) else {
        return Err(Fault::History { line });
    };
    match read_entries(alloc, told, count, line + 1, next) {
        Ok((entries, turn, rest)) => Ok((entries, turn, rest)),
        Err(fault) => Err(fault),
    }
}

// The predicates of the section with which the bytes begin, and what follows it. Else its first wrong line, where its first line has
// this number.
fn spies_of<'a>(
    alloc: Global,
    text: &'a [u8],
    line: u32,
) -> Result<(Vec<Predicate>, &'a [u8]), Fault>
    requires { line + spy_limit + 1 ≤ greatest_number }
    ensures told { IfOk result (λ read. TellsSection SaysPredicate GoTogether spies_line spy_limit (pieces_of text.now) read.0.items) }
    ensures rest { IfOk result (λ read. drop (length read.0.items + 1) (pieces_of text.now) ≡ pieces_of read.1.now) }
    ensures fault { IfErr result (λ fault. (fault ≡ fault_spec.Memory) ⊎ ((i : ℕ) × (fault ≡ fault_spec.History (line + i)) × IsFirstWrongOf SaysPredicate GoTogether spies_line spy_limit (pieces_of text.now) i)) }
{
    let Some((count, told)) = read_amount(text, b"spies ".as_slice(), SPY_LIMIT) else {
        return Err(Fault::History { line });
    };
    match read_predicates(alloc, told, count, line + 1) {
        Ok((spies, rest)) => Ok((spies, rest)),
        Err(fault) => Err(fault),
    }
}

// What follows the line of the end, which tells this number; none where the first line is another.
fn behind_end(text: &[u8], next: u32) -> Option<&[u8]>
    ensures some { IfSome result (λ rest. pieces_of text.now ≡ end_line next ∷ pieces_of rest.now) }
    ensures none { IfNone result (¬ IsLineOf (pieces_of text.now) 0 (end_line next)) }
{
    match read_amount(text, b"end ".as_slice(), next) {
        Some((told, rest)) => {
            if told == next {
                return Some(rest);
            }
            None
        }
        None => None,
    }
}

/// The chronicle that a text tells: `ghc-history 2`, `opening K NEXT0`, and K lines of steps. Then come `entries J`, J lines of entries,
/// `spies P`, P lines of predicates, `end NEXT`, and nothing after it. Else `History` with the first line that is wrong, counted from 1,
/// or `Memory`. A line is wrong where it is not of the form, or its step has a number that it may not have. A missing line counts by the
/// number that it would have. There are a million steps, 4,000,000,000 entries and 100,000,000 predicates at most. Nothing is carried out.
/// Time and memory grow with the text.
pub fn read_chronicle(alloc: Global, text: &[u8]) -> Result<Chronicle, Fault>
    ensures { Answered (TellsChronicle text.now) (IsChronicleRefusal text.now) result }
{
    let (opening, counted) = match open(alloc, text) {
        Ok(read) => read,
        Err(fault) => return Err(fault),
    };
    let entry_line = opening.steps().len() as u32 + 3;
    let (entries, next, told) = match entries_of(alloc, counted, entry_line, opening.next()) {
        Ok(read) => read,
        Err(fault) => return Err(fault),
    };
    let spy_line = entry_line + entries.len() as u32 + 1;
    let (spies, ending) = match spies_of(alloc, told, spy_line) {
        Ok(read) => read,
        Err(fault) => return Err(fault),
    };
    let end = spy_line + spies.len() as u32 + 1;
    let Some(rest) = behind_end(ending, next) else {
        return Err(Fault::History { line: end });
    };
    if !rest.is_empty() {
        return Err(Fault::History { line: end + 1 });
    }
    Ok(Chronicle::new(opening, entries, spies, next))
}
