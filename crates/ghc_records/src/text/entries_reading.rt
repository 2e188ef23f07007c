// Reading the section of the entries of a chronicle.
ghost use Rattle.std.specs.Prelude.{◌≡◌, ◌↔◌, ◌+◌, ◌≤◌, ◌∷◌, ◌⊎◌, ℕ, List, drop, length, map, IfOk, IfErr, IfSome, IfNone, IsTrue};
ghost use Rattle.ghc_term.specs.declared.fault.Fault.{Fault as fault_spec};
ghost use Rattle.ghc_records.specs.Numbers.{number_limit};
ghost use Rattle.ghc_records.specs.Journal.{Entry as entry_spec};
ghost use Rattle.ghc_records.specs.HistoryText.{IsLineOf, pieces_of};
ghost use Rattle.ghc_reader.specs.Lexed.{greatest_number};
ghost use Rattle.ghc_records.specs.Sections.{TellsItems, TellsNoMoreItems};
ghost use Rattle.ghc_records.specs.Chronicle.{AreInTurn, IsInTurn, next_after, next_behind};
ghost use Rattle.ghc_records.specs.EntryText.{SaysEntry};
ghost use Rattle.ghc_records.specs.inner.WrittenEntryCode.{said_by};

use crate::text::cutting::next_line;
use crate::text::entry_reading::read_entry;
use crate::written_entry::WrittenEntry;
use ghc_term::Fault;
use std::alloc::{AllocError, Global};

// Whether an entry can follow, where `next` is the number of the next step.
fn is_in_turn(entry: &WrittenEntry, next: u32) -> bool
    ensures { IsTrue result ↔ IsInTurn next (said_by entry.now) }
{
    match entry {
        WrittenEntry::Took(step) => step.number() == next && next < 4_294_967_295,
        WrittenEntry::Undid(_)
        | WrittenEntry::Rolled(_)
        | WrittenEntry::Redid(_)
        | WrittenEntry::Reordered(_) => true,
    }
}

// The number of the next step after an entry that can follow.
fn number_after(entry: &WrittenEntry, next: u32) -> u32
    requires small { next ≤ number_limit }
    requires in_turn { IsInTurn next (said_by entry.now) }
    ensures next { result ≡ next_after next (said_by entry.now) }
    ensures small { result ≤ number_limit }
{
    match entry {
        WrittenEntry::Took(_) => next + 1,
        WrittenEntry::Undid(_)
        | WrittenEntry::Rolled(_)
        | WrittenEntry::Redid(_)
        | WrittenEntry::Reordered(_) => next,
    }
}

// The entry that the first line says, where it can follow, and what stands after the line; none where it says no such entry.
fn next_entry<'a>(
    alloc: Global,
    text: &'a [u8],
    next: u32,
) -> Result<Option<(WrittenEntry, &'a [u8])>, AllocError>
    ensures some { IfOk result (λ found. IfSome found (λ told. (line : List ℕ) × (pieces_of text.now ≡ line ∷ pieces_of told.1.now) × SaysEntry line (said_by told.0))) }
    ensures in_turn { IfOk result (λ found. IfSome found (λ told. IsInTurn next (said_by told.0))) }
    ensures none { IfOk result (λ found. IfNone found ((line : List ℕ) (e : entry_spec) → IsLineOf (pieces_of text.now) 0 line → SaysEntry line e → ¬ IsInTurn next e)) }
{
    let Some((line, rest)) = next_line(text) else {
        return Ok(None);
    };
    match read_entry(alloc, line) {
        Ok(Some(entry)) => {
            if is_in_turn(&entry, next) {
                return Ok(Some((entry, rest)));
            }
            Ok(None)
        }
        Ok(None) => Ok(None),
        Err(error) => Err(error),
    }
}

// So many entries, which the first lines say, the next step's number after them (`next` in front of them), and what follows. Else the
// first of these lines that is wrong, where the first has the number `first`.
pub(crate) fn read_entries<'a>(
    alloc: Global,
    text: &'a [u8],
    count: u32,
    first: u32,
    next: u32,
) -> Result<(Vec<WrittenEntry>, u32, &'a [u8]), Fault>
    requires room { first + count ≤ greatest_number }
    requires next { next ≤ number_limit }
    ensures told { IfOk result (λ read. TellsItems SaysEntry (AreInTurn next) (pieces_of text.now) (map said_by read.0.items)) }
    ensures all { IfOk result (λ read. length (map said_by read.0.items) ≡ count) }
    ensures next { IfOk result (λ read. read.1 ≡ next_behind next (map said_by read.0.items)) }
    ensures rest { IfOk result (λ read. drop count (pieces_of text.now) ≡ pieces_of read.2.now) }
    ensures fault { IfErr result (λ fault. (fault ≡ fault_spec.Memory) ⊎ ((items : List entry_spec) × (fault ≡ fault_spec.History (first + length items))
        × TellsNoMoreItems SaysEntry (AreInTurn next) (pieces_of text.now) count items)) }
{
    let mut entries = Vec::new(alloc);
    let mut rest = text;
    let mut turn = next;
    for index in 0..count {
        match next_entry(alloc, rest, turn) {
            Ok(Some((entry, further))) => {
                turn = number_after(&entry, turn);
                entries.push(entry)?;
                rest = further;
            }
            Ok(None) => return Err(Fault::History {
                line: first + index,
            }),
            Err(_) => return Err(Fault::Memory),
        }
    }
    Ok((entries, turn, rest))
}
