// Reading the lines of entries, as chronicles have them.
ghost use Rattle.std.specs.Prelude.{◌≡◌, ◌≢◌, ◌↔◌, ◌+◌, ◌≤◌, ◌<◌, ◌∷◌, ◌++◌, ◌⊎◌, All, [], ℕ, List, codes, drop, length, map, IfOk, IfErr, IfSome, IfNone, IsTrue};
ghost use Rattle.std.specs.Fmt.{decimal};
ghost use Rattle.ghc_term.specs.declared.fault.Fault.{Fault as fault_spec};
ghost use Rattle.ghc_records.specs.Numbers.{number_limit};
ghost use Rattle.ghc_records.specs.Journal.{Step as step_spec, Entry as entry_spec, took, undid, rolled, redid, reordered};
ghost use Rattle.ghc_records.specs.HistoryText.{IsLineOf, pieces_of};
ghost use Rattle.ghc_reader.specs.Lexed.{greatest_number};
ghost use Rattle.ghc_records.specs.Sections.{TellsItems, TellsNoMoreItems};
ghost use Rattle.ghc_records.specs.Chronicle.{AreInTurn, IsInTurn, next_after, next_behind};
ghost use Rattle.ghc_records.specs.EntryText.{IsNamed, SaysEntry, numbers_behind};
ghost use Rattle.ghc_records.specs.inner.WrittenEntryCode.{said_by};

use crate::step::Step;
use crate::text::asking_reading::read_asking;
use crate::text::cutting::{behind, cut, next_line, positive};
use crate::text::step_reading::read_step;
use crate::written_entry::WrittenEntry;
use ghc_term::Fault;
use std::alloc::{AllocError, Global};

// The number that the line says after these bytes, from 1 on.
fn named_behind(line: &[u8], front: &[u8]) -> Option<u32>
    ensures some { IfSome result (λ n. line.now ≡ front.now ++ decimal n) }
    ensures named { IfSome result (λ n. IsNamed n) }
    ensures none { IfNone result ((n : ℕ) → IsNamed n → line.now ≢ front.now ++ decimal n) }
{
    match behind(line, front) {
        Some(word) => positive(word),
        None => None,
    }
}

// The entry that a line says with one number: `undo N`, `roll N` or `redo N`; none where it says none.
fn read_numbered(line: &[u8]) -> Option<WrittenEntry>
    ensures some { IfSome result (λ e. SaysEntry line.now (said_by e)) }
    ensures undo { IfNone result ((n : ℕ) → ¬ SaysEntry line.now (undid n)) }
    ensures roll { IfNone result ((n : ℕ) → ¬ SaysEntry line.now (rolled n)) }
    ensures redo { IfNone result ((n : ℕ) → ¬ SaysEntry line.now (redid n)) }
{
    if let Some(number) = named_behind(line, b"undo ".as_slice()) {
        return Some(WrittenEntry::Undid(number));
    }
    if let Some(number) = named_behind(line, b"roll ".as_slice()) {
        return Some(WrittenEntry::Rolled(number));
    }
    match named_behind(line, b"redo ".as_slice()) {
        Some(number) => Some(WrittenEntry::Redid(number)),
        None => None,
    }
}

// The bytes up to the first space, and those from it on.
fn split_word(bytes: &[u8]) -> (&[u8], &[u8])
    ensures parts { bytes.now ≡ result.0.now ++ result.1.now }
    ensures plain { All (λ b. b ≢ 32) result.0.now }
    ensures rest { (result.1.now ≡ []) ⊎ ((more : List ℕ) × (result.1.now ≡ 32 ∷ more)) }
    ensures less { length result.1.now ≤ length bytes.now }
{
    match bytes.iter().position(|b| *b == b' ') {
        Some(i) => (&bytes[..i], &bytes[i..]),
        None => (bytes, &[]),
    }
}

// The number after the space with which the bytes begin, and what follows it; none where they begin with no such number.
fn next_number(bytes: &[u8]) -> Option<(u32, &[u8])>
    ensures found { IfSome result (λ read. bytes.now ≡ 32 ∷ (decimal read.0 ++ read.1.now)) }
    ensures named { IfSome result (λ read. IsNamed read.0) }
    ensures less { IfSome result (λ read. length read.1.now < length bytes.now) }
    ensures further { IfSome result (λ read. (n : ℕ) (ns : List ℕ) → IsNamed n → bytes.now ≡ numbers_behind (n ∷ ns) → read.1.now ≡ numbers_behind ns) }
    ensures last { IfNone result ((ns : List ℕ) → All IsNamed ns → bytes.now ≡ numbers_behind ns → ns ≡ []) }
{
    let Some(words) = behind(bytes, b" ".as_slice()) else {
        return None;
    };
    let (word, rest) = split_word(words);
    match positive(word) {
        Some(number) => Some((number, rest)),
        None => None,
    }
}

// The numbers that the bytes say, each after a space; none where they say none.
fn read_numbers(alloc: Global, bytes: &[u8]) -> Result<Option<Vec<u32>>, AllocError>
    ensures some { IfOk result (λ found. IfSome found (λ ns. (bytes.now ≡ numbers_behind ns.items) × All IsNamed ns.items)) }
    ensures none { IfOk result (λ found. IfNone found ((ns : List ℕ) → All IsNamed ns → bytes.now ≢ numbers_behind ns)) }
{
    let mut numbers = Vec::new(alloc);
    let mut rest = bytes;
    while let Some((number, further)) = next_number(rest) {
        numbers.push(number)?;
        rest = further;
    }
    if rest.is_empty() {
        return Ok(Some(numbers));
    }
    Ok(None)
}

// The entry that a line says that was taken: a step, with or without a goal; none where it says none.
fn read_taken(alloc: Global, line: &[u8]) -> Result<Option<WrittenEntry>, AllocError>
    ensures some { IfOk result (λ found. IfSome found (λ e. SaysEntry line.now (said_by e))) }
    ensures none { IfOk result (λ found. IfNone found ((s : step_spec) → ¬ SaysEntry line.now (took s))) }
{
    match read_step(alloc, line) {
        Ok(Some(step)) => return Ok(Some(WrittenEntry::Took(step))),
        Ok(None) => {}
        Err(error) => return Err(error),
    }
    match read_asking(alloc, line) {
        Ok(Some(step)) => Ok(Some(WrittenEntry::Took(step))),
        Ok(None) => Ok(None),
        Err(error) => Err(error),
    }
}

// The new order that a line says; none where it says none.
fn read_order(alloc: Global, line: &[u8]) -> Result<Option<WrittenEntry>, AllocError>
    ensures some { IfOk result (λ found. IfSome found (λ e. SaysEntry line.now (said_by e))) }
    ensures none { IfOk result (λ found. IfNone found ((ns : List ℕ) → ¬ SaysEntry line.now (reordered ns))) }
{
    let Some(bytes) = behind(line, b"arrange".as_slice()) else {
        return Ok(None);
    };
    match read_numbers(alloc, bytes) {
        Ok(Some(numbers)) => Ok(Some(WrittenEntry::Reordered(numbers))),
        Ok(None) => Ok(None),
        Err(error) => Err(error),
    }
}

// The entry that a line says; none where it says none. Time and memory grow with the line.
pub(crate) fn read_entry(alloc: Global, line: &[u8]) -> Result<Option<WrittenEntry>, AllocError>
    ensures some { IfOk result (λ found. IfSome found (λ e. SaysEntry line.now (said_by e))) }
    ensures none { IfOk result (λ found. IfNone found ((e : entry_spec) → ¬ SaysEntry line.now e)) }
{
    if let Some(entry) = read_numbered(line) {
        return Ok(Some(entry));
    }
    match read_order(alloc, line) {
        Ok(Some(entry)) => return Ok(Some(entry)),
        Ok(None) => {}
        Err(error) => return Err(error),
    }
    match read_taken(alloc, line) {
        Ok(Some(entry)) => Ok(Some(entry)),
        Ok(None) => Ok(None),
        Err(error) => Err(error),
    }
}
