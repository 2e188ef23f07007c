// Writing chronicles. Where memory is refused, what `write_..` writes into a text may be a part of it.
ghost use Rattle.std.specs.Prelude.{◌≡◌, ◌++◌, ◌∷◌, List, ℕ, Some, codes, drop, length, map, IfOk, OnOk, slice_get, string_bytes};
ghost use Rattle.std.specs.Fmt.{decimal};
ghost use Rattle.ghc_records.specs.Journal.{Entry as entry_spec};
ghost use Rattle.ghc_records.specs.StepText.{step_text};
ghost use Rattle.ghc_records.specs.HistoryText.{lines_text};
ghost use Rattle.ghc_records.specs.Chronicle.{chronicle_of};
ghost use Rattle.ghc_records.specs.EntryText.{entry_text};
ghost use Rattle.ghc_records.specs.Predicates.{predicate_text};
ghost use Rattle.ghc_records.specs.ChronicleText.{chronicle_heading, chronicle_text, entries_line, opening_line, spies_line};

use crate::history::History;
use crate::journal::Journal;
use crate::predicate::Predicate;
use crate::text::entry_text::{write_entry, write_predicate};
use crate::text::history_writing::write_steps;
use ghc_term::push_number;
use std::alloc::{AllocError, Global};

// Writes heading and opening, a line each.
fn write_opening(opening: &History, out: &mut String) -> Result<(), AllocError>
    ensures { OnOk result (string_bytes out.new ≡ string_bytes out.old
        ++ lines_text (chronicle_heading ∷ opening_line opening.now.next (length opening.now.steps) ∷ map step_text opening.now.steps)) }
{
    let listed = opening.steps();
    out.push_str("ghc-history 2\nopening ")?;
    push_number(listed.len() as u32, out)?;
    out.push_str(" ")?;
    push_number(opening.next(), out)?;
    out.push_str("\n")?;
    write_steps(listed, out)?;
    Ok(())
}

// Writes a line of a word and of how many there are.
fn write_amount(word: &str, count: usize, out: &mut String) -> Result<(), AllocError>
    ensures { OnOk result (string_bytes out.new ≡ string_bytes out.old ++ ((word.now ++ decimal count) ++ codes "\n")) }
{
    let line = format!(in *out.allocator(); "{word}{count}\n")?;
    out.push_str(&line)?;
    Ok(())
}

// Writes the entry at this place of a journal, if there is one, as a line.
fn write_entry_at(journal: &Journal, place: usize, out: &mut String) -> Result<(), AllocError>
    ensures { (e : entry_spec) → slice_get journal.now.held place ≡ Some e → OnOk result (string_bytes out.new ≡ string_bytes out.old ++ (entry_text e ++ codes "\n")) }
{
    let Some(entry) = journal.at(place) else {
        return Ok(());
    };
    write_entry(entry, out)?;
    out.push_str("\n")?;
    Ok(())
}

// Writes the entries of a journal from a place on: how many there are, and a line each.
fn write_entries(journal: &Journal, first: usize, out: &mut String) -> Result<(), AllocError>
    ensures { OnOk result (string_bytes out.new ≡ string_bytes out.old
        ++ lines_text (entries_line (length (drop first journal.now.held)) ∷ map entry_text (drop first journal.now.held))) }
{
    let count = journal.len();
    write_amount("entries ", count.saturating_sub(first), out)?;
    for place in first..count {
        write_entry_at(journal, place, out)?;
    }
    Ok(())
}

// Writes predicates: how many there are, and a line each.
fn write_spies(spies: &[Predicate], out: &mut String) -> Result<(), AllocError>
    ensures { OnOk result (string_bytes out.new ≡ string_bytes out.old ++ lines_text (spies_line (length spies.now) ∷ map predicate_text spies.now)) }
{
    write_amount("spies ", spies.len(), out)?;
    for predicate in spies {
        write_predicate(predicate, out)?;
        out.push_str("\n")?;
    }
    Ok(())
}

// Writes the line of the end.
fn write_end(next: u32, out: &mut String) -> Result<(), AllocError>
    ensures { OnOk result (string_bytes out.new ≡ string_bytes out.old ++ ((codes "end " ++ decimal next) ++ codes "\n")) }
{
    out.push_str("end ")?;
    push_number(next, out)?;
    out.push_str("\n")?;
    Ok(())
}

// Writes a chronicle.
fn write_parts(
    opening: &History,
    journal: &Journal,
    spies: &[Predicate],
    next: u32,
    out: &mut String,
) -> Result<(), AllocError>
    ensures { OnOk result (string_bytes out.new ≡ string_bytes out.old ++ chronicle_text (chronicle_of opening.now journal.now.held spies.now next)) }
{
    write_opening(opening, out)?;
    write_entries(journal, opening.steps().len(), out)?;
    write_spies(spies, out)?;
    write_end(next, out)?;
    Ok(())
}

/// The text of the chronicle of a run that began with this opening, has this journal, whose first entries are those of the opening's steps,
/// spies these predicates, and gives the next step this number: `ghc-history 2`, `opening K NEXT0` with K lines of steps, `entries J`
/// with J lines, `spies P` with P lines in the order that is given, and `end NEXT`. The cost is that of the text. It fails for want
/// of memory alone.
pub fn write_chronicle(
    alloc: Global,
    opening: &History,
    journal: &Journal,
    spies: &[Predicate],
    next: u32,
) -> Result<String, AllocError>
    ensures text { IfOk result (λ text. string_bytes text ≡ chronicle_text (chronicle_of opening.now journal.now.held spies.now next)) }
{
    let mut text = String::new(alloc);
    write_parts(opening, journal, spies, next, &mut text)?;
    Ok(text)
}
