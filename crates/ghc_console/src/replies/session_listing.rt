// The listing of a session, as a history of version 2, which is written line by line.
ghost use Rattle.std.specs.Prelude.{◌≡◌, ◌++◌, ◌∷◌, [], drop, length, map, OnOk, string_bytes};
ghost use Rattle.std.specs.Fmt.{decimal};
ghost use Rattle.ghc_records.specs.inner.EntryCode.{entry_of};
ghost use Rattle.ghc_records.specs.StepText.{step_text};
ghost use Rattle.ghc_records.specs.EntryText.{entry_text};
ghost use Rattle.ghc_records.specs.Predicates.{predicate_text};
ghost use Rattle.ghc_records.specs.Chronicle.{chronicle_of};
ghost use Rattle.ghc_records.specs.ChronicleText.{chronicle_heading, chronicle_lines, entries_line, opening_line, spies_line};
ghost use Rattle.ghc_core.specs.Resume.{chronicle_of_world};
ghost use Rattle.ghc_console.specs.inner.WritesTold.{WritesTold};
ghost use Rattle.ghc_console.specs.TextLines.{lined};
ghost use Rattle.ghc_console.specs.inner.OnlyWrites.{OnlyWrites};

use crate::count_text::push_count;
use crate::devices::device::{Broken, Device};
use crate::devices::made_line::write_made;
use ghc_core::Core;
use ghc_records::{Entry, History, Journal, Predicate, Step, push_journal_step, write_entry};
use ghc_term::push_number;
use std::alloc::AllocError;

// The line of the opening: how many steps it has, and the number that the next step gets after them.
fn tell_opening(count: usize, next: u32, line: &mut String) -> Result<(), AllocError>
    requires { string_bytes line.old ≡ [] }
    ensures { OnOk result (string_bytes line.new ≡ lined (opening_line next count)) }
{
    line.push_str("opening ")?;
    push_count(count, line)?;
    line.push_str(" ")?;
    push_number(next, line)?;
    line.push_str("\n")
}

// The line of a step.
fn tell_step(step: &Step, line: &mut String) -> Result<(), AllocError>
    requires { string_bytes line.old ≡ [] }
    ensures { OnOk result (string_bytes line.new ≡ lined (step_text step.now)) }
{
    push_journal_step(step, line)?;
    line.push_str("\n")
}

// A line of a word and a count.
fn tell_count(word: &str, count: usize, line: &mut String) -> Result<(), AllocError>
    requires { string_bytes line.old ≡ [] }
    ensures { OnOk result (string_bytes line.new ≡ lined (word.now ++ decimal count)) }
{
    line.push_str(word)?;
    push_count(count, line)?;
    line.push_str("\n")
}

// The line of an entry.
fn tell_entry(entry: &Entry, line: &mut String) -> Result<(), AllocError>
    requires { string_bytes line.old ≡ [] }
    ensures { OnOk result (string_bytes line.new ≡ lined (entry_text (entry_of entry.now))) }
{
    write_entry(entry, line)?;
    line.push_str("\n")
}

// The line of a predicate that is spied.
fn tell_predicate(predicate: &Predicate, line: &mut String) -> Result<(), AllocError>
    requires { string_bytes line.old ≡ [] }
    ensures { OnOk result (string_bytes line.new ≡ lined (predicate_text predicate.now)) }
{
    line.push_str(predicate.name.as_str())?;
    line.push_str("/")?;
    push_number(predicate.arity, line)?;
    line.push_str("\n")
}

// The heading.
fn tell_heading(line: &mut String) -> Result<(), AllocError>
    requires { string_bytes line.old ≡ [] }
    ensures { OnOk result (string_bytes line.new ≡ lined chronicle_heading) }
{
    line.push_str("ghc-history 2\n")
}

// Writes the heading.
fn write_heading<D: Device>(device: &mut D, line: &mut String) -> Result<(), Broken>
    ensures told { WritesTold (lined chronicle_heading ∷ []) (D.written device.old) (D.written device.new) result }
    ensures writes { OnlyWrites D.Device device.old device.new result }
{
    line.clear();
    let made = tell_heading(line);
    write_made(device, made, line)
}

// Writes the line of the opening.
fn write_opening_line<D: Device>(
    device: &mut D,
    opening: &History,
    line: &mut String,
) -> Result<(), Broken>
    ensures told { WritesTold (lined (opening_line opening.now.next (length opening.now.steps)) ∷ []) (D.written device.old) (D.written device.new) result }
    ensures writes { OnlyWrites D.Device device.old device.new result }
{
    line.clear();
    let made = tell_opening(opening.steps().len(), opening.next(), line);
    write_made(device, made, line)
}

/// Writes a line of a word and a count.
pub(crate) fn write_count<D: Device>(
    device: &mut D,
    word: &str,
    count: usize,
    line: &mut String,
) -> Result<(), Broken>
    ensures told { WritesTold (lined (word.now ++ decimal count) ∷ []) (D.written device.old) (D.written device.new) result }
    ensures writes { OnlyWrites D.Device device.old device.new result }
{
    line.clear();
    let made = tell_count(word, count, line);
    write_made(device, made, line)
}

// Writes the lines of steps.
fn write_steps<D: Device>(device: &mut D, steps: &[Step], line: &mut String) -> Result<(), Broken>
    ensures told { WritesTold (map lined (map step_text steps.now)) (D.written device.old) (D.written device.new) result }
    ensures writes { OnlyWrites D.Device device.old device.new result }
{
    for step in steps {
        line.clear();
        let made = tell_step(step, line);
        write_made(device, made, line)?;
    }
    Ok(())
}

// Writes heading and opening.
fn write_opening<D: Device>(
    device: &mut D,
    opening: &History,
    line: &mut String,
) -> Result<(), Broken>
    ensures told { WritesTold (map lined (chronicle_heading ∷ opening_line opening.now.next (length opening.now.steps) ∷ map step_text opening.now.steps)) (D.written device.old) (D.written device.new) result }
    ensures writes { OnlyWrites D.Device device.old device.new result }
{
    write_heading(device, line)?;
    write_opening_line(device, opening, line)?;
    write_steps(device, opening.steps(), line)
}

// Writes the line of an entry.
fn write_entry_line<D: Device>(
    device: &mut D,
    entry: &Entry,
    line: &mut String,
) -> Result<(), Broken>
    ensures told { WritesTold (lined (entry_text (entry_of entry.now)) ∷ []) (D.written device.old) (D.written device.new) result }
    ensures writes { OnlyWrites D.Device device.old device.new result }
{
    line.clear();
    let made = tell_entry(entry, line);
    write_made(device, made, line)
}

// Writes the lines of the entries of a journal from a place on.
fn write_each_entry<D: Device>(
    device: &mut D,
    journal: &Journal,
    first: usize,
    line: &mut String,
) -> Result<(), Broken>
    ensures told { WritesTold (map lined (map entry_text (drop first journal.now.held))) (D.written device.old) (D.written device.new) result }
    ensures writes { OnlyWrites D.Device device.old device.new result }
{
    for place in first..journal.len() {
        let Some(entry) = journal.at(place) else {
            unreachable!();
        };
        write_entry_line(device, entry, line)?;
    }
    Ok(())
}

// Writes the entries of a journal from a place on: how many there are, and a line each.
fn write_entries<D: Device>(
    device: &mut D,
    journal: &Journal,
    first: usize,
    line: &mut String,
) -> Result<(), Broken>
    ensures told { WritesTold (map lined (entries_line (length (drop first journal.now.held)) ∷ map entry_text (drop first journal.now.held))) (D.written device.old) (D.written device.new) result }
    ensures writes { OnlyWrites D.Device device.old device.new result }
{
    let count = journal.len().saturating_sub(first);
    write_count(device, "entries ", count, line)?;
    write_each_entry(device, journal, first, line)
}

// Writes the lines of predicates.
fn write_each_spy<D: Device>(
    device: &mut D,
    spies: &[Predicate],
    line: &mut String,
) -> Result<(), Broken>
    ensures told { WritesTold (map lined (map predicate_text spies.now)) (D.written device.old) (D.written device.new) result }
    ensures writes { OnlyWrites D.Device device.old device.new result }
{
    for predicate in spies {
        line.clear();
        let made = tell_predicate(predicate, line);
        write_made(device, made, line)?;
    }
    Ok(())
}

// Writes predicates: how many there are, and a line each.
fn write_spies<D: Device>(
    device: &mut D,
    spies: &[Predicate],
    line: &mut String,
) -> Result<(), Broken>
    ensures told { WritesTold (map lined (spies_line (length spies.now) ∷ map predicate_text spies.now)) (D.written device.old) (D.written device.new) result }
    ensures writes { OnlyWrites D.Device device.old device.new result }
{
    write_count(device, "spies ", spies.len(), line)?;
    write_each_spy(device, spies, line)
}

/// Writes the history of the whole session, of version 2, line by line, in place of what stands in the text: what it began with,
/// all entries of the journal after that, these predicates, and the next number. Where memory is refused for a line, the refusal
/// stands in its place. It costs the lines, and memory for one.
pub(crate) fn write_session<D: Device>(
    device: &mut D,
    core: &Core,
    spies: &[Predicate],
    line: &mut String,
) -> Result<(), Broken>
    ensures told { WritesTold (map lined (chronicle_lines (chronicle_of_world core.now.world spies.now))) (D.written device.old) (D.written device.new) result }
    ensures writes { OnlyWrites D.Device device.old device.new result }
{
    let opening = core.opening();
    write_opening(device, opening, line)?;
    write_entries(device, core.journal(), opening.steps().len(), line)?;
    write_spies(device, spies, line)?;
    write_count(device, "end ", core.next() as usize, line)
}
