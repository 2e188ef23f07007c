// The texts of entries and of predicates. Where memory is refused, what is written may be a part of a text.
ghost use Rattle.std.specs.Prelude.{◌≡◌, ◌++◌, List, ℕ, codes, OnOk, string_bytes};
ghost use Rattle.std.specs.Fmt.{decimal};
ghost use Rattle.ghc_records.specs.inner.EntryCode.{entry_of};
ghost use Rattle.ghc_records.specs.EntryText.{entry_text, numbers_behind};
ghost use Rattle.ghc_records.specs.Predicates.{predicate_text};

use crate::entry::Entry;
use crate::predicate::Predicate;
use crate::text::step_text::push_step;
use ghc_term::push_number;
use std::alloc::AllocError;

// Writes a word and a number.
fn write_numbered(word: &str, number: u32, out: &mut String) -> Result<(), AllocError>
    ensures { OnOk result (string_bytes out.new ≡ string_bytes out.old ++ (word.now ++ decimal number)) }
{
    out.push_str(word)?;
    push_number(number, out)?;
    Ok(())
}

// Writes numbers, each after a space.
fn write_numbers(numbers: &[u32], out: &mut String) -> Result<(), AllocError>
    ensures { OnOk result (string_bytes out.new ≡ string_bytes out.old ++ numbers_behind numbers.now) }
{
    for number in numbers {
        write_numbered(" ", *number, out)?;
    }
    Ok(())
}

/// Writes an entry of a journal, as a line of a chronicle has it. The cost is that of the text. It fails where memory is refused, and
/// may then have written a part.
pub fn write_entry(entry: &Entry, out: &mut String) -> Result<(), AllocError>
    ensures { OnOk result (string_bytes out.new ≡ string_bytes out.old ++ entry_text (entry_of entry.now)) }
{
    match entry {
        Entry::Took(taken) => push_step(taken, out),
        Entry::Undid(number) => write_numbered("undo ", *number, out),
        Entry::Rolled(number) => write_numbered("roll ", *number, out),
        Entry::Redid(number) => write_numbered("redo ", *number, out),
        Entry::Reordered(order) => {
            out.push_str("arrange")?;
            write_numbers(order.as_slice(), out)
        }
    }
}

// Writes a predicate, as `append/3`.
pub(crate) fn write_predicate(predicate: &Predicate, out: &mut String) -> Result<(), AllocError>
    ensures { OnOk result (string_bytes out.new ≡ string_bytes out.old ++ predicate_text predicate.now) }
{
    out.push_str(predicate.name.as_str())?;
    write_numbered("/", predicate.arity, out)
}
