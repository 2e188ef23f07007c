// Writing histories. Where memory is refused, what `write_..` writes into a text may be a part of it.
ghost use Rattle.std.specs.Prelude.{◌≡◌, ◌++◌, map, IfOk, OnOk, string_bytes};
ghost use Rattle.ghc_records.specs.StepText.{step_text};
ghost use Rattle.ghc_records.specs.History.{IsHistory};
ghost use Rattle.ghc_records.specs.HistoryText.{TellsHistory, history_text, lines_text};

use crate::history::History;
use crate::step::Step;
use crate::text::history_laws::written_histories_are_read_again;
use crate::text::history_range::history_is_in_range;
use crate::text::step_text::push_journal_step;
use ghc_term::push_number;
use std::alloc::{AllocError, Global};

// Writes steps, a line each.
pub(crate) fn write_steps(steps: &[Step], out: &mut String) -> Result<(), AllocError>
    ensures { OnOk result (string_bytes out.new ≡ string_bytes out.old ++ lines_text (map step_text steps.now)) }
{
    for step in steps {
        push_journal_step(step, out)?;
        out.push_str("\n")?;
    }
    Ok(())
}

// Writes a history.
fn write_lines(history: &History, out: &mut String) -> Result<(), AllocError>
    ensures { OnOk result (string_bytes out.new ≡ string_bytes out.old ++ history_text history.now) }
{
    let listed = history.steps();
    out.push_str("ghc-history 1\nsteps ")?;
    push_number(listed.len() as u32, out)?;
    out.push_str("\n")?;
    write_steps(listed, out)?;
    out.push_str("end ")?;
    push_number(history.next(), out)?;
    out.push_str("\n")?;
    Ok(())
}

/// The text of a history: `ghc-history 1`, `steps K`, its K steps in recorded order, and `end NEXT`, a line each. Where the
/// history is of the form, `read_history` reads it again. The cost is that of the text.
pub fn write_history(alloc: Global, history: &History) -> Result<String, AllocError>
    ensures text { IfOk result (λ text. string_bytes text ≡ history_text history.now) }
    ensures told { IfOk result (λ text. IsHistory history.now → TellsHistory (string_bytes text) history.now) }
{
    // Both are called for their clauses, which the proof cites.
    history_is_in_range(history);
    written_histories_are_read_again();
    let mut text = String::new(alloc);
    write_lines(history, &mut text)?;
    Ok(text)
}
