// Reading histories.
ghost use Rattle.std.specs.Prelude.{◌≡◌, ◌≢◌, ℕ, Err};
ghost use Rattle.ghc_term.specs.Answered.{Answered};
ghost use Rattle.ghc_term.specs.declared.fault.Fault.{Fault as fault_spec};
ghost use Rattle.ghc_records.specs.HistoryText.{IsHistoryRefusal, IsLine, TellsCount, TellsHistory, heading};

use crate::history::History;
use crate::text::history_lines::{behind_heading, find_end, next_of, read_count};
use crate::text::steps_reading::{count_below, read_steps};
use ghc_term::Fault;
use std::alloc::Global;

/// The history that a text tells: `ghc-history 1`, `steps K`, K lines of steps, `end NEXT`, and nothing after it. Else `History`
/// with the first line that is wrong, counted from 1, or `Memory`. A line is wrong where it is not of the form, or its step has the
/// number of another or one not below NEXT. A missing line counts by the number that it would have. `Memory` comes only where
/// heading and count are right and there is a step to read. Nothing is carried out. Time and memory grow with the text.
pub fn read_history(alloc: Global, text: &[u8]) -> Result<History, Fault>
    ensures answer { Answered (TellsHistory text.now) (IsHistoryRefusal text.now) result }
    ensures heading { ¬ IsLine text.now 0 heading → result ≡ Err (fault_spec.History 1) }
    ensures count { IsLine text.now 0 heading → ((count : ℕ) → ¬ TellsCount text.now count) → result ≡ Err (fault_spec.History 2) }
    ensures no_steps { TellsCount text.now 0 → result ≢ Err fault_spec.Memory }
{
    let Some(counted) = behind_heading(text) else {
        return Err(Fault::History { line: 1 });
    };
    let Some((count, told)) = read_count(counted) else {
        return Err(Fault::History { line: 2 });
    };
    let (steps, behind) = read_steps(alloc, told, count)?;
    let end = find_end(behind, count - steps.len() as u32);
    let right = count_below(steps.as_slice(), next_of(end));
    if right < count {
        return Err(Fault::History { line: right + 3 });
    }
    match end {
        None => Err(Fault::History { line: count + 3 }),
        Some((next, rest)) => {
            if rest.is_empty() {
                return Ok(History::new(alloc, steps, next)?);
            }
            Err(Fault::History { line: count + 4 })
        }
    }
}
