// Reading the steps of the opening of a chronicle.
ghost use Rattle.std.specs.Prelude.{◌≡◌, ◌+◌, ◌≤◌, ◌⊎◌, ℕ, List, drop, length, IfOk, IfErr};
ghost use Rattle.ghc_term.specs.declared.fault.Fault.{Fault as fault_spec};
ghost use Rattle.ghc_records.specs.Numbers.{kept_limit};
ghost use Rattle.ghc_records.specs.Journal.{Step as step_spec};
ghost use Rattle.ghc_records.specs.HistoryText.{SaysStep, pieces_of};
ghost use Rattle.ghc_records.specs.Sections.{TellsItems, TellsNoMoreItems};
ghost use Rattle.ghc_records.specs.Chronicle.{AreBelow};

use crate::step::Step;
use crate::text::steps_reading::{count_below, read_steps};
use ghc_term::Fault;
use std::alloc::Global;

// So many steps, which the first lines say, with numbers of their own, below the next one, and what follows them. Else the first of these
// lines that is wrong, where the first is the third line of the text.
pub(crate) fn read_opening_steps<'a>(
    alloc: Global,
    text: &'a [u8],
    count: u32,
    next: u32,
) -> Result<(Vec<Step>, &'a [u8]), Fault>
    requires { count ≤ kept_limit }
    ensures told { IfOk result (λ read. TellsItems SaysStep (AreBelow next) (pieces_of text.now) read.0.items) }
    ensures all { IfOk result (λ read. length read.0.items ≡ count) }
    ensures rest { IfOk result (λ read. drop count (pieces_of text.now) ≡ pieces_of read.1.now) }
    ensures fault { IfErr result (λ fault. (fault ≡ fault_spec.Memory) ⊎ ((items : List step_spec) × (fault ≡ fault_spec.History (length items + 3))
        × TellsNoMoreItems SaysStep (AreBelow next) (pieces_of text.now) count items)) }
{
    let (steps, rest) = read_steps(alloc, text, count)?;
    let right = count_below(steps.as_slice(), Some(next));
    if right < count {
        return Err(Fault::History { line: right + 3 });
    }
    Ok((steps, rest))
}
