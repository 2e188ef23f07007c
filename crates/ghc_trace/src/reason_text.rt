// The texts of reasons. Where memory is refused, what `write_..` writes may be a part of its text.
ghost use Rattle.std.specs.Prelude.{◌≡◌, ◌++◌, OnOk, is_ok, if◌then◌else◌, string_bytes};
ghost use Rattle.std.specs.Io.{StartsWith};
ghost use Rattle.ghc_trace.specs.ReasonText.{cause_told, reason_text, woke_text};

use crate::reasons::Reason;
use ghc_depend::Cause;
use ghc_term::{end_of, or_cut_back, push_number, push_variable};
use std::alloc::AllocError;

// Writes the mark of a variable that woke a goal.
fn write_woke(woke: bool, out: &mut String) -> Result<(), AllocError>
    ensures text { OnOk result (string_bytes out.new ≡ string_bytes out.old ++ woke_text woke) }
    ensures begun { StartsWith (string_bytes out.new) (string_bytes out.old) }
{
    if woke {
        return out.push_str(" woke");
    }
    Ok(())
}

// Writes for what a step depends on another.
fn write_cause(cause: Cause, out: &mut String) -> Result<(), AllocError>
    ensures text { OnOk result (string_bytes out.new ≡ string_bytes out.old ++ cause_told cause) }
    ensures begun { StartsWith (string_bytes out.new) (string_bytes out.old) }
{
    match cause {
        Cause::Made => out.push_str("made"),
        Cause::Read { variable, woke } => {
            out.push_str("read ")?;
            push_variable(variable, out)?;
            write_woke(woke, out)
        }
        Cause::Named { variable } => {
            out.push_str("named ")?;
            push_variable(variable, out)
        }
    }
}

// Writes a reason.
fn write_reason(reason: Reason, out: &mut String) -> Result<(), AllocError>
    ensures text { OnOk result (string_bytes out.new ≡ string_bytes out.old ++ reason_text reason) }
    ensures begun { StartsWith (string_bytes out.new) (string_bytes out.old) }
{
    push_number(reason.step, out)?;
    out.push_str(" ")?;
    write_cause(reason.cause, out)
}

/// Writes a reason at the end of `out`, which stays as it was where memory is refused: `3 made`, `2 read _0_2`,
/// `2 read _0_2 woke`, or `1 named _1_1`. The cost is that of the text.
pub fn push_reason(reason: Reason, out: &mut String) -> Result<(), AllocError>
    ensures { string_bytes out.new ≡ (if is_ok result then string_bytes out.old ++ reason_text reason else string_bytes out.old) }
{
    let length = end_of(out);
    let written = write_reason(reason, out);
    or_cut_back(out, length, written)
}
