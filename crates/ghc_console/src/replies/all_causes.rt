// The reply that tells all causes: on which steps each kept step depends.
ghost use Rattle.std.specs.Prelude.{◌≡◌, ◌++◌, [], map, OnOk, string_bytes};
ghost use Rattle.ghc_console.specs.Looks.{RepliesToCauses, TellsCausesAt, cause_text};
ghost use Rattle.ghc_console.specs.TextLines.{text_lines};

use crate::replies::or_none;
use ghc_core::Core;
use ghc_records::Records;
use ghc_term::push_number;
use ghc_trace::{Reason, push_reason, why};
use std::alloc::{AllocError, Global};

// The reasons of the step of this number, a line each.
fn cause_lines(number: u32, reasons: &[Reason], reply: &mut String) -> Result<(), AllocError>
    ensures { OnOk result (string_bytes reply.new ≡ string_bytes reply.old ++ text_lines (map (cause_text number) reasons.now)) }
{
    for reason in reasons {
        push_number(number, reply)?;
        reply.push_str(" ")?;
        push_reason(*reason, reply)?;
        reply.push_str("\n")?;
    }
    Ok(())
}

// The causes of the step at this place, if there is one.
fn causes_at(
    alloc: Global,
    records: &Records,
    place: usize,
    reply: &mut String,
) -> Result<(), AllocError>
    ensures { OnOk result (TellsCausesAt records.now.held records.now.slots place (string_bytes reply.old) (string_bytes reply.new)) }
{
    let Some(step) = records.at(place) else {
        return Ok(());
    };
    let number = step.number();
    match why(alloc, records, number) {
        Ok(reasons) => cause_lines(number, reasons.as_slice(), reply),
        Err(_) => Err(AllocError),
    }
}

/// Tells for each kept step, in recorded order, the steps on which it depends directly, a line each with its cause, or `none`. It
/// costs what `why` costs for each, a step for each place of the record, and the text.
#[inline(never)]
pub fn causes(alloc: Global, core: &Core, reply: &mut String) -> Result<(), AllocError>
    requires { string_bytes reply.old ≡ [] }
    ensures { OnOk result (RepliesToCauses core.now.world (string_bytes reply.new)) }
{
    let records = core.records();
    let _count = records.len();
    for place in 0..records.places() {
        causes_at(alloc, records, place, reply)?;
    }
    or_none(reply)
}
