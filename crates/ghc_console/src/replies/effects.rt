// The reply that tells what depends on a step.
ghost use Rattle.std.specs.Prelude.{◌≡◌, [], ℕ, OnOk, string_bytes};
ghost use Rattle.ghc_term.specs.Lists.{In};
ghost use Rattle.ghc_records.specs.Record.{numbers};
ghost use Rattle.ghc_console.specs.Looks.{RepliesToEffects, TellsSteps};

use crate::replies::{line, or_none, refused};
use ghc_core::Core;
use ghc_depend::consequences;
use ghc_records::Records;
use ghc_term::Fault;
use std::alloc::{AllocError, Global};

// The kept steps of these numbers, a line each.
fn step_lines(records: &Records, ns: &[u32], reply: &mut String) -> Result<(), AllocError>
    requires { (n : ℕ) → In n ns.now → In n (numbers records.now.held) }
    ensures { OnOk result (TellsSteps records.now.held ns.now (string_bytes reply.old) (string_bytes reply.new)) }
{
    let _count = records.len();
    for number in ns {
        let place = records.place_of(*number).unwrap();
        line(records, place, reply)?;
    }
    Ok(())
}

/// Tells the steps that depend on the kept step of this number, directly or through others, in recorded order, a line each, or `none`;
/// or the refusal. It costs what `consequences` costs, two look-ups for each of those steps, and the text.
#[inline(never)]
pub fn effects(
    alloc: Global,
    core: &Core,
    number: u32,
    reply: &mut String,
) -> Result<(), AllocError>
    requires { string_bytes reply.old ≡ [] }
    ensures { OnOk result (RepliesToEffects core.now.world number (string_bytes reply.new)) }
{
    let records = core.records();
    let Some(_step) = records.get(number) else {
        return refused(&Fault::NotKept, reply);
    };
    let found = consequences(alloc, records, number)?;
    step_lines(records, found.as_slice(), reply)?;
    or_none(reply)
}
