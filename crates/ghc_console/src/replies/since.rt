// The reply that tells the record from a step on.
ghost use Rattle.std.specs.Prelude.{◌≡◌, [], OnOk, string_bytes};
ghost use Rattle.ghc_console.specs.Looks.{RepliesToSince};

use crate::replies::{line, refused};
use ghc_core::Core;
use ghc_term::Fault;
use std::alloc::AllocError;

/// Tells the kept step of this number and all after it, in recorded order, a line each; or the refusal. It costs a look-up, a step
/// for each place of the record from there on, and the text.
#[inline(never)]
pub fn since(core: &Core, number: u32, reply: &mut String) -> Result<(), AllocError>
    requires { string_bytes reply.old ≡ [] }
    ensures { OnOk result (RepliesToSince core.now.world number (string_bytes reply.new)) }
{
    let records = core.records();
    let _count = records.len();
    let Some(first) = records.place_of(number) else {
        return refused(&Fault::NotKept, reply);
    };
    for place in first..records.places() {
        line(records, place, reply)?;
    }
    Ok(())
}
