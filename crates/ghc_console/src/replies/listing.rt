// What is listed of a session: its records, its goals, its shelf, or as a history all of it, or its kept steps.
ghost use Rattle.std.specs.Prelude.{◌≡◌, List, ℕ};
ghost use Rattle.ghc_console.specs.inner.Device.{WritesFront};
ghost use Rattle.ghc_console.specs.inner.Answered.{IsListing};
ghost use Rattle.ghc_console.specs.inner.OnlyWrites.{OnlyWrites};

use crate::answered::Listing;
use crate::devices::device::{Broken, Device};
use crate::devices::writing::write_all;
use crate::replies::goal_listing::write_goals;
use crate::replies::kept_listing::write_kept;
use crate::replies::record_listing::write_records;
use crate::replies::run_lines::UNTOLD;
use crate::replies::session_listing::write_session;
use crate::replies::shelf_listing::write_shelf;
use ghc_core::Core;
use ghc_trace::SpySet;
use std::alloc::Global;

/// Writes a listing line by line, in place of what stands in the text. Where memory is refused for a line, the refusal stands in its
/// place; where it is refused for the order of the lines, or to try the goals, the refusal stands alone. It costs the lines, and
/// for goals, shelf and spies what it takes to put them in order; and memory for the order and for one line.
#[inline(never)]
pub(crate) fn write_listing<D: Device>(
    alloc: Global,
    device: &mut D,
    core: &mut Core,
    spies: &SpySet,
    listing: Listing,
    line: &mut String,
) -> Result<(), Broken>
    ensures told { (text : List ℕ) × IsListing core.old.world spies.now listing text × WritesFront (D.written device.old) (D.written device.new) result text }
    ensures world { core.new.world ≡ core.old.world }
    ensures firings { core.new.meter.firings ≡ core.old.meter.firings }
    ensures writes { OnlyWrites D.Device device.old device.new result }
{
    match listing {
        Listing::Records => write_records(device, core.records(), line),
        Listing::Goals => write_goals(alloc, device, core, line),
        Listing::Shelf => write_shelf(alloc, device, core.shelf(), line),
        Listing::Session => match spies.in_order(alloc) {
            Ok(listed) => write_session(device, core, listed.as_slice(), line),
            Err(_) => write_all(device, UNTOLD.as_bytes()),
        },
        Listing::KeptSteps => write_kept(device, core, line),
    }
}
