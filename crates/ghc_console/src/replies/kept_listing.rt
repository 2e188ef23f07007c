// The listing of the kept steps, as a history of version 1, which is written line by line.
ghost use Rattle.std.specs.Prelude.{◌≡◌, ◌⊎◌, List, ℕ, map};
ghost use Rattle.ghc_term.specs.declared.fault.Fault.{Fault};
ghost use Rattle.ghc_console.specs.inner.Device.{WritesFront};
ghost use Rattle.ghc_console.specs.inner.WritesTold.{WritesTold};
ghost use Rattle.ghc_console.specs.TextLines.{lined, refusal};
ghost use Rattle.ghc_console.specs.Listings.{kept_listed};
ghost use Rattle.ghc_console.specs.Replies.{RepliesToSaveSteps};
ghost use Rattle.ghc_console.specs.inner.OnlyWrites.{OnlyWrites};

use crate::devices::device::{Broken, Device};
use crate::devices::writing::write_all;
use crate::replies::record_listing::{RecordForm, write_each};
use crate::replies::session_listing::write_count;
use crate::replies::write_refusal;
use ghc_core::Core;
use ghc_term::{Fault, Limit};

// Writes the lines of the history.
fn write_history<D: Device>(device: &mut D, core: &Core, line: &mut String) -> Result<(), Broken>
    ensures told { WritesTold (map lined (kept_listed core.now.world)) (D.written device.old) (D.written device.new) result }
    ensures writes { OnlyWrites D.Device device.old device.new result }
{
    let records = core.records();
    write_all(device, b"ghc-history 1\n")?;
    write_count(device, "steps ", records.len(), line)?;
    write_each(device, records, RecordForm::Step, line)?;
    write_count(device, "end ", core.next() as usize, line)
}

/// Writes the history of the steps that are kept, of version 1, line by line, in place of what stands in the text; or the refusal
/// where one of them asks for goals. Where memory is refused for a line, that stands in its place. It costs the lines, and four
/// steps for each place of the record; and memory for one line.
pub(crate) fn write_kept<D: Device>(
    device: &mut D,
    core: &Core,
    line: &mut String,
) -> Result<(), Broken>
    ensures told { (text : List ℕ) × (RepliesToSaveSteps core.now.world text ⊎ (text ≡ refusal Fault.Memory)) × WritesFront (D.written device.old) (D.written device.new) result text }
    ensures writes { OnlyWrites D.Device device.old device.new result }
{
    if core.asks_for_goals() {
        return write_refusal(device, &Fault::Limit(Limit::Version), line);
    }
    write_history(device, core, line)
}
