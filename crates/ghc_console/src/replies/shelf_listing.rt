// The listing of the steps that were taken back, which is written line by line.
ghost use Rattle.std.specs.Prelude.{◌≡◌, ◌⊎◌, List, ℕ, map};
ghost use Rattle.ghc_term.specs.declared.fault.Fault.{Fault};
ghost use Rattle.ghc_console.specs.inner.Device.{WritesFront};
ghost use Rattle.ghc_console.specs.inner.WritesTold.{WritesTold};
ghost use Rattle.ghc_console.specs.TextLines.{lined, refusal};
ghost use Rattle.ghc_console.specs.Listings.{TellsListing, listed_or_none, shelf_listed, steps_told};
ghost use Rattle.ghc_console.specs.inner.OnlyWrites.{OnlyWrites};

use crate::devices::device::{Broken, Device};
use crate::devices::writing::write_all;
use crate::replies::record_listing::{RecordForm, write_record};
use crate::replies::run_lines::UNTOLD;
use ghc_records::{Record, Shelf};
use std::alloc::Global;
use std::collections::BTreeMap;

// Writes the lines of the steps of records.
fn write_steps<D: Device>(
    device: &mut D,
    ordered: &BTreeMap<u32, &Record>,
    line: &mut String,
) -> Result<(), Broken>
    ensures told { WritesTold (map lined (steps_told (map (λ e. (e.0, e.1.now)) ordered.now.entries))) (D.written device.old) (D.written device.new) result }
    ensures writes { OnlyWrites D.Device device.old device.new result }
{
    for (_, taken) in ordered {
        write_record(device, *taken, RecordForm::Step, line)?;
    }
    Ok(())
}

// Writes them, or `none`.
fn write_ordered<D: Device>(
    device: &mut D,
    ordered: &BTreeMap<u32, &Record>,
    line: &mut String,
) -> Result<(), Broken>
    ensures told { WritesTold (map lined (listed_or_none (steps_told (map (λ e. (e.0, e.1.now)) ordered.now.entries)))) (D.written device.old) (D.written device.new) result }
    ensures writes { OnlyWrites D.Device device.old device.new result }
{
    if ordered.len() == 0 {
        return write_all(device, b"none\n");
    }
    write_steps(device, ordered, line)
}

/// Writes the steps that were taken back and not redone, a line each by their numbers, or `none`, one at a time, in place of what
/// stands in the text. Where memory is refused for a line, the refusal stands in its place; where it is refused for the order, the
/// refusal stands alone. It costs the lines, and what it takes to put them in order; and memory for the order and for one line.
pub(crate) fn write_shelf<D: Device>(
    alloc: Global,
    device: &mut D,
    shelf: &Shelf,
    line: &mut String,
) -> Result<(), Broken>
    ensures told { (text : List ℕ) × (TellsListing (shelf_listed shelf.now.held) text ⊎ (text ≡ refusal Fault.Memory)) × WritesFront (D.written device.old) (D.written device.new) result text }
    ensures writes { OnlyWrites D.Device device.old device.new result }
{
    match shelf.by_number(alloc) {
        Ok(ordered) => write_ordered(device, &ordered, line),
        Err(_) => write_all(device, UNTOLD.as_bytes()),
    }
}
