// The listing of the records, and of the steps of records, which is written line by line.
ghost use Rattle.std.specs.Prelude.{◌≡◌, ◌∷◌, [], map, OnOk, string_bytes};
ghost use Rattle.ghc_console.specs.inner.WritesTold.{WritesSlot, WritesTold, form_text};
ghost use Rattle.ghc_console.specs.TextLines.{lined};
ghost use Rattle.ghc_console.specs.Listings.{records_listed};
ghost use Rattle.ghc_console.specs.inner.OnlyWrites.{OnlyWrites};

use crate::devices::device::{Broken, Device};
use crate::devices::made_line::write_made;
use crate::devices::writing::write_all;
use ghc_records::{Record, Records, push_record, push_step};
use std::alloc::AllocError;

/// What a line tells of a record.
#[derive(Clone, Copy, Drop)]
pub(crate) enum RecordForm {
    /// All that the record says.
    Whole,
    /// The step alone.
    Step,
}

// The line of a record.
fn tell_record(taken: &Record, form: RecordForm, line: &mut String) -> Result<(), AllocError>
    requires { string_bytes line.old ≡ [] }
    ensures { OnOk result (string_bytes line.new ≡ lined (form_text form taken.now)) }
{
    match form {
        RecordForm::Whole => push_record(taken, line)?,
        RecordForm::Step => push_step(taken, line)?,
    }
    line.push_str("\n")
}

/// Writes the line of a record, in place of what stands in the text; or where memory is refused for it, that. It costs the line.
pub(crate) fn write_record<D: Device>(
    device: &mut D,
    taken: &Record,
    form: RecordForm,
    line: &mut String,
) -> Result<(), Broken>
    ensures told { WritesTold (lined (form_text form taken.now) ∷ []) (D.written device.old) (D.written device.new) result }
    ensures writes { OnlyWrites D.Device device.old device.new result }
{
    line.clear();
    let made = tell_record(taken, form, line);
    write_made(device, made, line)
}

// Writes the line of the record at this place, if there is one.
fn write_record_at<D: Device>(
    device: &mut D,
    records: &Records,
    place: usize,
    form: RecordForm,
    line: &mut String,
) -> Result<(), Broken>
    ensures told { WritesSlot (form_text form) records.now.slots place (D.written device.old) (D.written device.new) result }
    ensures writes { OnlyWrites D.Device device.old device.new result }
{
    let Some(taken) = records.at(place) else {
        return Ok(());
    };
    write_record(device, taken, form, line)
}

/// Writes a line for each of the records, in their order. It costs the lines, and two steps for each place of the record.
pub(crate) fn write_each<D: Device>(
    device: &mut D,
    records: &Records,
    form: RecordForm,
    line: &mut String,
) -> Result<(), Broken>
    ensures told { WritesTold (map lined (map (form_text form) records.now.held)) (D.written device.old) (D.written device.new) result }
    ensures writes { OnlyWrites D.Device device.old device.new result }
{
    // Called for its clause on the slots, which the proof cites.
    let _count = records.len();
    for place in 0..records.places() {
        write_record_at(device, records, place, form, line)?;
    }
    Ok(())
}

/// Writes the records, a line each, or `none`, one at a time, in place of what stands in the text. Where memory is refused for a
/// line, the refusal stands in its place. It costs two steps for each place of the record, and memory for one line.
pub(crate) fn write_records<D: Device>(
    device: &mut D,
    records: &Records,
    line: &mut String,
) -> Result<(), Broken>
    ensures told { WritesTold (map lined (records_listed records.now.held)) (D.written device.old) (D.written device.new) result }
    ensures writes { OnlyWrites D.Device device.old device.new result }
{
    if records.len() == 0 {
        return write_all(device, b"none\n");
    }
    write_each(device, records, RecordForm::Whole, line)
}
