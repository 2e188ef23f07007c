// Rollbacks one after another, each on a line of the reply.
ghost use Rattle.std.specs.Prelude.{◌≡◌, ◌+◌, ◌≤◌, ◌++◌, [], OnErr, OnOk, length, string_bytes, string_capacity, string_len};
ghost use Rattle.ghc_console.specs.Keeping.{TellsKept, kept_line};
ghost use Rattle.ghc_console.specs.inner.KeepingCode.{AddsRollback, AddsRollbacks, AddsSomeRollbacks};

use crate::replies::obey_reply::gone;
use ghc_core::{Change, Core, Going};
use ghc_term::{Fault, push_number};
use std::alloc::{AllocError, Global};

// The line that stands where memory was refused for a rollback, or for the last line.
const UNTOLD: &str = "F1 no memory\n";

// Makes room in the reply for the line, and for the one that memory was refused.
fn make_room(line: &str, reply: &mut String) -> Result<(), AllocError>
    ensures bytes { string_bytes reply.new ≡ string_bytes reply.old }
    ensures len { string_len reply.new ≡ string_len reply.old }
    ensures capacity { string_capacity reply.old ≤ string_capacity reply.new }
    ensures room { OnOk result ((string_len reply.old + length line.now) + length UNTOLD.now ≤ string_capacity reply.new) }
{
    match line.len().checked_add(UNTOLD.len()) {
        Some(wanted) => reply.reserve(wanted),
        None => Err(AllocError),
    }
}

// Rolls the step of this number back, if it is kept, and tells which steps are undone. An error leaves the world and the text as
// they were. The room for the line that memory was refused stays.
fn roll_back(
    alloc: Global,
    core: &mut Core,
    number: u32,
    reply: &mut String,
) -> Result<(), AllocError>
    requires { string_len reply.old + length UNTOLD.now ≤ string_capacity reply.old }
    ensures told { OnOk result (AddsRollback core.old.world number (string_bytes reply.old) (string_bytes reply.new) core.new.world) }
    ensures err { OnErr result (core.new.world ≡ core.old.world) }
    ensures text { OnErr result (string_bytes reply.new ≡ string_bytes reply.old) }
    ensures room { string_len reply.new + length UNTOLD.now ≤ string_capacity reply.new }
    ensures firings { core.new.meter.firings ≡ core.old.meter.firings }
{
    let rollback = match core.prepare_rollback(alloc, number) {
        Ok(rollback) => rollback,
        Err(Fault::NotKept) => return Ok(()),
        Err(_) => return Err(AllocError),
    };
    let mut line = String::new(alloc);
    gone(alloc, &rollback, &mut line)?;
    make_room(line.as_str(), reply)?;
    core.make(Change::Goes(Going::Together, rollback))?;
    let _ = reply.push_str(line.as_str());
    Ok(())
}

// Rolls the steps of these numbers back, one after another, each that is still kept, and tells of each which steps are undone. At
// an error some of them are rolled back and in the text. The room for the line that memory was refused stays.
fn roll_all(
    alloc: Global,
    core: &mut Core,
    ns: &[u32],
    reply: &mut String,
) -> Result<(), AllocError>
    requires { string_len reply.old + length UNTOLD.now ≤ string_capacity reply.old }
    ensures all { OnOk result (AddsRollbacks core.old.world ns.now (string_bytes reply.old) (string_bytes reply.new) core.new.world) }
    ensures some { OnErr result (AddsSomeRollbacks core.old.world ns.now (string_bytes reply.old) (string_bytes reply.new) core.new.world) }
    ensures room { string_len reply.new + length UNTOLD.now ≤ string_capacity reply.new }
    ensures firings { core.new.meter.firings ≡ core.old.meter.firings }
{
    for number in ns {
        roll_back(alloc, core, *number, reply)?;
    }
    Ok(())
}

// The line that says how many steps are kept.
fn write_kept(core: &Core, line: &mut String) -> Result<(), AllocError>
    requires { string_bytes line.old ≡ [] }
    ensures { OnOk result (string_bytes line.new ≡ kept_line core.now.world) }
{
    core.stands();
    line.push_str("kept ")?;
    push_number(core.records().len() as u32, line)?;
    line.push_str("\n")
}

// Tells how many steps are kept. An error leaves the text as it was.
fn tell_kept(alloc: Global, core: &Core, reply: &mut String) -> Result<(), AllocError>
    ensures told { OnOk result (string_bytes reply.new ≡ string_bytes reply.old ++ kept_line core.now.world) }
    ensures text { OnErr result (string_bytes reply.new ≡ string_bytes reply.old) }
    ensures len { OnErr result (string_len reply.new ≡ string_len reply.old) }
    ensures capacity { string_capacity reply.old ≤ string_capacity reply.new }
{
    let mut line = String::new(alloc);
    write_kept(core, &mut line)?;
    reply.push_str(line.as_str())
}

// Rolls the steps of these numbers back, and tells that and how many are kept then. At an error some are rolled back and in the
// text, and there is room for the line that memory was refused.
fn roll_and_tell(
    alloc: Global,
    core: &mut Core,
    ns: &[u32],
    reply: &mut String,
) -> Result<(), AllocError>
    requires empty { string_bytes reply.old ≡ [] }
    requires room { string_len reply.old + length UNTOLD.now ≤ string_capacity reply.old }
    ensures all { OnOk result (TellsKept core.old.world ns.now (string_bytes reply.new) core.new.world) }
    ensures some { OnErr result (AddsSomeRollbacks core.old.world ns.now [] (string_bytes reply.new) core.new.world) }
    ensures room { OnErr result (string_len reply.new + length UNTOLD.now ≤ string_capacity reply.new) }
    ensures firings { core.new.meter.firings ≡ core.old.meter.firings }
{
    roll_all(alloc, core, ns, reply)?;
    tell_kept(alloc, core, reply)
}

/// Rolls the steps of these numbers back, one after another, and tells that and how many are kept then. Where memory is refused on
/// the way, what was rolled back stays so, and the refusal stands in place of the rest. An error leaves the world as it was.
pub(crate) fn take_back(
    alloc: Global,
    core: &mut Core,
    ns: &[u32],
    reply: &mut String,
) -> Result<(), AllocError>
    requires { string_bytes reply.old ≡ [] }
    ensures told { OnOk result (TellsKept core.old.world ns.now (string_bytes reply.new) core.new.world) }
    ensures err { OnErr result (core.new.world ≡ core.old.world) }
    ensures firings { core.new.meter.firings ≡ core.old.meter.firings }
{
    reply.reserve(UNTOLD.len())?;
    if roll_and_tell(alloc, core, ns, reply).is_ok() {
        return Ok(());
    }
    let _ = reply.push_str(UNTOLD);
    Ok(())
}
