// Playing the lines of a schedule.
ghost use Rattle.std.specs.Prelude.{◌≡◌, ℕ, List, [], MatchResult, map};
ghost use Rattle.ghc_core.specs.EventCode.{reply_of};
ghost use Rattle.ghc_console.specs.inner.Device.{WritesFront};
ghost use Rattle.ghc_console.specs.inner.OnlyWrites.{ReadsNothing};
ghost use Rattle.ghc_console.specs.inner.WritesTold.{WritesTold};
ghost use Rattle.ghc_console.specs.TextLines.{lined};
ghost use Rattle.ghc_console.specs.Listings.{records_listed};
ghost use Rattle.ghc_console.specs.ScheduleReplies.{reply_text};
ghost use Rattle.ghc_console.specs.ScheduleText.{EndsSo, IsScheduleOf, PlaysLine, TellsSchedule};

use crate::devices::device::{Broken, Device};
use crate::devices::reading::{Ahead, Line};
use crate::devices::writing::write_all;
use crate::replies::record_listing::write_records;
use crate::schedules::reply::{hear, push_reply};
use crate::session_loop::cut_down;
use ghc_core::{Core, Reply, World};
use ghc_term::Fault;
use std::alloc::Global;
use std::sync::Wait;

/// The hands that play a schedule are numbered from 1 to this.
const HANDS: u32 = 64;

// Writes the bytes.
fn write<D: Device>(device: &mut D, bytes: &[u8]) -> Result<(), Fault>
    ensures written { WritesFront (D.written device.old) (D.written device.new) result bytes.now }
    ensures reads { ReadsNothing D.Device device.old device.new }
    ensures ends { EndsSo (D.failures device.old) (D.failures device.new) result }
{
    match write_all(device, bytes) {
        Ok(()) => Ok(()),
        Err(Broken) => Err(Fault::Device),
    }
}

// Writes the line of a reply, which is made in the text. That memory was refused for an event takes no memory to tell.
fn write_reply<D: Device>(device: &mut D, reply: &Reply, text: &mut String) -> Result<(), Fault>
    ensures written { WritesFront (D.written device.old) (D.written device.new) result (reply_text (reply_of reply.now)) }
    ensures reads { ReadsNothing D.Device device.old device.new }
    ensures ends { EndsSo (D.failures device.old) (D.failures device.new) result }
{
    if let Reply::Refused(Fault::Memory) = reply {
        return write(device, b"F1 no memory\n");
    }
    text.clear();
    match push_reply(reply, text) {
        Ok(()) => write(device, text.as_bytes()),
        Err(_) => Err(Fault::Memory),
    }
}

// Meets the event of a line, and writes the reply.
fn play_line<D: Device>(
    alloc: Global,
    world: &mut World,
    line: &Line,
    device: &mut D,
    text: &mut String,
) -> Result<(), Fault>
    ensures played { PlaysLine line.now world.old world.new (D.written device.old) (D.written device.new) result }
    ensures reads { ReadsNothing D.Device device.old device.new }
    ensures ends { EndsSo (D.failures device.old) (D.failures device.new) result }
{
    match hear(alloc, world, line) {
        Some(reply) => write_reply(device, &reply, text),
        None => Ok(()),
    }
}

// Writes the records, line by line.
fn write_last<D: Device>(core: &Core, device: &mut D, text: &mut String) -> Result<(), Fault>
    ensures told { WritesTold (map lined (records_listed core.now.world.kept)) (D.written device.old) (D.written device.new) result }
    ensures reads { ReadsNothing D.Device device.old device.new }
    ensures ends { EndsSo (D.failures device.old) (D.failures device.new) result }
{
    match write_records(device, core.records(), text) {
        Ok(()) => Ok(()),
        Err(Broken) => Err(Fault::Device),
    }
}

// Plays the lines of the device, one after another, and writes the records after them.
fn play_lines<R: Wait, D: Device>(
    rt: &R,
    alloc: Global,
    world: &mut World,
    device: &mut D,
) -> Result<(), Fault>
    requires prompt { (d : D) → D.held d ≡ [] → D.may_read d }
    ensures played { TellsSchedule world.old (D.unread device.old) (D.written device.old) (D.written device.new) world.new result }
    ensures ends { EndsSo (D.failures device.old) (D.failures device.new) result }
{
    let mut ahead = Ahead::new();
    let mut spare = Vec::new(alloc);
    let mut text = String::new(alloc);
    for _ in rt.forever() {
        let line = match ahead.next_line(rt, spare, device) {
            Err(Broken) => return Err(Fault::Device),
            Ok(None) => return write_last(world.core(), device, &mut text),
            Ok(Some(line)) => line,
        };
        play_line(alloc, world, &line, device, &mut text)?;
        spare = line.into_spare(alloc);
        cut_down(alloc, &mut text);
    }
    unreachable!()
}

/// Plays the lines of the device, up to the end of the input, on the core with 64 hands that hold nothing. Each line is read when those
/// before it are played, and its reply is written; after the last one come the records. Nothing is settled. A refused event has its
/// refusal for a reply, F1 too, and so has a line that is too long, or for which memory is refused; the lines after it are played. Where
/// memory is refused for the line of a record, F1 stands in its place. It ends before with `Memory` where there is no room for the hands
/// or for the line of a reply, and with `Device` where a call of the device failed. It gives back the core as the last event played left
/// it. Each line costs what its event costs, and no more memory than it and its reply have.
pub fn schedule<R: Wait, D: Device>(
    rt: &R,
    alloc: Global,
    core: Core,
    device: &mut D,
) -> (Core, Result<(), Fault>)
    // It reads only where all is handed on.
    requires prompt { (d : D) → D.held d ≡ [] → D.may_read d }

    // What is written is the replies to the lines and the records, or a beginning of that where it was broken off.
    ensures played { IsScheduleOf core (D.unread device.old) (D.written device.old) (D.written device.new) result.0 result.1 }

    // It fails where memory is refused, or where the device did.
    ensures ends { EndsSo (D.failures device.old) (D.failures device.new) result.1 }
{
    let mut world = match World::new(alloc, core, HANDS) {
        Ok(world) => world,
        Err(core) => return (core, Err(Fault::Memory)),
    };
    let result = play_lines(rt, alloc, &mut world, device);
    (world.into_core(), result)
}
