// A schedule that is played, with its lines and its replies on the device.
ghost use Rattle.std.specs.Prelude.{◌≡◌, ◌⊎◌, [], Err, IfErr};
ghost use Rattle.ghc_console.specs.ScheduleText.{IsScheduleOf};

use ghc_console::{Broken, Device, Lines, schedule};
use ghc_core::Core;
use ghc_term::Fault;
use std::alloc::Global;
use std::io::{Read, Write};
use std::sync::Wait;
use std::sync::ledger::Ledger;

/// Plays the schedule that the device gives, and hands on what that holds back, also where memory was refused.
pub fn play_on_device<L: Ledger, R: Wait, I: Read, O: Write + Drop>(
    rt: &R,
    alloc: Global,
    core: Core,
    device: &mut Lines<I, O, L>,
) -> (Core, Result<(), Fault>)
    // What is written is the replies to the lines and the records, or a beginning of that where a call failed or memory was refused.
    ensures told { IsScheduleOf core device.old.unread device.old.written device.new.written result.0 result.1 }
    ensures held { (result.1 ≡ Err Fault.Device) ⊎ (device.new.held ≡ []) }
    ensures failed { IfErr result.1 (λ fault. (fault ≡ Fault.Memory) ⊎ (fault ≡ Fault.Device)) }
{
    let (core, result) = schedule(rt, alloc, core, device);
    if let Err(Fault::Device) = result {
        return (core, result);
    }
    match device.flush() {
        Ok(()) => (core, result),
        Err(Broken) => (core, Err(Fault::Device)),
    }
}
