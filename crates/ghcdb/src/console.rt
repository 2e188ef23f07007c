// The session of the program, on its device.
ghost use Rattle.std.specs.Prelude.{◌≡◌, ◌+◌, ◌-◌, [], IfErr, MatchResult, OnOk};
ghost use Rattle.ghc_console.specs.Session.{Began, Session, Tells};
ghost use Rattle.ghc_console.specs.SessionState.{state_of};

use crate::no_gate::NoGate;
use ghc_console::{Broken, Debugger, Device, Lines, session};
use ghc_term::Fault;
use std::alloc::Global;
use std::io::{Read, Write};
use std::sync::Wait;
use std::sync::ledger::Ledger;
use std::thread::Threads;

/// Runs a session on the device, and hands on what that holds back at the end. Where a call fails, it is the last one.
pub fn run_on_device<L: Ledger, R: Threads + Wait + Sync, I: Read, O: Write + Drop>(
    rt: &R,
    alloc: Global,
    debugger: Debugger,
    device: &mut Lines<I, O, L>,
) -> (Debugger, Result<(), Fault>)
    // What is written is the replies to the lines, or a beginning of them where a call failed.
    ensures told { MatchResult result.1
        (λ _. Tells Session (state_of debugger) device.old.unread device.old.written device.new.written
        (device.new.earlier - (device.old.earlier + device.old.latest)) (state_of result.0))
        (λ _. Tells Began (state_of debugger) device.old.unread device.old.written device.new.written
        (device.new.earlier - (device.old.earlier + device.old.latest)) (state_of result.0)) }
    ensures held { OnOk result.1 (device.new.held ≡ []) }
    ensures failed { IfErr result.1 (λ fault. (fault ≡ Fault.Device) × (device.new.failures ≡ device.old.failures + 1)) }
    ensures ok { OnOk result.1 (device.new.failures ≡ device.old.failures) }
{
    let (debugger, result) = session(rt, alloc, debugger, &NoGate, device);
    match result {
        Err(fault) => (debugger, Err(fault)),
        Ok(()) => match device.flush() {
            Ok(()) => (debugger, Ok(())),
            Err(Broken) => (debugger, Err(Fault::Device)),
        },
    }
}
