// The session: lines are read, and their replies written.
ghost use Rattle.std.specs.Prelude.{◌≡◌, ◌+◌, ◌-◌, ◌≤◌, ℕ, List, [], IfErr, IfOk, IfSome, OnOk, MatchResult};
ghost use Rattle.ghc_console.specs.inner.Answered.{HasRun, IfAsksForRun, ServesSo};
ghost use Rattle.ghc_console.specs.Commands.{command_of};
ghost use Rattle.ghc_console.specs.inner.Device.{WritesFront};
ghost use Rattle.ghc_console.specs.Firing.{Fires, firings_in, runs_in};
ghost use Rattle.ghc_console.specs.Lines.{lines_of};
ghost use Rattle.ghc_console.specs.Reading.{LineSays};
ghost use Rattle.ghc_console.specs.Session.{Began, Session, SoFar, Tells};
ghost use Rattle.ghc_console.specs.SessionState.{SessionState, state_of};
ghost use Rattle.ghc_console.specs.inner.OnlyWrites.{OnlyWrites};

use crate::answer::answer;
use crate::answered::Answered;
use crate::debugger::Debugger;
use crate::devices::device::{Broken, Device};
use crate::devices::reading::{Ahead, Line};
use crate::devices::writing::write_all;
use crate::replies::listing::write_listing;
use crate::replies::run_lines::write_run;
use crate::replies::runs::leap;
use crate::replies::settled::settle;
use ghc_pool::Gate;
use ghc_term::{Fault, GoalName};
use std::alloc::Global;
use std::sync::Wait;
use std::thread::Threads;

// Replies that take more than so many bytes give their memory back.
const KEPT_REPLY: usize = 65_536;

// Gives the memory of a large reply back.
pub(crate) fn cut_down(alloc: Global, reply: &mut String) {
    if reply.capacity() > KEPT_REPLY {
        *reply = String::new(alloc);
    }
}

// Carries a line out and writes its reply, that of a listing line by line, and says whether the session ends; or says which run the
// line asks for, and hands on what was written before.
fn serve<D: Device>(
    alloc: Global,
    debugger: &mut Debugger,
    device: &mut D,
    line: &Line,
    reply: &mut String,
) -> Result<Answered, Broken>
    ensures served { (bytes : List ℕ) → LineSays line.now bytes
        → ServesSo (state_of debugger.old) bytes (state_of debugger.new) (D.written device.old) (D.written device.new) result }
    ensures opening { debugger.new.core.world.opening ≡ debugger.old.core.world.opening }
    ensures fires { (bytes : List ℕ) → LineSays line.now bytes → Fires (command_of bytes) debugger.old.core.meter.firings debugger.new.core.meter.firings }
    ensures handed_on { IfOk result (λ answered. IfAsksForRun answered (D.held device.new ≡ [])) }
    ensures writes { OnlyWrites D.Device device.old device.new result }
{
    match answer(alloc, debugger, line, reply) {
        Ok(Answered::Told) => {
            write_all(device, reply.as_bytes())?;
            Ok(Answered::Told)
        }
        Ok(Answered::Ends) => {
            write_all(device, reply.as_bytes())?;
            Ok(Answered::Ends)
        }
        Ok(Answered::Asks(root, limit)) => {
            device.flush()?;
            Ok(Answered::Asks(root, limit))
        }
        Ok(Answered::Lists(listing)) => {
            write_listing(
                alloc,
                device,
                &mut debugger.core,
                &debugger.spies,
                listing,
                reply,
            )?;
            Ok(Answered::Lists(listing))
        }
        Err(_) => {
            write_all(device, b"F1 no memory\n")?;
            Ok(Answered::Told)
        }
    }
}

// Makes a run that a line asks for, and writes its lines, one at a time. It may take long, or never end, so what was written before
// is handed on. Here alone is the debugger moved, since several workers take the core.
#[inline(never)]
fn serve_run<R: Threads + Wait + Sync, G: Gate + Sync, D: Device>(
    rt: &R,
    alloc: Global,
    debugger: Debugger,
    gate: &G,
    device: &mut D,
    root: Option<GoalName>,
    limit: u32,
    line: &mut String,
) -> (Debugger, Result<(), Broken>)
    requires handed_on { D.held device.old ≡ [] }
    ensures told { (text : List ℕ) × HasRun (state_of debugger) root limit text (state_of result.0) × WritesFront (D.written device.old) (D.written device.new) result.1 text }
    ensures opening { result.0.core.world.opening ≡ debugger.core.world.opening }
    ensures writes { OnlyWrites D.Device device.old device.new result.1 }
{
    let (debugger, report) = leap(rt, alloc, debugger, gate, root, limit);
    let written = write_run(device, &debugger.core, report, line);
    (debugger, written)
}

/// Settles, and answers the lines of the device, up to `quit` or the end of the input. Where a call of the device fails it ends
/// with `Device`, and the debugger is that after the last line executed. A run is made by as many workers as the debugger says, which
/// tell the gate. What was written before it is handed on first, and its lines are written after it, one at a time. Each line costs
/// what its command costs.
pub fn session<R: Threads + Wait + Sync, G: Gate + Sync, D: Device>(
    rt: &R,
    alloc: Global,
    mut debugger: Debugger,
    gate: &G,
    device: &mut D,
) -> (Debugger, Result<(), Fault>)
    // It asks only at the prompt: the device may be read where all is handed on, and what was written is the replies to the lines
    // that were read, each of them.
    requires prompt { (d : D) (t : SessionState) → D.held d ≡ []
        → Tells SoFar (state_of debugger) (D.unread device.old) (D.written device.old) (D.written d)
        (D.earlier d + D.latest d - (D.earlier device.old + D.latest device.old)) t
        → D.may_read d }

    // What is written is the replies to the lines, or a beginning of them where the device failed; and no read is made
    // where a line that ends the session is there.
    ensures text { MatchResult result.1
        (λ _. Tells Session (state_of debugger) (D.unread device.old) (D.written device.old) (D.written device.new)
        (D.earlier device.new - (D.earlier device.old + D.latest device.old)) (state_of result.0))
        (λ _. Tells Began (state_of debugger) (D.unread device.old) (D.written device.old) (D.written device.new)
        (D.earlier device.new - (D.earlier device.old + D.latest device.old)) (state_of result.0)) }
    ensures opening { result.0.core.world.opening ≡ debugger.core.world.opening }

    // Where the bytes are known and no line is a run, there are at most as many firings as lines that step or redo.
    ensures fires { IfSome (D.unread device.old) (λ input. runs_in (lines_of input) ≡ 0 → result.0.core.meter.firings ≤ debugger.core.meter.firings + firings_in (lines_of input)) }

    // It fails only where the device did.
    ensures failed { IfErr result.1 (λ e. (e ≡ Fault.Device) × (D.failures device.new ≡ D.failures device.old + 1)) }
    ensures ok { OnOk result.1 (D.failures device.new ≡ D.failures device.old) }
{
    // Where memory is refused, the first line that asks for a change settles.
    let _ = settle(alloc, &mut debugger.core);
    let mut ahead = Ahead::new();
    let mut spare = Vec::new(alloc);
    let mut reply = String::new(alloc);
    for _ in rt.forever() {
        let line = match ahead.next_line(rt, spare, device) {
            Err(Broken) => return (debugger, Err(Fault::Device)),
            Ok(None) => return (debugger, Ok(())),
            Ok(Some(line)) => line,
        };
        let Ok(answered) = serve(alloc, &mut debugger, device, &line, &mut reply) else {
            return (debugger, Err(Fault::Device));
        };
        match answered {
            Answered::Ends => return (debugger, Ok(())),
            Answered::Told => (),
            Answered::Lists(_) => (),
            Answered::Asks(root, limit) => {
                let (left, written) = serve_run(
                    rt, alloc, debugger, gate, device, root, limit, &mut reply,
                );
                debugger = left;
                if let Err(Broken) = written {
                    return (debugger, Err(Fault::Device));
                }
            }
        }
        spare = line.into_spare(alloc);
        cut_down(alloc, &mut reply);
    }
    unreachable!()
}
