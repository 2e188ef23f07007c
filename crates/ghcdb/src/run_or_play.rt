// What was started runs a session, or plays a schedule in its place, from a reader to a writer.
ghost use Rattle.std.specs.Prelude.{◌≡◌, ◌⊎◌, ◌<◌, [], IfErr, OnOk, option_map};
ghost use Rattle.ghc_console.specs.SessionState.{state_of};
ghost use Rattle.ghcdb.specs.inner.Ending.{IsEndRefusal, ended_as, part_at_end};
ghost use Rattle.ghcdb.specs.inner.Outputs.{Ends, HasOutput, PlaysSchedule, RunsOrPlays, RunsSession, lines_to_come, task_of};

use crate::console::run_on_device;
use crate::playing::play_on_device;
use crate::refusal::Refusal;
use crate::refused_part::RefusedPart;
use ghc_console::{Debugger, Lines};
use ghc_term::Fault;
use std::alloc::Global;
use std::io::{BufWriter, Read, Write};
use std::marker::Brand;
use std::mem;
use std::sync::Wait;
use std::sync::ledger::{Blank, Ledger};
use std::thread::Threads;

/// What is done with a debugger.
#[derive(Clone, Copy)]
pub enum Task {
    /// The lines are those of a session, which is run.
    Session,
    /// They are those of a schedule, which is played.
    Schedule,
}

impl Task {
    // What a refusal names where it does not end well.
    fn part(self) -> RefusedPart
        ensures { result ≡ part_at_end self }
    {
        match self {
            Task::Session => RefusedPart::Session,
            Task::Schedule => RefusedPart::Schedule,
        }
    }
}

// Plays the schedule on the device. The program ends next, and the system takes all memory back at once: the core is not
// taken apart goal by goal.
fn play_and_forget<L: Ledger, R: Wait, I: Read, O: Write + Drop>(
    rt: &R,
    alloc: Global,
    debugger: Debugger,
    device: &mut Lines<I, O, L>,
) -> Result<(), Fault>
    ensures told { PlaysSchedule debugger.core device.old.unread device.old.written device.new.written result }
    ensures held { OnOk result (device.new.held ≡ []) }
    ensures failed { IfErr result (λ fault. (fault ≡ Fault.Memory) ⊎ (fault ≡ Fault.Device)) }
{
    let Debugger {
        core,
        spies: _,
        workers: _,
        clause_lines: _,
    } = debugger;
    let (core, result) = play_on_device(rt, alloc, core, device);
    mem::forget(core);
    result
}

// Runs a session on the device. As above, nothing is taken apart after it.
fn run_and_forget<L: Ledger, R: Threads + Wait + Sync, I: Read, O: Write + Drop>(
    rt: &R,
    alloc: Global,
    debugger: Debugger,
    device: &mut Lines<I, O, L>,
) -> Result<(), Fault>
    ensures told { RunsSession (state_of debugger) device.old.unread device.old.written device.new.written result }
    ensures held { OnOk result (device.new.held ≡ []) }
    ensures failed { IfErr result (λ fault. fault ≡ Fault.Device) }
{
    let (debugger, result) = run_on_device(rt, alloc, debugger, device);
    mem::forget(debugger);
    result
}

// The refusal of this part, where it did not end well.
fn of_part(part: RefusedPart, ended: Result<(), Fault>) -> Result<(), Refusal>
    ensures { result ≡ ended_as part ended }
{
    match ended {
        Ok(()) => Ok(()),
        Err(fault) => Err(Refusal { part, fault }),
    }
}

// Does the task with the lines of the device.
fn run_or_play_on_device<L: Ledger, R: Threads + Wait + Sync, I: Read, O: Write + Drop>(
    rt: &R,
    alloc: Global,
    debugger: Debugger,
    task: Task,
    device: &mut Lines<I, O, L>,
) -> Result<(), Refusal>
    ensures told { RunsOrPlays task debugger device.old.unread device.old.written device.new.written result }
    ensures held { OnOk result (device.new.held ≡ []) }
    ensures refused { IfErr result (IsEndRefusal task) }
{
    match task {
        Task::Session => of_part(
            RefusedPart::Session,
            run_and_forget(rt, alloc, debugger, device),
        ),
        Task::Schedule => of_part(
            RefusedPart::Schedule,
            play_and_forget(rt, alloc, debugger, device),
        ),
    }
}

// The same, and gives the writer behind the buffer of the device back.
fn run_or_play_to_writer<L: Ledger, R: Threads + Wait + Sync, I: Read + Drop, O: Write + Drop>(
    rt: &R,
    alloc: Global,
    debugger: Debugger,
    task: Task,
    device: Lines<I, O, L>,
) -> (O, Result<(), Refusal>)
    ensures told { HasOutput task debugger device.unread device.written (O.contents result.0) result.1 }
    ensures refused { IfErr result.1 (IsEndRefusal task) }
{
    let mut device = device;
    let result = run_or_play_on_device(rt, alloc, debugger, task, &mut device);
    let (_, writer) = device.into_parts();
    (writer, result)
}

// The same from the reader to the writer, whose calls are counted in the ledger.
fn run_or_play_counted<
    L: Ledger,
    R: Threads + Wait + Sync + AllocGlobal,
    I: Read + Drop,
    O: Write + Drop,
>(
    rt: &R,
    debugger: Debugger,
    task: Task,
    reader: I,
    writer: O,
    blank: Blank,
) -> (Option<O>, Result<(), Refusal>)
    requires blank { (blank.name ≡ L.name) × (blank.parts ≡ L.parts) × (1 < L.parts) }
    ensures { Ends task debugger (I.remaining reader) (O.contents writer) (option_map O.contents result.0) result.1 }
{
    let Ok(buffer) = BufWriter::new(rt.alloc(), writer) else {
        let (part, fault) = (task.part(), Fault::Memory);
        return (None, Err(Refusal { part, fault }));
    };
    let device: Lines<I, O, L> = Lines::new(reader, buffer, blank);
    let (writer, result) = run_or_play_to_writer(rt, rt.alloc(), debugger, task, device);
    (Some(writer), result)
}

/// Plays the lines of the schedule on the core, where one is given, and writes its replies to the writer. Else it runs a session from the
/// reader to the writer, up to `quit` or the end of the input. The refusal is that of the schedule or of the session. It is `Device` where
/// a stream fails, and `Memory` where there is none for the output that is gathered, with which the writer is let go, or, of a schedule,
/// for the hands, for the line of a reply or for the records.
pub fn run_or_play<
    R: Threads + Wait + Sync + AllocGlobal,
    S: Read + Drop,
    I: Read + Drop,
    O: Write + Drop,
>(
    rt: &R,
    debugger: Debugger,
    schedule: Option<S>,
    reader: I,
    writer: O,
) -> (Option<O>, Result<(), Refusal>)
    ensures { Ends (task_of schedule) debugger (lines_to_come (option_map S.remaining schedule) (I.remaining reader)) (O.contents writer) (option_map O.contents result.0) result.1 }
{
    let blank = Blank::new(2);
    match schedule {
        Some(lines) => run_or_play_counted::<Brand, R, S, O>(
            rt,
            debugger,
            Task::Schedule,
            lines,
            writer,
            blank,
        ),
        None => run_or_play_counted::<Brand, R, I, O>(
            rt,
            debugger,
            Task::Session,
            reader,
            writer,
            blank,
        ),
    }
}
