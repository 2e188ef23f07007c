// What the program does with the words of its command line.
ghost use Rattle.std.specs.Prelude.{◌≡◌, ◌≢◌, IfOk, map, option_map, string_bytes};
ghost use Rattle.std.specs.Fn.{FnOnceReturnsAt};
ghost use Rattle.clap.specs.Words.{kind_of};
ghost use Rattle.clap.specs.declared.error.kind.ErrorKind.{ErrorKind};
ghost use Rattle.ghc_term.specs.Answered.{AnsweredUnless};
ghost use Rattle.ghc_term.specs.Fault.{fault_text};
ghost use Rattle.ghcdb.specs.Opening.{IsDebuggerOf, IsOpenRefusal, IsWithoutMemory};
ghost use Rattle.ghcdb.specs.inner.Outputs.{lines_to_come, task_of};
ghost use Rattle.ghcdb.specs.inner.Running.{CarriesOut, Debugs, DebugsTexts, DoesAsAsked, IsAnswer, status_at_end};
ghost use Rattle.ghcdb.specs.inner.Texts.{history_in};
ghost use Rattle.ghcdb.specs.inner.Status.{spare_fault, status_of, status_of_print};
ghost use Rattle.ghcdb.specs.inner.Workers.{AreWorkersOf};

use crate::command_line::options;
use crate::files::{Texts, read_texts};
use crate::opening::open;
use crate::refusal::{Refusal, push_line};
use crate::run_or_play::run_or_play;
use crate::settings::{Given, Options, WorkersOption};
use crate::status::Status;
use crate::workers::{processors_for, workers_of};
use clap::Error;
use ghc_console::Debugger;
use ghc_term::Fault;
use std::alloc::Global;
use std::io;
use std::io::{Read, Write};
use std::num::NonZeroUsize;
use std::rt::Files;
use std::sync::Wait;
use std::thread::Threads;

/// Does what the words ask for, of which the first is the program's name, and says how it ends. A session reads its lines from the reader,
/// and it, or the schedule in its place, writes to the writer. `print` tells `clap`'s text, where the words ask for help or the version, or
/// are none of this program, and says whether it could. `available` says how many processors there are, where that matters. The writer
/// comes back, but where no memory was left for its buffer.
pub fn run<
    R: Threads + Wait + Sync + Files + Eprint + AllocGlobal,
    I: Read + Drop,
    O: Write + Drop,
    P: FnOnce(&Error) -> bool + Drop,
    C: FnOnce() -> io::Result<NonZeroUsize> + Drop,
>(rt: &R, words: &[String], reader: I, writer: O, print: P, available: C) -> (Option<O>, Status)
    requires print { P.IsAlwaysCallable print }
    requires available { C.pre available }
    ensures { DoesAsAsked (map string_bytes words.now) (FnOnceReturnsAt P.FnOnce print) (C.post available) (I.remaining reader) (O.contents writer) (option_map O.contents result.0) result.1 }
{
    match options(rt.alloc(), words) {
        Ok(given) => {
            let Given { options, workers } = given;
            let processors = processors_for(&workers, available);
            debug(rt, options, workers, processors, reader, writer)
        }
        Err(error) => (Some(writer), answer(rt, &error, print)),
    }
}

// How it ends where the text of `clap` was printed, or could not be: help and the version are what was asked for.
fn status_after(error: &Error, printed: bool) -> Status
    ensures help { kind_of error.now ≡ ErrorKind.DisplayHelp → result ≡ status_of_print printed }
    ensures version { kind_of error.now ≡ ErrorKind.DisplayVersion → result ≡ status_of_print printed }
    ensures mistake { kind_of error.now ≢ ErrorKind.DisplayHelp → kind_of error.now ≢ ErrorKind.DisplayVersion → result ≡ Status.Misused }
{
    if error.use_stderr() {
        return Status::Misused;
    }
    if printed {
        Status::Done
    } else {
        Status::Broken
    }
}

// Tells the text, and on the standard error that help or the version could not be told.
fn answer<R: Eprint, P: FnOnce(&Error) -> bool + Drop>(rt: &R, error: &Error, print: P) -> Status
    requires { P.IsAlwaysCallable print }
    ensures { IsAnswer (FnOnceReturnsAt P.FnOnce print) error.now result }
{
    let printed = print(error);
    let status = status_after(error, printed);
    if matches!(status, Status::Broken) {
        let _ = eprintln!(rt; "{}", spare_text(&Fault::Device));
    }
    status
}

// What the texts of the files and the options start: the program and the history are in the files, and the query in the
// options.
fn open_with(alloc: Global, texts: &Texts, options: Options<'_>) -> Result<Debugger, Refusal>
    ensures answer { AnsweredUnless (IsWithoutMemory texts.now.program.items options.entry.query.now (history_in texts.now)) (IsDebuggerOf texts.now.program.items options.entry.query.now (history_in texts.now))
        (IsOpenRefusal texts.now.program.items options.entry.query.now (history_in texts.now)) result }
{
    let program = texts.program.as_slice();
    let query = options.query.as_bytes();
    match &texts.history {
        Some(history) => open(alloc, program, query, Some(history.as_slice())),
        None => open(alloc, program, query, None),
    }
}

// The same, of which as many workers make a run as are asked for, on a machine of so many processors.
fn open_for_workers(
    alloc: Global,
    texts: &Texts,
    options: Options<'_>,
    asked: WorkersOption,
    processors: usize,
) -> Result<Debugger, Refusal>
    ensures answer { AnsweredUnless (IsWithoutMemory texts.now.program.items options.entry.query.now (history_in texts.now)) (IsDebuggerOf texts.now.program.items options.entry.query.now (history_in texts.now))
        (IsOpenRefusal texts.now.program.items options.entry.query.now (history_in texts.now)) result }
    ensures workers { IfOk result (λ debugger. AreWorkersOf asked debugger.core.world.opening.program processors debugger.workers) }
{
    match open_with(alloc, texts, options) {
        Ok(debugger) => {
            let workers = workers_of(asked, debugger.core.program(), processors);
            Ok(debugger.with_workers(workers))
        }
        Err(refusal) => Err(refusal),
    }
}

// Starts what the texts and the options say, and plays the schedule, where there is one, or else runs the session.
fn carry_out<
    R: Threads + Wait + Sync + AllocGlobal,
    S: Read + Drop,
    I: Read + Drop,
    O: Write + Drop,
>(
    rt: &R,
    texts: &Texts,
    schedule: Option<S>,
    options: Options<'_>,
    workers: WorkersOption,
    processors: usize,
    reader: I,
    writer: O,
) -> (Option<O>, Result<(), Refusal>)
    ensures { CarriesOut texts.now options.entry workers processors (task_of schedule) (lines_to_come (option_map S.remaining schedule) (I.remaining reader))
        (O.contents writer) (option_map O.contents result.0) result.1 }
{
    match open_for_workers(rt.alloc(), texts, options, workers, processors) {
        Ok(debugger) => run_or_play(rt, debugger, schedule, reader, writer),
        Err(refusal) => (Some(writer), Err(refusal)),
    }
}

// Tells of the refusal, where it did not end well, and gives the status.
fn tell_end<R: Eprint + AllocGlobal>(rt: &R, ended: &Result<(), Refusal>) -> Status
    ensures { result ≡ status_at_end ended.now }
{
    match ended {
        Ok(()) => Status::Done,
        Err(refusal) => tell(rt, refusal),
    }
}

// Carries out what the texts and the options say, tells of a refusal, and says how it ends.
fn debug_texts<
    R: Threads + Wait + Sync + Eprint + AllocGlobal,
    S: Read + Drop,
    I: Read + Drop,
    O: Write + Drop,
>(
    rt: &R,
    texts: &Texts,
    schedule: Option<S>,
    options: Options<'_>,
    workers: WorkersOption,
    processors: usize,
    reader: I,
    writer: O,
) -> (Option<O>, Status)
    ensures { DebugsTexts texts.now options.entry workers processors (task_of schedule) (lines_to_come (option_map S.remaining schedule) (I.remaining reader))
        (O.contents writer) (option_map O.contents result.0) result.1 }
{
    let (writer, ended) = carry_out(
        rt, texts, schedule, options, workers, processors, reader, writer,
    );
    let status = tell_end(rt, &ended);
    (writer, status)
}

// Reads the files, all of them before anything is judged, and debugs what stands in them.
fn debug<R: Threads + Wait + Sync + Files + Eprint + AllocGlobal, I: Read + Drop, O: Write + Drop>(
    rt: &R,
    options: Options<'_>,
    workers: WorkersOption,
    processors: usize,
    reader: I,
    writer: O,
) -> (Option<O>, Status)
    ensures { Debugs options.entry workers processors (I.remaining reader) (O.contents writer) (option_map O.contents result.0) result.1 }
{
    match read_texts(rt, options) {
        Ok((texts, schedule)) => debug_texts(
            rt, &texts, schedule, options, workers, processors, reader, writer,
        ),
        Err(refusal) => (Some(writer), tell(rt, &refusal)),
    }
}

// Tells of a refusal on the standard error, whose failing changes nothing, and gives its status.
fn tell<R: Eprint + AllocGlobal>(rt: &R, refusal: &Refusal) -> Status
    ensures { result ≡ status_of refusal.now.fault }
{
    let mut line = String::new(rt.alloc());
    let _ = match push_line(&mut line, refusal) {
        Ok(()) => rt.eprint(line),
        Err(_) => eprintln!(rt; "{}{}", refusal.part.prefix(), spare_text(&refusal.fault)),
    };
    Status::of(&refusal.fault)
}

// A text of the same status that takes no memory.
fn spare_text(fault: &Fault) -> &'static str
    ensures { result.now ≡ fault_text (spare_fault fault.now) }
{
    match fault {
        Fault::Device => "F26 device",
        _ => "F1 no memory",
    }
}
