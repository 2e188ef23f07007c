// `ghcdb FILE --query TEXT` debugs a program of Flat GHC.
#![tactic(auto)]

mod command_line;
mod console;
mod debugger;
mod files;
mod help;
mod laws;
mod no_gate;
mod opening;
mod playing;
mod refusal;
mod refused_part;
mod run_or_play;
mod settings;
mod start;
mod status;
mod text_front;
mod workers;

use clap::Error;
use debugger::run;
use status::Status;
use std::process::ExitCode;
use std::rt::{Env, Files};
use std::sync::Wait;
use std::thread::{Threads, available_parallelism};
use std::{env, io};

// The words of the command line, of which the first is the program's name.
fn words<R: Env + AllocGlobal>(rt: &R) -> io::Result<Vec<String>> {
    let words = env::args(rt)?.collect(rt.alloc())?;
    Ok(words)
}

// Tells that the words cannot be read.
fn refuse_words<R: Eprint>(rt: &R, error: &io::Error) -> Status {
    let _ = match error.kind() {
        io::ErrorKind::OutOfMemory => eprintln!(rt; "error: out of memory"),
        _ => eprintln!(rt; "error: a word of the command line is not text"),
    };
    Status::Misused
}

// Does what the words ask for, on the streams and the processors of the system.
fn run_here<R: Threads + Wait + Sync + Files + Input + Print + Eprint + AllocGlobal>(
    rt: &R,
    words: &[String],
) -> Status {
    let print = |error: &Error| error.print(rt).is_ok();
    let available = || available_parallelism(rt);
    let (_, status) = run(rt, words, rt.reader(), io::writer(rt), print, available);
    status
}

fn main(rt: HostRuntime) -> ExitCode {
    let status = match words(&rt) {
        Ok(words) => run_here(&rt, words.as_slice()),
        Err(error) => refuse_words(&rt, &error),
    };
    ExitCode::from(status.code())
}
