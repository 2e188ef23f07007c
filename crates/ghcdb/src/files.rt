// The files that the command line names.
ghost use Rattle.ghcdb.specs.ProgramText.{most_read};
ghost use Rattle.ghcdb.specs.declared.refused_part.RefusedPart.TheVariants as part;
ghost use Rattle.ghcdb.specs.inner.Texts.{IsNotRead, IsReadRefusal, HaveTexts};
ghost use Rattle.std.specs.Prelude.{◌≡◌, ◌≤◌, ◌⊎◌, IfErr, IfOk, Ok, false, is_ok, is_some, length};
ghost use Rattle.ghc_term.specs.declared.fault.Fault.{Fault};

use crate::refusal::Refusal;
use crate::refused_part::RefusedPart;
use crate::settings::Options;
use crate::text_front::{read_history_text, read_program_text};
use ghc_term::Fault;
use std::io::{BufRead, BufReader, ErrorKind};
use std::rt::Files;
use std::{fs, io};

// What was read, or why nothing was.
fn received<T: Drop>(read: io::Result<T>) -> Result<T, Fault>
    ensures read { IfOk read (λ text. result ≡ Ok text) }
    ensures refused { IfErr read (λ _. is_ok result ≡ false) }
    ensures fault { IfErr result (λ fault. (fault ≡ Fault.Memory) ⊎ (fault ≡ Fault.Device)) }
{
    match read {
        Ok(text) => Ok(text),
        Err(error) if error.kind() == ErrorKind::OutOfMemory => Err(Fault::Memory),
        Err(_) => Err(Fault::Device),
    }
}

// The text of the program in a file, of which no more is read than `read_program_text` takes.
fn read_program<R: Files + AllocGlobal>(rt: &R, name: &str) -> io::Result<Vec<u8>>
    ensures { IfOk result (λ text. length text.items ≤ most_read) }
{
    let mut file = fs::open(rt, name)?;
    let text = read_program_text(rt.alloc(), &mut file)?;
    Ok(text)
}

// The text of the history in a file, of which no more is read than `read_history_text` takes.
fn read_history<R: Files + AllocGlobal>(rt: &R, name: &str) -> io::Result<Vec<u8>> {
    let mut file = fs::open(rt, name)?;
    let text = read_history_text(rt.alloc(), &mut file)?;
    Ok(text)
}

// What a schedule in a file is read from, a line at a time while it is played. Some of it is read here, since a file that cannot be read
// is told before anything is judged.
fn open_schedule<R: Files + AllocGlobal>(rt: &R, name: &str) -> io::Result<BufReader<R::File>> {
    let file = fs::open(rt, name)?;
    let mut lines = BufReader::new(rt.alloc(), file)?;
    let _ = lines.fill_buf()?;
    Ok(lines)
}

/// What stands in the files that the command line names.
#[derive(Drop)]
pub struct Texts {
    /// The text of the program.
    pub program: Vec<u8>,
    /// The text of the history, where one is named.
    pub history: Option<Vec<u8>>,
}

// What was read of the file, where one is named. A refusal is of this part.
fn named<T: Drop>(read: Option<io::Result<T>>, part: RefusedPart) -> Result<Option<T>, Refusal>
    ensures read { IfOk result (λ text. is_some text ≡ is_some read) }
    ensures refused { IfErr result (IsNotRead (is_some read) part) }
{
    let Some(read) = read else {
        return Ok(None);
    };
    match received(read) {
        Ok(text) => Ok(Some(text)),
        Err(fault) => Err(Refusal { part, fault }),
    }
}

// What is read of the history, where one is named.
fn history_of<R: Files + AllocGlobal>(
    rt: &R,
    options: Options<'_>,
) -> Result<Option<Vec<u8>>, Refusal>
    ensures read { IfOk result (λ text. is_some text ≡ is_some options.entry.load) }
    ensures refused { IfErr result (IsNotRead (is_some options.entry.load) part.History) }
{
    match options.load {
        Some(name) => named(Some(read_history(rt, name)), RefusedPart::History),
        None => named(None, RefusedPart::History),
    }
}

// What the schedule is read from, where one is named.
fn schedule_of<R: Files + AllocGlobal>(
    rt: &R,
    options: Options<'_>,
) -> Result<Option<BufReader<R::File>>, Refusal>
    ensures read { IfOk result (λ lines. is_some lines ≡ is_some options.entry.schedule) }
    ensures refused { IfErr result (IsNotRead (is_some options.entry.schedule) part.Schedule) }
{
    match options.schedule {
        Some(name) => named(Some(open_schedule(rt, name)), RefusedPart::Schedule),
        None => named(None, RefusedPart::Schedule),
    }
}

/// The texts of the files that the options name, and what the schedule is read from, all of them. The refusal is that of the first file
/// that cannot be read: the program's comes before the history's, and that before the schedule's.
pub fn read_texts<R: Files + AllocGlobal>(
    rt: &R,
    options: Options<'_>,
) -> Result<(Texts, Option<BufReader<R::File>>), Refusal>
    ensures read { IfOk result (λ read. HaveTexts options.entry read.0 (is_some read.1)) }
    ensures refused { IfErr result (IsReadRefusal options.entry) }
{
    let program = match received(read_program(rt, options.file)) {
        Ok(program) => program,
        Err(fault) => {
            let part = RefusedPart::Program;
            return Err(Refusal { part, fault });
        }
    };
    let history = history_of(rt, options)?;
    let schedule = schedule_of(rt, options)?;
    Ok((Texts { program, history }, schedule))
}
