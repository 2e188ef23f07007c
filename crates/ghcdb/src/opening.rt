// What a session begins with: the core of a program and a query, on which a history is loaded where there is one, the predicates that are spied, and the lines of clauses.
ghost use Rattle.std.specs.Prelude.{◌≡◌, IfOk, None, Some, option_map};
ghost use Rattle.ghc_term.specs.Answered.{AnsweredUnless};
ghost use Rattle.ghc_flat.specs.Flat.{IsQuery};
ghost use Rattle.ghcdb.specs.Start.{IsNoMemoryFor};
ghost use Rattle.ghc_records.specs.HistoryText.{IsLine};
ghost use Rattle.ghc_records.specs.ChronicleText.{chronicle_heading};
ghost use Rattle.ghcdb.specs.Opening.{IsHistoryRefused, IsDebuggerOf, IsOpenRefusal, IsWithoutMemory, OpensOn};

use crate::refusal::Refusal;
use crate::refused_part::RefusedPart;
use crate::start::{Started, start};
use ghc_console::Debugger;
use ghc_core::{Core, what_is_read_can_be_resumed};
use ghc_reader::{ClauseLines, read_clause_lines};
use ghc_records::{is_chronicle, read_chronicle, read_history, written_histories_are_read_again};
use ghc_term::Fault;
use ghc_trace::SpySet;
use std::alloc::Global;

/// The core of the program and the query that the texts say, the predicates that are spied, and the lines at which the clauses of the
/// program begin. Where a history is given, of the version that its first line says, it is loaded on that core; one of version 2 tells
/// the spies. The refusal is that of the program or the query,
/// else that of the history's text, else that of its first step that is not possible or entry that is refused, else that of the first of
/// its predicates that the program has not; or F1. Time and memory grow with the texts, and with what the steps and entries of the
/// history do.
pub fn open(
    alloc: Global,
    program: &[u8],
    query: &[u8],
    history: Option<&[u8]>,
) -> Result<Debugger, Refusal>
    ensures answer { AnsweredUnless (IsWithoutMemory program.now query.now (option_map (λ text. text.now) history.entry)) (IsDebuggerOf program.now query.now (option_map (λ text. text.now) history.entry))
        (IsOpenRefusal program.now query.now (option_map (λ text. text.now) history.entry)) result }
{
    let started = match start(alloc, program, query) {
        Ok(started) => started,
        Err(refusal) => return Err(refusal),
    };
    let lines = match read_clause_lines(alloc, program) {
        Ok(lines) => lines,
        Err(fault) => {
            let part = RefusedPart::Program;
            return Err(Refusal { part, fault });
        }
    };
    match history {
        None => fresh(alloc, started, lines),
        Some(text) => given_back(alloc, started, lines, text),
    }
}

// The core before any step, with no predicate spied. F1 is the program's refusal.
fn fresh(alloc: Global, started: Started, lines: ClauseLines) -> Result<Debugger, Refusal>
    requires { IsQuery started.program started.query.goals }
    ensures answer { AnsweredUnless (IsNoMemoryFor RefusedPart.Program) (λ debugger. OpensOn started None debugger.core.world debugger.spies) (λ _. ⊥) result }
    ensures lines { IfOk result (λ debugger. debugger.clause_lines ≡ lines) }
{
    let Started { program, query } = started;
    match Core::new(alloc, program, query) {
        Ok(core) => Ok(Debugger::new(core, SpySet::new(alloc), lines)),
        Err(_) => {
            let part = RefusedPart::Program;
            let fault = Fault::Memory;
            Err(Refusal { part, fault })
        }
    }
}

// What the text of a history gives back. Each refusal is the history's.
fn given_back(
    alloc: Global,
    started: Started,
    lines: ClauseLines,
    text: &[u8],
) -> Result<Debugger, Refusal>
    requires { IsQuery started.program started.query.goals }
    ensures answer { AnsweredUnless (IsNoMemoryFor RefusedPart.History) (λ debugger. OpensOn started (Some text.now) debugger.core.world debugger.spies) (IsHistoryRefused started (Some text.now)) result }
    ensures lines { IfOk result (λ debugger. debugger.clause_lines ≡ lines) }
{
    if is_chronicle(text) {
        return resumed(alloc, started, lines, text);
    }
    loaded(alloc, started, lines, text)
}

// The refusal of a history.
fn refused(fault: Fault) -> Refusal
    ensures part { result.part ≡ RefusedPart.History }
    ensures fault { result.fault ≡ fault }
{
    let part = RefusedPart::History;
    Refusal { part, fault }
}

// The core on which the history of version 1 is loaded, with no predicate spied.
fn loaded(
    alloc: Global,
    started: Started,
    lines: ClauseLines,
    text: &[u8],
) -> Result<Debugger, Refusal>
    requires query { IsQuery started.program started.query.goals }
    requires version { ¬ IsLine text.now 0 chronicle_heading }
    ensures answer { AnsweredUnless (IsNoMemoryFor RefusedPart.History) (λ debugger. OpensOn started (Some text.now) debugger.core.world debugger.spies) (IsHistoryRefused started (Some text.now)) result }
    ensures lines { IfOk result (λ debugger. debugger.clause_lines ≡ lines) }
{
    // Called for its clause that a history which a text tells is of the form, which the proof cites.
    written_histories_are_read_again();
    let history = match read_history(alloc, text) {
        Ok(history) => history,
        Err(fault) => return Err(refused(fault)),
    };
    let Started { program, query } = started;
    match Core::load(alloc, program, query, &history) {
        Ok(core) => Ok(Debugger::new(core, SpySet::new(alloc), lines)),
        Err(fault) => Err(refused(fault)),
    }
}

// The core on which the history of version 2 is carried out, with its predicates spied.
fn resumed(
    alloc: Global,
    started: Started,
    lines: ClauseLines,
    text: &[u8],
) -> Result<Debugger, Refusal>
    requires query { IsQuery started.program started.query.goals }
    requires version { IsLine text.now 0 chronicle_heading }
    ensures answer { AnsweredUnless (IsNoMemoryFor RefusedPart.History) (λ debugger. OpensOn started (Some text.now) debugger.core.world debugger.spies) (IsHistoryRefused started (Some text.now)) result }
    ensures lines { IfOk result (λ debugger. debugger.clause_lines ≡ lines) }
{
    // Called for its clause that a chronicle which a text tells can be carried out, which the proof cites.
    what_is_read_can_be_resumed();
    let chronicle = match read_chronicle(alloc, text) {
        Ok(chronicle) => chronicle,
        Err(fault) => return Err(refused(fault)),
    };
    let Started { program, query } = started;
    let core = match Core::resume(alloc, program, query, &chronicle) {
        Ok(core) => core,
        Err(fault) => return Err(refused(fault)),
    };
    match SpySet::of(alloc, chronicle.spies()) {
        Ok(spies) => Ok(Debugger::new(core, spies, lines)),
        Err(_) => Err(refused(Fault::Memory)),
    }
}
