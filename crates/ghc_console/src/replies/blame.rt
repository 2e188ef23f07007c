// The reply that tells which call to ask about next, or which step is at fault.
ghost use Rattle.std.specs.Prelude.{◌≡◌, [], OnOk, string_bytes};
ghost use Rattle.ghc_core.specs.Settling.{AreKept};
ghost use Rattle.ghc_trace.specs.BlameLines.{IsKnownSubject};
ghost use Rattle.ghc_trace.specs.Laws.{IsSettled};
ghost use Rattle.ghc_console.specs.VariableNamed.{IsVariableNamed};
ghost use Rattle.ghc_console.specs.BlameReplies.{RepliesOn, RepliesToBlame, RepliesToBlameGoal, RepliesToBlamePlace};

use crate::named_variable::variable_named;
use crate::replies::refused;
use crate::replies::settled::settle;
use ghc_core::Core;
use ghc_term::{Fault, GoalName, VarName};
use ghc_trace::{Answers, Subject, push_blame};
use std::alloc::{AllocError, Global};

// Tells the next question about the subject, or the verdict, or the refusal.
fn told_of(
    alloc: Global,
    core: &Core,
    subject: Subject,
    answers: &Answers,
    reply: &mut String,
) -> Result<(), AllocError>
    requires empty { string_bytes reply.old ≡ [] }
    requires settled { IsSettled core.now.world core.now.notes }
    requires known { IsKnownSubject core.now.world subject }
    ensures { OnOk result (RepliesOn core.now.world subject answers.now (string_bytes reply.new)) }
{
    match push_blame(alloc, core, subject, answers.as_slice(), reply) {
        Ok(()) => Ok(()),
        Err(fault) => refused(&fault, reply),
    }
}

// Tells of the value of the variable that the word names, if it names one.
fn told_value(
    alloc: Global,
    core: &Core,
    word: &str,
    answers: &Answers,
    reply: &mut String,
) -> Result<(), AllocError>
    requires empty { string_bytes reply.old ≡ [] }
    requires settled { IsSettled core.now.world core.now.notes }
    ensures { OnOk result (RepliesToBlame core.now.world word.now answers.now (string_bytes reply.new)) }
{
    core.stands();
    match variable_named(core, word.as_bytes()) {
        Some(x) => told_of(alloc, core, Subject::Value(x), answers, reply),
        None => refused(&Fault::NoVariable, reply),
    }
}

// Tells of the place of the variable that the second word names in the term of this one, if it names one.
fn told_place_in(
    alloc: Global,
    core: &Core,
    x: VarName,
    word: &str,
    place: &str,
    answers: &Answers,
    reply: &mut String,
) -> Result<(), AllocError>
    requires empty { string_bytes reply.old ≡ [] }
    requires settled { IsSettled core.now.world core.now.notes }
    requires named { IsVariableNamed core.now.world word.now x }
    ensures { OnOk result (RepliesToBlamePlace core.now.world word.now place.now answers.now (string_bytes reply.new)) }
{
    core.stands();
    match variable_named(core, place.as_bytes()) {
        Some(y) => told_of(alloc, core, Subject::Place(x, y), answers, reply),
        None => refused(&Fault::NoVariable, reply),
    }
}

// Tells of the place of the second variable in the term of the first, if the words name both.
fn told_place(
    alloc: Global,
    core: &Core,
    word: &str,
    place: &str,
    answers: &Answers,
    reply: &mut String,
) -> Result<(), AllocError>
    requires empty { string_bytes reply.old ≡ [] }
    requires settled { IsSettled core.now.world core.now.notes }
    ensures { OnOk result (RepliesToBlamePlace core.now.world word.now place.now answers.now (string_bytes reply.new)) }
{
    match variable_named(core, word.as_bytes()) {
        Some(x) => told_place_in(alloc, core, x, word, place, answers, reply),
        None => refused(&Fault::NoVariable, reply),
    }
}

// Tells of the goal of this name, if there is one.
fn told_goal(
    alloc: Global,
    core: &Core,
    name: GoalName,
    answers: &Answers,
    reply: &mut String,
) -> Result<(), AllocError>
    requires empty { string_bytes reply.old ≡ [] }
    requires settled { IsSettled core.now.world core.now.notes }
    ensures { OnOk result (RepliesToBlameGoal core.now.world name answers.now (string_bytes reply.new)) }
{
    match core.goals().get(name) {
        Some(_goal) => told_of(alloc, core, Subject::Goal(name), answers, reply),
        None => refused(&Fault::NoGoal, reply),
    }
}

/// Tells the next question about the slice of the variable that the word names, or the verdict. It refuses with `NoVariable` where the
/// word names none; with `NoGoal` where an answer is about no call of the slice; then with the limit `print`. What is untried is tried
/// first. It costs what `push_blame` costs.
#[inline(never)]
pub fn blame(
    alloc: Global,
    core: &mut Core,
    word: &str,
    answers: &Answers,
    reply: &mut String,
) -> Result<(), AllocError>
    requires { string_bytes reply.old ≡ [] }
    ensures text { OnOk result (RepliesToBlame core.old.world word.now answers.now (string_bytes reply.new)) }
    ensures world { core.new.world ≡ core.old.world }
    ensures kept { AreKept core.old.notes core.new.notes }
    ensures firings { core.new.meter.firings ≡ core.old.meter.firings }
{
    settle(alloc, core)?;
    told_value(alloc, core, word, answers, reply)
}

/// The same of the place of the second variable in the term of the first. It refuses with `NoVariable` also where that is not in the term.
#[inline(never)]
pub fn blame_place(
    alloc: Global,
    core: &mut Core,
    word: &str,
    place: &str,
    answers: &Answers,
    reply: &mut String,
) -> Result<(), AllocError>
    requires { string_bytes reply.old ≡ [] }
    ensures text { OnOk result (RepliesToBlamePlace core.old.world word.now place.now answers.now (string_bytes reply.new)) }
    ensures world { core.new.world ≡ core.old.world }
    ensures kept { AreKept core.old.notes core.new.notes }
    ensures firings { core.new.meter.firings ≡ core.old.meter.firings }
{
    settle(alloc, core)?;
    told_place(alloc, core, word, place, answers, reply)
}

/// The same of the goal of this name. It refuses with `NoGoal` where there is none.
#[inline(never)]
pub fn blame_goal(
    alloc: Global,
    core: &mut Core,
    name: GoalName,
    answers: &Answers,
    reply: &mut String,
) -> Result<(), AllocError>
    requires { string_bytes reply.old ≡ [] }
    ensures text { OnOk result (RepliesToBlameGoal core.old.world name answers.now (string_bytes reply.new)) }
    ensures world { core.new.world ≡ core.old.world }
    ensures kept { AreKept core.old.notes core.new.notes }
    ensures firings { core.new.meter.firings ≡ core.old.meter.firings }
{
    settle(alloc, core)?;
    told_goal(alloc, core, name, answers, reply)
}
