// The replies to commands that change the core: each finds the change, writes it, and makes it.
ghost use Rattle.std.specs.Prelude.{◌≡◌, ◌++◌, [], IfOk, OnErr, OnOk, string_bytes};
ghost use Rattle.ghc_records.specs.Record.{numbers};
ghost use Rattle.ghc_core.specs.Change.{CanChange, IsBoundBy};
ghost use Rattle.ghc_core.specs.CommandCode.{command_of};
ghost use Rattle.ghc_core.specs.Gone.{all_gone};
ghost use Rattle.ghc_trace.specs.Disturbed.{AreDisturbed};
ghost use Rattle.ghc_trace.specs.Laws.{IsSettled, Brings};
ghost use Rattle.ghc_console.specs.Firing.{FiresInObeying};
ghost use Rattle.ghc_console.specs.Replies.{IsFrontOf, IsObeyed, RepliesToAsk, RepliesToInput, TellsChange, numbers_text, undone_text};

use crate::asked_for::asked_for;
use crate::replies::settled::{make, settle};
use crate::replies::{push_ports, refused};
use ghc_core::{Change, Command, Core, Rollback};
use ghc_hooks::Tries;
use ghc_reader::read_ground_term;
use ghc_term::push_number;
use ghc_trace::Disturbed;
use std::alloc::{AllocError, Global};

// Writes the numbers with a comma between them, and `-` where there is none.
fn write_numbers(numbers: &[u32], out: &mut String) -> Result<(), AllocError>
    ensures { OnOk result (string_bytes out.new ≡ string_bytes out.old ++ numbers_text numbers.now) }
{
    if numbers.is_empty() {
        return out.push_str("-");
    }
    let mut mark = "";
    for number in numbers {
        out.push_str(mark)?;
        push_number(*number, out)?;
        mark = ",";
    }
    Ok(())
}

// The line of the steps that are undone.
#[inline(never)]
pub(crate) fn undone(numbers: &[u32], reply: &mut String) -> Result<(), AllocError>
    requires { string_bytes reply.old ≡ [] }
    ensures { OnOk result (string_bytes reply.new ≡ undone_text numbers.now) }
{
    reply.push_str("undone ")?;
    write_numbers(numbers, reply)?;
    reply.push_str("\n")
}

// The line of the steps that go: one that goes alone takes no memory for a list.
pub(crate) fn gone(alloc: Global, rollback: &Rollback, reply: &mut String) -> Result<(), AllocError>
    requires { string_bytes reply.old ≡ [] }
    ensures { OnOk result (string_bytes reply.new ≡ undone_text (numbers (all_gone rollback.now))) }
{
    let (first, others) = rollback.parts();
    if others.is_empty() {
        return undone(&[first.step().number()], reply);
    }
    undone(&rollback.numbers(alloc)?, reply)
}

// The goals that the change disturbs.
fn disturbed_by(alloc: Global, tries: &Tries, change: &Change) -> Result<Disturbed, AllocError>
    ensures { IfOk result (λ d. AreDisturbed tries.now.notes (IsBoundBy change.now) (Brings change.now) d) }
{
    match change {
        Change::Comes(_, addition) => Disturbed::by_taking(alloc, tries, addition.step()),
        Change::Goes(_, rollback) => Disturbed::by_rolling_back(alloc, tries, rollback),
        Change::Reorders(_) => Ok(Disturbed::by_arranging(alloc)),
    }
}

// Tells the change that is about to be made: the ports of its step, which steps are undone, or that the record is arranged.
fn push_change(
    alloc: Global,
    disturbed: &Disturbed,
    core: &Core,
    change: &Change,
    reply: &mut String,
) -> Result<(), AllocError>
    requires empty { string_bytes reply.old ≡ [] }
    requires settled { IsSettled core.now.world core.now.notes }
    requires disturbed { AreDisturbed core.now.notes (IsBoundBy change.now) (Brings change.now) disturbed.now }
    ensures { OnOk result (IsFrontOf core.now.world change.now (string_bytes reply.new)) }
{
    match change {
        Change::Comes(_, addition) => push_ports(disturbed, core, addition.step(), reply),
        Change::Goes(_, rollback) => gone(alloc, rollback, reply),
        Change::Reorders(_) => reply.push_str("arranged\n"),
    }
}

/// Tells the change, makes it, and tells what is stuck then. An error leaves the world as it was.
pub(crate) fn tell_and_make(
    alloc: Global,
    core: &mut Core,
    change: Change,
    reply: &mut String,
) -> Result<(), AllocError>
    requires empty { string_bytes reply.old ≡ [] }
    requires settled { IsSettled core.old.world core.old.notes }
    requires found { CanChange core.old.world change }
    ensures told { OnOk result (TellsChange core.old.world change (string_bytes reply.new) core.new.world) }
    ensures err { OnErr result (core.new.world ≡ core.old.world) }
    ensures firings { core.new.meter.firings ≡ core.old.meter.firings }
{
    let disturbed = disturbed_by(alloc, core.tries(), &change)?;
    push_change(alloc, &disturbed, core, &change, reply)?;
    make(alloc, core, change, &disturbed, reply)
}

/// Does what the command says, and tells it and what is stuck then; or its refusal, which changes nothing. What is untried is
/// tried first, so that it is known what was stuck before. The change is found, then the text is made, and then room; an error
/// leaves the world as it was. It costs what `Core::prepare_command` and `Core::make` cost, and a try of each goal that was
/// disturbed; a step that is redone is fired once at most, and nothing else is fired.
#[inline(never)]
pub fn obey(
    alloc: Global,
    core: &mut Core,
    command: &Command,
    reply: &mut String,
) -> Result<(), AllocError>
    requires { string_bytes reply.old ≡ [] }
    ensures text { OnOk result (IsObeyed core.old.world (command_of command.now) (string_bytes reply.new) core.new.world) }
    ensures err { OnErr result (core.new.world ≡ core.old.world) }
    ensures opening { core.new.world.opening ≡ core.old.world.opening }
    ensures firings { FiresInObeying (command_of command.now) core.old.meter.firings core.new.meter.firings }
{
    settle(alloc, core)?;
    match core.prepare_command(alloc, command) {
        Ok(change) => tell_and_make(alloc, core, change, reply),
        Err(refusal) => refused(&refusal, reply),
    }
}

/// Reads the text as an input term, and gives it to the stream as `obey` does; or the refusal of the reader, which changes
/// nothing and looks at no stream. It costs what reading the text and obeying cost.
pub fn input(
    alloc: Global,
    core: &mut Core,
    stream: u32,
    text: &[u8],
    reply: &mut String,
) -> Result<(), AllocError>
    requires { string_bytes reply.old ≡ [] }
    ensures text { OnOk result (RepliesToInput core.old.world stream text.now (string_bytes reply.new) core.new.world) }
    ensures err { OnErr result (core.new.world ≡ core.old.world) }
    ensures opening { core.new.world.opening ≡ core.old.world.opening }
    ensures firings { core.new.meter.firings ≡ core.old.meter.firings }
{
    match read_ground_term(alloc, text) {
        Ok(input) => obey(alloc, core, &Command::Input(stream, input), reply),
        Err(fault) => refused(&fault, reply),
    }
}

/// Reads the text as what is asked for, and asks the core for it as `obey` does; or the refusal of the reader, which changes nothing
/// and looks at nothing but the text. It costs what reading the text and obeying cost.
pub fn ask(
    alloc: Global,
    core: &mut Core,
    text: &[u8],
    reply: &mut String,
) -> Result<(), AllocError>
    requires { string_bytes reply.old ≡ [] }
    ensures text { OnOk result (RepliesToAsk core.old.world text.now (string_bytes reply.new) core.new.world) }
    ensures err { OnErr result (core.new.world ≡ core.old.world) }
    ensures opening { core.new.world.opening ≡ core.old.world.opening }
    ensures firings { core.new.meter.firings ≡ core.old.meter.firings }
{
    match asked_for(alloc, core, text) {
        Ok(goals) => obey(alloc, core, &Command::Ask(goals), reply),
        Err(fault) => refused(&fault, reply),
    }
}
