// The replies to the lines of a schedule.
ghost use Rattle.std.specs.Prelude.{◌≡◌, ◌++◌, [], OnOk, Some, codes, option_map, string_bytes};
ghost use Rattle.std.specs.Fmt.{decimal};
ghost use Rattle.ghc_core.specs.EventCode.{reply_of};
ghost use Rattle.ghc_records.specs.StepText.{goal_name_text};
ghost use Rattle.ghc_console.specs.TextLines.{lined, refusal};
ghost use Rattle.ghc_console.specs.ScheduleLines.{schedule_line_of};
ghost use Rattle.ghc_console.specs.ScheduleReplies.{HearsLine, IsAskedOf, IsDoneAsConsole, IsDoneBy, IsGiven, PlaysCommand, reply_text};

use crate::asked_for::asked_for;
use crate::command::{LineCommand, parse};
use crate::devices::reading::Line;
use crate::replies::obey_reply::undone;
use crate::schedules::line::{ScheduleLine, read_schedule_line};
use ghc_core::{Command, Event, Reply, World};
use ghc_reader::read_ground_term;
use ghc_records::push_goal_name;
use ghc_term::{Fault, GoalName, Limit, push_number};
use std::alloc::{AllocError, Global};

// Reads the text as an input term, and gives it to the stream; or the refusal of the reader, which looks at no stream.
fn give(alloc: Global, world: &mut World, stream: u32, text: &[u8]) -> Reply
    ensures { IsGiven stream text.now world.old (Some (reply_of result)) world.new }
{
    match read_ground_term(alloc, text) {
        Ok(input) => world.answer(alloc, &Event::Command(Command::Input(stream, input))),
        Err(fault) => Reply::Refused(fault),
    }
}

// Reads the text as what is asked for, and asks the core for it; or the refusal of the reader, which looks at nothing but the text.
fn ask(alloc: Global, world: &mut World, text: &[u8]) -> Reply
    ensures { IsAskedOf text.now world.old (Some (reply_of result)) world.new }
{
    match asked_for(alloc, world.core(), text) {
        Ok(goals) => world.answer(alloc, &Event::Command(Command::Ask(goals))),
        Err(fault) => Reply::Refused(fault),
    }
}

// Plays a command of the console, where the core obeys it.
fn play_command(alloc: Global, world: &mut World, command: LineCommand) -> Option<Reply>
    ensures { PlaysCommand command world.old (option_map reply_of result) world.new }
{
    match command {
        LineCommand::Nothing => None,
        LineCommand::Obey(command) => Some(world.answer(alloc, &Event::Command(command))),
        LineCommand::Input(stream, text) => Some(give(alloc, world, stream, text.as_slice())),
        LineCommand::Ask(text) => Some(ask(alloc, world, text.as_slice())),
        LineCommand::Step(_, _)
        | LineCommand::Show(_)
        | LineCommand::Records
        | LineCommand::Since(_)
        | LineCommand::Causes
        | LineCommand::GoalOf(_)
        | LineCommand::Clauses(_)
        | LineCommand::Goals
        | LineCommand::Why(_)
        | LineCommand::Effects(_)
        | LineCommand::Who(_)
        | LineCommand::Explain(_)
        | LineCommand::ExplainGoal(_)
        | LineCommand::WhyNot(_)
        | LineCommand::WhyNotGoal(_)
        | LineCommand::Part(_)
        | LineCommand::Blame(_, _)
        | LineCommand::BlamePlace(_, _, _)
        | LineCommand::BlameGoal(_, _)
        | LineCommand::Keep(_)
        | LineCommand::KeepGoal(_)
        | LineCommand::Shelf
        | LineCommand::Save
        | LineCommand::SaveSteps
        | LineCommand::Spy(_, _)
        | LineCommand::Unspy(_, _)
        | LineCommand::Leap(_)
        | LineCommand::Skip(_)
        | LineCommand::Quit
        | LineCommand::Unknown => Some(Reply::Refused(Fault::Command)),
    }
}

// The reply to a line that says what it says at the console. Memory is refused for it only where reading it, or the core, takes some.
fn reply_as_console(alloc: Global, world: &mut World, line: &[u8]) -> Option<Reply>
    ensures { IsDoneAsConsole line.now world.old (option_map reply_of result) world.new }
{
    match parse(alloc, line) {
        Ok(command) => play_command(alloc, world, command),
        Err(_) => Some(Reply::Refused(Fault::Memory)),
    }
}

// The reply to a line of these bytes, or none where it has no words: its event is met by the core with its hands.
fn hear_whole(alloc: Global, world: &mut World, line: &[u8]) -> Option<Reply>
    ensures { IsDoneBy line.now (schedule_line_of line.now) world.old (option_map reply_of result) world.new }
{
    match read_schedule_line(line) {
        ScheduleLine::Nothing => None,
        ScheduleLine::Event(event) => Some(world.answer(alloc, &event)),
        ScheduleLine::AsConsole => reply_as_console(alloc, world, line),
        ScheduleLine::Unknown => Some(Reply::Refused(Fault::Command)),
    }
}

/// The reply to a line of a schedule, or none where it has no words: its event is met by the core with its hands. It costs what
/// reading the line and meeting the event cost. What is refused has its refusal for a reply, F1 too.
pub fn hear(alloc: Global, world: &mut World, line: &Line) -> Option<Reply>
    ensures { HearsLine line.now world.old (option_map reply_of result) world.new }
{
    match line {
        Line::Whole(bytes) => hear_whole(alloc, world, bytes.as_slice()),
        Line::TooLong => Some(Reply::Refused(Fault::Limit(Limit::Line))),
        Line::NoMemory => Some(Reply::Refused(Fault::Memory)),
    }
}

// The line of a word and a number.
fn push_counted(word: &str, number: u32, out: &mut String) -> Result<(), AllocError>
    requires { string_bytes out.old ≡ [] }
    ensures { OnOk result (string_bytes out.new ≡ lined (word.now ++ decimal number)) }
{
    out.push_str(word)?;
    push_number(number, out)?;
    out.push_str("\n")
}

// The line of a goal that was tried.
fn push_noted(goal: GoalName, out: &mut String) -> Result<(), AllocError>
    requires { string_bytes out.old ≡ [] }
    ensures { OnOk result (string_bytes out.new ≡ lined (codes "noted " ++ goal_name_text goal)) }
{
    out.push_str("noted ")?;
    push_goal_name(goal, out)?;
    out.push_str("\n")
}

// The line of a refusal.
fn push_refusal(fault: &Fault, out: &mut String) -> Result<(), AllocError>
    requires { string_bytes out.old ≡ [] }
    ensures { OnOk result (string_bytes out.new ≡ refusal fault.now) }
{
    fault.push_text(out)?;
    out.push_str("\n")
}

/// Writes the line of a reply.
pub fn push_reply(reply: &Reply, out: &mut String) -> Result<(), AllocError>
    requires { string_bytes out.old ≡ [] }
    ensures { OnOk result (string_bytes out.new ≡ reply_text (reply_of reply.now)) }
{
    match reply {
        Reply::Held(hand) => push_counted("held ", *hand, out),
        Reply::Stepped(number) => push_counted("step ", *number, out),
        Reply::Noted(goal, _) => push_noted(*goal, out),
        Reply::Undone(numbers) => undone(numbers.as_slice(), out),
        Reply::Arranged => out.push_str("arranged\n"),
        Reply::Refused(fault) => push_refusal(fault, out),
    }
}
