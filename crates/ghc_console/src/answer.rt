// The replies to lines, each written into a text of the session.
ghost use Rattle.std.specs.Prelude.{◌≡◌, ◌≤◌, false, true, [], List, ℕ, length, IfOk, MatchResult, OnErr, OnOk, string_bytes};
ghost use Rattle.ghc_console.specs.Commands.{command_of};
ghost use Rattle.ghc_console.specs.Firing.{Fires};
ghost use Rattle.ghc_console.specs.Reading.{LineSays, line_limit};
ghost use Rattle.ghc_console.specs.inner.Answered.{IsAnsweredBy, IsCommandAnsweredBy, is_told_at_once, looks_up};
ghost use Rattle.ghc_trace.specs.Spies.{Spies};
ghost use Rattle.ghc_console.specs.Replies.{IsReply, Replies, refusal};
ghost use Rattle.ghc_console.specs.SessionState.{LeavesSpies, state_of};

use crate::answered::{Answered, Listing};
use crate::command::{LineCommand, parse};
use crate::debugger::Debugger;
use crate::devices::reading::Line;
use crate::replies::all_causes::causes;
use crate::replies::blame::{blame, blame_goal, blame_place};
use crate::replies::causes::{who, why};
use crate::replies::clause_lines::clauses;
use crate::replies::effects::effects;
use crate::replies::explain::explain;
use crate::replies::explain_goal::explain_goal;
use crate::replies::goal_of_step::goal_of;
use crate::replies::keep::{keep, keep_goal};
use crate::replies::obey_reply::{ask, input, obey};
use crate::replies::part::part;
use crate::replies::runs::skip;
use crate::replies::since::since;
use crate::replies::spy_reply::{spy, unspy};
use crate::replies::why_not::{why_not, why_not_goal};
use crate::replies::{refused, show, step};
use ghc_core::Core;
use ghc_reader::ClauseLines;
use ghc_term::{Fault, Limit};
use std::alloc::{AllocError, Global};

// Tells what a command looks up. What is untried is tried first, where that matters; the world stays as it is.
fn look(
    alloc: Global,
    core: &mut Core,
    lines: &ClauseLines,
    command: &LineCommand,
    reply: &mut String,
) -> Result<(), AllocError>
    requires empty { string_bytes reply.old ≡ [] }
    requires looks { looks_up command.now ≡ true }
    ensures reply { (workers : ℕ) (spies : Spies) → OnOk result (Replies lines.now workers spies core.old.world command.now (string_bytes reply.new) core.new.world) }
    ensures world { core.new.world ≡ core.old.world }
    ensures firings { core.new.meter.firings ≡ core.old.meter.firings }
{
    match command {
        LineCommand::Show(word) => show(alloc, core, word.as_str(), reply),
        LineCommand::Since(number) => since(core, *number, reply),
        LineCommand::Causes => causes(alloc, core, reply),
        LineCommand::GoalOf(number) => goal_of(core, lines, *number, reply),
        LineCommand::Clauses(goal) => clauses(alloc, core, lines, *goal, reply),
        LineCommand::Why(number) => why(alloc, core, *number, reply),
        LineCommand::Effects(number) => effects(alloc, core, *number, reply),
        LineCommand::Who(word) => who(alloc, core, word.as_str(), reply),
        LineCommand::Explain(word) => explain(alloc, core, word.as_str(), reply),
        LineCommand::ExplainGoal(goal) => explain_goal(alloc, core, *goal, reply),
        LineCommand::WhyNot(word) => why_not(alloc, core, word.as_str(), reply),
        LineCommand::WhyNotGoal(goal) => why_not_goal(alloc, core, *goal, reply),
        LineCommand::Part(goal) => part(alloc, core, *goal, reply),
        LineCommand::Blame(word, answers) => blame(alloc, core, word.as_str(), answers, reply),
        LineCommand::BlamePlace(word, place, answers) => {
            blame_place(alloc, core, word.as_str(), place.as_str(), answers, reply)
        }
        LineCommand::BlameGoal(goal, answers) => blame_goal(alloc, core, *goal, answers, reply),
        _ => unreachable!(),
    }
}

// Carries a command out whose reply is made at once, and writes it. An error leaves the state as it was.
fn tell(
    alloc: Global,
    debugger: &mut Debugger,
    command: &LineCommand,
    reply: &mut String,
) -> Result<(), AllocError>
    requires empty { string_bytes reply.old ≡ [] }
    requires told { is_told_at_once command.now ≡ true }
    ensures reply { OnOk result (Replies debugger.old.clause_lines debugger.old.workers debugger.old.spies debugger.old.core.world command.now (string_bytes reply.new) debugger.new.core.world) }
    ensures spies { OnOk result (LeavesSpies debugger.old.core.world.opening.program debugger.old.spies command.now debugger.new.spies) }
    ensures world { OnErr result (debugger.new.core.world ≡ debugger.old.core.world) }
    ensures kept { OnErr result (debugger.new.spies ≡ debugger.old.spies) }
    ensures workers { debugger.new.workers ≡ debugger.old.workers }
    ensures lines { debugger.new.clause_lines ≡ debugger.old.clause_lines }
    ensures opening { debugger.new.core.world.opening ≡ debugger.old.core.world.opening }
    ensures fires { Fires command.now debugger.old.core.meter.firings debugger.new.core.meter.firings }
{
    match command {
        LineCommand::Nothing | LineCommand::Quit => Ok(()),
        LineCommand::Step(goal, choice) => step(alloc, &mut debugger.core, *goal, *choice, reply),
        LineCommand::Obey(command) => obey(alloc, &mut debugger.core, command, reply),
        LineCommand::Keep(word) => keep(alloc, &mut debugger.core, word.as_str(), reply),
        LineCommand::KeepGoal(goal) => keep_goal(alloc, &mut debugger.core, *goal, reply),
        LineCommand::Spy(name, arity) => {
            spy(
                alloc,
                &debugger.core,
                &mut debugger.spies,
                name,
                *arity,
                reply,
            )
        }
        LineCommand::Unspy(name, arity) => unspy(alloc, &mut debugger.spies, name, *arity, reply),
        LineCommand::Input(stream, text) => {
            input(alloc, &mut debugger.core, *stream, text.as_slice(), reply)
        }
        LineCommand::Ask(text) => ask(alloc, &mut debugger.core, text.as_slice(), reply),
        LineCommand::Unknown => refused(&Fault::Command, reply),
        LineCommand::Leap(_)
        | LineCommand::Skip(_)
        | LineCommand::Records
        | LineCommand::Goals
        | LineCommand::Shelf
        | LineCommand::Save
        | LineCommand::SaveSteps => unreachable!(),
        _ => look(
            alloc,
            &mut debugger.core,
            &debugger.clause_lines,
            command,
            reply,
        ),
    }
}

// Carries a command out, and writes the reply; or says which run or listing it asks for. An error leaves the state as it was.
fn execute(
    alloc: Global,
    debugger: &mut Debugger,
    command: &LineCommand,
    reply: &mut String,
) -> Result<Answered, AllocError>
    requires { string_bytes reply.old ≡ [] }
    ensures answered { IfOk result (IsCommandAnsweredBy (state_of debugger.old) command.now (string_bytes reply.new) (state_of debugger.new)) }
    ensures err { OnErr result (state_of debugger.new ≡ state_of debugger.old) }
    ensures opening { debugger.new.core.world.opening ≡ debugger.old.core.world.opening }
    ensures fires { Fires command.now debugger.old.core.meter.firings debugger.new.core.meter.firings }
{
    match command {
        LineCommand::Leap(limit) => Ok(Answered::Asks(None, *limit)),
        LineCommand::Skip(goal) => skip(debugger, *goal, reply),
        LineCommand::Records => Ok(Answered::Lists(Listing::Records)),
        LineCommand::Goals => Ok(Answered::Lists(Listing::Goals)),
        LineCommand::Shelf => Ok(Answered::Lists(Listing::Shelf)),
        LineCommand::Save => Ok(Answered::Lists(Listing::Session)),
        LineCommand::SaveSteps => Ok(Answered::Lists(Listing::KeptSteps)),
        LineCommand::Quit => Ok(Answered::Ends),
        _ => {
            tell(alloc, debugger, command, reply)?;
            Ok(Answered::Told)
        }
    }
}

// Makes the index of the record whole, if memory allows, where the command asks which steps depend on which; what a
// change of the record asks, `Core::prepare_command` does.
fn index_for(debugger: &mut Debugger, command: &LineCommand)
    ensures { debugger.new ≡ debugger.old }
{
    match command {
        LineCommand::Causes
        | LineCommand::Why(_)
        | LineCommand::Effects(_)
        | LineCommand::Who(_)
        | LineCommand::Explain(_)
        | LineCommand::ExplainGoal(_)
        | LineCommand::Part(_)
        | LineCommand::Blame(_, _)
        | LineCommand::BlamePlace(_, _, _)
        | LineCommand::BlameGoal(_, _)
        | LineCommand::Keep(_)
        | LineCommand::KeepGoal(_) => debugger.core.index_records(),
        _ => {}
    }
}

// Carries a whole line out, and writes the reply; or says which run or listing it asks for.
fn execute_line(
    alloc: Global,
    debugger: &mut Debugger,
    line: &[u8],
    reply: &mut String,
) -> Result<Answered, AllocError>
    requires { string_bytes reply.old ≡ [] }
    ensures ok { length line.now ≤ line_limit → IfOk result (IsAnsweredBy (state_of debugger.old) line.now (string_bytes reply.new) (state_of debugger.new)) }
    ensures err { OnErr result (state_of debugger.new ≡ state_of debugger.old) }
    ensures opening { debugger.new.core.world.opening ≡ debugger.old.core.world.opening }
    ensures fires { Fires (command_of line.now) debugger.old.core.meter.firings debugger.new.core.meter.firings }
{
    let command = parse(alloc, line)?;
    index_for(debugger, &command);
    execute(alloc, debugger, &command, reply)
}

/// Carries a line out, and writes the reply in place of what stood in the text, and says whether the session ends. Where the line
/// asks for a run it says of how many steps at most and of which goals, and where it asks for a listing, which; nothing is done then,
/// and the text is to be taken for nothing. An error says that memory was refused, which is the reply then. It costs what the
/// command costs.
pub fn answer(
    alloc: Global,
    debugger: &mut Debugger,
    line: &Line,
    reply: &mut String,
) -> Result<Answered, AllocError>
    ensures reply { (bytes : List ℕ) → LineSays line.now bytes → MatchResult result
        (IsAnsweredBy (state_of debugger.old) bytes (string_bytes reply.new) (state_of debugger.new))
        (λ _. IsReply (state_of debugger.old) bytes (refusal Fault.Memory) (state_of debugger.new) false) }
    ensures opening { debugger.new.core.world.opening ≡ debugger.old.core.world.opening }
    ensures fires { (bytes : List ℕ) → LineSays line.now bytes → Fires (command_of bytes) debugger.old.core.meter.firings debugger.new.core.meter.firings }
{
    reply.clear();
    match line {
        Line::Whole(bytes) => execute_line(alloc, debugger, bytes.as_slice(), reply),
        Line::TooLong => {
            refused(&Fault::Limit(Limit::Line), reply)?;
            Ok(Answered::Told)
        }
        Line::NoMemory => Err(AllocError),
    }
}
