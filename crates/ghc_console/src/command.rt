// The command of a line.
ghost use Rattle.std.specs.Prelude.{◌≡◌, true, IfOk, IfSome, None, OnErr};
ghost use Rattle.std.specs.List.{list_all};
ghost use Rattle.ghc_console.specs.Words.{behind, goal_name_of, is_printable, is_variable, number_of, numbers_of, words_of};
ghost use Rattle.ghc_console.specs.LineMemory.{BeginsWithNumber, KeepsText, TakesMemory};
ghost use Rattle.ghc_console.specs.declared.command.LineCommand.TheVariants.{Step};
ghost use Rattle.ghc_console.specs.Commands.{arrange_with, clauses_with, command_by_count, command_of, command_of_one_word, command_of_three_words, command_of_two_words, command_of_words, command_with_goal, command_with_number, command_with_variable, input_to, save_of, leap_of, named, run_limit};

use crate::asked_for::ask_command;
use crate::blame_words::blame_command;
use crate::input_text::InputText;
use crate::predicate_words::{spy_command, unspy_command};
use crate::word::{Word, variable_word};
use crate::words::{goal_name, is_plain, is_variable_word, next_word, number, unindented};
use ghc_core::{Command, Order};
use ghc_term::{GoalName, Name};
use ghc_trace::Answers;
use std::alloc::{AllocError, Global};

/// The most steps of a run, where a line says no number.
pub(crate) const RUN_LIMIT: u32 = 1_000_000;

/// What a line asks for.
#[derive(Drop)]
pub enum LineCommand {
    /// A line without words.
    Nothing,
    /// A step with the goal, by the clause of this number where one is named.
    Step(GoalName, Option<u32>),
    /// A command to the core other than an input or an ask.
    Obey(Command),
    /// The value of the variable that is written so.
    Show(Word),
    /// The record.
    Records,
    /// The record from the step of this number on.
    Since(u32),
    /// Each direct dependence of each kept step.
    Causes,
    /// The goal that the step of this number took.
    GoalOf(u32),
    /// What each clause of its predicate says to the goal.
    Clauses(GoalName),
    /// The goals with their statuses.
    Goals,
    /// The steps on which the step of this number depends.
    Why(u32),
    /// The steps that depend on the step of this number.
    Effects(u32),
    /// The steps that bound the chain of the variable that is written so.
    Who(Word),
    /// Where the value of the variable that is written so comes from.
    Explain(Word),
    /// Why the goal is there, and stands as it does.
    ExplainGoal(GoalName),
    /// Why the variable that is written so is not bound.
    WhyNot(Word),
    /// Why the variables for which the goal waits are not bound.
    WhyNotGoal(GoalName),
    /// What the call of the goal was given, and what it gave.
    Part(GoalName),
    /// The next question about the value of the variable that is written so, by these answers.
    Blame(Word, Answers),
    /// The next question about the place of the second variable in the term of the first.
    BlamePlace(Word, Word, Answers),
    /// The next question about the goal.
    BlameGoal(GoalName, Answers),
    /// The rolling back of all steps on which the value of the variable that is written so does not rest.
    Keep(Word),
    /// The rolling back of all steps on which the goal, with all at which it looks, does not rest.
    KeepGoal(GoalName),
    /// The steps that were taken back.
    Shelf,
    /// The history of the whole session.
    Save,
    /// The history of the steps that are kept.
    SaveSteps,
    /// The spying of the predicate of this name and arity.
    Spy(Name, u32),
    /// The spying no more of the predicate of this name and arity.
    Unspy(Name, u32),
    /// The input of what the text says to the stream of this number.
    Input(u32, InputText),
    /// The asking for what the text says.
    Ask(InputText),
    /// A run of as many steps as this at most.
    Leap(u32),
    /// A run of the goals that descend from this one.
    Skip(GoalName),
    /// The end of the session.
    Quit,
    /// No command that is known.
    Unknown,
}

// A run of so many steps at most, which are one or more.
fn leap_command(limit: u32) -> LineCommand
    ensures { result ≡ leap_of limit }
{
    if limit == 0 {
        return LineCommand::Unknown;
    }
    LineCommand::Leap(limit)
}

// The command of a word alone.
fn one_word_command(first_word: &[u8]) -> LineCommand
    ensures { result ≡ command_of_one_word first_word.now }
{
    if first_word == b"records".as_slice() {
        return LineCommand::Records;
    }
    if first_word == b"goals".as_slice() {
        return LineCommand::Goals;
    }
    if first_word == b"shelf".as_slice() {
        return LineCommand::Shelf;
    }
    if first_word == b"save".as_slice() {
        return LineCommand::Save;
    }
    if first_word == b"leap".as_slice() {
        return LineCommand::Leap(RUN_LIMIT);
    }
    if first_word == b"quit".as_slice() {
        return LineCommand::Quit;
    }
    if first_word == b"causes".as_slice() {
        return LineCommand::Causes;
    }
    LineCommand::Unknown
}

// The command of a word with a number.
fn number_command(first_word: &[u8], step: u32) -> LineCommand
    ensures { result ≡ command_with_number first_word.now step }
{
    if first_word == b"undo".as_slice() {
        return LineCommand::Obey(Command::Undo(step));
    }
    if first_word == b"redo".as_slice() {
        return LineCommand::Obey(Command::Redo(step));
    }
    if first_word == b"roll".as_slice() {
        return LineCommand::Obey(Command::Roll(step));
    }
    if first_word == b"why".as_slice() {
        return LineCommand::Why(step);
    }
    if first_word == b"end".as_slice() {
        return LineCommand::Obey(Command::Close(step));
    }
    if first_word == b"leap".as_slice() {
        return leap_command(step);
    }
    if first_word == b"since".as_slice() {
        return LineCommand::Since(step);
    }
    if first_word == b"goal".as_slice() {
        return LineCommand::GoalOf(step);
    }
    if first_word == b"effects".as_slice() {
        return LineCommand::Effects(step);
    }
    LineCommand::Unknown
}

// The command of a word with a variable.
fn variable_command(
    alloc: Global,
    first_word: &[u8],
    word: &[u8],
) -> Result<LineCommand, AllocError>
    requires { is_variable word.now ≡ true }
    ensures command { IfOk result (λ command. command ≡ command_with_variable first_word.now word.now) }
    ensures memory { OnErr result (KeepsText (command_with_variable first_word.now word.now)) }
{
    if first_word == b"show".as_slice() {
        return Ok(LineCommand::Show(variable_word(alloc, word)?));
    }
    if first_word == b"who".as_slice() {
        return Ok(LineCommand::Who(variable_word(alloc, word)?));
    }
    if first_word == b"explain".as_slice() {
        return Ok(LineCommand::Explain(variable_word(alloc, word)?));
    }
    if first_word == b"whynot".as_slice() {
        return Ok(LineCommand::WhyNot(variable_word(alloc, word)?));
    }
    if first_word == b"keep".as_slice() {
        return Ok(LineCommand::Keep(variable_word(alloc, word)?));
    }
    Ok(LineCommand::Unknown)
}

// The command of a word with a goal.
fn goal_command(first_word: &[u8], goal: GoalName) -> LineCommand
    ensures { result ≡ command_with_goal first_word.now goal }
{
    if first_word == b"explain".as_slice() {
        return LineCommand::ExplainGoal(goal);
    }
    if first_word == b"whynot".as_slice() {
        return LineCommand::WhyNotGoal(goal);
    }
    if first_word == b"part".as_slice() {
        return LineCommand::Part(goal);
    }
    if first_word == b"keep".as_slice() {
        return LineCommand::KeepGoal(goal);
    }
    LineCommand::Unknown
}

// The command of a word with a goal or a number.
fn named_command(first_word: &[u8], word: &[u8]) -> LineCommand
    ensures { result ≡ named first_word.now (goal_name_of word.now) (number_of word.now) }
{
    match (goal_name(word), number(word)) {
        (Some(goal), _) => goal_command(first_word, goal),
        (None, Some(step)) => number_command(first_word, step),
        (None, None) => LineCommand::Unknown,
    }
}

// What the clauses say to the goal that the word names.
fn clauses_command(word: &[u8]) -> LineCommand
    ensures { result ≡ clauses_with (goal_name_of word.now) }
{
    match goal_name(word) {
        Some(goal) => LineCommand::Clauses(goal),
        None => LineCommand::Unknown,
    }
}

// The saving of the version that the word says: `1` says the first.
fn save_command(word: &[u8]) -> LineCommand
    ensures { result ≡ save_of word.now }
{
    if word == b"1".as_slice() {
        return LineCommand::SaveSteps;
    }
    LineCommand::Unknown
}

// The command of a word and one more.
fn two_word_command(
    alloc: Global,
    first_word: &[u8],
    word: &[u8],
) -> Result<LineCommand, AllocError>
    ensures command { IfOk result (λ command. command ≡ command_of_two_words first_word.now word.now) }
    ensures memory { OnErr result (KeepsText (command_of_two_words first_word.now word.now)) }
{
    if first_word == b"step".as_slice() {
        return match goal_name(word) {
            Some(goal) => Ok(LineCommand::Step(goal, None)),
            None => Ok(LineCommand::Unknown),
        };
    }
    if first_word == b"skip".as_slice() {
        return match goal_name(word) {
            Some(goal) => Ok(LineCommand::Skip(goal)),
            None => Ok(LineCommand::Unknown),
        };
    }
    if first_word == b"clauses".as_slice() {
        return Ok(clauses_command(word));
    }
    if first_word == b"spy".as_slice() {
        return spy_command(alloc, word);
    }
    if first_word == b"nospy".as_slice() {
        return unspy_command(alloc, word);
    }
    if first_word == b"save".as_slice() {
        return Ok(save_command(word));
    }
    if is_variable_word(word) {
        return variable_command(alloc, first_word, word);
    }
    Ok(named_command(first_word, word))
}

// The command of a word and two more.
fn three_word_command(first_word: &[u8], goal: &[u8], word: &[u8]) -> LineCommand
    ensures { result ≡ command_of_three_words first_word.now goal.now word.now }
{
    if first_word == b"step".as_slice() {
        return match (goal_name(goal), number(word)) {
            (Some(goal), Some(clause)) => LineCommand::Step(goal, Some(clause)),
            _ => LineCommand::Unknown,
        };
    }
    LineCommand::Unknown
}

// The command of a word and those after it, by how many these are.
fn counted_command(alloc: Global, first_word: &[u8], rest: &[u8]) -> Result<LineCommand, AllocError>
    ensures command { IfOk result (λ command. command ≡ command_by_count first_word.now (words_of rest.now)) }
    ensures memory { OnErr result (KeepsText (command_by_count first_word.now (words_of rest.now))) }
{
    let Some((second, behind)) = next_word(rest) else {
        return Ok(one_word_command(first_word));
    };
    let Some((third, behind)) = next_word(behind) else {
        return two_word_command(alloc, first_word, second);
    };
    match next_word(behind) {
        None => Ok(three_word_command(first_word, second, third)),
        Some(_) => Ok(LineCommand::Unknown),
    }
}

// The arranging of the record in the order of the numbers that the words say, if each says one.
fn arrange_command(alloc: Global, words: &[u8]) -> Result<LineCommand, AllocError>
    ensures command { IfOk result (λ command. command ≡ arrange_with (numbers_of (words_of words.now))) }
    ensures memory { OnErr result (BeginsWithNumber (words_of words.now)) }
{
    let mut order = Order::new(alloc);
    let mut rest = words;
    while let Some((word, behind)) = next_word(rest) {
        let Some(step) = number(word) else {
            return Ok(LineCommand::Unknown);
        };
        order.push(step)?;
        rest = behind;
    }
    Ok(LineCommand::Obey(Command::Arrange(order)))
}

// The input to the stream that the first word says, of all that stands after it and the spaces there.
fn input_command(alloc: Global, words: &[u8]) -> Result<LineCommand, AllocError>
    ensures command { IfOk result (λ command. command ≡ input_to (words_of words.now) (behind 1 words.now)) }
    ensures memory { OnErr result (KeepsText (input_to (words_of words.now) (behind 1 words.now))) }
{
    let Some((stream, rest)) = next_word(words) else {
        return Ok(LineCommand::Unknown);
    };
    let Some(stream) = number(stream) else {
        return Ok(LineCommand::Unknown);
    };
    let text = unindented(rest);
    if text.is_empty() {
        return Ok(LineCommand::Unknown);
    }
    Ok(LineCommand::Input(stream, InputText::new(alloc, text)?))
}

// The command of a line of printable bytes.
fn of_line(alloc: Global, line: &[u8]) -> Result<LineCommand, AllocError>
    requires { list_all is_printable line.now ≡ true }
    ensures command { IfOk result (λ command. command ≡ command_of line.now) }
    ensures memory { OnErr result (TakesMemory line.now) }
{
    let Some((name, behind)) = next_word(line) else {
        return Ok(LineCommand::Nothing);
    };
    if name == b"arrange".as_slice() {
        return arrange_command(alloc, behind);
    }
    if name == b"in".as_slice() {
        return input_command(alloc, behind);
    }
    if name == b"blame".as_slice() {
        return blame_command(alloc, behind);
    }
    if name == b"ask".as_slice() {
        return ask_command(alloc, behind);
    }
    counted_command(alloc, name, behind)
}

// The goal of a line that says nothing but `step`, a space and the name of a goal, as most lines do: it goes over these bytes alone.
#[inline(always)]
fn goal_to_step(line: &[u8]) -> Option<GoalName>
    ensures { IfSome result (λ goal. command_of line.now ≡ Step goal None) }
{
    if line.len() < 5 {
        return None;
    }
    let (name, word) = line.split_at(5);
    if name == b"step ".as_slice() {
        return goal_name(word);
    }
    None
}

// The command of any line.
#[inline(never)]
fn of_any_line(alloc: Global, line: &[u8]) -> Result<LineCommand, AllocError>
    ensures command { IfOk result (λ command. command ≡ command_of line.now) }
    ensures memory { OnErr result (TakesMemory line.now) }
{
    if !is_plain(line) {
        return Ok(LineCommand::Unknown);
    }
    of_line(alloc, line)
}

/// The command that a line says; a line that says none is `Unknown`. It takes time in proportion to the line. It takes memory only for
/// the word of `show`, `who`, `explain`, `whynot` or `keep`, the words after `blame`, the name of `spy` or `nospy`, the numbers of `arrange` and the
/// text of `in` or `ask`.
#[inline(always)]
pub fn parse(alloc: Global, line: &[u8]) -> Result<LineCommand, AllocError>
    ensures command { IfOk result (λ command. command ≡ command_of line.now) }
    ensures memory { OnErr result (TakesMemory line.now) }
{
    match goal_to_step(line) {
        Some(goal) => Ok(LineCommand::Step(goal, None)),
        None => of_any_line(alloc, line),
    }
}
