// What a line of a schedule says.
ghost use Rattle.std.specs.Prelude.{◌≡◌};
ghost use Rattle.ghc_console.specs.Words.{words_of};
ghost use Rattle.ghc_console.specs.ScheduleLines.{commit_of, commit_with, note_of, note_with, propose_by, propose_of, propose_with, schedule_line_of, schedule_line_of_words};

use crate::words::{goal_name, is_plain, next_word, number};
use ghc_core::Event;
use ghc_term::GoalName;

/// What a line of a schedule says.
#[derive(Drop)]
pub enum ScheduleLine {
    /// A line without words.
    Nothing,
    /// An event of a hand, or the trial of a goal.
    Event(Event),
    /// What it says at the console.
    AsConsole,
    /// Nothing that is known.
    Unknown,
}

// The hand asks for a step of the goal, where both are there.
fn propose_line(hand: Option<u32>, goal: Option<GoalName>, choice: Option<u32>) -> ScheduleLine
    ensures { result ≡ propose_with hand goal choice }
{
    match (hand, goal) {
        (Some(hand), Some(goal)) => ScheduleLine::Event(Event::Propose { hand, goal, choice }),
        _ => ScheduleLine::Unknown,
    }
}

// The same by the clause, where there is one.
fn propose_by_line(hand: Option<u32>, goal: Option<GoalName>, clause: Option<u32>) -> ScheduleLine
    ensures { result ≡ propose_by hand goal clause }
{
    match clause {
        Some(clause) => propose_line(hand, goal, Some(clause)),
        None => ScheduleLine::Unknown,
    }
}

// What the words after `propose` say.
fn of_propose(words: &[u8]) -> ScheduleLine
    ensures { result ≡ propose_of (words_of words.now) }
{
    let Some((hand, behind)) = next_word(words) else {
        return ScheduleLine::Unknown;
    };
    let Some((goal, behind)) = next_word(behind) else {
        return ScheduleLine::Unknown;
    };
    let Some((clause, behind)) = next_word(behind) else {
        return propose_line(number(hand), goal_name(goal), None);
    };
    match next_word(behind) {
        None => propose_by_line(number(hand), goal_name(goal), number(clause)),
        Some(_) => ScheduleLine::Unknown,
    }
}

// The hand commits, where it is there.
fn commit_line(hand: Option<u32>) -> ScheduleLine
    ensures { result ≡ commit_with hand }
{
    match hand {
        Some(hand) => ScheduleLine::Event(Event::Commit(hand)),
        None => ScheduleLine::Unknown,
    }
}

// What the words after `commit` say.
fn of_commit(words: &[u8]) -> ScheduleLine
    ensures { result ≡ commit_of (words_of words.now) }
{
    let Some((hand, behind)) = next_word(words) else {
        return ScheduleLine::Unknown;
    };
    match next_word(behind) {
        None => commit_line(number(hand)),
        Some(_) => ScheduleLine::Unknown,
    }
}

// The goal is tried, where it is there.
fn note_line(goal: Option<GoalName>) -> ScheduleLine
    ensures { result ≡ note_with goal }
{
    match goal {
        Some(goal) => ScheduleLine::Event(Event::Note(goal)),
        None => ScheduleLine::Unknown,
    }
}

// What the words after `note` say.
fn of_note(words: &[u8]) -> ScheduleLine
    ensures { result ≡ note_of (words_of words.now) }
{
    let Some((goal, behind)) = next_word(words) else {
        return ScheduleLine::Unknown;
    };
    match next_word(behind) {
        None => note_line(goal_name(goal)),
        Some(_) => ScheduleLine::Unknown,
    }
}

// What a line of printable bytes says.
fn of_words(line: &[u8]) -> ScheduleLine
    ensures { result ≡ schedule_line_of_words (words_of line.now) }
{
    let Some((name, behind)) = next_word(line) else {
        return ScheduleLine::Nothing;
    };
    if name == b"propose".as_slice() {
        return of_propose(behind);
    }
    if name == b"commit".as_slice() {
        return of_commit(behind);
    }
    if name == b"note".as_slice() {
        return of_note(behind);
    }
    ScheduleLine::AsConsole
}

/// What a line of a schedule says. It takes time in proportion to the line, and no memory.
pub fn read_schedule_line(line: &[u8]) -> ScheduleLine
    ensures { result ≡ schedule_line_of line.now }
{
    if !is_plain(line) {
        return ScheduleLine::Unknown;
    }
    of_words(line)
}
