// Events of a world.

use crate::command::Command;
use ghc_term::GoalName;

/// An event: a hand asks for a step, or commits what it holds; a goal is tried; or the core gets a command.
#[derive(Drop)]
pub enum Event {
    /// The hand asks for a step of the goal, with a clause chosen or not, and holds what is proposed.
    Propose {
        hand: u32,
        goal: GoalName,
        choice: Option<u32>,
    },
    /// The hand commits what it holds, and is empty afterwards, refused or not.
    Commit(u32),
    /// The goal is tried, and the reply is its status.
    Note(GoalName),
    /// The core gets the command.
    Command(Command),
}
