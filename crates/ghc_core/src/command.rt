// Commands to a core.

use crate::changes::order::Order;
use ghc_fire::Ask;
use ghc_term::Ground;

/// A command gives a stream an input or closes it, undoes, rolls back or redoes a step, puts the record into another order, or asks
/// for goals.
pub enum Command {
    /// The stream of this number gets the input.
    Input(u32, Ground),
    /// The stream of this number is closed.
    Close(u32),
    /// The step of this number is undone.
    Undo(u32),
    /// The step of this number is rolled back.
    Roll(u32),
    /// The step of this number is redone.
    Redo(u32),
    /// The record is put into this order.
    Arrange(Order),
    /// These goals are asked for.
    Ask(Ask),
}

impl Drop for Command {
    fn drop(self) {
        match self {
            Command::Input(_, _input) => {}
            Command::Arrange(_order) => {}
            Command::Ask(_ask) => {}
            Command::Close(_) | Command::Undo(_) | Command::Roll(_) | Command::Redo(_) => {}
        }
    }
}
