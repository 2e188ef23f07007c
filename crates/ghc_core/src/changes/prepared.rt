// The change for which a command asks, found before anything moves.
ghost use Rattle.std.specs.Prelude.{◌≡◌, Err, OnOk};
ghost use Rattle.ghc_term.specs.declared.fault.Fault.{Fault as fault_spec};
ghost use Rattle.ghc_term.specs.Answered.{Answered};
ghost use Rattle.ghc_core.specs.Anyway.{IsNotObeyedAnyway};
ghost use Rattle.ghc_core.specs.Answers.{Fails};
ghost use Rattle.ghc_core.specs.Asked.{IsAskedFor};
ghost use Rattle.ghc_core.specs.CommandCode.{command_of};
ghost use Rattle.ghc_core.specs.Counting.{CountsInObeying, after_firings, firings_of_command};
ghost use Rattle.ghc_core.specs.Core.{Stays};

use crate::changes::{Change, Coming, Going};
use crate::command::Command;
use crate::core_state::Core;
use ghc_term::Fault;
use std::alloc::Global;

impl Core {
    /// Finds the change for which the command asks, as the call for it does, with its refusals, their order and its cost:
    /// `prepare_input`, `prepare_close`, `prepare_undo`, `prepare_rollback`, `prepare_redo`, `prepare_arrange` or `prepare_ask`. But
    /// for the meter the core stays as it is.
    pub fn prepare_command(&mut self, alloc: Global, command: &Command) -> Result<Change, Fault>
        ensures answer { Answered (IsAskedFor self.old.world (command_of command.now)) (Fails self.old.world (command_of command.now)) result }

        // Where memory runs out, it still reports these: the stream is not there or its tail is bound; the step is not there, has a
        // consequence or lacks its goal; what is named is not known; an ask has no room; an order's first number is not kept.
        ensures anyway { (f : fault_spec) → IsNotObeyedAnyway self.old.world (command_of command.now) f → result ≡ Err f }
        ensures stays { Stays self.old self.new }
        ensures counted { CountsInObeying self.old.world (command_of command.now) self.old.meter self.new.meter }

        // A redo that is found fired once.
        ensures fired { OnOk result (self.new.meter ≡ after_firings (firings_of_command (command_of command.now)) self.old.meter) }
    {
        self.stands();
        match command {
            Command::Input(stream, input) => match self.prepare_input(alloc, *stream, input) {
                Ok(addition) => Ok(Change::Comes(Coming::Next, addition)),
                Err(fault) => Err(fault),
            },
            Command::Close(stream) => match self.prepare_close(alloc, *stream) {
                Ok(addition) => Ok(Change::Comes(Coming::Next, addition)),
                Err(fault) => Err(fault),
            },
            Command::Undo(number) => {
                self.index_records();
                match self.prepare_undo(alloc, *number) {
                    Ok(rollback) => Ok(Change::Goes(Going::Alone, rollback)),
                    Err(fault) => Err(fault),
                }
            }
            Command::Roll(number) => {
                self.index_records();
                match self.prepare_rollback(alloc, *number) {
                    Ok(rollback) => Ok(Change::Goes(Going::Together, rollback)),
                    Err(fault) => Err(fault),
                }
            }
            Command::Redo(number) => match self.prepare_redo(alloc, *number) {
                Ok(addition) => Ok(Change::Comes(Coming::Shelved, addition)),
                Err(fault) => Err(fault),
            },
            Command::Ask(ask) => match self.prepare_ask(alloc, ask) {
                Ok(addition) => Ok(Change::Comes(Coming::Next, addition)),
                Err(fault) => Err(fault),
            },
            Command::Arrange(order) => {
                self.index_records();
                match self.prepare_arrange(alloc, order.as_slice()) {
                    Ok(arrangement) => Ok(Change::Reorders(arrangement)),
                    Err(fault) => Err(fault),
                }
            }
        }
    }
}
