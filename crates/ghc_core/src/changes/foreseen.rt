// Foreseeing what an input or a close of a stream, or an ask, would do.
ghost use Rattle.std.specs.Prelude.{◌≡◌, ◌⊎◌, Ok, Err, IfOk, IfErr};
ghost use Rattle.ghc_term.specs.declared.fault.Fault.{Fault as fault_spec};
ghost use Rattle.ghc_term.specs.Answered.{Answered};
ghost use Rattle.ghc_core.specs.CommandCode.{command_of};
ghost use Rattle.ghc_core.specs.Anyway.{IsNotObeyedAnyway};
ghost use Rattle.ghc_core.specs.Streams.{Foresees, adds, refuses};

use crate::command::Command;
use crate::core_state::Core;
use ghc_records::{Addition, Record};
use ghc_term::Fault;
use std::alloc::Global;

// The record of the step that was found, or why none was.
fn record_of(found: Result<Addition, Fault>) -> Result<Record, Fault>
    ensures ok { IfOk result (λ r. found ≡ Ok r) }
    ensures fault { IfErr result (λ f. (f ≡ Fault.Memory) ⊎ (found ≡ Err f)) }
    ensures refused { (f : fault_spec) → found ≡ Err f → result ≡ Err f }
{
    match found {
        Ok(addition) => Ok(addition.step().share()?),
        Err(fault) => Err(fault),
    }
}

impl Core {
    /// The record that the command would add now, where it gives a stream an input or closes it, or asks for goals; the refusals are
    /// those of `prepare_input`, `prepare_close` and `prepare_ask`. `Command` exactly where it is another command, which it reports
    /// before it asks for memory. Nothing is taken, and nothing is fired. It costs what preparing the step costs.
    pub fn foresee(&self, alloc: Global, command: &Command) -> Result<Record, Fault>
        ensures answer { Answered (λ r. Foresees self.now.world (command_of command.now) (adds r)) (λ f. Foresees self.now.world (command_of command.now) (refuses f)) result }

        // Where memory runs out, it still reports what the command is refused for anyway.
        ensures anyway { (f : fault_spec) → Foresees self.now.world (command_of command.now) (refuses f) → IsNotObeyedAnyway self.now.world (command_of command.now) f → result ≡ Err f }
        ensures other { Foresees self.now.world (command_of command.now) (refuses Fault.Command) → result ≡ Err Fault.Command }
    {
        match command {
            Command::Input(stream, input) => record_of(self.prepare_input(alloc, *stream, input)),
            Command::Close(stream) => record_of(self.prepare_close(alloc, *stream)),
            Command::Ask(ask) => record_of(self.prepare_ask(alloc, ask)),
            Command::Undo(_) | Command::Roll(_) | Command::Redo(_) | Command::Arrange(_) => {
                Err(Fault::Command)
            }
        }
    }
}
