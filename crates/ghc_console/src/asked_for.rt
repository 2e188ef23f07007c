// The text after `ask`, and what it asks for.
ghost use Rattle.std.specs.Prelude.{◌≡◌, IfOk, OnErr};
ghost use Rattle.ghc_term.specs.Answered.{Answered};
ghost use Rattle.ghc_reader.specs.Tests.{an_ask, IsRefusal};
ghost use Rattle.ghc_console.specs.AskedFor.{IsReadAskFor};
ghost use Rattle.ghc_console.specs.Commands.{ask_with};
ghost use Rattle.ghc_console.specs.LineMemory.{KeepsText};
ghost use Rattle.ghc_console.specs.Words.{unindented as unindented_of};

use crate::command::LineCommand;
use crate::input_text::InputText;
use crate::words::unindented;
use ghc_core::Core;
use ghc_fire::Ask;
use ghc_reader::read_ask;
use ghc_term::Fault;
use std::alloc::{AllocError, Global};

/// The asking for all that stands after the spaces, if anything does. It takes memory for that text alone.
pub fn ask_command(alloc: Global, words: &[u8]) -> Result<LineCommand, AllocError>
    ensures command { IfOk result (λ command. command ≡ ask_with (unindented_of words.now)) }
    ensures memory { OnErr result (KeepsText (ask_with (unindented_of words.now))) }
{
    let text = unindented(words);
    if text.is_empty() {
        return Ok(LineCommand::Unknown);
    }
    Ok(LineCommand::Ask(InputText::new(alloc, text)?))
}

/// What the text asks for, where the variables of the query have their names; or the refusal of the reader, which looks at nothing
/// but the text. Time and memory grow with the text and the names.
pub fn asked_for(alloc: Global, core: &Core, text: &[u8]) -> Result<Ask, Fault>
    ensures { Answered (IsReadAskFor core.now.world text.now) (IsRefusal an_ask text.now) result }
{
    let written = read_ask(alloc, text, core.query().variables())?;
    let ask = Ask::of_written(alloc, written)?;
    Ok(ask)
}
