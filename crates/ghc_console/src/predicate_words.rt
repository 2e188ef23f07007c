// Words that name predicates, and the commands that are said with them.
ghost use Rattle.std.specs.Prelude.{◌≡◌, Some, None, IfOk, IfSome, IfNone, OnErr, true};
ghost use Rattle.ghc_console.specs.Commands.{spy_with, unspy_with};
ghost use Rattle.ghc_console.specs.LineMemory.{KeepsText};
ghost use Rattle.ghc_console.specs.PredicateWords.{is_name, predicate_of};

use crate::command::LineCommand;
use crate::words::{all_go_on, first, number};
use ghc_term::Name;
use std::alloc::{AllocError, Global};

// Whether a word is a name.
fn is_name_word(word: &[u8]) -> bool
    ensures { result ≡ is_name word.now }
{
    match word.split_first() {
        Some((byte, bytes)) => {
            byte.is_ascii_lowercase() && all_go_on(bytes) && word != b"mod".as_slice()
        }
        None => false,
    }
}

// The name and the arity of the predicate that a word names.
fn predicate_parts(word: &[u8]) -> Option<(&[u8], u32)>
    ensures found { IfSome result (λ parts. predicate_of word.now ≡ Some (parts.0.now, parts.1)) }
    ensures name { IfSome result (λ parts. is_name parts.0.now ≡ true) }
    ensures none { IfNone result (predicate_of word.now ≡ None) }
{
    let Some(stroke) = first(word, b'/') else {
        return None;
    };
    let name = &word[..stroke];
    if !is_name_word(name) {
        return None;
    }
    match number(&word[stroke + 1..]) {
        Some(arity) => Some((name, arity)),
        None => None,
    }
}

// The name that a word is.
fn name_of(alloc: Global, word: &[u8]) -> Result<Name, AllocError>
    requires { is_name word.now ≡ true }
    ensures { IfOk result (λ name. name ≡ word.now) }
{
    match str::from_utf8(word) {
        Ok(text) => Name::new(alloc, text),
        Err(_) => unreachable!(),
    }
}

/// The command to spy the predicate that the word names, if it names one. It takes memory for the name alone.
pub fn spy_command(alloc: Global, word: &[u8]) -> Result<LineCommand, AllocError>
    ensures command { IfOk result (λ command. command ≡ spy_with (predicate_of word.now)) }
    ensures memory { OnErr result (KeepsText (spy_with (predicate_of word.now))) }
{
    match predicate_parts(word) {
        Some((name, arity)) => Ok(LineCommand::Spy(name_of(alloc, name)?, arity)),
        None => Ok(LineCommand::Unknown),
    }
}

/// The command to spy the predicate no more that the word names, if it names one. It takes memory for the name alone.
pub fn unspy_command(alloc: Global, word: &[u8]) -> Result<LineCommand, AllocError>
    ensures command { IfOk result (λ command. command ≡ unspy_with (predicate_of word.now)) }
    ensures memory { OnErr result (KeepsText (unspy_with (predicate_of word.now))) }
{
    match predicate_parts(word) {
        Some((name, arity)) => Ok(LineCommand::Unspy(name_of(alloc, name)?, arity)),
        None => Ok(LineCommand::Unknown),
    }
}
