// Why a parse stopped.
use std::alloc::{AllocError, AllocFailed};

/// No memory, or a fault.
#[derive(Clone, Copy)]
pub enum ParseError {
    /// Memory was refused.
    Memory,
    /// The first token with which the tokens begin no text. `parse_program`, `parse_query` and `parse_term` count the
    /// tokens in front of it, the functions that read a part count the tokens from it on.
    Syntax(usize),
}

impl From<AllocError> for ParseError {
    ghost use Rattle.std.specs.Prelude.{◌≡◌};
    ghost use Rattle.ghc_reader.specs.declared.parse_error.ParseError.TheVariants.{Memory};

    ghost from_gives = { λ _ e. e ≡ Memory };

    fn from(_error: AllocError) -> Self {
        ParseError::Memory
    }
}

impl<T: Drop> From<AllocFailed<T>> for ParseError {
    ghost use Rattle.std.specs.Prelude.{◌≡◌};
    ghost use Rattle.ghc_reader.specs.declared.parse_error.ParseError.TheVariants.{Memory};

    ghost from_gives = { λ _ e. e ≡ Memory };

    fn from(_error: AllocFailed<T>) -> Self {
        ParseError::Memory
    }
}
