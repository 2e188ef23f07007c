// A word that is kept.
ghost use Rattle.std.specs.Prelude.{◌≡◌, IfOk, true};
ghost use Rattle.ghc_console.specs.Words.{is_variable};

use std::alloc::{AllocError, Global};
use std::marker::Model;

/// A word of a line, which is text. Contracts see its bytes.
#[derive(Drop)]
pub struct Word {
    text: String,
}

impl Model for Word {
    ghost use Rattle.std.specs.Prelude.{List, ℕ, string_bytes};

    ghost Value = { List ℕ };

    ghost view = { λ word. string_bytes word.text };
}

impl Word {
    /// A word of these bytes, which are copied.
    pub fn new(alloc: Global, text: &str) -> Result<Word, AllocError>
        ensures { IfOk result (λ word. word ≡ text.now) }
    {
        let text = String::from_str(alloc, text)?;
        Ok(Word { text })
    }

    /// Its text.
    pub fn as_str(&self) -> &str
        ensures { result.now ≡ self.now }
    {
        self.text.as_str()
    }
}

// The word of a variable, which is kept.
pub(crate) fn variable_word(alloc: Global, word: &[u8]) -> Result<Word, AllocError>
    requires { is_variable word.now ≡ true }
    ensures { IfOk result (λ kept. kept ≡ word.now) }
{
    match str::from_utf8(word) {
        Ok(text) => Word::new(alloc, text),
        Err(_) => unreachable!(),
    }
}
