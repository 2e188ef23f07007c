// The text of an input, or of what is asked for, which is kept.
ghost use Rattle.std.specs.Prelude.{◌≡◌, IfOk};

use std::alloc::{AllocError, Global};
use std::marker::Model;

/// What a line gives as an input, or asks for. Contracts see its bytes.
#[derive(Drop)]
pub struct InputText {
    bytes: Vec<u8>,
}

impl Model for InputText {
    ghost use Rattle.std.specs.Prelude.{List, ℕ};

    ghost Value = { List ℕ };

    ghost view = { λ text. text.bytes.items };
}

impl InputText {
    /// A text of these bytes, which are copied.
    pub fn new(alloc: Global, text: &[u8]) -> Result<InputText, AllocError>
        ensures { IfOk result (λ kept. kept ≡ text.now) }
    {
        let bytes = text.to_vec(alloc)?;
        Ok(InputText { bytes })
    }

    /// Its bytes.
    pub fn as_slice(&self) -> &[u8]
        ensures { result.now ≡ self.now }
    {
        self.bytes.as_slice()
    }
}
