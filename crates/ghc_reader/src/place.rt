// Places in a text.
ghost use Rattle.std.specs.Prelude.{◌≡◌, true, ◌+◌, ◌<◌, ◌^◌, length};
ghost use Rattle.ghc_reader.specs.Pieces.{HasForm};

use crate::lexer::front::Front;
use ghc_term::Fault;

/// The place of a byte in a text, or of the end: line and column, both from 1, the column in bytes. A line starts
/// after each line feed.
#[derive(Clone, Copy)]
pub(crate) struct Place {
    pub(crate) line: u32,
    pub(crate) column: u32,
}

impl Place {
    ghost use Rattle.ghc_reader.specs.Places.{start, place_behind, fault_at};

    /// The place of the first byte.
    pub(crate) fn start() -> Place
        ensures { result ≡ start }
    {
        Place { line: 1, column: 1 }
    }

    /// The refusal of what stands at this place.
    pub(crate) fn fault(self) -> Fault
        ensures { result ≡ fault_at self }
    {
        Fault::Syntax {
            line: self.line,
            column: self.column,
        }
    }

    /// The place after a piece that stands at this place.
    pub(crate) fn behind(self, front: &Front<'_>) -> Place
        requires form { HasForm true front.now.kind front.now.bytes.now }
        requires line_fits { self.line + 1 < 2 ^ 32 }
        requires column_fits { self.column + length front.now.bytes.now < 2 ^ 32 }
        ensures { result ≡ place_behind self front.now.bytes.now }
    {
        if front.bytes == b"\n".as_slice() {
            Place {
                line: self.line + 1,
                column: 1,
            }
        } else {
            Place {
                line: self.line,
                column: self.column + front.bytes.len() as u32,
            }
        }
    }
}
