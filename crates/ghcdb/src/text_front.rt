// Reading a text, and no more of it than tells that it is none.
ghost use Rattle.std.specs.Prelude.{◌≡◌, ◌↔◌, ◌++◌, ◌<◌, ◌≤◌, ℕ, List, length, take, IfOk, IfSome, IsTrue, OnErr};
ghost use Rattle.std.specs.Io.{ReadsAtMost};
ghost use Rattle.std.specs.Io.KnownBytes.{Consumes, IsAtEnd, ReadConsumes};
ghost use Rattle.ghcdb.specs.HistoryFront.{IsHeadingLine, IsReadOf, heading_bytes};
ghost use Rattle.ghcdb.specs.ProgramText.{TakesAtMost, most_read};

use ghc_term::TEXT_LIMIT;
use std::alloc::Global;
use std::io;
use std::io::{ErrorKind, Read};

// The bytes of the first line of a history, its line feed among them.
const HEADING_BYTES: usize = 14;

// So many bytes are read at once.
const PIECE: usize = 8_192;

// Reads, and reads again where the system was interrupted.
fn read_some<R: Read>(reader: &mut R, buf: &mut [u8]) -> io::Result<usize>
    ensures bound { ReadsAtMost result buf.new }
    ensures bytes { ReadConsumes (R.remaining reader.old) (R.remaining reader.new) result buf.new }
{
    for _ in 0..u64::MAX {
        match reader.read(buf) {
            Ok(n) => return Ok(n),
            Err(error) => {
                if error.kind() != ErrorKind::Interrupted {
                    return Err(error);
                }
            }
        }
    }
    Err(io::Error::from(ErrorKind::Interrupted))
}

// Reads once, into the room, and adds what came to the text. Where memory is refused, what was read is lost.
fn add_some<R: Read>(reader: &mut R, text: &mut Vec<u8>, room: &mut [u8]) -> io::Result<usize>
    ensures few { IfOk result (λ n. n ≤ length room.old) }
    ensures added { IfOk result (λ n. (piece : List ℕ) × Consumes (R.remaining reader.old) (R.remaining reader.new) piece
        × (text.new.items ≡ text.old.items ++ piece) × (length piece ≡ n)) }
    ensures end { IfOk result (λ n. n ≡ 0 → 0 < length room.old → IsAtEnd (R.remaining reader.new)) }
    ensures err { OnErr result (TakesAtMost (length room.old) (R.remaining reader.old) (R.remaining reader.new)) }
{
    match read_some(reader, room) {
        Ok(n) => match text.extend_from_slice(&room[..n]) {
            Ok(()) => Ok(n),
            Err(error) => Err(io::Error::from(error)),
        },
        Err(error) => Err(error),
    }
}

// The first bytes of a text, this many at most, and no more is taken from the reader.
fn read_front<R: Read>(alloc: Global, reader: &mut R, most: usize) -> io::Result<Vec<u8>>
    ensures text { IfOk result (λ text. IfSome (R.remaining reader.old) (λ whole. text.items ≡ take most whole)) }
    ensures most { IfOk result (λ text. length text.items ≤ most) }
    ensures taken { IfOk result (λ text. Consumes (R.remaining reader.old) (R.remaining reader.new) text.items) }
    ensures no_further { TakesAtMost most (R.remaining reader.old) (R.remaining reader.new) }
{
    let mut text = Vec::new(alloc);
    let mut piece = [0; PIECE];
    while text.len() < most {
        let room = PIECE.min(most - text.len());
        match add_some(reader, &mut text, &mut piece[..room]) {
            Ok(0) => return Ok(text),
            Ok(_) => {}
            Err(error) => return Err(error),
        }
    }
    Ok(text)
}

/// The text of a program. Of one that is too long no more is taken from the reader than a byte past the limit, and that much is
/// given: the text is refused for its length then, whatever follows. It fails where a read does, or where no memory is left.
pub fn read_program_text<R: Read>(alloc: Global, reader: &mut R) -> io::Result<Vec<u8>>
    ensures text { IfOk result (λ text. IfSome (R.remaining reader.old) (λ whole. text.items ≡ take most_read whole)) }
    ensures most { IfOk result (λ text. length text.items ≤ most_read) }
    ensures no_further { TakesAtMost most_read (R.remaining reader.old) (R.remaining reader.new) }
{
    read_front(alloc, reader, TEXT_LIMIT + 1)
}

// Are the bytes the first line of a history?
fn is_heading(bytes: &[u8]) -> bool
    ensures { IsTrue result ↔ IsHeadingLine bytes.now }
{
    bytes == b"ghc-history 1\n".as_slice() || bytes == b"ghc-history 2\n".as_slice()
}

/// The text of a history. Of one that does not begin with the first line of a history it takes no more from the reader than such a line
/// has, and gives that much: the text is refused for its first line then, whatever follows. It fails where a read does, or where no
/// memory is left.
pub fn read_history_text<R: Read>(alloc: Global, reader: &mut R) -> io::Result<Vec<u8>>
    ensures text { IfOk result (λ text. IfSome (R.remaining reader.old) (λ whole. IsReadOf whole text.items)) }
    ensures no_further { IfOk result (λ text. ¬ IsHeadingLine (take heading_bytes text.items) → TakesAtMost heading_bytes (R.remaining reader.old) (R.remaining reader.new)) }
{
    let mut text = read_front(alloc, reader, HEADING_BYTES)?;
    if is_heading(text.as_slice()) {
        reader.read_to_end(&mut text)?;
    }
    Ok(text)
}
