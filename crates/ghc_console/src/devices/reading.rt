// Reading lines from a device.
ghost use Rattle.std.specs.Prelude.{◌≡◌, ◌⊎◌, ◌≢◌, ◌∷◌, ◌++◌, ◌+◌, ◌<◌, All, IfSome, IfNone, List, ℕ, [], length, ◌==◌, false, take, drop, IfOk, OnOk, Option};
ghost use Rattle.std.specs.Io.BufRead.{strip_last};
ghost use Rattle.std.specs.Io.KnownBytes.{IsAtEnd, Keeps, prepend_known};
ghost use Rattle.ghc_console.specs.inner.Device.{Counts};
ghost use Rattle.ghc_console.specs.Reading.{AsksAtNeed, AsksForMore, CountsGiven, HasGathered, IsMadeOf, IsNextLine, TakesFront};

use crate::devices::device::{Broken, Device};
use crate::devices::line_buffer::{Gathered, LINE_LIMIT, State};
use crate::words::first;
use std::alloc::Global;
use std::marker::Model;
use std::sync::Wait;

/// A line that was read.
#[derive(Drop)]
pub enum Line {
    /// Its bytes, without what ends it.
    Whole(Vec<u8>),
    /// It has more than 1,048,576 bytes. It was skipped.
    TooLong,
    /// Its reading found no memory. It was skipped.
    NoMemory,
}

// The memory of a line that takes more than so many bytes is given back.
const KEPT_LINE: usize = 4096;

impl Line {
    /// What held the bytes of the line, for the next one; the memory of a long line is given back.
    pub(crate) fn into_spare(self, alloc: Global) -> Vec<u8> {
        match self {
            Line::Whole(bytes) if bytes.capacity() <= KEPT_LINE => bytes,
            _ => Vec::new(alloc),
        }
    }
}

/// Bytes that were read, and that no line has taken yet. Contracts see these bytes.
#[derive(Drop)]
pub struct Ahead {
    buf: [u8; 4096],
    start: usize,
    end: usize,
}

impl Model for Ahead {
    ghost use Rattle.std.specs.Prelude.{ℕ, List, ◌-◌, ◌≤◌, drop, take};

    ghost Value = { List ℕ };

    ghost view = { λ a. take (a.end - a.start) (drop a.start a.buf) };

    ghost invariant = { λ a. (a.start ≤ a.end) × (a.end ≤ 4096) };
}

// The bytes without a carriage return at their end.
fn without_return(bytes: &[u8]) -> &[u8]
    ensures { result.now ≡ strip_last 13 bytes.now }
{
    if bytes.last() == Some(&b'\r') {
        return &bytes[..bytes.len() - 1];
    }
    bytes
}

// What becomes of the bytes of a row; `ended` says whether a line feed ends it.
fn finish(gathered: Gathered, ended: bool) -> Option<Line>
    ensures { (bytes : List ℕ) → HasGathered gathered bytes → IsMadeOf result (bytes, ended) }
{
    match gathered.state {
        State::TooLong => Some(Line::TooLong),
        State::NoMemory => Some(Line::NoMemory),
        State::Whole => {
            let mut bytes = gathered.bytes;
            if !ended && bytes.is_empty() {
                return None;
            }
            if ended {
                let length = without_return(bytes.as_slice()).len();
                bytes.truncate(length);
            }
            if bytes.len() > LINE_LIMIT {
                return Some(Line::TooLong);
            }
            Some(Line::Whole(bytes))
        }
    }
}

impl Ahead {
    /// Nothing was read yet.
    pub fn new() -> Ahead
        ensures { result ≡ [] }
    {
        Ahead {
            buf: [0; 4096],
            start: 0,
            end: 0,
        }
    }

    fn is_empty(&self) -> bool
        ensures { result ≡ (length self.now == 0) }
    {
        self.start == self.end
    }

    // Hands on what the device holds back, reads once, and says whether there was anything.
    fn fill<D: Device>(&mut self, device: &mut D) -> Result<bool, Broken>
        requires empty { self.old ≡ [] }
        requires ask { (d : D) → D.held d ≡ [] → Keeps (D.written device.old) (D.written d)
            → D.earlier d + D.latest d ≡ D.earlier device.old + D.latest device.old → D.may_read d }
        ensures bytes { OnOk result (Keeps (D.unread device.old) (prepend_known self.new (D.unread device.new))) }
        ensures end { IfOk result (λ more. more ≡ false → (self.new ≡ []) × IsAtEnd (D.unread device.new)) }
        ensures written { Keeps (D.written device.old) (D.written device.new) }
        ensures count { Counts (D.failures device.old) (D.failures device.new) result }
        ensures earlier { OnOk result (D.earlier device.new ≡ D.earlier device.old + D.latest device.old) }
        ensures asked { (D.earlier device.new ≡ D.earlier device.old) ⊎ (D.earlier device.new ≡ D.earlier device.old + D.latest device.old) }
        ensures latest { OnOk result (D.latest device.new ≡ length self.new) }
    {
        device.flush()?;
        let n = device.read(&mut self.buf)?;
        self.start = 0;
        self.end = n;
        Ok(n > 0)
    }

    // Gives the line what is there of it, and says whether it ends.
    fn give(&mut self, line: &mut Gathered) -> bool
        ensures { TakesFront self.old self.new line.old line.new result }
    {
        let rest = &self.buf[self.start..self.end];
        match first(rest, b'\n') {
            Some(i) => {
                line.add(&rest[..i]);
                self.start += i + 1;
                true
            }
            None => {
                line.add(rest);
                self.start = self.end;
                false
            }
        }
    }

    /// Reads the next line, none at the end of the input. It fails only where a read does, which is then the last
    /// call; what was read of the line is lost. Each byte is copied twice, whatever the length of the line. The line takes
    /// the place of what stood in `spare`, and its memory.
    pub fn next_line<R: Wait, D: Device>(
        &mut self,
        rt: &R,
        spare: Vec<u8>,
        device: &mut D,
    ) -> Result<Option<Line>, Broken>
        // The device may be read where all is handed on, nothing more was written, and what is there of the line has no line feed.
        requires ask { (d : D) → D.held d ≡ [] → Keeps (D.written device.old) (D.written d)
            → AsksForMore self.old (prepend_known self.old (D.unread device.old)) (D.earlier device.old + D.latest device.old) (D.earlier d + D.latest d)
            → D.may_read d }
        ensures line { IfOk result (λ line. IsNextLine line
            (prepend_known self.old (D.unread device.old)) (prepend_known self.new (D.unread device.new))) }
        ensures written { Keeps (D.written device.old) (D.written device.new) }
        ensures count { Counts (D.failures device.old) (D.failures device.new) result }

        // It reads only while what is there of the line has no line feed.
        ensures asks { AsksAtNeed self.old (prepend_known self.old (D.unread device.old))
            (D.earlier device.old + D.latest device.old) (D.earlier device.old) (D.earlier device.new) }
        ensures given { OnOk result (CountsGiven (D.unread device.old) (D.unread device.new)
            (D.earlier device.old + D.latest device.old) (D.earlier device.new + D.latest device.new)) }
    {
        let mut line = Gathered::new(spare);
        for _ in rt.forever() {
            if self.is_empty() && !self.fill(device)? {
                return Ok(finish(line, false));
            }
            if self.give(&mut line) {
                return Ok(finish(line, true));
            }
        }
        unreachable!()
    }
}
