// A device over any reader and writer.
ghost use Rattle.std.specs.Prelude.{◌≡◌, ◌<◌, [], length, IfOk, OnOk, ◌+◌};
ghost use Rattle.std.specs.Io.{ReadsAtMost, WritesAtMost};
ghost use Rattle.std.specs.Io.Buffered.{writer_buffer, writer_contents, writer_inner};
ghost use Rattle.std.specs.Io.KnownBytes.{Keeps, ReadConsumes, WriteAppends, append_known};
ghost use Rattle.ghc_console.specs.inner.Device.{Counts, EndsWith, Gives, StaysBroken};

use crate::devices::call_counts::CallCounts;
use crate::devices::device::{Broken, Device};
use std::io::{BufWriter, ErrorKind, Read, Write};
use std::marker::Model;
use std::sync::ledger::{Blank, Ledger};

/// A device over a reader and a writer, with a buffer for what is written. The buffer is emptied before each read. Once a call has
/// failed, each call does, and nothing more is handed on; nor is it where the device is dropped.
pub struct Lines<R: Read, W: Write + Drop, L: Ledger> {
    reader: R,
    writer: BufWriter<W>,
    calls: CallCounts<L>,
}

impl<R: Read, W: Write + Drop, L: Ledger> Model for Lines<R, W, L> {
    ghost use Rattle.std.specs.Io.Buffered.{writer_buffer, writer_contents, writer_inner};
    ghost use Rattle.ghc_console.specs.inner.Device.{LinesValue};

    ghost Value = { LinesValue };

    ghost view = { λ d. record {
      unread = R.remaining d.reader;
      written = writer_contents W.contents d.writer;
      held = writer_buffer d.writer;
      handed = W.contents (writer_inner d.writer);
      failures = d.calls.failures;
      earlier = d.calls.earlier;
      latest = d.calls.latest;
    } };
}

// Reads, and reads again where the system was interrupted.
fn read_some<R: Read>(reader: &mut R, buf: &mut [u8]) -> Result<usize, Broken>
    ensures bound { ReadsAtMost result buf.new }
    ensures bytes { ReadConsumes (R.remaining reader.old) (R.remaining reader.new) result buf.new }
{
    for _ in 0..u64::MAX {
        match reader.read(buf) {
            Ok(n) => return Ok(n),
            Err(e) => {
                if e.kind() != ErrorKind::Interrupted {
                    return Err(Broken);
                }
            }
        }
    }
    Err(Broken)
}

// Writes, and writes again where the system was interrupted. A writer that takes nothing has failed.
fn write_some<W: Write>(writer: &mut W, bytes: &[u8]) -> Result<usize, Broken>
    ensures bound { WritesAtMost result bytes.now }
    ensures some { 0 < length bytes.now → IfOk result (λ n. 0 < n) }
    ensures bytes { WriteAppends (W.contents writer.old) (W.contents writer.new) result bytes.now }
{
    for _ in 0..u64::MAX {
        match writer.write(bytes) {
            Ok(n) => {
                if n == 0 && !bytes.is_empty() {
                    return Err(Broken);
                }
                return Ok(n);
            }
            Err(e) => {
                if e.kind() != ErrorKind::Interrupted {
                    return Err(Broken);
                }
            }
        }
    }
    Err(Broken)
}

// Empties the buffer into its writer. It has failed where something is left.
fn hand_on<W: Write + Drop>(writer: &mut BufWriter<W>) -> Result<(), Broken>
    ensures held { OnOk result (writer_buffer writer.new ≡ []) }
    ensures bytes { Keeps (writer_contents W.contents writer.old) (writer_contents W.contents writer.new) }
{
    match writer.flush() {
        Ok(()) if writer.buffer().is_empty() => Ok(()),
        _ => Err(Broken),
    }
}

impl<R: Read, W: Write + Drop, L: Ledger> Lines<R, W, L> {
    /// A device over these two, with no call yet.
    pub fn new(reader: R, writer: BufWriter<W>, blank: Blank) -> Lines<R, W, L>
        requires blank { (blank.name ≡ L.name) × (blank.parts ≡ L.parts) × (1 < L.parts) }
        ensures { result ≡ record { unread = R.remaining reader; written = writer_contents W.contents writer; held = writer_buffer writer; handed = W.contents (writer_inner writer); failures = 0; earlier = 0; latest = 0 } }
    {
        Lines {
            reader,
            writer,
            calls: CallCounts::new(blank),
        }
    }

    /// The reader, and the writer of the buffer. What the buffer holds is not handed on.
    pub fn into_parts(self) -> (R, W)
        ensures reader { R.remaining result.0 ≡ self.unread }
        ensures writer { W.contents result.1 ≡ self.handed }
        ensures held { self.written ≡ append_known self.handed self.held }
    {
        let Lines {
            reader,
            writer,
            calls: _,
        } = self;
        let (writer, _) = writer.into_parts();
        (reader, writer)
    }
}

// A buffered writer that is dropped hands its buffer on, so it is taken apart.
impl<R: Read + Drop, W: Write + Drop, L: Ledger> Drop for Lines<R, W, L> {
    fn drop(self) {
        let (_, _) = self.into_parts();
    }
}

impl<R: Read, W: Write + Drop, L: Ledger> Device for Lines<R, W, L> {
    ghost unread = { λ d. d.unread };

    ghost written = { λ d. d.written };

    ghost held = { λ d. d.held };

    ghost failures = { λ d. d.failures };

    ghost latest = { λ d. d.latest };

    ghost earlier = { λ d. d.earlier };

    /// Nothing is held back.
    ghost may_read = { λ d. d.held ≡ [] };

    /// As `Device` has it; where a call has failed before, it fails, and hands nothing on.
    fn read(&mut self, buf: &mut [u8]) -> Result<usize, Broken>
        requires { self.old.held ≡ [] }
        ensures bound { ReadsAtMost result buf.new }
        ensures bytes { ReadConsumes self.old.unread self.new.unread result buf.new }
        ensures tail { EndsWith self.new.written self.new.held }
        ensures written { Keeps self.old.written self.new.written }
        ensures count { Counts self.old.failures self.new.failures result }
        ensures earlier { self.new.earlier ≡ self.old.earlier + self.old.latest }
        ensures latest { Gives self.new.latest result }
        ensures broken { StaysBroken self.old.failures self.old.handed self.new.handed result }
    {
        self.calls.ask();
        if self.calls.has_failed() {
            return Err(self.calls.fail());
        }
        match read_some(&mut self.reader, buf) {
            Ok(n) => {
                self.calls.gave(n);
                Ok(n)
            }
            Err(Broken) => Err(self.calls.fail()),
        }
    }

    /// As `Device` has it; where a call has failed before, it fails, and hands nothing on.
    #[inline(always)]
    fn write(&mut self, bytes: &[u8]) -> Result<usize, Broken>
        ensures bound { WritesAtMost result bytes.now }
        ensures some { 0 < length bytes.now → IfOk result (λ n. 0 < n) }
        ensures bytes { WriteAppends self.old.written self.new.written result bytes.now }
        ensures tail { EndsWith self.new.written self.new.held }
        ensures unread { Keeps self.old.unread self.new.unread }
        ensures count { Counts self.old.failures self.new.failures result }
        ensures earlier { self.new.earlier ≡ self.old.earlier }
        ensures latest { self.new.latest ≡ self.old.latest }
        ensures broken { StaysBroken self.old.failures self.old.handed self.new.handed result }
    {
        if self.calls.has_failed() {
            return Err(self.calls.fail());
        }
        match write_some(&mut self.writer, bytes) {
            Ok(n) => Ok(n),
            Err(Broken) => Err(self.calls.fail()),
        }
    }

    /// As `Device` has it; where a call has failed before, it fails, and hands nothing on.
    fn flush(&mut self) -> Result<(), Broken>
        ensures held { OnOk result (self.new.held ≡ []) }
        ensures tail { EndsWith self.new.written self.new.held }
        ensures unread { Keeps self.old.unread self.new.unread }
        ensures written { Keeps self.old.written self.new.written }
        ensures count { Counts self.old.failures self.new.failures result }
        ensures earlier { self.new.earlier ≡ self.old.earlier }
        ensures latest { self.new.latest ≡ self.old.latest }
        ensures broken { StaysBroken self.old.failures self.old.handed self.new.handed result }
    {
        if self.calls.has_failed() {
            return Err(self.calls.fail());
        }
        match hand_on(&mut self.writer) {
            Ok(()) => Ok(()),
            Err(Broken) => Err(self.calls.fail()),
        }
    }
}
