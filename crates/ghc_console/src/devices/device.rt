// What a session reads from and writes to.
ghost use Rattle.std.specs.Prelude.{◌≡◌, ℕ, ◌+◌, ◌<◌, List, [], Option, length, IfOk, OnOk};
ghost use Rattle.std.specs.Io.{ReadsAtMost, WritesAtMost};
ghost use Rattle.std.specs.Io.KnownBytes.{Keeps, ReadConsumes, WriteAppends};
ghost use Rattle.ghc_console.specs.inner.Device.{Counts, EndsWith, Gives};

/// A call of a device failed.
#[derive(Clone, Copy, Debug, PartialEq, Eq)]
pub struct Broken;

/// A source of bytes and a sink for bytes. What it tells of them is known or not; its failures are counted.
pub trait Device {
    /// The bytes that reads will give from here on, where they are known.
    ghost unread: { Self → Option (List ℕ) };

    /// The bytes that were written, where they are known.
    ghost written: { Self → Option (List ℕ) };

    /// Those of the bytes written that it still holds back, which are the last of them.
    ghost held: { Self → List ℕ };

    /// How many calls have failed.
    ghost failures: { Self → ℕ };

    /// How many bytes the last read gave.
    ghost latest: { Self → ℕ };

    /// How many bytes the reads before it gave.
    ghost earlier: { Self → ℕ };

    /// Where it may be read.
    ghost may_read: { Self → Type 0 };

    /// Gives some of the bytes that are left, and none only at their end. A failed call takes no byte.
    fn read(&mut self, buf: &mut [u8]) -> Result<usize, Broken>
        requires { may_read self.old }
        ensures bound { ReadsAtMost result buf.new }
        ensures bytes { ReadConsumes (unread self.old) (unread self.new) result buf.new }
        ensures tail { EndsWith (written self.new) (held self.new) }
        ensures written { Keeps (written self.old) (written self.new) }
        ensures count { Counts (failures self.old) (failures self.new) result }
        ensures earlier { earlier self.new ≡ earlier self.old + latest self.old }
        ensures latest { Gives (latest self.new) result };

    /// Takes a front of the bytes, a byte or more where there is one. A failed call takes none.
    fn write(&mut self, bytes: &[u8]) -> Result<usize, Broken>
        ensures bound { WritesAtMost result bytes.now }
        ensures some { 0 < length bytes.now → IfOk result (λ n. 0 < n) }
        ensures bytes { WriteAppends (written self.old) (written self.new) result bytes.now }
        ensures tail { EndsWith (written self.new) (held self.new) }
        ensures unread { Keeps (unread self.old) (unread self.new) }
        ensures count { Counts (failures self.old) (failures self.new) result }
        ensures earlier { earlier self.new ≡ earlier self.old }
        ensures latest { latest self.new ≡ latest self.old };

    /// Hands on what it holds back.
    fn flush(&mut self) -> Result<(), Broken>
        ensures held { OnOk result (held self.new ≡ []) }
        ensures tail { EndsWith (written self.new) (held self.new) }
        ensures unread { Keeps (unread self.old) (unread self.new) }
        ensures written { Keeps (written self.old) (written self.new) }
        ensures count { Counts (failures self.old) (failures self.new) result }
        ensures earlier { earlier self.new ≡ earlier self.old }
        ensures latest { latest self.new ≡ latest self.old };
}
