// A device over memory, for tests.
ghost use Rattle.std.specs.Prelude.{◌≡◌, ℕ, ◌+◌, ◌<◌, ◌≤◌, true, false, not, min, [], List, length, take, drop, ◌++◌, Ok, IfOk, is_ok, Some, vec_len};
ghost use Rattle.std.specs.Io.{StopsAt, ReadsAtMost, WritesAtMost};
ghost use Rattle.std.specs.Io.KnownBytes.{Keeps, ReadConsumes, WriteAppends};
ghost use Rattle.ghc_console.specs.inner.Device.{Counts, EndsWith, Gives};
ghost use Rattle.ghc_console.specs.inner.Script.{after_call, fails_next};

use crate::devices::call_counts::CallCounts;
use crate::devices::device::{Broken, Device};
use std::alloc::Global;
use std::marker::Model;
use std::sync::ledger::{Blank, Ledger};

/// A device over memory. Its reads stop after a line feed, and the call that was chosen fails; so does a write that
/// finds no memory.
#[derive(Drop)]
pub struct Script<L: Ledger> {
    input: Vec<u8>,
    at: usize,
    output: Vec<u8>,
    fails_after: Option<u64>,
    calls: CallCounts<L>,
}

impl<L: Ledger> Model for Script<L> {
    ghost use Rattle.std.specs.Prelude.{ℕ, ◌≤◌, drop, vec_len};
    ghost use Rattle.ghc_console.specs.inner.Script.{ScriptValue};

    ghost Value = { ScriptValue };

    ghost view = { λ s. record {
      unread = drop s.at s.input.items;
      written = s.output.items;
      failures = s.calls.failures;
      earlier = s.calls.earlier;
      latest = s.calls.latest;
      fails_after = s.fails_after;
    } };

    ghost invariant = { λ s. s.at ≤ vec_len s.input };
}

// How many of the bytes one read gives: at most `room`, and none after a line feed.
fn front_len(bytes: &[u8], room: usize) -> usize
    ensures bound { (result ≤ length bytes.now) × (result ≤ room) }
    ensures some { result ≡ 0 → (0 < room) → bytes.now ≡ [] }
    ensures stops { StopsAt (take result bytes.now) 10 }
{
    for (i, byte) in bytes.iter().enumerate() {
        if i >= room {
            return i;
        }
        if *byte == b'\n' {
            return i + 1;
        }
    }
    bytes.len()
}

// Gives a front of the bytes, and says how many.
fn give(bytes: &[u8], buf: &mut [u8]) -> usize
    ensures bound { ReadsAtMost {E = Unit {0}} (Ok result) buf.new }
    ensures few { result ≤ length bytes.now }
    ensures given { bytes.now ≡ take result buf.new ++ drop result bytes.now }
    ensures some { result ≡ 0 → 0 < length buf.new → drop result bytes.now ≡ [] }
    ensures stops { StopsAt (take result buf.new) 10 }
{
    let n = front_len(bytes, buf.len());
    buf[..n].copy_from_slice(&bytes[..n]);
    n
}

impl<L: Ledger> Script<L> {
    /// A device that gives this input. The call after the first `fails_after` calls fails, if that is given.
    pub fn new(alloc: Global, input: Vec<u8>, fails_after: Option<u64>, blank: Blank) -> Script<L>
        requires blank { (blank.name ≡ L.name) × (blank.parts ≡ L.parts) × (1 < L.parts) }
        ensures { result ≡ record { unread = input.items; written = []; failures = 0; earlier = 0; latest = 0; fails_after = fails_after } }
    {
        Script {
            input,
            at: 0,
            output: Vec::new(alloc),
            fails_after,
            calls: CallCounts::new(blank),
        }
    }

    /// What was written.
    pub fn output(&self) -> &[u8]
        ensures { result.now ≡ self.now.written }
    {
        self.output.as_slice()
    }

    // Counts the call, and says whether it is the one that fails.
    fn is_due(&mut self) -> bool
        ensures due { result ≡ fails_next self.old.fails_after }
        ensures counted { self.new.fails_after ≡ after_call self.old.fails_after }
        ensures unread { self.new.unread ≡ self.old.unread }
        ensures written { self.new.written ≡ self.old.written }
        ensures failures { self.new.failures ≡ self.old.failures }
        ensures earlier { self.new.earlier ≡ self.old.earlier }
        ensures latest { self.new.latest ≡ self.old.latest }
    {
        match self.fails_after {
            Some(0) => {
                self.fails_after = None;
                true
            }
            Some(n) => {
                self.fails_after = Some(n - 1);
                false
            }
            None => false,
        }
    }
}

impl<L: Ledger> Device for Script<L> {
    ghost use Rattle.std.specs.Prelude.{Some, [], ⊤};

    ghost unread = { λ s. Some s.unread };

    ghost written = { λ s. Some s.written };

    ghost held = { λ s. [] };

    ghost failures = { λ s. s.failures };

    ghost latest = { λ s. s.latest };

    ghost earlier = { λ s. s.earlier };

    /// Anywhere.
    ghost may_read = { λ s. ⊤ };

    /// As `Device` has it; it fails exactly where its turn has come, and gives no byte after a line feed.
    fn read(&mut self, buf: &mut [u8]) -> Result<usize, Broken>
        ensures bound { ReadsAtMost result buf.new }
        ensures bytes { ReadConsumes (Some self.old.unread) (Some self.new.unread) result buf.new }
        ensures tail { EndsWith (Some self.new.written) [] }
        ensures written { Keeps (Some self.old.written) (Some self.new.written) }
        ensures count { Counts self.old.failures self.new.failures result }
        ensures earlier { self.new.earlier ≡ self.old.earlier + self.old.latest }
        ensures latest { Gives self.new.latest result }
        ensures due { is_ok result ≡ not (fails_next self.old.fails_after) }
        ensures counted { self.new.fails_after ≡ after_call self.old.fails_after }
        ensures stops { IfOk result (λ n. StopsAt (take n buf.new) 10) }
    {
        self.calls.ask();
        if self.is_due() {
            return Err(self.calls.fail());
        }
        let n = give(&self.input[self.at..], buf);
        self.at += n;
        self.calls.gave(n);
        Ok(n)
    }

    /// As `Device` has it; it takes all, or fails, which it does where its turn has come, or no memory is left.
    fn write(&mut self, bytes: &[u8]) -> Result<usize, Broken>
        ensures bound { WritesAtMost result bytes.now }
        ensures some { 0 < length bytes.now → IfOk result (λ n. 0 < n) }
        ensures bytes { WriteAppends (Some self.old.written) (Some self.new.written) result bytes.now }
        ensures tail { EndsWith (Some self.new.written) [] }
        ensures unread { Keeps (Some self.old.unread) (Some self.new.unread) }
        ensures count { Counts self.old.failures self.new.failures result }
        ensures earlier { self.new.earlier ≡ self.old.earlier }
        ensures latest { self.new.latest ≡ self.old.latest }
        ensures due { fails_next self.old.fails_after ≡ true → is_ok result ≡ false }
        ensures counted { self.new.fails_after ≡ after_call self.old.fails_after }
        ensures all { IfOk result (λ n. n ≡ length bytes.now) }
    {
        if self.is_due() || self.output.extend_from_slice(bytes).is_err() {
            return Err(self.calls.fail());
        }
        Ok(bytes.len())
    }

    /// As `Device` has it; it holds nothing back, so there is nothing to do.
    fn flush(&mut self) -> Result<(), Broken>
        ensures tail { EndsWith (Some self.new.written) [] }
        ensures unread { Keeps (Some self.old.unread) (Some self.new.unread) }
        ensures written { Keeps (Some self.old.written) (Some self.new.written) }
        ensures count { Counts self.old.failures self.new.failures result }
        ensures earlier { self.new.earlier ≡ self.old.earlier }
        ensures latest { self.new.latest ≡ self.old.latest }
        ensures counted { self.new.fails_after ≡ self.old.fails_after }
    {
        Ok(())
    }
}
