// The counts of a device, without a bound. Of them the last read's, and whether a call failed, alone take memory when the program
// runs.
ghost use Rattle.std.specs.Prelude.{◌≡◌, ℕ, ◌+◌, ◌<◌, nat_lt};

use crate::devices::device::Broken;
use std::marker::Model;
use std::sync::ledger::{Blank, Book, Ledger, Share};

/// How many calls failed, how many bytes the last read gave, and how many those before it.
#[derive(Drop)]
pub struct CallCounts<L: Ledger> {
    book: Book<L>,
    failed: Share<L>,
    earlier: Share<L>,
    latest: usize,
    has_failed: bool,
}

impl<L: Ledger> Model for CallCounts<L> {
    ghost use Rattle.std.specs.Prelude.{◌≡◌, ◌<◌, nat_lt};
    ghost use Rattle.ghc_console.specs.inner.Device.{Counted};

    ghost Value = { Counted };

    ghost view = { λ t. record { failures = t.failed.amount; earlier = t.earlier.amount; latest = t.latest } };

    ghost invariant = { λ t. (0 < t.failed.parts) × (0 < t.earlier.parts) × (t.has_failed ≡ nat_lt 0 t.failed.amount) };
}

impl<L: Ledger> CallCounts<L> {
    /// No call yet. The blank is of the ledger that the type names, which has two parts or more.
    pub fn new(blank: Blank) -> CallCounts<L>
        requires blank { (blank.name ≡ L.name) × (blank.parts ≡ L.parts) × (1 < L.parts) }
        ensures { result ≡ record { failures = 0; earlier = 0; latest = 0 } }
    {
        let (book, mut failed) = blank.open::<L>();
        let earlier = failed.split_off(1, 0);
        CallCounts {
            book,
            failed,
            earlier,
            latest: 0,
            has_failed: false,
        }
    }

    /// Whether a call has failed.
    pub fn has_failed(&self) -> bool
        ensures { result ≡ nat_lt 0 self.now.failures }
    {
        self.has_failed
    }

    /// Counts a failure.
    pub fn fail(&mut self) -> Broken
        ensures { self.new ≡ record { failures = self.old.failures + 1; earlier = self.old.earlier; latest = self.old.latest } }
    {
        self.book.add(&mut self.failed, 1);
        self.has_failed = true;
        Broken
    }

    /// Counts a read, which has not given a byte yet.
    pub fn ask(&mut self)
        ensures { self.new ≡ record { failures = self.old.failures; earlier = self.old.earlier + self.old.latest; latest = 0 } }
    {
        self.book.add(&mut self.earlier, self.latest as u64);
        self.latest = 0;
    }

    /// Counts what the last read gave.
    pub fn gave(&mut self, bytes: usize)
        ensures { self.new ≡ record { failures = self.old.failures; earlier = self.old.earlier; latest = bytes } }
    {
        self.latest = bytes;
    }
}
