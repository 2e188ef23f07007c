// How many submits the workers of a round may make together.
ghost use Rattle.std.specs.Prelude.{◌≡◌, ℕ, ◌+◌, ◌<◌, ◌≤◌};
ghost use Rattle.ghc_pool.specs.inner.Fair.{most_permits};

use std::marker::Brand;
use std::sync::ledger::{Book, Ledger, Share};

/// How many submits the limit allows.
pub trait Limited: Ledger {
    ghost limit: { ℕ };
}

impl Limited for Brand {
    ghost limit = { 0 };
}

// Where as many permits are left, several are given at once.
const MANY: u64 = 4096;

// How many permits are given at once, where many are left.
const MOST: u64 = 32;

// How many permits are given at once where so many are left: several where they are many, else one, so that each worker gets some.
fn given_at_once(left: u64) -> u64
    ensures there { result ≤ left }
    ensures few { result ≤ most_permits }
    ensures none { result ≡ 0 → left ≡ 0 }
{
    if left >= MANY {
        return MOST;
    }
    if left > 0 {
        return 1;
    }
    0
}

// The permits that were given, and how many may still be given: one for each submit that the limit allows.
#[derive(Drop)]
pub struct Budget<L: Limited> {
    left: u64,
    made: Book<L>,
    ghost counted: { made.total + left ≡ L.limit },
}

impl<L: Limited> Budget<L> {
    // As many as the limit allows.
    pub fn new(limit: u64, made: Book<L>) -> Budget<L>
        requires { (limit ≡ L.limit) × (made.total ≡ 0) }
    {
        Budget { left: limit, made }
    }

    // Gives permits, and counts them: as many as are given at once, or none where none is left.
    pub fn permits(&mut self, mine: &mut Share<L>) -> u64
        requires { 0 < mine.old.parts }
        ensures parts { mine.new.parts ≡ mine.old.parts }
        ensures amount { mine.new.amount ≡ mine.old.amount + result }
        ensures few { result ≤ most_permits }
        ensures none { result ≡ 0 → self.new.left ≡ 0 }
    {
        let given = given_at_once(self.left);
        let Budget { left, made } = self;
        made.add(mine, given);
        *left -= given;
        given
    }

    // How many permits were not given.
    pub fn close(self, all: &mut Share<L>) -> u64
        requires { all.old.parts ≡ L.parts }
        ensures amount { all.new.amount + result ≡ L.limit }
        ensures same { all.new.amount ≡ all.old.amount }
        ensures left { result ≡ self.left }
    {
        let Budget { left, mut made } = self;
        made.audit(all);
        left
    }
}
