// Counts of what was fired and tried.
ghost use Rattle.std.specs.Prelude.{◌≡◌};
ghost use Rattle.ghc_fire.specs.Meter.{fired, tried};

/// How many firings and how many tries there were. A count stops at the greatest u64.
#[derive(Clone, Copy)]
pub struct Meter {
    firings: u64,
    tries: u64,
}

impl Meter {
    /// Nothing counted yet.
    pub fn new() -> Meter
        ensures firings { result.firings ≡ 0 }
        ensures tries { result.tries ≡ 0 }
    {
        Meter {
            firings: 0,
            tries: 0,
        }
    }

    /// How many firings were counted.
    pub fn firings(&self) -> u64
        ensures { result ≡ self.now.firings }
    {
        self.firings
    }

    /// How many tries were counted.
    pub fn tries(&self) -> u64
        ensures { result ≡ self.now.tries }
    {
        self.tries
    }

    /// Counts a firing.
    pub fn count_firing(&mut self)
        ensures { self.new ≡ fired self.old }
    {
        self.firings = self.firings.saturating_add(1);
    }

    /// Counts a try.
    pub fn count_try(&mut self)
        ensures { self.new ≡ tried self.old }
    {
        self.tries = self.tries.saturating_add(1);
    }
}
