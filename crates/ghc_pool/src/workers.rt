// How many workers make a run.
ghost use Rattle.std.specs.Prelude.{◌≡◌, ◌<◌, ◌≤◌, IfSome, IfNone};

use std::marker::Model;

/// How many workers make a run: 1 to 64. Contracts see the number.
#[derive(Clone, Copy, Drop)]
pub struct Workers {
    count: u32,
}

impl Model for Workers {
    ghost use Rattle.std.specs.Prelude.{ℕ, ◌<◌, ◌≤◌};

    ghost Value = { ℕ };

    ghost view = { λ w. w.count };

    ghost inverse = { λ n. record { count = n } };

    ghost invariant = { λ w. (0 < w.count) × (w.count ≤ 64) };
}

impl Workers {
    /// One worker.
    pub fn one() -> Workers
        ensures { result ≡ 1 }
    {
        Workers { count: 1 }
    }

    /// So many workers; none where the count is 0 or more than 64.
    pub fn new(count: u32) -> Option<Workers>
        ensures some { IfSome result (λ workers. workers ≡ count) }
        ensures none { IfNone result ((0 < count) → (count ≤ 64) → ⊥) }
    {
        if count == 0 || count > 64 {
            return None;
        }
        Some(Workers { count })
    }

    /// How many they are.
    pub fn count(self) -> usize
        ensures count { result ≡ self }
        ensures some { (0 < self) × (self ≤ 64) }
    {
        self.count as usize
    }

    // The same, as the number of passes that they need.
    pub(crate) fn passes(self) -> u32
        ensures count { result ≡ self }
        ensures some { (0 < self) × (self ≤ 64) }
    {
        self.count
    }
}
