// The clauses that a call tries, in order.
ghost use Rattle.std.specs.Prelude.{◌≡◌, [], ◌∷◌, IfSome, IfNone};

use std::marker::Model;

/// The numbers of clauses in order, taken one after another. Contracts see those that are left.
pub struct Candidates<'a> {
    // the clauses that have the value of the call in the first place
    pub(crate) valued: &'a [u32],
    // the clauses that have no value there
    pub(crate) unvalued: &'a [u32],
}

impl<'a> Drop for Candidates<'a> {
    fn drop(self) {
        let Candidates {
            valued: _valued,
            unvalued: _unvalued,
        } = self;
    }
}

impl<'a> Model for Candidates<'a> {
    ghost use Rattle.std.specs.Prelude.{List, ℕ};
    ghost use Rattle.std.specs.Coded.{coded_list, coded_ℕ};
    ghost use Rattle.ghc_flat.specs.Numbers.{merged};

    ghost Value = { List ℕ };

    ghost coded = { coded_list coded_ℕ };

    ghost view = { λ c. merged c.valued.now c.unvalued.now };
}

impl<'a> Candidates<'a> {
    // All of these.
    pub(crate) fn all(numbers: &'a [u32]) -> Candidates<'a>
        ensures { result ≡ numbers.now }
    {
        Candidates {
            valued: numbers,
            unvalued: &[],
        }
    }

    /// Takes the least number that is left, if one is: one step.
    #[inline(always)]
    pub fn pop_least(&mut self) -> Option<u32>
        ensures least { IfSome result (λ k. self.old ≡ k ∷ self.new) }
        ensures none { IfNone result (self.old ≡ []) }
    {
        let [number, valued @ ..] = self.valued else {
            let [other, unvalued @ ..] = self.unvalued else {
                return None;
            };
            self.unvalued = unvalued;
            return Some(*other);
        };
        if let [other, unvalued @ ..] = self.unvalued {
            if other < number {
                self.unvalued = unvalued;
                return Some(*other);
            }
        }
        self.valued = valued;
        Some(*number)
    }
}
