// The numbers of the steps that a text tells, each once.
ghost use Rattle.std.specs.Prelude.{◌≡◌, ◌↔◌, ◌⊎◌, [], ℕ, true, false, IfOk, OnOk, OnErr};
ghost use Rattle.ghc_term.specs.Lists.{In};

use crate::table::rising::is_above;
use std::alloc::{AllocError, Global};
use std::collections::BTreeSet;
use std::marker::Model;

// Numbers of steps, each once. One that is greater than all before it goes to the end of a list, and each other into a tree. In most
// texts all numbers rise.
pub(crate) struct StepNumbers {
    rising: Vec<u32>,
    others: BTreeSet<u32>,
}

impl Drop for StepNumbers {
    fn drop(self) {
        let StepNumbers {
            rising: _rising,
            others: _others,
        } = self;
    }
}

impl Model for StepNumbers {
    ghost use Rattle.std.specs.Prelude.{ℕ, List, ◌++◌};
    ghost use Rattle.ghc_records.specs.inner.NumberSet.{IsRising};
    ghost use Rattle.ghc_records.specs.inner.StepNumbers.{ArePassed};
    ghost use Rattle.ghc_records.specs.inner.RecordCode.{numbers_code};

    ghost Value = { List ℕ };

    ghost coded = { numbers_code };

    ghost view = { λ s. s.rising.items ++ s.others.keys };

    ghost invariant = { λ s. IsRising s.rising.items × ArePassed s.rising.items s.others.keys };
}

// Puts a number into the tree, and says whether it is none of those there: a search among n numbers, log n whatever they are.
fn put_other(others: &mut BTreeSet<u32>, number: u32) -> Result<bool, AllocError>
    ensures new { IfOk result (λ new. new ≡ true → ¬ In number others.old.keys) }
    ensures known { IfOk result (λ new. new ≡ false → In number others.old.keys) }
    ensures keys { OnOk result ((n : ℕ) → In n others.new.keys ↔ (In n others.old.keys ⊎ (n ≡ number))) }
    ensures stays { OnErr result (others.new.keys ≡ others.old.keys) }
{
    match others.insert(number) {
        Ok(new) => Ok(new),
        Err(_) => Err(AllocError),
    }
}

impl StepNumbers {
    // No numbers, which take no memory.
    pub(crate) fn new(alloc: Global) -> StepNumbers
        ensures { result ≡ [] }
    {
        StepNumbers {
            rising: Vec::new(alloc),
            others: BTreeSet::new(alloc),
        }
    }

    // Puts a number among the others, and says whether it is none of them. One that is greater than all of them takes one step. Another
    // takes a search among n numbers, log n whatever they are.
    pub(crate) fn add(&mut self, number: u32) -> Result<bool, AllocError>
        ensures new { IfOk result (λ new. new ≡ true → ¬ In number self.old) }
        ensures numbers { IfOk result (λ new. new ≡ true → (n : ℕ) → In n self.new ↔ (In n self.old ⊎ (n ≡ number))) }
        ensures known { IfOk result (λ new. new ≡ false → In number self.old) }
    {
        if is_above(self.rising.as_slice(), number) {
            self.rising.push(number)?;
            return Ok(true);
        }
        if let Ok(_) = self.rising.binary_search(&number) {
            return Ok(false);
        }
        let new = put_other(&mut self.others, number)?;
        Ok(new)
    }
}
