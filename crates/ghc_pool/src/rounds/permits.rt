// The permits to submit that are left when the threads have ended.
ghost use Rattle.std.specs.Prelude.{◌≡◌, ◌+◌, ◌<◌, MatchBool};

use crate::rounds::budget::{Budget, Limited};
use std::sync::ledger::Share;

// The budget, with all shares of it together, and how many of the permits given were not used.
#[derive(Drop)]
pub struct Permits<L: Limited> {
    pub budget: Budget<L>,
    pub share: Share<L>,
    pub spare: u64,
}

impl<L: Limited> Permits<L> {
    // Whether there is one that is not used, where one is asked for.
    pub fn are_there(&mut self) -> bool
        requires { 0 < self.old.share.parts }
        ensures parts { self.new.share.parts ≡ self.old.share.parts }
        ensures one { MatchBool result (0 < self.new.spare) ((self.new.spare ≡ 0) × (self.new.budget.left ≡ 0)) }
        ensures counted { self.new.share.amount + self.old.spare ≡ self.old.share.amount + self.new.spare }
    {
        if self.spare > 0 {
            return true;
        }
        let Permits {
            budget,
            share,
            spare,
        } = self;
        *spare = budget.permits(share);
        if *spare == 0 {
            return false;
        }
        true
    }
}
