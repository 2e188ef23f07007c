// The rule of a worker's deque.
use crossbeam_deque::protocol::{Join, Outcome, Protocol, Split};
use crossbeam_deque::{Pass as AnyPass, Stealer, Worker};
use ghc_term::GoalName;
use std::alloc::Global;
use std::collections::LinkedList;

/// What a pass has put and got, and its parts of the right to know the whole. No value of it is made.
pub struct Hand {
    pub parts: u64,
    pub put: LinkedList<GoalName>,
    pub got: LinkedList<GoalName>,
}

/// What was put is what was got and what the deque holds.
pub struct Fair;

impl Protocol<GoalName, Hand> for Fair {
    ghost use Rattle.std.specs.Prelude.{[]};
    ghost use Rattle.ghc_pool.specs.inner.Fair.{hand, all_parts, Balanced};

    ghost holds = { Balanced };

    ghost first = { hand all_parts [] [] };

    ghost guest = { hand 0 [] [] };
}

/// The owner offers.
pub struct Offers;

impl Outcome<GoalName, Hand> for Offers {
    ghost use Rattle.std.specs.Prelude.{◌≡◌, ◌++◌};
    ghost use Rattle.ghc_pool.specs.inner.Fair.{hand};

    ghost then = { λ v xs w. w ≡ hand v.parts (v.put ++ xs) v.got };
}

/// The owner takes, or a thief steals.
pub struct Takes;

impl Outcome<GoalName, Hand> for Takes {
    ghost use Rattle.std.specs.Prelude.{◌≡◌, ◌++◌};
    ghost use Rattle.ghc_pool.specs.inner.Fair.{hand};

    ghost then = { λ v xs w. w ≡ hand v.parts v.put (v.got ++ xs) };
}

/// Who has all parts takes: no more was got than was put, and where nothing is found all was got.
pub struct TakesLast;

impl Outcome<GoalName, Hand> for TakesLast {
    ghost use Rattle.std.specs.Prelude.{◌≡◌, ◌≤◌, ◌++◌, ℕ, length};
    ghost use Rattle.ghc_term.specs.declared.goal_name.GoalName.{GoalName as goal_name};
    ghost use Rattle.ghc_pool.specs.inner.Fair.{hand, weigh};

    ghost then = { λ v xs w. (w ≡ hand v.parts v.put (v.got ++ xs)) × (length w.got ≤ length w.put) };

    ghost empty = { λ v. (h : goal_name → ℕ) → weigh h v.put ≡ weigh h v.got };
}

/// A part goes to a thief, and comes back with what the thief got.
pub struct Part;

impl Split<Hand> for Part {
    ghost use Rattle.std.specs.Prelude.{◌-◌, []};
    ghost use Rattle.ghc_pool.specs.inner.Fair.{hand};

    ghost left = { λ v. hand (v.parts - 1) v.put v.got };

    ghost right = { λ v. hand 1 [] [] };
}

impl Join<Hand> for Part {
    ghost use Rattle.std.specs.Prelude.{◌+◌, ◌++◌, []};
    ghost use Rattle.ghc_pool.specs.inner.Fair.{hand};

    ghost both = { λ v w. hand (v.parts + w.parts) (v.put ++ w.put) (v.got ++ w.got) };

    ghost spent = { hand 0 [] [] };
}

pub type Owner = Worker<GoalName, Global, Hand, Fair>;

pub type Thief = Stealer<GoalName, Global, Hand, Fair>;

pub type DequePass = AnyPass<GoalName, Hand>;
