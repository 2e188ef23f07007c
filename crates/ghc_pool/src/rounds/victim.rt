// A deque from which a worker steals.
ghost use Rattle.ghc_pool.specs.inner.Workers.{IsVictim, WasStolen};

use crate::rounds::rule::{DequePass, Takes, Thief};
use crossbeam_deque::Steal;
use ghc_term::GoalName;

// The stealer's handle, and the worker's pass there.
#[derive(Drop)]
pub struct Victim {
    pub thief: Thief,
    pub pass: DequePass,
}

impl Victim {
    // Steals a name, if the deque has one: a few steps. It is to be done again where another thread was quicker.
    pub fn steal(&mut self) -> Steal<GoalName>
        requires { IsVictim self.old }
        ensures { WasStolen self.old result self.new }
    {
        self.thief.steal_as::<Takes>(&mut self.pass)
    }
}
