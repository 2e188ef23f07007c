// The passes come back to the deques, after the threads.
ghost use Rattle.std.specs.Prelude.{◌≡◌, ◌+◌, ◌<◌, ℕ, []};
ghost use Rattle.std.specs.Vec.{vec_len};
ghost use Rattle.crossbeam_deque.specs.Handles.{worker_deque, worker_view, view, IsPassOf};
ghost use Rattle.ghc_term.specs.declared.goal_name.GoalName.{GoalName as goal_name};
ghost use Rattle.ghc_pool.specs.inner.Workers.{AreVictims, deques, stolen, work_of, works, over, put_of, got_of, stolen_of};
ghost use Rattle.ghc_pool.specs.inner.Gathered.{IsAbsorbed, own_deques, all_victims, AreReady, HaveParts, HaveGivenBack, AreReleased};

use crate::rounds::rule::{DequePass, Part};
use crate::rounds::victim::Victim;
use crate::rounds::worker::Worker;
use std::alloc::Global;
use std::mem;

impl Worker {
    // A pass comes back to the worker's deque.
    fn absorb(&mut self, pass: DequePass)
        requires deque { IsPassOf (worker_deque self.old.owner) pass }
        requires part { 0 < (worker_view self.old.owner).parts }
        ensures { IsAbsorbed self.old (view pass) self.new }
    {
        self.owner.absorb::<Part>(pass);
    }

    // The worker's passes of all deques.
    fn release(&mut self, alloc: Global) -> Vec<Victim>
        ensures victims { result ≡ self.old.victims }
        ensures none { self.new.victims.items ≡ [] }
        ensures rest { (self.new.owner ≡ self.old.owner) × (work_of self.new ≡ work_of self.old) }
    {
        mem::replace(&mut self.victims, Vec::new(alloc))
    }
}

// The passes of one worker come back to the deques, in whose order they stand.
fn give_back(workers: &mut Vec<Worker>, victims: Vec<Victim>)
    requires ready { AreReady workers.old.items }
    requires victims { AreVictims victims.items }
    requires deques { deques victims.items ≡ own_deques workers.old.items }
    ensures ready { AreReady workers.new.items }
    ensures deques { own_deques workers.new.items ≡ own_deques workers.old.items }
    ensures victims { all_victims workers.new.items ≡ all_victims workers.old.items }
    ensures parts { (k : ℕ) → HaveParts k workers.old.items → HaveParts (k + 1) workers.new.items }
    ensures works { works workers.new.items ≡ works workers.old.items }
    ensures put { (h : goal_name → ℕ) → over (put_of h) workers.new.items ≡ over (put_of h) workers.old.items }
    ensures got { (h : goal_name → ℕ) → over (got_of h) workers.new.items ≡ over (got_of h) workers.old.items + stolen h victims.items }
{
    let mut victims = victims;
    while let Some(victim) = victims.pop() {
        workers[victims.len()].absorb(victim.pass);
    }
}

// All passes come back to their deques.
pub fn gather(alloc: Global, workers: &mut Vec<Worker>)
    requires ready { AreReady workers.old.items }
    requires victims { HaveGivenBack 0 (own_deques workers.old.items) (all_victims workers.old.items) }
    ensures ready { AreReady workers.new.items }
    ensures released { AreReleased workers.new.items }
    ensures parts { (k : ℕ) → HaveParts k workers.old.items → HaveParts (k + vec_len workers.old) workers.new.items }
    ensures works { works workers.new.items ≡ works workers.old.items }
    ensures put { (h : goal_name → ℕ) → over (put_of h) workers.new.items ≡ over (put_of h) workers.old.items }
    ensures got { (h : goal_name → ℕ) → over (got_of h) workers.new.items ≡ over (got_of h) workers.old.items + over (stolen_of h) workers.old.items }
    ensures count { vec_len workers.new ≡ vec_len workers.old }
{
    for from in 0..workers.len() {
        let victims = workers[from].release(alloc);
        give_back(workers, victims);
    }
}
