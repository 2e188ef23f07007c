// The workers of a round, before threads are made.
ghost use Rattle.std.specs.Prelude.{◌≡◌, ◌≤◌, ◌+◌, ◌-◌, ◌<◌, ◌^◌, ◌++◌, ℕ, [], length, true, IfSome};
ghost use Rattle.std.specs.Vec.{vec_len};
ghost use Rattle.ghc_pool.specs.inner.Fair.{all_parts};
ghost use Rattle.ghc_pool.specs.inner.Workers.{works, IsAble, HasRoomToOffer, IsRoomier, Keeps, KeepsRoom, IsOfferedOrStopped};
ghost use Rattle.ghc_pool.specs.inner.Opened.{AreStarting, AreNew};
ghost use Rattle.ghc_pool.specs.inner.Gathered.{own_deques, FirstBegins};

use crate::rounds::opening::{handful, new_deques};
use crate::rounds::worker::Worker;
use ghc_term::GoalName;
use std::alloc::Global;

// As many workers, each with a deque of its own and a pass of each deque.
pub fn new_workers(alloc: Global, count: usize) -> Option<Vec<Worker>>
    requires count { (0 < count) × (count ≤ 64) }
    ensures new { IfSome result (λ ws. AreNew (all_parts - count) (own_deques ws.items) ws.items) }
    ensures count { IfSome result (λ ws. vec_len ws ≡ count) }
{
    let mut owners = new_deques(alloc, count)?;
    let mut hands = Vec::new(alloc);
    for made in 0..count {
        let victims = handful(alloc, &mut owners, 127 - made as u64)?;
        let Ok(()) = hands.push(victims) else {
            return None;
        };
    }
    let mut workers = Vec::new(alloc);
    for moved in 0..count {
        let owner = owners.remove(0);
        let Some(victims) = hands.pop() else {
            return None;
        };
        let Ok(left) = Vec::with_capacity(alloc, 1) else {
            return None;
        };
        let worker = Worker {
            owner,
            victims,
            offered: Vec::new(alloc),
            taken: Vec::new(alloc),
            left,
            stop: None,
        };
        let Ok(()) = workers.push(worker) else {
            return None;
        };
    }
    Some(workers)
}

impl Worker {
    // Makes room for so many names, where memory is found.
    fn make_room(&mut self, count: usize) -> bool
        requires able { IsAble self.old }
        requires count { count < 2 ^ 60 }
        ensures room { result ≡ true → HasRoomToOffer count self.new }
        ensures same { IsRoomier self.old self.new }
    {
        let Ok(()) = self.offered.reserve(count) else {
            return false;
        };
        let Ok(()) = self.left.reserve(self.offered.len() + count + 1) else {
            return false;
        };
        true
    }

    // Offers the names, for which there is room.
    fn offer_all(&mut self, names: &[GoalName])
        requires able { IsAble self.old }
        requires room { HasRoomToOffer (length names.now) self.old }
        ensures keeps { Keeps [] [] self.old self.new }
        ensures room { KeepsRoom self.old self.new }
        ensures offered { self.new.offered.items ≡ self.old.offered.items ++ names.now }
        ensures taken { self.new.taken ≡ self.old.taken }
        ensures stop { IsOfferedOrStopped self.old self.new }
    {
        for name in names {
            self.offer_reserved(*name);
        }
    }
}

// The first worker offers the names, where memory is found for all of them.
pub fn offer_first(workers: &mut Vec<Worker>, names: &[GoalName]) -> bool
    requires some { 0 < vec_len workers.old }
    requires starting { (k : ℕ) × AreNew k (own_deques workers.old.items) workers.old.items }
    requires few { length names.now < 2 ^ 60 }
    ensures starting { (k : ℕ) → result ≡ true → AreNew k (own_deques workers.old.items) workers.old.items → AreStarting k (own_deques workers.new.items) workers.new.items }
    ensures begins { result ≡ true → FirstBegins names.now (works workers.new.items) }
    ensures count { vec_len workers.new ≡ vec_len workers.old }
{
    if !workers[0].make_room(names.len()) {
        return false;
    }
    workers[0].offer_all(names);
    true
}
