// A worker of a round: its deque, the deques from which it steals, and what it did.
ghost use Rattle.std.specs.Prelude.{◌≡◌, ◌≤◌, ◌+◌, ◌<◌, ◌++◌, [], ◌∷◌, length};
ghost use Rattle.std.specs.Vec.{vec_capacity, vec_len};
ghost use Rattle.crossbeam_deque.specs.Handles.{worker_view};
ghost use Rattle.ghc_term.specs.declared.goal_name.GoalName.{GoalName as goal_name};
ghost use Rattle.ghc_pool.specs.declared.rounds.worker.Found.TheVariants.{Name as name_found};
ghost use Rattle.ghc_pool.specs.inner.Stops.{joined};
ghost use Rattle.ghc_pool.specs.inner.Workers.{IsAble, HasRoomToAnswer, HasRoomToOffer, IsFound, Keeps, KeepsRoom, DidNothing, IsOfferedOrStopped};

use crate::answer::{Answer, RoundStop, joined};
use crate::rounds::rule::{Offers, Owner, Takes};
use crate::rounds::victim::Victim;
use crossbeam_deque::Steal;
use ghc_term::GoalName;

// A worker, with its own deque; the names that it offered, those that it took with their answers, those that it left, and why it
// stopped, if it did.
#[derive(Drop)]
pub struct Worker {
    pub owner: Owner,
    pub victims: Vec<Victim>,
    pub offered: Vec<GoalName>,
    pub taken: Vec<(GoalName, Answer)>,
    pub left: Vec<GoalName>,
    pub stop: Option<RoundStop>,
}

// What came of a look for a name: one, or none, or none since another thread was quicker.
#[derive(Clone, Copy, Drop)]
pub enum Found {
    Name(GoalName),
    Again,
    Nothing,
}

impl Worker {
    // Offers a name for which there is room. One that the deque refuses is left, and the worker stops for memory.
    pub fn offer_reserved(&mut self, name: GoalName)
        requires able { IsAble self.old }
        requires room { HasRoomToOffer 1 self.old }
        ensures keeps { Keeps [] [] self.old self.new }
        ensures keeps_room { KeepsRoom self.old self.new }
        ensures got { (worker_view self.new.owner).got ≡ (worker_view self.old.owner).got }
        ensures offered { self.new.offered.items ≡ self.old.offered.items ++ name ∷ [] }
        ensures room { vec_capacity self.new.offered ≡ vec_capacity self.old.offered }
        ensures left { (vec_len self.new.left + length (worker_view self.new.owner).put ≤ vec_len self.old.left + length (worker_view self.old.owner).put + 1) × (vec_capacity self.new.left ≡ vec_capacity self.old.left) }
        ensures taken { self.new.taken ≡ self.old.taken }
        ensures stop { IsOfferedOrStopped self.old self.new }
    {
        match self.owner.push_as::<Offers>(name) {
            Ok(()) => self.offered.push_reserved(name),
            Err(refused) => {
                self.offered.push_reserved(refused);
                self.left.push_reserved(refused);
                self.stop = Some(RoundStop::Memory);
            }
        }
    }

    // Offers a name, once there is room for all that may become of it, and says whether the worker goes on. Where memory is
    // refused it stops.
    pub fn offer(&mut self, name: GoalName) -> bool
        requires able { IsAble self.old }
        ensures keeps { Keeps [] [] self.old self.new }
        ensures room { KeepsRoom self.old self.new }
        ensures got { (worker_view self.new.owner).got ≡ (worker_view self.old.owner).got }
        ensures taken { self.new.taken ≡ self.old.taken }
        ensures stop { IsOfferedOrStopped self.old self.new }
    {
        let Ok(()) = self.offered.reserve(1) else {
            self.stop = Some(RoundStop::Memory);
            return false;
        };
        let Ok(()) = self.left.reserve(self.offered.len() + 2) else {
            self.stop = Some(RoundStop::Memory);
            return false;
        };
        self.offer_reserved(name);
        self.stop.is_none()
    }

    // Steals a name from one of the others.
    fn steal_from(&mut self, index: usize) -> Found
        requires able { IsAble self.old }
        requires index { index < vec_len self.old.victims }
        ensures found { IsFound result self.old self.new }
        ensures same { DidNothing self.old self.new }
        ensures count { vec_len self.new.victims ≡ vec_len self.old.victims }
    {
        match self.victims[index].steal() {
            Steal::Success(name) => Found::Name(name),
            Steal::Retry => Found::Again,
            Steal::Empty => Found::Nothing,
        }
    }

    // Steals a name from the first of the others that has one.
    fn steal(&mut self) -> Found
        requires able { IsAble self.old }
        ensures found { IsFound result self.old self.new }
        ensures same { DidNothing self.old self.new }
    {
        let mut found = Found::Nothing;
        for index in 0..self.victims.len() {
            match self.steal_from(index) {
                Found::Name(name) => return Found::Name(name),
                Found::Again => found = Found::Again,
                Found::Nothing => {}
            }
        }
        match found {
            Found::Again => Found::Again,
            _ => Found::Nothing,
        }
    }

    // Takes a name of its own, or steals one, while so many are in hand. It makes room for the answers to all of them first; where memory
    // is refused for that, nothing is found.
    pub fn take(&mut self, in_hand: usize) -> Found
        requires able { IsAble self.old }
        requires few { in_hand < 64 }
        ensures found { IsFound result self.old self.new }
        ensures same { DidNothing self.old self.new }
        ensures room { (name : goal_name) → result ≡ name_found name → HasRoomToAnswer (in_hand + 1) self.new }
    {
        let Ok(()) = self.taken.reserve(in_hand + 1) else {
            return Found::Nothing;
        };
        match self.owner.pop_as::<Takes>() {
            Some(name) => Found::Name(name),
            None => self.steal(),
        }
    }

    // The name that is in hand is taken, with this answer, which may be a reason to stop; memory goes before another.
    pub fn answer(&mut self, name: GoalName, answer: Answer, stop: Option<RoundStop>)
        requires able { IsAble self.old }
        requires room { HasRoomToAnswer 1 self.old }
        ensures keeps { Keeps (name ∷ []) [] self.old self.new }
        ensures room { KeepsRoom self.old self.new }
        ensures got { (worker_view self.new.owner).got ≡ (worker_view self.old.owner).got }
        ensures taken { self.new.taken.items ≡ self.old.taken.items ++ (name, answer) ∷ [] }
        ensures capacity { vec_capacity self.new.taken ≡ vec_capacity self.old.taken }
        ensures left { self.new.left.items ≡ self.old.left.items }
        ensures stop { self.new.stop ≡ joined self.old.stop stop }
    {
        self.taken.push_reserved((name, answer));
        self.stop = joined(self.stop, stop);
    }
}
