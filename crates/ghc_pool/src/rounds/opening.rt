// The start of a round: a deque for each worker, and passes of each for all.
ghost use Rattle.std.specs.Prelude.{◌≡◌, ◌+◌, ◌<◌, [], IfSome};
ghost use Rattle.std.specs.Vec.{vec_len};
ghost use Rattle.crossbeam_deque.specs.Handles.{worker_deque, stealer_deque, view};
ghost use Rattle.ghc_pool.specs.inner.Fair.{all_parts};
ghost use Rattle.ghc_pool.specs.inner.Workers.{IsVictim};
ghost use Rattle.ghc_pool.specs.inner.Opened.{IsFresh, AreFresh, deques_of, IsHandful};

use crate::rounds::rule::{Owner, Part};
use crate::rounds::victim::Victim;
use std::alloc::Global;

// A deque with all its parts.
fn new_deque(alloc: Global) -> Option<Owner>
    ensures { IfSome result (λ o. IsFresh all_parts o) }
{
    let Ok(owner) = Owner::fifo_as(alloc, 64) else {
        return None;
    };
    Some(owner)
}

// As many deques.
pub fn new_deques(alloc: Global, count: usize) -> Option<Vec<Owner>>
    ensures fresh { IfSome result (λ owners. AreFresh all_parts owners.items) }
    ensures count { IfSome result (λ owners. vec_len owners ≡ count) }
{
    let mut owners = Vec::new(alloc);
    for made in 0..count {
        let owner = new_deque(alloc)?;
        let Ok(()) = owners.push(owner) else {
            return None;
        };
    }
    Some(owners)
}

// A pass of the deque. Then the owner has so many parts.
fn victim_of(owner: &mut Owner, parts: u64) -> Option<Victim>
    requires fresh { IsFresh (parts + 1) owner.old }
    requires part { 0 < parts }
    ensures victim { IfSome result (λ v. IsVictim v × (stealer_deque v.thief ≡ worker_deque owner.old) × ((view v.pass).got ≡ [])) }
    ensures fresh { IfSome result (λ _. IsFresh parts owner.new × (worker_deque owner.new ≡ worker_deque owner.old)) }
{
    let _ = parts;
    let Ok(thief) = owner.stealer() else {
        return None;
    };
    let pass = owner.another::<Part>();
    Some(Victim { thief, pass })
}

// A pass of each deque, in their order. Then each owner has so many parts.
pub fn handful(alloc: Global, owners: &mut Vec<Owner>, parts: u64) -> Option<Vec<Victim>>
    requires fresh { AreFresh (parts + 1) owners.old.items }
    requires part { 0 < parts }
    ensures handful { IfSome result (λ vs. IsHandful (deques_of owners.old.items) vs.items) }
    ensures fresh { IfSome result (λ _. AreFresh parts owners.new.items) }
    ensures deques { IfSome result (λ _. deques_of owners.new.items ≡ deques_of owners.old.items) }
    ensures count { IfSome result (λ _. vec_len owners.new ≡ vec_len owners.old) }
{
    let mut victims = Vec::new(alloc);
    for index in 0..owners.len() {
        let victim = victim_of(&mut owners[index], parts)?;
        let Ok(()) = victims.push(victim) else {
            return None;
        };
    }
    Some(victims)
}
