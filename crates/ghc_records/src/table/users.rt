// Which steps used what a step gave.
ghost use Rattle.std.specs.Prelude.{◌≡◌, ◌≢◌, ◌↔◌, ◌⊎◌, ◌+◌, ◌^◌, ◌<◌, ◌≤◌, [], ℕ, length, max, OnOk, IsTrue, Some};
ghost use Rattle.std.specs.FinMap as finite;
ghost use Rattle.ghc_records.specs.UseIndex.{users_at, IsUser, CanTake, HasGrown};

use crate::table::number_set::NumberSet;
use std::alloc::{AllocError, Global};
use std::collections::BTreeMap;
use std::marker::Model;

// How many places the list grows by past the one that is asked for, so that it grows once for many steps.
const FURTHER: usize = 15;

// How far a number may be past the list and past the slots of a record, and its step still stands in the list.
const MOST_AHEAD: usize = 16;

// The numbers of steps by the number of the step that they used: a list by number for the steps of the first numbers, and a tree in
// the order of the numbers for the others: a search in it is the logarithm of how many it has, whatever their numbers.
#[derive(Drop)]
pub(crate) struct Users {
    near: Vec<NumberSet>,
    far: BTreeMap<u32, NumberSet>,
}

impl Model for Users {
    ghost use Rattle.ghc_records.specs.UseIndex.{UsersByStep, users_in};
    ghost use Rattle.ghc_records.specs.inner.RecordCode.{users_code};

    ghost Value = { UsersByStep };

    ghost coded = { users_code };

    ghost view = { λ u. users_in u.near.items u.far.entries };
}

// Makes the list longer, by sets of no numbers, until it has this place, and no further. What it grew by stays where memory is refused.
fn grow(sets: &mut Vec<NumberSet>, place: usize) -> Result<(), AllocError>
    requires { place < 2 ^ 63 }
    ensures grown { HasGrown sets.old.items sets.new.items }
    ensures place { OnOk result (place < length sets.new.items) }
    ensures no_further { length sets.new.items ≤ max (length sets.old.items) (place + 1) }
{
    let alloc = *sets.allocator();
    let more = (place + 1).saturating_sub(sets.len());
    sets.reserve(more)?;
    for _ in 0..more {
        sets.push_reserved(NumberSet::new(alloc));
    }
    Ok(())
}

impl Users {
    // No steps, which take no memory.
    pub(crate) fn new(alloc: Global) -> Users
        ensures { result ≡ finite.empty }
    {
        Users {
            near: Vec::new(alloc),
            far: BTreeMap::new(alloc),
        }
    }

    // The allocator.
    pub(crate) fn allocator(&self) -> Global {
        *self.near.allocator()
    }

    // The numbers under the step of this number: one step, or a search in the tree.
    pub(crate) fn at(&self, step: u32) -> &[u32]
        ensures { result.now ≡ users_at self.now step }
    {
        if let Some(users) = self.near.get(step as usize) {
            return users.members();
        }
        match self.far.get(&step) {
            Some(users) => users.members(),
            None => &[],
        }
    }

    // Makes the list longer until it has the step, of a record of so many slots, and a few more: one step for each place that it grows
    // by. Where the tree has a step, or the number is more than a few past list and slots, the list stays, so that no number makes it
    // large.
    fn widen(&mut self, step: u32, slots: usize) -> Result<(), AllocError>
        ensures held { (m : ℕ) → users_at self.new m ≡ users_at self.old m }
        ensures kept { (m n : ℕ) → CanTake self.old m n → CanTake self.new m n }
    {
        let place = step as usize;
        let is_there = place < self.near.len();
        let most = slots.max(self.near.len()).saturating_add(MOST_AHEAD);
        if is_there || !self.far.is_empty() || place > most {
            return Ok(());
        }
        grow(&mut self.near, place + FURTHER)
    }

    // Whether one more number under the step needs no memory, as the list has its set and that a place: one step.
    #[inline(always)]
    fn has_place(&self, step: u32) -> bool
        ensures { IsTrue result → (n : ℕ) → CanTake self.now step n }
    {
        match self.near.get(step as usize) {
            Some(users) => users.has_place(),
            None => false,
        }
    }

    // Makes room for one more number under the step, of a record of so many slots: one step, and one for each place that the list
    // grows by, or two searches in the tree.
    #[inline(never)]
    fn reserve(&mut self, step: u32, slots: usize) -> Result<(), AllocError>
        ensures held { (m : ℕ) → users_at self.new m ≡ users_at self.old m }
        ensures room { OnOk result ((n : ℕ) → CanTake self.new step n) }
        ensures kept { (m n : ℕ) → CanTake self.old m n → CanTake self.new m n }
    {
        self.widen(step, slots)?;
        let alloc = *self.near.allocator();
        if let Some(users) = self.near.get_mut(step as usize) {
            return users.reserve();
        }
        if let Some(users) = self.far.get_mut(&step) {
            return users.reserve();
        }
        let mut users = NumberSet::new(alloc);
        users.reserve()?;
        self.far.insert(step, users)?;
        Ok(())
    }

    // Puts a number under the step, where it stands already or there is room: one step, or a search in the tree and a look-up.
    #[inline(always)]
    fn put(&mut self, step: u32, user: u32)
        requires { CanTake self.old step user }
        ensures users { (m n : ℕ) → IsUser self.new m n ↔ (IsUser self.old m n ⊎ ((m ≡ step) × (n ≡ user))) }
        ensures room { (m : ℕ) → CanTake self.old m user → CanTake self.new m user }
    {
        if let Some(users) = self.near.get_mut(step as usize) {
            users.put(user);
            return;
        }
        let Some(users) = self.far.get_mut(&step) else {
            return;
        };
        users.put(user);
    }

    // Takes a number from under the step: one step, or a search in the tree and a look-up.
    fn take(&mut self, step: u32, user: u32)
        ensures { (m n : ℕ) → IsUser self.new m n ↔ (IsUser self.old m n × ¬ ((m ≡ step) × (n ≡ user))) }
    {
        if let Some(users) = self.near.get_mut(step as usize) {
            users.remove(user);
            return;
        }
        let Some(users) = self.far.get_mut(&step) else {
            return;
        };
        users.remove(user);
    }

    // Takes all numbers from under the step, and their memory: one step, or a search in the tree.
    pub(crate) fn forget(&mut self, step: u32)
        ensures { (m n : ℕ) → IsUser self.new m n ↔ (IsUser self.old m n × (m ≢ step)) }
    {
        let alloc = *self.near.allocator();
        if let Some(users) = self.near.get_mut(step as usize) {
            *users = NumberSet::new(alloc);
            return;
        }
        self.far.remove(&step);
    }

    // Makes room for one more number under the step, if one is named, of a record of so many slots: mostly one step.
    #[inline(always)]
    pub(crate) fn reserve_at(&mut self, step: Option<u32>, slots: usize) -> Result<(), AllocError>
        ensures held { (m : ℕ) → users_at self.new m ≡ users_at self.old m }
        ensures room { OnOk result ((m n : ℕ) → step ≡ Some m → CanTake self.new m n) }
        ensures kept { (m n : ℕ) → CanTake self.old m n → CanTake self.new m n }
    {
        let Some(step) = step else {
            return Ok(());
        };
        if self.has_place(step) {
            return Ok(());
        }
        self.reserve(step, slots)
    }

    // Puts a number under the step, if one is named, where it stands already or there is room.
    #[inline(always)]
    pub(crate) fn put_at(&mut self, step: Option<u32>, user: u32)
        requires { (m : ℕ) → step ≡ Some m → CanTake self.old m user }
        ensures users { (m n : ℕ) → IsUser self.new m n ↔ (IsUser self.old m n ⊎ ((step ≡ Some m) × (n ≡ user))) }
        ensures room { (m : ℕ) → CanTake self.old m user → CanTake self.new m user }
    {
        let Some(step) = step else {
            return;
        };
        self.put(step, user);
    }

    // Takes a number from under the step, if one is named.
    pub(crate) fn take_at(&mut self, step: Option<u32>, user: u32)
        ensures { (m n : ℕ) → IsUser self.new m n ↔ (IsUser self.old m n × ¬ ((step ≡ Some m) × (n ≡ user))) }
    {
        let Some(step) = step else {
            return;
        };
        self.take(step, user);
    }
}
