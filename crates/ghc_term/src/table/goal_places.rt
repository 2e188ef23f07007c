// Numbers under the names of goals: those of the first two goals of steps in a list by step, and the others in a table.
ghost use Rattle.std.specs.Prelude.{◌≡◌, ◌≤◌, ◌+◌, ◌<◌, ◌^◌, IsTrue, OnOk};
ghost use Rattle.std.specs.FinMap as finite;
ghost use Rattle.indexmap.specs.IndexMap.{spare};
ghost use Rattle.ghc_term.specs.inner.GoalPlaces.{numbers_in};

use crate::goal_name::GoalName;
use crate::table::name_hasher::NameMap;
use crate::table::near_numbers::{grow, number, put_number, slot, take_number};
use indexmap::IndexMap;
use std::alloc::{AllocError, Global};
use std::hash::BuildHasherDefault;
use std::marker::Model;

// For how many numbers more the table is made at least, so that this is seldom.
const LEAST: usize = 16;

// Numbers under the names of goals. Of the first two goals of a step the number is mostly found in one step, and of others by a look-up.
#[derive(Drop)]
pub(crate) struct GoalPlaces {
    // for each step one more than the numbers of its first two goals, and 0 for one that has none here
    near: Vec<u32>,
    // the numbers of other goals, and of those that the list has no place for
    others: NameMap<GoalName, u32>,
    // whether the table may have a number of one of the first two goals of a step
    has_strays: bool,
}

impl Model for GoalPlaces {
    ghost use Rattle.std.specs.Prelude.{◌≡◌, ℕ, false};
    ghost use Rattle.std.specs.Coded.{coded_ℕ};
    ghost use Rattle.std.specs.FinMap as finite;
    ghost use Rattle.indexmap.specs.IndexMap.{spare};
    ghost use Rattle.ghc_term.specs.GoalMap.{goal_cmp, goal_name_code};
    ghost use Rattle.ghc_term.specs.inner.GoalPlaces.{numbers_of, HasNoNear};
    ghost use Rattle.ghc_term.specs.Table.{Table, table_code};

    ghost Value = { Table (finite.FinMap goal_cmp ℕ) };

    ghost coded = { table_code (finite.code goal_name_code coded_ℕ) };

    ghost view = { λ p. record { held = numbers_of p.near.items p.others.entries; room = spare p.others } };

    ghost invariant = { λ p. p.has_strays ≡ false → HasNoNear p.others.entries };
}

// The number in the table: one look-up, and none in a table without numbers.
#[inline(never)]
fn other(others: &NameMap<GoalName, u32>, name: GoalName) -> Option<u32>
    ensures { result ≡ finite.get (numbers_in others.now.entries) name }
{
    if others.is_empty() {
        return None;
    }
    others.get(&name).copied()
}

// Puts the number into the table, where there is room: one look-up.
#[inline(never)]
fn put_other(others: &mut NameMap<GoalName, u32>, name: GoalName, number: u32)
    requires { 0 < spare others.old }
    ensures held { numbers_in others.new.entries ≡ finite.insert (numbers_in others.old.entries) name number }
    ensures room { spare others.old ≤ spare others.new + 1 }
{
    others.insert(name, number).unwrap();
}

// Writes the number of a name that the table has: one look-up.
#[inline(never)]
fn replace_other(others: &mut NameMap<GoalName, u32>, name: GoalName, number: u32)
    requires { IsTrue (finite.contains_key (numbers_in others.old.entries) name) }
    ensures held { numbers_in others.new.entries ≡ finite.insert (numbers_in others.old.entries) name number }
    ensures room { spare others.old ≤ spare others.new }
{
    if let Some(found) = others.get_mut(&name) {
        *found = number;
    }
}

// Takes the number out of the table: one look-up, and none in a table without numbers.
#[inline(never)]
fn remove_other(others: &mut NameMap<GoalName, u32>, name: GoalName) -> Option<u32>
    ensures value { result ≡ finite.get (numbers_in others.old.entries) name }
    ensures held { numbers_in others.new.entries ≡ finite.remove (numbers_in others.old.entries) name }
    ensures room { spare others.old ≤ spare others.new }
{
    if others.is_empty() {
        return None;
    }
    others.swap_remove(&name)
}

impl GoalPlaces {
    // No numbers, which take no memory.
    pub(crate) fn new(alloc: Global) -> GoalPlaces
        ensures { result.held ≡ finite.empty }
    {
        GoalPlaces {
            near: Vec::new(alloc),
            others: IndexMap::with_hasher(alloc, BuildHasherDefault::new()),
            has_strays: false,
        }
    }

    // The number under the name: one step where the list goes so far, else one look-up.
    #[inline(always)]
    pub(crate) fn get(&self, name: GoalName) -> Option<u32>
        ensures { result ≡ finite.get self.now.held name }
    {
        let Some(slot) = slot(name) else {
            return other(&self.others, name);
        };
        match number(&self.near, slot) {
            Some(number) => Some(number),
            None => {
                if !self.has_strays {
                    return None;
                }
                other(&self.others, name)
            }
        }
    }

    // Makes the list longer towards the goals of this step, by some places at most.
    #[inline(always)]
    pub(crate) fn reach(&mut self, newest: u32) -> Result<(), AllocError>
        ensures held { self.new.held ≡ self.old.held }
        ensures room { self.new.room ≡ self.old.room }
    {
        grow(&mut self.near, newest as usize * 2 + 1)
    }

    // How many more numbers there is room for.
    pub(crate) fn room(&self) -> usize
        ensures { result ≡ self.now.room }
    {
        self.others.capacity() - self.others.len()
    }

    // Makes room for as many more numbers. The numbers stay, and so does the room where memory is refused.
    pub(crate) fn reserve(&mut self, count: usize) -> Result<(), AllocError>
        ensures held { self.new.held ≡ self.old.held }
        ensures room { OnOk result (count ≤ self.new.room) }
        ensures kept { self.old.room ≤ self.new.room }
    {
        self.others.reserve(count.max(LEAST))
    }

    // Puts the number under the name, where there is room: a step or a look-up.
    #[inline(always)]
    pub(crate) fn put(&mut self, name: GoalName, number: u32)
        requires room { 0 < self.old.room }
        requires small { number + 1 < 2 ^ 32 }
        ensures held { self.new.held ≡ finite.insert self.old.held name number }
        ensures room { self.old.room ≤ self.new.room + 1 }
    {
        let Some(slot) = slot(name) else {
            put_other(&mut self.others, name, number);
            return;
        };
        if slot >= self.near.len() {
            self.has_strays = true;
            put_other(&mut self.others, name, number);
            return;
        }
        put_number(&mut self.near, slot, number);
    }

    // Writes another number under a name that has one: a step or a look-up.
    #[inline(always)]
    pub(crate) fn replace(&mut self, name: GoalName, number: u32)
        requires there { IsTrue (finite.contains_key self.old.held name) }
        requires small { number + 1 < 2 ^ 32 }
        ensures held { self.new.held ≡ finite.insert self.old.held name number }
        ensures room { self.old.room ≤ self.new.room }
    {
        let Some(slot) = slot(name) else {
            replace_other(&mut self.others, name, number);
            return;
        };
        if slot >= self.near.len() {
            replace_other(&mut self.others, name, number);
            return;
        }
        put_number(&mut self.near, slot, number);
    }

    // Takes the number from under the name and gives it, if there was one: a step and a look-up at most. The room does not shrink.
    #[inline(always)]
    pub(crate) fn remove(&mut self, name: GoalName) -> Option<u32>
        ensures value { result ≡ finite.get self.old.held name }
        ensures held { self.new.held ≡ finite.remove self.old.held name }
        ensures room { self.old.room ≤ self.new.room }
    {
        let Some(slot) = slot(name) else {
            return remove_other(&mut self.others, name);
        };
        if self.has_strays {
            let hidden = remove_other(&mut self.others, name);
            return take_number(&mut self.near, slot).or(hidden);
        }
        take_number(&mut self.near, slot)
    }
}
