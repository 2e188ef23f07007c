// Sets of the numbers of steps.
ghost use Rattle.std.specs.Prelude.{◌≡◌, ◌≢◌, ◌↔◌, ◌⊎◌, ◌+◌, ◌<◌, ◌≤◌, [], ℕ, length, vec_len, vec_capacity, IfOk, OnOk, IsTrue};
ghost use Rattle.indexmap.specs.IndexSet.{spare};
ghost use Rattle.ghc_term.specs.Lists.{In};
ghost use Rattle.ghc_records.specs.Orders.{AreDistinct};

use crate::table::rising::{put_rising, rising_three, rising_two, take_rising};
use ghc_term::NameSet;
use indexmap::IndexSet;
use std::alloc::{AllocError, Global};
use std::hash::BuildHasherDefault;
use std::marker::Model;
use std::mem::size_of;
use std::slice;

// How many numbers a new list has room for.
const FIRST_ROOM: usize = 8;

// How many numbers a list takes at most, so that no more of them are ever moved.
const MOST_LISTED: usize = 1024;

// Numbers of steps: up to three in the set itself and up to 1,024 in a list, both in ascending order, and more in a table that finds
// each by a look-up.
#[derive(Drop)]
pub(crate) struct NumberSet {
    held: Held,
}

#[derive(Drop)]
enum Held {
    Nothing(Global),
    One(Global, u32),
    Two(Global, [u32; 2]),
    Three(Global, [u32; 3]),
    Listed(Box<Vec<u32>>),
    Tabled(Box<NameSet<u32>>),
}

// There is a set for each step.
const _: () = prove!(size_of::<NumberSet>() <= 16);

impl Model for NumberSet {
    ghost use Rattle.std.specs.Prelude.{ℕ, List};
    ghost use Rattle.ghc_term.specs.Table.{Table, table_code};
    ghost use Rattle.ghc_records.specs.inner.NumberSet.{numbers_of, room_of, HoldsEachOnce};
    ghost use Rattle.ghc_records.specs.inner.RecordCode.{numbers_code};

    ghost Value = { Table (List ℕ) };

    ghost coded = { table_code numbers_code };

    ghost view = { λ s. record { held = numbers_of s.held; room = room_of s.held } };

    ghost invariant = { λ s. HoldsEachOnce s.held };
}

// A list of the numbers, with room for more.
fn listed(alloc: Global, numbers: &[u32]) -> Result<Box<Vec<u32>>, AllocError>
    ensures held { IfOk result (λ list. list.value.items ≡ numbers.now) }
    ensures room { IfOk result (λ list. vec_len list.value < vec_capacity list.value) }
{
    let mut list = Vec::with_capacity(alloc, FIRST_ROOM)?;
    list.extend_from_slice(numbers)?;
    list.reserve(1)?;
    Ok(Box::new(alloc, list)?)
}

// A table of the numbers, with room for more.
fn tabled(alloc: Global, numbers: &[u32]) -> Result<Box<NameSet<u32>>, AllocError>
    requires { AreDistinct numbers.now }
    ensures held { IfOk result (λ table. table.value.keys ≡ numbers.now) }
    ensures room { IfOk result (λ table. 0 < spare table.value) }
{
    let mut table = IndexSet::with_hasher(alloc, BuildHasherDefault::new());
    for number in numbers {
        table.insert(*number)?;
    }
    table.reserve(1)?;
    Ok(Box::new(alloc, table)?)
}

// Adds a number to a table that has it already, or has room for it: one look-up.
#[inline(never)]
fn put_tabled(table: &mut NameSet<u32>, number: u32)
    requires { (0 < spare table.old) ⊎ In number table.old.keys }
    ensures numbers { (n : ℕ) → In n table.new.keys ↔ (In n table.old.keys ⊎ (n ≡ number)) }
    ensures room { spare table.old ≤ spare table.new + 1 }
{
    table.insert(number).unwrap();
}

impl Held {
    ghost use Rattle.ghc_records.specs.inner.NumberSet.{numbers_of, room_of, IsFew};

    // The allocator.
    fn allocator(&self) -> Global {
        match self {
            Held::Nothing(alloc) => *alloc,
            Held::One(alloc, _) => *alloc,
            Held::Two(alloc, _) => *alloc,
            Held::Three(alloc, _) => *alloc,
            Held::Listed(list) => *list.allocator(),
            Held::Tabled(table) => *table.allocator(),
        }
    }

    // Whether there is room for one more number in the set itself: one test.
    #[inline(always)]
    fn has_place(&self) -> bool
        ensures { IsTrue result → 0 < room_of self.now }
    {
        match self {
            Held::Nothing(_) | Held::One(_, _) | Held::Two(_, _) => true,
            Held::Three(_, _) | Held::Listed(_) | Held::Tabled(_) => false,
        }
    }

    // The numbers.
    fn as_slice(&self) -> &[u32]
        ensures numbers { result.now ≡ numbers_of self.now }
        ensures few { IsFew self.now → length result.now ≤ 3 }
    {
        match self {
            Held::Nothing(_) => &[],
            Held::One(_, number) => slice::from_ref(number),
            Held::Two(_, numbers) => numbers,
            Held::Three(_, numbers) => numbers,
            Held::Listed(list) => list.as_slice(),
            Held::Tabled(table) => table.as_slice(),
        }
    }
}

impl NumberSet {
    // No numbers, which take no memory, and room for three.
    pub(crate) fn new(alloc: Global) -> NumberSet
        ensures held { result.held ≡ [] }
        ensures room { result.room ≡ 3 }
    {
        NumberSet {
            held: Held::Nothing(alloc),
        }
    }

    // The numbers of the set, in no order that is promised.
    pub(crate) fn members(&self) -> &[u32]
        ensures { result.now ≡ self.now.held }
    {
        self.held.as_slice()
    }

    // Whether one more number needs no memory, as the set itself has a place for it: one test.
    #[inline(always)]
    pub(crate) fn has_place(&self) -> bool
        ensures { IsTrue result → 0 < self.now.room }
    {
        self.held.has_place()
    }

    // Makes room for one more number: only a fourth one needs memory, and each after it may. A list of 1,024
    // becomes a table, by a look-up for each of them, and stays one.
    pub(crate) fn reserve(&mut self) -> Result<(), AllocError>
        ensures held { self.new.held ≡ self.old.held }
        ensures room { OnOk result (0 < self.new.room) }
        ensures kept { self.old.room ≤ self.new.room }
    {
        let alloc = self.held.allocator();
        match &mut self.held {
            Held::Nothing(_) | Held::One(_, _) | Held::Two(_, _) => Ok(()),
            Held::Three(_, three) => {
                self.held = Held::Listed(listed(alloc, three)?);
                Ok(())
            }
            Held::Listed(list) => {
                if list.len() < MOST_LISTED {
                    return list.reserve(1);
                }
                self.held = Held::Tabled(tabled(alloc, list)?);
                Ok(())
            }
            Held::Tabled(table) => table.reserve(1),
        }
    }

    // Adds a number that is there already, or for which there is room. One greater than all others takes one step. Another takes a
    // search by halves and a move of at most 1,024 after it, or one look-up.
    #[inline(always)]
    pub(crate) fn put(&mut self, number: u32)
        requires { (0 < self.old.room) ⊎ In number self.old.held }
        ensures numbers { (n : ℕ) → In n self.new.held ↔ (In n self.old.held ⊎ (n ≡ number)) }
        ensures room { self.old.room ≤ self.new.room + 1 }
    {
        let alloc = self.held.allocator();
        match &mut self.held {
            Held::Nothing(_) => {
                self.held = Held::One(alloc, number);
            }
            Held::One(_, one) => {
                if *one != number {
                    self.held = Held::Two(alloc, rising_two(*one, number));
                }
            }
            Held::Two(_, two) => {
                if !two.contains(&number) {
                    self.held = Held::Three(alloc, rising_three(two, number));
                }
            }
            // Three have no room for a fourth, so that the number is one of them.
            Held::Three(_, _) => {}
            Held::Listed(list) => put_rising(list, number),
            Held::Tabled(table) => put_tabled(table, number),
        }
    }

    // Takes a number out: at most three comparisons, or a search by halves and a move of at most 1,024 after it, or one look-up.
    pub(crate) fn remove(&mut self, number: u32)
        ensures { (n : ℕ) → In n self.new.held ↔ (In n self.old.held × (n ≢ number)) }
    {
        if let Held::Listed(list) = &mut self.held {
            take_rising(list, number);
            return;
        }
        if let Held::Tabled(table) = &mut self.held {
            table.swap_remove(&number);
            return;
        }
        let mut left = NumberSet::new(self.held.allocator());
        for one in self.held.as_slice() {
            if *one != number {
                left.put(*one);
            }
        }
        *self = left;
    }
}
