// Values under variables: those of the first variables of steps in a list by step, and the others in a table.
ghost use Rattle.std.specs.Prelude.{◌≡◌, ◌≤◌, ◌+◌, ◌<◌, option_copied, OnOk};
ghost use Rattle.std.specs.FinMap as finite;
ghost use Rattle.indexmap.specs.IndexMap.{spare};
ghost use Rattle.ghc_term.specs.inner.VariableMap.{values_in};

use crate::table::first_values::{first, grow, put_first, take_first};
use crate::table::name_hasher::NameMap;
use crate::var_name::VarName;
use indexmap::IndexMap;
use std::alloc::{AllocError, Global};
use std::hash::BuildHasherDefault;
use std::marker::Model;

/// A map from variables to values. That the first variable of a step has a value or none is mostly found in one step, and of another
/// variable by a look-up.
#[derive(Drop)]
pub struct VariableMap<V> {
    // the values of first variables, by the numbers of the steps that made them
    firsts: Vec<Option<V>>,
    // those of other variables, and of first ones that the list has no place for
    others: NameMap<VarName, V>,
    // whether the table may have a value of a first variable
    has_strays: bool,
    // how many more values the table is known to take without memory
    known_room: usize,
}

impl<V> Model for VariableMap<V> {
    ghost use Rattle.std.specs.Prelude.{◌≡◌, ◌≤◌, false};
    ghost use Rattle.std.specs.FinMap as finite;
    ghost use Rattle.indexmap.specs.IndexMap.{spare};
    ghost use Rattle.ghc_term.specs.Bindings.{name_cmp};
    ghost use Rattle.ghc_term.specs.inner.Code.{name_code};
    ghost use Rattle.ghc_term.specs.Table.{Table, table_code};
    ghost use Rattle.ghc_term.specs.inner.VariableMap.{values_of, HasNoFirsts};

    ghost Value = { Table (finite.FinMap name_cmp V) };

    ghost coded = { table_code (finite.code name_code V.code) };

    ghost view = { λ m. record { held = values_of m.firsts.items m.others.entries; room = spare m.others } };

    ghost invariant = { λ m. (m.has_strays ≡ false → HasNoFirsts m.others.entries) × (m.known_room ≤ spare m.others) };
}

// The value in the table: one look-up, and none in a table without values.
#[inline(never)]
fn other<V: Drop>(others: &NameMap<VarName, V>, x: VarName) -> Option<&V>
    ensures { option_copied result ≡ finite.get (values_in others.now.entries) x }
{
    if others.is_empty() {
        return None;
    }
    others.get(&x)
}

// Puts the value into the table, where there is room: one look-up.
#[inline(never)]
fn put_other<V: Drop>(others: &mut NameMap<VarName, V>, x: VarName, value: V)
    requires { 0 < spare others.old }
    ensures held { values_in others.new.entries ≡ finite.insert (values_in others.old.entries) x value }
    ensures room { spare others.old ≤ spare others.new + 1 }
{
    others.insert(x, value).unwrap();
}

// Takes the value out of the table: one look-up, and none in a table without values.
#[inline(never)]
fn remove_other<V: Drop>(others: &mut NameMap<VarName, V>, x: VarName) -> Option<V>
    ensures value { result ≡ finite.get (values_in others.old.entries) x }
    ensures held { values_in others.new.entries ≡ finite.remove (values_in others.old.entries) x }
    ensures room { spare others.old ≤ spare others.new }
{
    if others.is_empty() {
        return None;
    }
    others.swap_remove(&x)
}

impl<V: Drop> VariableMap<V> {
    /// A map without values, which takes no memory.
    pub fn new(alloc: Global) -> VariableMap<V>
        ensures { result.held ≡ finite.empty }
    {
        VariableMap {
            firsts: Vec::new(alloc),
            others: IndexMap::with_hasher(alloc, BuildHasherDefault::new()),
            has_strays: false,
            known_room: 0,
        }
    }

    // The allocator of the map.
    pub(crate) fn allocator(&self) -> Global {
        *self.firsts.allocator()
    }

    /// The value under the variable: one step where it is the first of its step and the list goes so far, else one look-up.
    pub fn get(&self, x: VarName) -> Option<&V>
        ensures { option_copied result ≡ finite.get self.now.held x }
    {
        if x.place != 1 {
            return other(&self.others, x);
        }
        match first(&self.firsts, x.step as usize) {
            Some(value) => Some(value),
            None => {
                if !self.has_strays {
                    return None;
                }
                other(&self.others, x)
            }
        }
    }

    // Makes room for as many more values where it is not there yet: the list grows where it has no place for the number, and the table
    // where it is not known to have room.
    #[inline(never)]
    fn make_room(&mut self, count: usize, newest: u32) -> Result<(), AllocError>
        ensures held { self.new.held ≡ self.old.held }
        ensures room { OnOk result (count ≤ self.new.room) }
        ensures kept { self.old.room ≤ self.new.room }
    {
        grow(&mut self.firsts, newest as usize)?;
        if count <= self.known_room {
            return Ok(());
        }
        self.others.reserve(count)?;
        self.known_room = count;
        Ok(())
    }

    /// Makes room for as many more values under variables that steps up to this number made. The list grows towards it, by some places
    /// at most, so that no number makes it large. The values stay, and so does the room where memory is refused. It mostly costs a step.
    #[inline(always)]
    pub fn reserve(&mut self, count: usize, newest: u32) -> Result<(), AllocError>
        ensures held { self.new.held ≡ self.old.held }
        ensures room { OnOk result (count ≤ self.new.room) }
        ensures kept { self.old.room ≤ self.new.room }
    {
        if count <= self.known_room && (newest as usize) < self.firsts.len() {
            return Ok(());
        }
        self.make_room(count, newest)
    }

    /// Puts the value under the variable, where there is room. It takes no memory, cannot fail, and costs a step or a look-up.
    pub fn put(&mut self, x: VarName, value: V)
        requires { 0 < self.old.room }
        ensures held { self.new.held ≡ finite.insert self.old.held x value }
        ensures room { self.old.room ≤ self.new.room + 1 }
    {
        if x.place != 1 {
            self.known_room = self.known_room.saturating_sub(1);
            put_other(&mut self.others, x, value);
            return;
        }
        let place = x.step as usize;
        if place >= self.firsts.len() {
            self.has_strays = true;
            self.known_room = self.known_room.saturating_sub(1);
            put_other(&mut self.others, x, value);
            return;
        }
        put_first(&mut self.firsts, place, value);
    }

    /// Takes the value from under the variable and gives it, if there was one: a step and a look-up at most. The room does not shrink.
    pub fn remove(&mut self, x: VarName) -> Option<V>
        ensures value { result ≡ finite.get self.old.held x }
        ensures held { self.new.held ≡ finite.remove self.old.held x }
        ensures room { self.old.room ≤ self.new.room }
    {
        if x.place != 1 {
            return remove_other(&mut self.others, x);
        }
        if self.has_strays {
            let hidden = remove_other(&mut self.others, x);
            return take_first(&mut self.firsts, x.step as usize).or(hidden);
        }
        take_first(&mut self.firsts, x.step as usize)
    }
}
