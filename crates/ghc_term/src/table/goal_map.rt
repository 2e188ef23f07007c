// Values under the names of goals: names and values in two lists beside each other, and the place of each name in them.
ghost use Rattle.std.specs.Prelude.{◌≡◌, ◌≤◌, ◌+◌, ◌<◌, ◌^◌, length, option_copied, OnOk};
ghost use Rattle.std.specs.FinMap as finite;
ghost use Rattle.std.specs.FinSet as set;
ghost use Rattle.ghc_term.specs.GoalMap.{names_of};

use crate::goal_name::GoalName;
use crate::table::goal_places::GoalPlaces;
use std::alloc::{AllocError, Global};
use std::marker::Model;

// How many values there are at most, so that each has a place.
const MOST: usize = 4_294_967_295;

/// A map from the names of goals to values, of which there are fewer than 2^32.
#[derive(Drop)]
pub struct GoalMap<V> {
    // the names, each once
    names: Vec<GoalName>,
    // the values, each at the place of its name
    values: Vec<V>,
    // the places of the names
    places: GoalPlaces,
    // how many more values there is room for, or fewer
    left: usize,
}

impl<V> Model for GoalMap<V> {
    ghost use Rattle.std.specs.FinMap as finite;
    ghost use Rattle.std.specs.Prelude.{length};
    ghost use Rattle.ghc_term.specs.GoalMap.{goal_cmp, goal_name_code, values_by, ArePlaces, HaveRoom};
    ghost use Rattle.ghc_term.specs.Table.{Table, table_code};

    ghost Value = { Table (finite.FinMap goal_cmp V) };

    ghost coded = { table_code (finite.code goal_name_code V.code) };

    ghost view = { λ m. record { held = values_by m.names.items m.values.items; room = m.left } };

    ghost invariant = { λ m. ArePlaces m.names.items (length m.values.items) m.places.held × HaveRoom m.left m.names.len m.names.cap m.values.cap m.places.room };
}

impl<V: Drop> GoalMap<V> {
    /// A map without values, which takes no memory.
    pub fn new(alloc: Global) -> GoalMap<V>
        ensures { result.held ≡ finite.empty }
    {
        GoalMap {
            names: Vec::new(alloc),
            values: Vec::new(alloc),
            places: GoalPlaces::new(alloc),
            left: 0,
        }
    }

    /// How many values there are: one step.
    #[inline(always)]
    pub fn len(&self) -> usize
        ensures count { result ≡ finite.len self.now.held }
        ensures small { result < 2 ^ 63 }
    {
        self.names.len()
    }

    /// Whether a value stands under the name: one step for the first two goals of a step that is not far ahead, else a look-up.
    #[inline(always)]
    pub fn contains(&self, name: GoalName) -> bool
        ensures { result ≡ finite.contains_key self.now.held name }
    {
        self.places.get(name).is_some()
    }

    /// The value under the name: one step for the first two goals of a step that is not far ahead, else a look-up.
    #[inline(always)]
    pub fn get(&self, name: GoalName) -> Option<&V>
        ensures { option_copied result ≡ finite.get self.now.held name }
    {
        match self.places.get(name) {
            Some(place) => Some(&self.values[place as usize]),
            None => None,
        }
    }

    /// The names under which a value stands, each once, in any order: one step.
    #[inline(always)]
    pub fn names(&self) -> &[GoalName]
        ensures all { set.from_list result.now ≡ names_of self.now.held }
        ensures once { length result.now ≡ finite.len self.now.held }
    {
        &self.names
    }

    /// Makes room for as many more values under the names of goals that steps up to this one made, unless they would be 2^32 or more. The
    /// list by step grows towards it, by some places at most, so that no number makes it large. The values stay, and so does the room
    /// where memory is refused.
    #[inline(always)]
    pub fn reserve(&mut self, count: usize, newest: u32) -> Result<(), AllocError>
        ensures held { self.new.held ≡ self.old.held }
        ensures room { OnOk result (count ≤ self.new.room) }
        ensures kept { self.old.room ≤ self.new.room }
    {
        self.places.reach(newest)?;
        if count <= self.left {
            return Ok(());
        }
        self.make_room(count)
    }

    // Makes room for as many more values, and tells how much there is.
    #[inline(never)]
    fn make_room(&mut self, count: usize) -> Result<(), AllocError>
        ensures held { self.new.held ≡ self.old.held }
        ensures room { OnOk result (count ≤ self.new.room) }
        ensures kept { self.old.room ≤ self.new.room }
    {
        let most = MOST - self.names.len();
        if count > most {
            return Err(AllocError);
        }
        self.names.reserve(count)?;
        self.values.reserve(count)?;
        self.places.reserve(count)?;
        let names = self.names.capacity() - self.names.len();
        let values = self.values.capacity() - self.values.len();
        self.left = names.min(values).min(self.places.room()).min(most);
        Ok(())
    }

    /// Puts the value under the name, in place of one that it had, where there is room. It takes no memory and cannot fail.
    #[inline(always)]
    pub fn put(&mut self, name: GoalName, value: V)
        requires { 0 < self.old.room }
        ensures held { self.new.held ≡ finite.insert self.old.held name value }
        ensures room { self.old.room ≤ self.new.room + 1 }
    {
        match self.places.get(name) {
            Some(place) => self.values[place as usize] = value,
            None => {
                self.left -= 1;
                self.places.put(name, self.names.len() as u32);
                self.names.push_reserved(name);
                self.values.push_reserved(value);
            }
        }
    }

    /// Takes the value from under the name and gives it, if there was one. The room does not shrink.
    #[inline(always)]
    pub fn remove(&mut self, name: GoalName) -> Option<V>
        ensures value { result ≡ finite.get self.old.held name }
        ensures held { self.new.held ≡ finite.remove self.old.held name }
        ensures room { self.old.room ≤ self.new.room }
    {
        let place = self.places.remove(name)?;
        let value = self.values.swap_remove(place as usize);
        self.names.swap_remove(place as usize);
        if (place as usize) < self.names.len() {
            self.places.replace(self.names[place as usize], place);
        }
        Some(value)
    }
}
