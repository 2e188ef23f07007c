// The places of strays, the records that do not stand just below their numbers, in the order of their numbers.
ghost use Rattle.std.specs.Prelude.{◌≡◌, ◌<◌, ◌≤◌, IsTrue, OnOk, Some, None};
ghost use Rattle.std.specs.FinMap as finite;
ghost use Rattle.ghc_records.specs.inner.Slots.{IsChangedAt};

use std::alloc::{AllocError, Global};
use std::collections::BTreeMap;
use std::marker::Model;

// The places of strays by their numbers: a tree in the order of the numbers, so that no numbers make them slow to find. The newest
// stands by itself until room for the next is made, so that it needs no memory when it is put.
#[derive(Drop)]
pub(crate) struct Strays {
    newest: Option<(u32, usize)>,
    older: BTreeMap<u32, usize>,
    // whether there may be a stray
    has_any: bool,
}

impl Model for Strays {
    ghost use Rattle.std.specs.Prelude.{◌≡◌, false};
    ghost use Rattle.std.specs.FinMap as finite;
    ghost use Rattle.ghc_term.specs.Table.{Table, table_code};
    ghost use Rattle.ghc_records.specs.inner.Slots.{PlacesByNumber, places_of, room_beside};
    ghost use Rattle.ghc_records.specs.inner.RecordCode.{places_code};

    ghost Value = { Table PlacesByNumber };

    ghost coded = { table_code places_code };

    ghost view = { λ s. record { held = places_of s.newest s.older.entries; room = room_beside s.newest } };

    ghost invariant = { λ s. s.has_any ≡ false → places_of s.newest s.older.entries ≡ finite.empty };
}

impl Strays {
    // No strays, which take no memory.
    pub(crate) fn new(alloc: Global) -> Strays
        ensures { result.held ≡ finite.empty }
    {
        Strays {
            newest: None,
            older: BTreeMap::new(alloc),
            has_any: false,
        }
    }

    // Whether it is known that there are none: one test.
    #[inline(always)]
    pub(crate) fn is_empty(&self) -> bool
        ensures { IsTrue result → self.now.held ≡ finite.empty }
    {
        !self.has_any
    }

    // Whether there is room for one more: one test.
    #[inline(always)]
    pub(crate) fn has_place(&self) -> bool
        ensures { IsTrue result → 0 < self.now.room }
    {
        self.newest.is_none()
    }

    // The place of the stray of this number, if it is one: the logarithm of how many there are, whatever their numbers.
    pub(crate) fn get(&self, number: u32) -> Option<usize>
        ensures { result ≡ finite.get self.now.held number }
    {
        if let Some((newest, place)) = self.newest {
            if newest == number {
                return Some(place);
            }
        }
        self.older.get(&number).copied()
    }

    // Makes room for one more stray, and leaves them as they are: the logarithm of how many there are.
    pub(crate) fn reserve(&mut self) -> Result<(), AllocError>
        ensures held { self.new.held ≡ self.old.held }
        ensures room { OnOk result (0 < self.new.room) }
        ensures kept { self.old.room ≤ self.new.room }
    {
        let Some((number, place)) = self.newest else {
            return Ok(());
        };
        self.older.insert(number, place)?;
        self.newest = None;
        Ok(())
    }

    // Puts the place of a stray under its number, where there is room: one step.
    pub(crate) fn put(&mut self, number: u32, place: usize)
        requires { 0 < self.old.room }
        ensures { IsChangedAt self.old.held self.new.held number (Some place) }
    {
        self.newest = Some((number, place));
        self.has_any = true;
    }

    // Takes the place of the stray of this number away, if it is one: the logarithm of how many there are.
    pub(crate) fn remove(&mut self, number: u32)
        ensures { IsChangedAt self.old.held self.new.held number None }
    {
        if let Some((newest, _)) = self.newest {
            if newest == number {
                self.newest = None;
            }
        }
        self.older.remove(&number);
        self.has_any = self.newest.is_some() || !self.older.is_empty();
    }
}
