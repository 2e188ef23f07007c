// The records of the steps that were taken away and not redone.
ghost use Rattle.std.specs.Prelude.{◌≡◌, ◌+◌, ◌<◌, ◌≤◌, map, IfOk, OnOk, OnErr};

use crate::record::Record;
use indexmap::IndexMap;
use std::alloc::{AllocError, Global};
use std::collections::BTreeMap;
use std::marker::Model;

/// Records by the numbers of their steps.
pub struct Shelf {
    map: IndexMap<u32, Record>,
}

impl Drop for Shelf {
    fn drop(self) {
        let Shelf { map: _map } = self;
    }
}

impl Model for Shelf {
    ghost use Rattle.std.specs.FinMap as finite;
    ghost use Rattle.indexmap.specs.IndexMap.{spare};
    ghost use Rattle.ghc_term.specs.Table.{Table, table_code};
    ghost use Rattle.ghc_records.specs.Record.{Shelf};
    ghost use Rattle.ghc_records.specs.inner.RecordCode.{shelf_code};

    ghost Value = { Table Shelf };

    ghost coded = { table_code shelf_code };

    ghost view = { λ s. record { held = finite.from_entries s.map.entries; room = spare s.map } };
}

impl Shelf {
    ghost use Rattle.std.specs.Prelude.{option_copied};
    ghost use Rattle.std.specs.FinMap as finite;

    /// An empty shelf, which takes no memory.
    pub fn new(alloc: Global) -> Shelf
        ensures { result.held ≡ finite.empty }
    {
        Shelf {
            map: IndexMap::new(alloc),
        }
    }

    /// The record of the step of this number: one look-up.
    pub fn get(&self, number: u32) -> Option<&Record>
        ensures { option_copied result ≡ finite.get self.now.held number }
    {
        self.map.get(&number)
    }

    /// The records by the numbers of their steps, in the order of the numbers. Each is put in its place in the order, and no
    /// record is copied.
    pub fn by_number(&self, alloc: Global) -> Result<BTreeMap<u32, &Record>, AllocError>
        ensures { IfOk result (λ ordered. map (λ e. (e.0, e.1.now)) ordered.entries ≡ finite.entries self.now.held) }
    {
        let mut ordered = BTreeMap::new(alloc);
        // Of two of one number the first would count, so it is put last.
        for (number, taken) in self.map.iter().rev() {
            ordered.insert(*number, taken)?;
        }
        let _count = ordered.len();
        Ok(ordered)
    }

    /// Makes room for as many more records. The records stay, and so does the room where memory is refused.
    pub fn reserve(&mut self, count: usize) -> Result<(), AllocError>
        ensures held { self.new.held ≡ self.old.held }
        ensures room { OnOk result (count ≤ self.new.room) }
        ensures kept { self.old.room ≤ self.new.room }
    {
        self.map.reserve(count)
    }

    /// Puts a record under the number of its step, in place of one that it had, where there is room: one look-up.
    pub fn put(&mut self, step: Record)
        requires { 0 < self.old.room }
        ensures held { self.new.held ≡ finite.insert self.old.held step.number step }
        ensures room { self.old.room ≤ self.new.room + 1 }
    {
        self.map.insert(step.number(), step).unwrap();
    }

    /// Takes the record of this number away and gives it, if there was one: one look-up. The room does not shrink.
    pub fn remove(&mut self, number: u32) -> Option<Record>
        ensures value { result ≡ finite.get self.old.held number }
        ensures held { self.new.held ≡ finite.remove self.old.held number }
        ensures room { self.old.room ≤ self.new.room }
    {
        self.map.swap_remove(&number)
    }
}
