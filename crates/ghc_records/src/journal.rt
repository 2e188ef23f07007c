// The journal of a core: its accepted steps and commands.
ghost use Rattle.std.specs.Prelude.{◌≡◌, ◌+◌, ◌^◌, ◌<◌, ◌≤◌, length, [], ◌∷◌, ◌++◌, map, OnOk, OnErr, slice_get};
ghost use Rattle.ghc_records.specs.inner.EntryCode.{entry_of};

use crate::entry::Entry;
use std::alloc::{AllocError, Global};
use std::marker::Model;

/// Entries in the order in which they were made.
pub struct Journal {
    entries: Vec<Entry>,
}

impl Drop for Journal {
    fn drop(self) {
        let Journal { entries: _entries } = self;
    }
}

impl Model for Journal {
    ghost use Rattle.std.specs.Prelude.{◌-◌, map, List, vec_len, vec_capacity};
    ghost use Rattle.ghc_term.specs.Table.{Table, table_code};
    ghost use Rattle.ghc_records.specs.Journal.{Entry};
    ghost use Rattle.ghc_records.specs.inner.EntryCode.{entry_of};
    ghost use Rattle.ghc_records.specs.inner.RecordCode.{journal_code};

    ghost Value = { Table (List Entry) };

    ghost coded = { table_code journal_code };

    ghost view = { λ j. record { held = map entry_of j.entries.items; room = vec_capacity j.entries - vec_len j.entries } };
}

impl Journal {
    ghost use Rattle.std.specs.Prelude.{option_map};

    /// No entries, which take no memory.
    pub fn new(alloc: Global) -> Journal
        ensures { result.held ≡ [] }
    {
        Journal {
            entries: Vec::new(alloc),
        }
    }

    /// How many entries there are.
    pub fn len(&self) -> usize
        ensures length { result ≡ length self.now.held }
        ensures few { result < 2 ^ 63 }
    {
        self.entries.len()
    }

    /// The entry at this place, from 0 on: one step.
    pub fn at(&self, place: usize) -> Option<&Entry>
        ensures { option_map (λ e. entry_of e.now) result ≡ slice_get self.now.held place }
    {
        self.entries.get(place)
    }

    /// Makes room for as many more entries. The entries stay, and so does the room where memory is refused.
    pub fn reserve(&mut self, count: usize) -> Result<(), AllocError>
        ensures held { self.new.held ≡ self.old.held }
        ensures room { OnOk result (count ≤ self.new.room) }
        ensures kept { self.old.room ≤ self.new.room }
    {
        self.entries.reserve(count)
    }

    /// Puts an entry at the end, where there is room.
    pub fn put(&mut self, entry: Entry)
        requires { 0 < self.old.room }
        ensures held { self.new.held ≡ self.old.held ++ entry_of entry ∷ [] }
        ensures room { self.old.room ≤ self.new.room + 1 }
    {
        self.entries.push_reserved(entry);
    }
}
