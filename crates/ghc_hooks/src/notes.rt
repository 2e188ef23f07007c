// The notes of goals.
ghost use Rattle.std.specs.Prelude.{◌≡◌, ◌<◌, ◌≤◌, ◌+◌, ◌^◌, OnOk};

use crate::note::Note;
use ghc_term::{GoalMap, GoalName};
use std::alloc::{AllocError, Global};
use std::marker::Model;

// Notes by the names of their goals.
#[derive(Drop)]
pub struct Notes {
    map: GoalMap<Note>,
}

impl Model for Notes {
    ghost use Rattle.ghc_term.specs.Table.{Table, table_code};
    ghost use Rattle.ghc_hooks.specs.Notes.{NotesByGoal};
    ghost use Rattle.ghc_hooks.specs.inner.TriesCode.{notes_code};

    ghost Value = { Table NotesByGoal };

    ghost coded = { table_code notes_code };

    ghost view = { λ n. n.map };
}

impl Notes {
    ghost use Rattle.std.specs.Prelude.{option_copied};
    ghost use Rattle.std.specs.FinMap as finite;

    // No notes, which take no memory.
    pub fn new(alloc: Global) -> Notes
        ensures { result.held ≡ finite.empty }
    {
        Notes {
            map: GoalMap::new(alloc),
        }
    }

    // How many notes there are.
    pub fn len(&self) -> usize
        ensures count { result ≡ finite.len self.now.held }
        ensures small { result < 2 ^ 63 }
    {
        self.map.len()
    }

    // The note of the goal: one look-up.
    pub fn get(&self, goal: GoalName) -> Option<&Note>
        ensures { option_copied result ≡ finite.get self.now.held goal }
    {
        self.map.get(goal)
    }

    // Makes room for as many more notes of goals of steps up to this number.
    pub fn reserve(&mut self, count: usize, newest: u32) -> Result<(), AllocError>
        ensures held { self.new.held ≡ self.old.held }
        ensures room { OnOk result (count ≤ self.new.room) }
    {
        self.map.reserve(count, newest)
    }

    // Puts the note of the goal, where there is room: one look-up.
    pub fn put(&mut self, goal: GoalName, note: Note)
        requires { 0 < self.old.room }
        ensures { self.new.held ≡ finite.insert self.old.held goal note }
    {
        self.map.put(goal, note);
    }

    // Takes the note of the goal away and gives it, if there is one: one look-up.
    pub fn remove(&mut self, goal: GoalName) -> Option<Note>
        ensures value { result ≡ finite.get self.old.held goal }
        ensures held { self.new.held ≡ finite.remove self.old.held goal }
    {
        self.map.remove(goal)
    }
}
