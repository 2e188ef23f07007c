// Changes of a core: each is found, and then made.
ghost use Rattle.std.specs.Prelude.{◌≡◌, OnOk, OnErr};
ghost use Rattle.ghc_term.specs.Lists.{In};
ghost use Rattle.ghc_hooks.specs.Notes.{AreLeft};
ghost use Rattle.ghc_records.specs.Record.{Record as record_spec};
ghost use Rattle.ghc_depend.specs.Kept.{IsWithout};
ghost use Rattle.ghc_core.specs.declared.changes.Change.TheVariants.{Comes as comes};
ghost use Rattle.ghc_core.specs.Core.{Stays};
ghost use Rattle.ghc_core.specs.Change.{with_coming, CanChange, HasRoomFor, Changes, IsBoundBy};

pub(crate) mod arrange;
pub(crate) mod ask;
pub(crate) mod carrying;
pub(crate) mod commit;
pub(crate) mod feeding;
pub(crate) mod foreseen;
pub(crate) mod order;
pub(crate) mod prepared;
pub(crate) mod recheck;
pub(crate) mod redo;
pub(crate) mod rollback;
pub(crate) mod rolling;
pub(crate) mod undo;

use crate::changes::arrange::Arrangement;
use crate::changes::carrying::carry_over;
use crate::changes::rollback::Rollback;
use crate::core_state::Core;
use ghc_records::{Addition, Entry, Record, Records};
use std::alloc::AllocError;

/// Where a step is from that comes.
#[derive(Clone, Copy, Drop)]
pub enum Coming {
    /// It is the next one, which gets the next number.
    Next,
    /// It is from the shelf, and has its old number.
    Shelved,
}

/// How steps go.
#[derive(Clone, Copy, Drop)]
pub enum Going {
    /// One is undone, and no other goes with it.
    Alone,
    /// One is rolled back, and its consequences go with it.
    Together,
}

/// A change of a core that was found: all that it takes is at hand, but for room in the tables, and nothing has moved.
#[derive(Drop)]
pub enum Change {
    /// A step comes, and its record is the last.
    Comes(Coming, Addition),
    /// Steps go, and their records are put on the shelf.
    Goes(Going, Rollback),
    /// The record is put into another order.
    Reorders(Arrangement),
}

/// Takes the step of this number out of the record: what `Records::remove` costs.
pub(crate) fn strike(records: &mut Records, number: u32)
    ensures { (r : record_spec) → In r records.old.held → r.number ≡ number → IsWithout records.old.held r records.new.held }
{
    let _ = records.remove(number);
}

impl Core {
    // Makes room for the step that comes.
    #[inline(always)]
    pub(crate) fn reserve_to_add(&mut self, step: &Record) -> Result<(), AllocError>
        ensures room { OnOk result (HasRoomFor self.new.world self.new.room (comes Coming.Next step.now)) }
        ensures stays { Stays self.old self.new }
        ensures meter { self.new.meter ≡ self.old.meter }
    {
        self.state.reserve_for(step)?;
        self.tries
            .reserve(step.effect().makes().len(), step.number())?;
        self.journal.reserve(1)?;
        self.records.reserve()
    }

    // Makes room for the change. It costs nothing where there is room; a table that is full moves to one of about twice its size.
    fn reserve(&mut self, change: &Change) -> Result<(), AllocError>
        ensures room { OnOk result (HasRoomFor self.new.world self.new.room change.now) }
        ensures stays { Stays self.old self.new }
        ensures meter { self.new.meter ≡ self.old.meter }
    {
        match change {
            Change::Comes(_, addition) => self.reserve_to_add(addition.step()),
            Change::Goes(_, rollback) => self.reserve_to_roll(rollback),
            Change::Reorders(_) => self.reserve_to_arrange(),
        }
    }

    // Takes a step that comes: one look-up for each of its goals and bindings, and some for each goal that looked at what it binds.
    fn add(&mut self, from: Coming, addition: Addition)
        requires found { CanChange self.old.world (comes from addition) }
        requires room { HasRoomFor self.old.world self.old.room (comes from addition) }
        ensures world { self.new.world ≡ with_coming from addition self.old.world }
        ensures notes { AreLeft self.new.world.state.goals (IsBoundBy (comes from addition)) self.old.notes self.new.notes }
        ensures meter { self.new.meter ≡ self.old.meter }
    {
        let (step, entry) = self.state.take(addition);
        let number = step.number();
        carry_over(&mut self.tries, &step);
        self.streams.tell(&step);
        self.records.put(step);
        match from {
            Coming::Next => {
                self.journal.put(entry);
                self.next += 1;
            }
            Coming::Shelved => {
                let _ = self.shelf.remove(number);
                self.journal.put(Entry::Redid(number));
            }
        }
    }

    // Makes a change where there is room for it, which cannot fail.
    fn apply(&mut self, change: Change)
        requires found { CanChange self.old.world change }
        requires room { HasRoomFor self.old.world self.old.room change }
        ensures changed { Changes self.old.world change self.new.world }
        ensures notes { AreLeft self.new.world.state.goals (IsBoundBy change) self.old.notes self.new.notes }
        ensures meter { self.new.meter ≡ self.old.meter }
    {
        match change {
            Change::Comes(from, addition) => self.add(from, addition),
            Change::Goes(how, rollback) => self.take_away(how, rollback),
            Change::Reorders(arrangement) => self.put_in_order(arrangement),
        }
    }

    /// Makes a change that was found in this state: a note stays just where its goal is still there and did not look at what the
    /// steps of the change bind, and nothing is tried. Room in the tables is made first, and where memory for it is refused
    /// nothing changes; then nothing can fail. To take a step costs a look-up for each of its goals and bindings, and some for
    /// each goal that looked at what it binds; to take one away, and what `Records::remove` costs; to take away a step with its
    /// consequences, as much for each; to put the record into another order, the letting go of the old one. A table that is full
    /// moves to one of about twice its size.
    #[inline(never)]
    pub fn make(&mut self, change: Change) -> Result<(), AllocError>
        requires found { CanChange self.old.world change }
        ensures changed { OnOk result (Changes self.old.world change self.new.world) }
        ensures notes { OnOk result (AreLeft self.new.world.state.goals (IsBoundBy change) self.old.notes self.new.notes) }
        ensures stays { OnErr result (Stays self.old self.new) }
        ensures meter { self.new.meter ≡ self.old.meter }
    {
        self.reserve(&change)?;
        self.apply(change);
        Ok(())
    }
}
