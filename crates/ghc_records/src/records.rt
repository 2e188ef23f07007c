// The records of the kept steps, in recorded order.
ghost use Rattle.std.specs.Prelude.{◌≡◌, ◌≢◌, ◌↔◌, ◌+◌, ◌<◌, ◌≤◌, ℕ, length, [], ◌∷◌, ◌++◌, IfSome, IfNone, IfOk, OnOk, IsTrue, Some};
ghost use Rattle.ghc_term.specs.declared.var_name.VarName.{VarName};
ghost use Rattle.ghc_records.specs.Uses.{Binds};
ghost use Rattle.ghc_records.specs.UseIndex.{StepDependsOn, StepBinds};

use crate::record::Record;
use crate::table::slots::Slots;
use crate::table::use_index::UseIndex;
use ghc_term::VarName;
use std::alloc::{AllocError, Global};
use std::marker::Model;

/// Records in recorded order, no two of one number, each found by its number, with an index of the steps that depend directly on each,
/// and of the step that bound each variable. A step that is put is not in the index until this is made whole, by whoever asks: so runs
/// do not pay for questions that nobody asks. A place is that of a slot: of two records that one stands before the other whose place is
/// less. Places are compared, never counted: a record that is taken out leaves a gap, which may be closed up at a later removal. A
/// look-up by number is one step where numbers run with the places, else the logarithm of how many do not, whatever they are.
#[derive(Drop)]
pub struct Records {
    slots: Slots,
    index: UseIndex,
    // how many slots, from the first on, the index has
    indexed: usize,
}

impl Model for Records {
    ghost use Rattle.std.specs.Prelude.{◌≤◌, length};
    ghost use Rattle.ghc_records.specs.inner.Slots.{held_in, held_before};
    ghost use Rattle.ghc_records.specs.UseIndex.{RecordsTables, IsIndexOf, BoundOnce};
    ghost use Rattle.ghc_records.specs.inner.RecordCode.{records_tables_code};

    ghost Value = { RecordsTables };

    ghost coded = { records_tables_code };

    ghost view = { λ r. record { held = held_in r.slots.held; slots = r.slots.held; indexed = r.indexed; room = r.slots.room } };

    ghost invariant = { λ r. (r.indexed ≤ length r.slots.held) × IsIndexOf (held_before r.indexed r.slots.held) r.index.users r.index.binders.held × BoundOnce (held_in r.slots.held) };
}

impl Records {
    ghost use Rattle.std.specs.Prelude.{option_copied};
    ghost use Rattle.ghc_term.specs.Lists.{In};
    ghost use Rattle.ghc_records.specs.Record.{Record, numbers};
    ghost use Rattle.ghc_records.specs.Orders.{AreDistinct, Picks};
    ghost use Rattle.ghc_records.specs.inner.Slots.{held_in, StandsIn, HasNumberIn};

    /// No records, which take no memory.
    pub fn new(alloc: Global) -> Records
        ensures { result.held ≡ [] }
    {
        Records {
            slots: Slots::new(alloc),
            index: UseIndex::new(alloc),
            indexed: 0,
        }
    }

    /// How many records there are.
    pub fn len(&self) -> usize
        ensures count { result ≡ length self.now.held }
        ensures distinct { AreDistinct (numbers self.now.held) }
        ensures slots { self.now.held ≡ held_in self.now.slots }
    {
        self.slots.len()
    }

    /// The number of slots: all places are less. Where memory allows, no more than half of them, and one, are gaps.
    pub fn places(&self) -> usize
        ensures { result ≡ length self.now.slots }
    {
        self.slots.slot_count()
    }

    /// The record of the step of this number: one look-up.
    #[inline(always)]
    pub fn get(&self, number: u32) -> Option<&Record>
        ensures found { IfSome result (λ r. In r.now self.now.held × (r.now.number ≡ number)) }
        ensures none { IfNone result ((r : Record) → In r self.now.held → r.number ≢ number) }
    {
        self.slots.get(number)
    }

    /// The record at this place; none where there is a gap, or no such place: one step.
    pub fn at(&self, place: usize) -> Option<&Record>
        ensures { (r : Record) → (option_copied result ≡ Some r) ↔ StandsIn self.now.slots place r }
    {
        self.slots.at(place)
    }

    /// The place of the record of the step of this number: one look-up.
    pub fn place_of(&self, number: u32) -> Option<usize>
        ensures found { IfSome result (λ p. HasNumberIn self.now.slots p number) }
        ensures none { IfNone result ((r : Record) → In r self.now.held → r.number ≢ number) }
    {
        self.slots.place_of(number)
    }

    /// The records of these numbers in this order, shared with these. It fails only where memory is refused. It goes once over
    /// the order, with some look-ups for each number.
    pub fn in_order(&self, alloc: Global, order: &[u32]) -> Result<Records, AllocError>
        requires kept { (n : ℕ) → In n order.now → In n (numbers self.now.held) }
        requires distinct { AreDistinct order.now }
        ensures numbers { IfOk result (λ new. numbers new.held ≡ order.now) }
        ensures kept { IfOk result (λ new. (r : Record) → In r new.held → In r self.now.held) }
    {
        let _count = self.slots.len();
        let mut new = Records::new(alloc);
        for number in order {
            new.put_shared(self.get(*number).unwrap())?;
        }
        Ok(new)
    }

    // Whether the index has all slots: one test.
    fn is_whole(&self) -> bool
        ensures whole { IsTrue result ↔ (self.now.indexed ≡ length self.now.slots) }
        ensures within { self.now.indexed ≤ length self.now.slots }
    {
        self.indexed == self.slots.slot_count()
    }

    // Puts the next slot in the index, which does not have it: some look-ups for each variable that its step read, bound or names.
    fn index_next(&mut self) -> Result<(), AllocError>
        requires { self.old.indexed < length self.old.slots }
        ensures held { self.new.held ≡ self.old.held }
        ensures slots { self.new.slots ≡ self.old.slots }
        ensures room { self.new.room ≡ self.old.room }
        ensures indexed { OnOk result (self.new.indexed ≡ self.old.indexed + 1) }
    {
        let place = self.indexed;
        let _slots = self.slots.slot_count();
        let Some(step) = self.slots.at(place) else {
            self.indexed = place + 1;
            return Ok(());
        };
        self.index.add(&self.slots, place, step)?;
        self.indexed = place + 1;
        Ok(())
    }

    /// Makes the index whole, so that each question about users and binders is a look-up. The records stay, and so does what was indexed
    /// where memory is refused. It costs some look-ups for each variable that a step read, bound or names which was put since.
    pub fn index_all(&mut self) -> Result<(), AllocError>
        ensures held { self.new.held ≡ self.old.held }
        ensures slots { self.new.slots ≡ self.old.slots }
        ensures room { self.new.room ≡ self.old.room }
        ensures whole { OnOk result (self.new.indexed ≡ length self.new.slots) }
    {
        for _ in self.indexed..self.slots.slot_count() {
            self.index_next()?;
        }
        Ok(())
    }

    /// The numbers of the steps that depend directly on the step of this number, in no order that is promised: one look-up. None where
    /// the index is not whole.
    pub fn users_of(&self, number: u32) -> Option<&[u32]>
        ensures users { IfSome result (λ users. (n : ℕ) → In n users.now ↔ StepDependsOn self.now.held n number) }
        ensures none { IfNone result (self.now.indexed < length self.now.slots) }
    {
        if !self.is_whole() {
            return None;
        }
        Some(self.index.users_of(number))
    }

    /// The number of the step that bound the variable, if one did: one look-up, and one for each step that the index does not have.
    pub fn binder_of(&self, x: VarName) -> Option<u32>
        ensures { (n : ℕ) → (result ≡ Some n) ↔ StepBinds self.now.held n x }
    {
        match self.index.binder_of(x) {
            Some(binder) => Some(binder),
            None => self.slots.binder_from(self.indexed, x),
        }
    }

    /// Makes room to put one more step. The records stay, and so does the room where memory is refused.
    #[inline(always)]
    pub fn reserve(&mut self) -> Result<(), AllocError>
        ensures held { self.new.held ≡ self.old.held }
        ensures room { OnOk result (0 < self.new.room) }
        ensures kept { self.old.room ≤ self.new.room }
    {
        self.slots.reserve()
    }

    /// Puts a step at the end, whose number no other has, and which binds no variable that another bound, where there is room: one step.
    #[inline(always)]
    pub fn put(&mut self, step: Record)
        requires room { 0 < self.old.room }
        requires new { (r : Record) → In r self.old.held → r.number ≢ step.number }
        requires unbound { (r : Record) (x : VarName) → In r self.old.held → Binds r x → ¬ Binds step x }
        ensures { self.new.held ≡ self.old.held ++ step ∷ [] }
    {
        self.slots.put(step);
    }

    // Puts the step at the end, as `put` does, shared with this one. Where memory is refused, the records stay.
    #[inline(always)]
    fn put_shared(&mut self, step: &Record) -> Result<(), AllocError>
        requires new { (r : Record) → In r self.old.held → r.number ≢ step.now.number }
        requires unbound { (r : Record) (x : VarName) → In r self.old.held → Binds r x → ¬ Binds step.now x }
        ensures { OnOk result (self.new.held ≡ self.old.held ++ step.now ∷ []) }
    {
        let step = step.share()?;
        self.reserve()?;
        self.put(step);
        Ok(())
    }

    /// Takes the record of the step of this number away and gives it, if there was one; the others keep their order. Where the index is
    /// whole, it costs some look-ups, and some for each variable that the step read, bound or names; else the index is empty then. The
    /// records after it stay where they are.
    pub fn remove(&mut self, number: u32) -> Option<Record>
        ensures found { IfSome result (λ r. In r self.old.held × (r.number ≡ number)) }
        ensures rest { (r : Record) → In r self.old.held → r.number ≡ number → Picks (λ s. ¬ (s ≡ r)) self.old.held self.new.held }
        ensures none { IfNone result ((r : Record) → In r self.old.held → r.number ≢ number) }
        ensures none_left { IfNone result (self.new.held ≡ self.old.held) }
    {
        let _count = self.len();
        let was_whole = self.is_whole();
        self.slots.place_of(number)?;
        let removed = self.slots.remove(number)?;
        if was_whole {
            self.indexed = self.slots.slot_count();
            self.index.remove(&self.slots, &removed);
        } else {
            self.indexed = 0;
            self.index.clear();
        }
        Some(removed)
    }
}
