// Records in slots, in recorded order: one that is taken out leaves a gap, and those after it stay where they are.
ghost use Rattle.std.specs.Prelude.{◌≡◌, ◌≢◌, ◌↔◌, ◌+◌, ◌<◌, ◌≤◌, ◌++◌, ◌∷◌, [], length, slice_set, filter, is_some, ℕ, IsTrue, IfSome, IfNone, IfOk, OnOk, Some, None};
ghost use Rattle.ghc_term.specs.Lists.{In};
ghost use Rattle.std.specs.Option.{option_copied};
ghost use Rattle.ghc_records.specs.Orders.{AreDistinct};
ghost use Rattle.ghc_records.specs.Record.{Record as record_spec, numbers};
ghost use Rattle.ghc_term.specs.declared.var_name.VarName.{VarName as var_name};
ghost use Rattle.ghc_records.specs.Uses.{Binds};
ghost use Rattle.ghc_records.specs.UseIndex.{StepBinds};
ghost use Rattle.ghc_records.specs.inner.Slots.{held_in, held_before, StandsIn, HasNumberIn, AreStraysOf};

use crate::record::Record;
use crate::table::strays::Strays;
use ghc_term::VarName;
use std::alloc::{AllocError, Global};
use std::marker::Model;
use std::mem;

// Records in slots, no two of one number, and how many these are. The record of a step mostly stands at the place just below its
// number; of each other one, a stray, the place stands under its number, and is found by a search: the logarithm of how many strays
// there are, whatever their numbers. Where memory allows, no more than half of the slots, and
// one, are gaps.
#[derive(Drop)]
pub(crate) struct Slots {
    slots: Vec<Option<Record>>,
    strays: Strays,
    count: usize,
}

impl Model for Slots {
    ghost use Rattle.std.specs.Prelude.{◌≡◌, ◌-◌, min, length, vec_len, vec_capacity};
    ghost use Rattle.ghc_term.specs.Table.{Table, table_code};
    ghost use Rattle.ghc_records.specs.Record.{numbers};
    ghost use Rattle.ghc_records.specs.Orders.{AreDistinct};
    ghost use Rattle.ghc_records.specs.inner.Slots.{SlotList, held_in, AreStraysOf};
    ghost use Rattle.ghc_records.specs.inner.RecordCode.{slots_code};

    ghost Value = { Table SlotList };

    ghost coded = { table_code slots_code };

    ghost view = { λ s. record { held = s.slots.items; room = min (vec_capacity s.slots - vec_len s.slots) s.strays.room } };

    ghost invariant = { λ s. AreDistinct (numbers (held_in s.slots.items)) × (s.count ≡ length (held_in s.slots.items)) × AreStraysOf s.slots.items s.strays.held };
}

// The record in the slot of this place, if it has one: one step.
fn record_in(slots: &[Option<Record>], place: usize) -> Option<&Record>
    ensures { (r : record_spec) → (option_copied result ≡ Some r) ↔ StandsIn slots.now place r }
{
    match slots.get(place) {
        Some(slot) => slot.as_ref(),
        None => None,
    }
}

// The number of the step in the slot of this place, if it has one that bound the variable: one look-up.
fn binder_in(slots: &[Option<Record>], place: usize, x: VarName) -> Option<u32>
    ensures some { IfSome result (λ n. (r : record_spec) × StandsIn slots.now place r × Binds r x × (r.number ≡ n)) }
    ensures none { IfNone result ((r : record_spec) → StandsIn slots.now place r → ¬ Binds r x) }
{
    let record = record_in(slots, place)?;
    match record.effect().binds().get(x) {
        Some(_) => Some(record.number()),
        None => None,
    }
}

// Whether the place is just below the number.
fn is_just_below(place: usize, number: u32) -> bool
    ensures { IsTrue result ↔ (place + 1 ≡ number) }
{
    (number as usize).checked_sub(place) == Some(1)
}

// The strays among the records of these slots as they will stand when the gaps are closed up. It fails only where memory is
// refused. It takes one pass, with a search for each stray among those found.
fn strays_when_closed(alloc: Global, slots: &[Option<Record>]) -> Result<Strays, AllocError>
    requires { AreDistinct (numbers (held_in slots.now)) }
    ensures { IfOk result (λ strays. AreStraysOf (filter is_some slots.now) strays.held) }
{
    let mut strays = Strays::new(alloc);
    let mut place = 0;
    for slot in slots {
        if let Some(record) = slot {
            if !is_just_below(place, record.number()) {
                strays.reserve()?;
                strays.put(record.number(), place);
            }
            place += 1;
        }
    }
    Ok(strays)
}

impl Slots {
    ghost use Rattle.ghc_records.specs.Record.{Record};
    ghost use Rattle.ghc_records.specs.Orders.{Picks};

    // No slots, which take no memory.
    pub(crate) fn new(alloc: Global) -> Slots
        ensures { result.held ≡ [] }
    {
        Slots {
            slots: Vec::new(alloc),
            strays: Strays::new(alloc),
            count: 0,
        }
    }

    // How many slots there are, gaps among them.
    pub(crate) fn slot_count(&self) -> usize
        ensures { result ≡ length self.now.held }
    {
        self.slots.len()
    }

    // How many records there are.
    pub(crate) fn len(&self) -> usize
        ensures count { result ≡ length (held_in self.now.held) }
        ensures distinct { AreDistinct (numbers (held_in self.now.held)) }
    {
        self.count
    }

    // The place just below the number, where the record of the step of this number mostly stands, if it does: one step.
    #[inline(always)]
    fn likely_place_of(&self, number: u32) -> Option<usize>
        ensures { (p : ℕ) → (result ≡ Some p) ↔ (HasNumberIn self.now.held p number × (p + 1 ≡ number)) }
    {
        let strays = &self.strays;
        let place = (number as usize).checked_sub(1)?;
        let record = self.at(place)?;
        if strays.is_empty() {
            // Each record stands just below its number, so there is no need to look at this one.
            return Some(place);
        }
        if record.number() == number {
            return Some(place);
        }
        None
    }

    // The place of the record of the step of this number: one step where it is the likely one, or else a search among the strays.
    #[inline(always)]
    pub(crate) fn place_of(&self, number: u32) -> Option<usize>
        ensures { (p : ℕ) → (result ≡ Some p) ↔ HasNumberIn self.now.held p number }
    {
        let strays = &self.strays;
        if let Some(place) = self.likely_place_of(number) {
            return Some(place);
        }
        strays.get(number)
    }

    // The record in the slot of this place, if it has one: one step.
    #[inline(always)]
    pub(crate) fn at(&self, place: usize) -> Option<&Record>
        ensures { (r : Record) → (option_copied result ≡ Some r) ↔ StandsIn self.now.held place r }
    {
        record_in(self.slots.as_slice(), place)
    }

    // The record of the step of this number, wherever it stands: a search among the strays at most.
    #[inline(never)]
    fn find(&self, number: u32) -> Option<&Record>
        ensures found { IfSome result (λ r. In r.now (held_in self.now.held) × (r.now.number ≡ number)) }
        ensures none { IfNone result ((r : Record) → In r (held_in self.now.held) → r.number ≢ number) }
    {
        match self.place_of(number) {
            Some(place) => self.at(place),
            None => None,
        }
    }

    // The record of the step of this number: one step where it stands at the likely place, or else a search
    // among the strays.
    #[inline(always)]
    pub(crate) fn get(&self, number: u32) -> Option<&Record>
        ensures found { IfSome result (λ r. In r.now (held_in self.now.held) × (r.now.number ≡ number)) }
        ensures none { IfNone result ((r : Record) → In r (held_in self.now.held) → r.number ≢ number) }
    {
        if let Some(place) = self.likely_place_of(number) {
            return self.at(place);
        }
        self.find(number)
    }

    // The record of the step of this number, if it stands before this place: one look-up.
    pub(crate) fn get_before(&self, before: usize, number: u32) -> Option<&Record>
        ensures found { IfSome result (λ r. In r.now (held_before before self.now.held) × (r.now.number ≡ number)) }
        ensures none { IfNone result ((r : Record) → In r (held_before before self.now.held) → r.number ≢ number) }
    {
        let _count = self.len();
        match self.place_of(number) {
            Some(place) => { if place < before { self.at(place) } else { None } }
            None => None,
        }
    }

    // The number of the step that bound the variable, if one from this place on did: it goes once over these, up to that step.
    pub(crate) fn binder_from(&self, first: usize, x: VarName) -> Option<u32>
        ensures some { IfSome result (λ n. StepBinds (held_in self.now.held) n x) }
        ensures none { IfNone result ((p : ℕ) (r : Record) → first ≤ p → StandsIn self.now.held p r → ¬ Binds r x) }
    {
        for place in first..self.slots.len() {
            if let Some(binder) = binder_in(self.slots.as_slice(), place, x) {
                return Some(binder);
            }
        }
        None
    }

    // Makes room for one more record where it is not known to be there.
    #[inline(never)]
    fn make_room(&mut self) -> Result<(), AllocError>
        ensures held { self.new.held ≡ self.old.held }
        ensures room { OnOk result (0 < self.new.room) }
        ensures kept { self.old.room ≤ self.new.room }
    {
        self.slots.reserve(1)?;
        self.strays.reserve()
    }

    // Makes room for one more record: mostly two tests. The records stay, and so does the room where memory is refused.
    #[inline(always)]
    pub(crate) fn reserve(&mut self) -> Result<(), AllocError>
        ensures held { self.new.held ≡ self.old.held }
        ensures room { OnOk result (0 < self.new.room) }
        ensures kept { self.old.room ≤ self.new.room }
    {
        if self.strays.has_place() && self.slots.len() < self.slots.capacity() {
            return Ok(());
        }
        self.make_room()
    }

    // Puts a record, whose number no other has, in a slot after the others, where there is room: one step.
    #[inline(always)]
    pub(crate) fn put(&mut self, step: Record)
        requires room { 0 < self.old.room }
        requires new { (r : Record) → In r (held_in self.old.held) → r.number ≢ step.number }
        ensures { self.new.held ≡ self.old.held ++ Some step ∷ [] }
    {
        let place = self.slots.len();
        if !is_just_below(place, step.number()) {
            self.strays.put(step.number(), place);
        }
        self.count += 1;
        self.slots.push_reserved(Some(step));
    }

    // Takes the record of the step of this number out, if there is one, and leaves a gap: two searches among the strays if it
    // was one.
    fn take_out(&mut self, number: u32) -> Option<Record>
        ensures taken { IfSome result (λ r. (p : ℕ) × StandsIn self.old.held p r × (r.number ≡ number)) }
        ensures gap { (p : ℕ) → HasNumberIn self.old.held p number → self.new.held ≡ slice_set self.old.held p None }
        ensures none { IfNone result ((r : Record) → In r (held_in self.old.held) → r.number ≢ number) }
        ensures none_left { IfNone result (self.new.held ≡ self.old.held) }
    {
        let place = self.place_of(number)?;
        let removed = mem::replace(&mut self.slots[place], None);
        if !is_just_below(place, number) {
            self.strays.remove(number);
        }
        self.count -= 1;
        removed
    }

    // Closes the gaps up, where there is memory for the strays that this leaves: two passes over the slots, with a search for each
    // stray. Where memory is refused, the gaps stay, and the next removal tries again.
    fn close_up(&mut self)
        ensures { held_in self.new.held ≡ held_in self.old.held }
    {
        let alloc = *self.slots.allocator();
        let Ok(strays) = strays_when_closed(alloc, self.slots.as_slice()) else {
            return;
        };
        self.slots.retain(|slot: &Option<Record>| slot.is_some());
        self.strays = strays;
    }

    // Takes the record of the step of this number out, if there is one; the others keep their order. Two searches among the strays at most; where
    // then more than half of the slots are gaps, these are closed up, if memory allows: so it is as if each removal cost two searches
    // more.
    pub(crate) fn remove(&mut self, number: u32) -> Option<Record>
        ensures found { IfSome result (λ r. In r (held_in self.old.held) × (r.number ≡ number)) }
        ensures rest { (r : Record) → In r (held_in self.old.held) → r.number ≡ number → Picks (λ s. ¬ (s ≡ r)) (held_in self.old.held) (held_in self.new.held) }
        ensures none { IfNone result ((r : Record) → In r (held_in self.old.held) → r.number ≢ number) }
        ensures none_left { IfNone result (held_in self.new.held ≡ held_in self.old.held) }
    {
        let _count = self.len();
        let removed = self.take_out(number);
        if self.slots.len() / 2 > self.count {
            self.close_up();
        }
        removed
    }
}
