// The history that tells what a core keeps, and the numbers of the kept steps.
ghost use Rattle.std.specs.Prelude.{◌≡◌, ◌↔◌, ◌⊎◌, List, map, Err, IsTrue, IfOk, IfErr, OnOk};
ghost use Rattle.ghc_term.specs.Goal.{Goal};
ghost use Rattle.ghc_fire.specs.declared.act.Act.TheVariants.{Asked as asked};
ghost use Rattle.ghc_records.specs.History.{IsHistory};
ghost use Rattle.ghc_records.specs.Journal.{step_of};
ghost use Rattle.ghc_records.specs.Record.{Record as record_spec, numbers};
ghost use Rattle.ghc_records.specs.inner.Slots.{StandsIn};
ghost use Rattle.ghc_core.specs.Load.{AsksForGoals, AskForGoals, KeepsSlot, history_of};

use crate::core_state::Core;
use ghc_fire::Act;
use ghc_records::{History, Records, Step};
use ghc_term::{Fault, Limit};
use std::alloc::{AllocError, Global};

// Puts the step of the record at this place after the others, if there is one.
fn push_at(records: &Records, place: usize, steps: &mut Vec<Step>) -> Result<(), AllocError>
    ensures { OnOk result (KeepsSlot step_of records.now.slots place steps.old.items steps.new.items) }
{
    let Some(record) = records.at(place) else {
        return Ok(());
    };
    steps.push(record.step()?)?;
    Ok(())
}

// The steps of the records, in their order: one step for each place.
fn steps_of(alloc: Global, records: &Records) -> Result<Vec<Step>, AllocError>
    ensures { IfOk result (λ steps. steps.items ≡ map step_of records.now.held) }
{
    let count = records.len();
    let mut steps = Vec::new(alloc);
    steps.reserve_exact(count)?;
    for place in 0..records.places() {
        push_at(records, place, &mut steps)?;
    }
    Ok(steps)
}

// Puts the number of the record at this place after the others, if there is one.
fn push_number_at(records: &Records, place: usize, numbers: &mut Vec<u32>) -> Result<(), AllocError>
    ensures { OnOk result (KeepsSlot (λ r. r.number) records.now.slots place numbers.old.items numbers.new.items) }
{
    let Some(record) = records.at(place) else {
        return Ok(());
    };
    numbers.push(record.number())?;
    Ok(())
}

// Whether the act asks for goals.
fn asks(act: &Act) -> bool
    ensures { IsTrue result ↔ ((gs : List Goal) × (act.now ≡ asked gs)) }
{
    match act {
        Act::Asked(_) => true,
        Act::ByClause(_) | Act::Unified | Act::Assigned | Act::Given(_) | Act::Closed => false,
    }
}

// Whether the record at this place asks for goals, if there is one.
fn asks_at(records: &Records, place: usize) -> bool
    ensures { IsTrue result ↔ ((r : record_spec) × StandsIn records.now.slots place r × AsksForGoals r) }
{
    let Some(record) = records.at(place) else {
        return false;
    };
    asks(record.act())
}

// Whether one of the records asks for goals: one step for each place.
fn ask_for_goals(records: &Records) -> bool
    ensures { IsTrue result ↔ AskForGoals records.now.held }
{
    let _count = records.len();
    for place in 0..records.places() {
        if asks_at(records, place) {
            return true;
        }
    }
    false
}

impl Core {
    /// The numbers of the kept steps, in recorded order: one step for each place of the record. It fails only where memory is refused.
    pub fn kept_numbers(&self, alloc: Global) -> Result<Vec<u32>, AllocError>
        ensures { IfOk result (λ ns. ns.items ≡ numbers self.now.world.kept) }
    {
        let count = self.records.len();
        let mut kept = Vec::new(alloc);
        kept.reserve_exact(count)?;
        for place in 0..self.records.places() {
            push_number_at(&self.records, place, &mut kept)?;
        }
        Ok(kept)
    }

    /// Whether a kept step asks for goals: one step for each place of the record.
    pub fn asks_for_goals(&self) -> bool
        ensures { IsTrue result ↔ AskForGoals self.now.world.kept }
    {
        ask_for_goals(&self.records)
    }

    /// The history of the steps that the core keeps: two steps for each place of the record. `Limit` of the version exactly where a
    /// kept step asks for goals, which it reports before it asks for memory. Else it fails only where memory is refused or a count
    /// of handles is full.
    pub fn history(&self, alloc: Global) -> Result<History, Fault>
        ensures history { IfOk result (λ history. history ≡ history_of self.now.world) }
        ensures form { IfOk result (λ _. IsHistory (history_of self.now.world)) }
        ensures asked { AskForGoals self.now.world.kept → result ≡ Err (Fault.Limit Limit.Version) }
        ensures fault { IfErr result (λ f. (f ≡ Fault.Memory) ⊎ ((f ≡ Fault.Limit Limit.Version) × AskForGoals self.now.world.kept)) }
    {
        self.stands();
        if ask_for_goals(&self.records) {
            return Err(Fault::Limit(Limit::Version));
        }
        let steps = steps_of(alloc, &self.records)?;
        Ok(History::new(alloc, steps, self.next)?)
    }
}
