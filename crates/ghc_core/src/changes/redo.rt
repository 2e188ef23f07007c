// Taking a shelved step again.
ghost use Rattle.std.specs.Prelude.{◌≡◌, ◌⊎◌, ◌↔◌, false, None, Some, IfOk, IfErr, OnOk, OnErr, Err, IsTrue};
ghost use Rattle.std.specs.FinMap as finite;
ghost use Rattle.ghc_fire.specs.Meter.{fired};
ghost use Rattle.ghc_hooks.specs.Notes.{AreLeft};
ghost use Rattle.ghc_records.specs.Record.{Record as record_spec, IsThere, Fires};
ghost use Rattle.ghc_depend.specs.Depend.{Binds};
ghost use Rattle.ghc_core.specs.Events.{redo, stepped};
ghost use Rattle.ghc_core.specs.Answers.{Obeys};
ghost use Rattle.ghc_core.specs.Refusals.{RedoFails, LacksGoal};
ghost use Rattle.ghc_core.specs.declared.changes.Change.TheVariants.{Comes as comes};
ghost use Rattle.ghc_core.specs.Change.{CanChange};
ghost use Rattle.ghc_core.specs.Core.{Stays};

use crate::changes::commit::KEPT_LIMIT;
use crate::changes::{Change, Coming};
use crate::core_state::Core;
use crate::variables::names_known;
use ghc_fire::{Goals, Meter, has_effect};
use ghc_flat::Program;
use ghc_records::{Addition, Record, State};
use ghc_term::{Fault, Goal};
use std::alloc::{AllocError, Global};

// Whether the step names a goal that is not there: one look-up.
fn lacks_goal(goals: &Goals, step: &Record) -> bool
    ensures { IsTrue result ↔ LacksGoal goals.now.held step.now }
{
    match step.goal() {
        Some(name) => goals.get(name).is_none(),
        None => false,
    }
}

// Whether the goal that the step consumed is there, as written: one look-up, and a comparison.
fn is_there(
    alloc: Global,
    goals: &Goals,
    step: &Record,
    consumed: &Goal,
) -> Result<bool, AllocError>
    requires { step.now.consumed ≡ Some consumed.now }
    ensures { IfOk result (λ there. IsTrue there ↔ IsThere goals.now.held step.now.goal step.now.consumed) }
{
    let Some(name) = step.goal() else {
        return Ok(false);
    };
    match goals.get(name) {
        Some(goal) => goal.same(alloc, consumed),
        None => Ok(false),
    }
}

// Whether the step is possible in the state, with the effect recorded: one that consumes nothing, and asks for goals, is. A firing
// is counted.
fn fires(
    alloc: Global,
    meter: &mut Meter,
    program: &Program,
    state: &State,
    step: &Record,
) -> Result<bool, AllocError>
    requires asks { step.now.consumed ≡ None → Fires program.now state.now.held step.now }
    ensures answer { IfOk result (λ yes. IsTrue yes ↔ Fires program.now state.now.held step.now) }
    ensures counted { meter.new ≡ fired meter.old }
{
    let Some(consumed) = step.consumed() else {
        meter.count_firing();
        return Ok(true);
    };
    let has = has_effect(
        alloc,
        meter,
        program,
        state.store(),
        consumed,
        step.act(),
        step.number(),
        step.effect(),
    )?;
    if !has {
        return Ok(false);
    }
    is_there(alloc, state.goals(), step, consumed)
}

impl Core {
    /// Finds what it takes to take the shelved step of this number again, at the end of the record, with the effect recorded:
    /// `NotShelved` exactly where it is not on the shelf; else `NoGoal` exactly where the goal that it consumed is not there; else
    /// `NoVariable` exactly where it names a variable that is neither the query's nor made by a kept step. It reports these before
    /// it asks for memory, and fires nothing for them. Then it fires the step once: `Changed` exactly where it would not do now
    /// what was recorded (one that asks for goals would). Else `Full` exactly where 1,000,000 steps are kept. Else it fails only
    /// where memory is refused. But for the meter the core stays as it is. A look-up is made for each variable that it names.
    pub fn prepare_redo(&mut self, alloc: Global, number: u32) -> Result<Addition, Fault>
        ensures found { IfOk result (λ step. CanChange self.old.world (comes Coming.Shelved step)) }
        ensures step { IfOk result (λ step. step.number ≡ number) }
        ensures fault { IfErr result (λ f. (f ≡ Fault.Memory) ⊎ RedoFails self.old.world number f) }
        ensures not_shelved { RedoFails self.old.world number Fault.NotShelved → (result ≡ Err Fault.NotShelved) × (self.new.meter ≡ self.old.meter) }
        ensures no_goal { RedoFails self.old.world number Fault.NoGoal → (result ≡ Err Fault.NoGoal) × (self.new.meter ≡ self.old.meter) }
        ensures no_variable { RedoFails self.old.world number Fault.NoVariable → (result ≡ Err Fault.NoVariable) × (self.new.meter ≡ self.old.meter) }
        ensures fired { (¬ RedoFails self.old.world number Fault.NotShelved) → (¬ RedoFails self.old.world number Fault.NoGoal) → (¬ RedoFails self.old.world number Fault.NoVariable) → self.new.meter ≡ fired self.old.meter }
        ensures stays { Stays self.old self.new }
    {
        let Some(shelved) = self.shelf.get(number) else {
            return Err(Fault::NotShelved);
        };
        if lacks_goal(self.state.goals(), shelved) {
            return Err(Fault::NoGoal);
        }
        if !names_known(&self.query, &self.records, shelved) {
            return Err(Fault::NoVariable);
        }
        if !fires(alloc, &mut self.meter, &*self.program, &self.state, shelved)? {
            return Err(Fault::Changed);
        }
        if self.records.len() >= KEPT_LIMIT {
            return Err(Fault::Full);
        }
        Ok(Addition::of(alloc, shelved.share()?)?)
    }

    /// Takes the shelved step of this number again, at the end of the record and under its number, with the effect recorded:
    /// what it binds is in the store, the goals that it makes are there, the goal that it consumes is gone, and the shelf has it
    /// no more. Untried are then the goals that it makes and those that looked at what it binds. The refusals are those of
    /// `prepare_redo`. A refused redo changes nothing but the meter. It costs what preparing and applying the step cost.
    pub fn redo(&mut self, alloc: Global, number: u32) -> Result<(), Fault>
        ensures ok { OnOk result (Obeys ⊥ self.old.world (redo number) (stepped number) self.new.world) }
        ensures fault { IfErr result (λ f. (f ≡ Fault.Memory) ⊎ RedoFails self.old.world number f) }
        ensures not_shelved { RedoFails self.old.world number Fault.NotShelved → (result ≡ Err Fault.NotShelved) × (self.new.meter ≡ self.old.meter) }
        ensures no_goal { RedoFails self.old.world number Fault.NoGoal → (result ≡ Err Fault.NoGoal) × (self.new.meter ≡ self.old.meter) }
        ensures no_variable { RedoFails self.old.world number Fault.NoVariable → (result ≡ Err Fault.NoVariable) × (self.new.meter ≡ self.old.meter) }
        ensures fired { (¬ RedoFails self.old.world number Fault.NotShelved) → (¬ RedoFails self.old.world number Fault.NoGoal) → (¬ RedoFails self.old.world number Fault.NoVariable) → self.new.meter ≡ fired self.old.meter }
        ensures stays { OnErr result (Stays self.old self.new) }

        // A note stays just where its goal is still there and did not look at what the step binds.
        ensures notes { OnOk result ((r : record_spec) × (finite.get self.old.world.shelf number ≡ Some r) × AreLeft self.new.world.state.goals (Binds r) self.old.notes self.new.notes) }
    {
        self.stands();
        let addition = match self.prepare_redo(alloc, number) {
            Ok(addition) => addition,
            Err(fault) => return Err(fault),
        };
        self.make(Change::Comes(Coming::Shelved, addition))?;
        Ok(())
    }
}
