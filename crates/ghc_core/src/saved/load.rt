// Loading histories.
ghost use Rattle.std.specs.Prelude.{◌≡◌, ◌++◌, ◌∷◌, [], Ok, Err, Some, length, IfOk, IfSome, IfNone};
ghost use Rattle.std.specs.FinMap as finite;
ghost use Rattle.ghc_term.specs.Answered.{Answered};
ghost use Rattle.ghc_term.specs.declared.goal_name.GoalName.{GoalName as goal_name};
ghost use Rattle.ghc_flat.specs.Flat.{IsQuery};
ghost use Rattle.ghc_fire.specs.Meter.{fired};
ghost use Rattle.ghc_records.specs.History.{IsHistory};
ghost use Rattle.ghc_records.specs.Journal.{step_of};
ghost use Rattle.ghc_records.specs.Record.{Record as record_spec};
ghost use Rattle.ghc_core.specs.declared.changes.Change.TheVariants.{Comes as comes};
ghost use Rattle.ghc_core.specs.Change.{HasRoomFor};
ghost use Rattle.ghc_core.specs.Load.{CanLoad, IsImpossible, IsPossibleAs, Loads, with_loaded};
ghost use Rattle.ghc_core.specs.World.{Opens};

use crate::changes::Coming;
use crate::changes::carrying::carry_over;
use crate::core_state::Core;
use crate::saved::taken_again::Outcome;
use ghc_fire::{MadeGoal, Meter, effect_as};
use ghc_flat::Program;
use ghc_reader::Query;
use ghc_records::{Addition, History, Record, State, Step};
use ghc_term::{Fault, GoalName};
use std::alloc::{AllocError, Global};

// The record of the step that consumes this goal, as it is possible in the state, if it is. A firing is counted.
fn fire_at(
    alloc: Global,
    meter: &mut Meter,
    program: &Program,
    state: &State,
    step: &Step,
    name: GoalName,
    goal: &MadeGoal,
) -> Result<Option<Record>, AllocError>
    requires named { step.now.goal ≡ Some name }
    requires there { finite.get state.now.held.goals name ≡ Some goal.now }
    ensures some { IfOk result (λ found. IfSome found (IsPossibleAs program.now state.now.held step.now)) }
    ensures none { IfOk result (λ found. IfNone found (IsImpossible program.now state.now.held step.now)) }
    ensures counted { meter.new ≡ fired meter.old }
{
    let number = step.number();
    let found = effect_as(
        alloc,
        meter,
        program,
        state.store(),
        goal.goal(),
        step.act(),
        number,
    )?;
    let Some(effect) = found else {
        return Ok(None);
    };
    let consumed = goal.share()?;
    let act = step.act().share()?;
    let record = Record::new(alloc, number, Some(name), Some(consumed), act, effect)?;
    Ok(Some(record))
}

// The record of the step, as it is possible in the state, if it is. It fires once where the goal is there, which costs a look-up.
fn fire_step(
    alloc: Global,
    meter: &mut Meter,
    program: &Program,
    state: &State,
    step: &Step,
) -> Result<Option<Record>, AllocError>
    requires of_goal { (g : goal_name) × (step.now.goal ≡ Some g) }
    ensures some { IfOk result (λ found. IfSome found (IsPossibleAs program.now state.now.held step.now)) }
    ensures none { IfOk result (λ found. IfNone found (IsImpossible program.now state.now.held step.now)) }
    ensures counted { IfOk result (λ found. IfSome found (λ _. meter.new ≡ fired meter.old)) }
{
    let Some(name) = step.goal() else {
        return Ok(None);
    };
    match state.goals().handle(name) {
        Some(goal) => fire_at(alloc, meter, program, state, step, name, goal),
        None => Ok(None),
    }
}

impl Core {
    // The record of the step, as it is possible now, if it is; counted on the meter of the core.
    pub(crate) fn fire_counted(
        &mut self,
        alloc: Global,
        step: &Step,
    ) -> Result<Option<Record>, AllocError>
        requires of_goal { (g : goal_name) × (step.now.goal ≡ Some g) }
        ensures some { IfOk result (λ found. IfSome found (IsPossibleAs self.old.world.opening.program self.old.world.state step.now)) }
        ensures none { IfOk result (λ found. IfNone found (IsImpossible self.old.world.opening.program self.old.world.state step.now)) }
        ensures counted { IfOk result (λ found. IfSome found (λ _. self.new.meter ≡ fired self.old.meter)) }
        ensures world { self.new.world ≡ self.old.world }
        ensures notes { self.new.notes ≡ self.old.notes }
    {
        fire_step(alloc, &mut self.meter, &*self.program, &self.state, step)
    }

    // Takes the step as the next one of those that are loaded, which with it are these.
    fn add_loaded(&mut self, addition: Addition, loaded: History)
        requires opened { Opens self.old.world.opening self.old.world }
        requires found { CanLoad self.old.world addition }
        requires loaded { loaded ≡ record { steps = self.old.world.opening.steps ++ step_of addition ∷ []; next = self.old.world.opening.next } }
        requires room { HasRoomFor self.old.world self.old.room (comes Coming.Next addition) }
        ensures world { self.new.world ≡ with_loaded addition self.old.world }
        ensures opens { Opens self.new.world.opening self.new.world }
        ensures notes { self.old.notes ≡ finite.empty → self.new.notes ≡ finite.empty }
        ensures meter { self.new.meter ≡ self.old.meter }
    {
        self.loaded = loaded;
        let (taken, entry) = self.state.take(addition);
        carry_over(&mut self.tries, &taken);
        self.streams.tell(&taken);
        self.records.put(taken);
        self.journal.put(entry);
    }

    // Takes the step where it is possible, as the next one of those that are loaded, which with it are these. It fires once where it
    // is, and costs what firing and applying it cost.
    fn load_step(
        &mut self,
        alloc: Global,
        step: &Step,
        loaded: History,
    ) -> Result<Outcome, AllocError>
        requires opened { Opens self.old.world.opening self.old.world }
        requires of_goal { (g : goal_name) × (step.now.goal ≡ Some g) }
        requires loaded { loaded ≡ record { steps = self.old.world.opening.steps ++ step.now ∷ []; next = self.old.world.opening.next } }
        requires own { (r : record_spec) → IsPossibleAs self.old.world.opening.program self.old.world.state step.now r → CanLoad self.old.world r }
        ensures carried { IfOk result (λ outcome. outcome ≡ Outcome.CarriedOut → (r : record_spec) × IsPossibleAs self.old.world.opening.program self.old.world.state step.now r × (self.new.world ≡ with_loaded r self.old.world)) }
        ensures opens { IfOk result (λ outcome. outcome ≡ Outcome.CarriedOut → Opens self.new.world.opening self.new.world) }
        ensures refused { IfOk result (λ outcome. outcome ≡ Outcome.Refused → IsImpossible self.old.world.opening.program self.old.world.state step.now) }
        ensures no_change { IfOk result (λ outcome. outcome ≡ Outcome.Refused → self.new.world ≡ self.old.world) }
        ensures notes { self.old.notes ≡ finite.empty → IfOk result (λ outcome. outcome ≡ Outcome.CarriedOut → self.new.notes ≡ finite.empty) }
        ensures meter { IfOk result (λ outcome. outcome ≡ Outcome.CarriedOut → self.new.meter ≡ fired self.old.meter) }
    {
        let found = self.fire_counted(alloc, step)?;
        let Some(record) = found else {
            return Ok(Outcome::Refused);
        };
        let addition = Addition::of(alloc, record)?;
        self.reserve_to_add(addition.step())?;
        self.add_loaded(addition, loaded);
        Ok(Outcome::CarriedOut)
    }

    /// The core of a query on which a history is loaded: its steps are taken one after the other from the query's state, each
    /// under its own number, and each fires once. Then the journal has an entry for each of them, the shelf is empty, no goal is
    /// noted, and each is untried but for stream goals. `History` tells the line of the first step that is not possible, where the
    /// first step stands on line 3. Else it fails only where memory is refused. It costs what firing and applying the steps costs,
    /// and a look-up or two for each goal of the query.
    pub fn load(
        alloc: Global,
        program: Program,
        query: Query,
        history: &History,
    ) -> Result<Core, Fault>
        requires query { IsQuery program query.goals }
        requires history { IsHistory history.now }
        ensures answer { Answered (λ core. Loads ⊥ program query.goals query.variables history.now (Ok core.world))
            (λ fault. Loads ⊥ program query.goals query.variables history.now (Err fault)) result }
        ensures notes { IfOk result (λ core. core.notes ≡ finite.empty) }
        ensures meter { IfOk result (λ core. (core.meter.firings ≡ length history.now.steps) × (core.meter.tries ≡ 0)) }
    {
        let steps = history.steps();
        let count = steps.len() as u32;
        let mut core = Core::numbered_from(alloc, program, query, history.next())?;
        for index in 0..count {
            let loaded = history.first(index + 1)?;
            match core.load_step(alloc, &steps[index as usize], loaded) {
                Ok(Outcome::CarriedOut) => {}
                Ok(Outcome::Refused) => return Err(Fault::History { line: index + 3 }),
                Err(_) => return Err(Fault::Memory),
            }
        }
        Ok(core)
    }
}
