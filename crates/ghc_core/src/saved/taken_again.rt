// Entries of chronicles, carried out one by one.
ghost use Rattle.std.specs.Prelude.{◌≡◌, ◌≢◌, Some, IfOk, IfSome, IfNone, OnOk};
ghost use Rattle.ghc_term.specs.declared.fault.Fault.{Fault as fault_spec};
ghost use Rattle.std.specs.FinMap as finite;
ghost use Rattle.ghc_term.specs.declared.goal_name.GoalName.{GoalName as goal_name};
ghost use Rattle.ghc_records.specs.Journal.{step_of, took};
ghost use Rattle.ghc_records.specs.Record.{Record as record_spec};
ghost use Rattle.ghc_core.specs.Asked.{IsAskedFor};
ghost use Rattle.ghc_core.specs.Change.{Changes};
ghost use Rattle.ghc_core.specs.CommandCode.{command_of};
ghost use Rattle.ghc_core.specs.Counting.{after_firings, firings_of_command, firings_of_entry};
ghost use Rattle.ghc_core.specs.Resume.{CarriesOut, IsRefusedEntry};
ghost use Rattle.ghc_core.specs.World.{World as world_spec, IsNextStep, HasRoom};
ghost use Rattle.ghc_records.specs.inner.WrittenEntryCode.{said_by};
ghost use Rattle.ghc_core.specs.declared.changes.Change.{Change as change_spec};

use crate::changes::order::Order;
use crate::command::Command;
use crate::core_state::Core;
use ghc_fire::Act;
use ghc_records::{Addition, Step, WrittenEntry};
use ghc_term::Fault;
use std::alloc::{AllocError, Global};

// What became of an entry, or of a step of an opening, that was to be carried out once more.
#[derive(Clone, Copy, Drop)]
pub(crate) enum Outcome {
    // It is carried out, and stands in the journal.
    CarriedOut,
    // It is not possible as the next one.
    Refused,
}

// Fails where the fault is `Memory`.
fn for_another_cause(fault: Fault) -> Result<(), AllocError>
    ensures { OnOk result (fault ≢ fault_spec.Memory) }
{
    match fault {
        Fault::Memory => Err(AllocError),
        _ => Ok(()),
    }
}

// The numbers once more.
pub(crate) fn numbers_again(alloc: Global, numbers: &[u32]) -> Result<Vec<u32>, AllocError>
    ensures { IfOk result (λ ns. ns.items ≡ numbers.now) }
{
    let mut again = Vec::new(alloc);
    again.reserve_exact(numbers.len())?;
    for number in numbers {
        again.push(*number)?;
    }
    Ok(again)
}

impl Core {
    // The step of a goal, as it is possible as the next one, if it is. It fires once where the goal is there.
    fn goal_step(&mut self, alloc: Global, step: &Step) -> Result<Option<Addition>, AllocError>
        requires of_goal { (g : goal_name) × (step.now.goal ≡ Some g) }
        requires number { step.now.number ≡ self.old.world.next }
        requires room { HasRoom self.old.world }
        ensures next { IfOk result (λ found. IfSome found (IsNextStep self.old.world)) }
        ensures step { IfOk result (λ found. IfSome found (λ r. step_of r ≡ step.now)) }
        ensures none { IfOk result (λ found. IfNone found ((r : record_spec) → step_of r ≡ step.now → ¬ IsNextStep self.old.world r)) }
        ensures world { self.new.world ≡ self.old.world }
        ensures notes { self.new.notes ≡ self.old.notes }
        ensures meter { IfOk result (λ found. IfSome found (λ _. self.new.meter ≡ after_firings (firings_of_entry (took step.now)) self.old.meter)) }
    {
        match self.fire_counted(alloc, step)? {
            Some(record) => Ok(Some(Addition::of(alloc, record)?)),
            None => Ok(None),
        }
    }

    // The step as the next one, where it is possible as such.
    fn next_as(&mut self, alloc: Global, step: &Step) -> Result<Option<Addition>, AllocError>
        ensures next { IfOk result (λ found. IfSome found (IsNextStep self.old.world)) }
        ensures step { IfOk result (λ found. IfSome found (λ r. step_of r ≡ step.now)) }
        ensures none { IfOk result (λ found. IfNone found ((r : record_spec) → step_of r ≡ step.now → ¬ IsNextStep self.old.world r)) }
        ensures world { self.new.world ≡ self.old.world }
        ensures notes { self.new.notes ≡ self.old.notes }
        ensures meter { IfOk result (λ found. IfSome found (λ _. self.new.meter ≡ after_firings (firings_of_entry (took step.now)) self.old.meter)) }
    {
        if self.is_full() {
            return Ok(None);
        }
        if step.number() != self.next {
            return Ok(None);
        }
        if step.goal().is_some() {
            return self.goal_step(alloc, step);
        }
        match step.act() {
            Act::Asked(asked) => self.asking_step(alloc, asked),
            _ => Ok(None),
        }
    }

    // Takes the step as the next one, where it is possible.
    fn take_again(&mut self, alloc: Global, step: &Step) -> Result<Outcome, AllocError>
        ensures carried { IfOk result (λ outcome. outcome ≡ Outcome.CarriedOut → CarriesOut self.old.world (took step.now) self.new.world) }
        ensures refused { IfOk result (λ outcome. outcome ≡ Outcome.Refused → IsRefusedEntry self.old.world (took step.now)) }
        ensures notes { self.old.notes ≡ finite.empty → IfOk result (λ outcome. outcome ≡ Outcome.CarriedOut → self.new.notes ≡ finite.empty) }
        ensures meter { IfOk result (λ outcome. outcome ≡ Outcome.CarriedOut → self.new.meter ≡ after_firings (firings_of_entry (took step.now)) self.old.meter) }
    {
        self.stands();
        let Some(addition) = self.next_as(alloc, step)? else {
            return Ok(Outcome::Refused);
        };
        self.take_next(addition)?;
        Ok(Outcome::CarriedOut)
    }

    // Makes the change for which the command asks, where it can be made.
    fn command_again(&mut self, alloc: Global, command: Command) -> Result<Outcome, AllocError>
        ensures carried { IfOk result (λ outcome. outcome ≡ Outcome.CarriedOut → (change : change_spec) × IsAskedFor self.old.world (command_of command) change × Changes self.old.world change self.new.world) }
        ensures refused { IfOk result (λ outcome. outcome ≡ Outcome.Refused → (change : change_spec) (v : world_spec) → IsAskedFor self.old.world (command_of command) change → ¬ Changes self.old.world change v) }
        ensures notes { self.old.notes ≡ finite.empty → IfOk result (λ outcome. outcome ≡ Outcome.CarriedOut → self.new.notes ≡ finite.empty) }
        ensures meter { IfOk result (λ outcome. outcome ≡ Outcome.CarriedOut → self.new.meter ≡ after_firings (firings_of_command (command_of command)) self.old.meter) }
    {
        self.stands();
        let change = match self.prepare_command(alloc, &command) {
            Ok(change) => change,
            Err(fault) => {
                for_another_cause(fault)?;
                return Ok(Outcome::Refused);
            }
        };
        self.make(change)?;
        Ok(Outcome::CarriedOut)
    }

    // Carries out the entry, where it is not refused.
    pub(crate) fn carry_out_entry(
        &mut self,
        alloc: Global,
        entry: &WrittenEntry,
    ) -> Result<Outcome, AllocError>
        ensures carried { IfOk result (λ outcome. outcome ≡ Outcome.CarriedOut → CarriesOut self.old.world (said_by entry.now) self.new.world) }
        ensures refused { IfOk result (λ outcome. outcome ≡ Outcome.Refused → IsRefusedEntry self.old.world (said_by entry.now)) }
        ensures notes { self.old.notes ≡ finite.empty → IfOk result (λ outcome. outcome ≡ Outcome.CarriedOut → self.new.notes ≡ finite.empty) }
        ensures meter { IfOk result (λ outcome. outcome ≡ Outcome.CarriedOut → self.new.meter ≡ after_firings (firings_of_entry (said_by entry.now)) self.old.meter) }
    {
        self.stands();
        match entry {
            WrittenEntry::Took(step) => self.take_again(alloc, step),
            WrittenEntry::Undid(number) => self.command_again(alloc, Command::Undo(*number)),
            WrittenEntry::Rolled(number) => self.command_again(alloc, Command::Roll(*number)),
            WrittenEntry::Redid(number) => self.command_again(alloc, Command::Redo(*number)),
            WrittenEntry::Reordered(order) => {
                let order = Order::of(numbers_again(alloc, order.as_slice())?);
                self.command_again(alloc, Command::Arrange(order))
            }
        }
    }
}
