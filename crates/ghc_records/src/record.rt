// Records of steps.
ghost use Rattle.std.specs.Prelude.{◌≡◌, IfOk};

use crate::step::Step;
use ghc_fire::{Act, Effect, Firing, MadeGoal};
use ghc_term::{Goal, GoalName};
use std::alloc::{AllocError, Global};
use std::marker::Model;
use std::sync::Arc;

/// A record of a step: its number, the goal that it consumed, if any, by name and as written, its act, and its effect. Its
/// parts are shared.
#[derive(Drop)]
pub struct Record {
    parts: Arc<Firing>,
}

impl Model for Record {
    ghost use Rattle.ghc_records.specs.Record.{Record, record_of};
    ghost use Rattle.ghc_records.specs.inner.RecordCode.{record_code};

    ghost Value = { Record };

    ghost coded = { record_code };

    ghost view = { λ r. record_of r.parts.value };
}

impl Record {
    ghost use Rattle.std.specs.Prelude.{option_copied};
    ghost use Rattle.ghc_records.specs.Record.{record_of};
    ghost use Rattle.ghc_records.specs.Journal.{step_of};

    /// The record of a step of these parts. It fails only where memory is refused.
    pub fn new(
        alloc: Global,
        number: u32,
        goal: Option<GoalName>,
        consumed: Option<MadeGoal>,
        act: Act,
        effect: Effect,
    ) -> Result<Record, AllocError>
        ensures { IfOk result (λ r. r ≡ record { number = number; goal = goal; consumed = consumed; act = act; effect = effect }) }
    {
        let parts = Firing::new(number, goal, consumed, act, effect);
        match Arc::new(alloc, parts) {
            Ok(parts) => Ok(Record { parts }),
            Err(_) => Err(AllocError),
        }
    }

    /// The record of a step that fired: nothing is moved.
    #[inline(always)]
    pub fn of(parts: Arc<Firing>) -> Record
        ensures { result ≡ record_of parts.value }
    {
        Record { parts }
    }

    /// The same record once more, with its parts shared: one step. Fails where a count of handles is full.
    pub fn share(&self) -> Result<Record, AllocError>
        ensures { IfOk result (λ r. r ≡ self.now) }
    {
        let parts = Arc::try_clone(&self.parts)?;
        Ok(Record { parts })
    }

    /// The number of the step.
    pub fn number(&self) -> u32
        ensures { result ≡ self.now.number }
    {
        self.parts.number()
    }

    /// The name of the goal that the step consumed, if it consumed one.
    pub fn goal(&self) -> Option<GoalName>
        ensures { result ≡ self.now.goal }
    {
        self.parts.goal()
    }

    /// The goal that the step consumed, as written, if it consumed one.
    pub fn consumed(&self) -> Option<&Goal>
        ensures { option_copied result ≡ self.now.consumed }
    {
        self.parts.consumed()
    }

    /// A handle of that goal: one step. Fails where a count of handles is full.
    pub fn share_consumed(&self) -> Result<Option<MadeGoal>, AllocError>
        ensures { IfOk result (λ goal. goal ≡ self.now.consumed) }
    {
        self.parts.share_consumed()
    }

    /// What the step did.
    pub fn act(&self) -> &Act
        ensures { result.now ≡ self.now.act }
    {
        self.parts.act()
    }

    /// The effect of the step.
    pub fn effect(&self) -> &Effect
        ensures { result.now ≡ self.now.effect }
    {
        self.parts.effect()
    }

    /// The step as journals and histories have it. Fails where a count of handles is full.
    pub fn step(&self) -> Result<Step, AllocError>
        ensures { IfOk result (λ s. s ≡ step_of self.now) }
    {
        let act = self.act().share()?;
        Ok(Step::new(self.number(), self.goal(), act))
    }
}
