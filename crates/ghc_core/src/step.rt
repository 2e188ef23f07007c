// A step that is fired and prepared in one call, with one attempt.
ghost use Rattle.std.specs.Prelude.{◌≡◌, Err};
ghost use Rattle.ghc_term.specs.Answered.{Answered};
ghost use Rattle.ghc_fire.specs.Attempt.{refused};
ghost use Rattle.ghc_fire.specs.Meter.{fired};
ghost use Rattle.ghc_core.specs.Proposes.{AttemptAnswers, IsStepOf, StepFails};
ghost use Rattle.ghc_core.specs.Core.{Stays};

use crate::core_state::Core;
use ghc_records::Record;
use ghc_term::{Fault, GoalName};
use std::alloc::Global;

impl Core {
    /// Fires a step of the goal of this name, with a clause chosen or not, as the next step, and counts a firing. The refusals are those of an attempt, in their order; else `Full` exactly where the numbers are used up or
    /// 1,000,000 steps are kept. But for the meter the core stays as it is. It is what `attempt` and `prepare` give together,
    /// with one attempt, made under the number of the next step: since nothing comes between, its goals need no second walk.
    #[inline(always)]
    pub fn prepare_step(
        &mut self,
        alloc: Global,
        goal: GoalName,
        choice: Option<u32>,
    ) -> Result<Record, Fault>
        ensures answer { Answered (IsStepOf self.old.world goal choice) (StepFails self.old.world goal choice) result }
        ensures no_goal { AttemptAnswers self.old.world goal choice (refused Fault.NoGoal) → result ≡ Err Fault.NoGoal }
        ensures no_clause { AttemptAnswers self.old.world goal choice (refused Fault.NoClause) → result ≡ Err Fault.NoClause }
        ensures stays { Stays self.old self.new }
        ensures counted { self.new.meter ≡ fired self.old.meter }
    {
        self.stands();
        match self.fire_next(alloc, goal, choice) {
            Ok(fired) => self.fired_as_next(fired),
            Err(fault) => Err(fault),
        }
    }
}
