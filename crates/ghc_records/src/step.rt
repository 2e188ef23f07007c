// Steps as journals and histories have them.
ghost use Rattle.std.specs.Prelude.{◌≡◌};

use ghc_fire::Act;
use ghc_term::GoalName;
use std::marker::Model;

/// A step: its number, the goal that it consumed, if any, and its act.
#[derive(Drop)]
pub struct Step {
    number: u32,
    goal: Option<GoalName>,
    act: Act,
}

impl Model for Step {
    ghost use Rattle.ghc_records.specs.Journal.{Step};
    ghost use Rattle.ghc_records.specs.inner.RecordCode.{step_code};

    ghost Value = { Step };

    ghost coded = { step_code };

    ghost view = { λ s. record { number = s.number; goal = s.goal; act = s.act } };
}

impl Step {
    /// The step of these parts.
    pub fn new(number: u32, goal: Option<GoalName>, act: Act) -> Step
        ensures { result ≡ record { number = number; goal = goal; act = act } }
    {
        Step { number, goal, act }
    }

    /// The number of the step.
    pub fn number(&self) -> u32
        ensures { result ≡ self.now.number }
    {
        self.number
    }

    /// The name of the goal that the step consumed, if it consumed one.
    pub fn goal(&self) -> Option<GoalName>
        ensures { result ≡ self.now.goal }
    {
        self.goal
    }

    /// What the step did.
    pub fn act(&self) -> &Act
        ensures { result.now ≡ self.now.act }
    {
        &self.act
    }
}
