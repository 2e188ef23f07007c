// What an attempt proposes.
ghost use Rattle.std.specs.Prelude.{◌≡◌};

use crate::act::Act;
use crate::effect::Effect;
use crate::made::MadeGoal;
use ghc_term::{Goal, GoalName};
use std::marker::Model;

/// A step that was possible when it was proposed: a goal, by name and as written, the act on it, and its effect, under any
/// number or as the step of the number under which it was attempted has it.
pub struct Proposal {
    goal: GoalName,
    consumed: MadeGoal,
    act: Act,
    effect: Effect,
}

impl Drop for Proposal {
    fn drop(self) {
        let Proposal {
            goal: _,
            consumed: _consumed,
            act: _act,
            effect: _effect,
        } = self;
    }
}

impl Model for Proposal {
    ghost use Rattle.ghc_fire.specs.Proposal.{Proposal};
    ghost use Rattle.ghc_fire.specs.inner.ActCode.{proposal_code};

    ghost Value = { Proposal };

    ghost coded = { proposal_code };

    ghost view = { λ p. record { goal = p.goal; consumed = p.consumed; act = p.act; effect = p.effect } };
}

impl Proposal {
    /// The proposal of these parts.
    pub fn new(goal: GoalName, consumed: MadeGoal, act: Act, effect: Effect) -> Proposal
        ensures goal { result.goal ≡ goal }
        ensures consumed { result.consumed ≡ consumed }
        ensures act { result.act ≡ act }
        ensures effect { result.effect ≡ effect }
    {
        Proposal {
            goal,
            consumed,
            act,
            effect,
        }
    }

    /// The name of its goal.
    pub fn goal(&self) -> GoalName
        ensures { result ≡ self.now.goal }
    {
        self.goal
    }

    /// Its goal as written.
    pub fn consumed(&self) -> &Goal
        ensures { result.now ≡ self.now.consumed }
    {
        self.consumed.goal()
    }

    /// The act on the goal.
    pub fn act(&self) -> &Act
        ensures { result.now ≡ self.now.act }
    {
        &self.act
    }

    /// The effect.
    pub fn effect(&self) -> &Effect
        ensures { result.now ≡ self.now.effect }
    {
        &self.effect
    }

    /// Its goal as written, the act on it and the effect, given up.
    pub fn into_parts(self) -> (MadeGoal, Act, Effect)
        ensures consumed { result.0 ≡ self.consumed }
        ensures act { result.1 ≡ self.act }
        ensures effect { result.2 ≡ self.effect }
    {
        let Proposal {
            goal: _,
            consumed,
            act,
            effect,
        } = self;
        (consumed, act, effect)
    }
}
