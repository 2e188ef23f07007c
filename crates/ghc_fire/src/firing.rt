// Steps as they fire.
ghost use Rattle.std.specs.Prelude.{◌≡◌, Some, IfOk, IfErr};
ghost use Rattle.ghc_term.specs.declared.fault.Fault.{Fault as fault_spec};

use crate::act::Act;
use crate::effect::Effect;
use crate::made::{Consumed, MadeGoal};
use ghc_term::{Fault, Goal, GoalName};
use std::alloc::{AllocError, Global};
use std::marker::Model;
use std::sync::Arc;

/// A step that fires: its number, the goal that it consumes, if any, by name and as written, its act, and its effect.
pub struct Firing {
    // The fields that a line of the step shows come first, so that one place in memory has them.
    number: u32,
    goal: Option<GoalName>,
    act: Act,
    consumed: Consumed,
    effect: Effect,
}

impl Drop for Firing {
    fn drop(self) {
        let Firing {
            number: _,
            goal: _,
            act: _act,
            consumed: _consumed,
            effect: _effect,
        } = self;
    }
}

impl Model for Firing {
    ghost use Rattle.ghc_fire.specs.Firing.{Firing};
    ghost use Rattle.ghc_fire.specs.inner.FiringCode.{firing_code};

    ghost Value = { Firing };

    ghost coded = { firing_code };

    ghost view = { λ f. record { number = f.number; goal = f.goal; consumed = f.consumed; act = f.act; effect = f.effect } };
}

impl Firing {
    ghost use Rattle.std.specs.Prelude.{option_copied};

    /// The step of these parts.
    #[inline(always)]
    pub fn new(
        number: u32,
        goal: Option<GoalName>,
        consumed: Option<MadeGoal>,
        act: Act,
        effect: Effect,
    ) -> Firing
        ensures { result ≡ record { number = number; goal = goal; consumed = consumed; act = act; effect = effect } }
    {
        Firing {
            number,
            goal,
            act,
            consumed: Consumed::of(consumed),
            effect,
        }
    }

    /// The number of the step.
    #[inline(always)]
    pub fn number(&self) -> u32
        ensures { result ≡ self.now.number }
    {
        self.number
    }

    /// The name of the goal that the step consumes, if it consumes one.
    #[inline(always)]
    pub fn goal(&self) -> Option<GoalName>
        ensures { result ≡ self.now.goal }
    {
        self.goal
    }

    /// The goal that the step consumes, as written, if it consumes one: one step.
    #[inline(always)]
    pub fn consumed(&self) -> Option<&Goal>
        ensures { option_copied result ≡ self.now.consumed }
    {
        self.consumed.goal()
    }

    /// A handle of that goal: one step. Fails where a count of handles is full.
    pub fn share_consumed(&self) -> Result<Option<MadeGoal>, AllocError>
        ensures { IfOk result (λ goal. goal ≡ self.now.consumed) }
    {
        self.consumed.share()
    }

    /// What the step does.
    #[inline(always)]
    pub fn act(&self) -> &Act
        ensures { result.now ≡ self.now.act }
    {
        &self.act
    }

    /// The effect of the step.
    #[inline(always)]
    pub fn effect(&self) -> &Effect
        ensures { result.now ≡ self.now.effect }
    {
        &self.effect
    }

    // The act of the step and its effect, given up.
    pub(crate) fn into_act(self) -> (Act, Effect)
        ensures act { result.0 ≡ self.act }
        ensures effect { result.1 ≡ self.effect }
    {
        let Firing {
            number: _,
            goal: _,
            act,
            consumed: _consumed,
            effect,
        } = self;
        (act, effect)
    }
}

// A goal that a step is to reduce: its name, the handle under which it is there, and the number of the step.
#[derive(Clone, Copy)]
pub(crate) struct Reduction<'a> {
    pub step: u32,
    pub name: GoalName,
    pub goal: &'a MadeGoal,
}

impl Reduction<'_> {
    // The step that does this to the goal, in the piece of memory in which it stays. It fails where memory is refused, or where a
    // count of handles is full.
    #[inline(always)]
    pub(crate) fn fire(&self, alloc: Global, act: Act, effect: Effect) -> Result<Arc<Firing>, Fault>
        ensures step { IfOk result (λ f. f.value ≡ record { number = self.now.step; goal = Some self.now.name; consumed = Some self.now.goal.now; act = act; effect = effect }) }
        ensures fault { IfErr result (λ f. f ≡ fault_spec.Memory) }
    {
        let consumed = self.goal.share()?;
        let fired = Firing::new(self.step, Some(self.name), Some(consumed), act, effect);
        Ok(Arc::new(alloc, fired)?)
    }
}
