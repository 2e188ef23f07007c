// What is asked for in mid-run, before a step asks for it, and as a step does.
ghost use Rattle.std.specs.Prelude.{◌≡◌, [], IfOk};
ghost use Rattle.ghc_term.specs.Variables.{variables_of_goals, firsts};
ghost use Rattle.ghc_flat.specs.Clause.{Program};
ghost use Rattle.ghc_flat.specs.Flat.{AreDefined};
ghost use Rattle.ghc_fire.specs.Asked.{NameNoneOf, Asks, asked_as};

use crate::asked::Asked;
use crate::called::{Called, call_variables, each_once, number_variables};
use crate::effect::Effect;
use crate::instances::{call_goals, number_list};
use crate::made::Made;
use ghc_reader::WrittenAsk;
use ghc_term::{Bindings, Goal, VarName, Variables};
use std::alloc::{AllocError, Global};
use std::marker::Model;

/// Goals to ask for: the variables that they name are those of the state, and their new ones are still those of no step. Contracts
/// see the goals. Its parts are shared.
pub struct Ask {
    asked: Asked,
    fresh: u32,
}

impl Drop for Ask {
    fn drop(self) {
        let Ask {
            asked: _asked,
            fresh: _,
        } = self;
    }
}

impl Model for Ask {
    ghost use Rattle.std.specs.Prelude.{◌≡◌, List};
    ghost use Rattle.ghc_term.specs.Goal.{Goal};
    ghost use Rattle.ghc_fire.specs.Effect.{no_step};
    ghost use Rattle.ghc_fire.specs.Asked.{AreAskable, own_variables, made_from};
    ghost use Rattle.ghc_fire.specs.inner.AskedCode.{asked_code};

    ghost Value = { List Goal };

    ghost coded = { asked_code };

    ghost view = { λ a. a.asked };

    ghost invariant = { λ a. AreAskable a.asked × (own_variables no_step a.asked ≡ made_from no_step 1 a.fresh) };
}

impl Ask {
    ghost use Rattle.ghc_fire.specs.Effect.{no_step};
    ghost use Rattle.ghc_fire.specs.Asked.{AreAskable, IsAsk, own_variables, made_from, asked_of};

    /// What is written so. It fails only where memory is refused, goes once through the goals, and shares each part of their
    /// terms that has no variable.
    pub fn of_written(alloc: Global, written: WrittenAsk) -> Result<Ask, AllocError>
        ensures { IfOk result (λ ask. ask ≡ asked_of written) }
    {
        let (goals, named) = written.into_parts();
        let Called { variables, fresh } = call_variables(alloc, &named)?;
        let goals = call_goals(alloc, &goals, &variables)?;
        let variables = each_once(alloc, &variables)?;
        let asked = Asked::of(alloc, goals, variables)?;
        Ok(Ask { asked, fresh })
    }

    /// The same once more, with its parts shared: one step. Fails where a count of handles is full.
    pub fn share(&self) -> Result<Ask, AllocError>
        ensures { IfOk result (λ ask. ask ≡ self.now) }
    {
        Ok(Ask {
            asked: self.asked.share()?,
            fresh: self.fresh,
        })
    }

    /// The goals, in order.
    pub fn goals(&self) -> &[Goal]
        ensures goals { result.now ≡ self.now }
        ensures proper { IsAsk self.now }
    {
        self.asked.goals()
    }

    /// The variables of the goals, each once, in the order in which they stand first.
    pub fn variables(&self) -> &[VarName]
        ensures { result.now ≡ firsts [] (variables_of_goals self.now) }
    {
        self.asked.variables()
    }

    /// How many of the variables are new.
    pub fn fresh(&self) -> u32
        ensures new { own_variables no_step self.now ≡ made_from no_step 1 result }
        ensures askable { AreAskable self.now }
    {
        self.fresh
    }
}

/// The goals as the step of this number asks for them: the new variables are those of the step, of which none may be named. It
/// goes once through the goals, and shares each part of their terms that has no new variable.
pub fn number_asked(alloc: Global, ask: &Ask, number: u32) -> Result<Asked, AllocError>
    requires { NameNoneOf number ask.now }
    ensures { IfOk result (λ asked. asked ≡ asked_as number ask.now) }
{
    let goals = number_list(alloc, ask.goals(), number)?;
    let variables = number_variables(alloc, ask.variables(), number)?;
    Asked::of(alloc, goals, variables)
}

/// The same, with the effect of the step: it makes the goals, and reads and binds nothing.
pub fn ask_as(alloc: Global, ask: &Ask, number: u32) -> Result<(Asked, Effect), AllocError>
    requires { NameNoneOf number ask.now }
    ensures asked { IfOk result (λ p. p.0 ≡ asked_as number ask.now) }
    ensures effect { IfOk result (λ p. (P : Program) → AreDefined P ask.now → Asks P p.0 number p.1) }
{
    let asked = number_asked(alloc, ask, number)?;
    let shared = share_goals(alloc, asked.goals())?;
    let makes = Made::of(alloc, shared, ask.fresh())?;
    let effect = Effect::new(Variables::new(alloc), Bindings::new(alloc), makes);
    Ok((asked, effect))
}

// The goals once more, with their parts shared.
fn share_goals(alloc: Global, goals: &[Goal]) -> Result<Vec<Goal>, AllocError>
    ensures { IfOk result (λ gs. gs.items ≡ goals.now) }
{
    let mut shared = Vec::new(alloc);
    shared.reserve_exact(goals.len())?;
    for goal in goals {
        shared.push(goal.share()?)?;
    }
    Ok(shared)
}
