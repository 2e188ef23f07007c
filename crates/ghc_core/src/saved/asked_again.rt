// Steps that ask for goals, as chronicles have them, found again as the next step.
ghost use Rattle.std.specs.Prelude.{◌≡◌, ◌≢◌, ◌↔◌, ◌+◌, ℕ, None, IfOk, IfSome, IfNone, IsTrue};
ghost use Rattle.ghc_fire.specs.Asked.{own_variables, made_from, effect_of_asking};
ghost use Rattle.ghc_fire.specs.declared.act.Act.TheVariants.{Asked as asks};
ghost use Rattle.ghc_records.specs.Journal.{step_of};
ghost use Rattle.ghc_records.specs.Record.{Record as record_spec};
ghost use Rattle.ghc_core.specs.inner.AskedAgain.{CanBeAskedFor, CanBeAsked};
ghost use Rattle.ghc_core.specs.World.{IsNextStep, HasRoom};

use crate::changes::ask::is_defined;
use crate::core_state::Core;
use crate::variables::names_known;
use ghc_fire::{Act, Asked, Effect, Made};
use ghc_flat::Program;
use ghc_records::{Addition, Record};
use ghc_term::{Bindings, Goal, GoalView, Variables};
use std::alloc::{AllocError, Global};

// True where the place is the next after so many.
fn is_next_place(place: u32, count: u32) -> bool
    ensures { IsTrue result ↔ (place ≡ count + 1) }
{
    0 < place && place - 1 == count
}

// How many variables of the step of this number are asked for, where they are `_n_1`, `_n_2`, .. in order: one step for each variable.
fn own_count(asked: &Asked, number: u32) -> Option<u32>
    ensures some { IfSome result (λ k. own_variables number asked.now ≡ made_from number 1 k) }
    ensures none { IfNone result ((k : ℕ) → own_variables number asked.now ≢ made_from number 1 k) }
{
    let mut count: u32 = 0;
    for x in asked.variables() {
        if x.step == number {
            if !is_next_place(x.place, count) {
                return None;
            }
            count = x.place;
        }
    }
    Some(count)
}

// Whether a step can ask for the goal: two look-ups where it is a call.
fn can_be_asked_for(program: &Program, goal: &Goal) -> bool
    ensures { IsTrue result ↔ CanBeAskedFor program.now goal.now }
{
    match goal.view() {
        GoalView::Call(name, arguments) => {
            arguments.len() <= 255 && is_defined(program, name, arguments.len())
        }
        GoalView::Stream(_, _) => false,
        _ => true,
    }
}

// Whether a step can ask for each of the goals.
fn can_all_be_asked_for(program: &Program, goals: &[Goal]) -> bool
    ensures { IsTrue result ↔ CanBeAsked program.now goals.now }
{
    for goal in goals {
        if !can_be_asked_for(program, goal) {
            return false;
        }
    }
    true
}

// The goals once more, with their parts shared.
fn share_goals(alloc: Global, goals: &[Goal]) -> Result<Vec<Goal>, AllocError>
    ensures { IfOk result (λ gs. gs.items ≡ goals.now) }
{
    let mut shared = Vec::new(alloc);
    shared.reserve_exact(goals.len())?;
    for goal in goals {
        shared.push(goal.share()?)?;
    }
    Ok(shared)
}

// The step of this number that asks for the goals and makes so many variables.
fn asking_record(
    alloc: Global,
    number: u32,
    asked: &Asked,
    fresh: u32,
) -> Result<Record, AllocError>
    ensures { IfOk result (λ r. r ≡ record { number = number; goal = None; consumed = None; act = asks asked.now; effect = effect_of_asking asked.now fresh }) }
{
    let shared = share_goals(alloc, asked.goals())?;
    let makes = Made::of(alloc, shared, fresh)?;
    let effect = Effect::new(Variables::new(alloc), Bindings::new(alloc), makes);
    let act = Act::Asked(asked.share()?);
    Record::new(alloc, number, None, None, act, effect)
}

impl Core {
    // The step that asks for the goals, with these variables, as the next one, where there is room for a step and it is possible: two
    // look-ups for each call, and one for each variable.
    pub(crate) fn asking_step(
        &self,
        alloc: Global,
        asked: &Asked,
    ) -> Result<Option<Addition>, AllocError>
        requires room { HasRoom self.now.world }
        ensures next { IfOk result (λ found. IfSome found (IsNextStep self.now.world)) }
        ensures step { IfOk result (λ found. IfSome found (λ r. step_of r ≡ record { number = self.now.world.next; goal = None; act = asks asked.now })) }
        ensures none { IfOk result (λ found. IfNone found ((r : record_spec) → step_of r ≡ record { number = self.now.world.next; goal = None; act = asks asked.now } → ¬ IsNextStep self.now.world r)) }
    {
        if !can_all_be_asked_for(&*self.program, asked.goals()) {
            return Ok(None);
        }
        let Some(fresh) = own_count(asked, self.next) else {
            return Ok(None);
        };
        let record = asking_record(alloc, self.next, asked, fresh)?;
        if !names_known(&self.query, &self.records, &record) {
            return Ok(None);
        }
        Ok(Some(Addition::of(alloc, record)?))
    }
}
