// The goals to which a change of the state may give another status.
ghost use Rattle.std.specs.Prelude.{◌≡◌, Some, IfOk};
ghost use Rattle.ghc_hooks.specs.Notes.{NotesByGoal};
ghost use Rattle.ghc_records.specs.Replay.{MakesGoal};
ghost use Rattle.ghc_depend.specs.Depend.{Binds};
ghost use Rattle.ghc_depend.specs.Deletion.{IsBoundIn, IsConsumedIn};
ghost use Rattle.ghc_core.specs.Gone.{all_gone};
ghost use Rattle.ghc_trace.specs.Disturbed.{AreDisturbed};

use crate::gathered::{Gathered, put_in_order};
use crate::stuck::Stuck;
use ghc_core::Rollback;
use ghc_hooks::Tries;
use ghc_records::Record;
use ghc_term::GoalName;
use std::alloc::{AllocError, Global};
use std::marker::Model;

/// The goals that a change brings, or whose notes looked at a variable that it binds or frees, each with how it was stuck
/// before the change.
#[derive(Drop)]
pub struct Disturbed {
    pub(crate) goals: Vec<(GoalName, Option<Stuck>)>,
}

impl Model for Disturbed {
    ghost use Rattle.std.specs.FinMap as finite;
    ghost use Rattle.ghc_trace.specs.Disturbed.{Disturbed};
    ghost use Rattle.ghc_trace.specs.inner.DisturbedCode.{disturbed_code};

    ghost Value = { Disturbed };

    ghost coded = { disturbed_code };

    ghost use Rattle.std.specs.List.Sorted.{IsStrictlySortedBy};
    ghost use Rattle.std.specs.Map.{keys_of};
    ghost use Rattle.ghc_fire.specs.Goals.{goal_cmp};

    ghost view = { λ d. finite.from_entries d.goals.items };

    ghost invariant = { λ d. IsStrictlySortedBy goal_cmp (keys_of d.goals.items) };
}

impl Disturbed {
    ghost use Rattle.std.specs.Prelude.{◌↔◌};
    ghost use Rattle.std.specs.FinMap as finite;
    ghost use Rattle.std.specs.Map.{keys_of};
    ghost use Rattle.ghc_term.specs.Lists.{In};
    ghost use Rattle.ghc_term.specs.declared.goal_name.GoalName.{GoalName};
    ghost use Rattle.ghc_trace.specs.Disturbed.{IsOneOf};
    ghost use Rattle.ghc_trace.specs.inner.NewsCode.{Former};

    // The goals that were gathered.
    fn of(gathered: Gathered) -> Disturbed
        ensures members { (g : GoalName) → IsOneOf result g ↔ In g (keys_of gathered.goals.items) }
        ensures gathered { (e : Former) → finite.get result e.0 ≡ Some e.1 → In e gathered.goals.items }
    {
        let mut goals = gathered.goals;
        put_in_order(&mut goals);
        Disturbed { goals }
    }

    /// The goals that another order of the record disturbs: none. They take no memory.
    pub fn by_arranging(alloc: Global) -> Disturbed
        ensures { (notes : NotesByGoal) → AreDisturbed notes (λ x. ⊥) (λ g. ⊥) result }
    {
        Disturbed::of(Gathered::new(alloc))
    }

    /// The goals that the step disturbs as it is taken: those whose notes looked at what it binds, and those that it makes. For
    /// each goal made, and each variable bound with each goal that looked at it: a look-up, and a copy of the variables for which
    /// the goal waits; and puts them in order.
    pub fn by_taking(alloc: Global, tries: &Tries, step: &Record) -> Result<Disturbed, AllocError>
        ensures { IfOk result (λ d. AreDisturbed tries.now.notes (Binds step.now) (MakesGoal step.now) d) }
    {
        let mut gathered = Gathered::new(alloc);
        gathered.add_looking(alloc, tries, step)?;
        gathered.add_made(alloc, tries, step)?;
        Ok(Disturbed::of(gathered))
    }

    /// The goals that a step disturbs, alone or with its consequences, as it is taken away: those whose notes looked at what one of
    /// them bound, and those that one of them consumed. For each of these, and each variable bound with each goal that looked at it:
    /// a look-up, and a copy of the variables for which the goal waits; and puts them in order once.
    pub fn by_rolling_back(
        alloc: Global,
        tries: &Tries,
        rollback: &Rollback,
    ) -> Result<Disturbed, AllocError>
        ensures { IfOk result (λ d. AreDisturbed tries.now.notes (IsBoundIn (all_gone rollback.now)) (IsConsumedIn (all_gone rollback.now)) d) }
    {
        let (first, others) = rollback.parts();
        let mut gathered = Gathered::new(alloc);
        gathered.add_taken_back(alloc, tries, first.step())?;
        for removal in others {
            gathered.add_taken_back(alloc, tries, removal.step())?;
        }
        Ok(Disturbed::of(gathered))
    }
}
