// The goals that a change disturbs, as they are gathered.
ghost use Rattle.std.specs.Prelude.{◌≡◌, ◌↔◌, ◌⊎◌, ◌++◌, ◌∷◌, [], Some, OnOk};
ghost use Rattle.std.specs.List.Sorted.{IsStrictlySortedBy};
ghost use Rattle.std.specs.Map.{keys_of};
ghost use Rattle.ghc_term.specs.Lists.{In};
ghost use Rattle.ghc_term.specs.declared.goal_name.GoalName.{GoalName as goal_name};
ghost use Rattle.ghc_fire.specs.Goals.{goal_cmp};
ghost use Rattle.ghc_records.specs.Replay.{MakesGoal};
ghost use Rattle.ghc_depend.specs.Depend.{Binds};
ghost use Rattle.ghc_trace.specs.Disturbed.{LooksWhere};
ghost use Rattle.ghc_trace.specs.inner.NewsCode.{Former};
ghost use Rattle.ghc_trace.specs.inner.Gathering.{noted, Gathers};

use crate::stuck::{Stuck, stuck_now};
use ghc_hooks::Tries;
use ghc_records::Record;
use ghc_term::GoalName;
use std::alloc::{AllocError, Global};

// Puts the goals in order, each once: one pass where they are, else a sort, which takes no memory.
pub(crate) fn put_in_order(goals: &mut Vec<(GoalName, Option<Stuck>)>)
    ensures names { (g : goal_name) → In g (keys_of goals.new.items) ↔ In g (keys_of goals.old.items) }
    ensures gathered { (e : Former) → In e goals.new.items → In e goals.old.items }
    ensures rising { IsStrictlySortedBy goal_cmp (keys_of goals.new.items) }
{
    if goals.is_sorted_by(|goal, next| goal.0 < next.0) {
        return;
    }
    goals.sort_unstable_by_key(|goal| goal.0);
    goals.dedup_by_key(|goal| goal.0);
}

// The goals that a change disturbs, each with how it is stuck before the change: in any order, and some maybe more than once.
#[derive(Drop)]
pub(crate) struct Gathered {
    pub(crate) goals: Vec<(GoalName, Option<Stuck>)>,
}

impl Gathered {
    // No goals, which take no memory.
    pub(crate) fn new(alloc: Global) -> Gathered
        ensures { result.goals.items ≡ [] }
    {
        Gathered {
            goals: Vec::new(alloc),
        }
    }

    // Adds the goal, with how it is stuck by its note: one look-up.
    fn add(&mut self, alloc: Global, tries: &Tries, goal: GoalName) -> Result<(), AllocError>
        ensures { OnOk result (self.new.goals.items ≡ self.old.goals.items ++ noted tries.now.notes goal ∷ []) }
    {
        let stuck = stuck_now(alloc, tries, goal)?;
        self.goals.push((goal, stuck))?;
        Ok(())
    }

    // Adds each of the goals.
    fn add_all(
        &mut self,
        alloc: Global,
        tries: &Tries,
        goals: &[GoalName],
    ) -> Result<(), AllocError>
        ensures { OnOk result (Gathers tries.now.notes (λ g. In g goals.now) self.old.goals.items self.new.goals.items) }
    {
        for goal in goals {
            self.add(alloc, tries, *goal)?;
        }
        Ok(())
    }

    // Adds the goals whose notes looked at a variable that the step binds.
    pub(crate) fn add_looking(
        &mut self,
        alloc: Global,
        tries: &Tries,
        step: &Record,
    ) -> Result<(), AllocError>
        ensures { OnOk result (Gathers tries.now.notes (LooksWhere tries.now.notes (Binds step.now)) self.old.goals.items self.new.goals.items) }
    {
        for (x, _value) in step.effect().binds().entries() {
            self.add_all(alloc, tries, tries.looking_at(*x))?;
        }
        Ok(())
    }

    // Adds the goals that the step makes.
    pub(crate) fn add_made(
        &mut self,
        alloc: Global,
        tries: &Tries,
        step: &Record,
    ) -> Result<(), AllocError>
        ensures { OnOk result (Gathers tries.now.notes (MakesGoal step.now) self.old.goals.items self.new.goals.items) }
    {
        let number = step.number();
        for index in 0..step.effect().made() {
            let goal = GoalName {
                step: number,
                place: index + 1,
            };
            self.add(alloc, tries, goal)?;
        }
        Ok(())
    }

    // Adds the goals that the step disturbs as it is taken away: those whose notes looked at what it bound, and the one that it
    // consumed.
    pub(crate) fn add_taken_back(
        &mut self,
        alloc: Global,
        tries: &Tries,
        step: &Record,
    ) -> Result<(), AllocError>
        ensures { OnOk result (Gathers tries.now.notes (λ g. LooksWhere tries.now.notes (Binds step.now) g ⊎ (step.now.goal ≡ Some g)) self.old.goals.items self.new.goals.items) }
    {
        self.add_looking(alloc, tries, step)?;
        if let Some(goal) = step.goal() {
            self.add(alloc, tries, goal)?;
        }
        Ok(())
    }
}
