// Trying goals and noting their outcomes.
ghost use Rattle.std.specs.Prelude.{◌≡◌, ◌≢◌, ◌+◌, ℕ, IfOk, IfSome, IfNone, OnOk, OnErr, IsTrue, Err};
ghost use Rattle.std.specs.FinSet as set;
ghost use Rattle.ghc_term.specs.Answered.{Answered};
ghost use Rattle.ghc_fire.specs.Meter.{tried};
ghost use Rattle.ghc_core.specs.Events.{refused};
ghost use Rattle.ghc_core.specs.Proposes.{Notes, IsNoCandidate};
ghost use Rattle.ghc_core.specs.Settling.{IsCandidate, IsNoteOf, IsNoted, AreKept, AreNoted, tried_often};
ghost use Rattle.ghc_core.specs.Core.{Stays};

use crate::core_state::Core;
use ghc_hooks::{Note, try_goal};
use ghc_term::{Fault, Goal, GoalName, GoalView};
use std::alloc::{AllocError, Global};

// Lets go of a note: apart, so that no frame of a try has room for it.
#[inline(never)]
fn let_go(note: Note) {
    let _note = note;
}

impl Core {
    // The goal of this name, where it can be tried: one look-up.
    fn candidate(&self, goal: GoalName) -> Option<&Goal>
        ensures some { IfSome result (λ b. IsCandidate self.now.world goal b.now) }
        ensures none { IfNone result (IsNoCandidate self.now.world goal) }
    {
        let found = self.state.goals().get(goal)?;
        match found.view() {
            GoalView::Stream(_, _) => None,
            _ => Some(found),
        }
    }

    // Tries the goal of this name from scratch, and counts that, where it can be tried.
    pub(crate) fn try_named(&mut self, alloc: Global, goal: GoalName) -> Result<Note, Fault>
        ensures answer { Answered (IsNoteOf self.old.world goal) (λ f. Notes ⊥ self.old.world goal (refused f)) result }
        ensures no_goal { IsNoCandidate self.old.world goal → (result ≡ Err Fault.NoGoal) × (self.new.meter ≡ self.old.meter) }
        ensures stays { Stays self.old self.new }
        ensures counted { (¬ IsNoCandidate self.old.world goal) → self.new.meter ≡ tried self.old.meter }
    {
        let Some(found) = self.candidate(goal) else {
            return Err(Fault::NoGoal);
        };
        let outcome = try_goal(alloc, &*self.program, self.state.store(), found);
        self.meter.count_try();
        Ok(outcome?)
    }

    // Gives the goal the note of a trial from scratch, if it is untried; else it has one already. Where memory is refused it stays
    // untried.
    pub(crate) fn enter(&mut self, goal: GoalName, note: Note) -> Result<(), AllocError>
        requires { IsNoteOf self.old.world goal «note» }
        ensures world { self.new.world ≡ self.old.world }
        ensures noted { OnOk result (IsNoted self.old.world goal self.old.notes self.new.notes) }
        ensures untried { OnOk result (self.new.untried ≡ set.remove self.old.untried goal) }
        ensures kept { AreKept self.old.notes self.new.notes }
        ensures stays { OnErr result (Stays self.old self.new) }
        ensures meter { self.new.meter ≡ self.old.meter }
    {
        if !self.tries.is_untried(goal) {
            let_go(note);
            return Ok(());
        }
        self.tries.note(goal, note)?;
        Ok(())
    }

    /// Tries a goal from scratch, also where it has a note, and leaves it with its note: one try. `NoGoal` exactly where no such
    /// goal is there or it is a stream goal, which it reports before it asks for memory, and without a try. Else it fails only
    /// where memory is refused, and then no note changes. It costs the try, and some look-ups for each variable that it looks at.
    pub fn note(&mut self, alloc: Global, goal: GoalName) -> Result<(), Fault>
        ensures answer { Answered (λ _. IsNoted self.old.world goal self.old.notes self.new.notes) (λ f. Notes ⊥ self.old.world goal (refused f)) result }
        ensures no_goal { IsNoCandidate self.old.world goal → (result ≡ Err Fault.NoGoal) × (self.new.meter ≡ self.old.meter) }
        ensures world { self.new.world ≡ self.old.world }
        ensures untried { OnOk result (self.new.untried ≡ set.remove self.old.untried goal) }
        ensures kept { AreKept self.old.notes self.new.notes }
        ensures stays { OnErr result (Stays self.old self.new) }
        ensures counted { (¬ IsNoCandidate self.old.world goal) → self.new.meter ≡ tried self.old.meter }
    {
        let note = self.try_named(alloc, goal)?;
        self.enter(goal, note)?;
        Ok(())
    }

    // Tries an untried goal and notes the outcome. Where memory is refused, it stays untried.
    #[inline(never)]
    fn try_untried(&mut self, alloc: Global, goal: GoalName) -> Result<(), AllocError>
        requires { IsTrue (set.contains self.old.untried goal) }
        ensures world { self.new.world ≡ self.old.world }
        ensures untried { OnOk result (self.new.untried ≡ set.remove self.old.untried goal) }
        ensures kept { AreKept self.old.notes self.new.notes }
        ensures untried_stay { OnErr result (self.new.untried ≡ self.old.untried) }
        ensures counted { self.new.meter ≡ tried self.old.meter }
    {
        self.stands();
        match self.note(alloc, goal) {
            Ok(()) => Ok(()),
            Err(_) => Err(AllocError),
        }
    }

    /// Tries each untried goal once, notes the outcomes, and gives their number: then each goal but stream goals has a note. No
    /// other goal is tried. Where memory is refused, the notes that were made stay, and the rest is still untried. It costs the
    /// tries.
    pub fn settle(&mut self, alloc: Global) -> Result<usize, AllocError>
        ensures world { self.new.world ≡ self.old.world }
        ensures count { IfOk result (λ n. n ≡ set.len self.old.untried) }
        ensures settled { OnOk result (self.new.untried ≡ set.empty) }
        ensures noted { IfOk result (λ n. AreNoted n self.old.notes self.old.untried self.new.notes self.new.untried) }
        ensures counted { IfOk result (λ n. self.new.meter ≡ tried_often n self.old.meter) }

        // The notes that were made before the try that found no memory stay, and a goal is left.
        ensures refused { OnErr result ((k : ℕ) × AreNoted k self.old.notes self.old.untried self.new.notes self.new.untried × (self.new.meter ≡ tried_often (k + 1) self.old.meter)) }
        ensures left { OnErr result (self.new.untried ≢ set.empty) }
    {
        // Called since what it gives is a u64, which the proof cites.
        let _counted = self.meter().tries();
        let count = self.tries().untried_count();
        while let Some(goal) = self.tries().next_untried() {
            self.try_untried(alloc, goal)?;
        }
        Ok(count)
    }

    /// Puts the goals that by their notes do not wait in order, for `Tries::sorted`: a search and some look-ups for each that was noted
    /// since this was done. Where memory is refused, some of them are not in order.
    pub fn sort_goals(&mut self) -> Result<(), AllocError>
        ensures stays { Stays self.old self.new }
        ensures meter { self.new.meter ≡ self.old.meter }
    {
        self.tries.sort()
    }
}
