// The goals that by their notes do not wait: those noted of late, in any order, and the others by the order of their names.
ghost use Rattle.std.specs.Prelude.{◌≡◌, ◌<◌, None, IsTrue, OnOk, OnErr};
ghost use Rattle.std.specs.FinMap as finite;
ghost use Rattle.std.specs.FinSet as set;
ghost use Rattle.ghc_term.specs.declared.fault.Fault.{Fault};
ghost use Rattle.ghc_hooks.specs.Notes.{Note, NotesByGoal};
ghost use Rattle.ghc_hooks.specs.NotedFace.{IsNotedAs};
ghost use Rattle.ghc_hooks.specs.Status.{ready, failed};
ghost use Rattle.ghc_hooks.specs.Verdict.{status_of};
ghost use Rattle.ghc_hooks.specs.inner.Unblocked.{AreUnblocked, SortsIn, SortsOut};

use crate::goal_set::GoalSet;
use crate::note::Verdict;
use crate::notes::Notes;
use ghc_term::GoalName;
use std::alloc::{AllocError, Global};
use std::collections::BTreeSet;

/// The goals that by their notes do not wait. They are put in order where somebody asks for that, so that no step pays for it.
#[derive(Drop)]
pub struct Unblocked {
    // Those that are not yet in order.
    pub(crate) unsorted: GoalSet,
    /// Those of the others that are ready, by step, then place.
    pub ready: BTreeSet<GoalName>,
    /// Those of the others that have failed, by step, then place.
    pub failed: BTreeSet<GoalName>,
}

// Puts the goal in its place in the order: a search.
fn insert(goals: &mut BTreeSet<GoalName>, goal: GoalName) -> Result<(), AllocError>
    ensures ok { OnOk result (SortsIn goal goals.old goals.new) }
    ensures err { OnErr result (goals.new.keys ≡ goals.old.keys) }
{
    match goals.insert(goal) {
        Ok(_) => Ok(()),
        Err(_) => Err(AllocError),
    }
}

// Takes the goal out, if it is there: a search, or a step where there are no goals.
fn take(goals: &mut BTreeSet<GoalName>, goal: GoalName)
    ensures { SortsOut goal goals.old goals.new }
{
    goals.remove(&goal);
}

impl Unblocked {
    // No goals, which take no memory.
    pub(crate) fn new(alloc: Global) -> Unblocked
        ensures { AreUnblocked finite.empty result }
    {
        Unblocked {
            unsorted: GoalSet::new(alloc),
            ready: BTreeSet::new(alloc),
            failed: BTreeSet::new(alloc),
        }
    }

    // Adds the goal where the verdict says that it does not wait, and there is room: a look-up at most.
    pub(crate) fn add(&mut self, goal: GoalName, verdict: &Verdict)
        requires { 0 < self.old.unsorted.room }
        ensures { (notes : NotesByGoal) (note : Note) → AreUnblocked notes self.old → finite.get notes goal ≡ None → note.status ≡ status_of verdict.now → AreUnblocked (finite.insert notes goal note) self.new }
    {
        match verdict {
            Verdict::Waiting(_) => {}
            Verdict::Ready => self.unsorted.put(goal),
            Verdict::Failed(_) => self.unsorted.put(goal),
        }
    }

    // Takes the goal out: a look-up, and a search or two where it is in order.
    fn take_out(&mut self, goal: GoalName)
        ensures { (notes : NotesByGoal) → AreUnblocked notes self.old → AreUnblocked (finite.remove notes goal) self.new }
    {
        if self.unsorted.remove(goal) {
            return;
        }
        take(&mut self.ready, goal);
        take(&mut self.failed, goal);
    }

    // Takes the goal that has this verdict out, if it is there: nothing where it waits, and else what `take_out` does.
    pub(crate) fn remove(&mut self, goal: GoalName, verdict: &Verdict)
        ensures { (notes : NotesByGoal) → AreUnblocked notes self.old → IsNotedAs notes goal (status_of verdict.now) → AreUnblocked (finite.remove notes goal) self.new }
    {
        match verdict {
            Verdict::Waiting(_) => {}
            Verdict::Ready => self.take_out(goal),
            Verdict::Failed(_) => self.take_out(goal),
        }
    }

    // Puts a goal that is ready in its place: a search and a look-up.
    fn sort_ready(&mut self, goal: GoalName) -> Result<(), AllocError>
        ensures are { (notes : NotesByGoal) → AreUnblocked notes self.old → IsNotedAs notes goal ready → AreUnblocked notes self.new }
        ensures less { OnOk result (self.new.unsorted.held ≡ set.remove self.old.unsorted.held goal) }
    {
        insert(&mut self.ready, goal)?;
        self.unsorted.remove(goal);
        Ok(())
    }

    // The same of a goal that has failed.
    fn sort_failed(&mut self, goal: GoalName) -> Result<(), AllocError>
        ensures are { (notes : NotesByGoal) (f : Fault) → AreUnblocked notes self.old → IsNotedAs notes goal (failed f) → AreUnblocked notes self.new }
        ensures less { OnOk result (self.new.unsorted.held ≡ set.remove self.old.unsorted.held goal) }
    {
        insert(&mut self.failed, goal)?;
        self.unsorted.remove(goal);
        Ok(())
    }

    // Puts a goal that is not yet in order in its place: two look-ups and a search.
    fn sort_one(&mut self, notes: &Notes, goal: GoalName) -> Result<(), AllocError>
        requires are { AreUnblocked notes.now.held self.old }
        requires unsorted { IsTrue (set.contains self.old.unsorted.held goal) }
        ensures are { AreUnblocked notes.now.held self.new }
        ensures less { OnOk result (self.new.unsorted.held ≡ set.remove self.old.unsorted.held goal) }
    {
        let Some(note) = notes.get(goal) else {
            return Ok(());
        };
        match note.verdict() {
            Verdict::Waiting(_) => Ok(()),
            Verdict::Ready => self.sort_ready(goal),
            Verdict::Failed(_) => self.sort_failed(goal),
        }
    }

    // Puts all goals in order: for each that is not yet there, two look-ups and a search. Where memory is refused, the rest is not.
    pub(crate) fn sort(&mut self, notes: &Notes) -> Result<(), AllocError>
        requires { AreUnblocked notes.now.held self.old }
        ensures are { AreUnblocked notes.now.held self.new }
        ensures sorted { OnOk result (self.new.unsorted.held ≡ set.empty) }
    {
        while let Some(goal) = self.unsorted.any() {
            self.sort_one(notes, goal)?;
        }
        Ok(())
    }
}
