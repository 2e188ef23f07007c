// The noted outcomes of goals, and the goals that are still to be tried.
ghost use Rattle.std.specs.Prelude.{◌≡◌, ◌≢◌, ◌↔◌, ◌+◌, ◌<◌, ◌≤◌, length, IfSome, IfNone, IsTrue, OnOk, OnErr, None, Some};
ghost use Rattle.std.specs.FinMap as finite;
ghost use Rattle.std.specs.FinSet as set;

use crate::goal_set::GoalSet;
use crate::looks::Looks;
use crate::note::Note;
use crate::notes::Notes;
use crate::unblocked::Unblocked;
use ghc_term::{GoalName, VarName};
use std::alloc::{AllocError, Global};
use std::marker::Model;

/// The notes of goals and the untried goals, with the goals that looked at each variable, and those that by their notes do not
/// wait. No goal is both noted and untried.
#[derive(Drop)]
pub struct Tries {
    notes: Notes,
    untried: GoalSet,
    looks: Looks,
    unblocked: Unblocked,
}

impl Model for Tries {
    ghost use Rattle.std.specs.Prelude.{◌-◌};
    ghost use Rattle.std.specs.FinMap as finite;
    ghost use Rattle.ghc_hooks.specs.Tries.{Tries};
    ghost use Rattle.ghc_hooks.specs.inner.TriesCode.{tries_code};
    ghost use Rattle.ghc_hooks.specs.inner.Looks.{FitEachOther};
    ghost use Rattle.ghc_hooks.specs.inner.Unblocked.{AreUnblocked};

    ghost Value = { Tries };

    ghost coded = { tries_code };

    ghost view = { λ t. record { notes = t.notes.held; untried = t.untried.held; room = t.untried.room - finite.len t.notes.held } };

    ghost invariant = { λ t. FitEachOther t.notes.held t.untried t.looks × AreUnblocked t.notes.held t.unblocked };
}

// Makes room for one more note, of a goal of this step, and for each noted goal among the untried.
#[inline(always)]
fn make_room(
    notes: &mut Notes,
    untried: &mut GoalSet,
    unsorted: &mut GoalSet,
    step: u32,
) -> Result<(), AllocError>
    ensures notes { notes.new.held ≡ notes.old.held }
    ensures untried { untried.new.held ≡ untried.old.held }
    ensures unsorted { unsorted.new.held ≡ unsorted.old.held }
    ensures kept { untried.old.room ≤ untried.new.room }
    ensures room { OnOk result (0 < notes.new.room) }
    ensures untried_room { OnOk result (finite.len notes.old.held + 1 ≤ untried.new.room) }
    ensures unsorted_room { OnOk result (0 < unsorted.new.room) }
{
    notes.reserve(1, step)?;
    untried.reserve(notes.len() + 1, step)?;
    unsorted.reserve(1, step)
}

impl Tries {
    ghost use Rattle.std.specs.Prelude.{option_copied};
    ghost use Rattle.ghc_term.specs.Lists.{In};
    ghost use Rattle.ghc_term.specs.declared.goal_name.GoalName.{GoalName};
    ghost use Rattle.ghc_hooks.specs.Notes.{Note};
    ghost use Rattle.ghc_hooks.specs.NotedFace.{IsNotedAs};
    ghost use Rattle.ghc_hooks.specs.Status.{ready, failed};
    ghost use Rattle.ghc_hooks.specs.Tries.{HasLookedAt, AreSpared, AreWoken};
    ghost use Rattle.ghc_term.specs.declared.fault.Fault.{Fault};
    ghost use Rattle.ghc_fire.specs.Goals.{goal_cmp};
    ghost use Rattle.ghc_term.specs.declared.var_name.VarName.{VarName};

    /// No goals, which take no memory.
    pub fn new(alloc: Global) -> Tries
        ensures notes { result.notes ≡ finite.empty }
        ensures untried { result.untried ≡ set.empty }
    {
        Tries {
            notes: Notes::new(alloc),
            untried: GoalSet::new(alloc),
            looks: Looks::new(alloc),
            unblocked: Unblocked::new(alloc),
        }
    }

    /// The note of the goal, if it has one: one look-up.
    pub fn get(&self, goal: GoalName) -> Option<&Note>
        ensures { option_copied result ≡ finite.get self.now.notes goal }
    {
        self.notes.get(goal)
    }

    /// Whether the goal is untried: one look-up.
    pub fn is_untried(&self, goal: GoalName) -> bool
        ensures { result ≡ set.contains self.now.untried goal }
    {
        self.untried.contains(goal)
    }

    /// How many goals are untried: one step.
    pub fn untried_count(&self) -> usize
        ensures { result ≡ set.len self.now.untried }
    {
        self.untried.len()
    }

    /// A goal that is untried, if there is one: one step.
    pub fn next_untried(&self) -> Option<GoalName>
        ensures some { IfSome result (λ g. IsTrue (set.contains self.now.untried g)) }
        ensures none { IfNone result (self.now.untried ≡ set.empty) }
    {
        self.untried.any()
    }

    /// An untried goal has no note. This costs nothing.
    pub fn apart(&self)
        ensures { (g : GoalName) → IsTrue (set.contains self.now.untried g) → finite.get self.now.notes g ≡ None }
    {
        let _notes = &self.notes;
    }

    /// The goals whose notes looked at the variable, each once: one look-up.
    #[inline(always)]
    pub fn looking_at(&self, x: VarName) -> &[GoalName]
        ensures each { (g : GoalName) → In g result.now ↔ HasLookedAt self.now.notes x g }
        ensures once { length result.now ≡ set.len (set.from_list {R = goal_cmp} result.now) }
    {
        self.looks.at(x)
    }

    /// Puts the goals that by their notes do not wait in order: a search and some look-ups for each that was noted since this was done.
    /// Where memory is refused, some of them are not in order.
    pub fn sort(&mut self) -> Result<(), AllocError>
        ensures notes { self.new.notes ≡ self.old.notes }
        ensures untried { self.new.untried ≡ self.old.untried }
        ensures room { self.new.room ≡ self.old.room }
    {
        self.unblocked.sort(&self.notes)
    }

    /// The goals that by their notes are ready, and those that have failed, where all of them are in order: one step.
    pub fn sorted(&self) -> Option<&Unblocked>
        ensures ready { IfSome result (λ goals. (g : GoalName) → In g goals.now.ready.keys ↔ IsNotedAs self.now.notes g ready) }
        ensures failed { IfSome result (λ goals. (g : GoalName) → In g goals.now.failed.keys ↔ ((f : Fault) × IsNotedAs self.now.notes g (failed f))) }
    {
        if self.unblocked.unsorted.is_empty() {
            return Some(&self.unblocked);
        }
        None
    }

    // A goal whose note looked at the variable, if there is one: one look-up.
    fn first_looking_at(&self, x: VarName) -> Option<GoalName>
        ensures some { IfSome result (λ g. HasLookedAt self.now.notes x g) }
        ensures none { IfNone result ((g : GoalName) → ¬ HasLookedAt self.now.notes x g) }
    {
        self.looking_at(x).first().copied()
    }

    /// Makes room for as many more goals that steps up to this number made. Notes and marks stay, and so does the room where memory is
    /// refused.
    pub fn reserve(&mut self, count: usize, newest: u32) -> Result<(), AllocError>
        ensures notes { self.new.notes ≡ self.old.notes }
        ensures untried { self.new.untried ≡ self.old.untried }
        ensures room { OnOk result (count ≤ self.new.room) }
        ensures kept { self.old.room ≤ self.new.room }
    {
        match self.notes.len().checked_add(count) {
            Some(wanted) => self.untried.reserve(wanted, newest),
            None => Err(AllocError),
        }
    }

    /// Marks a goal that has no note as untried, where there is room: one look-up.
    #[inline(always)]
    pub fn add_goal(&mut self, goal: GoalName)
        requires room { 0 < self.old.room }
        requires new { finite.get self.old.notes goal ≡ None }
        ensures notes { self.new.notes ≡ self.old.notes }
        ensures untried { self.new.untried ≡ set.insert self.old.untried goal }
        ensures room { self.old.room ≤ self.new.room + 1 }
    {
        self.untried.put(goal);
    }

    /// Gives an untried goal its note: a look-up or two, and one for each variable that it looked at. Where memory is refused the goal stays
    /// untried. It may use up the room of one goal.
    pub fn note(&mut self, goal: GoalName, note: Note) -> Result<(), AllocError>
        requires { IsTrue (set.contains self.old.untried goal) }
        ensures notes { OnOk result (self.new.notes ≡ finite.insert self.old.notes goal «note») }
        ensures untried { OnOk result (self.new.untried ≡ set.remove self.old.untried goal) }
        ensures notes_stay { OnErr result (self.new.notes ≡ self.old.notes) }
        ensures untried_stay { OnErr result (self.new.untried ≡ self.old.untried) }
        ensures room { self.old.room ≤ self.new.room + 1 }
    {
        let unsorted = &mut self.unblocked.unsorted;
        make_room(&mut self.notes, &mut self.untried, unsorted, goal.step)?;
        self.looks.add_all(note.looked().members(), goal)?;
        self.untried.remove(goal);
        self.unblocked.add(goal, note.verdict());
        self.notes.put(goal, note);
        Ok(())
    }

    /// Takes away the note or the mark of a goal: one look-up for a mark, two or three for a note, and a look-up or two for each variable
    /// that it looked at. A goal that was put in order costs a search besides. The room does not shrink.
    #[inline(always)]
    pub fn drop_goal(&mut self, goal: GoalName)
        ensures notes { self.new.notes ≡ finite.remove self.old.notes goal }
        ensures untried { self.new.untried ≡ set.remove self.old.untried goal }
        ensures room { self.old.room ≤ self.new.room }
    {
        if self.untried.remove(goal) {
            return;
        }
        if let Some(note) = self.notes.remove(goal) {
            self.looks.remove_all(note.looked().members(), goal);
            self.unblocked.remove(goal, note.verdict());
        }
    }

    // Makes a noted goal untried: three or four look-ups, one or two for each variable that it looked at, and a search where it is in order.
    fn wake_goal(&mut self, goal: GoalName)
        requires { finite.get self.old.notes goal ≢ None }
        ensures notes { self.new.notes ≡ finite.remove self.old.notes goal }
        ensures untried { self.new.untried ≡ set.insert self.old.untried goal }
        ensures room { self.old.room ≤ self.new.room }
    {
        let Some(note) = self.notes.remove(goal) else {
            return;
        };
        self.looks.remove_all(note.looked().members(), goal);
        self.unblocked.remove(goal, note.verdict());
        self.untried.put(goal);
    }

    /// The variable was bound or freed: each goal whose note looked at it loses the note and is untried again. It costs some
    /// look-ups for each of these goals and each variable that they looked at, and takes no memory.
    #[inline(always)]
    pub fn wake_at(&mut self, x: VarName)
        ensures notes { AreSpared (λ y. y ≡ x) self.old.notes self.new.notes }
        ensures untried { AreWoken (λ y. y ≡ x) self.old.notes self.old.untried self.new.untried }
        ensures room { self.old.room ≤ self.new.room }
    {
        while let Some(goal) = self.first_looking_at(x) {
            self.wake_goal(goal);
        }
    }
}
