// Sets of goals by name.
ghost use Rattle.std.specs.Prelude.{◌≡◌, ◌↔◌, ◌+◌, ◌<◌, ◌≤◌, length, IfSome, IfNone, IsTrue, OnOk, OnErr};
ghost use Rattle.std.specs.FinSet as set;

use ghc_term::{GoalMap, GoalName};
use std::alloc::{AllocError, Global};
use std::marker::Model;

// A set of goals. A look-up takes a step or two for goals of steps to which the set was made to reach, and else a search by hash.
#[derive(Drop)]
pub struct GoalSet {
    marks: GoalMap<()>,
}

impl Model for GoalSet {
    ghost use Rattle.ghc_term.specs.GoalMap.{names_of};
    ghost use Rattle.ghc_term.specs.Table.{Table, table_code};
    ghost use Rattle.ghc_hooks.specs.Face.{GoalNames};
    ghost use Rattle.ghc_hooks.specs.inner.TriesCode.{goal_names_code};

    ghost Value = { Table GoalNames };

    ghost coded = { table_code goal_names_code };

    ghost view = { λ s. record { held = names_of s.marks.held; room = s.marks.room } };
}

impl GoalSet {
    // No goals, which take no memory.
    pub fn new(alloc: Global) -> GoalSet
        ensures { result.held ≡ set.empty }
    {
        GoalSet {
            marks: GoalMap::new(alloc),
        }
    }

    // Whether the goal is in the set: one look-up.
    #[inline(always)]
    pub fn contains(&self, goal: GoalName) -> bool
        ensures { result ≡ set.contains self.now.held goal }
    {
        self.marks.contains(goal)
    }

    // How many goals are in the set.
    pub fn len(&self) -> usize
        ensures { result ≡ set.len self.now.held }
    {
        self.marks.len()
    }

    // Whether no goal is in the set: one step.
    pub fn is_empty(&self) -> bool
        ensures { IsTrue result ↔ (self.now.held ≡ set.empty) }
    {
        self.len() == 0
    }

    // The goals of the set, each once.
    pub fn members(&self) -> &[GoalName]
        ensures all { set.from_list result.now ≡ self.now.held }
        ensures once { length result.now ≡ set.len self.now.held }
    {
        self.marks.names()
    }

    // One of the goals, if there is one: one step.
    pub fn any(&self) -> Option<GoalName>
        ensures some { IfSome result (λ g. IsTrue (set.contains self.now.held g)) }
        ensures none { IfNone result (self.now.held ≡ set.empty) }
    {
        self.members().first().copied()
    }

    // Makes room for as many more goals of steps up to this number.
    pub fn reserve(&mut self, count: usize, newest: u32) -> Result<(), AllocError>
        ensures held { self.new.held ≡ self.old.held }
        ensures room { OnOk result (count ≤ self.new.room) }
        ensures kept { self.old.room ≤ self.new.room }
    {
        self.marks.reserve(count, newest)
    }

    // Adds the goal, where there is room: one look-up.
    #[inline(always)]
    pub fn put(&mut self, goal: GoalName)
        requires { 0 < self.old.room }
        ensures held { self.new.held ≡ set.insert self.old.held goal }
        ensures room { self.old.room ≤ self.new.room + 1 }
    {
        self.marks.put(goal, ());
    }

    // Adds the goal: one look-up.
    pub fn insert(&mut self, goal: GoalName) -> Result<(), AllocError>
        ensures ok { OnOk result (self.new.held ≡ set.insert self.old.held goal) }
        ensures err { OnErr result (self.new.held ≡ self.old.held) }
    {
        self.reserve(1, 0)?;
        self.put(goal);
        Ok(())
    }

    // Takes the goal out, and says whether it was in the set: one look-up. The room does not shrink.
    #[inline(always)]
    pub fn remove(&mut self, goal: GoalName) -> bool
        ensures there { result ≡ set.contains self.old.held goal }
        ensures held { self.new.held ≡ set.remove self.old.held goal }
        ensures room { self.old.room ≤ self.new.room }
    {
        self.marks.remove(goal).is_some()
    }
}
