// The goals of a state.
ghost use Rattle.std.specs.Prelude.{◌≡◌, ◌<◌, ◌≤◌, ◌+◌, map, IfOk, OnOk};

use crate::made::MadeGoal;
use ghc_term::{Goal, GoalMap, GoalName};
use std::alloc::{AllocError, Global};
use std::collections::BTreeMap;
use std::marker::Model;

/// The goals of a state by their names.
pub struct Goals {
    map: GoalMap<MadeGoal>,
}

impl Drop for Goals {
    fn drop(self) {
        let Goals { map: _map } = self;
    }
}

impl Model for Goals {
    ghost use Rattle.ghc_term.specs.Table.{Table, table_code};
    ghost use Rattle.ghc_fire.specs.Goals.{Goals};
    ghost use Rattle.ghc_fire.specs.inner.GoalsCode.{goals_code};

    ghost Value = { Table Goals };

    ghost coded = { table_code goals_code };

    ghost view = { λ g. g.map };
}

impl Goals {
    ghost use Rattle.std.specs.Prelude.{option_copied};
    ghost use Rattle.std.specs.FinMap as finite;
    ghost use Rattle.ghc_term.specs.Goal.{Goal};
    ghost use Rattle.ghc_term.specs.declared.goal_name.GoalName.{GoalName};

    /// No goals, which take no memory.
    pub fn new(alloc: Global) -> Goals
        ensures { result.held ≡ finite.empty }
    {
        Goals {
            map: GoalMap::new(alloc),
        }
    }

    /// The handle of the goal of this name: one step for the first two goals of a step that is not far ahead, else a look-up.
    #[inline(always)]
    pub fn handle(&self, name: GoalName) -> Option<&MadeGoal>
        ensures { option_copied result ≡ finite.get self.now.held name }
    {
        self.map.get(name)
    }

    /// The goal of this name: one step for the first two goals of a step that is not far ahead, else a look-up.
    #[inline(always)]
    pub fn get(&self, name: GoalName) -> Option<&Goal>
        ensures { option_copied result ≡ finite.get self.now.held name }
    {
        match self.handle(name) {
            Some(made) => Some(made.goal()),
            None => None,
        }
    }

    /// The goals with their names, by step, then place. Each is put in its place in the order, and no goal is copied.
    pub fn by_name(&self, alloc: Global) -> Result<BTreeMap<GoalName, &Goal>, AllocError>
        ensures { IfOk result (λ goals. map (λ e. (e.0, e.1.now)) goals.entries ≡ finite.entries self.now.held) }
    {
        let mut goals = BTreeMap::new(alloc);
        for name in self.map.names() {
            if let Some(goal) = self.get(*name) {
                goals.insert(*name, goal)?;
            }
        }
        let _count = goals.len();
        Ok(goals)
    }

    /// Makes room for as many more goals that steps up to this one made. The goals stay, and so does the room where memory is refused.
    #[inline(always)]
    pub fn reserve(&mut self, count: usize, newest: u32) -> Result<(), AllocError>
        ensures held { self.new.held ≡ self.old.held }
        ensures room { OnOk result (count ≤ self.new.room) }
        ensures kept { self.old.room ≤ self.new.room }
    {
        self.map.reserve(count, newest)
    }

    /// Puts a goal under the name, in place of one that it had, where there is room: a step or a look-up.
    #[inline(always)]
    pub fn put(&mut self, name: GoalName, goal: MadeGoal)
        requires { 0 < self.old.room }
        ensures held { self.new.held ≡ finite.insert self.old.held name goal }
        ensures room { self.old.room ≤ self.new.room + 1 }
    {
        self.map.put(name, goal);
    }

    /// Takes the goal of this name away and gives it, if there was one: a step or two, or look-ups. The room does not shrink.
    #[inline(always)]
    pub fn remove(&mut self, name: GoalName) -> Option<MadeGoal>
        ensures value { result ≡ finite.get self.old.held name }
        ensures held { self.new.held ≡ finite.remove self.old.held name }
        ensures room { self.old.room ≤ self.new.room }
    {
        self.map.remove(name)
    }
}
