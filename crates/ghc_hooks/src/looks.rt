// For each variable the goals whose notes looked at it.
ghost use Rattle.std.specs.Prelude.{◌≡◌, ◌≢◌, ◌↔◌, ◌⊎◌, length, is_some, Some, None, IsTrue, OnOk, OnErr};
ghost use Rattle.std.specs.FinSet as set;

use crate::few_goals::FewGoals;
use ghc_term::{GoalName, NameMap, VarName, VariableMap};
use indexmap::IndexMap;
use std::alloc::{AllocError, Global};
use std::hash::BuildHasherDefault;
use std::marker::Model;
use std::slice;

// The goals that stand under each variable. Under most stands one, which has no set of its own.
#[derive(Drop)]
pub struct Looks {
    // the goals under each variable under which more than one has stood since it had none
    several: NameMap<VarName, FewGoals>,
    // the one under each other variable, and that which came first under these
    single: VariableMap<GoalName>,
}

impl Model for Looks {
    ghost use Rattle.std.specs.FinMap as finite;
    ghost use Rattle.ghc_hooks.specs.inner.Looks.{GoalsByVariable};
    ghost use Rattle.ghc_hooks.specs.inner.TriesCode.{goals_by_variable_code};

    ghost Value = { GoalsByVariable };

    ghost coded = { goals_by_variable_code };

    ghost view = { λ l. record { several = finite.from_entries l.several.entries; single = l.single.held } };
}

impl Looks {
    ghost use Rattle.std.specs.Prelude.{option_copied};
    ghost use Rattle.std.specs.FinMap as finite;
    ghost use Rattle.ghc_term.specs.Lists.{In};
    ghost use Rattle.ghc_term.specs.declared.goal_name.GoalName.{GoalName};
    ghost use Rattle.ghc_term.specs.declared.var_name.VarName.{VarName};
    ghost use Rattle.ghc_hooks.specs.inner.Looks.{goals_under, looks, HasOneMore, HasOneLess};

    // No goals, which take no memory.
    pub fn new(alloc: Global) -> Looks
        ensures { (x : VarName) → goals_under result x ≡ set.empty }
    {
        Looks {
            several: IndexMap::with_hasher(alloc, BuildHasherDefault::new()),
            single: VariableMap::new(alloc),
        }
    }

    // The set of the goals under the variable, if it has one: one step where no variable has one, else one look-up.
    #[inline(always)]
    fn set_of(&self, x: VarName) -> Option<&FewGoals>
        ensures { option_copied result ≡ finite.get self.now.several x }
    {
        if self.several.is_empty() {
            return None;
        }
        self.several.get(&x)
    }

    // The goals under the variable, each once: one look-up.
    #[inline(always)]
    pub fn at(&self, x: VarName) -> &[GoalName]
        ensures all { set.from_list result.now ≡ goals_under self.now x }
        ensures once { length result.now ≡ set.len (goals_under self.now x) }
    {
        if let Some(goals) = self.set_of(x) {
            return goals.members();
        }
        match self.single.get(x) {
            Some(goal) => slice::from_ref(goal),
            None => &[],
        }
    }

    // Puts the goal into the set under a variable: one look-up.
    #[inline(never)]
    fn add_to_set(&mut self, x: VarName, goal: GoalName) -> Result<(), AllocError>
        requires { finite.get self.old.several x ≢ None }
        ensures ok { OnOk result (HasOneMore x goal self.old self.new) }
        ensures err { OnErr result ((y : VarName) (h : GoalName) → looks self.new y h ≡ looks self.old y h) }
    {
        if let Some(goals) = self.several.get_mut(&x) {
            return goals.insert(goal);
        }
        Ok(())
    }

    // Makes a set of the goal that stands under a variable and of this one: one look-up.
    #[inline(never)]
    fn add_second(&mut self, x: VarName, first: GoalName, goal: GoalName) -> Result<(), AllocError>
        requires none { finite.get self.old.several x ≡ None }
        requires first { finite.get self.old.single x ≡ Some first }
        ensures ok { OnOk result (HasOneMore x goal self.old self.new) }
        ensures err { OnErr result ((y : VarName) (h : GoalName) → looks self.new y h ≡ looks self.old y h) }
    {
        let mut goals = FewGoals::one(*self.several.allocator(), first);
        goals.insert(goal)?;
        self.several.insert(x, goals)?;
        Ok(())
    }

    // Puts the goal under a variable that has no set: a step, or a look-up or two.
    fn add_single(&mut self, x: VarName, goal: GoalName) -> Result<(), AllocError>
        requires { finite.get self.old.several x ≡ None }
        ensures ok { OnOk result (HasOneMore x goal self.old self.new) }
        ensures err { OnErr result ((y : VarName) (h : GoalName) → looks self.new y h ≡ looks self.old y h) }
    {
        if let Some(first) = self.single.get(x) {
            let first = *first;
            if first == goal {
                return Ok(());
            }
            return self.add_second(x, first, goal);
        }
        self.single.reserve(1, x.step)?;
        self.single.put(x, goal);
        Ok(())
    }

    // Puts the goal under a variable: a step, or a look-up or two.
    fn add(&mut self, x: VarName, goal: GoalName) -> Result<(), AllocError>
        ensures ok { OnOk result (HasOneMore x goal self.old self.new) }
        ensures err { OnErr result ((y : VarName) (h : GoalName) → looks self.new y h ≡ looks self.old y h) }
    {
        if self.set_of(x).is_some() {
            return self.add_to_set(x, goal);
        }
        self.add_single(x, goal)
    }

    // Takes the goal out of the set under a variable, and tells whether it leaves none there: one look-up.
    fn take(&mut self, x: VarName, goal: GoalName) -> bool
        requires { finite.get self.old.several x ≢ None }
        ensures left { HasOneLess x goal self.old self.new }
        ensures none { IsTrue result → goals_under self.new x ≡ set.empty }
    {
        if let Some(goals) = self.several.get_mut(&x) {
            goals.remove(goal);
            return goals.is_empty();
        }
        false
    }

    // Takes away a variable under which no goal stands: one look-up.
    fn forget(&mut self, x: VarName)
        requires { goals_under self.old x ≡ set.empty }
        ensures { (y : VarName) (h : GoalName) → looks self.new y h ≡ looks self.old y h }
    {
        self.single.remove(x);
        self.several.swap_remove(&x);
    }

    // Takes the goal out of the set under a variable: one look-up, and one more where it was the only one.
    #[inline(never)]
    fn remove_from_set(&mut self, x: VarName, goal: GoalName)
        requires { finite.get self.old.several x ≢ None }
        ensures { HasOneLess x goal self.old self.new }
    {
        if self.take(x, goal) {
            self.forget(x);
        }
    }

    // Takes the goal from under a variable that has no set: a step, or a look-up or two.
    fn remove_single(&mut self, x: VarName, goal: GoalName)
        requires { finite.get self.old.several x ≡ None }
        ensures { HasOneLess x goal self.old self.new }
    {
        let Some(single) = self.single.get(x) else {
            return;
        };
        if *single == goal {
            self.single.remove(x);
        }
    }

    // Takes the goal from under a variable: a step, or a look-up or two.
    fn remove(&mut self, x: VarName, goal: GoalName)
        ensures { HasOneLess x goal self.old self.new }
    {
        if self.set_of(x).is_some() {
            self.remove_from_set(x, goal);
            return;
        }
        self.remove_single(x, goal);
    }

    // Puts the goal, which stands under no variable, under each of these: a step or a look-up for each.
    pub fn add_all(&mut self, xs: &[VarName], goal: GoalName) -> Result<(), AllocError>
        requires { (y : VarName) → ¬ IsTrue (looks self.old y goal) }
        ensures ok { OnOk result ((y : VarName) (h : GoalName) → IsTrue (looks self.new y h) ↔ (IsTrue (looks self.old y h) ⊎ (In y xs.now × (h ≡ goal)))) }
        ensures err { OnErr result ((y : VarName) (h : GoalName) → IsTrue (looks self.new y h) ↔ IsTrue (looks self.old y h)) }
    {
        for x in xs {
            if let Err(error) = self.add(*x, goal) {
                self.remove_all(xs, goal);
                return Err(error);
            }
        }
        Ok(())
    }

    // Takes the goal from under each of these variables: a step, or a look-up or two, for each.
    pub fn remove_all(&mut self, xs: &[VarName], goal: GoalName)
        ensures { (y : VarName) (h : GoalName) → IsTrue (looks self.new y h) ↔ (IsTrue (looks self.old y h) × ¬ (In y xs.now × (h ≡ goal))) }
    {
        for x in xs {
            self.remove(*x, goal);
        }
    }
}
