// The variables for which goals wait.
ghost use Rattle.std.specs.Prelude.{◌≡◌, IfOk, OnOk};
ghost use Rattle.std.specs.FinSet as set;

use crate::face::statuses::Statuses;
use ghc_term::{GoalName, VarName};
use indexmap::IndexSet;
use std::alloc::{AllocError, Global};
use std::marker::Model;

// Pairs of a variable and a goal that waits for it.
#[derive(Drop)]
pub struct Hooks {
    table: IndexSet<(VarName, GoalName)>,
}

impl Model for Hooks {
    ghost use Rattle.std.specs.FinSet as set;
    ghost use Rattle.ghc_hooks.specs.inner.FaceCode.{HookPairs, hooks_code};

    ghost Value = { HookPairs };

    ghost coded = { hooks_code };

    ghost view = { λ h. set.from_list h.table.keys };
}

impl Hooks {
    ghost use Rattle.ghc_hooks.specs.inner.Parts.{HooksBesides, TellsHooks};

    // No hooks, which take no memory.
    fn new(alloc: Global) -> Hooks
        ensures { result ≡ set.empty }
    {
        Hooks {
            table: IndexSet::new(alloc),
        }
    }

    // Whether the goal waits for the variable: one look-up.
    pub fn contains(&self, x: VarName, goal: GoalName) -> bool
        ensures { result ≡ set.contains self.now (x, goal) }
    {
        self.table.contains(&(x, goal))
    }

    // Hooks the goal on the variable: one look-up.
    fn put(&mut self, x: VarName, goal: GoalName) -> Result<(), AllocError>
        ensures { OnOk result (self.new ≡ set.insert self.old (x, goal)) }
    {
        self.table.insert((x, goal))?;
        Ok(())
    }

    // Hooks the goal on each of these variables: a look-up for each.
    fn put_all(&mut self, xs: &[VarName], goal: GoalName) -> Result<(), AllocError>
        ensures { OnOk result (HooksBesides self.old xs.now goal self.new) }
    {
        for x in xs {
            self.put(*x, goal)?;
        }
        Ok(())
    }

    // The hooks of these goals by their statuses: a look-up for each goal, and one for each variable for which it waits.
    pub fn of(alloc: Global, statuses: &Statuses, names: &[GoalName]) -> Result<Hooks, AllocError>
        ensures { IfOk result (TellsHooks statuses.now names.now) }
    {
        let mut hooks = Hooks::new(alloc);
        for name in names {
            if let Some(awaited) = statuses.awaited(*name) {
                hooks.put_all(awaited.members(), *name)?;
            }
        }
        Ok(hooks)
    }
}
