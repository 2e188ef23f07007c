// The statuses of goals, by name.
ghost use Rattle.std.specs.Prelude.{◌≡◌, ◌↔◌, IfOk, IsTrue, OnOk};

use crate::face::status::{Kind, Status};
use ghc_fire::Goals;
use ghc_flat::Program;
use ghc_term::{GoalName, Store, Variables};
use indexmap::IndexMap;
use std::alloc::{AllocError, Global};
use std::marker::Model;

// Statuses by the names of their goals.
#[derive(Drop)]
pub struct Statuses {
    map: IndexMap<GoalName, Status>,
}

impl Model for Statuses {
    ghost use Rattle.std.specs.FinMap as finite;
    ghost use Rattle.ghc_hooks.specs.inner.FaceCode.{StatusesByGoal, statuses_code};

    ghost Value = { StatusesByGoal };

    ghost coded = { statuses_code };

    ghost view = { λ s. finite.from_entries s.map.entries };
}

impl Statuses {
    ghost use Rattle.std.specs.Prelude.{option_copied, Some, IfSome, IfNone};
    ghost use Rattle.std.specs.FinMap as finite;
    ghost use Rattle.ghc_term.specs.Sets.{Variables as variables_spec};
    ghost use Rattle.ghc_hooks.specs.Status.{waiting};
    ghost use Rattle.ghc_hooks.specs.inner.Parts.{TellsStatuses, IsOfKind};

    // No statuses, which take no memory.
    fn new(alloc: Global) -> Statuses
        ensures { result ≡ finite.empty }
    {
        Statuses {
            map: IndexMap::new(alloc),
        }
    }

    // The status of the goal: one look-up.
    pub fn get(&self, goal: GoalName) -> Option<&Status>
        ensures { option_copied result ≡ finite.get self.now goal }
    {
        self.map.get(&goal)
    }

    // Puts the status of the goal: one look-up.
    fn put(&mut self, goal: GoalName, status: Status) -> Result<(), AllocError>
        ensures { OnOk result (self.new ≡ finite.insert self.old goal «status») }
    {
        self.map.insert(goal, status)?;
        Ok(())
    }

    // Whether the goal has a status of this kind: one look-up.
    pub fn is_of(&self, goal: GoalName, kind: Kind) -> bool
        ensures { IsTrue result ↔ IsOfKind self.now kind goal }
    {
        match self.get(goal) {
            Some(status) => status.kind() == kind,
            None => false,
        }
    }

    // The variables for which the goal waits, if it does: one look-up.
    pub fn awaited(&self, goal: GoalName) -> Option<&Variables>
        ensures some { IfSome result (λ xs. finite.get self.now goal ≡ Some (waiting xs.now)) }
        ensures none { IfNone result (¬ ((xs : variables_spec) × (finite.get self.now goal ≡ Some (waiting xs)))) }
    {
        match self.get(goal) {
            Some(status) => status.awaited(),
            None => None,
        }
    }

    // The status of each of these goals that is there, found from scratch: what `try_goal` costs for each, and two look-ups.
    pub fn of(
        alloc: Global,
        program: &Program,
        goals: &Goals,
        store: &Store,
        names: &[GoalName],
    ) -> Result<Statuses, AllocError>
        ensures { IfOk result (TellsStatuses program.now goals.now.held store.now.held names.now) }
    {
        store.acyclic();
        let mut statuses = Statuses::new(alloc);
        for name in names {
            if let Some(goal) = goals.get(*name) {
                statuses.put(*name, Status::of(alloc, program, store, goal)?)?;
            }
        }
        Ok(statuses)
    }
}
