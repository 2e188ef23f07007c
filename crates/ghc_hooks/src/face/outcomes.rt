// What clauses say to calls.
ghost use Rattle.std.specs.Prelude.{◌≡◌, IfOk, IfSome, IfNone, OnOk, Some, None};
ghost use Rattle.std.specs.FinMap as finite;

use ghc_fire::Goals;
use ghc_flat::Program;
use ghc_match::{Tried, try_clause};
use ghc_term::{GoalName, GoalView, Name, Store, Term};
use indexmap::IndexMap;
use std::alloc::{AllocError, Global};
use std::marker::Model;

// The outcomes of clauses, by goal and the clause's number.
#[derive(Drop)]
pub struct Outcomes {
    map: IndexMap<(GoalName, u32), Tried>,
}

impl Model for Outcomes {
    ghost use Rattle.ghc_hooks.specs.inner.FaceCode.{OutcomesByClause, outcomes_code};

    ghost Value = { OutcomesByClause };

    ghost coded = { outcomes_code };

    ghost use Rattle.ghc_hooks.specs.inner.Found.{outcomes_found};

    ghost view = { λ o. outcomes_found o.map.entries };
}

impl Outcomes {
    ghost use Rattle.ghc_match.specs.inner.Told.{outcome_of};
    ghost use Rattle.ghc_hooks.specs.Face.{ClauseSays};
    ghost use Rattle.ghc_hooks.specs.inner.Parts.{SaysToCall, HaveOnly, HaveBesides, TellsOutcomes};

    // No outcomes, which take no memory.
    fn new(alloc: Global) -> Outcomes
        ensures { result ≡ finite.empty }
    {
        Outcomes {
            map: IndexMap::new(alloc),
        }
    }

    // What the clause says to the goal, where it is one for it: one look-up.
    pub fn get(&self, goal: GoalName, clause: u32) -> Option<&Tried>
        ensures some { IfSome result (λ t. finite.get self.now (goal, clause) ≡ Some (outcome_of t.now)) }
        ensures none { IfNone result (finite.get self.now (goal, clause) ≡ None) }
    {
        self.map.get(&(goal, clause))
    }

    // Puts what the clause says to the goal: one look-up.
    fn put(&mut self, goal: GoalName, clause: u32, tried: Tried) -> Result<(), AllocError>
        ensures { OnOk result (self.new ≡ finite.insert self.old (goal, clause) (outcome_of «tried»)) }
    {
        self.map.insert((goal, clause), tried)?;
        Ok(())
    }

    // Adds what each clause for the call says to it: what `try_clause` costs for each. What is there of the goal is so.
    fn add_call(
        &mut self,
        alloc: Global,
        program: &Program,
        store: &Store,
        goal: GoalName,
        name: &Name,
        arguments: &[Term],
    ) -> Result<(), AllocError>
        requires { HaveOnly self.old goal (SaysToCall program.now store.now.held name.now arguments.now) }
        ensures { OnOk result (HaveBesides self.old goal (SaysToCall program.now store.now.held name.now arguments.now) self.new) }
    {
        store.acyclic();
        program.clauses();
        for number in program.clauses_for(name, arguments.len()) {
            let clause = program.clause(*number).unwrap();
            let tried = try_clause(alloc, clause, arguments, store)?;
            self.put(goal, *number, tried)?;
        }
        Ok(())
    }

    // Adds what each clause says to the goal, if it is a call. What is there of the goal is so.
    fn add_goal(
        &mut self,
        alloc: Global,
        program: &Program,
        goals: &Goals,
        store: &Store,
        goal: GoalName,
    ) -> Result<(), AllocError>
        requires { HaveOnly self.old goal (ClauseSays program.now goals.now.held store.now.held goal) }
        ensures { OnOk result (HaveBesides self.old goal (ClauseSays program.now goals.now.held store.now.held goal) self.new) }
    {
        let Some(found) = goals.get(goal) else {
            return Ok(());
        };
        if let GoalView::Call(name, arguments) = found.view() {
            return self.add_call(alloc, program, store, goal, name, arguments);
        }
        Ok(())
    }

    // What each clause says to each of these goals that is a call: what `try_clause` costs for each clause for a call, and two
    // look-ups.
    pub fn of(
        alloc: Global,
        program: &Program,
        goals: &Goals,
        store: &Store,
        names: &[GoalName],
    ) -> Result<Outcomes, AllocError>
        ensures { IfOk result (TellsOutcomes program.now goals.now.held store.now.held names.now) }
    {
        let mut outcomes = Outcomes::new(alloc);
        for name in names {
            outcomes.add_goal(alloc, program, goals, store, *name)?;
        }
        Ok(outcomes)
    }
}
