// The face of a state, found from scratch.
ghost use Rattle.std.specs.Prelude.{◌≡◌, length, IfOk, IfSome, IfNone, None, Some};
ghost use Rattle.std.specs.FinMap as finite;
ghost use Rattle.std.specs.FinSet as set;
ghost use Rattle.ghc_hooks.specs.declared.face.status.Kind.TheVariants.{Ready, Waiting, Failed, Stream};
ghost use Rattle.ghc_hooks.specs.inner.Parts.{TellsHooks, TellsPool};

mod hooks;
mod outcomes;
mod pools;
mod status;
mod statuses;

use ghc_fire::Goals;
use ghc_flat::Program;
use ghc_match::Tried;
use ghc_term::{GoalName, Store, VarName};
use hooks::Hooks;
use outcomes::Outcomes;
use pools::{Pools, names_of};
pub use status::Status;
use statuses::Statuses;
use std::alloc::{AllocError, Global};
use std::marker::Model;

/// All that one can see of a state: its goals and store, what each clause for a call says to it, how each goal stands, which goals
/// wait for which variables, and the pools of goals.
pub struct Face<'a> {
    goals: &'a Goals,
    store: &'a Store,
    outcomes: Outcomes,
    statuses: Statuses,
    hooks: Hooks,
    pools: Pools,
}

impl<'a> Drop for Face<'a> {
    fn drop(self) {
        let Face {
            goals: _,
            store: _,
            outcomes: _outcomes,
            statuses: _statuses,
            hooks: _hooks,
            pools: _pools,
        } = self;
    }
}

impl<'a> Model for Face<'a> {
    ghost use Rattle.ghc_hooks.specs.Face.{Face};
    ghost use Rattle.ghc_hooks.specs.inner.FaceCode.{face_code};

    ghost Value = { Face };

    ghost coded = { face_code };

    ghost view = { λ f. record { goals = f.goals.now.held; store = f.store.now.held; outcomes = f.outcomes; statuses = f.statuses; hooks = f.hooks; ready = f.pools.ready.held; waiting = f.pools.waiting.held; failed = f.pools.failed.held; streams = f.pools.streams.held } };
}

// The hooks and the pools of these goals by their statuses.
#[inline(always)]
fn told_by(
    alloc: Global,
    statuses: &Statuses,
    names: &[GoalName],
) -> Result<(Hooks, Pools), AllocError>
    ensures hooks { IfOk result (λ told. TellsHooks statuses.now names.now told.0) }
    ensures ready { IfOk result (λ told. TellsPool statuses.now Ready names.now told.1.ready.held) }
    ensures waiting { IfOk result (λ told. TellsPool statuses.now Waiting names.now told.1.waiting.held) }
    ensures failed { IfOk result (λ told. TellsPool statuses.now Failed names.now told.1.failed.held) }
    ensures streams { IfOk result (λ told. TellsPool statuses.now Stream names.now told.1.streams.held) }
{
    let hooks = Hooks::of(alloc, statuses, names)?;
    Ok((hooks, Pools::of(alloc, statuses, names)?))
}

impl<'a> Face<'a> {
    ghost use Rattle.std.specs.Prelude.{option_copied};
    ghost use Rattle.ghc_match.specs.inner.Told.{outcome_of};
    ghost use Rattle.ghc_hooks.specs.Face.{IsFace};

    /// The face of the state, found from scratch: each goal is tried, and each clause for a call once more, and what that
    /// finds takes some look-ups for each goal, each clause and each variable for which a goal waits. Nothing is bound, made or
    /// counted, and it fails only where memory is refused.
    pub fn new(
        alloc: Global,
        program: &Program,
        goals: &'a Goals,
        store: &'a Store,
    ) -> Result<Face<'a>, AllocError>
        ensures { IfOk result (IsFace program.now goals.now.held store.now.held) }
    {
        let listed = names_of(alloc, goals)?;
        Face::of_goals(alloc, program, goals, store, listed.as_slice())
    }

    // The same, where the goals are listed.
    #[inline(always)]
    fn of_goals(
        alloc: Global,
        program: &Program,
        goals: &'a Goals,
        store: &'a Store,
        names: &[GoalName],
    ) -> Result<Face<'a>, AllocError>
        requires { names.now ≡ finite.keys goals.now.held }
        ensures { IfOk result (IsFace program.now goals.now.held store.now.held) }
    {
        let statuses = Statuses::of(alloc, program, goals, store, names)?;
        let outcomes = Outcomes::of(alloc, program, goals, store, names)?;
        let (hooks, pools) = told_by(alloc, &statuses, names)?;
        Ok(Face {
            goals,
            store,
            outcomes,
            statuses,
            hooks,
            pools,
        })
    }

    /// The goals of the state.
    pub fn goals(&self) -> &'a Goals
        ensures { result.now.held ≡ self.now.goals }
    {
        self.goals
    }

    /// The store of the state.
    pub fn store(&self) -> &'a Store
        ensures { result.now.held ≡ self.now.store }
    {
        self.store
    }

    /// What the clause says to the goal, if this is a call and the clause is one for it: one look-up.
    pub fn outcome(&self, goal: GoalName, clause: u32) -> Option<&Tried>
        ensures some { IfSome result (λ t. finite.get self.now.outcomes (goal, clause) ≡ Some (outcome_of t.now)) }
        ensures none { IfNone result (finite.get self.now.outcomes (goal, clause) ≡ None) }
    {
        self.outcomes.get(goal, clause)
    }

    /// How the goal stands, if it is there: one look-up.
    pub fn status(&self, goal: GoalName) -> Option<&Status>
        ensures { option_copied result ≡ finite.get self.now.statuses goal }
    {
        self.statuses.get(goal)
    }

    /// Whether the goal waits for the variable: one look-up.
    pub fn waits_for(&self, goal: GoalName, x: VarName) -> bool
        ensures { result ≡ set.contains self.now.hooks (x, goal) }
    {
        self.hooks.contains(x, goal)
    }

    /// The goals that can be reduced, each once.
    pub fn ready(&self) -> &[GoalName]
        ensures all { set.from_list result.now ≡ self.now.ready }
        ensures once { length result.now ≡ set.len self.now.ready }
    {
        self.pools.ready.members()
    }

    /// The goals that wait, each once.
    pub fn waiting(&self) -> &[GoalName]
        ensures all { set.from_list result.now ≡ self.now.waiting }
        ensures once { length result.now ≡ set.len self.now.waiting }
    {
        self.pools.waiting.members()
    }

    /// The goals that can never be reduced, each once.
    pub fn failed(&self) -> &[GoalName]
        ensures all { set.from_list result.now ≡ self.now.failed }
        ensures once { length result.now ≡ set.len self.now.failed }
    {
        self.pools.failed.members()
    }

    /// The stream goals, each once.
    pub fn streams(&self) -> &[GoalName]
        ensures all { set.from_list result.now ≡ self.now.streams }
        ensures once { length result.now ≡ set.len self.now.streams }
    {
        self.pools.streams.members()
    }
}
