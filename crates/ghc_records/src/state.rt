// States: the goals and the store.
ghost use Rattle.std.specs.Prelude.{◌≡◌, ◌+◌, ◌<◌, ◌≤◌, length, IfOk, OnOk, OnErr};
ghost use Rattle.ghc_flat.specs.Flat.{most_goals};
ghost use Rattle.ghc_records.specs.inner.Handles.{goals_of};

use crate::addition::{Addition, copies_of};
use crate::binding::{bind_all, unbind_all};
use crate::entry::Entry;
use crate::handles::{Handles, handles_of};
use crate::making::{consume_goal, make_goals, restore_consumed, unmake_goals};
use crate::record::Record;
use crate::removal::Removal;
use ghc_fire::{Goals, Made};
use ghc_term::{Bindings, Goal, Store};
use std::alloc::{AllocError, Global};
use std::marker::Model;

/// A state of a run: its goals by name, and what variables are bound to.
pub struct State {
    goals: Goals,
    store: Store,
}

impl Drop for State {
    fn drop(self) {
        let State {
            goals: _goals,
            store: _store,
        } = self;
    }
}

impl Model for State {
    ghost use Rattle.ghc_records.specs.State.{StateTables};
    ghost use Rattle.ghc_records.specs.inner.RecordCode.{tables_code};

    ghost Value = { StateTables };

    ghost coded = { tables_code };

    ghost view = { λ s. record { held = record { goals = s.goals.held; store = s.store.held }; room = record { goals = s.goals.room; bindings = s.store.room } } };
}

// The goals once more.
fn share_goals(alloc: Global, goals: &[Goal]) -> Result<Vec<Goal>, AllocError>
    ensures { IfOk result (λ shared. shared.items ≡ goals.now) }
{
    let mut shared = Vec::new(alloc);
    shared.reserve_exact(goals.len())?;
    for goal in goals {
        shared.push(goal.share()?)?;
    }
    Ok(shared)
}

// Handles of the goals of a query, of no more than a query may have.
#[inline(always)]
fn handles_for(alloc: Global, query: &[Goal]) -> Result<Handles, AllocError>
    requires { length query.now ≤ most_goals }
    ensures { IfOk result (λ handles. goals_of handles ≡ query.now) }
{
    let shared = Made::of(alloc, share_goals(alloc, query)?, 0)?;
    handles_of(alloc, &shared, query.len() as u32)
}

impl State {
    ghost use Rattle.ghc_term.specs.Bindings.{IsAcyclic};
    ghost use Rattle.ghc_term.specs.Store.{value_at};
    ghost use Rattle.ghc_records.specs.Record.{after};
    ghost use Rattle.ghc_records.specs.Replay.{query_state};
    ghost use Rattle.ghc_records.specs.Journal.{took, step_of};
    ghost use Rattle.ghc_records.specs.inner.EntryCode.{entry_of};
    ghost use Rattle.ghc_records.specs.inner.Handles.{goals_of};
    ghost use Rattle.ghc_records.specs.State.{HasRoomToTake, IsTakenBack};

    /// The state of a query before any step, of no more goals than a query may have. It costs a look-up for each goal, and
    /// shares the goals.
    pub fn of_query(alloc: Global, query: &[Goal]) -> Result<State, AllocError>
        requires { length query.now ≤ most_goals }
        ensures { IfOk result (λ s. s.held ≡ query_state query.now) }
    {
        let mut goals = Goals::new(alloc);
        goals.reserve(query.len(), 0)?;
        let handles = handles_for(alloc, query)?;
        make_goals(&mut goals, 0, handles, query.len() as u32);
        Ok(State {
            goals,
            store: Store::new(alloc),
        })
    }

    /// The goals.
    pub fn goals(&self) -> &Goals
        ensures { result.now.held ≡ self.now.held.goals }
    {
        &self.goals
    }

    /// The store.
    pub fn store(&self) -> &Store
        ensures { result.now.held ≡ self.now.held.store }
    {
        &self.store
    }

    /// Makes room for as many more goals that steps up to this one made. The state stays, and so does the room where memory is refused.
    pub fn reserve_goals(&mut self, count: usize, newest: u32) -> Result<(), AllocError>
        ensures held { self.new.held ≡ self.old.held }
        ensures room { OnOk result (count ≤ self.new.room.goals) }
    {
        self.goals.reserve(count, newest)
    }

    /// Makes room to take this step. The state stays, and so does the room where memory is refused.
    #[inline(always)]
    pub fn reserve_for(&mut self, step: &Record) -> Result<(), AllocError>
        ensures held { self.new.held ≡ self.old.held }
        ensures room { OnOk result (HasRoomToTake self.new.room step.now) }
    {
        let effect = step.effect();
        self.goals.reserve(effect.makes().len(), step.number())?;
        self.store.reserve(effect.binds().len(), step.number())
    }

    // Takes a step, of which these are handles of the goals that it makes and of the terms to which it binds variables.
    #[inline(always)]
    fn apply(&mut self, step: &Record, makes: Handles, binds: Bindings)
        requires room { HasRoomToTake self.old.room step.now }
        requires acyclic { IsAcyclic (value_at (after self.old.held step.now).store) }
        requires makes { goals_of makes ≡ step.now.effect.makes }
        requires binds { binds ≡ step.now.effect.binds }
        ensures { self.new.held ≡ after self.old.held step.now }
    {
        consume_goal(&mut self.goals, step.goal());
        make_goals(&mut self.goals, step.number(), makes, step.effect().made());
        bind_all(&mut self.store, binds);
    }

    /// Takes a step, where there is room for it and the store stays acyclic: the goal that it consumes is gone, the goals that
    /// it makes are there, and its bindings are made. It cannot fail, gives the record and its entry, and costs a look-up for
    /// each goal and each binding.
    #[inline(always)]
    pub fn take(&mut self, addition: Addition) -> (Record, Entry)
        requires room { HasRoomToTake self.old.room addition }
        requires acyclic { IsAcyclic (value_at (after self.old.held addition).store) }
        ensures record { result.0 ≡ addition }
        ensures entry { entry_of result.1 ≡ took (step_of addition) }
        ensures state { self.new.held ≡ after self.old.held addition }
    {
        let (step, entry, makes, binds) = addition.into_parts();
        self.apply(&step, makes, binds);
        (step, entry)
    }

    /// Takes a step as `take` does, with handles of its own of the goals that the step makes and of the terms to which it binds
    /// variables: one step for each. Where memory for them is refused, or a count of handles is full, the state stays.
    #[inline(always)]
    pub fn take_step(&mut self, alloc: Global, step: &Record) -> Result<(), AllocError>
        requires room { HasRoomToTake self.old.room step.now }
        requires acyclic { IsAcyclic (value_at (after self.old.held step.now).store) }
        ensures state { OnOk result (self.new.held ≡ after self.old.held step.now) }
        ensures stays { OnErr result (self.new ≡ self.old) }
    {
        let (makes, binds) = copies_of(alloc, step)?;
        self.apply(step, makes, binds);
        Ok(())
    }

    /// Takes a step back, where there is room for a goal: what it bound is unbound, the goals that it made are gone, and the goal
    /// that it consumed is there again. It gives the record, and costs a look-up for each goal and each binding.
    pub fn take_back(&mut self, removal: Removal) -> Record
        requires { 0 < self.old.room.goals }
        ensures record { result ≡ removal }
        ensures state { IsTakenBack removal self.old.held self.new.held }
        ensures room { self.old.room.goals ≤ self.new.room.goals + 1 }
    {
        let (step, consumed, made) = removal.into_parts();
        restore_consumed(&mut self.goals, step.goal(), consumed);
        unmake_goals(&mut self.goals, step.number(), made);
        unbind_all(&mut self.store, step.effect().binds());
        step
    }
}
