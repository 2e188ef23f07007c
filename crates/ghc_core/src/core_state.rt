// The core of a debugger: a program and a query, the state of the run, and its record.
ghost use Rattle.std.specs.Prelude.{◌≡◌, ◌≤◌, [], IfOk};

use crate::changes::carrying::tries_of;
use crate::stream_goals::StreamGoals;
use ghc_fire::Meter;
use ghc_flat::Program;
use ghc_hooks::Tries;
use ghc_reader::Query;
use ghc_records::{History, Journal, Records, Shelf, State};
use std::alloc::{AllocError, Global};
use std::marker::Model;
use std::sync::Arc;

/// A core: in each state of its run, goals and store are the replay of the steps that it keeps, each noted outcome of a goal is
/// the one from scratch, and each goal without one, but for stream goals, is marked untried.
pub struct Core {
    pub(crate) program: Arc<Program>,
    pub(crate) query: Query,
    pub(crate) state: State,
    pub(crate) records: Records,
    pub(crate) shelf: Shelf,
    pub(crate) next: u32,
    pub(crate) journal: Journal,
    pub(crate) loaded: History,
    pub(crate) meter: Meter,
    pub(crate) tries: Tries,
    pub(crate) streams: StreamGoals,
}

impl Drop for Core {
    fn drop(self) {
        let Core {
            program: _program,
            query: _query,
            state: _state,
            records: _records,
            shelf: _shelf,
            next: _next,
            journal: _journal,
            loaded: _loaded,
            meter: _meter,
            tries: _tries,
            streams: _streams,
        } = self;
    }
}

impl Model for Core {
    ghost use Rattle.ghc_records.specs.History.{loaded_opening};
    ghost use Rattle.ghc_core.specs.Core.{Core, IsConsistent};
    ghost use Rattle.ghc_core.specs.inner.CoreCode.{core_code};

    ghost Value = { Core };

    ghost coded = { core_code };

    ghost view = { λ c. record {
      world = record { opening = loaded_opening c.program.value c.query.goals c.query.variables c.loaded; state = c.state.held; kept = c.records.held; shelf = c.shelf.held; next = c.next; journal = c.journal.held };
      notes = c.tries.notes;
      untried = c.tries.untried;
      meter = c.meter;
      room = record { state = c.state.room; kept = c.records.room; shelf = c.shelf.room; journal = c.journal.room; tries = c.tries.room };
    } };

    ghost invariant = { λ c. IsConsistent (record { opening = loaded_opening c.program.value c.query.goals c.query.variables c.loaded; state = c.state.held; kept = c.records.held; shelf = c.shelf.held; next = c.next; journal = c.journal.held }) c.tries.notes c.tries.untried c.streams };
}

impl Core {
    ghost use Rattle.ghc_flat.specs.Flat.{IsQuery};
    ghost use Rattle.ghc_records.specs.Journal.{fresh_opening};
    ghost use Rattle.ghc_records.specs.History.{loaded_opening};
    ghost use Rattle.std.specs.FinMap as finite;
    ghost use Rattle.ghc_core.specs.World.{Opens};

    /// The core of a query before any step: no goal is noted, and each is untried but for stream goals. It costs a look-up or two
    /// for each goal of the query.
    pub fn new(alloc: Global, program: Program, query: Query) -> Result<Core, AllocError>
        requires { IsQuery program query.goals }
        ensures opens { IfOk result (λ core. Opens (fresh_opening program query.goals query.variables) core.world) }
        ensures notes { IfOk result (λ core. core.notes ≡ finite.empty) }
        ensures meter { IfOk result (λ core. (core.meter.firings ≡ 0) × (core.meter.tries ≡ 0)) }
    {
        Core::numbered_from(alloc, program, query, 1)
    }

    // The same, where the first step gets the number given.
    pub(crate) fn numbered_from(
        alloc: Global,
        program: Program,
        query: Query,
        next: u32,
    ) -> Result<Core, AllocError>
        requires query { IsQuery program query.goals }
        requires first { 1 ≤ next }
        ensures opens { IfOk result (λ core. Opens (loaded_opening program query.goals query.variables (record { steps = []; next = next })) core.world) }
        ensures notes { IfOk result (λ core. core.notes ≡ finite.empty) }
        ensures meter { IfOk result (λ core. (core.meter.firings ≡ 0) × (core.meter.tries ≡ 0)) }
    {
        // Called for its clause that each clause of a program is accepted, which the proof cites.
        let _clauses = program.clauses();
        let goals = query.goals();
        let state = State::of_query(alloc, goals)?;
        let streams = StreamGoals::of_query(alloc, goals, goals.len() as u32)?;
        let tries = tries_of(alloc, goals)?;
        let program = Arc::new(alloc, program)?;
        Ok(Core {
            program,
            query,
            state,
            records: Records::new(alloc),
            shelf: Shelf::new(alloc),
            next,
            journal: Journal::new(alloc),
            loaded: History::empty(next),
            meter: Meter::new(),
            tries,
            streams,
        })
    }

    /// Makes the index of the record whole, if memory allows, so that `undo`, `rollback` and `arrange`, and questions about causes, look
    /// users and binders up in it, where they search for them else. It costs some look-ups for each variable that a step read, bound or
    /// names which was taken since.
    pub fn index_records(&mut self)
        ensures { self.new ≡ self.old }
    {
        let _ = self.records.index_all();
    }
}
