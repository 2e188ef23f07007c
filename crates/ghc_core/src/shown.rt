// What a core shows of itself.
ghost use Rattle.std.specs.Prelude.{◌≡◌};

use crate::core_state::Core;
use ghc_fire::{Goals, Meter};
use ghc_flat::Program;
use ghc_hooks::Tries;
use ghc_reader::Query;
use ghc_records::{Journal, Records, Shelf};
use ghc_term::Store;

impl Core {
    ghost use Rattle.ghc_records.specs.Laws.{IsWellMade};
    ghost use Rattle.ghc_depend.specs.Kept.{Keeps};
    ghost use Rattle.ghc_core.specs.World.{IsReplay};
    ghost use Rattle.ghc_records.specs.Journal.{history};
    ghost use Rattle.ghc_core.specs.Reached.{AreNamesOf};
    ghost use Rattle.ghc_core.specs.Legal.{Leaves};
    ghost use Rattle.ghc_core.specs.Laws.{IsOrderly, NoStepIsFree};
    ghost use Rattle.ghc_core.specs.Core.{IsStanding, AreExactIn};

    /// In each core, goals and store are the replay of the kept steps; the store is acyclic, and each variable of goals and
    /// store is the query's or made by a kept step, and none is of the number that no step has; each variable of the query has
    /// a name, and no two have one name, but for `_`; each noted outcome is the one from scratch, and the goals without one, but
    /// for stream goals, are untried; the journal tells what is kept and what is on the shelf,
    /// and it is a legal history that leaves this world. This costs nothing.
    pub fn stands(&self)
        ensures standing { IsStanding self.now.world }
        ensures replay { IsReplay self.now.world self.now.world.kept self.now.world.state }
        ensures well_made { IsWellMade self.now.world.opening.query self.now.world.kept self.now.world.state }
        ensures named { AreNamesOf self.now.world.opening.query self.now.world.opening.names }
        ensures orderly { IsOrderly self.now.world }
        ensures no_step { NoStepIsFree self.now.world }
        ensures exact { AreExactIn self.now.world self.now.notes self.now.untried }
        ensures legal { Leaves (history self.now.world.opening self.now.world.journal) self.now.world }
        ensures keeps { Keeps self.now.world.opening self.now.world.journal self.now.world.kept self.now.world.shelf }
    {
        let _program = &*self.program;
    }

    /// The program.
    pub fn program(&self) -> &Program
        ensures { result.now ≡ self.now.world.opening.program }
    {
        &*self.program
    }

    /// The query, with the names of its variables.
    pub fn query(&self) -> &Query
        ensures goals { result.now.goals ≡ self.now.world.opening.query }
        ensures names { result.now.variables ≡ self.now.world.opening.names }
    {
        &self.query
    }

    /// The goals of the state.
    pub fn goals(&self) -> &Goals
        ensures { result.now.held ≡ self.now.world.state.goals }
    {
        self.state.goals()
    }

    /// The store of the state.
    pub fn store(&self) -> &Store
        ensures { result.now.held ≡ self.now.world.state.store }
    {
        self.state.store()
    }

    /// The records of the kept steps, in recorded order.
    pub fn records(&self) -> &Records
        ensures { result.now.held ≡ self.now.world.kept }
    {
        &self.records
    }

    /// The records of the steps that were taken away and not redone.
    pub fn shelf(&self) -> &Shelf
        ensures { result.now.held ≡ self.now.world.shelf }
    {
        &self.shelf
    }

    /// The number that the next step gets.
    pub fn next(&self) -> u32
        ensures { result ≡ self.now.world.next }
    {
        self.next
    }

    /// The journal.
    pub fn journal(&self) -> &Journal
        ensures { result.now.held ≡ self.now.world.journal }
    {
        &self.journal
    }

    /// The noted outcomes of goals, and the untried goals.
    pub fn tries(&self) -> &Tries
        ensures notes { result.now.notes ≡ self.now.notes }
        ensures untried { result.now.untried ≡ self.now.untried }
    {
        &self.tries
    }

    /// How many firings and tries the core counted.
    pub fn meter(&self) -> &Meter
        ensures { result.now ≡ self.now.meter }
    {
        &self.meter
    }
}
