// Carrying out chronicles.
ghost use Rattle.std.specs.Prelude.{◌≡◌, ◌⊎◌, ◌+◌, ◌<◌, ◌≤◌, ℕ, length, map, Ok, Err, IfOk, IfErr, IfSome, IfNone, OnOk};
ghost use Rattle.std.specs.FinMap as finite;
ghost use Rattle.ghc_term.specs.Answered.{Answered};
ghost use Rattle.ghc_flat.specs.Flat.{IsQuery};
ghost use Rattle.ghc_records.specs.History.{IsHistory};
ghost use Rattle.ghc_records.specs.Chronicle.{entry_limit, spy_limit};
ghost use Rattle.ghc_core.specs.Counting.{after_firings, firings_of_entries};
ghost use Rattle.ghc_core.specs.Resume.{CarriesOutEach, StopsBehind, ArePredicatesOf, LacksBehind, Resumes};
ghost use Rattle.ghc_records.specs.inner.WrittenEntryCode.{said_by};

use crate::changes::ask::is_defined;
use crate::core_state::Core;
use crate::saved::taken_again::Outcome;
use ghc_flat::Program;
use ghc_reader::Query;
use ghc_records::{Chronicle, Predicate, WrittenEntry};
use ghc_term::Fault;
use std::alloc::Global;

// How many of the predicates stand in front of the first one of which the program has no clause, if there is one: two look-ups for
// each.
fn first_unknown(program: &Program, spies: &[Predicate]) -> Option<usize>
    ensures some { IfSome result (LacksBehind program.now spies.now) }
    ensures few { IfSome result (λ n. n < length spies.now) }
    ensures none { IfNone result (ArePredicatesOf program.now spies.now) }
{
    for index in 0..spies.len() {
        let spy = &spies[index];
        if !is_defined(program, &spy.name, spy.arity as usize) {
            return Some(index);
        }
    }
    None
}

impl Core {
    // Carries out the entries, one after another. `History` tells the line of the first one that is refused, where the first entry
    // stands on this line. Else it fails only where memory is refused.
    fn carry_out_each(
        &mut self,
        alloc: Global,
        entries: &[WrittenEntry],
        line: u32,
    ) -> Result<(), Fault>
        requires lines { line + length entries.now < 4294967296 }
        ensures carried { OnOk result (CarriesOutEach self.old.world (map said_by entries.now) self.new.world) }
        ensures refused { IfErr result (λ f. (f ≡ Fault.Memory) ⊎ ((n : ℕ) × (f ≡ Fault.History (line + n)) × StopsBehind self.old.world (map said_by entries.now) n)) }
        ensures notes { self.old.notes ≡ finite.empty → OnOk result (self.new.notes ≡ finite.empty) }
        ensures meter { OnOk result (self.new.meter ≡ after_firings (firings_of_entries (map said_by entries.now)) self.old.meter) }
    {
        let count = entries.len() as u32;
        for index in 0..count {
            match self.carry_out_entry(alloc, &entries[index as usize]) {
                Ok(Outcome::CarriedOut) => {}
                Ok(Outcome::Refused) => return Err(Fault::History { line: line + index }),
                Err(_) => return Err(Fault::Memory),
            }
        }
        Ok(())
    }

    /// The core of a query on which a chronicle is carried out: its opening is loaded, as `load` does; then its entries are carried
    /// out, one after another, as the commands and commits did that they tell, each step under the next number; no goal is noted.
    /// `History` tells the line of the first step of the opening that is not possible; else of the first entry that no event
    /// enters; else of the first spied predicate without a clause. Else it fails only where memory is refused. The spies stay with
    /// the chronicle. It costs what loading the opening and carrying out the entries cost, and two look-ups for each of the spies.
    pub fn resume(
        alloc: Global,
        program: Program,
        query: Query,
        chronicle: &Chronicle,
    ) -> Result<Core, Fault>
        requires query { IsQuery program query.goals }
        requires opening { IsHistory chronicle.now.opening }
        requires entries { length chronicle.now.entries ≤ entry_limit }
        requires spies { length chronicle.now.spies ≤ spy_limit }
        ensures answer { Answered (λ core. Resumes program query.goals query.variables chronicle.now ⊥ (Ok core.world))
            (λ fault. Resumes program query.goals query.variables chronicle.now ⊥ (Err fault)) result }
        ensures notes { IfOk result (λ core. core.notes ≡ finite.empty) }

        // Each step of the opening fires once, each entry as often as it says, and nothing is tried.
        ensures meter { IfOk result (λ core. (core.meter.firings ≡ length chronicle.now.opening.steps + firings_of_entries chronicle.now.entries) × (core.meter.tries ≡ 0)) }
    {
        let opening = chronicle.opening();
        let entries = chronicle.entries();
        let first = opening.steps().len() as u32 + 4;
        let mut core = match Core::load(alloc, program, query, opening) {
            Ok(core) => core,
            Err(fault) => return Err(fault),
        };
        match core.carry_out_each(alloc, entries, first) {
            Ok(()) => {}
            Err(fault) => return Err(fault),
        }
        match first_unknown(&*core.program, chronicle.spies()) {
            Some(index) => Err(Fault::History {
                line: first + entries.len() as u32 + 1 + index as u32,
            }),
            None => Ok(core),
        }
    }
}
