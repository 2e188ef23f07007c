// The variables of a core: those of its query, and those that its kept steps made.
ghost use Rattle.std.specs.Prelude.{◌≢◌, ◌≤◌, ◌↔◌, IsTrue};
ghost use Rattle.ghc_term.specs.Lists.{In};
ghost use Rattle.ghc_term.specs.Variables.{variables_of_goals};
ghost use Rattle.ghc_records.specs.Record.{Record};
ghost use Rattle.ghc_records.specs.Replay.{AreKnownIn, IsVariableOf, MakesVariable};

use crate::core_state::Core;
use ghc_reader::Query;
use ghc_records::{Record as Step, Records};
use ghc_term::VarName;

// Whether the place is one from 1 to the last.
fn is_place(place: u32, last: usize) -> bool
    ensures { IsTrue result ↔ ((1 ≤ place) × (place ≤ last)) }
{
    0 < place && place as usize <= last
}

// Whether the variable is one of the query.
fn is_of_query(query: &Query, x: VarName) -> bool
    ensures { IsTrue result ↔ In x (variables_of_goals query.now.goals) }
{
    let _goals = query.goals();
    x.step == 0 && is_place(x.place, query.variables().len())
}

// Whether one of the steps made the variable: one look-up.
fn is_of_step(records: &Records, x: VarName) -> bool
    ensures { IsTrue result ↔ ((r : Record) × In r records.now.held × MakesVariable r x) }
{
    let _count = records.len();
    match records.get(x.step) {
        Some(step) => is_place(x.place, step.effect().fresh() as usize),
        None => false,
    }
}

// Whether the variable is one of the query or was made by one of the steps: one look-up.
fn is_of(query: &Query, records: &Records, x: VarName) -> bool
    ensures { IsTrue result ↔ IsVariableOf query.now.goals records.now.held x }
{
    is_of_query(query, x) || is_of_step(records, x)
}

// Whether the variable is of the step of this number, or is one of the query, or was made by one of the steps.
pub(crate) fn is_own_or_of(query: &Query, records: &Records, number: u32, x: VarName) -> bool
    ensures { IsTrue result ↔ (x.step ≢ number → IsVariableOf query.now.goals records.now.held x) }
{
    if x.step == number {
        return true;
    }
    is_of(query, records, x)
}

/// Whether each variable that the step names is one of the query or was made by one of the steps: one look-up for each.
pub(crate) fn names_known(query: &Query, records: &Records, step: &Step) -> bool
    ensures { IsTrue result ↔ AreKnownIn query.now.goals records.now.held step.now }
{
    let number = step.number();
    for x in step.act().variables() {
        if !is_own_or_of(query, records, number, *x) {
            return false;
        }
    }
    true
}

/// Whether the variable is one of the query or was made by a kept step: one look-up.
pub fn is_variable_of(core: &Core, x: VarName) -> bool
    ensures { IsTrue result ↔ IsVariableOf core.now.world.opening.query core.now.world.kept x }
{
    is_of(core.query(), core.records(), x)
}
