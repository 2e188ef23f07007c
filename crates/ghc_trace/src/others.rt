// The other clauses by which a kept step could have been.
ghost use Rattle.std.specs.Prelude.{◌≡◌, ◌↔◌, ℕ, List, Some, IfOk, IsTrue};
ghost use Rattle.ghc_term.specs.Goal.{call};
ghost use Rattle.ghc_term.specs.Lists.{In};
ghost use Rattle.ghc_term.specs.Store.{value_at};
ghost use Rattle.ghc_flat.specs.Clause.{Clause as clause_spec, IsClause, IsFor};
ghost use Rattle.ghc_fire.specs.declared.act.Act.TheVariants.{ByClause as by_clause};
ghost use Rattle.ghc_records.specs.Record.{Record as record_spec};
ghost use Rattle.ghc_records.specs.inner.Slots.{StandsIn};
ghost use Rattle.ghc_trace.specs.OtherClauses.{CouldBe, AreOtherClauses};
ghost use Rattle.ghc_trace.specs.inner.OtherClausesCode.{IsReadBy, OneRestsOn, AcceptsWithout};

use crate::cause_places::{add_binders, add_causes};
use ghc_core::Core;
use ghc_fire::Act;
use ghc_flat::Clause;
use ghc_match::{Met, Says, lay_until_no};
use ghc_records::{Record, Records};
use ghc_term::{GoalView, Name, Store, Term, VarName, Variables};
use std::alloc::{AllocError, Global};
use std::collections::BTreeSet;

// Whether the step is by the clause of this number.
fn is_by(step: &Record, number: u32) -> bool
    ensures { IsTrue result ↔ (step.now.act ≡ by_clause number) }
{
    match step.act() {
        Act::ByClause(own) => *own == number,
        _ => false,
    }
}

// What the clause reads of a call with these arguments, if it accepts it: one try.
fn read_by(
    alloc: Global,
    clause: &Clause,
    arguments: &[Term],
    store: &Store,
) -> Result<Option<Variables>, AllocError>
    ensures { IfOk result (IsReadBy clause.now arguments.now (value_at store.now.held)) }
{
    let _head_variables = clause.head_variables();
    let mut met = Met::new(alloc);
    let says = {
        let mut pending = Vec::new(alloc);
        lay_until_no(alloc, clause, arguments, store, &mut met, &mut pending)?
    };
    match says {
        Says::Yes => Ok(Some(met.looked)),
        Says::No => Ok(None),
        Says::Waits => Ok(None),
    }
}

// Whether the binding of one of these variables rests on the step at this place. It goes up from the steps that bound them, the last
// one first, as far as that place. It costs a look-up for each goal, read and name of a later step on which one of the bindings rests.
fn one_rests_on(
    alloc: Global,
    records: &Records,
    xs: &[VarName],
    place: usize,
) -> Result<bool, AllocError>
    ensures { IfOk result (λ rests. (r : record_spec) → StandsIn records.now.slots place r → IsTrue rests ↔ OneRestsOn records.now.held r xs.now) }
{
    let _count = records.len();
    let mut behind = BTreeSet::new(alloc);
    add_binders(&mut behind, records, xs, records.places())?;
    while let Some(last) = behind.pop_last() {
        if last <= place {
            return Ok(last == place);
        }
        let step = records.at(last).unwrap();
        add_causes(&mut behind, records, step, last)?;
    }
    Ok(false)
}

// Whether the clause accepts the call in the state without the step and its consequences: just where it does now, and nothing that
// it reads rests on the step.
fn accepts_without(
    alloc: Global,
    core: &Core,
    step: &Record,
    clause: &Clause,
    arguments: &[Term],
) -> Result<bool, AllocError>
    requires { In step.now core.now.world.kept }
    ensures { IfOk result (λ accepts. IsTrue accepts ↔ AcceptsWithout core.now.world step.now clause.now arguments.now) }
{
    core.stands();
    let Some(read) = read_by(alloc, clause, arguments, core.store())? else {
        return Ok(false);
    };
    let records = core.records();
    let _count = records.len();
    let place = records.place_of(step.number()).unwrap();
    let rests = one_rests_on(alloc, records, read.members(), place)?;
    Ok(!rests)
}

// Whether the step, which consumed a call with these arguments, could have been by the clause of this number, which is for that call.
fn could_be(
    alloc: Global,
    core: &Core,
    step: &Record,
    arguments: &[Term],
    number: u32,
) -> Result<bool, AllocError>
    requires kept { In step.now core.now.world.kept }
    requires clause { (f : List ℕ) × (c : clause_spec) × (step.now.consumed ≡ Some (call f arguments.now)) × IsClause core.now.world.opening.program number c × IsFor f arguments.now c }
    ensures { IfOk result (λ could. IsTrue could ↔ CouldBe core.now.world step.now number) }
{
    if is_by(step, number) {
        return Ok(false);
    }
    let clause = core.program().clause(number).unwrap();
    accepts_without(alloc, core, step, clause, arguments)
}

// The other clauses by which the step could have been, which consumed this call.
fn others_for(
    alloc: Global,
    core: &Core,
    step: &Record,
    name: &Name,
    arguments: &[Term],
) -> Result<Vec<u32>, AllocError>
    requires kept { In step.now core.now.world.kept }
    requires call { step.now.consumed ≡ Some (call name.now arguments.now) }
    ensures { IfOk result (λ told. AreOtherClauses core.now.world step.now told.items) }
{
    let mut others = Vec::new(alloc);
    for number in core.program().clauses_for(name, arguments.len()) {
        if could_be(alloc, core, step, arguments, *number)? {
            others.push(*number)?;
        }
    }
    Ok(others)
}

/// The numbers of the other clauses by which the kept step could have been, rising. These are the clauses that say yes to the goal
/// that it consumed, in the state without this step and its consequences; none where it consumed no call. It costs a try of each other
/// clause of the predicate. Where one says yes now, it costs a look-up for each variable that the clause reads, and for each goal, read
/// and name of the later steps on which those bindings rest. It fails only where memory is refused.
pub fn other_clauses(alloc: Global, core: &Core, step: &Record) -> Result<Vec<u32>, AllocError>
    requires { In step.now core.now.world.kept }
    ensures { IfOk result (λ told. AreOtherClauses core.now.world step.now told.items) }
{
    let Some(goal) = step.consumed() else {
        return Ok(Vec::new(alloc));
    };
    match goal.view() {
        GoalView::Call(name, arguments) => others_for(alloc, core, step, name, arguments),
        GoalView::Unify(_, _) => Ok(Vec::new(alloc)),
        GoalView::Assign(_, _) => Ok(Vec::new(alloc)),
        GoalView::Stream(_, _) => Ok(Vec::new(alloc)),
    }
}
