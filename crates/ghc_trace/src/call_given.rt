// What a call was given by steps that are not of its part.
ghost use Rattle.std.specs.Prelude.{◌≡◌, ◌↔◌, ℕ, List, IfOk, IsTrue};
ghost use Rattle.ghc_term.specs.declared.var_name.VarName.{VarName as var_name};
ghost use Rattle.ghc_term.specs.Lists.{In};
ghost use Rattle.ghc_term.specs.Store.{value_at};
ghost use Rattle.ghc_records.specs.Record.{Record as record_spec};
ghost use Rattle.ghc_records.specs.UseIndex.{StepBinds};
ghost use Rattle.ghc_depend.specs.Depend.{IsKeptAs};
ghost use Rattle.ghc_trace.specs.Holding.{GoalReaches};
ghost use Rattle.ghc_trace.specs.inner.PartsCode.{AreKeptAs, ArePickedNumbers, BindsAlone, IsGivenIn, IsMadeInside, NamesInside, OneFollows};

use crate::given::binders_of;
use crate::holding::reached_by_goal;
use crate::slices::slice;
use ghc_depend::place_of_maker;
use ghc_records::{Record, Records};
use ghc_term::{Bindings, Goal, Store, VarName};
use std::alloc::{AllocError, Global};
use std::collections::BTreeSet;

// Whether the variable is bound in the store, by a step outside of the part: three look-ups.
fn is_given(records: &Records, store: &Store, part: &BTreeSet<u32>, x: VarName) -> bool
    ensures { IsTrue result ↔ IsGivenIn records.now.held part.now.keys (value_at store.now.held) x }
{
    if store.get(x).is_none() {
        return false;
    }
    let Some(binder) = records.binder_of(x) else {
        return false;
    };
    !part.contains(&binder)
}

// Those of the variables that are bound in the store, by a step outside of the part.
fn given_among(
    alloc: Global,
    records: &Records,
    store: &Store,
    part: &BTreeSet<u32>,
    xs: &[VarName],
) -> Result<Vec<VarName>, AllocError>
    ensures { IfOk result (λ given. (x : var_name) → In x given.items ↔ (In x xs.now × IsGivenIn records.now.held part.now.keys (value_at store.now.held) x)) }
{
    let mut given = Vec::new(alloc);
    for x in xs {
        if is_given(records, store, part, *x) {
            given.push(*x)?;
        }
    }
    Ok(given)
}

/// The variables that the goal reaches in the store and that a step outside of the part bound. It goes once through what the goal
/// reaches, with two look-ups for each variable.
pub(crate) fn given_variables(
    alloc: Global,
    records: &Records,
    store: &Store,
    part: &BTreeSet<u32>,
    goal: &Goal,
) -> Result<Vec<VarName>, AllocError>
    ensures { IfOk result (λ given. (x : var_name) → In x given.items ↔ (GoalReaches (value_at store.now.held) goal.now x × IsGivenIn records.now.held part.now.keys (value_at store.now.held) x)) }
{
    let reached = reached_by_goal(alloc, store, goal)?;
    given_among(alloc, records, store, part, reached.members())
}

// The bindings that these variables have in the store.
fn bindings_of(alloc: Global, store: &Store, xs: &[VarName]) -> Result<Bindings, AllocError>
    ensures { IfOk result (λ binds. BindsAlone xs.now (value_at store.now.held) (value_at binds)) }
{
    let mut binds = Bindings::new(alloc);
    for x in xs {
        if let Some(value) = store.get(*x) {
            binds.insert(*x, value.share()?)?;
        }
    }
    Ok(binds)
}

/// A store of the bindings that these variables have in the store, and of no other: two look-ups for each. The terms are shared.
pub(crate) fn store_of(alloc: Global, store: &Store, xs: &[VarName]) -> Result<Store, AllocError>
    ensures { IfOk result (λ part. BindsAlone xs.now (value_at store.now.held) (value_at part.held)) }
{
    store.acyclic();
    let binds = bindings_of(alloc, store, xs)?;
    let mut part = Store::new(alloc);
    part.reserve(binds.len(), 0)?;
    part.put(binds);
    Ok(part)
}

// Whether one of these numbers is one of the part.
fn has_one_of(part: &BTreeSet<u32>, numbers: &[u32]) -> bool
    ensures { IsTrue result ↔ ((n : ℕ) × In n numbers.now × In n part.now.keys) }
{
    for number in numbers {
        if part.contains(number) {
            return true;
        }
    }
    false
}

/// Whether the binding of one of these variables follows from a step of the part. It costs what `slice` costs for the steps that bound
/// them, and a look-up for each step of that slice.
pub(crate) fn follows_part(
    alloc: Global,
    records: &Records,
    part: &BTreeSet<u32>,
    xs: &[VarName],
) -> Result<bool, AllocError>
    requires { (x : var_name) (n : ℕ) → In x xs.now → StepBinds records.now.held n x → ¬ In n part.now.keys }
    ensures { IfOk result (λ yes. IsTrue yes ↔ OneFollows records.now.held part.now.keys xs.now) }
{
    let _count = records.len();
    let binders = binders_of(alloc, records, xs)?;
    let behind = slice(alloc, records, binders.as_slice())?;
    Ok(has_one_of(part, behind.as_slice()))
}

// Whether another step than the one of this number made the variable, which is of the part: two look-ups.
fn is_made_inside(records: &Records, part: &BTreeSet<u32>, number: u32, x: VarName) -> bool
    ensures { IsTrue result ↔ IsMadeInside records.now.held part.now.keys number x }
{
    let _count = records.len();
    if x.step == number {
        return false;
    }
    if !part.contains(&x.step) {
        return false;
    }
    place_of_maker(records, x).is_some()
}

/// Whether the step names a variable that a step of the part made: two look-ups for each variable that it names.
pub(crate) fn reaches_in(records: &Records, part: &BTreeSet<u32>, step: &Record) -> bool
    ensures { IsTrue result ↔ NamesInside records.now.held part.now.keys step.now }
{
    for x in step.act().variables() {
        if is_made_inside(records, part, step.number(), *x) {
            return true;
        }
    }
    false
}

/// Of the kept steps of these numbers those that name a variable that a step of the part made. It costs a look-up for each, and two
/// for each variable that one names.
pub(crate) fn asks_into(
    alloc: Global,
    records: &Records,
    steps: &[u32],
    part: &BTreeSet<u32>,
) -> Result<Vec<u32>, AllocError>
    requires { (n : ℕ) → In n steps.now → (r : record_spec) × IsKeptAs records.now.held n r }
    ensures { IfOk result (λ asks. (rs : List record_spec) → AreKeptAs records.now.held rs steps.now → ArePickedNumbers (NamesInside records.now.held part.now.keys) rs asks.items) }
{
    let _count = records.len();
    let mut asks = Vec::new(alloc);
    for number in steps {
        let step = records.get(*number).unwrap();
        if reaches_in(records, part, step) {
            asks.push(*number)?;
        }
    }
    Ok(asks)
}
