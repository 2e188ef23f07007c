// From which kept steps one step reads and names, by the places of those steps.
ghost use Rattle.std.specs.Prelude.{◌≢◌, IfOk, OnOk, IfSome, IfNone, ◌≡◌};
ghost use Rattle.std.specs.Ordering.{ord_min};
ghost use Rattle.ghc_term.specs.Bindings.{name_cmp};
ghost use Rattle.ghc_records.specs.Uses.{Binds, MakesGoal, MakesVariable};
ghost use Rattle.ghc_depend.specs.inner.Sources.{IsPlaceOfOne, PutsLeast, AreLeastReads, AreLeastNames, AreSources};

use crate::cause::makes_goal;
use ghc_records::{Record, Records};
use ghc_term::{GoalName, VarName};
use std::alloc::{AllocError, Global};
use std::collections::BTreeMap;

/// The place of the kept step that bound the variable, if one did: two look-ups.
pub fn place_of_binder(records: &Records, x: VarName) -> Option<usize>
    ensures { IsPlaceOfOne records.now.slots (λ a. Binds a x) result }
{
    let _count = records.len();
    let binder = records.binder_of(x)?;
    records.place_of(binder)
}

/// The place of the kept step that made the variable, if one did: one look-up.
pub fn place_of_maker(records: &Records, x: VarName) -> Option<usize>
    ensures { IsPlaceOfOne records.now.slots (λ a. MakesVariable a x) result }
{
    let _count = records.len();
    let place = records.place_of(x.step)?;
    let maker = records.at(place).unwrap();
    if x.place == 0 || maker.effect().fresh() < x.place {
        return None;
    }
    Some(place)
}

/// The place of the kept step that made the goal, if one did: one look-up.
pub fn place_of_goal_maker(records: &Records, goal: GoalName) -> Option<usize>
    ensures { IsPlaceOfOne records.now.slots (λ a. MakesGoal a goal) result }
{
    let _count = records.len();
    let place = records.place_of(goal.step)?;
    if !makes_goal(records.at(place).unwrap(), goal) {
        return None;
    }
    Some(place)
}

/// The place of another kept step than this one that made the variable, if one did: one look-up.
pub(crate) fn place_of_other_maker(records: &Records, later: &Record, x: VarName) -> Option<usize>
    ensures { IsPlaceOfOne records.now.slots (λ a. (x.step ≢ later.now.number) × MakesVariable a x) result }
{
    if x.step == later.number() {
        return None;
    }
    place_of_maker(records, x)
}

// The lesser of a variable and the least so far, if there is one.
pub(crate) fn lesser(least: Option<VarName>, x: VarName) -> VarName
    ensures second { IfSome least (λ y. result ≡ ord_min name_cmp y x) }
    ensures alone { IfNone least (result ≡ x) }
{
    match least {
        Some(y) => y.min(x),
        None => x,
    }
}

// Puts the variable under the place, unless a lesser one stands there: two look-ups.
fn put_least(
    least: &mut BTreeMap<usize, VarName>,
    place: usize,
    x: VarName,
) -> Result<(), AllocError>
    ensures { OnOk result (PutsLeast least.old least.new place x) }
{
    let chosen = lesser(least.get(&place).copied(), x);
    match least.insert(place, chosen) {
        Ok(_) => Ok(()),
        Err(_) => Err(AllocError),
    }
}

// The least variable that the step read from each other, by the places of these: some look-ups for each variable that it read.
fn least_reads(
    alloc: Global,
    records: &Records,
    later: &Record,
) -> Result<BTreeMap<usize, VarName>, AllocError>
    ensures { IfOk result (λ reads. AreLeastReads records.now.slots later.now reads) }
{
    let mut reads = BTreeMap::new(alloc);
    for x in later.effect().reads().members() {
        if let Some(place) = place_of_binder(records, *x) {
            put_least(&mut reads, place, *x)?;
        }
    }
    Ok(reads)
}

// The least variable that the step names from each other, by the places of these: some look-ups for each variable that it names.
fn least_names(
    alloc: Global,
    records: &Records,
    later: &Record,
) -> Result<BTreeMap<usize, VarName>, AllocError>
    ensures { IfOk result (λ names. AreLeastNames records.now.slots later.now names) }
{
    let mut names = BTreeMap::new(alloc);
    for x in later.act().variables() {
        if let Some(place) = place_of_other_maker(records, later, *x) {
            put_least(&mut names, place, *x)?;
        }
    }
    Ok(names)
}

/// From which kept steps one step reads, and from which it names variables, by their places: under each the least such variable.
#[derive(Drop)]
pub struct Sources {
    pub(crate) reads: BTreeMap<usize, VarName>,
    pub(crate) names: BTreeMap<usize, VarName>,
}

impl Sources {
    /// The sources of the step: some look-ups for each variable that it read, and for each that it names.
    pub fn of(alloc: Global, records: &Records, later: &Record) -> Result<Sources, AllocError>
        ensures { IfOk result (λ sources. AreSources records.now.slots later.now sources) }
    {
        let reads = least_reads(alloc, records, later)?;
        let names = least_names(alloc, records, later)?;
        Ok(Sources { reads, names })
    }
}
