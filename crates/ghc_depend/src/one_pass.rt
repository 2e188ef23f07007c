// The consequences of a step by one pass over the record, where its index does not tell which steps depend on which.
ghost use Rattle.std.specs.Prelude.{◌≡◌, ◌≢◌, ◌⊎◌, ◌↔◌, ◌+◌, ◌<◌, ◌++◌, ◌∷◌, [], ℕ, List, IsTrue, IfOk, OnOk, length};
ghost use Rattle.std.specs.FinSet as set;
ghost use Rattle.ghc_term.specs.declared.var_name.VarName.{VarName as var_name};
ghost use Rattle.ghc_term.specs.Lists.{In};
ghost use Rattle.ghc_records.specs.Record.{Record as record_spec, numbers};
ghost use Rattle.ghc_records.specs.inner.Slots.{SlotList, StandsIn};
ghost use Rattle.ghc_depend.specs.Depend.{Binds, Consumes, MakesVariable, NamesFrom, Uses, AreConsequences};
ghost use Rattle.ghc_depend.specs.inner.Places.{IsOfSteps, IsSoFar};

use crate::sources::{place_of_goal_maker, place_of_other_maker};
use ghc_records::{Record, Records};
use ghc_term::VarName;
use std::alloc::{AllocError, Global};
use std::collections::BTreeSet;

// Some steps: the places where they stand, and the variables that they bound.
#[derive(Drop)]
pub(crate) struct Steps {
    pub(crate) places: BTreeSet<usize>,
    pub(crate) bound: BTreeSet<VarName>,
}

// Whether a step at one of these places made the goal that the later step consumed: one look-up, and one among the places.
fn consumes_from(records: &Records, places: &BTreeSet<usize>, later: &Record) -> bool
    ensures { IsTrue result ↔ ((p : ℕ) × (a : record_spec) × In p places.now.keys × StandsIn records.now.slots p a × Consumes later.now a) }
{
    let Some(name) = later.goal() else {
        return false;
    };
    match place_of_goal_maker(records, name) {
        Some(place) => places.contains(&place),
        None => false,
    }
}

// Whether another step at one of these places made the variable: one look-up, and one among the places.
fn is_made_at(records: &Records, places: &BTreeSet<usize>, later: &Record, x: VarName) -> bool
    ensures { IsTrue result ↔ ((p : ℕ) × (a : record_spec) × In p places.now.keys × StandsIn records.now.slots p a × ((x.step ≢ later.now.number) × MakesVariable a x)) }
{
    match place_of_other_maker(records, later, x) {
        Some(place) => places.contains(&place),
        None => false,
    }
}

// Whether a step at one of these places made a variable that the later step names: two look-ups for each that it names.
fn names_from_one(records: &Records, places: &BTreeSet<usize>, later: &Record) -> bool
    ensures { IsTrue result ↔ ((p : ℕ) × (a : record_spec) × (x : var_name) × In p places.now.keys × StandsIn records.now.slots p a × NamesFrom later.now a x) }
{
    for x in later.act().variables() {
        if is_made_at(records, places, later, *x) {
            return true;
        }
    }
    false
}

// Whether the step read one of these variables: one look-up for each that it read.
fn reads_one(bound: &BTreeSet<VarName>, later: &Record) -> bool
    ensures { IsTrue result ↔ ((x : var_name) × IsTrue (set.contains later.now.effect.reads x) × In x bound.now.keys) }
{
    for x in later.effect().reads().members() {
        if bound.contains(x) {
            return true;
        }
    }
    false
}

// Whether the later step used what one of the steps gave: some look-ups for its goal, and for each variable that it read or names.
fn uses_one(records: &Records, steps: &Steps, later: &Record) -> bool
    ensures { (rs : List record_spec) → IsOfSteps records.now.slots rs steps.now.places.keys steps.now.bound.keys → (IsTrue result ↔ ((a : record_spec) × In a rs × Uses later.now a)) }
{
    if consumes_from(records, &steps.places, later) {
        return true;
    }
    if reads_one(&steps.bound, later) {
        return true;
    }
    names_from_one(records, &steps.places, later)
}

// Adds the variables that the step bound: one look-up for each.
fn add_bound(bound: &mut BTreeSet<VarName>, step: &Record) -> Result<(), AllocError>
    ensures { OnOk result ((x : var_name) → In x bound.new.keys ↔ (In x bound.old.keys ⊎ Binds step.now x)) }
{
    for (x, _value) in step.effect().binds().entries() {
        match bound.insert(*x) {
            Ok(_) => {}
            Err(_) => return Err(AllocError),
        }
    }
    Ok(())
}

// Adds the step at this place: some look-ups, and one for each variable that it bound.
fn add_step(steps: &mut Steps, place: usize, step: &Record) -> Result<(), AllocError>
    ensures { OnOk result ((ss : SlotList) (rs : List record_spec) → StandsIn ss place step.now → IsOfSteps ss rs steps.old.places.keys steps.old.bound.keys → IsOfSteps ss (rs ++ step.now ∷ []) steps.new.places.keys steps.new.bound.keys) }
{
    match steps.places.insert(place) {
        Ok(_) => {}
        Err(_) => return Err(AllocError),
    }
    add_bound(&mut steps.bound, step)
}

// Adds the step at this place, and its number, where one stands there that used what one of the steps gave.
fn add_if_it_follows(
    steps: &mut Steps,
    found: &mut Vec<u32>,
    records: &Records,
    place: usize,
) -> Result<(), AllocError>
    requires { place < length records.now.slots }
    ensures { OnOk result ((own : ℕ) (a : record_spec) → StandsIn records.now.slots own a → own < place → IsSoFar records.now.slots a place steps.old.places.keys steps.old.bound.keys found.old.items
        → IsSoFar records.now.slots a (place + 1) steps.new.places.keys steps.new.bound.keys found.new.items) }
{
    let _count = records.len();
    let Some(step) = records.at(place) else {
        return Ok(());
    };
    if !uses_one(records, steps, step) {
        return Ok(());
    }
    found.push(step.number())?;
    add_step(steps, place, step)
}

/// The numbers of the consequences of the step at this place, in recorded order: one pass over the records after it, with some look-ups
/// for the goal of each, and for each variable that it read or names. The memory is that of the consequences. It fails only where that
/// is refused.
pub(crate) fn consequences_by_pass(
    alloc: Global,
    records: &Records,
    own: usize,
) -> Result<Vec<u32>, AllocError>
    requires there { (a : record_spec) × StandsIn records.now.slots own a }
    requires within { own < length records.now.slots }
    ensures { IfOk result (λ ns. (a : record_spec) → StandsIn records.now.slots own a → (found : List record_spec) × AreConsequences records.now.held a found × (numbers found ≡ ns.items)) }
{
    let _count = records.len();
    let end = records.places();
    let mut found = Vec::new(alloc);
    let mut steps = Steps {
        places: BTreeSet::new(alloc),
        bound: BTreeSet::new(alloc),
    };
    add_step(&mut steps, own, records.at(own).unwrap())?;
    for place in own + 1..end {
        add_if_it_follows(&mut steps, &mut found, records, place)?;
    }
    Ok(found)
}
