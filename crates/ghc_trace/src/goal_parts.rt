// The part of a goal, and the asks that reach into it: by the steps that depend directly on each step of the part, or by a search.
ghost use Rattle.std.specs.Prelude.{◌≡◌, ◌↔◌, ◌<◌, ℕ, List, IfNone, IfOk, IfSome, IsTrue, OnOk, Some, length, option_copied};
ghost use Rattle.ghc_term.specs.Lists.{In};
ghost use Rattle.ghc_flat.specs.Clause.{Program, Query};
ghost use Rattle.ghc_records.specs.Record.{Record as record_spec, State};
ghost use Rattle.ghc_records.specs.Replay.{Replays};
ghost use Rattle.ghc_records.specs.inner.Slots.{StandsIn};
ghost use Rattle.ghc_depend.specs.Depend.{IsKeptAs};
ghost use Rattle.ghc_trace.specs.inner.PartsCode.{AreKeptAs, IsPartFound, IsPartOf, IsPutIf, IsTaken, IsTakerIn, NamesInside};

use crate::call_given::{asks_into, reaches_in};
use crate::parts::{all_numbers, is_of_part, part_of};
use crate::slices::add_numbered;
use ghc_records::{Record, Records};
use ghc_term::GoalName;
use std::alloc::{AllocError, Global};
use std::collections::BTreeSet;

/// The numbers of the steps of a goal's part, and those of the asks that reach into it, in recorded order.
#[derive(Drop)]
pub(crate) struct Part {
    pub(crate) steps: BTreeSet<u32>,
    pub(crate) asks: Vec<u32>,
}

/// Of the kept steps of these numbers, in recorded order, those of the goal's part, and the asks that reach into it. It costs some
/// look-ups for each, and two for each variable that an ask names.
pub(crate) fn part_among(
    alloc: Global,
    records: &Records,
    steps: &[u32],
    goal: GoalName,
) -> Result<Part, AllocError>
    requires { (n : ℕ) → In n steps.now → (r : record_spec) × IsKeptAs records.now.held n r }
    ensures { IfOk result (λ part. (P : Program) (query : Query) (rs : List record_spec) (t : State) → AreKeptAs records.now.held rs steps.now → Replays P query rs t → IsPartOf rs goal part.steps.keys part.asks.items) }
{
    let _count = records.len();
    let part = part_of(alloc, records, steps, goal)?;
    let asks = asks_into(alloc, records, steps, &part)?;
    Ok(Part { steps: part, asks })
}

// The place of the step, if there is one: one look-up.
fn place_alone(
    alloc: Global,
    records: &Records,
    step: Option<&Record>,
) -> Result<BTreeSet<usize>, AllocError>
    requires { (r : record_spec) → option_copied step ≡ Some r → In r records.now.held }
    ensures { IfOk result (λ places. (p : ℕ) → In p places.keys ↔ ((r : record_spec) × StandsIn records.now.slots p r × (option_copied step.entry ≡ Some r))) }
{
    let _count = records.len();
    let mut places = BTreeSet::new(alloc);
    let Some(one) = step else {
        return Ok(places);
    };
    let place = records.place_of(one.number()).unwrap();
    match places.insert(place) {
        Ok(_) => Ok(places),
        Err(_) => Err(AllocError),
    }
}

// Adds the number of the step if it is an ask that names a variable which a step of the part made.
fn add_ask(
    asks: &mut Vec<u32>,
    records: &Records,
    part: &BTreeSet<u32>,
    step: &Record,
) -> Result<(), AllocError>
    ensures { OnOk result (IsPutIf (NamesInside records.now.held part.now.keys step.now) step.now.number asks.old.items asks.new.items) }
{
    if !reaches_in(records, part, step) {
        return Ok(());
    }
    asks.push(step.number())?;
    Ok(())
}

// Takes the step into the part if it is of it, and adds the places of the steps that depend directly on it: one look-up for each. It
// gives false where the index is not whole, which tells these.
fn take_in(
    part: &mut BTreeSet<u32>,
    ahead: &mut BTreeSet<usize>,
    records: &Records,
    step: &Record,
    goal: GoalName,
) -> Result<bool, AllocError>
    ensures told { IfOk result (λ told. IsTrue told → IsTaken records.now.slots goal step.now part.old.keys part.new.keys ahead.old.keys ahead.new.keys) }
    ensures untold { IfOk result (λ told. (¬ IsTrue told) → records.now.indexed < length records.now.slots) }
{
    let _count = records.len();
    if !is_of_part(part, step, goal) {
        return Ok(true);
    }
    let Some(users) = records.users_of(step.number()) else {
        return Ok(false);
    };
    match part.insert(step.number()) {
        Ok(_) => {}
        Err(_) => return Err(AllocError),
    }
    add_numbered(ahead, records, users)?;
    Ok(true)
}

// The part of the goal, which this step took, if one did, and the asks that reach into the part. None where the index is not whole. It
// costs some look-ups for each step of the part and each that depends directly on one, and two for each variable that such an ask
// names.
fn part_by_users(
    alloc: Global,
    records: &Records,
    taker: Option<&Record>,
    goal: GoalName,
) -> Result<Option<Part>, AllocError>
    requires { IsTakerIn records.now.held goal (option_copied taker) }
    ensures found { IfOk result (λ found. IfSome found (λ part. IsPartFound records.now.held goal part.steps.keys part.asks.items)) }
    ensures none { IfOk result (λ found. IfNone found (records.now.indexed < length records.now.slots)) }
{
    let _count = records.len();
    let mut steps = BTreeSet::new(alloc);
    let mut asks = Vec::new(alloc);
    let mut ahead = place_alone(alloc, records, taker)?;
    while let Some(place) = ahead.pop_first() {
        let step = records.at(place).unwrap();
        add_ask(&mut asks, records, &steps, step)?;
        let told = take_in(&mut steps, &mut ahead, records, step, goal)?;
        if !told {
            return Ok(None);
        }
    }
    Ok(Some(Part { steps, asks }))
}

/// Of all kept steps those of the goal's part, and the asks that reach into it, where the step took the goal, if one did. Where the
/// index is whole, it costs some look-ups for each step of the part and each that depends directly on one, and two for each variable
/// that such an ask names; else as much for each kept step.
pub(crate) fn whole_part(
    alloc: Global,
    records: &Records,
    taker: Option<&Record>,
    goal: GoalName,
) -> Result<Part, AllocError>
    requires { IsTakerIn records.now.held goal (option_copied taker) }
    ensures { IfOk result (λ part. IsPartFound records.now.held goal part.steps.keys part.asks.items) }
{
    if let Some(part) = part_by_users(alloc, records, taker, goal)? {
        return Ok(part);
    }
    let steps = all_numbers(alloc, records)?;
    part_among(alloc, records, steps.as_slice(), goal)
}
