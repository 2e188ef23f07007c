// The part of a goal: the kept steps whose goals descend from it.
ghost use Rattle.std.specs.Prelude.{◌≡◌, ◌≢◌, ◌↔◌, ◌<◌, ℕ, List, Some, IfOk, IfNone, IfSome, IsTrue, length, option_copied};
ghost use Rattle.ghc_term.specs.Lists.{In};
ghost use Rattle.ghc_flat.specs.Clause.{Program, Query};
ghost use Rattle.ghc_records.specs.Record.{Record as record_spec, State, numbers};
ghost use Rattle.ghc_records.specs.Replay.{Replays};
ghost use Rattle.ghc_records.specs.UseIndex.{StepDependsOn};
ghost use Rattle.ghc_depend.specs.Depend.{IsKeptAs};
ghost use Rattle.ghc_trace.specs.Parts.{ArePartNumbers};
ghost use Rattle.ghc_trace.specs.inner.PartsCode.{AreKeptAs, IsTakenUp};

use ghc_records::{Record, Records};
use ghc_term::GoalName;
use std::alloc::{AllocError, Global};
use std::collections::BTreeSet;

/// Whether the step took this goal, or one that a step of the part made.
pub(crate) fn is_of_part(part: &BTreeSet<u32>, step: &Record, goal: GoalName) -> bool
    ensures { IsTrue result ↔ IsTakenUp goal part.now.keys step.now }
{
    let Some(taken) = step.goal() else {
        return false;
    };
    if taken == goal {
        return true;
    }
    part.contains(&taken.step)
}

/// Of the kept steps of these numbers, in recorded order, the numbers of those of the goal's part. It costs two look-ups for each.
pub(crate) fn part_of(
    alloc: Global,
    records: &Records,
    steps: &[u32],
    goal: GoalName,
) -> Result<BTreeSet<u32>, AllocError>
    requires { (n : ℕ) → In n steps.now → (r : record_spec) × IsKeptAs records.now.held n r }
    ensures { IfOk result (λ part. (P : Program) (query : Query) (rs : List record_spec) (t : State) → AreKeptAs records.now.held rs steps.now → Replays P query rs t → ArePartNumbers rs goal part.keys) }
{
    let _count = records.len();
    let mut part = BTreeSet::new(alloc);
    for number in steps {
        let step = records.get(*number).unwrap();
        if is_of_part(&part, step, goal) {
            match part.insert(*number) {
                Ok(_) => {}
                Err(_) => return Err(AllocError),
            }
        }
    }
    Ok(part)
}

/// The numbers of all records, in recorded order: one step for each place.
pub(crate) fn all_numbers(alloc: Global, records: &Records) -> Result<Vec<u32>, AllocError>
    ensures { IfOk result (λ all. all.items ≡ numbers records.now.held) }
{
    let _count = records.len();
    let mut all = Vec::new(alloc);
    for place in 0..records.places() {
        if let Some(step) = records.at(place) {
            all.push(step.number())?;
        }
    }
    Ok(all)
}

// The step, if there is one and it took the goal.
fn if_it_took(step: Option<&Record>, goal: GoalName) -> Option<&Record>
    ensures { (r : record_spec) → (option_copied result ≡ Some r) ↔ ((option_copied step.entry ≡ Some r) × (r.goal ≡ Some goal)) }
{
    let Some(found) = step else {
        return None;
    };
    let Some(taken) = found.goal() else {
        return None;
    };
    if taken != goal {
        return None;
    }
    Some(found)
}

// The kept step that took the goal, if one did, by a search: one step for each place.
fn taker_by_search(records: &Records, goal: GoalName) -> Option<&Record>
    ensures found { IfSome result (λ r. In r.now records.now.held × (r.now.goal ≡ Some goal)) }
    ensures none { IfNone result ((r : record_spec) → In r records.now.held → r.goal ≢ Some goal) }
{
    let _count = records.len();
    for place in 0..records.places() {
        if let Some(step) = if_it_took(records.at(place), goal) {
            return Some(step);
        }
    }
    None
}

// Of the kept steps of these numbers the one that took the goal, if one did: one look-up for each.
fn taker_among<'a>(records: &'a Records, numbers: &[u32], goal: GoalName) -> Option<&'a Record>
    ensures found { IfSome result (λ r. In r.now records.now.held × In r.now.number numbers.now × (r.now.goal ≡ Some goal)) }
    ensures none { IfNone result ((r : record_spec) → In r records.now.held → In r.number numbers.now → r.goal ≢ Some goal) }
{
    let _count = records.len();
    for number in numbers {
        if let Some(step) = if_it_took(records.get(*number), goal) {
            return Some(step);
        }
    }
    None
}

// The kept step that took the goal and depends directly on the one that the goal names as its maker, if one does: one look-up for each
// step that depends directly on that one. None also where the index is not whole.
fn taker_by_users(records: &Records, goal: GoalName) -> Option<&Record>
    ensures found { IfSome result (λ r. In r.now records.now.held × (r.now.goal ≡ Some goal)) }
    ensures none { IfNone result ((r : record_spec) → StepDependsOn records.now.held r.number goal.step → In r records.now.held → r.goal ≡ Some goal → records.now.indexed < length records.now.slots) }
{
    let users = records.users_of(goal.step)?;
    taker_among(records, users, goal)
}

/// The kept step that took the goal of this name, if one did. Where a kept step made the goal, one took it, and the index is whole, it
/// costs one look-up for each step that depends directly on the maker; else one step for each place up to where it is found.
pub fn taker_of(records: &Records, goal: GoalName) -> Option<&Record>
    ensures found { IfSome result (λ r. In r.now records.now.held × (r.now.goal ≡ Some goal)) }
    ensures none { IfNone result ((r : record_spec) → In r records.now.held → r.goal ≢ Some goal) }
{
    match taker_by_users(records, goal) {
        Some(step) => Some(step),
        None => taker_by_search(records, goal),
    }
}
