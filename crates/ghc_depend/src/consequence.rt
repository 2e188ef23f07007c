// The consequences of a kept step.
ghost use Rattle.std.specs.Prelude.{◌≡◌, ◌⊎◌, ◌↔◌, ◌<◌, ◌≤◌, ℕ, List, IfOk, OnOk, OnErr, IfSome, IfNone, Some, length};
ghost use Rattle.ghc_term.specs.Lists.{In};
ghost use Rattle.ghc_records.specs.Record.{Record, numbers};
ghost use Rattle.ghc_depend.specs.Depend.{Follows, IsKeptAs, AreConsequencesOf, IsFirstConsequence};
ghost use Rattle.ghc_depend.specs.inner.Places.{IsFirstAmong, IsFirstUser, HasPlacesOf};

use crate::one_pass::consequences_by_pass;
use crate::users::user_at;
use ghc_records::Records;
use std::alloc::{AllocError, Global};
use std::collections::BTreeSet;

// The lesser of a place and the least so far, if there is one.
fn sooner(first: Option<usize>, place: usize) -> usize
    ensures place { result ≤ place }
    ensures first { IfSome first (λ p. result ≤ p) }
    ensures one { (result ≡ place) ⊎ (first ≡ Some result) }
{
    match first {
        Some(least) => least.min(place),
        None => place,
    }
}

// The first place where a record of one of these numbers stands, if one is kept: one look-up for each number.
fn first_among(records: &Records, ns: &[u32]) -> Option<usize>
    ensures { IsFirstAmong records.now.slots ns.now result }
{
    let _count = records.len();
    let mut first = None;
    for n in ns {
        if let Some(place) = records.place_of(*n) {
            first = Some(sooner(first, place));
        }
    }
    first
}

// Adds the places of the records of these numbers: one look-up for each.
fn add_places(ahead: &mut BTreeSet<usize>, records: &Records, ns: &[u32]) -> Result<(), AllocError>
    ensures { OnOk result (HasPlacesOf records.now.slots ns.now ahead.old.keys ahead.new.keys) }
{
    let _count = records.len();
    for n in ns {
        if let Some(place) = records.place_of(*n) {
            match ahead.insert(place) {
                Ok(_) => {}
                Err(_) => return Err(AllocError),
            }
        }
    }
    Ok(())
}

// The numbers of the consequences of the kept step of this number, in recorded order, by the steps that depend directly on it and on each
// consequence; none where the index is not whole, which tells these. It costs a look-up for each such dependence, and puts the places of
// those steps in order.
fn consequences_by_users(
    alloc: Global,
    records: &Records,
    number: u32,
) -> Result<Option<Vec<u32>>, AllocError>
    requires { (r : Record) × IsKeptAs records.now.held number r }
    ensures found { IfOk result (λ told. IfSome told (λ ns. (found : List Record) × AreConsequencesOf records.now.held number found × (numbers found ≡ ns.items))) }
    ensures none { IfOk result (λ told. IfNone told (records.now.indexed < length records.now.slots)) }
{
    let _count = records.len();
    let mut found = Vec::new(alloc);
    let mut ahead = BTreeSet::new(alloc);
    let Some(users) = records.users_of(number) else {
        return Ok(None);
    };
    add_places(&mut ahead, records, users)?;
    while let Some(place) = ahead.pop_first() {
        let next = records.at(place).unwrap().number();
        let Some(later) = records.users_of(next) else {
            return Ok(None);
        };
        add_places(&mut ahead, records, later)?;
        found.push(next)?;
    }
    Ok(Some(found))
}

/// The numbers of the consequences of the step of this number, in recorded order: none where it is not kept. It costs a look-up for
/// each direct dependence on the step or on a consequence, and puts the places of those in order; where the index is not whole, it
/// goes once over the records after the step, with some look-ups for the goal of each and for each variable that it read or names. It
/// fails only where memory is refused, and never where the step is not kept.
pub fn consequences(alloc: Global, records: &Records, number: u32) -> Result<Vec<u32>, AllocError>
    ensures found { IfOk result (λ ns. (found : List Record) × AreConsequencesOf records.now.held number found × (numbers found ≡ ns.items)) }

    // It fails only where the step is kept.
    ensures kept { OnErr result ((r : Record) × IsKeptAs records.now.held number r) }
{
    let _count = records.len();
    let Some(own) = records.place_of(number) else {
        return Ok(Vec::new(alloc));
    };
    match consequences_by_users(alloc, records, number)? {
        Some(found) => Ok(found),
        None => consequences_by_pass(alloc, records, own),
    }
}

// The first place of a step that depends directly on the step of this number, if one does, by a search up to there.
fn first_user_by_search(records: &Records, number: u32) -> Option<usize>
    ensures { IsFirstUser records.now.slots number result }
{
    for place in 0..records.places() {
        if let Some(_) = user_at(records, number, place) {
            return Some(place);
        }
    }
    None
}

// The first place of a step that depends directly on the step of this number, if one does: one look-up for each that does, or a search
// where the index is not whole.
fn first_user(records: &Records, number: u32) -> Option<usize>
    ensures { IsFirstUser records.now.slots number result }
{
    let _count = records.len();
    match records.users_of(number) {
        Some(users) => first_among(records, users),
        None => first_user_by_search(records, number),
    }
}

/// The number of the first consequence of the step of this number, if it is kept and has one. The first one always depends
/// directly, so it costs a look-up for each step that does; where the index is not whole, it goes over the record.
pub fn first_consequence(records: &Records, number: u32) -> Option<u32>
    ensures found { IfSome result (λ n. (a b : Record) × IsKeptAs records.now.held number a × IsFirstConsequence records.now.held a b × (b.number ≡ n)) }
    ensures none { IfNone result ((a b : Record) → IsKeptAs records.now.held number a → ¬ Follows records.now.held a b) }
{
    let _count = records.len();
    let place = first_user(records, number)?;
    Some(records.at(place).unwrap().number())
}
