// Whether an order of the record is lawful, and what tells why not.
ghost use Rattle.std.specs.Prelude.{◌≡◌, ◌≢◌, ◌⊎◌, ◌≤◌, ◌∷◌, [], ℕ, List, Err, IfErr, OnOk, IfSome, IfNone, Some, slice_get};
ghost use Rattle.ghc_term.specs.Lists.{In};
ghost use Rattle.ghc_term.specs.declared.fault.Fault.{Fault};
ghost use Rattle.ghc_records.specs.Orders.{AreDistinct};
ghost use Rattle.ghc_records.specs.Record.{Record, numbers};
ghost use Rattle.ghc_records.specs.inner.Slots.{StandsIn};
ghost use Rattle.ghc_records.specs.UseIndex.{StepDependsOn};
ghost use Rattle.ghc_depend.specs.Depend.{Uses};
ghost use Rattle.ghc_depend.specs.Lawful.{IsOrderOf, IsTooEarly, IsLawful, IsNoFurther, StandsBehind, AreInTime, IsInTime, IsFirstNeeded, IsFirstTooEarly, IsUnlawful};

use crate::cause::uses;
use crate::places::{first_missing, no_further, places_of, stands_behind};
use crate::users::user_at;
use ghc_records::{Record, Records};
use ghc_term::Fault;
use indexmap::IndexSet;
use std::alloc::Global;

// The least of `first` and the places in front of `place` where steps of these numbers stand: one look-up for each.
fn first_of(places: &IndexSet<u32>, numbers: &[u32], place: usize, first: usize) -> usize
    requires { AreDistinct places.now.keys }
    ensures within { result ≤ first }
    ensures numbers { (n : ℕ) → In n numbers.now → IsNoFurther places.now.keys place n result }
{
    let mut least = first;
    for number in numbers {
        least = no_further(places, *number, place, least);
    }
    least
}

// The same of the steps that depend directly on the one of this number, by a search of the record.
fn first_by_search(
    records: &Records,
    places: &IndexSet<u32>,
    number: u32,
    place: usize,
    first: usize,
) -> usize
    requires { AreDistinct places.now.keys }
    ensures within { result ≤ first }
    ensures users { (n : ℕ) → StepDependsOn records.now.held n number → IsNoFurther places.now.keys place n result }
{
    let _count = records.len();
    let mut least = first;
    for slot in 0..records.places() {
        if let Some(user) = user_at(records, number, slot) {
            least = no_further(places, user, place, least);
        }
    }
    least
}

// The least of `first` and the places in front of `place` where steps stand that depend directly on the one of this number: one
// look-up, and one for each of these steps, or a search where the index is not whole.
fn first_user(
    records: &Records,
    places: &IndexSet<u32>,
    number: u32,
    place: usize,
    first: usize,
) -> usize
    requires { AreDistinct places.now.keys }
    ensures within { result ≤ first }
    ensures users { (n : ℕ) → StepDependsOn records.now.held n number → IsNoFurther places.now.keys place n result }
{
    match records.users_of(number) {
        Some(users) => first_of(places, users, place, first),
        None => first_by_search(records, places, number, place, first),
    }
}

// How many steps of the order surely stand in time: those in front of the first that stands before a step on which it depends. It
// goes once over the order, with a look-up for each step, and one for each direct dependence.
fn count_in_time(records: &Records, places: &IndexSet<u32>, order: &[u32]) -> usize
    requires places { places.now.keys ≡ order.now }
    requires distinct { AreDistinct order.now }
    ensures { AreInTime records.now.held order.now result }
{
    let mut in_time = order.len();
    for place in 0..order.len() {
        in_time = first_user(records, places, order[place], place, in_time);
    }
    in_time
}

// The number of this slot's record, if there is one that stands after this place in the order and gave something the later step
// used. It costs two look-ups, and one for each variable that the later step read.
fn needed_at(
    records: &Records,
    places: &IndexSet<u32>,
    later: &Record,
    place: usize,
    slot: usize,
) -> Option<u32>
    requires { AreDistinct places.now.keys }
    ensures found { IfSome result (λ n. (a : Record) × StandsIn records.now.slots slot a × (a.number ≡ n) × StandsBehind places.now.keys place n × Uses later.now a) }
    ensures none { IfNone result ((a : Record) → StandsIn records.now.slots slot a → ¬ (StandsBehind places.now.keys place a.number × Uses later.now a)) }
{
    let Some(earlier) = records.at(slot) else {
        return None;
    };
    if stands_behind(places, earlier.number(), place) && uses(later, earlier) {
        return Some(earlier.number());
    }
    None
}

// The number of the first step, in recorded order, that stands after this step in the order and on which this step depends directly.
// This step has the number and the place given. It goes over the records in front of this step, with a look-up at each, and one for
// each variable that this step read where the record stands after it.
fn first_needed(records: &Records, places: &IndexSet<u32>, number: u32, place: usize) -> Option<u32>
    requires distinct { AreDistinct places.now.keys }
    requires there { slice_get places.now.keys place ≡ Some number }
    ensures found { IfSome result (λ n. (a b : Record) × (a.number ≡ n) × (b.number ≡ number) × IsFirstNeeded records.now.held places.now.keys b a) }
    ensures none { IfNone result (IsInTime records.now.held places.now.keys number) }
{
    let _count = records.len();
    let end = records.place_of(number)?;
    let later = records.at(end).unwrap();
    for slot in 0..end {
        if let Some(earlier) = needed_at(records, places, later, place, slot) {
            return Some(earlier);
        }
    }
    None
}

// The pair that tells the first step of the order that stands too early, where those in front of the start are in time.
fn first_too_early(
    records: &Records,
    places: &IndexSet<u32>,
    order: &[u32],
    start: usize,
) -> Option<(u32, u32)>
    requires places { places.now.keys ≡ order.now }
    requires of_kept { IsOrderOf records.now.held order.now }
    requires in_time { AreInTime records.now.held order.now start }
    ensures found { IfSome result (λ pair. (a b : Record) × (a.number ≡ pair.0) × (b.number ≡ pair.1) × IsFirstTooEarly records.now.held order.now a b) }
    ensures none { IfNone result ((a b : Record) → ¬ IsTooEarly records.now.held order.now a b) }
{
    for place in start..order.len() {
        if let Some(earlier) = first_needed(records, places, order[place], place) {
            return Some((earlier, order[place]));
        }
    }
    None
}

/// Whether the order is lawful: it has each kept number once and nothing else, and no step stands before one on which it depends
/// directly. Else `NotLawful`, with the pair that tells why: twice the first number that is not kept or stood before; or else the
/// first that is missing, and 0; or else the two first steps of which the earlier in the order depends on the later. Else it
/// fails only where memory is refused, never for an order that is empty or begins with a number that is not kept. It goes
/// once over order and record, with some look-ups for each step, and one for each direct dependence; where the index is not whole, it
/// goes over the record for each step; and where a step stands too early,
/// it goes once more over the record.
pub fn lawful(alloc: Global, records: &Records, order: &[u32]) -> Result<(), Fault>
    ensures ok { OnOk result (IsLawful records.now.held order.now) }
    ensures fault { IfErr result (λ f. (f ≡ Fault.Memory) ⊎ ((a b : ℕ) × (f ≡ Fault.NotLawful a b) × IsUnlawful records.now.held order.now a b)) }
    ensures first { (s : ℕ) (rest : List ℕ) → order.now ≡ s ∷ rest → ¬ In s (numbers records.now.held) → result ≡ Err (Fault.NotLawful s s) }
    ensures empty { order.now ≡ [] → result ≢ Err Fault.Memory }
{
    let places = match places_of(alloc, records, order) {
        Ok(places) => places,
        Err(fault) => return Err(fault),
    };
    if let Some(number) = first_missing(records, &places) {
        return Err(Fault::NotLawful {
            earlier: number,
            later: 0,
        });
    }
    let start = count_in_time(records, &places, order);
    match first_too_early(records, &places, order, start) {
        Some((earlier, later)) => Err(Fault::NotLawful { earlier, later }),
        None => Ok(()),
    }
}
