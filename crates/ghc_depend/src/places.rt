// The numbers of an order with their places, where each is kept and none stands twice.
ghost use Rattle.std.specs.Prelude.{◌≡◌, ◌⊎◌, ◌↔◌, ◌<◌, ◌≤◌, ◌++◌, ◌∷◌, [], ℕ, List, true, false, Ok, Err, IfOk, IfErr, IsOk, OnOk, IfSome, IfNone, Some, IsTrue};
ghost use Rattle.ghc_term.specs.Lists.{In};
ghost use Rattle.ghc_term.specs.declared.fault.Fault.{Fault};
ghost use Rattle.ghc_records.specs.Orders.{AreDistinct};
ghost use Rattle.ghc_records.specs.Record.{Record, numbers};
ghost use Rattle.ghc_records.specs.inner.Slots.{StandsIn};
ghost use Rattle.ghc_depend.specs.Lawful.{IsOfKept, IsFirstWrong, IsFirstMissing, StandsBehind, IsNoFurther};

use ghc_records::Records;
use ghc_term::Fault;
use indexmap::IndexSet;
use std::alloc::{AllocError, Global};

// Adds the number at the end, where it is kept and not yet there; else it says no: two look-ups.
fn is_added(places: &mut IndexSet<u32>, records: &Records, number: u32) -> Result<bool, AllocError>
    ensures kept { IfOk result (λ added. added ≡ true → In number (numbers records.now.held)) }
    ensures new { IfOk result (λ added. added ≡ true → ¬ In number places.old.keys) }
    ensures keys { IfOk result (λ added. added ≡ true → places.new.keys ≡ places.old.keys ++ number ∷ []) }
    ensures wrong { IfOk result (λ added. added ≡ false → (¬ In number (numbers records.now.held)) ⊎ In number places.old.keys) }
    ensures unkept { ¬ In number (numbers records.now.held) → result ≡ Ok false }
{
    let Some(_kept) = records.get(number) else {
        return Ok(false);
    };
    match places.insert(number) {
        Ok(is_new) => Ok(is_new),
        Err(_) => Err(AllocError),
    }
}

/// The numbers of the order with their places. `NotLawful`, with its number twice, for the first that is not kept or stood before.
/// Else it fails only where memory is refused, and takes none for an order that is empty or begins with a number that is not kept.
/// It costs two look-ups for each number.
pub(crate) fn places_of(
    alloc: Global,
    records: &Records,
    order: &[u32],
) -> Result<IndexSet<u32>, Fault>
    ensures places { IfOk result (λ places. places.keys ≡ order.now) }
    ensures kept { OnOk result (IsOfKept records.now.held order.now) }
    ensures fault { IfErr result (λ f. (f ≡ Fault.Memory) ⊎ ((s : ℕ) × (f ≡ Fault.NotLawful s s) × IsFirstWrong records.now.held order.now s)) }
    ensures first { (s : ℕ) (rest : List ℕ) → order.now ≡ s ∷ rest → ¬ In s (numbers records.now.held) → result ≡ Err (Fault.NotLawful s s) }
    ensures empty { order.now ≡ [] → IsOk result }
{
    let mut places = IndexSet::new(alloc);
    for number in order {
        match is_added(&mut places, records, *number) {
            Ok(true) => {}
            Ok(false) => {
                return Err(Fault::NotLawful {
                    earlier: *number,
                    later: *number,
                });
            }
            Err(_) => return Err(Fault::Memory),
        }
    }
    Ok(places)
}

// The number of the record in this slot, if it has one without a place: one look-up.
fn missing_at(records: &Records, places: &IndexSet<u32>, slot: usize) -> Option<u32>
    ensures missing { IfSome result (λ n. (r : Record) × StandsIn records.now.slots slot r × (r.number ≡ n) × ¬ In n places.now.keys) }
    ensures none { IfNone result ((r : Record) → StandsIn records.now.slots slot r → In r.number places.now.keys) }
{
    let Some(record) = records.at(slot) else {
        return None;
    };
    let number = record.number();
    if places.contains(&number) {
        return None;
    }
    Some(number)
}

/// The number of the first kept record, in recorded order, that has no place. One look-up for each record.
pub(crate) fn first_missing(records: &Records, places: &IndexSet<u32>) -> Option<u32>
    ensures missing { IfSome result (λ n. (r : Record) × IsFirstMissing records.now.held places.now.keys r × (r.number ≡ n)) }
    ensures all { IfNone result ((n : ℕ) → In n (numbers records.now.held) → In n places.now.keys) }
{
    let _count = records.len();
    for slot in 0..records.places() {
        if let Some(number) = missing_at(records, places, slot) {
            return Some(number);
        }
    }
    None
}

/// Whether the number has a place after this one: one look-up.
pub(crate) fn stands_behind(places: &IndexSet<u32>, number: u32, place: usize) -> bool
    requires { AreDistinct places.now.keys }
    ensures { IsTrue result ↔ StandsBehind places.now.keys place number }
{
    match places.get_index_of(&number) {
        Some(own) => place < own,
        None => false,
    }
}

/// The lesser of `first` and the place of the number, where that is in front of `place`; else `first`: one look-up.
pub(crate) fn no_further(places: &IndexSet<u32>, number: u32, place: usize, first: usize) -> usize
    requires { AreDistinct places.now.keys }
    ensures within { result ≤ first }
    ensures found { IsNoFurther places.now.keys place number result }
{
    match places.get_index_of(&number) {
        Some(own) => { if own < place { first.min(own) } else { first } }
        None => first,
    }
}
