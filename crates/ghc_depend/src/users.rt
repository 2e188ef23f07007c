// Steps that depend directly on a step, found by a search, where the index of the record does not tell them.
ghost use Rattle.std.specs.Prelude.{◌≡◌, ℕ, IfSome, IfNone};
ghost use Rattle.ghc_records.specs.Record.{Record};
ghost use Rattle.ghc_records.specs.inner.Slots.{held_in, StandsIn};
ghost use Rattle.ghc_records.specs.UseIndex.{StepDependsOn};
ghost use Rattle.ghc_depend.specs.inner.Places.{IsPlaceOfUser};

use crate::cause::uses;
use ghc_records::Records;

/// The number of the step at this place, if one stands there that depends directly on the step of this number: two look-ups, and one
/// for each variable that it read.
pub(crate) fn user_at(records: &Records, number: u32, place: usize) -> Option<u32>
    ensures some { IfSome result (λ m. (b : Record) × StandsIn records.now.slots place b × (b.number ≡ m) × StepDependsOn (held_in records.now.slots) m number) }
    ensures none { IfNone result (¬ IsPlaceOfUser records.now.slots number place) }
{
    let _count = records.len();
    let own = records.place_of(number)?;
    let later = records.at(place)?;
    if own < place && uses(later, records.at(own).unwrap()) {
        return Some(later.number());
    }
    None
}
