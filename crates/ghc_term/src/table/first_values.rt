// The values under the first variables of steps: a list by step.
ghost use Rattle.std.specs.Prelude.{◌≡◌, ◌<◌, None, Some, length, slice_set, option_copied};
ghost use Rattle.ghc_term.specs.inner.VariableMap.{first_at, HasSameValues};

use std::alloc::AllocError;

// How many places the list grows by where room is made.
const MORE: usize = 16;

// Makes the list longer by some places without a value, if it has not this place yet, so that it grows once for many steps. What it
// grew by stays where memory is refused.
pub(crate) fn grow<V: Drop>(firsts: &mut Vec<Option<V>>, place: usize) -> Result<(), AllocError>
    ensures { HasSameValues firsts.old.items firsts.new.items }
{
    if place < firsts.len() {
        return Ok(());
    }
    firsts.reserve(MORE)?;
    for _ in 0..MORE {
        firsts.push_reserved(None);
    }
    Ok(())
}

// The value at the place of the list, if it has one there: one step.
pub(crate) fn first<V: Drop>(firsts: &[Option<V>], place: usize) -> Option<&V>
    ensures { option_copied result ≡ first_at firsts.now place }
{
    firsts.get(place)?.as_ref()
}

// Puts the value at the place, which the list has: one step.
pub(crate) fn put_first<V: Drop>(firsts: &mut Vec<Option<V>>, place: usize, value: V)
    requires { place < length firsts.old.items }
    ensures { firsts.new.items ≡ slice_set firsts.old.items place (Some value) }
{
    firsts[place] = Some(value);
}

// Takes the value from the place of the list and gives it, if the list has one there: one step.
pub(crate) fn take_first<V: Drop>(firsts: &mut Vec<Option<V>>, place: usize) -> Option<V>
    ensures value { result ≡ first_at firsts.old.items place }
    ensures values { firsts.new.items ≡ slice_set firsts.old.items place None }
{
    if place >= firsts.len() {
        return None;
    }
    firsts[place].take()
}
