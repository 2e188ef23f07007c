// The numbers of the first two goals of steps: a list with two places for each step.
ghost use Rattle.std.specs.Prelude.{◌≡◌, ◌<◌, ◌+◌, ◌^◌, length, slice_set, IfSome, IfNone};
ghost use Rattle.ghc_term.specs.inner.GoalPlaces.{near_name, IsNear, number_at, HasSameNumbers};

use crate::goal_name::GoalName;
use std::alloc::AllocError;
use std::mem::replace;

// How many places the list grows by where room is made.
const MORE: usize = 32;

// The place of the list for the goal, if it is one of the first two of its step.
#[inline(always)]
pub(crate) fn slot(name: GoalName) -> Option<usize>
    ensures some { IfSome result (λ s. near_name s ≡ name) }
    ensures none { IfNone result (¬ IsNear name) }
{
    match name.place {
        1 => Some(name.step as usize * 2),
        2 => Some(name.step as usize * 2 + 1),
        _ => None,
    }
}

// Makes the list longer by some places without a number, where it does not go so far.
#[inline(always)]
pub(crate) fn grow(near: &mut Vec<u32>, slot: usize) -> Result<(), AllocError>
    ensures { HasSameNumbers near.old.items near.new.items }
{
    if slot < near.len() {
        return Ok(());
    }
    grow_by(near)
}

// Makes the list longer by some places without a number.
#[inline(never)]
fn grow_by(near: &mut Vec<u32>) -> Result<(), AllocError>
    ensures { HasSameNumbers near.old.items near.new.items }
{
    near.resize(near.len().saturating_add(MORE), 0)
}

// The number at the place of the list, if it has one there: one step.
#[inline(always)]
pub(crate) fn number(near: &[u32], slot: usize) -> Option<u32>
    ensures { result ≡ number_at near.now slot }
{
    near.get(slot)?.checked_sub(1)
}

// Puts the number at the place, which the list has: one step.
#[inline(always)]
pub(crate) fn put_number(near: &mut Vec<u32>, slot: usize, number: u32)
    requires within { slot < length near.old.items }
    requires small { number + 1 < 2 ^ 32 }
    ensures { near.new.items ≡ slice_set near.old.items slot (number + 1) }
{
    near[slot] = number + 1;
}

// Takes the number from the place of the list and gives it, if the list has one there: one step.
#[inline(always)]
pub(crate) fn take_number(near: &mut Vec<u32>, slot: usize) -> Option<u32>
    ensures number { result ≡ number_at near.old.items slot }
    ensures numbers { near.new.items ≡ slice_set near.old.items slot 0 }
{
    if slot >= near.len() {
        return None;
    }
    replace(&mut near[slot], 0).checked_sub(1)
}
