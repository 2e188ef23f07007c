// Which steps made the variables of a list, or the goal of a step, and the users of these.
ghost use Rattle.std.specs.Prelude.{◌≡◌, ◌↔◌, ◌⊎◌, ℕ, OnOk, Some};
ghost use Rattle.ghc_records.specs.inner.Slots.{held_before};
ghost use Rattle.ghc_records.specs.UseIndex.{users_at, IsUser, CanTake, IsMakerOf, IsMakerFor, MadeOneOf};

use crate::record::Record;
use crate::table::slots::Slots;
use crate::table::users::Users;
use ghc_term::VarName;
use std::alloc::AllocError;

// The number of the step that made the variable, if one before this place did: one look-up.
fn maker_of(slots: &Slots, before: usize, x: VarName) -> Option<u32>
    ensures { (m : ℕ) → (result ≡ Some m) ↔ IsMakerOf (held_before before slots.now.held) x m }
{
    let _count = slots.len();
    let Some(maker) = slots.get_before(before, x.step) else {
        return None;
    };
    if x.place == 0 || x.place > maker.effect().fresh() {
        return None;
    }
    Some(x.step)
}

// The number of the step that made the goal that the step consumed, if one before this place made it: one look-up.
pub(crate) fn maker_for(slots: &Slots, before: usize, step: &Record) -> Option<u32>
    ensures { (m : ℕ) → (result ≡ Some m) ↔ IsMakerFor (held_before before slots.now.held) step.now m }
{
    let _count = slots.len();
    let Some(name) = step.goal() else {
        return None;
    };
    let Some(maker) = slots.get_before(before, name.step) else {
        return None;
    };
    if name.place == 0 || name.place > maker.effect().made() {
        return None;
    }
    Some(name.step)
}

// Makes room for one more number under each step before this place that made one of the variables: some look-ups for each.
pub(crate) fn reserve_under_makers(
    users: &mut Users,
    slots: &Slots,
    before: usize,
    xs: &[VarName],
) -> Result<(), AllocError>
    ensures held { (m : ℕ) → users_at users.new m ≡ users_at users.old m }
    ensures room { OnOk result ((m n : ℕ) → MadeOneOf (held_before before slots.now.held) xs.now m → CanTake users.new m n) }
    ensures kept { (m n : ℕ) → CanTake users.old m n → CanTake users.new m n }
{
    for x in xs {
        users.reserve_at(maker_of(slots, before, *x), slots.slot_count())?;
    }
    Ok(())
}

// Puts a number under each step before this place that made one of the variables, where there is room: some look-ups for each.
pub(crate) fn put_under_makers(
    users: &mut Users,
    slots: &Slots,
    before: usize,
    xs: &[VarName],
    user: u32,
)
    requires { (m : ℕ) → MadeOneOf (held_before before slots.now.held) xs.now m → CanTake users.old m user }
    ensures { (m n : ℕ) → IsUser users.new m n ↔ (IsUser users.old m n ⊎ (MadeOneOf (held_before before slots.now.held) xs.now m × (n ≡ user))) }
{
    for x in xs {
        users.put_at(maker_of(slots, before, *x), user);
    }
}

// Takes a number from under each step before this place that made one of the variables: some look-ups for each.
pub(crate) fn take_from_under_makers(
    users: &mut Users,
    slots: &Slots,
    before: usize,
    xs: &[VarName],
    user: u32,
)
    ensures { (m n : ℕ) → IsUser users.new m n ↔ (IsUser users.old m n × ¬ (MadeOneOf (held_before before slots.now.held) xs.now m × (n ≡ user))) }
{
    for x in xs {
        users.take_at(maker_of(slots, before, *x), user);
    }
}
