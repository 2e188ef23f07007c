// The index of a record: which steps used what a step gave, and which step bound a variable.
ghost use Rattle.std.specs.Prelude.{◌≡◌, ◌≢◌, ◌↔◌, ◌⊎◌, ◌≤◌, if◌then◌else◌, is_some, ℕ, List, ◌+◌, OnOk, OnErr, Some, None};
ghost use Rattle.std.specs.FinMap as finite;
ghost use Rattle.ghc_term.specs.declared.var_name.VarName.{VarName};
ghost use Rattle.ghc_term.specs.Lists.{In};
ghost use Rattle.ghc_term.specs.Store.{value_at};
ghost use Rattle.ghc_records.specs.UseIndex.{users_at, IsUser, CanTake, BoundOneOf, MadeOneOf, Gave, step_named, IsIndexOf, BoundOnce};
ghost use Rattle.ghc_records.specs.Orders.{AreDistinct, Picks};
ghost use Rattle.ghc_records.specs.Record.{Record as record_spec, numbers};
ghost use Rattle.ghc_records.specs.inner.Slots.{held_in, held_before, StandsIn};
ghost use Rattle.ghc_fire.specs.Asked.{variables_asked};

use crate::record::Record;
use crate::table::binders::Binders;
use crate::table::makers::{
    maker_for, put_under_makers, reserve_under_makers, take_from_under_makers,
};
use crate::table::slots::Slots;
use crate::table::users::Users;
use ghc_term::{GoalName, VarName};
use std::alloc::{AllocError, Global};
use std::marker::Model;

// The users of each step, and the binder of each variable.
#[derive(Drop)]
pub(crate) struct UseIndex {
    users: Users,
    binders: Binders,
}

impl Model for UseIndex {
    ghost use Rattle.ghc_records.specs.UseIndex.{Index};
    ghost use Rattle.ghc_records.specs.inner.RecordCode.{index_code};

    ghost Value = { Index };

    ghost coded = { index_code };

    ghost view = { λ i. record { users = i.users; binders = i.binders } };
}

// Makes room for one more number under each step that bound one of the variables, of a record of so many slots: some look-ups for
// each.
#[inline(always)]
fn reserve_under(
    users: &mut Users,
    binders: &Binders,
    xs: &[VarName],
    slots: usize,
) -> Result<(), AllocError>
    ensures held { (m : ℕ) → users_at users.new m ≡ users_at users.old m }
    ensures room { OnOk result ((m n : ℕ) → BoundOneOf binders.now.held xs.now m → CanTake users.new m n) }
    ensures kept { (m n : ℕ) → CanTake users.old m n → CanTake users.new m n }
{
    for x in xs {
        users.reserve_at(binders.get(*x), slots)?;
    }
    Ok(())
}

// Puts a number under each step that bound one of the variables, where there is room: some look-ups for each.
#[inline(always)]
fn put_under(users: &mut Users, binders: &Binders, xs: &[VarName], user: u32)
    requires { (m : ℕ) → BoundOneOf binders.now.held xs.now m → CanTake users.old m user }
    ensures room { (m : ℕ) → CanTake users.old m user → CanTake users.new m user }
    ensures users { (m n : ℕ) → IsUser users.new m n ↔ (IsUser users.old m n ⊎ (BoundOneOf binders.now.held xs.now m × (n ≡ user))) }
{
    for x in xs {
        users.put_at(binders.get(*x), user);
    }
}

// Takes a number from under each step that bound one of the variables: some look-ups for each.
fn take_from_under(users: &mut Users, binders: &Binders, xs: &[VarName], user: u32)
    ensures { (m n : ℕ) → IsUser users.new m n ↔ (IsUser users.old m n × ¬ (BoundOneOf binders.now.held xs.now m × (n ≡ user))) }
{
    for x in xs {
        users.take_at(binders.get(*x), user);
    }
}

// The number of the step that made the goal of this name, if one did, by the name.
#[inline(always)]
pub(crate) fn step_of_name(goal: Option<GoalName>) -> Option<u32>
    ensures { result ≡ step_named goal }
{
    match goal {
        Some(name) => Some(name.step),
        None => None,
    }
}

impl UseIndex {
    // Of no steps, which takes no memory.
    pub(crate) fn new(alloc: Global) -> UseIndex
        ensures users { result.users ≡ finite.empty }
        ensures binders { result.binders.held ≡ finite.empty }
    {
        UseIndex {
            users: Users::new(alloc),
            binders: Binders::new(alloc),
        }
    }

    // The numbers of the steps that used what the step of this number gave: one look-up.
    pub(crate) fn users_of(&self, step: u32) -> &[u32]
        ensures { result.now ≡ users_at self.now.users step }
    {
        self.users.at(step)
    }

    // The number of the step that bound the variable, if one did: one look-up.
    pub(crate) fn binder_of(&self, x: VarName) -> Option<u32>
        ensures { result ≡ finite.get self.now.binders.held x }
    {
        self.binders.get(x)
    }

    // Makes it an index of no steps.
    pub(crate) fn clear(&mut self)
        ensures users { self.new.users ≡ finite.empty }
        ensures binders { self.new.binders.held ≡ finite.empty }
    {
        let alloc = self.users.allocator();
        self.users = Users::new(alloc);
        self.binders = Binders::new(alloc);
    }

    // Makes room for a step, whose goal the maker made, if one did, of a record of so many slots: some look-ups for each variable
    // that it reads.
    fn reserve(&mut self, maker: Option<u32>, step: &Record, slots: usize) -> Result<(), AllocError>
        ensures users { (m : ℕ) → users_at self.new.users m ≡ users_at self.old.users m }
        ensures binders { self.new.binders.held ≡ self.old.binders.held }
        ensures taking { OnOk result ((m n : ℕ) → Gave self.old.binders.held maker step.now.effect.reads m → CanTake self.new.users m n) }
        ensures binding { OnOk result (finite.len step.now.effect.binds ≤ self.new.binders.room) }
        ensures users_kept { (m n : ℕ) → CanTake self.old.users m n → CanTake self.new.users m n }
        ensures binders_kept { self.old.binders.room ≤ self.new.binders.room }
    {
        let effect = step.effect();
        self.users.reserve_at(maker, slots)?;
        reserve_under(
            &mut self.users,
            &self.binders,
            effect.reads().members(),
            slots,
        )?;
        self.binders.reserve(effect.binds().len(), step.number())
    }

    // Puts a step in whose goal the maker made, if one did, where there is room: some look-ups for each variable that it reads,
    // and one for each that it binds.
    fn put(&mut self, maker: Option<u32>, step: &Record)
        requires taking { (m : ℕ) → Gave self.old.binders.held maker step.now.effect.reads m → CanTake self.old.users m step.now.number }
        requires binding { finite.len step.now.effect.binds ≤ self.old.binders.room }
        ensures room { (m : ℕ) → CanTake self.old.users m step.now.number → CanTake self.new.users m step.now.number }
        ensures users { (m n : ℕ) → IsUser self.new.users m n ↔ (IsUser self.old.users m n ⊎ (Gave self.old.binders.held maker step.now.effect.reads m × (n ≡ step.now.number))) }
        ensures binders { (y : VarName) → finite.get self.new.binders.held y ≡ if is_some (value_at step.now.effect.binds y) then Some step.now.number else finite.get self.old.binders.held y }
    {
        let number = step.number();
        let effect = step.effect();
        self.users.put_at(maker, number);
        put_under(
            &mut self.users,
            &self.binders,
            effect.reads().members(),
            number,
        );
        self.binders.put_all(effect.binds(), number);
    }

    // Takes a step out from under the steps that it used, but for those whose variables it names: some look-ups for each variable that
    // it read, and one for each that it bound.
    fn take_out(&mut self, step: &Record)
        ensures users { (m n : ℕ) → IsUser self.new.users m n ↔ ((IsUser self.old.users m n × ¬ (Gave self.old.binders.held (step_named step.now.goal) step.now.effect.reads m × (n ≡ step.now.number))) × (m ≢ step.now.number)) }
        ensures binders { (y : VarName) → finite.get self.new.binders.held y ≡ if is_some (value_at step.now.effect.binds y) then None else finite.get self.old.binders.held y }
    {
        let number = step.number();
        let effect = step.effect();
        self.users.take_at(step_of_name(step.goal()), number);
        take_from_under(
            &mut self.users,
            &self.binders,
            effect.reads().members(),
            number,
        );
        self.users.forget(number);
        self.binders.remove_all(effect.binds());
    }

    // Makes room for a step under each step before this place that made a variable that it names, at the cost of some look-ups for each.
    fn reserve_named(
        &mut self,
        slots: &Slots,
        before: usize,
        step: &Record,
    ) -> Result<(), AllocError>
        ensures users { (m : ℕ) → users_at self.new.users m ≡ users_at self.old.users m }
        ensures binders { self.new.binders ≡ self.old.binders }
        ensures room { OnOk result ((m n : ℕ) → MadeOneOf (held_before before slots.now.held) (variables_asked step.now.act) m → CanTake self.new.users m n) }
        ensures kept { (m n : ℕ) → CanTake self.old.users m n → CanTake self.new.users m n }
    {
        let named = step.act().variables();
        reserve_under_makers(&mut self.users, slots, before, named)
    }

    // Puts a step under each step before this place that made a variable that it names, where there is room: some look-ups for each.
    fn put_named(&mut self, slots: &Slots, before: usize, step: &Record)
        requires { (m : ℕ) → MadeOneOf (held_before before slots.now.held) (variables_asked step.now.act) m → CanTake self.old.users m step.now.number }
        ensures users { (m n : ℕ) → IsUser self.new.users m n ↔ (IsUser self.old.users m n ⊎ (MadeOneOf (held_before before slots.now.held) (variables_asked step.now.act) m × (n ≡ step.now.number))) }
        ensures binders { self.new.binders ≡ self.old.binders }
    {
        let number = step.number();
        let named = step.act().variables();
        put_under_makers(&mut self.users, slots, before, named, number);
    }

    // Takes a step from under each step before this place that made a variable that it names: some look-ups for each.
    fn take_named(&mut self, slots: &Slots, before: usize, step: &Record)
        ensures users { (m n : ℕ) → IsUser self.new.users m n ↔ (IsUser self.old.users m n × ¬ (MadeOneOf (held_before before slots.now.held) (variables_asked step.now.act) m × (n ≡ step.now.number))) }
        ensures binders { self.new.binders ≡ self.old.binders }
    {
        let number = step.number();
        let named = step.act().variables();
        take_from_under_makers(&mut self.users, slots, before, named, number);
    }

    // Puts the step that stands at this place in the index of those before it: some look-ups for each variable that it read or
    // names, and one for each that it bound.
    pub(crate) fn add(
        &mut self,
        slots: &Slots,
        place: usize,
        step: &Record,
    ) -> Result<(), AllocError>
        requires index { IsIndexOf (held_before place slots.now.held) self.old.users self.old.binders.held }
        requires there { StandsIn slots.now.held place step.now }
        requires bound_once { BoundOnce (held_in slots.now.held) }
        ensures ok { OnOk result (IsIndexOf (held_before (place + 1) slots.now.held) self.new.users self.new.binders.held) }
        ensures err { OnErr result (IsIndexOf (held_before place slots.now.held) self.new.users self.new.binders.held) }
    {
        let _count = slots.len();
        let named = step_of_name(step.goal());
        self.reserve(named, step, slots.slot_count())?;
        self.reserve_named(slots, place, step)?;
        let maker = maker_for(slots, place, step);
        self.put(maker, step);
        self.put_named(slots, place, step);
        Ok(())
    }

    // Takes a step out of the index of a record, of which these slots have the others: some look-ups for each variable that it read or
    // names, and one for each that it bound.
    pub(crate) fn remove(&mut self, slots: &Slots, step: &Record)
        ensures { (rs : List record_spec) → IsIndexOf rs self.old.users self.old.binders.held → In step.now rs → AreDistinct (numbers rs) → Picks (λ r. ¬ (r ≡ step.now)) rs (held_in slots.now.held)
            → IsIndexOf (held_in slots.now.held) self.new.users self.new.binders.held }
    {
        self.take_out(step);
        self.take_named(slots, slots.slot_count(), step);
    }
}
