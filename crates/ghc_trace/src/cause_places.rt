// The places of the steps on which a kept step depends directly.
ghost use Rattle.std.specs.Prelude.{◌≡◌, ◌⊎◌, ◌↔◌, ◌<◌, ℕ, OnOk, Some};
ghost use Rattle.ghc_term.specs.declared.var_name.VarName.{VarName as var_name};
ghost use Rattle.ghc_term.specs.declared.goal_name.GoalName.{GoalName as goal_name};
ghost use Rattle.ghc_term.specs.Lists.{In};
ghost use Rattle.ghc_records.specs.inner.Slots.{StandsIn};
ghost use Rattle.ghc_records.specs.Uses.{Binds, MakesGoal, MakesVariable, Uses};
ghost use Rattle.ghc_trace.specs.Causes.{HasInFront};

use ghc_depend::{place_of_binder, place_of_goal_maker, place_of_maker};
use ghc_records::{Record, Records};
use ghc_term::{GoalName, VarName};
use std::alloc::AllocError;
use std::collections::BTreeSet;

// Adds what was found, if it is in front of the place.
fn add_in_front(
    places: &mut BTreeSet<usize>,
    found: Option<usize>,
    place: usize,
) -> Result<(), AllocError>
    ensures { OnOk result ((p : ℕ) → In p places.new.keys ↔ (In p places.old.keys ⊎ ((p < place) × (found ≡ Some p)))) }
{
    let Some(one) = found else {
        return Ok(());
    };
    if place <= one {
        return Ok(());
    }
    match places.insert(one) {
        Ok(_) => Ok(()),
        Err(_) => Err(AllocError),
    }
}

// Adds the place of the step that made the goal, if one did: one look-up.
fn add_goal_maker(
    places: &mut BTreeSet<usize>,
    records: &Records,
    goal: Option<GoalName>,
    place: usize,
) -> Result<(), AllocError>
    ensures { OnOk result (HasInFront records.now.slots place (λ a. (g : goal_name) × (goal ≡ Some g) × MakesGoal a g) places.old.keys places.new.keys) }
{
    match goal {
        Some(name) => add_in_front(places, place_of_goal_maker(records, name), place),
        None => Ok(()),
    }
}

/// Adds the places of the steps that bound these variables: two look-ups for each.
pub(crate) fn add_binders(
    places: &mut BTreeSet<usize>,
    records: &Records,
    xs: &[VarName],
    place: usize,
) -> Result<(), AllocError>
    ensures { OnOk result (HasInFront records.now.slots place (λ a. (x : var_name) × In x xs.now × Binds a x) places.old.keys places.new.keys) }
{
    for x in xs {
        add_in_front(places, place_of_binder(records, *x), place)?;
    }
    Ok(())
}

// Adds the places of the steps that made these variables: one look-up for each.
fn add_makers(
    places: &mut BTreeSet<usize>,
    records: &Records,
    xs: &[VarName],
    place: usize,
) -> Result<(), AllocError>
    ensures { OnOk result (HasInFront records.now.slots place (λ a. (x : var_name) × In x xs.now × MakesVariable a x) places.old.keys places.new.keys) }
{
    for x in xs {
        add_in_front(places, place_of_maker(records, *x), place)?;
    }
    Ok(())
}

/// Adds the places of the steps on which the step at this place depends directly: a look-up for its goal, and for each variable
/// that it read or names.
pub(crate) fn add_causes(
    places: &mut BTreeSet<usize>,
    records: &Records,
    step: &Record,
    place: usize,
) -> Result<(), AllocError>
    requires { StandsIn records.now.slots place step.now }
    ensures { OnOk result (HasInFront records.now.slots place (Uses step.now) places.old.keys places.new.keys) }
{
    let _count = records.len();
    add_goal_maker(places, records, step.goal(), place)?;
    add_binders(places, records, step.effect().reads().members(), place)?;
    add_makers(places, records, step.act().variables(), place)
}
