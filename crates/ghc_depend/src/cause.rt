// Why a step depends directly on an earlier one.
ghost use Rattle.std.specs.Prelude.{◌≡◌, ◌≢◌, ◌↔◌, slice_get, Some, IsTrue, IfSome, IfNone};
ghost use Rattle.ghc_term.specs.declared.var_name.VarName.{VarName};
ghost use Rattle.ghc_records.specs.Record.{Record};
ghost use Rattle.ghc_records.specs.inner.Slots.{StandsIn};
ghost use Rattle.ghc_depend.specs.Depend.{MakesGoal, MakesVariable, Consumes, Binds, ReadsFrom, NamesFrom, IsKeptAs, Uses};
ghost use Rattle.ghc_depend.specs.Cause.{CanWait, WasThereBefore, IsBoundBehind, ReadsBehind, IsWokenBy, IsLeastRead, IsLeastNamed, IsDirect};
ghost use Rattle.ghc_depend.specs.inner.Sources.{AreLeastReads, AreSources};

use crate::sources::{Sources, lesser};
use ghc_fire::Act;
use ghc_records::{Record, Records};
use ghc_term::{GoalName, VarName};

/// Why a step depends directly on an earlier one.
#[derive(Clone, Copy, Drop, Debug, PartialEq, Eq)]
pub enum Cause {
    /// The earlier step made the goal that the later one consumed.
    Made,
    /// The later step read a variable that the earlier one bound, which may have woken its goal.
    Read { variable: VarName, woke: bool },
    /// The later step names a variable that the earlier one made.
    Named { variable: VarName },
}

// Whether the goal is one that the step made.
pub(crate) fn makes_goal(maker: &Record, name: GoalName) -> bool
    ensures { IsTrue result ↔ MakesGoal maker.now name }
{
    name.step == maker.number()
        && 1 <= name.place
        && name.place as usize <= maker.effect().makes().len()
}

// Whether the later step consumed a goal that the earlier one made.
fn consumes(later: &Record, earlier: &Record) -> bool
    ensures { IsTrue result ↔ Consumes later.now earlier.now }
{
    match later.goal() {
        Some(name) => makes_goal(earlier, name),
        None => false,
    }
}

// Whether the step bound the variable: one look-up.
fn binds(binder: &Record, x: VarName) -> bool
    ensures { IsTrue result ↔ Binds binder.now x }
{
    binder.effect().binds().get(x).is_some()
}

// The least variable that the later step read and the earlier one bound: one look-up for each that it read.
fn least_read(later: &Record, earlier: &Record) -> Option<VarName>
    ensures some { IfSome result (IsLeastRead later.now earlier.now) }
    ensures none { IfNone result ((x : VarName) → ¬ ReadsFrom later.now earlier.now x) }
{
    let mut least = None;
    for x in later.effect().reads().members() {
        if binds(earlier, *x) {
            least = Some(lesser(least, *x));
        }
    }
    least
}

// Whether the later step read a variable that the earlier one bound: one look-up for each that it read.
fn reads_from(later: &Record, earlier: &Record) -> bool
    ensures { IsTrue result ↔ ((x : VarName) × ReadsFrom later.now earlier.now x) }
{
    for x in later.effect().reads().members() {
        if binds(earlier, *x) {
            return true;
        }
    }
    false
}

// Whether the later step names the variable of its goals, which the earlier one made.
fn names(later: &Record, earlier: &Record, x: VarName) -> bool
    ensures { IsTrue result ↔ ((x.step ≢ later.now.number) × MakesVariable earlier.now x) }
{
    x.step != later.number()
        && x.step == earlier.number()
        && 1 <= x.place
        && x.place <= earlier.effect().fresh()
}

// The least variable that the later step names and the earlier one made: one step for each variable of its goals.
fn least_named(later: &Record, earlier: &Record) -> Option<VarName>
    ensures some { IfSome result (IsLeastNamed later.now earlier.now) }
    ensures none { IfNone result ((x : VarName) → ¬ NamesFrom later.now earlier.now x) }
{
    let mut least = None;
    for name in later.act().variables() {
        if names(later, earlier, *name) {
            least = Some(lesser(least, *name));
        }
    }
    least
}

// Whether the later step names a variable that the earlier one made: one step for each variable of its goals.
fn names_from(later: &Record, earlier: &Record) -> bool
    ensures { IsTrue result ↔ ((x : VarName) × NamesFrom later.now earlier.now x) }
{
    for x in later.act().variables() {
        if names(later, earlier, *x) {
            return true;
        }
    }
    false
}

/// Whether the later step used a goal, a binding or a variable of the earlier one: one look-up for each variable that it read.
pub(crate) fn uses(later: &Record, earlier: &Record) -> bool
    ensures { IsTrue result ↔ Uses later.now earlier.now }
{
    consumes(later, earlier) || reads_from(later, earlier) || names_from(later, earlier)
}

// Whether the act is one whose goal can have waited.
fn can_wait(act: &Act) -> bool
    ensures { IsTrue result ↔ CanWait act.now }
{
    match act {
        Act::ByClause(_) | Act::Assigned => true,
        Act::Unified | Act::Given(_) | Act::Closed | Act::Asked(_) => false,
    }
}

// Whether the goal that the later step consumed was made before the step at this place: one look-up.
fn was_there_before(records: &Records, later: &Record, place: usize) -> bool
    ensures { (a : Record) → StandsIn records.now.slots place a → (IsTrue result ↔ WasThereBefore records.now.held later.now a) }
{
    let _count = records.len();
    let Some(name) = later.goal() else {
        return true;
    };
    let Some(made) = records.place_of(name.step) else {
        return true;
    };
    if !makes_goal(records.at(made).unwrap(), name) {
        return true;
    }
    made < place
}

// Says whether the step that bound the variable, if one did, stands after this place: two look-ups.
fn is_bound_behind(records: &Records, x: VarName, place: usize) -> bool
    ensures { (a : Record) → StandsIn records.now.slots place a → (IsTrue result ↔ IsBoundBehind records.now.held a x) }
{
    let _count = records.len();
    let Some(binder) = records.binder_of(x) else {
        return false;
    };
    match records.place_of(binder) {
        Some(behind) => place < behind,
        None => false,
    }
}

// Says whether the later step read a variable that a step after this place bound: two look-ups for each that it read.
fn reads_behind(records: &Records, later: &Record, place: usize) -> bool
    ensures { (a : Record) → StandsIn records.now.slots place a → (IsTrue result ↔ ReadsBehind records.now.held later.now a) }
{
    for x in later.effect().reads().members() {
        if is_bound_behind(records, *x, place) {
            return true;
        }
    }
    false
}

// Whether the step at this place woke the goal of the later one: one look-up, and two for each variable that the later step read.
fn is_woken_by(records: &Records, later: &Record, place: usize) -> bool
    ensures { (a : Record) → StandsIn records.now.slots place a → (IsTrue result ↔ IsWokenBy records.now.held later.now a) }
{
    can_wait(later.act())
        && was_there_before(records, later, place)
        && !reads_behind(records, later, place)
}

/// Why the step numbered `later` depends directly on the one numbered `earlier`, if it does: for a goal that it made, and else for
/// the least variable. None where one of them is not kept. It costs two look-ups, and one for each variable that the later step
/// read; the mark `woke` costs one more, and two for each variable.
pub fn direct(records: &Records, later: u32, earlier: u32) -> Option<Cause>
    ensures { IsDirect records.now.held later earlier result }
{
    let _count = records.len();
    let place = records.place_of(earlier)?;
    let behind = records.place_of(later)?;
    if behind <= place {
        return None;
    }
    let maker = records.at(place).unwrap();
    let taken = records.at(behind).unwrap();
    if consumes(taken, maker) {
        let cause = Cause::Made;
        return Some(cause);
    }
    if let Some(variable) = least_read(taken, maker) {
        let woke = is_woken_by(records, taken, place);
        let cause = Cause::Read { variable, woke };
        return Some(cause);
    }
    let variable = least_named(taken, maker)?;
    Some(Cause::Named { variable })
}

// Says whether the step at this place woke the goal of the later one, by what that read: some look-ups. Where no step after this one
// bound anything that the later step read, it goes once over all of that, so for one of the places at most.
fn woke(records: &Records, sources: &Sources, later: &Record, place: usize) -> bool
    requires { AreLeastReads records.now.slots later.now sources.now.reads }
    ensures { (a : Record) → StandsIn records.now.slots place a → (IsTrue result ↔ IsWokenBy records.now.held later.now a) }
{
    let _count = records.len();
    if let Some((last, _)) = sources.reads.last_key_value() {
        if place < *last {
            return false;
        }
    }
    is_woken_by(records, later, place)
}

/// Why the step numbered `later`, of which these are the sources, depends directly on the one numbered `earlier`, if it does: for a
/// goal that it made, and else for the least variable. None where one of them is not kept. It costs some look-ups; for one of the
/// earlier steps also two for each variable that the later step read.
pub fn direct_by_sources(
    records: &Records,
    sources: &Sources,
    later: u32,
    earlier: u32,
) -> Option<Cause>
    requires { (b : Record) → IsKeptAs records.now.held later b → AreSources records.now.slots b sources.now }
    ensures { IsDirect records.now.held later earlier result }
{
    let _count = records.len();
    let place = records.place_of(earlier)?;
    let behind = records.place_of(later)?;
    if behind <= place {
        return None;
    }
    let maker = records.at(place).unwrap();
    let taken = records.at(behind).unwrap();
    if consumes(taken, maker) {
        return Some(Cause::Made);
    }
    if let Some(variable) = sources.reads.get(&place).copied() {
        let woke = woke(records, sources, taken, place);
        return Some(Cause::Read { variable, woke });
    }
    let variable = sources.names.get(&place).copied()?;
    Some(Cause::Named { variable })
}
