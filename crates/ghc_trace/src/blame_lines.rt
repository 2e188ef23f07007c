// The lines that tell of a call of a slice. Where one is refused, what `write_..` writes may be a part of its text.
ghost use Rattle.std.specs.Prelude.{◌≡◌, ◌⊎◌, ◌↔◌, ◌≤◌, ◌++◌, ℕ, List, Option, Some, IfErr, IsTrue, OnOk, codes, length, string_bytes};
ghost use Rattle.std.specs.Fmt.{decimal};
ghost use Rattle.std.specs.Io.{StartsWith};
ghost use Rattle.ghc_term.specs.Goal.{Goal as goal_spec};
ghost use Rattle.ghc_term.specs.Lists.{In};
ghost use Rattle.ghc_records.specs.Record.{Record as record_spec, State};
ghost use Rattle.ghc_records.specs.StepText.{goal_name_text};
ghost use Rattle.ghc_trace.specs.BlameLines.{AreMadeGoals, TellsCallOf, TellsLeft, TellsMadeGoal, only};
ghost use Rattle.ghc_trace.specs.GoalLines.{IsTooLong};
ghost use Rattle.ghc_trace.specs.Laws.{IsSettled};
ghost use Rattle.ghc_trace.specs.PartLines.{IsShown, TellsGiven};
ghost use Rattle.ghc_trace.specs.inner.BlameCode.{StandsAtPlace};
ghost use Rattle.ghc_trace.specs.inner.BlameLinesCode.{AreGoalsOf, HasFate, HasTooLongCall, HasTooLongGoal, IsAbout, IsAboutSlice, IsCallNamed, IsGoalOf, IsTakerOf, TellsCallGiven};

use crate::descent::descends;
use crate::part_lines::{write_as_made, write_given, write_goal, write_standing};
use crate::slice_calls::{Call, Calls, is_call};
use ghc_core::Core;
use ghc_records::push_goal_name;
use ghc_term::{Fault, Goal, GoalName, Limit, Store, push_number};
use std::alloc::{AllocError, Global};

/// What is told of: the steps of a slice by their numbers, the store that they leave, their calls, and the goal asked about.
#[derive(Clone, Copy)]
pub(crate) struct Told<'a> {
    pub(crate) core: &'a Core,
    pub(crate) steps: &'a [u32],
    pub(crate) store: &'a Store,
    pub(crate) calls: &'a Calls,
    pub(crate) target: Option<GoalName>,
}

// Whether this is the goal asked about.
fn is_target(told: &Told, name: GoalName) -> bool
    ensures { IsTrue result ↔ (told.now.target ≡ Some name) }
{
    let Some(target) = told.target else {
        return false;
    };
    target == name
}

// Writes how a call went on that a step of the slice made, and the call: a step of the slice took it, or none did.
fn write_fate(
    alloc: Global,
    told: &Told,
    name: GoalName,
    goal: &Goal,
    out: &mut String,
) -> Result<(), Fault>
    ensures text { OnOk result ((word : List ℕ) × (text : List ℕ) × HasFate told.now.calls.now.list.items name word × IsShown told.now.store.now.held goal.now text × (string_bytes out.new ≡ string_bytes out.old ++ (word ++ (text ++ codes "\n")))) }
    ensures begun { StartsWith (string_bytes out.new) (string_bytes out.old) }
    ensures refused { IfErr result (λ fault. (fault ≡ Fault.Memory) ⊎ (fault ≡ Fault.Limit Limit.Print)) }
    ensures too_long { result ≡ Err (Fault.Limit Limit.Print) → IsTooLong told.now.store.now.held goal.now }
{
    match told.calls.place_of(name) {
        Some(_) => write_goal(alloc, " gave ", goal, told.store, out),
        None => write_goal(alloc, " stands ", goal, told.store, out),
    }
}

// Writes the line of the goal of this name, which the query has or a step of the slice made.
fn write_made(
    alloc: Global,
    told: &Told,
    name: GoalName,
    goal: &Goal,
    out: &mut String,
) -> Result<(), Fault>
    ensures text { OnOk result ((rs : List record_spec) (t : State) → IsAbout told.now rs t → IsGoalOf told.now.core.now.world.opening.query rs name goal.now
        → (line : List ℕ) × TellsMadeGoal (only told.now.core.now.world rs t) told.now.target name goal.now line × (string_bytes out.new ≡ string_bytes out.old ++ line)) }
    ensures begun { StartsWith (string_bytes out.new) (string_bytes out.old) }
    ensures refused { IfErr result (λ fault. (fault ≡ Fault.Memory) ⊎ (fault ≡ Fault.Limit Limit.Print)) }
    ensures too_long { result ≡ Err (Fault.Limit Limit.Print) → IsTooLong told.now.store.now.held goal.now }
{
    push_goal_name(name, out)?;
    if is_target(told, name) {
        return write_goal(alloc, " left ", goal, told.store, out);
    }
    if is_call(goal) {
        return write_fate(alloc, told, name, goal, out);
    }
    Ok(write_as_made(goal, out)?)
}

/// Writes a line for each of the goals, which the query has or the step of this number made, by place.
pub(crate) fn write_all_made(
    alloc: Global,
    told: &Told,
    step: u32,
    goals: &[Goal],
    out: &mut String,
) -> Result<(), Fault>
    requires { length goals.now ≤ 4294967295 }
    ensures text { OnOk result ((rs : List record_spec) (t : State) → IsAbout told.now rs t → AreGoalsOf told.now.core.now.world.opening.query rs step goals.now
        → (text : List ℕ) × AreMadeGoals (only told.now.core.now.world rs t) told.now.target step goals.now text × (string_bytes out.new ≡ string_bytes out.old ++ text)) }
    ensures begun { StartsWith (string_bytes out.new) (string_bytes out.old) }
    ensures refused { IfErr result (λ fault. (fault ≡ Fault.Memory) ⊎ (fault ≡ Fault.Limit Limit.Print)) }
    ensures too_long { result ≡ Err (Fault.Limit Limit.Print) → (b : goal_spec) × In b goals.now × IsTooLong told.now.store.now.held b }
{
    for index in 0..goals.len() {
        let goal = &goals[index];
        let name = GoalName {
            step,
            place: index as u32 + 1,
        };
        match write_made(alloc, told, name, goal, out) {
            Ok(()) => {}
            Err(fault) => return Err(fault),
        }
    }
    Ok(())
}

// Writes that the goal asked about descends from the call of this name, and its status, if it does.
fn write_left(told: &Told, name: GoalName, out: &mut String) -> Result<(), AllocError>
    requires settled { IsSettled told.now.core.now.world told.now.core.now.notes }
    requires told { IsAboutSlice told.now }
    ensures text { OnOk result ((rs : List record_spec) (t : State) → IsAbout told.now rs t
        → (line : List ℕ) × TellsLeft told.now.core.now.world rs told.now.target name line × (string_bytes out.new ≡ string_bytes out.old ++ line)) }
    ensures begun { StartsWith (string_bytes out.new) (string_bytes out.old) }
{
    let Some(target) = told.target else {
        return Ok(());
    };
    told.core.stands();
    if !descends(told.core, target, name) {
        return Ok(());
    }
    let goal = told.core.goals().get(target).unwrap();
    out.push_str("left ")?;
    write_standing(told.core, target, goal, out)
}

// Writes what the goal of this name was given, where just the steps of the slice are kept.
fn write_given_here(
    alloc: Global,
    told: &Told,
    name: GoalName,
    goal: &Goal,
    out: &mut String,
) -> Result<(), Fault>
    requires { IsAboutSlice told.now }
    ensures text { OnOk result ((rs : List record_spec) (t : State) → IsAbout told.now rs t
        → (given : List ℕ) × TellsGiven (only told.now.core.now.world rs t) name goal.now given × (string_bytes out.new ≡ string_bytes out.old ++ given)) }
    ensures begun { StartsWith (string_bytes out.new) (string_bytes out.old) }
    ensures refused { IfErr result (λ fault. (fault ≡ Fault.Memory) ⊎ (fault ≡ Fault.Limit Limit.Print)) }
    ensures too_long { result ≡ Err (Fault.Limit Limit.Print) → (rs : List record_spec) (t : State) → IsAbout told.now rs t → HasTooLongGoal rs t name goal.now }
{
    write_given(
        alloc,
        told.core.records(),
        told.steps,
        told.store,
        name,
        goal,
        out,
    )
}

// Writes what the call of this name was given that a step of the slice took, and what it gave.
fn write_taken(
    alloc: Global,
    told: &Told,
    name: GoalName,
    goal: &Goal,
    out: &mut String,
) -> Result<(), Fault>
    requires { IsAboutSlice told.now }
    ensures text { OnOk result ((rs : List record_spec) (t : State) → IsAbout told.now rs t → (given : List ℕ) × (shown : List ℕ)
        × TellsGiven (only told.now.core.now.world rs t) name goal.now given × IsShown t.store goal.now shown
        × (string_bytes out.new ≡ string_bytes out.old ++ (given ++ (codes "gave " ++ (shown ++ codes "\n"))))) }
    ensures begun { StartsWith (string_bytes out.new) (string_bytes out.old) }
    ensures refused { IfErr result (λ fault. (fault ≡ Fault.Memory) ⊎ (fault ≡ Fault.Limit Limit.Print)) }
    ensures too_long { result ≡ Err (Fault.Limit Limit.Print) → (rs : List record_spec) (t : State) → IsAbout told.now rs t → HasTooLongGoal rs t name goal.now }
{
    match write_given_here(alloc, told, name, goal, out) {
        Ok(()) => {}
        Err(fault) => return Err(fault),
    }
    write_goal(alloc, "gave ", goal, told.store, out)
}

// The goal that the call is: the one that the step took which took it, or the goal asked about.
fn goal_of<'a>(told: &'a Told, call: &Call) -> &'a Goal
    requires told { IsAboutSlice told.now }
    requires call { (i : ℕ) × StandsAtPlace told.now.calls.now.list.items i call.now }
    ensures { (rs : List record_spec) (t : State) → IsAbout told.now rs t → IsCallNamed rs t told.now.target call.now result.now }
{
    match call.taker {
        Some(number) => {
            let records = told.core.records();
            let _count = records.len();
            let step = records.get(number).unwrap();
            step.consumed().unwrap()
        }
        None => told.core.goals().get(call.name).unwrap(),
    }
}

// Writes what the call was given, and what it gave, if a step of the slice took it.
fn write_call_given(
    alloc: Global,
    told: &Told,
    call: &Call,
    goal: &Goal,
    out: &mut String,
) -> Result<(), Fault>
    requires { IsAboutSlice told.now }
    ensures text { OnOk result ((rs : List record_spec) (t : State) → IsAbout told.now rs t → (text : List ℕ) × TellsCallGiven told.now.core.now.world rs t call.now goal.now text
        × (string_bytes out.new ≡ string_bytes out.old ++ text)) }
    ensures begun { StartsWith (string_bytes out.new) (string_bytes out.old) }
    ensures refused { IfErr result (λ fault. (fault ≡ Fault.Memory) ⊎ (fault ≡ Fault.Limit Limit.Print)) }
    ensures too_long { result ≡ Err (Fault.Limit Limit.Print) → (rs : List record_spec) (t : State) → IsAbout told.now rs t → HasTooLongGoal rs t call.now.name goal.now }
{
    match call.taker {
        Some(_) => write_taken(alloc, told, call.name, goal, out),
        None => write_given_here(alloc, told, call.name, goal, out),
    }
}

/// Writes what the call was given, what it gave, if a step of the slice took it, and how the goal asked about was left, if that descends
/// from it.
pub(crate) fn write_call_told(
    alloc: Global,
    told: &Told,
    call: &Call,
    out: &mut String,
) -> Result<(), Fault>
    requires settled { IsSettled told.now.core.now.world told.now.core.now.notes }
    requires told { IsAboutSlice told.now }
    requires call { (i : ℕ) × StandsAtPlace told.now.calls.now.list.items i call.now }
    ensures text { OnOk result ((rs : List record_spec) (t : State) → IsAbout told.now rs t → (taker : Option record_spec) × (lines : List ℕ) × IsTakerOf rs call.now.taker taker
        × TellsCallOf told.now.core.now.world rs t told.now.target call.now.name taker lines × (string_bytes out.new ≡ string_bytes out.old ++ lines)) }
    ensures begun { StartsWith (string_bytes out.new) (string_bytes out.old) }
    ensures refused { IfErr result (λ fault. (fault ≡ Fault.Memory) ⊎ (fault ≡ Fault.Limit Limit.Print)) }
    ensures too_long { result ≡ Err (Fault.Limit Limit.Print) → (rs : List record_spec) (t : State) → IsAbout told.now rs t → HasTooLongCall rs t call.now.name }
{
    let goal = goal_of(told, call);
    match write_call_given(alloc, told, call, goal, out) {
        Ok(()) => {}
        Err(fault) => return Err(fault),
    }
    Ok(write_left(told, call.name, out)?)
}

// Writes which call is asked about, of so many in question.
fn write_ask(name: GoalName, count: u32, out: &mut String) -> Result<(), AllocError>
    ensures text { OnOk result (string_bytes out.new ≡ string_bytes out.old ++ (codes "ask " ++ (goal_name_text name ++ (codes " of " ++ (decimal count ++ codes "\n"))))) }
    ensures begun { StartsWith (string_bytes out.new) (string_bytes out.old) }
{
    out.push_str("ask ")?;
    push_goal_name(name, out)?;
    out.push_str(" of ")?;
    push_number(count, out)?;
    out.push_str("\n")
}

/// Writes the question about the call, of so many in question.
pub(crate) fn write_question(
    alloc: Global,
    told: &Told,
    call: &Call,
    count: usize,
    out: &mut String,
) -> Result<(), Fault>
    requires settled { IsSettled told.now.core.now.world told.now.core.now.notes }
    requires told { IsAboutSlice told.now }
    requires call { (i : ℕ) × StandsAtPlace told.now.calls.now.list.items i call.now }
    requires few { count ≤ 4294967295 }
    ensures text { OnOk result ((rs : List record_spec) (t : State) → IsAbout told.now rs t → (taker : Option record_spec) × (lines : List ℕ)
        × TellsCallOf told.now.core.now.world rs t told.now.target call.now.name taker lines
        × (string_bytes out.new ≡ string_bytes out.old ++ (lines ++ (codes "ask " ++ (goal_name_text call.now.name ++ (codes " of " ++ (decimal count ++ codes "\n"))))))) }
    ensures begun { StartsWith (string_bytes out.new) (string_bytes out.old) }
    ensures refused { IfErr result (λ fault. (fault ≡ Fault.Memory) ⊎ (fault ≡ Fault.Limit Limit.Print)) }
    ensures too_long { result ≡ Err (Fault.Limit Limit.Print) → (rs : List record_spec) (t : State) → IsAbout told.now rs t → HasTooLongCall rs t call.now.name }
{
    match write_call_told(alloc, told, call, out) {
        Ok(()) => {}
        Err(fault) => return Err(fault),
    }
    Ok(write_ask(call.name, count as u32, out)?)
}
