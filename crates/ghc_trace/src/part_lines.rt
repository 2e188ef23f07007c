// The lines that tell what a call was given, and what it gave. Where one is refused, what `write_..` writes may be a part of its text.
ghost use Rattle.std.specs.Prelude.{◌≡◌, ◌++◌, ◌⊎◌, ◌<◌, ◌+◌, ℕ, List, Some, IfErr, IfNone, IfSome, OnErr, OnOk, codes, length, option_copied, slice_get, string_bytes};
ghost use Rattle.std.specs.FinMap as finite;
ghost use Rattle.std.specs.Io.{StartsWith};
ghost use Rattle.ghc_term.specs.declared.goal_name.GoalName.{GoalName as goal_name};
ghost use Rattle.ghc_term.specs.Goal.{Goal as goal_spec, call};
ghost use Rattle.ghc_term.specs.Lists.{In};
ghost use Rattle.ghc_term.specs.Store.{StoreValue};
ghost use Rattle.ghc_term.specs.Tree.{Tree};
ghost use Rattle.ghc_records.specs.Record.{Record as record_spec};
ghost use Rattle.ghc_depend.specs.Depend.{IsKeptAs};
ghost use Rattle.ghc_core.specs.World.{World};
ghost use Rattle.ghc_trace.specs.GoalLines.{IsTooLong};
ghost use Rattle.ghc_trace.specs.Laws.{IsSettled};
ghost use Rattle.ghc_trace.specs.PartLines.{AreMadeLines, HasTooLongText, IsShown, TellsCall, TellsGave, TellsGiven, TellsMade, TellsStatus, asked_lines};
ghost use Rattle.ghc_trace.specs.Parts.{IsStoreGiven};
ghost use Rattle.ghc_trace.specs.inner.PartsCode.{IsPartOf, IsTakenOrThere, IsWorldOf, fate_word, turns_text};
ghost use Rattle.ghc_term.specs.GoalText.{goal_text};

use crate::call_given::{follows_part, given_variables, store_of};
use crate::goal_lines::write_status;
use crate::goal_parts::{Part, part_among, whole_part};
use ghc_core::Core;
use ghc_records::{Record, Records, push_goal_name, push_step};
use ghc_term::{
    Fault, Goal, GoalName, GoalView, Limit, Store, end_of, or_cut_back, print_goal,
    push_goal_written, push_number,
};
use std::alloc::{AllocError, Global};

// Writes a word, and the goal with its variables replaced by what they lead to in the store, as a line.
pub(crate) fn write_goal(
    alloc: Global,
    word: &str,
    goal: &Goal,
    store: &Store,
    out: &mut String,
) -> Result<(), Fault>
    ensures text { OnOk result ((text : List ℕ) × IsShown store.now.held goal.now text × (string_bytes out.new ≡ string_bytes out.old ++ (word.now ++ (text ++ codes "\n")))) }
    ensures begun { StartsWith (string_bytes out.new) (string_bytes out.old) }
    ensures refused { IfErr result (λ fault. (fault ≡ Fault.Memory) ⊎ (fault ≡ Fault.Limit Limit.Print)) }
    ensures too_long { result ≡ Err (Fault.Limit Limit.Print) → IsTooLong store.now.held goal.now }
{
    let text = print_goal(alloc, goal, store)?;
    out.push_str(word)?;
    out.push_str(text.as_str())?;
    out.push_str("\n")?;
    Ok(())
}

// Writes a line for each of the asks of these numbers.
fn write_asks(numbers: &[u32], out: &mut String) -> Result<(), AllocError>
    ensures text { OnOk result (string_bytes out.new ≡ string_bytes out.old ++ asked_lines numbers.now) }
    ensures begun { StartsWith (string_bytes out.new) (string_bytes out.old) }
{
    for number in numbers {
        out.push_str("asked ")?;
        push_number(*number, out)?;
        out.push_str("\n")?;
    }
    Ok(())
}

// Writes that a call went in turns, if it did.
fn write_turns(in_turns: bool, out: &mut String) -> Result<(), AllocError>
    ensures text { OnOk result (string_bytes out.new ≡ string_bytes out.old ++ turns_text in_turns) }
    ensures begun { StartsWith (string_bytes out.new) (string_bytes out.old) }
{
    if !in_turns {
        return Ok(());
    }
    out.push_str("in turns\n")
}

// Writes what the goal was given, where this is its part.
fn write_given_to(
    alloc: Global,
    records: &Records,
    part: &Part,
    store: &Store,
    goal: &Goal,
    out: &mut String,
) -> Result<(), Fault>
    ensures text { OnOk result ((v : World) (ns : List ℕ) (g : goal_name) → IsWorldOf records.now.held ns store.now.held v → IsPartOf v.kept g part.now.steps.keys part.now.asks.items
        → (text : List ℕ) × TellsGiven v g goal.now text × (string_bytes out.new ≡ string_bytes out.old ++ text)) }
    ensures begun { StartsWith (string_bytes out.new) (string_bytes out.old) }
    ensures refused { IfErr result (λ fault. (fault ≡ Fault.Memory) ⊎ (fault ≡ Fault.Limit Limit.Print)) }
    ensures too_long { result ≡ Err (Fault.Limit Limit.Print) → (v : World) (ns : List ℕ) (g : goal_name) → IsWorldOf records.now.held ns store.now.held v → IsPartOf v.kept g part.now.steps.keys part.now.asks.items
        → (given : StoreValue) × IsStoreGiven v.kept v.state g goal.now given × IsTooLong given goal.now }
{
    let _count = records.len();
    let given = given_variables(alloc, records, store, &part.steps, goal)?;
    let known = store_of(alloc, store, given.as_slice())?;
    let in_turns = follows_part(alloc, records, &part.steps, given.as_slice())?;
    match write_goal(alloc, "given ", goal, &known, out) {
        Ok(()) => {}
        Err(fault) => return Err(fault),
    }
    write_asks(part.asks.as_slice(), out)?;
    write_turns(in_turns, out)?;
    Ok(())
}

// Writes what the goal of this name was given where just the steps of these numbers are kept, which left the store.
pub(crate) fn write_given(
    alloc: Global,
    records: &Records,
    steps: &[u32],
    store: &Store,
    name: GoalName,
    goal: &Goal,
    out: &mut String,
) -> Result<(), Fault>
    requires { (n : ℕ) → In n steps.now → (r : record_spec) × IsKeptAs records.now.held n r }
    ensures text { OnOk result ((v : World) → IsWorldOf records.now.held steps.now store.now.held v → (text : List ℕ) × TellsGiven v name goal.now text × (string_bytes out.new ≡ string_bytes out.old ++ text)) }
    ensures begun { StartsWith (string_bytes out.new) (string_bytes out.old) }
    ensures refused { IfErr result (λ fault. (fault ≡ Fault.Memory) ⊎ (fault ≡ Fault.Limit Limit.Print)) }
    ensures too_long { result ≡ Err (Fault.Limit Limit.Print) → (v : World) → IsWorldOf records.now.held steps.now store.now.held v → (given : StoreValue) × IsStoreGiven v.kept v.state name goal.now given × IsTooLong given goal.now }
{
    let part = part_among(alloc, records, steps, name)?;
    write_given_to(alloc, records, &part, store, goal, out)
}

// Writes what the goal of this name was given by kept steps, where this one took it, if one did.
fn write_given_by_all(
    alloc: Global,
    core: &Core,
    name: GoalName,
    goal: &Goal,
    taker: Option<&Record>,
    out: &mut String,
) -> Result<(), Fault>
    requires { IsTakenOrThere core.now.world name goal.now (option_copied taker) }
    ensures text { OnOk result ((text : List ℕ) × TellsGiven core.now.world name goal.now text × (string_bytes out.new ≡ string_bytes out.old ++ text)) }
    ensures begun { StartsWith (string_bytes out.new) (string_bytes out.old) }
    ensures refused { IfErr result (λ fault. (fault ≡ Fault.Memory) ⊎ (fault ≡ Fault.Limit Limit.Print)) }
    ensures too_long { result ≡ Err (Fault.Limit Limit.Print) → (store : StoreValue) × IsStoreGiven core.now.world.kept core.now.world.state name goal.now store × IsTooLong store goal.now }
{
    core.stands();
    let records = core.records();
    let part = whole_part(alloc, records, taker, name)?;
    write_given_to(alloc, records, &part, core.store(), goal, out)
}

// Writes how the call of this name went on that was made, and the call with its variables replaced.
fn write_fate(
    alloc: Global,
    core: &Core,
    name: GoalName,
    goal: &Goal,
    out: &mut String,
) -> Result<(), Fault>
    ensures text { OnOk result ((text : List ℕ) × IsShown core.now.world.state.store goal.now text × (string_bytes out.new ≡ string_bytes out.old ++ (fate_word (finite.get core.now.world.state.goals name) ++ (text ++ codes "\n")))) }
    ensures begun { StartsWith (string_bytes out.new) (string_bytes out.old) }
    ensures refused { IfErr result (λ fault. (fault ≡ Fault.Memory) ⊎ (fault ≡ Fault.Limit Limit.Print)) }
    ensures too_long { result ≡ Err (Fault.Limit Limit.Print) → IsTooLong core.now.world.state.store goal.now }
{
    match core.goals().get(name) {
        Some(_) => write_goal(alloc, " stands ", goal, core.store(), out),
        None => write_goal(alloc, " gave ", goal, core.store(), out),
    }
}

// Writes a goal as it was made.
pub(crate) fn write_as_made(goal: &Goal, out: &mut String) -> Result<(), AllocError>
    ensures text { OnOk result (string_bytes out.new ≡ string_bytes out.old ++ (codes " " ++ (goal_text goal.now ++ codes "\n"))) }
    ensures begun { StartsWith (string_bytes out.new) (string_bytes out.old) }
{
    out.push_str(" ")?;
    push_goal_written(goal, out)?;
    out.push_str("\n")
}

// Writes the line of the goal that the kept step made at this index.
fn write_made(
    alloc: Global,
    core: &Core,
    step: &Record,
    index: u32,
    out: &mut String,
) -> Result<(), Fault>
    requires kept { In step.now core.now.world.kept }
    requires made { index < length step.now.effect.makes }
    ensures text { OnOk result ((b : goal_spec) × (line : List ℕ) × (slice_get step.now.effect.makes index ≡ Some b) × TellsMade core.now.world (record { step = step.now.number; place = index + 1 }) b line × (string_bytes out.new ≡ string_bytes out.old ++ line)) }
    ensures begun { StartsWith (string_bytes out.new) (string_bytes out.old) }
    ensures refused { IfErr result (λ fault. (fault ≡ Fault.Memory) ⊎ (fault ≡ Fault.Limit Limit.Print)) }
    ensures too_long { result ≡ Err (Fault.Limit Limit.Print) → (f : List ℕ) × (ts : List Tree) × In (call f ts) step.now.effect.makes × IsTooLong core.now.world.state.store (call f ts) }
{
    core.stands();
    // Called since what it gives is a u32, so that the place is one.
    let _made = step.effect().made();
    let goal = step.effect().makes().get(index as usize).unwrap();
    let name = GoalName {
        step: step.number(),
        place: index + 1,
    };
    push_goal_name(name, out)?;
    match goal.view() {
        GoalView::Call(_, _) => write_fate(alloc, core, name, goal, out),
        GoalView::Unify(_, _) => Ok(write_as_made(goal, out)?),
        GoalView::Assign(_, _) => Ok(write_as_made(goal, out)?),
        GoalView::Stream(_, _) => Ok(write_as_made(goal, out)?),
    }
}

// Writes a line for each goal that the kept step made, by place.
fn write_all_made(alloc: Global, core: &Core, step: &Record, out: &mut String) -> Result<(), Fault>
    requires { In step.now core.now.world.kept }
    ensures text { OnOk result ((text : List ℕ) × AreMadeLines core.now.world step.now.number step.now.effect.makes text × (string_bytes out.new ≡ string_bytes out.old ++ text)) }
    ensures begun { StartsWith (string_bytes out.new) (string_bytes out.old) }
    ensures refused { IfErr result (λ fault. (fault ≡ Fault.Memory) ⊎ (fault ≡ Fault.Limit Limit.Print)) }
    ensures too_long { result ≡ Err (Fault.Limit Limit.Print) → (f : List ℕ) × (ts : List Tree) × In (call f ts) step.now.effect.makes × IsTooLong core.now.world.state.store (call f ts) }
{
    for index in 0..step.effect().made() {
        match write_made(alloc, core, step, index, out) {
            Ok(()) => {}
            Err(fault) => return Err(fault),
        }
    }
    Ok(())
}

// Writes what the goal gave that the kept step took.
fn write_gave(
    alloc: Global,
    core: &Core,
    goal: &Goal,
    step: &Record,
    out: &mut String,
) -> Result<(), Fault>
    requires { In step.now core.now.world.kept }
    ensures text { OnOk result ((text : List ℕ) × TellsGave core.now.world goal.now step.now text × (string_bytes out.new ≡ string_bytes out.old ++ text)) }
    ensures begun { StartsWith (string_bytes out.new) (string_bytes out.old) }
    ensures refused { IfErr result (λ fault. (fault ≡ Fault.Memory) ⊎ (fault ≡ Fault.Limit Limit.Print)) }
    ensures too_long { result ≡ Err (Fault.Limit Limit.Print) → IsTooLong core.now.world.state.store goal.now ⊎ ((f : List ℕ) × (ts : List Tree) × In (call f ts) step.now.effect.makes × IsTooLong core.now.world.state.store (call f ts)) }
{
    match write_goal(alloc, "gave ", goal, core.store(), out) {
        Ok(()) => {}
        Err(fault) => return Err(fault),
    }
    match write_all_made(alloc, core, step, out) {
        Ok(()) => {}
        Err(fault) => return Err(fault),
    }
    push_step(step, out)?;
    out.push_str("\n")?;
    Ok(())
}

// Writes the name of a goal that is there, and its status.
pub(crate) fn write_standing(
    core: &Core,
    name: GoalName,
    goal: &Goal,
    out: &mut String,
) -> Result<(), AllocError>
    requires settled { IsSettled core.now.world core.now.notes }
    requires there { finite.get core.now.world.state.goals name ≡ Some goal.now }
    ensures text { OnOk result ((text : List ℕ) × TellsStatus core.now.world name text × (string_bytes out.new ≡ string_bytes out.old ++ text)) }
    ensures begun { StartsWith (string_bytes out.new) (string_bytes out.old) }
{
    push_goal_name(name, out)?;
    out.push_str(" ")?;
    write_status(name, goal, core.tries(), out)?;
    out.push_str("\n")?;
    Ok(())
}

// Writes what the goal of this name was given, and what it gave, where a kept step took it; or its status, where it is there.
fn write_call(
    alloc: Global,
    core: &Core,
    name: GoalName,
    goal: &Goal,
    taker: Option<&Record>,
    out: &mut String,
) -> Result<(), Fault>
    requires settled { IsSettled core.now.world core.now.notes }
    requires taken { IsTakenOrThere core.now.world name goal.now (option_copied taker) }
    ensures text { OnOk result ((text : List ℕ) × TellsCall core.now.world name goal.now text × (string_bytes out.new ≡ string_bytes out.old ++ text)) }
    ensures begun { StartsWith (string_bytes out.new) (string_bytes out.old) }
    ensures refused { IfErr result (λ fault. (fault ≡ Fault.Memory) ⊎ (fault ≡ Fault.Limit Limit.Print)) }
    ensures too_long { result ≡ Err (Fault.Limit Limit.Print) → HasTooLongText core.now.world name goal.now }
{
    match write_given_by_all(alloc, core, name, goal, taker, out) {
        Ok(()) => {}
        Err(fault) => return Err(fault),
    }
    match taker {
        Some(step) => write_gave(alloc, core, goal, step, out),
        None => Ok(write_standing(core, name, goal, out)?),
    }
}

/// Writes what the goal of this name was given at the end of `out`, and what it gave, where a kept step took it; or its status, where
/// it is there. It fails where memory is refused, or else, by the limit `print`, where a text is longer than is printed. Then `out`
/// stays as it was. It costs a few look-ups for each step of the goal's part and each that depends directly on one (where the index of
/// the record is not whole, for each kept step), what `slice` costs for the steps that gave to it, and the texts.
pub fn push_call(
    alloc: Global,
    core: &Core,
    name: GoalName,
    goal: &Goal,
    taker: Option<&Record>,
    out: &mut String,
) -> Result<(), Fault>
    requires settled { IsSettled core.now.world core.now.notes }
    requires taken { IfSome taker (λ r. In r.now core.now.world.kept × (r.now.goal ≡ Some name) × (r.now.consumed ≡ Some goal.now)) }
    requires there { IfNone taker (finite.get core.now.world.state.goals name ≡ Some goal.now) }
    ensures text { OnOk result ((text : List ℕ) × TellsCall core.now.world name goal.now text × (string_bytes out.new ≡ string_bytes out.old ++ text)) }
    ensures err { OnErr result (string_bytes out.new ≡ string_bytes out.old) }
    ensures refused { IfErr result (λ fault. (fault ≡ Fault.Memory) ⊎ (fault ≡ Fault.Limit Limit.Print)) }
    ensures too_long { result ≡ Err (Fault.Limit Limit.Print) → HasTooLongText core.now.world name goal.now }
{
    let length = end_of(out);
    match write_call(alloc, core, name, goal, taker, out) {
        Ok(()) => Ok(()),
        Err(fault) => {
            let _ = or_cut_back(out, length, Err(AllocError));
            Err(fault)
        }
    }
}
