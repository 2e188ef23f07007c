// The lines that tell what is at fault: a step, a goal, or the query. Where one is refused, what `write_..` writes may be a part of its text.
ghost use Rattle.std.specs.Prelude.{◌≡◌, ◌⊎◌, ◌++◌, ℕ, List, None, Some, IfErr, OnOk, codes, string_bytes};
ghost use Rattle.std.specs.Io.{StartsWith};
ghost use Rattle.ghc_term.specs.Goal.{Goal as goal_spec};
ghost use Rattle.ghc_term.specs.Lists.{In};
ghost use Rattle.ghc_records.specs.Journal.{step_of};
ghost use Rattle.ghc_records.specs.Record.{Record as record_spec, State};
ghost use Rattle.ghc_records.specs.StepText.{goal_name_text, step_text};
ghost use Rattle.ghc_depend.specs.Depend.{IsKeptAs};
ghost use Rattle.ghc_trace.specs.declared.judgements.Answer.{Answer as answer_spec};
ghost use Rattle.ghc_trace.specs.BlameLines.{AreAskedGoals, AreMadeGoals, HasTooLongTold, TellsBlame, only};
ghost use Rattle.ghc_trace.specs.Blaming.{IsFault};
ghost use Rattle.ghc_trace.specs.GoalLines.{IsTooLong};
ghost use Rattle.ghc_trace.specs.Laws.{IsSettled};
ghost use Rattle.ghc_trace.specs.inner.BlameCode.{StandsAtPlace};
ghost use Rattle.ghc_trace.specs.inner.BlameLinesCode.{HasTooLongAsked, IsAbout, IsAboutSlice, TellsAsked};

use crate::blame_lines::{Told, write_all_made, write_call_told};
use crate::slice_calls::Call;
use ghc_records::{push_goal_name, push_step};
use ghc_term::{Fault, GoalName, Limit};
use std::alloc::{AllocError, Global};

// Writes that the step is at fault, which took the call, with what it made.
fn write_fault_of_step(
    alloc: Global,
    told: &Told,
    number: u32,
    out: &mut String,
) -> Result<(), Fault>
    requires { (r : record_spec) × IsKeptAs told.now.core.now.world.kept number r }
    ensures text { OnOk result ((rs : List record_spec) (t : State) (r : record_spec) → IsAbout told.now rs t → IsKeptAs rs number r
        → (made : List ℕ) × AreMadeGoals (only told.now.core.now.world rs t) told.now.target r.number r.effect.makes made
        × (string_bytes out.new ≡ string_bytes out.old ++ (made ++ (codes "fault " ++ (step_text (step_of r) ++ codes "\n"))))) }
    ensures begun { StartsWith (string_bytes out.new) (string_bytes out.old) }
    ensures refused { IfErr result (λ fault. (fault ≡ Fault.Memory) ⊎ (fault ≡ Fault.Limit Limit.Print)) }
    ensures too_long { result ≡ Err (Fault.Limit Limit.Print) → (rs : List record_spec) (t : State) (r : record_spec) → IsAbout told.now rs t → IsKeptAs rs number r → (b : goal_spec) × In b r.effect.makes × IsTooLong t.store b }
{
    let records = told.core.records();
    let _count = records.len();
    let step = records.get(number).unwrap();
    // Called since what it gives is a u32, so that the places are.
    let _made = step.effect().made();
    match write_all_made(alloc, told, number, step.effect().makes(), out) {
        Ok(()) => {}
        Err(fault) => return Err(fault),
    }
    out.push_str("fault ")?;
    push_step(step, out)?;
    out.push_str("\n")?;
    Ok(())
}

// Writes that no clause is right for the call of this name.
fn write_fault_of_goal(name: GoalName, out: &mut String) -> Result<(), AllocError>
    ensures text { OnOk result (string_bytes out.new ≡ string_bytes out.old ++ (codes "fault " ++ (goal_name_text name ++ codes "\n"))) }
    ensures begun { StartsWith (string_bytes out.new) (string_bytes out.old) }
{
    out.push_str("fault ")?;
    push_goal_name(name, out)?;
    out.push_str("\n")
}

/// Writes the verdict on the call.
pub(crate) fn write_fault_of_call(
    alloc: Global,
    told: &Told,
    call: &Call,
    out: &mut String,
) -> Result<(), Fault>
    requires settled { IsSettled told.now.core.now.world told.now.core.now.notes }
    requires told { IsAboutSlice told.now }
    requires call { (i : ℕ) × StandsAtPlace told.now.calls.now.list.items i call.now }
    ensures text { OnOk result ((rs : List record_spec) (t : State) (answers : List answer_spec) → IsAbout told.now rs t → IsFault rs t told.now.target answers (Some call.now.name)
        → (text : List ℕ) × TellsBlame told.now.core.now.world rs t told.now.target answers text × (string_bytes out.new ≡ string_bytes out.old ++ text)) }
    ensures begun { StartsWith (string_bytes out.new) (string_bytes out.old) }
    ensures refused { IfErr result (λ fault. (fault ≡ Fault.Memory) ⊎ (fault ≡ Fault.Limit Limit.Print)) }
    ensures too_long { result ≡ Err (Fault.Limit Limit.Print) → (rs : List record_spec) (t : State) (answers : List answer_spec) → IsAbout told.now rs t
        → IsFault rs t told.now.target answers (Some call.now.name) → HasTooLongTold told.now.core.now.world rs t told.now.target answers }
{
    match write_call_told(alloc, told, call, out) {
        Ok(()) => {}
        Err(fault) => return Err(fault),
    }
    match call.taker {
        Some(number) => write_fault_of_step(alloc, told, number, out),
        None => Ok(write_fault_of_goal(call.name, out)?),
    }
}

// Writes the goals for which the step asked, if it asked for goals.
fn write_asked(alloc: Global, told: &Told, number: u32, out: &mut String) -> Result<(), Fault>
    requires { (r : record_spec) × IsKeptAs told.now.core.now.world.kept number r }
    ensures text { OnOk result ((rs : List record_spec) (t : State) (r : record_spec) → IsAbout told.now rs t → IsKeptAs rs number r
        → (text : List ℕ) × TellsAsked (only told.now.core.now.world rs t) told.now.target r text × (string_bytes out.new ≡ string_bytes out.old ++ text)) }
    ensures begun { StartsWith (string_bytes out.new) (string_bytes out.old) }
    ensures refused { IfErr result (λ fault. (fault ≡ Fault.Memory) ⊎ (fault ≡ Fault.Limit Limit.Print)) }
    ensures too_long { result ≡ Err (Fault.Limit Limit.Print) → HasTooLongAsked told.now.core.now.world.kept told.now.store.now.held number }
{
    let records = told.core.records();
    let _count = records.len();
    let step = records.get(number).unwrap();
    if step.goal().is_some() {
        return Ok(());
    }
    // Called since what it gives is a u32, so that the places are.
    let _made = step.effect().made();
    write_all_made(alloc, told, number, step.effect().makes(), out)
}

// Writes the goals for which the steps of the slice asked.
fn write_all_asked(alloc: Global, told: &Told, out: &mut String) -> Result<(), Fault>
    requires { IsAboutSlice told.now }
    ensures text { OnOk result ((rs : List record_spec) (t : State) → IsAbout told.now rs t
        → (text : List ℕ) × AreAskedGoals (only told.now.core.now.world rs t) told.now.target rs text × (string_bytes out.new ≡ string_bytes out.old ++ text)) }
    ensures begun { StartsWith (string_bytes out.new) (string_bytes out.old) }
    ensures refused { IfErr result (λ fault. (fault ≡ Fault.Memory) ⊎ (fault ≡ Fault.Limit Limit.Print)) }
    ensures too_long { result ≡ Err (Fault.Limit Limit.Print) → (n : ℕ) × In n told.now.steps.now × HasTooLongAsked told.now.core.now.world.kept told.now.store.now.held n }
{
    told.core.stands();
    let steps = told.steps;
    for number in steps {
        match write_asked(alloc, told, *number, out) {
            Ok(()) => {}
            Err(fault) => return Err(fault),
        }
    }
    Ok(())
}

/// Writes the verdict on the query: its goals, and those that were asked for.
pub(crate) fn write_fault_of_query(
    alloc: Global,
    told: &Told,
    out: &mut String,
) -> Result<(), Fault>
    requires { IsAboutSlice told.now }
    ensures text { OnOk result ((rs : List record_spec) (t : State) (answers : List answer_spec) → IsAbout told.now rs t → IsFault rs t told.now.target answers None
        → (text : List ℕ) × TellsBlame told.now.core.now.world rs t told.now.target answers text × (string_bytes out.new ≡ string_bytes out.old ++ text)) }
    ensures begun { StartsWith (string_bytes out.new) (string_bytes out.old) }
    ensures refused { IfErr result (λ fault. (fault ≡ Fault.Memory) ⊎ (fault ≡ Fault.Limit Limit.Print)) }
    ensures too_long { result ≡ Err (Fault.Limit Limit.Print) → (rs : List record_spec) (t : State) (answers : List answer_spec) → IsAbout told.now rs t
        → IsFault rs t told.now.target answers None → HasTooLongTold told.now.core.now.world rs t told.now.target answers }
{
    told.core.stands();
    match write_all_made(alloc, told, 0, told.core.query().goals(), out) {
        Ok(()) => {}
        Err(fault) => return Err(fault),
    }
    match write_all_asked(alloc, told, out) {
        Ok(()) => {}
        Err(fault) => return Err(fault),
    }
    out.push_str("fault 0\n")?;
    Ok(())
}
