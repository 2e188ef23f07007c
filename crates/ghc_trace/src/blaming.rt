// Which call to ask about, or which step is at fault, where something seems wrong.
ghost use Rattle.std.specs.Prelude.{◌≡◌, ◌++◌, ◌⊎◌, ℕ, List, Option, IfErr, IfOk, OnErr, OnOk, string_bytes};
ghost use Rattle.std.specs.FinMap as finite;
ghost use Rattle.std.specs.Io.{StartsWith};
ghost use Rattle.ghc_term.specs.declared.goal_name.GoalName.{GoalName as goal_name};
ghost use Rattle.ghc_term.specs.Lists.{In};
ghost use Rattle.ghc_records.specs.Record.{Record as record_spec, State};
ghost use Rattle.ghc_trace.specs.declared.judgements.Answer.{Answer as answer_spec};
ghost use Rattle.ghc_trace.specs.BlameLines.{HasAnswerBeside, HasTooLongBlame, HasTooLongTold, IsKnownSubject, IsNoPlace, TellsBlame, TellsBlameOf, target_of as target_spec};
ghost use Rattle.ghc_trace.specs.Blaming.{IsCallOf, IsFault};
ghost use Rattle.ghc_trace.specs.Laws.{IsSettled};
ghost use Rattle.ghc_trace.specs.inner.BlameCode.{IsAskedAbout, IsNameOfTop};
ghost use Rattle.ghc_trace.specs.inner.BlameLinesCode.{IsAbout, IsAboutSlice, IsGathered, IsToldBehind};

use crate::answered::are_about_calls;
use crate::blame_lines::{Told, write_question};
use crate::given::slice_of;
use crate::given_goal::slice_of_goal;
use crate::judgements::{Answer, Subject};
use crate::next_question::next_question;
use crate::place_slices::slice_of_place;
use crate::questions::questions_of;
use crate::slice_calls::{Calls, calls_of, is_call};
use crate::slice_store::store_after;
use crate::verdict_lines::{write_fault_of_call, write_fault_of_query};
use ghc_core::Core;
use ghc_term::{Fault, GoalName, Limit, Store, VarName, end_of, or_cut_back};
use std::alloc::{AllocError, Global};

// The goal asked about, if one is.
fn target_of(subject: Subject) -> Option<GoalName>
    ensures { result ≡ target_spec subject }
{
    match subject {
        Subject::Value(_) => None,
        Subject::Place(_, _) => None,
        Subject::Goal(name) => Some(name),
    }
}

// The goal asked about, if one is and it is a call.
fn asked_about(core: &Core, target: Option<GoalName>) -> Option<GoalName>
    ensures { (t : State) → ((g : goal_name) → target ≡ Some g → finite.get t.goals g ≡ finite.get core.now.world.state.goals g) → IsAskedAbout t target result }
{
    let Some(name) = target else {
        return None;
    };
    let Some(goal) = core.goals().get(name) else {
        return None;
    };
    if is_call(goal) { Some(name) } else { None }
}

// The numbers of the steps on which the term of a variable rests, in recorded order.
fn steps_behind_value(alloc: Global, core: &Core, x: VarName) -> Result<Vec<u32>, AllocError>
    ensures { IfOk result (λ steps. IsToldBehind core.now.world (Subject.Value x) steps.items) }
{
    let steps = slice_of(alloc, core, x)?;
    Ok(steps)
}

// The numbers of the steps on which a goal rests that is there, in recorded order.
fn steps_behind_goal(alloc: Global, core: &Core, name: GoalName) -> Result<Vec<u32>, AllocError>
    requires { IsKnownSubject core.now.world (Subject.Goal name) }
    ensures { IfOk result (λ steps. IsToldBehind core.now.world (Subject.Goal name) steps.items) }
{
    let goal = core.goals().get(name).unwrap();
    slice_of_goal(alloc, core, name, goal)
}

// The numbers of the steps on which what is asked about rests, in recorded order.
fn steps_behind(alloc: Global, core: &Core, subject: Subject) -> Result<Vec<u32>, Fault>
    requires { IsKnownSubject core.now.world subject }
    ensures slice { IfOk result (λ steps. IsToldBehind core.now.world subject steps.items) }
    ensures refused { IfErr result (λ fault. (fault ≡ Fault.Memory) ⊎ (fault ≡ Fault.NoVariable)) }
    ensures no_place { result ≡ Err Fault.NoVariable → IsNoPlace core.now.world subject }
{
    match subject {
        Subject::Value(x) => Ok(steps_behind_value(alloc, core, x)?),
        Subject::Place(x, y) => match slice_of_place(alloc, core, x, y)? {
            Some(steps) => Ok(steps),
            None => Err(Fault::NoVariable),
        },
        Subject::Goal(name) => Ok(steps_behind_goal(alloc, core, name)?),
    }
}

// Writes the verdict on the call at this place, or on the query.
fn write_verdict(
    alloc: Global,
    told: &Told,
    top: Option<usize>,
    out: &mut String,
) -> Result<(), Fault>
    requires settled { IsSettled told.now.core.now.world told.now.core.now.notes }
    requires told { IsAboutSlice told.now }
    requires top { (name : Option goal_name) × IsNameOfTop told.now.calls.now.list.items top name }
    ensures text { OnOk result ((rs : List record_spec) (t : State) (answers : List answer_spec) (name : Option goal_name) → IsAbout told.now rs t → IsNameOfTop told.now.calls.now.list.items top name
        → IsFault rs t told.now.target answers name → (text : List ℕ) × TellsBlame told.now.core.now.world rs t told.now.target answers text × (string_bytes out.new ≡ string_bytes out.old ++ text)) }
    ensures begun { StartsWith (string_bytes out.new) (string_bytes out.old) }
    ensures refused { IfErr result (λ fault. (fault ≡ Fault.Memory) ⊎ (fault ≡ Fault.Limit Limit.Print)) }
    ensures too_long { result ≡ Err (Fault.Limit Limit.Print) → (rs : List record_spec) (t : State) (answers : List answer_spec) (name : Option goal_name) → IsAbout told.now rs t
        → IsNameOfTop told.now.calls.now.list.items top name → IsFault rs t told.now.target answers name → HasTooLongTold told.now.core.now.world rs t told.now.target answers }
{
    match top {
        Some(place) => write_fault_of_call(alloc, told, told.calls.at(place), out),
        None => write_fault_of_query(alloc, told, out),
    }
}

// Writes the next question by these answers, or the verdict where none is in question.
fn write_next(alloc: Global, told: &Told, answers: &[Answer], out: &mut String) -> Result<(), Fault>
    requires settled { IsSettled told.now.core.now.world told.now.core.now.notes }
    requires told { IsAboutSlice told.now }
    ensures text { OnOk result ((rs : List record_spec) (t : State) → IsAbout told.now rs t → (text : List ℕ) × TellsBlame told.now.core.now.world rs t told.now.target answers.now text
        × (string_bytes out.new ≡ string_bytes out.old ++ text)) }
    ensures begun { StartsWith (string_bytes out.new) (string_bytes out.old) }
    ensures refused { IfErr result (λ fault. (fault ≡ Fault.Memory) ⊎ (fault ≡ Fault.Limit Limit.Print)) }
    ensures too_long { result ≡ Err (Fault.Limit Limit.Print) → (rs : List record_spec) (t : State) → IsAbout told.now rs t → HasTooLongTold told.now.core.now.world rs t told.now.target answers.now }
{
    let questions = questions_of(alloc, told.calls, answers)?;
    let asked = next_question(alloc, told.calls, questions.doubts.as_slice())?;
    match asked {
        Some(next) => write_question(alloc, told, told.calls.at(next.place), next.count, out),
        None => write_verdict(alloc, told, questions.top, out),
    }
}

// Writes the next question by these answers, or the verdict, if each is about a call.
fn write_answered(
    alloc: Global,
    told: &Told,
    answers: &[Answer],
    out: &mut String,
) -> Result<(), Fault>
    requires settled { IsSettled told.now.core.now.world told.now.core.now.notes }
    requires told { IsAboutSlice told.now }
    ensures text { OnOk result ((rs : List record_spec) (t : State) → IsAbout told.now rs t → ((a : answer_spec) → In a answers.now → IsCallOf rs t told.now.target a.goal)
        × ((text : List ℕ) × TellsBlame told.now.core.now.world rs t told.now.target answers.now text × (string_bytes out.new ≡ string_bytes out.old ++ text))) }
    ensures begun { StartsWith (string_bytes out.new) (string_bytes out.old) }
    ensures refused { IfErr result (λ fault. (fault ≡ Fault.Memory) ⊎ (fault ≡ Fault.NoGoal) ⊎ (fault ≡ Fault.Limit Limit.Print)) }
    ensures beside { result ≡ Err Fault.NoGoal → (rs : List record_spec) (t : State) → IsAbout told.now rs t → (a : answer_spec) × In a answers.now × (¬ IsCallOf rs t told.now.target a.goal) }
    ensures too_long { result ≡ Err (Fault.Limit Limit.Print) → (rs : List record_spec) (t : State) → IsAbout told.now rs t → ((a : answer_spec) → In a answers.now → IsCallOf rs t told.now.target a.goal)
        × HasTooLongTold told.now.core.now.world rs t told.now.target answers.now }
{
    if !are_about_calls(told.calls, answers) {
        return Err(Fault::NoGoal);
    }
    write_next(alloc, told, answers, out)
}

// What is told of a subject: the steps behind it, by their numbers, the store that they leave, and their calls.
#[derive(Drop)]
struct Behind {
    steps: Vec<u32>,
    store: Store,
    calls: Calls,
}

// What is told of the subject. It costs some look-ups for each step and each binding.
fn told_behind(alloc: Global, core: &Core, subject: Subject) -> Result<Behind, Fault>
    requires { IsKnownSubject core.now.world subject }
    ensures told { IfOk result (IsGathered core.now.world subject) }
    ensures refused { IfErr result (λ fault. (fault ≡ Fault.Memory) ⊎ (fault ≡ Fault.NoVariable)) }
    ensures no_place { result ≡ Err Fault.NoVariable → IsNoPlace core.now.world subject }
{
    core.stands();
    let steps = match steps_behind(alloc, core, subject) {
        Ok(steps) => steps,
        Err(fault) => return Err(fault),
    };
    let target = target_of(subject);
    let records = core.records();
    let store = store_after(alloc, records, core.store(), steps.as_slice())?;
    let calls = calls_of(alloc, records, steps.as_slice(), asked_about(core, target))?;
    Ok(Behind {
        steps,
        store,
        calls,
    })
}

// Writes the next question about the slice of the subject, or the verdict.
fn write_blame(
    alloc: Global,
    core: &Core,
    subject: Subject,
    answers: &[Answer],
    out: &mut String,
) -> Result<(), Fault>
    requires settled { IsSettled core.now.world core.now.notes }
    requires known { IsKnownSubject core.now.world subject }
    ensures text { OnOk result ((text : List ℕ) × TellsBlameOf core.now.world subject answers.now text × (string_bytes out.new ≡ string_bytes out.old ++ text)) }
    ensures begun { StartsWith (string_bytes out.new) (string_bytes out.old) }
    ensures refused { IfErr result (λ fault. (fault ≡ Fault.Memory) ⊎ (fault ≡ Fault.NoVariable) ⊎ (fault ≡ Fault.NoGoal) ⊎ (fault ≡ Fault.Limit Limit.Print)) }
    ensures no_place { result ≡ Err Fault.NoVariable → IsNoPlace core.now.world subject }
    ensures beside { result ≡ Err Fault.NoGoal → HasAnswerBeside core.now.world subject answers.now }
    ensures too_long { result ≡ Err (Fault.Limit Limit.Print) → HasTooLongBlame core.now.world subject answers.now }
{
    let behind = match told_behind(alloc, core, subject) {
        Ok(behind) => behind,
        Err(fault) => return Err(fault),
    };
    let target = target_of(subject);
    let told = Told {
        core,
        steps: behind.steps.as_slice(),
        store: &behind.store,
        calls: &behind.calls,
        target,
    };
    write_answered(alloc, &told, answers, out)
}

/// Writes at the end of `out` the next question about a call of the slice of what is asked about, by these answers, or the verdict: which
/// step or goal is at fault. It refuses with `NoVariable` a place that is not in the term; with `NoGoal` where an answer is about no call
/// of the slice; then with the limit `print`, where a text is longer than is printed; or where memory is refused. Then `out` stays as it
/// was. It costs what the slice costs, some look-ups for each of its steps and bindings and for each answer, and the texts.
pub fn push_blame(
    alloc: Global,
    core: &Core,
    subject: Subject,
    answers: &[Answer],
    out: &mut String,
) -> Result<(), Fault>
    requires settled { IsSettled core.now.world core.now.notes }
    requires known { IsKnownSubject core.now.world subject }
    ensures text { OnOk result ((text : List ℕ) × TellsBlameOf core.now.world subject answers.now text × (string_bytes out.new ≡ string_bytes out.old ++ text)) }
    ensures err { OnErr result (string_bytes out.new ≡ string_bytes out.old) }
    ensures refused { IfErr result (λ fault. (fault ≡ Fault.Memory) ⊎ (fault ≡ Fault.NoVariable) ⊎ (fault ≡ Fault.NoGoal) ⊎ (fault ≡ Fault.Limit Limit.Print)) }
    ensures no_place { result ≡ Err Fault.NoVariable → IsNoPlace core.now.world subject }
    ensures beside { result ≡ Err Fault.NoGoal → HasAnswerBeside core.now.world subject answers.now }
    ensures too_long { result ≡ Err (Fault.Limit Limit.Print) → HasTooLongBlame core.now.world subject answers.now }
{
    let length = end_of(out);
    match write_blame(alloc, core, subject, answers, out) {
        Ok(()) => Ok(()),
        Err(fault) => {
            let _ = or_cut_back(out, length, Err(AllocError));
            Err(fault)
        }
    }
}
