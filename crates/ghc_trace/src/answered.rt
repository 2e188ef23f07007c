// What a user told of the calls of a slice.
ghost use Rattle.std.specs.Prelude.{◌<◌, ◌↔◌, ◌≡◌, ◌≢◌, ℕ, List, None, Option, Some, length, replicate, IfNone, IfOk, IfSome, IsTrue};
ghost use Rattle.std.specs.BTreeMap.{get};
ghost use Rattle.ghc_term.specs.declared.goal_name.GoalName.{GoalName as goal_name};
ghost use Rattle.ghc_term.specs.GoalMap.{goal_cmp};
ghost use Rattle.ghc_term.specs.Lists.{In};
ghost use Rattle.ghc_records.specs.Record.{Record as record_spec, State};
ghost use Rattle.ghc_trace.specs.declared.judgements.Answer.{Answer as answer_spec};
ghost use Rattle.ghc_trace.specs.declared.judgements.Judgement.TheVariants.{Right as told_right, Wrong as told_wrong};
ghost use Rattle.ghc_trace.specs.declared.slice_calls.Call.{Call as call_spec};
ghost use Rattle.ghc_trace.specs.Blaming.{IsCallOf};
ghost use Rattle.ghc_trace.specs.inner.BlameCode.{AreCallsOf, AreJudged, AreToldWrong, NotesAnswer, StandAtTheirPlaces, StandsAtPlace};

use crate::judgements::{Answer, Judgement};
use crate::slice_calls::Calls;
use ghc_term::GoalName;
use std::alloc::{AllocError, Global};
use std::collections::BTreeMap;

/// What was told last of each goal: a look-up for each answer.
pub(crate) fn judged(
    alloc: Global,
    answers: &[Answer],
) -> Result<BTreeMap<GoalName, Judgement>, AllocError>
    ensures { IfOk result (λ judged. AreJudged answers.now judged) }
{
    let mut judged = BTreeMap::new(alloc);
    for answer in answers {
        match judged.insert(answer.goal, answer.judgement) {
            Ok(_) => {}
            Err(_) => return Err(AllocError),
        }
    }
    Ok(judged)
}

/// Whether each answer is about one of the calls: a look-up for each.
pub(crate) fn are_about_calls(calls: &Calls, answers: &[Answer]) -> bool
    ensures { (rs : List record_spec) (t : State) (target : Option goal_name) → AreCallsOf rs t target calls.now.list.items
        → IsTrue result ↔ ((a : answer_spec) → In a answers.now → IsCallOf rs t target a.goal) }
{
    for answer in answers {
        if calls.place_of(answer.goal).is_none() {
            return false;
        }
    }
    true
}

/// Whether the call was told right.
pub(crate) fn is_right(judged: &BTreeMap<GoalName, Judgement>, name: GoalName) -> bool
    ensures { IsTrue result ↔ (get goal_cmp judged.now name ≡ Some told_right) }
{
    match judged.get(&name) {
        Some(Judgement::Right) => true,
        Some(Judgement::Wrong) => false,
        None => false,
    }
}

/// A call that was told wrong, by its place, and the place of the answer that says so.
#[derive(Clone, Copy)]
pub(crate) struct ToldWrong {
    pub(crate) call: usize,
    pub(crate) answer: usize,
}

/// Nothing, for each of so many calls.
pub(crate) fn nothing_told(
    alloc: Global,
    count: usize,
) -> Result<Vec<Option<ToldWrong>>, AllocError>
    ensures { IfOk result (λ told. told.items ≡ replicate count None) }
{
    vec![in alloc; None; count]
}

// The place of the call that the answer tells wrong, if it tells one of these wrong: a look-up.
fn wrong_place(calls: &Calls, answer: &Answer) -> Option<usize>
    ensures found { IfSome result (λ p. (answer.now.judgement ≡ told_wrong) × ((c : call_spec) × StandsAtPlace calls.now.list.items p c × (c.name ≡ answer.now.goal))) }
    ensures none { IfNone result (answer.now.judgement ≡ told_wrong → (i : ℕ) (c : call_spec) → StandsAtPlace calls.now.list.items i c → c.name ≢ answer.now.goal) }
{
    match answer.judgement {
        Judgement::Right => None,
        Judgement::Wrong => calls.place_of(answer.goal),
    }
}

// Notes under the place of a call, if one is given, that the answer at the index tells it wrong.
fn note_wrong(wrong: &mut Vec<Option<ToldWrong>>, place: Option<usize>, index: usize)
    requires { IfSome place (λ p. p < length wrong.old.items) }
    ensures { NotesAnswer place index wrong.old.items wrong.new.items }
{
    if let Some(call) = place {
        wrong[call] = Some(ToldWrong {
            call,
            answer: index,
        });
    }
}

/// For each of the calls, by place, whether it was told wrong, and by which answer last: a look-up for each answer.
pub(crate) fn told_wrong_last(
    alloc: Global,
    calls: &Calls,
    answers: &[Answer],
) -> Result<Vec<Option<ToldWrong>>, AllocError>
    ensures long { IfOk result (λ wrong. length wrong.items ≡ length calls.now.list.items) }
    ensures places { IfOk result (λ wrong. StandAtTheirPlaces wrong.items) }
    ensures told { IfOk result (λ wrong. (rs : List record_spec) (t : State) (target : Option goal_name) → AreCallsOf rs t target calls.now.list.items
        → AreToldWrong calls.now.list.items answers.now wrong.items) }
{
    let mut wrong = nothing_told(alloc, calls.list.len())?;
    for index in 0..answers.len() {
        let place = wrong_place(calls, &answers[index]);
        note_wrong(&mut wrong, place, index);
    }
    Ok(wrong)
}
