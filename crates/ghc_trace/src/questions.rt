// Which calls of a slice are in question, by what a user told of them.
ghost use Rattle.std.specs.Prelude.{◌↔◌, ◌≡◌, ◌<◌, List, Option, length, IfOk, IfSome, IsTrue};
ghost use Rattle.ghc_term.specs.declared.goal_name.GoalName.{GoalName as goal_name};
ghost use Rattle.ghc_flat.specs.Clause.{Program, Query};
ghost use Rattle.ghc_records.specs.Record.{Record as record_spec, State};
ghost use Rattle.ghc_records.specs.Replay.{Replays};
ghost use Rattle.ghc_trace.specs.declared.judgements.Answer.{Answer as answer_spec};
ghost use Rattle.ghc_trace.specs.Blaming.{IsTop};
ghost use Rattle.ghc_trace.specs.inner.BlameCode.{AreCallsOf, AreInQuestion, AreJudged, IsNameOfTop, IsOpenBelow, IsOpenCall};

use crate::answered::{is_right, judged};
use crate::judgements::{Answer, Judgement};
use crate::slice_calls::{Call, Calls};
use crate::tops::top_of;
use ghc_term::GoalName;
use std::alloc::{AllocError, Global};
use std::collections::BTreeMap;

// Whether the call is right below the top, or below a call that is in question.
fn is_below(call: &Call, top: Option<usize>, doubts: &[bool]) -> bool
    requires { IfSome call.now.maker (λ p. p < length doubts.now) }
    ensures { IsTrue result ↔ IsOpenBelow call.now.maker top doubts.now }
{
    let Some(maker) = call.maker else {
        return top.is_none();
    };
    if let Some(place) = top {
        if place == maker {
            return true;
        }
    }
    doubts[maker]
}

// Whether the call is in question, where it is said of those before it.
fn is_open(
    call: &Call,
    judged: &BTreeMap<GoalName, Judgement>,
    top: Option<usize>,
    doubts: &[bool],
) -> bool
    requires { IfSome call.now.maker (λ p. p < length doubts.now) }
    ensures { IsTrue result ↔ IsOpenCall call.now judged.now top doubts.now }
{
    is_below(call, top, doubts) && !is_right(judged, call.name)
}

// For each of the calls, by place, whether it is in question below the top, which is the query where no place is given: a look-up for
// each.
fn in_question(
    alloc: Global,
    calls: &Calls,
    judged: &BTreeMap<GoalName, Judgement>,
    top: Option<usize>,
) -> Result<Vec<bool>, AllocError>
    ensures long { IfOk result (λ doubts. length doubts.items ≡ length calls.now.list.items) }
    ensures said { IfOk result (λ doubts. (P : Program) (query : Query) (rs : List record_spec) (t : State) (target : Option goal_name) (told : List answer_spec) (name : Option goal_name)
        → Replays P query rs t → AreCallsOf rs t target calls.now.list.items → AreJudged told judged.now → IsNameOfTop calls.now.list.items top name
        → AreInQuestion rs t target told name calls.now.list.items doubts.items) }
{
    let mut doubts = Vec::new(alloc);
    for call in &calls.list {
        let is_open = is_open(call, judged, top, doubts.as_slice());
        doubts.push(is_open)?;
    }
    Ok(doubts)
}

/// The call below which is asked, or the query, and which calls are in question below it.
#[derive(Drop)]
pub(crate) struct Questions {
    pub(crate) top: Option<usize>,
    pub(crate) doubts: Vec<bool>,
}

/// Which calls are in question by these answers: from the query on, below the call that was told wrong last of those in question. It
/// costs some look-ups for each call and for each answer.
pub(crate) fn questions_of(
    alloc: Global,
    calls: &Calls,
    answers: &[Answer],
) -> Result<Questions, AllocError>
    ensures { IfOk result (λ questions. (P : Program) (query : Query) (rs : List record_spec) (t : State) (target : Option goal_name) → Replays P query rs t
        → AreCallsOf rs t target calls.now.list.items
        → (top : Option goal_name) × IsNameOfTop calls.now.list.items questions.top top × IsTop rs t target answers.now top
        × AreInQuestion rs t target answers.now top calls.now.list.items questions.doubts.items) }
{
    let judged = judged(alloc, answers)?;
    let top = top_of(alloc, calls, answers, &judged)?;
    let doubts = in_question(alloc, calls, &judged, top)?;
    Ok(Questions { top, doubts })
}
