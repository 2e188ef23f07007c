// The call below which is asked: from the query on, of the calls in question below it the one that was told wrong last.
ghost use Rattle.std.specs.Prelude.{◌<◌, List, Option, length, IfOk, IfSome};
ghost use Rattle.ghc_term.specs.declared.goal_name.GoalName.{GoalName as goal_name};
ghost use Rattle.ghc_flat.specs.Clause.{Program, Query};
ghost use Rattle.ghc_records.specs.Record.{Record as record_spec, State};
ghost use Rattle.ghc_records.specs.Replay.{Replays};
ghost use Rattle.ghc_trace.specs.declared.judgements.Answer.{Answer as answer_spec};
ghost use Rattle.ghc_trace.specs.declared.slice_calls.Call.{Call as call_spec};
ghost use Rattle.ghc_trace.specs.Blaming.{IsTop};
ghost use Rattle.ghc_trace.specs.inner.BlameCode.{AreCallsOf, AreJudged, AreLastBelow, HasNothing, IsLaterOf, IsNameOfTop, NotesLater, StandBelow};

use crate::answered::{ToldWrong, is_right, nothing_told, told_wrong_last};
use crate::judgements::{Answer, Judgement};
use crate::slice_calls::Calls;
use ghc_term::GoalName;
use std::alloc::{AllocError, Global};
use std::collections::BTreeMap;

// Of the calls in question below the query, the one that was told wrong last; and so below each of the calls, by place.
#[derive(Drop)]
struct LastBelow {
    query: Option<ToldWrong>,
    calls: Vec<Option<ToldWrong>>,
}

// Of two, the one that was told wrong later.
fn later(one: Option<ToldWrong>, other: Option<ToldWrong>) -> Option<ToldWrong>
    ensures { IsLaterOf one other result }
{
    let Some(first) = one else {
        return other;
    };
    let Some(second) = other else {
        return one;
    };
    if first.answer < second.answer {
        other
    } else {
        one
    }
}

impl LastBelow {
    // Nothing yet, for the query and for each of so many calls.
    fn new(alloc: Global, count: usize) -> Result<LastBelow, AllocError>
        ensures { IfOk result (λ last. HasNothing count last) }
    {
        Ok(LastBelow {
            query: None,
            calls: nothing_told(alloc, count)?,
        })
    }

    // Notes it for the call at the place, or for the query, if it was told wrong later than what is noted there.
    fn note(&mut self, place: Option<usize>, wrong: Option<ToldWrong>)
        requires { IfSome place (λ p. p < length self.old.calls.items) }
        ensures { NotesLater place wrong self.old self.new }
    {
        match place {
            Some(place) => self.calls[place] = later(self.calls[place], wrong),
            None => self.query = later(self.query, wrong),
        }
    }

    // The top to which these lead: it goes from the query down, with one look for each call that it comes to.
    fn top(&self) -> Option<usize>
        requires { StandBelow (length self.now.calls.items) self.now }
        ensures { (rs : List record_spec) (t : State) (target : Option goal_name) (told : List answer_spec) (calls : List call_spec) → AreLastBelow rs t target told calls self.now
            → (name : Option goal_name) × IsNameOfTop calls result name × IsTop rs t target told name }
    {
        let mut top = None;
        let mut next = self.query;
        while let Some(wrong) = next {
            top = Some(wrong.call);
            next = self.calls[wrong.call];
        }
        top
    }
}

// For the query and for each of the calls, which call was told wrong last of those in question below. From the last call on, each that is
// not told right hands to its maker what was told wrong later: itself, or what is noted for it.
fn last_below(
    alloc: Global,
    calls: &Calls,
    answers: &[Answer],
    judged: &BTreeMap<GoalName, Judgement>,
) -> Result<LastBelow, AllocError>
    ensures below { IfOk result (λ last. StandBelow (length calls.now.list.items) last) }
    ensures last { IfOk result (λ last. (P : Program) (query : Query) (rs : List record_spec) (t : State) (target : Option goal_name) → Replays P query rs t
        → AreCallsOf rs t target calls.now.list.items → AreJudged answers.now judged.now → AreLastBelow rs t target answers.now calls.now.list.items last) }
{
    let wrong = told_wrong_last(alloc, calls, answers)?;
    let mut last = LastBelow::new(alloc, calls.list.len())?;
    let mut place = calls.list.len();
    while place > 0 {
        place -= 1;
        let call = calls.at(place);
        if !is_right(judged, call.name) {
            let below = last.calls[place];
            last.note(call.maker, later(below, wrong[place]));
        }
    }
    Ok(last)
}

/// The place of the call to which the answers lead, or nothing for the query: from the query on, of the calls in question below it the
/// one that was told wrong last. It costs some look-ups for each call and for each answer.
pub(crate) fn top_of(
    alloc: Global,
    calls: &Calls,
    answers: &[Answer],
    judged: &BTreeMap<GoalName, Judgement>,
) -> Result<Option<usize>, AllocError>
    ensures { IfOk result (λ top. (P : Program) (query : Query) (rs : List record_spec) (t : State) (target : Option goal_name) → Replays P query rs t
        → AreCallsOf rs t target calls.now.list.items → AreJudged answers.now judged.now
        → (name : Option goal_name) × IsNameOfTop calls.now.list.items top name × IsTop rs t target answers.now name) }
{
    let last = last_below(alloc, calls, answers, judged)?;
    Ok(last.top())
}
