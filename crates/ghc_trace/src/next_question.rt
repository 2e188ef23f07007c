// The call to ask about next: the one that comes nearest to parting those in question in two halves.
ghost use Rattle.std.specs.Prelude.{◌≡◌, ◌⊎◌, ◌≤◌, false, IsTrue, ◌+◌, ◌<◌, ℕ, List, Option, Some, IfNone, IfOk, IfSome, length, map, slice_get, slice_index};
ghost use Rattle.ghc_term.specs.declared.goal_name.GoalName.{GoalName as goal_name};
ghost use Rattle.ghc_flat.specs.Clause.{Program, Query};
ghost use Rattle.ghc_records.specs.Record.{Record as record_spec, State};
ghost use Rattle.ghc_records.specs.Replay.{Replays};
ghost use Rattle.ghc_trace.specs.declared.judgements.Answer.{Answer as answer_spec};
ghost use Rattle.ghc_trace.specs.declared.slice_calls.Call.{Call as call_spec};
ghost use Rattle.ghc_trace.specs.Blaming.{IsAsked, IsInQuestion, IsWeight, off_half as half_off};
ghost use Rattle.ghc_trace.specs.inner.BlameCode.{AddsToMaker, AreCallsOf, AreInQuestion, AreWeightsWithin, IsNoWorse, IsOpenAt, StandsAtPlace, count_open, one_of};

use crate::slice_calls::{Call, Calls};
use ghc_term::GoalName;
use std::alloc::{AllocError, Global};

/// The place of the call to ask about, and how many calls are in question.
#[derive(Clone, Copy)]
pub(crate) struct Next {
    pub(crate) place: usize,
    pub(crate) count: usize,
}

// A call that may be asked about, and how far its weight is from half of those in question, doubled.
#[derive(Clone, Copy)]
struct Choice {
    place: usize,
    name: GoalName,
    off: usize,
}

// One for each call in question, and nothing for each other one.
fn ones(alloc: Global, doubts: &[bool]) -> Result<Vec<usize>, AllocError>
    ensures { IfOk result (λ ones. ones.items ≡ map one_of doubts.now) }
{
    let mut ones = Vec::new(alloc);
    for is_open in doubts {
        ones.push(if *is_open { 1 } else { 0 })?;
    }
    Ok(ones)
}

// Adds the weight of the call to that of the call whose step made it, if there is one.
fn add_to_maker(weights: &mut Vec<usize>, call: &Call, place: usize)
    requires place { place < length weights.old.items }
    requires maker { IfSome call.now.maker (λ p. (p < place) × (slice_index weights.old.items p + slice_index weights.old.items place ≤ length weights.old.items)) }
    ensures { AddsToMaker call.now.maker place weights.old.items weights.new.items }
{
    if let Some(maker) = call.maker {
        weights[maker] += weights[place];
    }
}

// For each call in question, by place, how many are in question among those that descend from it, itself one.
fn weights_of(alloc: Global, calls: &Calls, doubts: &[bool]) -> Result<Vec<usize>, AllocError>
    requires { length doubts.now ≡ length calls.now.list.items }
    ensures within { IfOk result (λ weights. AreWeightsWithin doubts.now weights.items) }
    ensures weights { IfOk result (λ weights. (P : Program) (query : Query) (rs : List record_spec) (t : State) (target : Option goal_name) (told : List answer_spec) (top : Option goal_name)
        → Replays P query rs t → AreCallsOf rs t target calls.now.list.items → AreInQuestion rs t target told top calls.now.list.items doubts.now
        → (i w : ℕ) (c : call_spec) → StandsAtPlace calls.now.list.items i c → IsOpenAt doubts.now i → slice_get weights.items i ≡ Some w → IsWeight rs t target told top c.name w) }
{
    let mut weights = ones(alloc, doubts)?;
    let mut place = calls.list.len();
    while place > 0 {
        place -= 1;
        if doubts[place] {
            add_to_maker(&mut weights, &calls.list[place], place);
        }
    }
    Ok(weights)
}

// How many of the calls are in question.
fn count_of(doubts: &[bool]) -> usize
    ensures count { result ≡ count_open doubts.now }
    ensures within { result ≤ length doubts.now }
{
    let mut count = 0;
    for is_open in doubts {
        if *is_open {
            count += 1;
        }
    }
    count
}

// How far twice the weight is from one more than the count.
fn off_half(weight: usize, count: usize) -> usize
    requires some { 1 ≤ weight }
    requires within { weight ≤ count }
    ensures { result ≡ half_off weight count }
{
    let rest = count - weight;
    if rest < weight {
        weight - rest - 1
    } else {
        rest - weight + 1
    }
}

// Whether the one is nearer to the half than the other, or as near and earlier by name.
fn is_better(one: Choice, other: Choice) -> bool
    ensures yes { IsTrue result → IsNoWorse one other }
    ensures no { result ≡ false → IsNoWorse other one }
{
    if one.off != other.off {
        return one.off < other.off;
    }
    one.name < other.name
}

// The better of the two: the one nearer to the half, or the first by name.
fn better(best: Option<Choice>, other: Choice) -> Choice
    ensures chosen { (result ≡ other) ⊎ (best ≡ Some result) }
    ensures best { IfSome best (IsNoWorse result) }
    ensures other { IsNoWorse result other }
{
    let Some(one) = best else {
        return other;
    };
    if is_better(one, other) { one } else { other }
}

/// The call in question whose weight comes nearest to half of one more than are in question, and of several such the first by name;
/// nothing where none is in question. It goes over the calls three times.
pub(crate) fn next_question(
    alloc: Global,
    calls: &Calls,
    doubts: &[bool],
) -> Result<Option<Next>, AllocError>
    requires { length doubts.now ≡ length calls.now.list.items }
    ensures { IfOk result (λ next. (P : Program) (query : Query) (rs : List record_spec) (t : State) (target : Option goal_name) (told : List answer_spec) (top : Option goal_name)
        → Replays P query rs t → AreCallsOf rs t target calls.now.list.items → AreInQuestion rs t target told top calls.now.list.items doubts.now
        → IfSome next (λ one. (c : call_spec) × StandsAtPlace calls.now.list.items one.place c × IsAsked rs t target told top one.count c.name)
        × IfNone next ((g : goal_name) → ¬ IsInQuestion rs t target told top g)) }
{
    let weights = weights_of(alloc, calls, doubts)?;
    let count = count_of(doubts);
    let mut best = None;
    for place in 0..doubts.len() {
        if doubts[place] {
            let choice = Choice {
                place,
                name: calls.list[place].name,
                off: off_half(weights[place], count),
            };
            best = Some(better(best, choice));
        }
    }
    match best {
        Some(choice) => Ok(Some(Next {
            place: choice.place,
            count,
        })),
        None => Ok(None),
    }
}
