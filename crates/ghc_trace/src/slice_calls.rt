// The calls of a slice: which step took each, and the step of which call made it.
ghost use Rattle.std.specs.Prelude.{length, ◌<◌, ◌↔◌, ◌≡◌, ◌≢◌, [], ℕ, List, Option, IfNone, IfOk, IfSome, IsTrue, OnOk};
ghost use Rattle.ghc_term.specs.declared.goal_name.GoalName.{GoalName as goal_name};
ghost use Rattle.ghc_term.specs.Lists.{In};
ghost use Rattle.ghc_flat.specs.Clause.{Program, Query};
ghost use Rattle.ghc_records.specs.Record.{Record as record_spec, State};
ghost use Rattle.ghc_records.specs.Replay.{Replays};
ghost use Rattle.ghc_depend.specs.Depend.{IsKeptAs};
ghost use Rattle.ghc_trace.specs.declared.slice_calls.Call.{Call as call_spec};
ghost use Rattle.ghc_trace.specs.Blaming.{IsCall, IsCallTaken};
ghost use Rattle.ghc_trace.specs.inner.BlameCode.{AddsCall, AddsTaken, AreCallsBy, AreCallsOf, AreFound, AreMakersBefore, ArePlacesOf, IsAskedAbout, IsPlaceTakenBy, StandsAtPlace};
ghost use Rattle.ghc_trace.specs.inner.PartsCode.{AreKeptAs};

use ghc_records::{Record, Records};
use ghc_term::{Goal, GoalName, GoalView};
use std::alloc::{AllocError, Global};
use std::collections::BTreeMap;

/// A call of a slice: the place of the call whose step made it, if the step of a call did, and the number of the step that took it, if
/// one did.
#[derive(Clone, Copy)]
pub(crate) struct Call {
    pub(crate) name: GoalName,
    pub(crate) maker: Option<usize>,
    pub(crate) taker: Option<u32>,
}

/// The calls of a slice, each after the one whose step made it, and the place of each by its name.
#[derive(Drop)]
pub(crate) struct Calls {
    pub(crate) list: Vec<Call>,
    pub(crate) places: BTreeMap<GoalName, usize>,
    ghost placed: { ArePlacesOf list.items places },
    ghost before: { AreMakersBefore list.items },
}

/// Whether the goal is a call.
pub(crate) fn is_call(goal: &Goal) -> bool
    ensures { IsTrue result ↔ IsCall goal.now }
{
    match goal.view() {
        GoalView::Call(_, _) => true,
        GoalView::Unify(_, _) => false,
        GoalView::Assign(_, _) => false,
        GoalView::Stream(_, _) => false,
    }
}

impl Calls {
    /// The call at this place.
    pub(crate) fn at(&self, place: usize) -> &Call
        requires { place < length self.now.list.items }
        ensures { StandsAtPlace self.now.list.items place result.now }
    {
        &self.list[place]
    }

    /// The place of the call of this name, if it is one of these.
    pub(crate) fn place_of(&self, name: GoalName) -> Option<usize>
        ensures found { IfSome result (λ i. (c : call_spec) × StandsAtPlace self.now.list.items i c × (c.name ≡ name)) }
        ensures none { IfNone result ((i : ℕ) (c : call_spec) → StandsAtPlace self.now.list.items i c → c.name ≢ name) }
    {
        self.places.get(&name).copied()
    }
}

// The calls found so far, and the place of each by the number of the step that took it.
#[derive(Drop)]
struct Found {
    list: Vec<Call>,
    takers: BTreeMap<u32, usize>,
}

impl Found {
    // No calls, which take no memory.
    fn new(alloc: Global) -> Found
        ensures list { result.list.items ≡ [] }
        ensures found { AreFound result.list.items result.takers }
    {
        Found {
            list: Vec::new(alloc),
            takers: BTreeMap::new(alloc),
        }
    }

    // The place of the call that the step of this number took, if it took one of these: a look-up.
    fn taken_by(&self, number: u32) -> Option<usize>
        requires { AreFound self.now.list.items self.now.takers }
        ensures { IsPlaceTakenBy self.now.list.items number result }
    {
        self.takers.get(&number).copied()
    }

    // Adds the call of this name at the end: a look-up.
    fn push(&mut self, name: GoalName, taker: Option<u32>) -> Result<(), AllocError>
        requires { AreFound self.old.list.items self.old.takers }
        ensures list { OnOk result (AddsCall self.old.list.items self.new.list.items name taker) }
        ensures takers { self.new.takers ≡ self.old.takers }
    {
        let maker = self.taken_by(name.step);
        self.list.push(Call { name, maker, taker })?;
        Ok(())
    }

    // Adds the call of this name, which the step of this number took: two look-ups.
    fn push_taken(&mut self, name: GoalName, number: u32) -> Result<(), AllocError>
        requires { AreFound self.old.list.items self.old.takers }
        ensures list { OnOk result (AddsCall self.old.list.items self.new.list.items name (Some number)) }
        ensures found { OnOk result (AreFound self.new.list.items self.new.takers) }
    {
        let place = self.list.len();
        self.push(name, Some(number))?;
        match self.takers.insert(number, place) {
            Ok(_) => Ok(()),
            Err(_) => Err(AllocError),
        }
    }

    // Adds the goal that the step took, if it is a call: two look-ups.
    fn add_taken(&mut self, step: &Record) -> Result<(), AllocError>
        requires { AreFound self.old.list.items self.old.takers }
        ensures list { OnOk result (AddsTaken self.old.list.items self.new.list.items step.now) }
        ensures found { OnOk result (AreFound self.new.list.items self.new.takers) }
    {
        let Some(name) = step.goal() else {
            return Ok(());
        };
        let Some(goal) = step.consumed() else {
            return Ok(());
        };
        if !is_call(goal) {
            return Ok(());
        }
        self.push_taken(name, step.number())
    }
}

// The calls that the steps of these numbers took, in recorded order.
fn taken_calls(alloc: Global, records: &Records, steps: &[u32]) -> Result<Found, AllocError>
    requires { (n : ℕ) → In n steps.now → (r : record_spec) × IsKeptAs records.now.held n r }
    ensures found { IfOk result (λ found. AreFound found.list.items found.takers) }
    ensures calls { IfOk result (λ found. (P : Program) (query : Query) (rs : List record_spec) (t : State) → AreKeptAs records.now.held rs steps.now → Replays P query rs t
        → AreCallsBy rs (IsCallTaken rs) found.list.items) }
{
    let _count = records.len();
    let mut found = Found::new(alloc);
    for number in steps {
        let step = records.get(*number).unwrap();
        found.add_taken(step)?;
    }
    Ok(found)
}

// The place of each of the calls by its name: a look-up for each.
fn places_of(alloc: Global, list: &[Call]) -> Result<BTreeMap<GoalName, usize>, AllocError>
    ensures { IfOk result (λ places. ArePlacesOf list.now places) }
{
    let mut places = BTreeMap::new(alloc);
    for place in 0..list.len() {
        match places.insert(list[place].name, place) {
            Ok(_) => {}
            Err(_) => return Err(AllocError),
        }
    }
    Ok(places)
}

/// The calls that the steps of these numbers took, in recorded order, and the call asked about, if one is. It costs some look-ups for
/// each step.
pub(crate) fn calls_of(
    alloc: Global,
    records: &Records,
    steps: &[u32],
    asked_about: Option<GoalName>,
) -> Result<Calls, AllocError>
    requires { (n : ℕ) → In n steps.now → (r : record_spec) × IsKeptAs records.now.held n r }
    ensures { IfOk result (λ calls. (P : Program) (query : Query) (rs : List record_spec) (t : State) (target : Option goal_name) → AreKeptAs records.now.held rs steps.now
        → Replays P query rs t → IsAskedAbout t target asked_about → AreCallsOf rs t target calls.list.items) }
{
    let mut found = taken_calls(alloc, records, steps)?;
    if let Some(name) = asked_about {
        found.push(name, None)?;
    }
    let Found {
        list,
        takers: _takers,
    } = found;
    let places = places_of(alloc, list.as_slice())?;
    Ok(Calls { list, places })
}
