// What the goals in question are to a run, by the notes of a core where no goal is untried.
ghost use Rattle.std.specs.Prelude.{◌≡◌, ◌<◌, ◌↔◌, ℕ, reverse, IsTrue, IfOk, IfErr, IfSome, IfNone};
ghost use Rattle.std.specs.FinSet as set;
ghost use Rattle.ghc_term.specs.Lists.{In};
ghost use Rattle.ghc_term.specs.declared.goal_name.GoalName.{GoalName as goal_name};
ghost use Rattle.ghc_pool.specs.Runs.{IsInQuestion, IsReady, IsSpiedIn, CanGoOn, Holds};
ghost use Rattle.ghc_pool.specs.inner.Survey.{AreLast};

use crate::runs::question::{is_in_question, is_spied_in};
use crate::stop::Stop;
use ghc_core::Core;
use ghc_term::GoalName;
use ghc_trace::SpySet;
use std::alloc::{AllocError, Global};
use std::collections::BTreeSet;

// The first of the goals that is in question, if one is: a test of each goal up to it.
fn first_asked(core: &Core, root: Option<GoalName>, goals: &BTreeSet<GoalName>) -> Option<GoalName>
    ensures some { IfSome result (λ g. In g goals.now.keys × IsInQuestion root core.now.world.kept g) }
    ensures none { IfNone result ((g : goal_name) → In g goals.now.keys → ¬ IsInQuestion root core.now.world.kept g) }
{
    for goal in goals {
        if is_in_question(core, root, *goal) {
            return Some(*goal);
        }
    }
    None
}

// Whether the goal is a call of a spied predicate and in question: two look-ups, and a test where it is spied.
fn is_spied_and_asked(core: &Core, spies: &SpySet, root: Option<GoalName>, goal: GoalName) -> bool
    ensures { IsTrue result ↔ (IsInQuestion root core.now.world.kept goal × IsSpiedIn spies.now core.now.world goal) }
{
    if !is_spied_in(core, spies, goal) {
        return false;
    }
    is_in_question(core, root, goal)
}

// The first of the goals that is a call of a spied predicate and in question, if one is: a step where nothing is spied, and else two
// look-ups for each goal up to it.
fn first_spied(
    core: &Core,
    spies: &SpySet,
    root: Option<GoalName>,
    goals: &BTreeSet<GoalName>,
) -> Option<GoalName>
    ensures some { IfSome result (λ g. In g goals.now.keys × IsInQuestion root core.now.world.kept g × IsSpiedIn spies.now core.now.world g) }
    ensures none { IfNone result ((g : goal_name) → In g goals.now.keys → IsInQuestion root core.now.world.kept g → ¬ IsSpiedIn spies.now core.now.world g) }
{
    if spies.is_empty() {
        return None;
    }
    for goal in goals {
        if is_spied_and_asked(core, spies, root, *goal) {
            return Some(*goal);
        }
    }
    None
}

// The last of the goals that are in question, the last one first: all of them, or as many as asked. Each goal down to the last that is
// listed is tested.
fn last_asked(
    core: &Core,
    alloc: Global,
    root: Option<GoalName>,
    goals: &BTreeSet<GoalName>,
    most: usize,
) -> Result<Vec<GoalName>, AllocError>
    ensures { IfOk result (λ listed. AreLast (IsInQuestion root core.now.world.kept) most goals.now.keys (reverse listed.items)) }
{
    let mut listed = Vec::new(alloc);
    let mut names = goals.iter();
    while listed.len() < most {
        let Some(goal) = names.next_back() else {
            return Ok(listed);
        };
        if is_in_question(core, root, *goal) {
            listed.push(*goal)?;
        }
    }
    Ok(listed)
}

// So many, and one at least.
fn one_at_least(most: usize) -> usize
    ensures { 0 < result }
{
    if most == 0 {
        return 1;
    }
    most
}

// The last goals in question that are ready, by step, then place, where a run can go on: as many as asked, and one at least. Where it
// cannot, the reason to stop. Where nothing is spied and no root is named, it costs a step or two for each goal that it gives, however
// many are ready. With spies each ready goal costs two look-ups. With a root each goal that has failed is tested for being in
// question, and the ready ones from the last one down.
pub fn survey(
    core: &Core,
    alloc: Global,
    spies: &SpySet,
    root: Option<GoalName>,
    most: usize,
) -> Result<Vec<GoalName>, Stop>
    requires { core.now.untried ≡ set.empty }
    ensures ready { IfOk result (λ _. CanGoOn spies.now root core.now.world) }
    ensures each { IfOk result (λ ready. (g : goal_name) → In g ready.items → IsReady root core.now.world g) }
    ensures stop { IfErr result (λ stop. (limit taken : ℕ) → Holds (Unit {0}) spies.now root limit taken core.now.world core.now.notes stop) }
{
    core.stands();
    let Some(goals) = core.tries().sorted() else {
        return Err(Stop::Memory);
    };
    if let Some(goal) = first_asked(core, root, &goals.failed) {
        return Err(Stop::Clash(goal));
    }
    if let Some(goal) = first_spied(core, spies, root, &goals.ready) {
        return Err(Stop::Spied(goal));
    }
    if core.is_full() {
        return Err(Stop::Full);
    }
    let Ok(listed) = last_asked(core, alloc, root, &goals.ready, one_at_least(most)) else {
        return Err(Stop::Memory);
    };
    if listed.is_empty() {
        return Err(Stop::Quiet);
    }
    let mut ready = listed;
    ready.reverse();
    Ok(ready)
}
