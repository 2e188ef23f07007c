// Which goals are in question for a run, and which of them are spied.
ghost use Rattle.std.specs.Prelude.{◌≡◌, ◌↔◌, IsTrue, Some};
ghost use Rattle.std.specs.FinMap as finite;
ghost use Rattle.ghc_term.specs.Goal.{Goal as goal_spec};
ghost use Rattle.ghc_pool.specs.Runs.{IsInQuestion, IsSpiedIn};
ghost use Rattle.ghc_pool.specs.inner.Meeting.{TookInQuestion};

use ghc_core::Core;
use ghc_term::GoalName;
use ghc_trace::{SpySet, descends};

// Whether the goal is in question: any goal is, or where a root is named, those that descend from it. It costs nothing, or what
// `descends` does, and takes no memory.
pub(crate) fn is_in_question(core: &Core, root: Option<GoalName>, goal: GoalName) -> bool
    ensures { IsTrue result ↔ IsInQuestion root core.now.world.kept goal }
{
    match root {
        Some(named) => descends(core, goal, named),
        None => true,
    }
}

// The same of a goal that is there, where since this number each kept step took a goal in question: what was made since then is in
// question too, which costs nothing to see.
pub(crate) fn is_in_question_since(
    core: &Core,
    root: Option<GoalName>,
    since: u32,
    goal: GoalName,
) -> bool
    requires there { (b : goal_spec) × (finite.get core.now.world.state.goals goal ≡ Some b) }
    requires took { TookInQuestion root core.now.world.kept since }
    ensures { IsTrue result ↔ IsInQuestion root core.now.world.kept goal }
{
    core.stands();
    if goal.step >= since {
        return true;
    }
    is_in_question(core, root, goal)
}

// Whether the goal is there, and is a call of a spied predicate: two look-ups, or none where nothing is spied.
#[inline(always)]
pub(crate) fn is_spied_in(core: &Core, spies: &SpySet, goal: GoalName) -> bool
    ensures { IsTrue result ↔ IsSpiedIn spies.now core.now.world goal }
{
    if spies.is_empty() {
        return false;
    }
    match core.goals().get(goal) {
        Some(found) => spies.is_spied(found),
        None => false,
    }
}
