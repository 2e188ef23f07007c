// Goals that a step makes and consumes are put there and taken away.
ghost use Rattle.std.specs.Prelude.{◌≡◌, ◌+◌, ◌<◌, ◌≤◌, length};
ghost use Rattle.ghc_records.specs.Record.{with_makes, without_goal};
ghost use Rattle.ghc_records.specs.State.{with_goal, without_makes};
ghost use Rattle.ghc_records.specs.inner.Handles.{goals_of};

use crate::handles::Handles;
use ghc_fire::{Goals, MadeGoal};
use ghc_term::GoalName;

/// Takes the goal of this name away, if one is named: one look-up.
pub(crate) fn consume_goal(goals: &mut Goals, name: Option<GoalName>)
    ensures held { goals.new.held ≡ without_goal name goals.old.held }
    ensures room { goals.old.room ≤ goals.new.room }
{
    if let Some(name) = name {
        goals.remove(name);
    }
}

/// Puts the goal that a step consumed back under its name, if it consumed one: one look-up.
pub(crate) fn restore_consumed(
    goals: &mut Goals,
    name: Option<GoalName>,
    consumed: Option<MadeGoal>,
)
    requires { 0 < goals.old.room }
    ensures held { goals.new.held ≡ with_goal name consumed goals.old.held }
    ensures room { goals.old.room ≤ goals.new.room + 1 }
{
    if let (Some(name), Some(goal)) = (name, consumed) {
        goals.put(name, goal);
    }
}

/// Takes the goals `n.k`, .., `n.1` away: one look-up for each.
pub(crate) fn unmake_goals(goals: &mut Goals, step: u32, count: u32)
    ensures held { goals.new.held ≡ without_makes step count goals.old.held }
    ensures room { goals.old.room ≤ goals.new.room }
{
    let mut place = count;
    while place > 0 {
        goals.remove(GoalName { step, place });
        place -= 1;
    }
}

// Puts the goals of the list there as `n.1`, `n.2`, .., of which there are as many as counted, where there is room: a look-up for each.
fn make_list(goals: &mut Goals, step: u32, mut makes: Vec<MadeGoal>, count: u32)
    requires count { count ≡ length makes.items }
    requires room { length makes.items ≤ goals.old.room }
    ensures { goals.new.held ≡ with_makes step 1 makes.items goals.old.held }
{
    let mut place = count;
    while let Some(goal) = makes.pop() {
        goals.put(GoalName { step, place }, goal);
        place -= 1;
    }
}

/// Puts the goals there as `n.1`, `n.2`, .., of which there are as many as counted, where there is room: a look-up for each.
#[inline(always)]
pub(crate) fn make_goals(goals: &mut Goals, step: u32, makes: Handles, count: u32)
    requires count { count ≡ length (goals_of makes) }
    requires room { length (goals_of makes) ≤ goals.old.room }
    ensures { goals.new.held ≡ with_makes step 1 (goals_of makes) goals.old.held }
{
    match makes {
        Handles::Nothing => {}
        Handles::One(first) => goals.put(GoalName { step, place: 1 }, first),
        Handles::Two(first, second) => {
            goals.put(GoalName { step, place: 2 }, second);
            goals.put(GoalName { step, place: 1 }, first);
        }
        Handles::More(list) => make_list(goals, step, list, count),
    }
}
