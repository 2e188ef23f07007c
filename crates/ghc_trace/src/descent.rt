// Which goals descend from a goal.
ghost use Rattle.std.specs.Prelude.{◌≡◌, ◌↔◌, IfSome, IfNone, IsTrue};
ghost use Rattle.ghc_term.specs.Lists.{In};
ghost use Rattle.ghc_records.specs.Record.{Record};
ghost use Rattle.ghc_depend.specs.Depend.{MakesGoal, Descends};

use ghc_core::Core;
use ghc_records::{Record, Records};
use ghc_term::GoalName;

// The kept step that made the goal, if one did: one look-up.
fn maker_of(records: &Records, goal: GoalName) -> Option<&Record>
    ensures found { IfSome result (λ maker. In maker.now records.now.held × MakesGoal maker.now goal) }
    ensures none { IfNone result ((r : Record) → In r records.now.held → ¬ MakesGoal r goal) }
{
    let _count = records.len();
    let Some(maker) = records.get(goal.step) else {
        return None;
    };
    if goal.place == 0 || goal.place > maker.effect().made() {
        return None;
    }
    Some(maker)
}

/// Whether the goal descends from the root: it is the root itself, or was made by a kept step whose goal descends from the root.
/// It goes up from the goal to the root or to a goal that no kept step made, with a look-up for each goal on that way, and takes
/// no memory.
pub fn descends(core: &Core, goal: GoalName, root: GoalName) -> bool
    ensures { IsTrue result ↔ Descends core.now.world.kept root goal }
{
    core.stands();
    let records = core.records();
    let mut current = goal;
    while current != root {
        let Some(maker) = maker_of(records, current) else {
            return false;
        };
        let Some(taken) = maker.goal() else {
            return false;
        };
        current = taken;
    }
    true
}
