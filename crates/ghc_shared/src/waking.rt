// Which goals a step that is proposed would wake.
ghost use Rattle.std.specs.Prelude.{◌⊎◌};
ghost use Rattle.ghc_term.specs.Lists.{In};
ghost use Rattle.ghc_term.specs.declared.goal_name.GoalName.{GoalName as goal_name};
ghost use Rattle.ghc_shared.specs.inner.Calls.{LooksAmong};

use ghc_core::Core;
use ghc_term::{Bindings, GoalName};

// Lists the goals, as far as there is memory.
fn list_all(goals: &[GoalName], list: &mut Vec<GoalName>)
    ensures { (g : goal_name) → In g list.new.items → In g list.old.items ⊎ In g goals.now }
{
    for goal in goals {
        let _ = list.push(*goal);
    }
}

// Lists the goals whose notes looked at a variable that has a value here, as far as there is memory: one look-up for each variable
// and a place for each goal, which is listed once for each of its variables.
pub fn list_woken(core: &Core, binds: &Bindings, list: &mut Vec<GoalName>)
    ensures { (g : goal_name) → In g list.new.items → In g list.old.items ⊎ LooksAmong core.now.world binds.now g }
{
    core.stands();
    let tries = core.tries();
    for (x, _value) in binds.entries() {
        list_all(tries.looking_at(*x), list);
    }
}
