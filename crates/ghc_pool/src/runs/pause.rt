// What a run does before its first step and between its stretches: it settles, and looks whether there is a reason to stop.
ghost use Rattle.std.specs.Prelude.{◌≡◌, ℕ, IfOk, IfErr};
ghost use Rattle.ghc_term.specs.Lists.{In};
ghost use Rattle.ghc_term.specs.declared.goal_name.GoalName.{GoalName as goal_name};
ghost use Rattle.ghc_core.specs.Settling.{AreKept};
ghost use Rattle.ghc_pool.specs.Runs.{IsReady, CanGoOn, Holds};

use crate::runs::survey::survey;
use crate::stop::Stop;
use ghc_core::Core;
use ghc_term::GoalName;
use ghc_trace::SpySet;
use std::alloc::Global;

// Tries the untried goals, and gives the last goals in question that are ready, by step, then place, where a run can go on: as many as it
// may take steps, and one at least. Where it cannot, it gives the reason to stop. It costs the tries, and what `survey` does.
pub fn pause(
    core: &mut Core,
    alloc: Global,
    spies: &SpySet,
    root: Option<GoalName>,
    most: usize,
) -> Result<Vec<GoalName>, Stop>
    ensures world { core.new.world ≡ core.old.world }
    ensures kept { AreKept core.old.notes core.new.notes }
    ensures ready { IfOk result (λ _. CanGoOn spies.now root core.new.world) }
    ensures each { IfOk result (λ ready. (g : goal_name) → In g ready.items → IsReady root core.new.world g) }
    ensures stop { IfErr result (λ stop. (limit taken : ℕ) → Holds (Unit {0}) spies.now root limit taken core.new.world core.new.notes stop) }
{
    let Ok(_) = core.settle(alloc) else {
        return Err(Stop::Memory);
    };
    match core.sort_goals() {
        Ok(()) => survey(core, alloc, spies, root, most),
        Err(_) => Err(Stop::Memory),
    }
}
