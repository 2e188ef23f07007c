// Runs of a core.
ghost use Rattle.std.specs.Prelude.{◌≡◌};
ghost use Rattle.ghc_pool.specs.Runs.{CanGoOn, Runs};

use crate::runs::drain::drain;
use crate::runs::pause::pause;
use crate::stop::{Report, Stop};
use ghc_core::Core;
use ghc_term::GoalName;
use ghc_trace::SpySet;
use std::alloc::Global;

// Takes steps, until there is a reason to stop, where a run can go on and these goals in question are ready.
fn go_on(
    core: &mut Core,
    alloc: Global,
    spies: &SpySet,
    root: Option<GoalName>,
    limit: usize,
    ready: Vec<GoalName>,
) -> Report
    requires { CanGoOn spies.now root core.old.world }
    ensures { Runs (Unit {0}) 1 spies.now root limit core.old.world core.new.world core.new.notes result }
{
    let mut listed = ready;
    let mut added = 0;
    while added < limit {
        let taken = drain(core, alloc, spies, root, limit - added, &mut listed);
        if taken == 0 {
            // A listed goal is ready, not spied, and has room: its step was refused only because memory was.
            return Report {
                added,
                stop: Stop::Memory,
            };
        }
        added += taken;
        match pause(core, alloc, spies, root, limit - added) {
            Ok(ready) => listed = ready,
            Err(stop) => return Report { added, stop },
        }
    }
    Report {
        added,
        stop: Stop::Limit,
    }
}

/// Takes steps, one after another, until there is a reason to stop. It reports that reason, and how many steps it took: at most as many
/// as the limit says. Each is of a goal in question that is no call of a spied predicate; a call goes by the least clause that accepts it.
/// Any goal is in question, or where a root is named, those that descend from it. Of several reasons that hold it reports the first of
/// clash, spied, memory, full, quiet and limit. It takes no step where one of them but the last holds at the start, nor once it has met
/// a failed goal in question.
///
/// The goals that the run makes come first: the newest step's before the others, and of one step the first before the others. Then come
/// those that were ready, and then those that the run wakes. A step is found with one attempt and taken at once. A goal is noted only
/// where its step is refused, where it is spied, or where it is not in question. A run costs its attempts and steps, and with a root
/// named, the way up from each goal that it meets and did not make. At its start and at its end it costs the tries of the goals that are
/// untried, and a search for each goal that does not wait and was noted since a run began or ended. Only with spies or a root does it cost
/// look-ups for the others that are ready.
pub fn run(
    core: &mut Core,
    alloc: Global,
    spies: &SpySet,
    root: Option<GoalName>,
    limit: usize,
) -> Report
    ensures runs { Runs (Unit {0}) 1 spies.now root limit core.old.world core.new.world core.new.notes result }

    // Where a run cannot go on nothing is added.
    ensures stopped { ¬ CanGoOn spies.now root core.old.world → result.added ≡ 0 }
{
    match pause(core, alloc, spies, root, limit) {
        Ok(ready) => go_on(core, alloc, spies, root, limit, ready),
        Err(stop) => Report { added: 0, stop },
    }
}
