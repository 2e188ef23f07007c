// Runs of a core by one worker or several.
ghost use Rattle.std.specs.Prelude.{◌≡◌};
ghost use Rattle.ghc_term.specs.Lists.{In};
ghost use Rattle.ghc_term.specs.declared.goal_name.GoalName.{GoalName as goal_name};
ghost use Rattle.ghc_pool.specs.Runs.{CanGoOn, IsInQuestion, Runs, RunsIn, IsSettled};
ghost use Rattle.ghc_pool.specs.Modes.{root_of};

use crate::gate::Gate;
use crate::mode::Mode;
use crate::runs::alone::run;
use crate::runs::pause::pause;
use crate::runs::stretches::Team;
use crate::stop::{Report, Stop};
use crate::workers::Workers;
use ghc_core::Core;
use ghc_term::GoalName;
use ghc_trace::SpySet;
use std::alloc::Global;
use std::sync::Wait;
use std::thread::Threads;

// Tries the untried goals, and takes no step.
fn settle(alloc: Global, core: Core) -> (Core, Report)
    ensures world { result.0.world ≡ core.world }
    ensures none { result.1.added ≡ 0 }
    ensures settled { IsSettled (Unit {0}) result.0.world result.0.notes result.1.stop }
{
    let mut core = core;
    match core.settle(alloc) {
        Ok(_) => {
            core.stands();
            let stop = Stop::Quiet;
            (core, Report { added: 0, stop })
        }
        Err(_) => {
            let stop = Stop::Memory;
            (core, Report { added: 0, stop })
        }
    }
}

impl<R: Threads + Wait + Sync, G: Gate + Sync> Team<'_, R, G> {
    // Takes steps, until there is a reason to stop, where a run can go on and these goals in question are ready.
    fn go_on(
        &self,
        core: Core,
        root: Option<GoalName>,
        limit: usize,
        ready: Vec<GoalName>,
    ) -> (Core, Report)
        requires several { self.now.workers ≡ 1 → ⊥ }
        requires can { CanGoOn self.now.spies.now root core.world }
        requires asked { (g : goal_name) → In g ready.items → IsInQuestion root core.world.kept g }
        ensures { Runs (Unit {0}) self.now.workers self.now.spies.now root limit core.world result.0.world result.0.notes result.1 }
    {
        let mut core = core;
        let mut listed = ready;
        let mut added = 0;
        while added < limit {
            let (left, taken) = self.stretch(core, root, limit - added, listed);
            core = left;
            if taken == 0 {
                // A listed goal is ready, not spied, and has room: its step was refused only because memory was.
                let stop = Stop::Memory;
                return (core, Report { added, stop });
            }
            added += taken;
            match pause(&mut core, self.alloc, self.spies, root, limit - added) {
                Ok(ready) => listed = ready,
                Err(stop) => return (core, Report { added, stop }),
            }
        }
        let stop = Stop::Limit;
        (core, Report { added, stop })
    }

    // Takes steps, until there is a reason to stop.
    fn run(&self, core: Core, root: Option<GoalName>, limit: usize) -> (Core, Report)
        ensures runs { Runs (Unit {0}) self.now.workers self.now.spies.now root limit core.world result.0.world result.0.notes result.1 }
        ensures stopped { ¬ CanGoOn self.now.spies.now root core.world → result.1.added ≡ 0 }
    {
        let mut core = core;
        if self.workers.count() == 1 {
            let report = run(&mut core, self.alloc, self.spies, root, limit);
            return (core, report);
        }
        match pause(&mut core, self.alloc, self.spies, root, limit) {
            Ok(ready) => self.go_on(core, root, limit, ready),
            Err(stop) => (core, Report { added: 0, stop }),
        }
    }
}

/// Runs the core in the mode given, by so many workers, and gives it back with a report. Steps are taken until there is a reason to stop,
/// as `run` does; or, to settle, the untried goals are tried and none is taken. Each step was proposed, holds where it is taken, and is
/// of a goal in question that is no call of a spied predicate. The reason that is reported holds of the core that comes back.
///
/// One worker does what `run` does. Several share the core for rounds, each after a look at the core that is alone. They work off all
/// goals that are ready then, and those that their steps make or wake, in any order that threads happen to take. Threads are started
/// for each round; where one goal alone is ready, up to 64 steps are taken without them. Where nothing is spied, and the gate holds
/// nobody up, a step costs one attempt and one holding of the lock, and no two are attempted at the same time. But the attempt at a call
/// for which the program has more than 32 clauses, and which reaches few terms, is made with no lock held, while others are made. Else a
/// step costs a proposal and a commit, which attempts it again where it is not a small call's that read nothing. So several workers show
/// a program under other orders, and make it faster only where most of its work is such calls. Where memory is refused, so that no step is
/// taken, the run stops for that. It waits where the gate waits.
pub fn run_together<R: Threads + Wait + Sync, G: Gate + Sync>(
    rt: &R,
    alloc: Global,
    core: Core,
    mode: Mode,
    spies: &SpySet,
    workers: Workers,
    gate: &G,
) -> (Core, Report)
    ensures ran { RunsIn mode (Unit {0}) workers spies.now core.world result.0.world result.0.notes result.1 }

    // Where a run cannot go on nothing is added.
    ensures stopped { ¬ CanGoOn spies.now (root_of mode) core.world → result.1.added ≡ 0 }
{
    let team = Team {
        rt,
        alloc,
        spies,
        gate,
        workers,
    };
    match mode {
        Mode::Leap { limit } => team.run(core, None, limit),
        Mode::Skip { root, limit } => team.run(core, Some(root), limit),
        Mode::Settle => settle(alloc, core),
    }
}
