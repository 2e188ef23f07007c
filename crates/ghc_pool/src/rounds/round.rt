// A round over a shared core.
ghost use Rattle.std.specs.Prelude.{◌≡◌, ◌≤◌, ◌<◌, ◌^◌, [], length, IfOk, IfErr, true};
ghost use Rattle.std.specs.Vec.{vec_capacity, vec_len};
ghost use Rattle.ghc_pool.specs.inner.Workers.{works, total_work, submits_by, AreSettled};
ghost use Rattle.ghc_pool.specs.inner.Stops.{AreJudged};
ghost use Rattle.ghc_pool.specs.inner.Gathered.{AreTold, FirstBegins};
ghost use Rattle.ghc_pool.specs.inner.Told.{IsPassAfter, AreFedAnswers, Asks, submits_since};
ghost use Rattle.ghc_pool.specs.Modes.{takes_steps, limit_of};

use crate::answer::{RoundStop, Work};
use crate::deciding::Deciding;
use crate::gate::Gate;
use crate::manner::Manner;
use crate::mode::Mode;
use crate::rounds::threads::{Ended, work_together};
use crate::rounds::worker::Worker;
use crate::scope::Scope;
use ghc_core::Core;
use ghc_shared::{Naming, Pass, Shared};
use ghc_term::GoalName;
use ghc_trace::SpySet;
use std::alloc::Global;
use std::marker::Brand;
use std::sync::Wait;
use std::sync::ledger::Blank;
use std::thread::Threads;

/// What the workers of a round did, one after another, and why names were left, if some were.
#[derive(Drop)]
pub struct RoundReport {
    pub workers: Vec<Work>,
    pub stop: Option<RoundStop>,
}

// What the workers did, for which there is room.
fn take_apart(workers: Vec<Worker>, done: &mut Vec<Work>)
    requires room { (done.old.items ≡ []) × (vec_len workers ≤ vec_capacity done.old) }
    ensures { done.new.items ≡ works workers.items }
{
    let mut workers = workers;
    for moved in 0..workers.len() {
        let Worker {
            owner: _owner,
            victims: _victims,
            offered,
            taken,
            left,
            stop,
        } = workers.remove(0);
        done.push_reserved(Work {
            offered,
            taken,
            left,
            stop,
        });
    }
}

// What is told of a round that ended so. There is room for what the workers did.
fn report_of(ended: Ended, done: Vec<Work>) -> RoundReport
    requires room { (done.items ≡ []) × (vec_len ended.workers ≤ vec_capacity done) }
    ensures workers { result.workers.items ≡ works ended.workers.items }
    ensures stop { result.stop ≡ ended.stop }
{
    let Ended { workers, stop } = ended;
    let mut done = done;
    take_apart(workers, &mut done);
    RoundReport {
        workers: done,
        stop,
    }
}

/// A round over a shared core. As many workers as there are passes, from 1 to 64, each in a thread of its own, work off the names,
/// and the goals that their steps make or wake. The first offers first what is handed in. Where steps are taken, a worker proposes and
/// submits a step of each name in the scope, unless the goal is a call of a spied predicate. Where nothing is spied, and the gate holds
/// nobody up, it does both at once: under one holding of the lock, with one attempt. No such step is stale. But the attempt at a call
/// for which the program has more than 32 clauses, and which reaches few variables, is made of an excerpt, with no lock held; of eight
/// such calls at most before the worker submits them. It notes a name that is not in the scope or is spied, or of which no step could
/// be proposed. Where no steps are taken it notes each name. However names are weighed, what was offered is what was taken and what was
/// left. Each that was taken has an answer that is a receipt in what its worker's pass has seen. Each step that a pass has made is one
/// of these answers, and stands at the place of its receipt. Each submit, accepted or not, has its answer, and all workers together make
/// at most as many as the limit allows. Where there is no reason to stop, nothing is left. Where a worker has one, it and the others
/// end with what they have in hand. Where memory is refused for the room that the round needs, nothing is offered, and the passes come
/// back as they were. They always come back in their order.
pub fn round<'a, N: Naming + Send + Sync, R: Threads + Wait + Sync, G: Gate + Sync>(
    rt: &'a R,
    alloc: Global,
    shared: &'a Shared<Core, N>,
    passes: Vec<Pass<Core, N>>,
    mode: &Mode,
    scope: &'a Scope,
    spies: &'a SpySet,
    names: &[GoalName],
    gate: &'a G,
) -> Result<(Vec<Pass<Core, N>>, RoundReport), Vec<Pass<Core, N>>>
    requires count { (0 < vec_len passes) × (vec_len passes ≤ 64) }
    requires few { length names.now < 2 ^ 60 }
    ensures settled { IfOk result (λ r. AreSettled r.1.workers.items) }
    ensures few { IfOk result (λ r. total_work submits_by r.1.workers.items ≤ limit_of mode.now) }
    ensures made { IfOk result (λ r. submits_since passes.items r.0.items ≤ limit_of mode.now) }
    ensures judged { IfOk result (λ r. AreJudged AreFedAnswers (Asks N.opened spies.now (takes_steps mode.now)) ((takes_steps mode.now ≡ true) × (total_work submits_by r.1.workers.items ≡ limit_of mode.now)) r.1.stop r.1.workers.items) }
    ensures told { IfOk result (λ r. AreTold (IsPassAfter N.opened scope.now spies.now (takes_steps mode.now)) passes.items r.1.workers.items r.0.items) }
    ensures begins { IfOk result (λ r. FirstBegins names.now r.1.workers.items) }
    ensures refused { IfErr result (λ back. back ≡ passes) }
{
    let Ok(done) = Vec::with_capacity(alloc, passes.len()) else {
        return Err(passes);
    };
    let steps = mode.takes_steps();
    let manner = Manner::serving(rt, shared, gate.holds_up());
    let craft = Deciding {
        rt,
        alloc,
        shared,
        scope,
        spies,
        gate,
        steps,
        manner,
    };
    let limit = mode.limit();
    let blank = Blank::new(passes.len() as u64 + 1);
    match work_together::<Pass<Core, N>, Deciding<'_, N, R, G>, Brand, R>(
        rt, alloc, &craft, blank, limit, passes, names,
    ) {
        Ok(ended) => {
            let (passes, ended) = ended;
            Ok((passes, report_of(ended, done)))
        }
        Err(passes) => Err(passes),
    }
}
