// A round of workers.
ghost use Rattle.std.specs.Prelude.{◌≡◌, ◌≤◌, ◌+◌, ◌<◌, ◌^◌, ℕ, [], length, List, IfOk, IfErr, IfSome, true};
ghost use Rattle.std.specs.Vec.{vec_capacity, vec_len};
ghost use Rattle.ghc_term.specs.declared.goal_name.GoalName.{GoalName as goal_name};
ghost use Rattle.std.specs.declared.alloc.Global.{Global as heap};
ghost use Rattle.atomic_blocks.specs.Lent.{RowsId};
ghost use Rattle.ghc_pool.specs.inner.Fair.{all_parts};
ghost use Rattle.ghc_pool.specs.inner.Workers.{works, over, in_of, out_of, submits_of, total_work, submits_by, AreSettled};
ghost use Rattle.ghc_pool.specs.inner.Stops.{joined, AreWell, AreJudged};
ghost use Rattle.ghc_pool.specs.inner.Opened.{AreStarting, AreCounted, AreJobs, workers_in, passes_in};
ghost use Rattle.ghc_pool.specs.inner.Gathered.{AreReady, HaveParts, HaveGivenBack, AreTold, FirstBegins, own_deques, all_victims};

use crate::answer::{RoundStop, joined};
use crate::craft::Craft;
use crate::rounds::budget::{Budget, Limited};
use crate::rounds::draining::drain_all;
use crate::rounds::gathering::gather;
use crate::rounds::permits::Permits;
use crate::rounds::starting::{new_workers, offer_first};
use crate::rounds::worker::Worker;
use crate::rounds::working::{Crew, Job};
use ghc_shared::tend_all;
use ghc_term::GoalName;
use std::alloc::Global;
use std::sync::atomic::{AtomicBool, AtomicU64};
use std::sync::ledger::{Blank, Share};
use std::sync::{Mutex, Wait};
use std::thread::Threads;

/// What the workers of a round did, and the reason to stop, if there is one.
#[derive(Drop)]
pub struct Ended {
    pub workers: Vec<Worker>,
    pub stop: Option<RoundStop>,
}

// Room for so many jobs, and for the workers that come out of them.
fn room_for<P: Drop, L: Limited>(
    alloc: Global,
    count: usize,
) -> Option<(Vec<Job<P, L>>, Vec<Worker>)>
    ensures jobs { IfSome result (λ room. (room.0.items ≡ []) × (count ≤ vec_capacity room.0)) }
    ensures workers { IfSome result (λ room. (room.1.items ≡ []) × (count ≤ vec_capacity room.1)) }
{
    let jobs = Vec::with_capacity(alloc, count).ok()?;
    let workers = Vec::with_capacity(alloc, count).ok()?;
    Some((jobs, workers))
}

// Gives each worker a pass and a share of the budget, for which there is room.
fn hire<P: Drop, C: Craft<P>, L: Limited>(
    craft: &C,
    workers: Vec<Worker>,
    passes: &mut Vec<P>,
    rest: &mut Share<L>,
    jobs: &mut Vec<Job<P, L>>,
)
    requires passes { vec_len passes.old ≡ vec_len workers }
    requires room { (jobs.old.items ≡ []) × (vec_len workers ≤ vec_capacity jobs.old) }
    requires rest { (rest.old.parts ≡ vec_len workers + 1) × (rest.old.amount ≡ 0) }
    ensures jobs { (k : ℕ) → AreStarting k (own_deques workers.items) workers.items → AreJobs (C.fed craft.now) (C.asks craft.now) (C.tells craft.now) k (own_deques workers.items) passes.old.items jobs.new.items }
    ensures workers { workers_in jobs.new.items ≡ workers.items }
    ensures passes { (passes.new.items ≡ []) × (vec_capacity passes.new ≡ vec_capacity passes.old) }
    ensures rest { (rest.new.parts ≡ 1) × (rest.new.amount ≡ 0) }
    ensures count { vec_len jobs.new ≡ vec_len workers }
{
    let mut workers = workers;
    for number in 0..workers.len() {
        let worker = workers.remove(0);
        let pass = passes.remove(0);
        craft.begin(&pass);
        let share = rest.split_off(1, 0);
        jobs.push_reserved(Job {
            number,
            worker,
            pass,
            share,
            spare: 0,
        });
    }
}

// Takes the jobs apart: the shares of the budget come together. Gives how many permits were not used.
fn dismiss<P: Drop, L: Limited>(
    jobs: Vec<Job<P, L>>,
    workers: &mut Vec<Worker>,
    passes: &mut Vec<P>,
    rest: &mut Share<L>,
) -> u64
    requires counted { AreCounted jobs.items }
    requires few { vec_len jobs ≤ 64 }
    requires workers { (workers.old.items ≡ []) × (vec_len jobs ≤ vec_capacity workers.old) }
    requires passes { (passes.old.items ≡ []) × (vec_len jobs ≤ vec_capacity passes.old) }
    ensures workers { workers.new.items ≡ workers_in jobs.items }
    ensures passes { passes.new.items ≡ passes_in jobs.items }
    ensures parts { rest.new.parts ≡ rest.old.parts + vec_len jobs }
    ensures counted { rest.new.amount ≡ rest.old.amount + (over submits_of (workers_in jobs.items) + result) }
{
    let mut jobs = jobs;
    let mut unused = 0;
    for moved in 0..jobs.len() {
        let Job {
            number: _,
            worker,
            pass,
            share,
            spare,
        } = jobs.remove(0);
        rest.merge(share);
        unused += spare;
        workers.push_reserved(worker);
        passes.push_reserved(pass);
    }
    unused
}

// The reason for which the first of the workers stopped, or that memory was refused to one of them; or that none stopped.
fn first_stop<P, C: Craft<P>>(craft: &C, workers: &Vec<Worker>) -> Option<RoundStop>
    requires { AreWell (C.fed craft.now) (C.asks craft.now) (works workers.now.items) }
    ensures { AreJudged (C.fed craft.now) (C.asks craft.now) ⊥ result (works workers.now.items) }
{
    let _ = craft;
    let mut found = None;
    for worker in workers {
        found = joined(found, worker.stop);
    }
    found
}

// The end of a round, after the threads: the passes come back, what is still in the deques is decided or left, and the budget is
// closed.
fn finish<P, C: Craft<P>, L: Limited, R: Wait>(
    rt: &R,
    alloc: Global,
    craft: &C,
    workers: &mut Vec<Worker>,
    passes: &mut Vec<P>,
    permits: Permits<L>,
) -> Option<RoundStop>
    requires ready { AreReady workers.old.items }
    requires victims { HaveGivenBack 0 (own_deques workers.old.items) (all_victims workers.old.items) }
    requires parts { (k : ℕ) × HaveParts k workers.old.items × (k + vec_len workers.old ≡ all_parts) }
    requires balanced { (h : goal_name → ℕ) → over (in_of h) workers.old.items ≡ over (out_of h) workers.old.items }
    requires well { AreWell (C.fed craft.now) (C.asks craft.now) (works workers.old.items) }
    requires passes { vec_len passes.old ≡ vec_len workers.old }
    requires share { (permits.share.parts ≡ L.parts) × (0 < L.parts) }
    requires counted { permits.share.amount ≡ over submits_of workers.old.items + permits.spare }
    ensures settled { AreSettled (works workers.new.items) }
    ensures few { total_work submits_by (works workers.new.items) ≤ L.limit }
    ensures judged { AreJudged (C.fed craft.now) (C.asks craft.now) ((C.takes craft.now ≡ true) × (total_work submits_by (works workers.new.items) ≡ L.limit)) result (works workers.new.items) }
    ensures tells { (starts : List P) → AreTold (C.tells craft.now) starts (works workers.old.items) passes.old.items → AreTold (C.tells craft.now) starts (works workers.new.items) passes.new.items }
    ensures begins { (names : List goal_name) → FirstBegins names (works workers.old.items) → FirstBegins names (works workers.new.items) }
{
    let mut permits = permits;
    let first = first_stop(craft, workers);
    gather(alloc, workers);
    let stop = drain_all(rt, craft, workers, passes, &mut permits, first);
    let Permits {
        budget,
        mut share,
        spare: _,
    } = permits;
    budget.close(&mut share);
    stop
}

// The workers work, each in a thread of its own.
fn work_in_threads<P: Send, C: Craft<P> + Sync, L: Limited + Send + Sync, R: Threads + Wait + Sync>(
    rt: &R,
    alloc: Global,
    craft: &C,
    budget: Budget<L>,
    jobs: &mut Vec<Job<P, L>>,
) -> Budget<L>
    requires some { 0 < vec_len jobs.old }
    requires jobs { (k : ℕ) × (ds : List (RowsId × heap)) × (starts : List P) × AreJobs (C.fed craft.now) (C.asks craft.now) (C.tells craft.now) k ds starts jobs.old.items }
    ensures jobs { (k : ℕ) (ds : List (RowsId × heap)) (starts : List P) → AreJobs (C.fed craft.now) (C.asks craft.now) (C.tells craft.now) k ds starts jobs.old.items → AreJobs (C.fed craft.now) (C.asks craft.now) (C.tells craft.now) k ds starts jobs.new.items }
    ensures deques { own_deques (workers_in jobs.new.items) ≡ own_deques (workers_in jobs.old.items) }
    ensures begins { (names : List goal_name) → FirstBegins names (works (workers_in jobs.old.items)) → FirstBegins names (works (workers_in jobs.new.items)) }
    ensures count { vec_len jobs.new ≡ vec_len jobs.old }
{
    let budget = Mutex::new(budget);
    let halted = AtomicBool::new(false);
    let at_work = AtomicU64::new(0);
    let door = Mutex::new(());
    let crew = Crew {
        rt,
        alloc,
        craft,
        budget: &budget,
        halted: &halted,
        at_work: &at_work,
        door: &door,
    };
    let threads = jobs.len();
    tend_all(rt, &crew, jobs.as_mut_slice(), threads);
    budget.into_inner()
}

// What comes after the threads: the jobs are taken apart, and the round ends.
fn conclude<P: Drop, C: Craft<P>, L: Limited, R: Wait>(
    rt: &R,
    alloc: Global,
    craft: &C,
    jobs: Vec<Job<P, L>>,
    workers: &mut Vec<Worker>,
    passes: &mut Vec<P>,
    budget: Budget<L>,
    share: Share<L>,
) -> Option<RoundStop>
    requires jobs { (k : ℕ) × (starts : List P) × (k + vec_len jobs ≡ all_parts) × AreJobs (C.fed craft.now) (C.asks craft.now) (C.tells craft.now) k (own_deques (workers_in jobs.items)) starts jobs.items }
    requires few { vec_len jobs ≤ 64 }
    requires workers { (workers.old.items ≡ []) × (vec_len jobs ≤ vec_capacity workers.old) }
    requires passes { (passes.old.items ≡ []) × (vec_len jobs ≤ vec_capacity passes.old) }
    requires share { (share.parts + vec_len jobs ≡ L.parts) × (0 < share.parts) × (share.amount ≡ 0) }
    ensures settled { AreSettled (works workers.new.items) }
    ensures few { total_work submits_by (works workers.new.items) ≤ L.limit }
    ensures judged { AreJudged (C.fed craft.now) (C.asks craft.now) ((C.takes craft.now ≡ true) × (total_work submits_by (works workers.new.items) ≡ L.limit)) result (works workers.new.items) }
    ensures tells { (k : ℕ) (ds : List (RowsId × heap)) (starts : List P) → AreJobs (C.fed craft.now) (C.asks craft.now) (C.tells craft.now) k ds starts jobs.items → AreTold (C.tells craft.now) starts (works workers.new.items) passes.new.items }
    ensures begins { (names : List goal_name) → FirstBegins names (works (workers_in jobs.items)) → FirstBegins names (works workers.new.items) }
{
    let mut share = share;
    let spare = dismiss(jobs, workers, passes, &mut share);
    let permits = Permits {
        budget,
        share,
        spare,
    };
    finish(rt, alloc, craft, workers, passes, permits)
}

/// A round: as many workers as there are passes, each in a thread of its own. The first begins with the names that are handed in.
/// Where memory is refused for what the round has to have room for, nothing is offered, and the passes come back as they were.
pub fn work_together<
    P: Send + Drop,
    C: Craft<P> + Sync,
    L: Limited + Send + Sync,
    R: Threads + Wait + Sync,
>(
    rt: &R,
    alloc: Global,
    craft: &C,
    blank: Blank,
    limit: u64,
    mut passes: Vec<P>,
    names: &[GoalName],
) -> Result<(Vec<P>, Ended), Vec<P>>
    requires name { (blank.name ≡ L.name) × (blank.parts ≡ L.parts) × (blank.parts ≡ vec_len passes + 1) × (limit ≡ L.limit) }
    requires count { (0 < vec_len passes) × (vec_len passes ≤ 64) }
    requires few { length names.now < 2 ^ 60 }
    ensures settled { IfOk result (λ r. AreSettled (works r.1.workers.items)) }
    ensures few { IfOk result (λ r. total_work submits_by (works r.1.workers.items) ≤ limit) }
    ensures judged { IfOk result (λ r. AreJudged (C.fed craft.now) (C.asks craft.now) ((C.takes craft.now ≡ true) × (total_work submits_by (works r.1.workers.items) ≡ limit)) r.1.stop (works r.1.workers.items)) }
    ensures tells { IfOk result (λ r. AreTold (C.tells craft.now) passes.items (works r.1.workers.items) r.0.items) }
    ensures begins { IfOk result (λ r. FirstBegins names.now (works r.1.workers.items)) }
    ensures refused { IfErr result (λ back. back ≡ passes) }
{
    let count = passes.len();
    let Some(mut hired) = new_workers(alloc, count) else {
        return Err(passes);
    };
    let Some((mut jobs, mut workers)) = room_for(alloc, count) else {
        return Err(passes);
    };
    if !offer_first(&mut hired, names) {
        return Err(passes);
    }
    let (made, mut share) = blank.open::<L>();
    hire(craft, hired, &mut passes, &mut share, &mut jobs);
    let budget = work_in_threads(rt, alloc, craft, Budget::new(limit, made), &mut jobs);
    let stop = conclude(
        rt,
        alloc,
        craft,
        jobs,
        &mut workers,
        &mut passes,
        budget,
        share,
    );
    Ok((passes, Ended { workers, stop }))
}
