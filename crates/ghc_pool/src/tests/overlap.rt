// Two workers of a run work side by side: while one of them holds a proposal, a submit of the other is answered.
use crate::gate::Gate;
use crate::mode::Mode;
use crate::runs::run::run_together;
use crate::stop::{Report, Stop};
use crate::tests::unifications::two;
use crate::workers::Workers;
use ghc_core::Core;
use ghc_term::GoalName;
use ghc_trace::SpySet;
use std::alloc::Global;
use std::process::Abort;
use std::sync::Wait;
use std::sync::atomic::{AtomicU64, Ordering};
use std::test::*;
use std::thread;
use std::thread::Threads;
use std::time::{Clock, Duration};

// A gate at which the first proposal is held until a submit of another worker is answered.
#[derive(Drop)]
struct Holding<'a, R: Wait + Clock> {
    rt: &'a R,
    // Who holds it: the number of the worker, and one more; 0 so far.
    holder: AtomicU64,
    // 1 when a submit of another worker was answered, 2 when the turns ran out before that; 0 so far.
    outcome: AtomicU64,
}

// The worker's number, and one more.
fn mark(worker: usize) -> u64 {
    (worker as u64).wrapping_add(1)
}

impl<R: Wait + Clock> Holding<'_, R> {
    // Waits at most so many turns of a millisecond's sleep.
    fn hold(&self, turns: u32) {
        for _ in 0..turns {
            if self.outcome.load(Ordering::SeqCst) == 1 {
                return;
            }
            thread::sleep(self.rt, Duration::from_millis(1));
        }
        self.outcome.store(2, Ordering::SeqCst);
    }
}

impl<R: Wait + Clock> Gate for Holding<'_, R> {
    fn held(&self, worker: usize, goal: GoalName) {
        let _ = goal;
        let first = self
            .holder
            .compare_exchange(0, mark(worker), Ordering::SeqCst, Ordering::SeqCst);
        if first.is_ok() {
            self.hold(10_000);
        }
    }

    fn answered(&self, worker: usize, goal: GoalName) {
        let _ = goal;
        if self.holder.load(Ordering::SeqCst) != mark(worker) {
            let _ = self
                .outcome
                .compare_exchange(0, 1, Ordering::SeqCst, Ordering::SeqCst);
        }
    }

    fn holds_up(&self) -> bool {
        true
    }
}

// Two workers run the core.
fn run_by_two<R: Threads + Wait + Clock + Sync>(
    gate: &Holding<'_, R>,
    alloc: Global,
    core: Core,
    mode: Mode,
) -> Option<(Core, Report)> {
    let workers = Workers::new(2)?;
    let spies = SpySet::new(alloc);
    Some(run_together(gate.rt, alloc, core, mode, &spies, workers, gate))
}

#[test]
fn two_workers_overlap(rt: HostRuntime) -> Result<(), Fail> {
    overlap(&rt, rt.alloc())
}

// The run takes two steps, and one to settle none; both are quiet then.
fn overlap<R: Threads + Wait + Clock + Abort + Sync>(rt: &R, alloc: Global) -> Result<(), Fail> {
    let gate = Holding {
        rt,
        holder: AtomicU64::new(0),
        outcome: AtomicU64::new(0),
    };
    let core = two(alloc).ok_or("a core")?;
    let (core, report) = run_by_two(&gate, alloc, core, Mode::Leap { limit: 10 }).ok_or("two")?;
    assert_eq!(rt; report.added, 2);
    assert!(rt; matches!(report.stop, Stop::Quiet));
    assert_eq!(rt; core.records().len(), 2);
    assert_eq!(rt; gate.outcome.load(Ordering::SeqCst), 1);
    let core = two(alloc).ok_or("a core")?;
    let (core, report) = run_by_two(&gate, alloc, core, Mode::Settle).ok_or("two")?;
    assert_eq!(rt; report.added, 0);
    assert!(rt; matches!(report.stop, Stop::Quiet));
    assert_eq!(rt; core.records().len(), 0);
    Ok(())
}
