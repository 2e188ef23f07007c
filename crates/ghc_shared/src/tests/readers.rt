// Readers share the lock.
ghost use Rattle.std.specs.Prelude.{◌≡◌, ◌+◌, length};
ghost use Rattle.ghc_records.specs.Journal.{history};
ghost use Rattle.ghc_shared.specs.inner.Calls.{code_of};

use crate::tests::unifications::{goal, hundred};
use crate::{Naming, Opening, Shared, Tender, tend_all};
use ghc_core::Core;
use ghc_fire::Meter;
use std::alloc::Global;
use std::marker::Brand;
use std::process::Abort;
use std::sync::Wait;
use std::sync::atomic::{AtomicU64, Ordering};
use std::test::*;
use std::thread;
use std::thread::Threads;
use std::time::{Clock, Duration};

// One thread proposes, and the other waits for its answer, while the test holds the read side.
#[derive(Drop)]
struct Pair<'a, N: Naming, R: Wait + Clock> {
    rt: &'a R,
    alloc: Global,
    shared: &'a Shared<Core, N>,
    answered: AtomicU64,
}

impl<N: Naming, R: Wait + Clock> Pair<'_, N, R> {
    // Whether a step of the first goal is proposed.
    fn is_proposed(&self) -> bool {
        let mut meter = Meter::new();
        self.shared
            .propose(self.rt, self.alloc, &mut meter, goal(1), None)
            .is_ok()
    }

    // Whether the proposal is there within this many turns of a millisecond's sleep.
    fn is_answered(&self, turns: u32) -> bool {
        for _ in 0..turns {
            if self.answered.load(Ordering::SeqCst) == 1 {
                return true;
            }
            thread::sleep(self.rt, Duration::from_millis(1));
        }
        false
    }
}

impl<N: Naming, R: Wait + Clock> Tender<u64> for Pair<'_, N, R> {
    ghost can = { λ _ _. Unit {0} };

    ghost does = { λ _ _ _. Unit {0} };

    // The job 0 is to propose, the job 1 to wait; what has ended well is 2.
    fn tend(&self, job: &mut u64) {
        if *job == 0 {
            if self.is_proposed() {
                self.answered.store(1, Ordering::SeqCst);
                *job = 2;
            }
        } else if self.is_answered(10_000) {
            *job = 2;
        }
    }
}

#[test]
fn readers_share(rt: HostRuntime) -> Result<(), Fail> {
    let core = hundred(rt.alloc()).ok_or("a core")?;
    let Ok(opening) = Opening::new(rt.alloc(), core, 1) else {
        return Err("memory for the table".into());
    };
    held_named::<Brand, _>(&rt, rt.alloc(), opening)
}

// While this holds the read side, the proposal of another thread is answered.
fn held_named<N: Naming + Send + Sync, R: Threads + Wait + Clock + Abort + Sync>(
    rt: &R,
    alloc: Global,
    opening: Opening<Core>,
) -> Result<(), Fail>
    requires table { opening.table ≡ N.table }
    requires ledger { (opening.name ≡ N.name) × (opening.passes + 1 ≡ N.parts) }
    requires passes { opening.passes ≡ N.passes }
    requires opened { code_of opening.value.world.opening ≡ N.opened }
    requires base { length (history opening.value.world.opening opening.value.world.journal) ≡ N.base }
{
    let Ok((shared, _passes)) = opening.named::<N>(alloc) else {
        return Err("memory for the passes".into());
    };
    let held = shared.lock.read(rt);
    let pair = Pair {
        rt,
        alloc,
        shared: &shared,
        answered: AtomicU64::new(0),
    };
    let mut jobs = [0, 1];
    tend_all(rt, &pair, &mut jobs, 2);
    drop(held);
    for job in jobs {
        assert_eq!(rt; job, 2);
    }
    Ok(())
}
