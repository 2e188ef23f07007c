// Four workers: all names are taken, and no more is submitted than the limit allows.
mod apart;
mod overlap;
mod played_again;
mod undoing;
mod unifications;

ghost use Rattle.std.specs.Prelude.{◌≡◌, ◌≤◌, ◌<◌, ◌^◌, length};
ghost use Rattle.std.specs.Vec.{vec_len};

use crate::answer::{Answer, RoundStop};
use crate::craft::{Craft, Decided};
use crate::rounds::threads::{Ended, work_together};
use ghc_core::{Excerpt, Reply};
use ghc_fire::Proposal;
use ghc_shared::Receipt;
use ghc_term::{Fault, GoalName};
use std::alloc::Global;
use std::marker::Brand;
use std::sync::Wait;
use std::sync::ledger::Blank;
use std::test::*;
use std::thread::Threads;

// A goal of an even place waits; the step of one of step 100 or more makes a goal.
#[derive(Drop)]
struct Trial {
    alloc: Global,
}

impl Craft<u64> for Trial {
    ghost use Rattle.std.specs.Prelude.{true};

    ghost takes = { λ _. true };

    ghost tells = { λ _ _ _ _. Unit {0} };

    ghost fed = { λ _ _. Unit {0} };

    ghost asks = { λ _ _ _. Unit {0} };

    ghost excerpts = { λ _ _ _. Unit {0} };

    ghost attempts = { λ _ _ _. Unit {0} };

    fn takes_turns(&self) -> bool {
        true
    }

    fn takes_steps(&self) -> bool {
        true
    }

    fn begin(&self, pass: &u64) {
        let _ = pass;
    }

    fn excerpt(&self, name: GoalName) -> Option<Excerpt> {
        let _ = name;
        None
    }

    fn attempt(&self, excerpt: &Excerpt) -> Result<Proposal, Fault> {
        excerpt.attempt(self.alloc)
    }

    fn decide(
        &self,
        worker: usize,
        pass: &mut u64,
        name: GoalName,
        attempt: Option<Result<Proposal, Fault>>,
    ) -> Decided {
        let _ = worker;
        let _ = attempt;
        if name.place % 2 == 0 {
            return Decided {
                answer: Answer::Noted(receipt(0)),
                stop: None,
                step: 0,
                made: 0,
                woken: Vec::new(self.alloc),
            };
        }
        *pass = pass.wrapping_add(1);
        Decided {
            answer: Answer::Submitted(receipt(*pass)),
            stop: None,
            step: name.step.wrapping_sub(100),
            made: if name.step >= 100 { 1 } else { 0 },
            woken: Vec::new(self.alloc),
        }
    }
}

// A receipt of that place.
fn receipt(place: u64) -> Receipt<Reply> {
    Receipt {
        place,
        accepted: false,
        reply: Reply::Arranged,
    }
}

fn goal(step: u32, place: u32) -> GoalName {
    GoalName { step, place }
}

// How many names were offered, taken and left, and how many submits were made.
fn counts(ended: &Ended) -> (usize, usize, usize, u64) {
    let mut sums = (0usize, 0usize, 0usize, 0u64);
    for worker in &ended.workers {
        sums.0 = sums.0.wrapping_add(worker.offered.len());
        sums.1 = sums.1.wrapping_add(worker.taken.len());
        sums.2 = sums.2.wrapping_add(worker.left.len());
        for answer in &worker.taken {
            sums.3 = sums.3.wrapping_add(answer.1.submits());
        }
    }
    sums
}

// The same round, under a name that nobody sees.
fn round<R: Threads + Wait + Sync>(
    rt: &R,
    alloc: Global,
    limit: u64,
    names: &[GoalName],
) -> Option<Ended>
    requires { length names.now < 2 ^ 60 }
{
    let mut passes = Vec::new(alloc);
    for pass in 0..4 {
        let Ok(()) = passes.push(pass) else {
            return None;
        };
    }
    let blank = Blank::new(passes.len() as u64 + 1);
    let trial = Trial { alloc };
    match work_together::<u64, Trial, Brand, R>(rt, alloc, &trial, blank, limit, passes, names) {
        Ok((_passes, ended)) => Some(ended),
        Err(_passes) => None,
    }
}

#[test]
fn all_is_taken(rt: HostRuntime) -> Result<(), Fail> {
    let names = [
        goal(0, 1),
        goal(0, 2),
        goal(103, 3),
        goal(0, 4),
        goal(200, 5),
        goal(0, 6),
    ];
    let ended = round(&rt, rt.alloc(), 100, &names).ok_or("memory")?;
    assert_eq!(rt; counts(&ended), (9, 9, 0, 6));
    assert!(rt; ended.stop.is_none());
    Ok(())
}

#[test]
fn no_more_than_the_limit(rt: HostRuntime) -> Result<(), Fail> {
    let names = [goal(0, 1), goal(0, 3), goal(0, 5), goal(0, 7), goal(0, 9)];
    let ended = round(&rt, rt.alloc(), 3, &names).ok_or("memory")?;
    assert_eq!(rt; counts(&ended), (5, 3, 2, 3));
    assert!(rt; matches!(ended.stop, Some(RoundStop::Limit)));
    Ok(())
}
