// Two workers match calls of many clauses at the same time, in the manner that serves such a program where nobody is held up.
ghost use Rattle.std.specs.Prelude.{◌≡◌, ◌+◌, length};
ghost use Rattle.ghc_records.specs.Journal.{history};
ghost use Rattle.ghc_shared.specs.inner.Calls.{code_of};

use crate::craft::{Craft, Decided};
use crate::deciding::Deciding;
use crate::manner::Manner;
use crate::rounds::threads::{Ended, work_together};
use crate::scope::Scope;
use crate::tests::counts;
use crate::tests::played_again::is_played_again;
use crate::tests::unifications::{Open, core_of, goal};
use ghc_core::{Core, Excerpt};
use ghc_fire::Proposal;
use ghc_shared::{Naming, Opening, Pass};
use ghc_term::{Fault, GoalName, push_number};
use ghc_trace::SpySet;
use std::alloc::{AllocError, Global};
use std::marker::Brand;
use std::process::Abort;
use std::sync::Wait;
use std::sync::atomic::{AtomicU64, Ordering};
use std::sync::ledger::Blank;
use std::test::*;
use std::thread;
use std::thread::Threads;
use std::time::{Clock, Duration};

// Workers of a round. An attempt of one that is made apart waits until another one has begun.
#[derive(Drop)]
struct Meeting<'a, N: Naming, R: Wait + Clock> {
    crew: Deciding<'a, N, R, Open>,
    // How many attempts have begun.
    begun: AtomicU64,
    // How many of them found that another had, before they ended.
    met: AtomicU64,
}

impl<'a, N: Naming, R: Wait + Clock> Meeting<'a, N, R> {
    // Workers of which none has begun an attempt.
    fn new(crew: Deciding<'a, N, R, Open>) -> Meeting<'a, N, R> {
        Meeting {
            crew,
            begun: AtomicU64::new(0),
            met: AtomicU64::new(0),
        }
    }

    // Waits until two attempts have begun, for at most so many turns of a millisecond's sleep.
    fn meet(&self, turns: u32) {
        self.begun.fetch_add(1, Ordering::SeqCst);
        for _ in 0..turns {
            if self.begun.load(Ordering::SeqCst) > 1 {
                self.met.fetch_add(1, Ordering::SeqCst);
                return;
            }
            thread::sleep(self.crew.rt, Duration::from_millis(1));
        }
    }
}

impl<N: Naming, R: Wait + Clock> Craft<Pass<Core, N>> for Meeting<'_, N, R> {
    ghost use Rattle.ghc_pool.specs.inner.Told.{IsPassAfter, AreFedAnswers, Asks};
    ghost use Rattle.ghc_pool.specs.inner.Plans.{IsExcerptOf, IsAttempt};

    ghost takes = { λ m. m.crew.steps };

    ghost tells = { λ m. IsPassAfter N.opened m.crew.scope.now m.crew.spies.now m.crew.steps };

    ghost fed = { λ m. AreFedAnswers };

    ghost asks = { λ m. Asks N.opened m.crew.spies.now m.crew.steps };

    ghost excerpts = { λ m. IsExcerptOf N.opened m.crew.scope.now m.crew.spies.now m.crew.steps };

    ghost attempts = { λ m. IsAttempt N.opened m.crew.scope.now m.crew.spies.now m.crew.steps };

    fn takes_turns(&self) -> bool {
        self.crew.takes_turns()
    }

    fn takes_steps(&self) -> bool {
        self.crew.takes_steps()
    }

    fn begin(&self, pass: &Pass<Core, N>) {
        self.crew.begin(pass)
    }

    fn excerpt(&self, name: GoalName) -> Option<Excerpt> {
        self.crew.excerpt(name)
    }

    fn attempt(&self, excerpt: &Excerpt) -> Result<Proposal, Fault> {
        self.meet(10_000);
        self.crew.attempt(excerpt)
    }

    fn decide(
        &self,
        worker: usize,
        pass: &mut Pass<Core, N>,
        name: GoalName,
        attempt: Option<Result<Proposal, Fault>>,
    ) -> Decided {
        self.crew.decide(worker, pass, name, attempt)
    }
}

// The program `p(1) :- true | true. p(2) :- ..` of 33 clauses.
fn program(alloc: Global) -> Result<String, AllocError> {
    let mut text = String::new(alloc);
    for number in 1..34 {
        text.push_str("p(")?;
        push_number(number, &mut text)?;
        text.push_str(") :- true | true. ")?;
    }
    Ok(text)
}

// The core of two calls under that program.
fn two_calls(alloc: Global) -> Option<Core> {
    let Ok(program) = program(alloc) else {
        return None;
    };
    core_of(alloc, program.as_bytes(), b"p(5), p(7)")
}

// What a round over both calls leaves, what its workers did, and how many attempts met another.
fn met<N: Naming + Send + Sync, R: Threads + Wait + Clock + Abort + Sync>(
    rt: &R,
    alloc: Global,
    opening: Opening<Core>,
) -> Option<(Core, Ended, u64)>
    requires table { opening.table ≡ N.table }
    requires ledger { (opening.name ≡ N.name) × (opening.passes + 1 ≡ N.parts) }
    requires passes { opening.passes ≡ N.passes }
    requires opened { code_of opening.value.world.opening ≡ N.opened }
    requires base { length (history opening.value.world.opening opening.value.world.journal) ≡ N.base }
{
    let Ok((shared, passes)) = opening.named::<N>(alloc) else {
        return None;
    };
    if passes.is_empty() || passes.len() > 64 {
        return None;
    }
    let names = [goal(1), goal(2)];
    let scope = Scope::Any;
    let spies = SpySet::new(alloc);
    let gate = Open { holds_up: false };
    let meeting = Meeting::new(Deciding {
        rt,
        alloc,
        shared: &shared,
        scope: &scope,
        spies: &spies,
        gate: &gate,
        steps: true,
        manner: Manner::serving(rt, &shared, false),
    });
    let blank = Blank::new(passes.len() as u64 + 1);
    match work_together::<Pass<Core, N>, Meeting<'_, N, R>, Brand, R>(
        rt, alloc, &meeting, blank, 10, passes, &names,
    ) {
        Ok((passes, ended)) => {
            let met = meeting.met.load(Ordering::SeqCst);
            drop(meeting);
            Some((shared.close(passes), ended, met))
        }
        Err(_passes) => None,
    }
}

// Both attempts met, so they were made at the same time, by two threads; and both calls were taken by a step.
#[test]
fn two_workers_match_apart(rt: HostRuntime) -> Result<(), Fail> {
    let core = two_calls(rt.alloc()).ok_or("a core")?;
    let Ok(opening) = Opening::new(rt.alloc(), core, 2) else {
        return Err("memory for the table".into());
    };
    let (core, ended, met) = met::<Brand, _>(&rt, rt.alloc(), opening).ok_or("a round")?;
    assert_eq!(rt; met, 2);
    assert_eq!(rt; counts(&ended), (2, 2, 0, 2));
    assert!(rt; ended.stop.is_none());
    assert_eq!(rt; core.records().len(), 2);
    let new = two_calls(rt.alloc()).ok_or("a core")?;
    assert!(rt; is_played_again(rt.alloc(), core.journal(), new));
    Ok(())
}
