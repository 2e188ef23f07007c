// Workers of a round take each goal that is ready once, and a goal that wakes in the round once more.
ghost use Rattle.std.specs.Prelude.{◌≡◌, ◌+◌, length};
ghost use Rattle.ghc_records.specs.Journal.{history};
ghost use Rattle.ghc_shared.specs.inner.Calls.{code_of};

use crate::answer::{Answer, Work};
use crate::gate::Gate;
use crate::mode::Mode;
use crate::rounds::round::{RoundReport, round};
use crate::scope::Scope;
use crate::tests::played_again::is_played_again;
use ghc_core::{Core, Reply};
use ghc_flat::check;
use ghc_reader::{read_program, read_query};
use ghc_shared::{Naming, Opening};
use ghc_term::GoalName;
use ghc_trace::SpySet;
use std::alloc::Global;
use std::marker::Brand;
use std::process::Abort;
use std::sync::Wait;
use std::test::*;
use std::thread::Threads;

// A gate at which nobody waits, though it may say that one might.
#[derive(Drop)]
pub(crate) struct Open {
    pub(crate) holds_up: bool,
}

impl Gate for Open {
    fn held(&self, worker: usize, goal: GoalName) {
        let _ = worker;
        let _ = goal;
    }

    fn answered(&self, worker: usize, goal: GoalName) {
        let _ = worker;
        let _ = goal;
    }

    fn holds_up(&self) -> bool {
        self.holds_up
    }
}

// The goal `0.place`.
pub(crate) fn goal(place: u32) -> GoalName {
    GoalName { step: 0, place }
}

// The core of a program and a query.
pub(crate) fn core_of(alloc: Global, program: &[u8], query: &[u8]) -> Option<Core> {
    let Ok(query) = read_query(alloc, query) else {
        return None;
    };
    let Ok(source) = read_program(alloc, program) else {
        return None;
    };
    let Ok(program) = check(alloc, source, &query) else {
        return None;
    };
    Core::new(alloc, program, query).ok()
}

// The core of two unifications under no clauses.
pub(crate) fn two(alloc: Global) -> Option<Core> {
    core_of(alloc, b"", b"X = 1, Y = 2")
}

// How many answers tell of a step that was taken.
fn steps_of(work: &Work) -> usize {
    let mut steps = 0usize;
    for taken in &work.taken {
        if let Answer::Submitted(receipt) = &taken.1 {
            if matches!(receipt.reply, Reply::Stepped(_)) {
                steps = steps.wrapping_add(1);
            }
        }
    }
    steps
}

// How many names were offered, taken and left, and how many steps were taken.
pub(crate) fn counts(report: &RoundReport) -> (usize, usize, usize, usize) {
    let mut sums = (0usize, 0usize, 0usize, 0usize);
    for work in &report.workers {
        sums.0 = sums.0.wrapping_add(work.offered.len());
        sums.1 = sums.1.wrapping_add(work.taken.len());
        sums.2 = sums.2.wrapping_add(work.left.len());
        sums.3 = sums.3.wrapping_add(steps_of(work));
    }
    sums
}

// What a round over the first two goals leaves, and its report.
fn worked_off<N: Naming + Send + Sync, R: Threads + Wait + Abort + Sync>(
    rt: &R,
    alloc: Global,
    opening: Opening<Core>,
    holds_up: bool,
) -> Option<(Core, RoundReport)>
    requires table { opening.table ≡ N.table }
    requires ledger { (opening.name ≡ N.name) × (opening.passes + 1 ≡ N.parts) }
    requires passes { opening.passes ≡ N.passes }
    requires opened { code_of opening.value.world.opening ≡ N.opened }
    requires base { length (history opening.value.world.opening opening.value.world.journal) ≡ N.base }
{
    let Ok((shared, passes)) = opening.named::<N>(alloc) else {
        return None;
    };
    if passes.is_empty() || passes.len() > 64 {
        return None;
    }
    let names = [goal(1), goal(2)];
    let spies = SpySet::new(alloc);
    let mode = Mode::Leap { limit: 10 };
    let Ok((passes, report)) = round(
        rt,
        alloc,
        &shared,
        passes,
        &mode,
        &Scope::Any,
        &spies,
        &names,
        &Open { holds_up },
    ) else {
        return None;
    };
    let core = shared.close(passes);
    Some((core, report))
}

// All is taken, both goals by a step, and nothing is left; the journal comes again where a new core is given its events.
#[test]
fn two_unifications(rt: HostRuntime) -> Result<(), Fail> {
    let core = two(rt.alloc()).ok_or("a core")?;
    assert_eq!(rt; core.meter().firings(), 0);
    let Ok(opening) = Opening::new(rt.alloc(), core, 2) else {
        return Err("memory for the table".into());
    };
    let (core, report) = worked_off::<Brand, _>(&rt, rt.alloc(), opening, false).ok_or("a round")?;
    assert_eq!(rt; counts(&report), (2, 2, 0, 2));
    assert!(rt; report.stop.is_none());
    assert_eq!(rt; core.records().len(), 2);
    assert_eq!(rt; core.meter().firings(), 2);
    assert_eq!(rt; core.meter().tries(), 0);
    let new = two(rt.alloc()).ok_or("a core")?;
    assert!(rt; is_played_again(rt.alloc(), core.journal(), new));
    Ok(())
}

// The one worker finds that 0.1 waits, and notes it; the step of 0.2 binds what it waits for, so it is offered again and stepped.
fn offer_woken<R: Threads + Wait + Abort + Sync>(
    rt: &R,
    alloc: Global,
    holds_up: bool,
) -> Result<(), Fail> {
    let core = core_of(alloc, b"p(1) :- true | true.", b"p(X), X = 1").ok_or("a core")?;
    let Ok(opening) = Opening::new(alloc, core, 1) else {
        return Err("memory for the table".into());
    };
    let (core, report) = worked_off::<Brand, _>(rt, alloc, opening, holds_up).ok_or("a round")?;
    assert_eq!(rt; counts(&report), (3, 3, 0, 2));
    assert!(rt; report.stop.is_none());
    assert_eq!(rt; core.records().len(), 2);
    Ok(())
}

#[test]
fn woken_goal_is_offered(rt: HostRuntime) -> Result<(), Fail> {
    offer_woken(&rt, rt.alloc(), true)
}

#[test]
fn woken_goal_is_offered_at_once(rt: HostRuntime) -> Result<(), Fail> {
    offer_woken(&rt, rt.alloc(), false)
}
