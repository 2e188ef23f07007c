// Cores that the tests are made of, and one that threads share.
use crate::tests::building::variable;
use ghc_core::Core;
use ghc_fire::Meter;
use ghc_flat::check;
use ghc_reader::{read_program, read_query};
use ghc_term::{GoalName, print};
use std::alloc::{AllocError, Global};
use std::sync::{Arc, RwLock, Wait};
use std::test::Fail;
use std::thread;
use std::thread::Threads;

// The core of a query under a program, where both are accepted.
pub(crate) fn core_of(alloc: Global, program: &str, query: &str) -> Option<Core> {
    let Ok(query) = read_query(alloc, query.as_bytes()) else {
        return None;
    };
    let Ok(source) = read_program(alloc, program.as_bytes()) else {
        return None;
    };
    let Ok(program) = check(alloc, source, &query) else {
        return None;
    };
    Core::new(alloc, program, query).ok()
}

// Takes a step of the goal, where it is possible, and says whether it has this number.
fn is_taken(alloc: Global, core: &mut Core, goal: GoalName, number: u32) -> bool {
    let mut meter = Meter::new();
    match core.attempt(alloc, &mut meter, goal, None) {
        Ok(proposal) => matches!(core.commit(alloc, &proposal), Ok(taken) if taken == number),
        Err(_) => false,
    }
}

// Takes a step of each of the goals, and says whether all are taken, with these numbers.
pub(crate) fn are_taken(alloc: Global, core: &mut Core, steps: &[(GoalName, u32)]) -> bool {
    for (goal, number) in steps {
        if !is_taken(alloc, core, *goal, *number) {
            return false;
        }
    }
    true
}

pub(crate) const APPEND: &str = "
append([],Y,Z) :- true | Z = Y.
append([A|X],Y,Z) :- true | Z = [A|Z1], append(X,Y,Z1).
";

// The goals of `append([1],[2],R)` in an order that is possible, each with the number of its step.
const APPENDS: &[(GoalName, u32)] = &[
    (GoalName { step: 0, place: 1 }, 1),
    (GoalName { step: 1, place: 1 }, 2),
    (GoalName { step: 1, place: 2 }, 3),
    (GoalName { step: 3, place: 1 }, 4),
];

// Whether there are four records, and R is `[1,2]`, read while others may read too.
fn is_appended<R: Wait>(rt: &R, alloc: Global, core: &RwLock<Core>) -> bool {
    let core = core.read(rt);
    match print(alloc, &variable(1), core.store()) {
        Ok(text) => core.records().len() == 4 && text.as_str() == "[1,2]",
        Err(_) => false,
    }
}

// Whether two threads both read that, this one and another.
fn is_read_twice<R: Threads + Wait + Copy + Send + 'static>(
    rt: R,
    alloc: Global,
    core: Core,
) -> Result<bool, AllocError> {
    let first = Arc::new(alloc, RwLock::new(core))?;
    let second = Arc::try_clone(&first)?;
    let other = thread::spawn(&rt, move || is_appended(&rt, alloc, &second))?;
    let here = is_appended(&rt, alloc, &first);
    Ok(other.join(&rt) && here)
}

#[test]
fn two_threads_read_a_core_behind_a_lock(rt: HostRuntime) -> Result<(), Fail> {
    let mut core = core_of(rt.alloc(), APPEND, "append([1],[2],R)").ok_or("a core")?;
    assert!(rt; are_taken(rt.alloc(), &mut core, APPENDS));
    assert!(rt; is_read_twice(rt, rt.alloc(), core)?);
    Ok(())
}
