// Cores whose goals are tried and noted: how many tries a step and its undo leave to make.
use crate::tests::cores::{are_taken, core_of};
use ghc_core::Core;
use ghc_hooks::Verdict;
use ghc_term::{Fault, GoalName};
use std::alloc::Global;
use std::test::Fail;

// The goal `0.place`.
fn goal(place: u32) -> GoalName {
    GoalName { step: 0, place }
}

// Whether settling tries so many goals.
fn settles(alloc: Global, core: &mut Core, count: usize) -> bool {
    core.settle(alloc) == Ok(count)
}

// Whether the goal `0.1` is noted as waiting for so many variables.
fn waits_for(core: &Core, count: usize) -> bool {
    match core.tries().get(goal(1)) {
        Some(note) => {
            matches!(note.verdict(), Verdict::Waiting(awaited) if awaited.members().len() == count)
        }
        None => false,
    }
}

// Whether the goal `0.1` is noted as failed, since no clause can be selected for it.
fn has_failed(core: &Core) -> bool {
    match core.tries().get(goal(1)) {
        Some(note) => matches!(note.verdict(), Verdict::Failed(Fault::NoMatch)),
        None => false,
    }
}

// Takes a step of the goal `0.2`, which leaves one goal to try, and takes it back, which leaves two.
fn is_tried_again(alloc: Global, core: &mut Core) -> bool {
    settles(alloc, core, 3)
        && waits_for(core, 2)
        && are_taken(alloc, core, &[(goal(2), 1)])
        && settles(alloc, core, 1)
        && has_failed(core)
        && core.undo(alloc, 1).is_ok()
        && settles(alloc, core, 2)
        && waits_for(core, 2)
}

// Whether that is so, and six tries were counted, and one firing, that of the commit.
fn is_settled_thrice(alloc: Global) -> bool {
    match core_of(alloc, "p(a,b) :- true | true.", "p(X,Y), Y = c, Z = d") {
        Some(core) => {
            let mut core = core;
            is_tried_again(alloc, &mut core)
                && core.meter().tries() == 6
                && core.meter().firings() == 1
        }
        None => false,
    }
}

#[test]
fn only_what_looked_at_a_binding_is_tried_again(rt: HostRuntime) {
    assert!(rt; is_settled_thrice(rt.alloc()));
}

// Notes the goal `0.1` twice, which tries it twice and leaves the other goal to try; a goal that is not there is not tried.
fn is_noted(alloc: Global, core: &mut Core) -> bool {
    core.note(alloc, goal(1)).is_ok()
        && core.note(alloc, goal(1)).is_ok()
        && matches!(core.note(alloc, goal(3)), Err(Fault::NoGoal))
        && core.meter().tries() == 2
        && settles(alloc, core, 1)
}

// Whether that is so in a query of two goals.
fn is_noted_alone(alloc: Global) -> bool {
    match core_of(alloc, "", "X = 1, Y = 2") {
        Some(core) => {
            let mut core = core;
            is_noted(alloc, &mut core)
        }
        None => false,
    }
}

#[test]
fn a_goal_is_noted_alone(rt: HostRuntime) {
    assert!(rt; is_noted_alone(rt.alloc()));
}
