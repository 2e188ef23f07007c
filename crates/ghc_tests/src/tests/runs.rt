// Runs below a goal that is gone, or that never was, and with a limit there: a session makes none.
use crate::tests::cores::{APPEND, core_of};
use ghc_core::Core;
use ghc_pool::{Report, Stop, run};
use ghc_term::GoalName;
use ghc_trace::SpySet;
use std::alloc::Global;
use std::test::Fail;

const FIRST: GoalName = GoalName { step: 0, place: 1 };

const ABSENT: GoalName = GoalName { step: 7, place: 1 };

// Whether a run below the goal, of at most so many steps, adds so many and stops for this reason.
fn adds(
    alloc: Global,
    core: &mut Core,
    root: GoalName,
    limit: usize,
    added: usize,
    stop: Stop,
) -> bool {
    let spies = SpySet::new(alloc);
    run(core, alloc, &spies, Some(root), limit) == Report { added, stop }
}

// Four steps, of which the first takes the goal away below which the other three stand.
#[test]
fn a_run_goes_on_below_a_goal_that_is_gone(rt: HostRuntime) -> Result<(), Fail> {
    let alloc = rt.alloc();
    let mut core = core_of(alloc, APPEND, "append([1],[2],R)").ok_or("a core")?;
    assert!(rt; adds(alloc, &mut core, ABSENT, 100, 0, Stop::Quiet));
    assert!(rt; adds(alloc, &mut core, FIRST, 1, 1, Stop::Limit));
    assert!(rt; adds(alloc, &mut core, FIRST, 1, 1, Stop::Limit));
    assert!(rt; adds(alloc, &mut core, FIRST, 100, 2, Stop::Quiet));
    Ok(())
}
