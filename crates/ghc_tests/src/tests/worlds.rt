// A world without hands, which no schedule makes.
use crate::tests::cores::core_of;
use ghc_core::{Event, Reply, World};
use ghc_term::{Fault, GoalName};
use std::test::Fail;

const PROPOSED: Event = Event::Propose {
    hand: 1,
    goal: GoalName { step: 0, place: 1 },
    choice: None,
};

#[test]
fn a_world_without_hands_refuses_each(rt: HostRuntime) -> Result<(), Fail> {
    let alloc = rt.alloc();
    let core = core_of(alloc, "", "X = 1").ok_or("a core")?;
    let mut world = World::new(alloc, core, 0).ok().ok_or("a world")?;
    assert!(rt;
        matches!(
            world.answer(alloc, &PROPOSED),
            Reply::Refused(Fault::Command)
        )
    );
    assert!(rt;
        matches!(
            world.answer(alloc, &Event::Commit(1)),
            Reply::Refused(Fault::Command)
        )
    );
    Ok(())
}
