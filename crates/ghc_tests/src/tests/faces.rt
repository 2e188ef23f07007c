// Faces: each part of what one can see of a state in which one goal is ready, one waits, one has failed and one is a stream.
use crate::tests::building::query;
use crate::tests::cores::core_of;
use ghc_core::Core;
use ghc_hooks::{Face, Status, Verdict};
use ghc_match::{Outcome, Tried};
use ghc_term::GoalName;
use std::alloc::Global;
use std::test::Fail;

// The goal `0.place`.
fn goal(place: u32) -> GoalName {
    GoalName { step: 0, place }
}

// The word for how a goal stands.
fn word_of(status: Option<&Status>) -> &'static str {
    match status {
        None => "absent",
        Some(status) => match status.verdict() {
            None => "stream",
            Some(Verdict::Ready) => "ready",
            Some(Verdict::Waiting(_)) => "waits",
            Some(Verdict::Failed(_)) => "failed",
        },
    }
}

// The word for what a clause says.
fn said_in(tried: Option<&Tried>) -> &'static str {
    match tried {
        None => "nothing",
        Some(tried) => match &tried.outcome {
            Outcome::Refuses => "refuses",
            Outcome::Waits(_) => "waits",
            Outcome::Accepts(_) => "accepts",
        },
    }
}

const PROGRAM: &str = "p(a) :- true | true. p(b) :- true | true.";

const QUERY: &str = "p(a), p(X), p(c), instream(S)";

// The place of each goal, and of one that is not there, with how it stands, and what the first and the second clause say to it.
const SHOWN: &[(u32, &str, &str, &str)] = &[
    (1, "ready", "accepts", "refuses"),
    (2, "waits", "waits", "waits"),
    (3, "failed", "refuses", "refuses"),
    (4, "stream", "nothing", "nothing"),
    (5, "absent", "nothing", "nothing"),
];

// Whether each goal is shown so.
fn shows_goals(face: &Face<'_>) -> bool {
    for (place, word, first, second) in SHOWN {
        let name = goal(*place);
        if word_of(face.status(name)) != *word
            || said_in(face.outcome(name, 1)) != *first
            || said_in(face.outcome(name, 2)) != *second
        {
            return false;
        }
    }
    true
}

// Whether the pool has this goal alone.
fn is_alone(pool: &[GoalName], place: u32) -> bool {
    pool.len() == 1 && pool.first() == Some(&goal(place))
}

// Whether each pool has its goal, the second goal waits for X alone, and goals and store are those of the query.
fn shows_pools(face: &Face<'_>) -> bool {
    is_alone(face.ready(), 1)
        && is_alone(face.waiting(), 2)
        && is_alone(face.failed(), 3)
        && is_alone(face.streams(), 4)
        && face.waits_for(goal(2), query(1))
        && !face.waits_for(goal(2), query(2))
        && face.goals().get(goal(4)).is_some()
        && face.store().get(query(1)).is_none()
}

// Whether the core has a face, and it shows all that.
fn is_shown(alloc: Global, core: &Core) -> bool {
    match core.face(alloc) {
        Ok(face) => shows_goals(&face) && shows_pools(&face),
        Err(_) => false,
    }
}

#[test]
fn a_face_shows_each_part(rt: HostRuntime) -> Result<(), Fail> {
    let core = core_of(rt.alloc(), PROGRAM, QUERY).ok_or("a core")?;
    assert!(rt; is_shown(rt.alloc(), &core));
    Ok(())
}
