// A journal is played again from a new core: each step as a proposal and a commit of one hand, each undo as a command.
use crate::tests::unifications::{goal, two};
use ghc_core::{Command, Core, Event, Reply, World};
use ghc_fire::Act;
use ghc_records::{Entry, Journal};
use ghc_term::Fault;
use std::alloc::Global;
use std::test::*;

// Puts the events that make the entry behind the others; or it is no step and no undo, or memory was refused.
fn push_events(entry: &Entry, events: &mut Vec<Event>) -> Option<()> {
    match entry {
        Entry::Took(step) => {
            let propose = Event::Propose {
                hand: 1,
                goal: step.goal()?,
                choice: None,
            };
            events.push(propose).ok()?;
            events.push(Event::Commit(1)).ok()
        }
        Entry::Undid(number) => events.push(Event::Command(Command::Undo(*number))).ok(),
        _ => None,
    }
}

// The events that make the journal.
fn events_of(alloc: Global, journal: &Journal) -> Option<Vec<Event>> {
    let mut events = Vec::new(alloc);
    for place in 0..journal.len() {
        push_events(journal.at(place)?, &mut events)?;
    }
    Some(events)
}

// The number of the clause, if it is a step by a clause.
fn clause_of(act: &Act) -> Option<u32> {
    match act {
        Act::ByClause(number) => Some(*number),
        _ => None,
    }
}

// Whether the two tell of one step by a clause, or of one undo.
fn is_same_entry(one: &Entry, other: &Entry) -> bool {
    match (one, other) {
        (Entry::Took(one), Entry::Took(other)) => {
            one.number() == other.number()
                && one.goal() == other.goal()
                && clause_of(one.act()) == clause_of(other.act())
        }
        (Entry::Undid(one), Entry::Undid(other)) => one == other,
        _ => false,
    }
}

// Whether they have the same entries.
fn is_same_journal(one: &Journal, other: &Journal) -> bool {
    for place in 0..one.len() {
        match (one.at(place), other.at(place)) {
            (Some(one), Some(other)) => {
                if !is_same_entry(one, other) {
                    return false;
                }
            }
            _ => return false,
        }
    }
    one.len() == other.len()
}

// Whether the journal comes again where it is played from the new core.
pub(crate) fn is_played_again(alloc: Global, journal: &Journal, core: Core) -> bool {
    let Some(events) = events_of(alloc, journal) else {
        return false;
    };
    let Ok(mut world) = World::new(alloc, core, 1) else {
        return false;
    };
    if world.play(alloc, events.as_slice()).is_err() {
        return false;
    }
    is_same_journal(journal, world.core().journal())
}

// A proposal of the first goal, and its commit, both by the first hand.
fn first_step(alloc: Global) -> Option<Vec<Event>> {
    let mut events = Vec::new(alloc);
    let propose = Event::Propose {
        hand: 1,
        goal: goal(1),
        choice: None,
    };
    events.push(propose).ok()?;
    events.push(Event::Commit(1)).ok()?;
    Some(events)
}

// Whether memory was refused for one of the events.
fn is_starved(replies: &[Reply]) -> bool {
    for reply in replies {
        if matches!(reply, Reply::Refused(Fault::Memory)) {
            return true;
        }
    }
    false
}

// `rt try --test --fail-alloc N` refuses the Nth request for memory. For one N that is the room for the replies: then nothing is played
// and nothing is counted. For those after it, it is memory of an event: the event is refused, and nothing is kept, but the proposal has
// counted. The next play has memory, and takes the step.
#[test]
fn refused_play_plays_nothing(rt: HostRuntime) -> Result<(), Fail> {
    let alloc = rt.alloc();
    let core = two(alloc).ok_or("a core")?;
    let events = first_step(alloc).ok_or("two events")?;
    let Ok(mut world) = World::new(alloc, core, 1) else {
        return Err("memory for the hand".into());
    };
    match world.play(alloc, events.as_slice()) {
        Ok(replies) => {
            if is_starved(replies.as_slice()) {
                assert_eq!(rt; world.core().journal().len(), 0);
                assert_eq!(rt; world.core().records().len(), 0);
                assert_eq!(rt; world.meter().firings(), 1);
                world.play(alloc, events.as_slice())?;
                assert_eq!(rt; world.meter().firings(), 2);
            } else {
                assert_eq!(rt; world.meter().firings(), 1);
            }
        }
        Err(_) => {
            assert_eq!(rt; world.core().journal().len(), 0);
            assert_eq!(rt; world.meter().firings(), 0);
            world.play(alloc, events.as_slice())?;
            assert_eq!(rt; world.meter().firings(), 1);
        }
    }
    assert_eq!(rt; world.core().journal().len(), 1);
    Ok(())
}
