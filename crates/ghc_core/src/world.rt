// A core with hands, and events played on it.
ghost use Rattle.std.specs.Prelude.{◌≡◌, ◌⊎◌, ◌+◌, ◌<◌, ◌≤◌, [], ◌∷◌, ◌++◌, map, vec_len, vec_capacity, IfOk, IfErr, OnErr, Some};
ghost use Rattle.ghc_term.specs.declared.fault.Fault.{Fault as fault_spec};
ghost use Rattle.ghc_core.specs.Answers.{Answers, Plays};
ghost use Rattle.ghc_core.specs.Anyway.{IsNotProposedAnyway, IsNotCommittedAnyway};
ghost use Rattle.ghc_core.specs.Core.{Stays};
ghost use Rattle.ghc_core.specs.Counting.{FiresWhere, Counts};
ghost use Rattle.ghc_core.specs.EventCode.{event_of, reply_of};
ghost use Rattle.ghc_core.specs.Events.{propose, commit, refused};
ghost use Rattle.ghc_core.specs.Legal.{IsReachable};
ghost use Rattle.ghc_core.specs.Meets.{Moves, Meets, MeetsEach};
ghost use Rattle.ghc_core.specs.Playing.{empty_hands, AddsOneAtMost, IsRefusal};
ghost use Rattle.ghc_core.specs.World.{IsHand, IsReplay};

use crate::core_state::Core;
use crate::event::Event;
use crate::hands::Hands;
use crate::reply::Reply;
use ghc_fire::Meter;
use ghc_term::{Fault, GoalName};
use std::alloc::{AllocError, Global};

/// A core, hands that hold proposals of steps of its goals, and counts of what they proposed.
#[derive(Drop)]
pub struct World {
    core: Core,
    hands: Hands,
    meter: Meter,
}

// Puts the reply after the others, where there is room for it.
fn put_reply(replies: &mut Vec<Reply>, reply: Reply)
    requires { vec_len replies.old < vec_capacity replies.old }
    ensures items { replies.new.items ≡ replies.old.items ++ reply ∷ [] }
    ensures len { vec_len replies.new ≡ vec_len replies.old + 1 }
    ensures capacity { vec_capacity replies.old ≤ vec_capacity replies.new }
{
    replies.push(reply).unwrap();
}

impl World {
    /// The core with as many hands, numbered from 1, which hold nothing. The memory for what they will hold is taken now; where it
    /// is refused, the core is given back.
    pub fn new(alloc: Global, core: Core, hands: u32) -> Result<World, Core>
        ensures core { IfOk result (λ world. world.core ≡ core) }
        ensures hands { IfOk result (λ world. world.hands ≡ empty_hands hands) }
        ensures meter { IfOk result (λ world. (world.meter.firings ≡ 0) × (world.meter.tries ≡ 0)) }
        ensures back { IfErr result (λ back. back ≡ core) }

        // From here on the laws of reachable worlds hold of what is played.
        ensures reachable { IfOk result (λ world. IsReachable world.core.world world.hands) }
    {
        core.stands();
        match Hands::new(alloc, hands) {
            Ok(hands) => Ok(World {
                core,
                hands,
                meter: Meter::new(),
            }),
            Err(_) => Err(core),
        }
    }

    /// The core.
    pub fn core(&self) -> &Core
        ensures { result.now ≡ self.now.core }
    {
        &self.core
    }

    /// The hands.
    pub fn hands(&self) -> &Hands
        ensures { result.now ≡ self.now.hands }
    {
        &self.hands
    }

    /// How many firings the proposals of hands counted; what the core fires and tries stands on the core's meter.
    pub fn meter(&self) -> &Meter
        ensures { result.now ≡ self.now.meter }
    {
        &self.meter
    }

    /// The core. What the hands hold is let go.
    pub fn into_core(self) -> Core
        ensures { result ≡ self.core }
    {
        let World {
            core,
            hands: _hands,
            meter: _meter,
        } = self;
        core
    }

    // The hand asks for a step of the goal: an attempt, counted beside the core. A refusal leaves the hand as it was.
    fn propose(&mut self, alloc: Global, hand: u32, goal: GoalName, choice: Option<u32>) -> Reply
        ensures answer { Answers (Unit {0}) self.old.core.world self.old.hands (propose hand goal choice) (reply_of result) self.old.core.world self.new.hands }
        ensures anyway { (f : fault_spec) → IsNotProposedAnyway self.old.core.world self.old.hands hand goal choice f → reply_of result ≡ refused f }
        ensures core { self.new.core ≡ self.old.core }
        ensures counted { FiresWhere (IsHand self.old.hands hand) self.old.meter self.new.meter }
    {
        if !self.hands.has(hand) {
            return Reply::Refused(Fault::Command);
        }
        let proposal = match self.core.attempt(alloc, &mut self.meter, goal, choice) {
            Ok(proposal) => proposal,
            Err(fault) => return Reply::Refused(fault),
        };
        match self.hands.hold(hand, proposal) {
            Ok(()) => Reply::Held(hand),
            Err(_) => Reply::Refused(Fault::Memory),
        }
    }

    // The hand commits what it holds, and is empty afterwards: a look-up, and what `Core::commit` costs.
    fn commit(&mut self, alloc: Global, hand: u32) -> Reply
        ensures answer { Answers (Unit {0}) self.old.core.world self.old.hands (commit hand) (reply_of result) self.new.core.world self.new.hands }
        ensures anyway { (f : fault_spec) → IsNotCommittedAnyway self.old.core.world self.old.hands hand f → reply_of result ≡ refused f }
        ensures moves { IsRefusal (reply_of result) ⊎ Moves self.old.core self.new.core }
        ensures stays { IsRefusal (reply_of result) → Stays self.old.core self.new.core }
        ensures counted { Counts self.old.core.world self.old.hands (commit hand) self.old.core.meter self.new.core.meter }
        ensures meter { self.new.meter ≡ self.old.meter }
    {
        if !self.hands.has(hand) {
            return Reply::Refused(Fault::Command);
        }
        let Some(proposal) = self.hands.release(hand) else {
            return Reply::Refused(Fault::Stale);
        };
        match self.core.commit(alloc, &proposal) {
            Ok(number) => Reply::Stepped(number),
            Err(fault) => Reply::Refused(fault),
        }
    }

    /// Meets the event, and replies: the world and the hands that are left are those that the event leaves by its definition, the
    /// notes those that it leaves, and the journal has one entry more at most. A refused event changes nothing but the counts, and
    /// the hand of a commit. `Command` where a hand is asked that is not there, `Stale` where one commits that holds nothing. It
    /// costs what the call of the core costs, and a look-up for the hand.
    pub fn answer(&mut self, alloc: Global, event: &Event) -> Reply
        ensures met { Meets self.old (event_of event.now) (reply_of result) self.new }
        ensures entry { AddsOneAtMost self.old.core.world self.new.core.world }
    {
        match event {
            Event::Propose { hand, goal, choice } => self.propose(alloc, *hand, *goal, *choice),
            Event::Commit(hand) => self.commit(alloc, *hand),
            Event::Note(goal) => self.core.reply_to_note(alloc, *goal),
            Event::Command(command) => self.core.obey(alloc, command),
        }
    }

    /// Plays the events, one after another, and gives the reply to each, in their order. Room for all replies is taken first; where
    /// it is refused, nothing is played. It costs what the events cost.
    pub fn play(&mut self, alloc: Global, events: &[Event]) -> Result<Vec<Reply>, AllocError>
        ensures met { IfOk result (λ replies. MeetsEach self.old (map event_of events.now) (map reply_of replies.items) self.new) }
        ensures played { IfOk result (λ replies. Plays ⊥ (λ _. Unit {0}) self.old.core.world self.old.hands (map event_of events.now) (Some (map reply_of replies.items)) self.new.core.world self.new.hands) }
        ensures no_room { OnErr result (self.new ≡ self.old) }

        // After any list of events goals and store are the replay of the record.
        ensures replay { IfOk result (λ _. IsReplay self.new.core.world self.new.core.world.kept self.new.core.world.state) }
    {
        let mut replies = Vec::with_capacity(alloc, events.len())?;
        for event in events {
            let reply = self.answer(alloc, event);
            put_reply(&mut replies, reply);
        }
        self.core.stands();
        Ok(replies)
    }
}
