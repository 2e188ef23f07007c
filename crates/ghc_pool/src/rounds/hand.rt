// The names that a worker has in hand: it took them, and an attempt at each is made apart, between its turns.
ghost use Rattle.std.specs.Prelude.{◌≡◌, ◌<◌, true, false, MatchBool};
ghost use Rattle.std.specs.Vec.{vec_len};
ghost use Rattle.ghc_pool.specs.inner.Turns.{AreApart, IsApart, HasAdded, attempted, names_in};

use crate::craft::Craft;
use ghc_core::Excerpt;
use ghc_fire::Proposal;
use ghc_term::{Fault, GoalName};

// What of a name is made apart.
#[derive(Drop)]
pub enum Apart {
    // An attempt is to be made, of this excerpt.
    Excerpt(Excerpt),
    // An attempt was made, and answered this.
    Attempt(Result<Proposal, Fault>),
}

// A name in hand.
#[derive(Drop)]
pub struct InHand {
    pub name: GoalName,
    pub apart: Apart,
}

impl InHand {
    // What the attempt answered, if it was made.
    pub fn attempted(self) -> Option<Result<Proposal, Fault>>
        ensures { result ≡ attempted self.apart }
    {
        match self.apart {
            Apart::Excerpt(_) => None,
            Apart::Attempt(answer) => Some(answer),
        }
    }

    // Makes the attempt, if it was not made.
    fn make<P, C: Craft<P>>(&mut self, craft: &C)
        requires { IsApart (C.excerpts craft.now) (C.attempts craft.now) self.old.name self.old.apart }
        ensures name { self.new.name ≡ self.old.name }
        ensures apart { IsApart (C.excerpts craft.now) (C.attempts craft.now) self.new.name self.new.apart }
    {
        let Apart::Excerpt(excerpt) = &self.apart else {
            return;
        };
        let answer = craft.attempt(excerpt);
        self.apart = Apart::Attempt(answer);
    }
}

// How many names a worker has in hand at most.
const MOST: usize = 8;

// Whether no name more may come into the hand: there are as many as may be, or, where steps are taken, as many as there are permits.
pub fn is_full<P, C: Craft<P>>(craft: &C, hand: &Vec<InHand>, spare: u64) -> bool
    ensures permit { result ≡ false → C.takes craft.now ≡ true → vec_len hand.now < spare }
    ensures few { result ≡ false → vec_len hand.now < 64 }
{
    if hand.len() >= MOST {
        return true;
    }
    craft.takes_steps() && hand.len() as u64 >= spare
}

// Whether an attempt at the name is to be made apart; then it is in hand. Where memory is refused for that, it is not.
pub fn hold<P, C: Craft<P>>(craft: &C, hand: &mut Vec<InHand>, name: GoalName) -> bool
    ensures { MatchBool result (HasAdded (C.excerpts craft.now) (C.attempts craft.now) name hand.old.items hand.new.items) (hand.new.items ≡ hand.old.items) }
{
    let Some(excerpt) = craft.excerpt(name) else {
        return false;
    };
    let apart = Apart::Excerpt(excerpt);
    hand.push(InHand { name, apart }).is_ok()
}

// Makes the attempts at the names in hand.
pub fn make_attempts<P, C: Craft<P>>(craft: &C, hand: &mut Vec<InHand>)
    requires { AreApart (C.excerpts craft.now) (C.attempts craft.now) hand.old.items }
    ensures names { names_in hand.new.items ≡ names_in hand.old.items }
    ensures count { vec_len hand.new ≡ vec_len hand.old }
    ensures apart { AreApart (C.excerpts craft.now) (C.attempts craft.now) hand.new.items }
{
    for index in 0..hand.len() {
        hand[index].make(craft);
    }
}
