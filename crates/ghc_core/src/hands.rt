// Hands, each with a proposal or nothing.
ghost use Rattle.std.specs.Prelude.{◌≡◌, ◌↔◌, IfOk, OnOk, OnErr, IsTrue};
ghost use Rattle.ghc_core.specs.World.{IsHand, with_hand, emptied};
ghost use Rattle.ghc_core.specs.Playing.{empty_hands};

use ghc_fire::Proposal;
use indexmap::IndexMap;
use std::alloc::{AllocError, Global};
use std::marker::Model;

/// Hands, numbered from 1, each of which holds a proposal or nothing.
pub struct Hands {
    count: u32,
    map: IndexMap<u32, Proposal>,
}

impl Drop for Hands {
    fn drop(self) {
        let Hands {
            count: _,
            map: _map,
        } = self;
    }
}

impl Model for Hands {
    ghost use Rattle.std.specs.FinMap as finite;
    ghost use Rattle.ghc_core.specs.World.{Hands};
    ghost use Rattle.ghc_core.specs.Playing.{hands_code};

    ghost Value = { Hands };

    ghost coded = { hands_code };

    ghost view = { λ h. record { count = h.count; held = finite.from_entries h.map.entries } };
}

impl Hands {
    ghost use Rattle.std.specs.Prelude.{option_copied};
    ghost use Rattle.std.specs.FinMap as finite;

    /// As many hands, which hold nothing, with room for a proposal in each.
    pub fn new(alloc: Global, count: u32) -> Result<Hands, AllocError>
        ensures { IfOk result (λ hands. hands ≡ empty_hands count) }
    {
        let map = IndexMap::with_capacity(alloc, count as usize)?;
        Ok(Hands { count, map })
    }

    /// Whether there is this hand.
    pub fn has(&self, hand: u32) -> bool
        ensures { IsTrue result ↔ IsHand self.now hand }
    {
        1 <= hand && hand <= self.count
    }

    /// What the hand holds, if it holds something: one look-up.
    pub fn held(&self, hand: u32) -> Option<&Proposal>
        ensures { option_copied result ≡ finite.get self.now.held hand }
    {
        self.map.get(&hand)
    }

    // The hand holds the proposal, in place of what it held: one look-up. Where memory is refused all hands stay as they are.
    pub(crate) fn hold(&mut self, hand: u32, proposal: Proposal) -> Result<(), AllocError>
        ensures ok { OnOk result (self.new ≡ with_hand hand proposal self.old) }
        ensures err { OnErr result (self.new ≡ self.old) }
    {
        self.map.insert(hand, proposal)?;
        Ok(())
    }

    // Empties the hand, and gives what it held, if it held something: one look-up.
    pub(crate) fn release(&mut self, hand: u32) -> Option<Proposal>
        ensures value { result ≡ finite.get self.old.held hand }
        ensures left { self.new ≡ emptied hand self.old }
    {
        self.map.swap_remove(&hand)
    }
}
