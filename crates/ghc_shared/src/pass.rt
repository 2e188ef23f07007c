// Passes.
ghost use Rattle.std.specs.Prelude.{◌≡◌};
ghost use Rattle.std.specs.List.Sorted.{IsStrictlyIncreasing};
ghost use Rattle.ghc_shared.specs.Passes.{submits_after};

use crate::growing::Growing;
use crate::knowledge::HistorySeat;
use crate::naming::Naming;
use std::marker::Model;
use std::sync::ledger::Share;

/// What a thread holds in order to make calls: it knows the front of the history that it has seen, and keeps the places of the
/// calls that were accepted from it, and the count of its submits, accepted or not, which stops at the greatest u64. Contracts see
/// these three and its number. A pass can be handed to another thread. One that is dropped is lost, and without it the sharing
/// cannot be closed.
#[derive(Drop)]
pub struct Pass<C: Growing, N: Naming> {
    pub(crate) seat: HistorySeat<C>,
    pub(crate) share: Share<N>,
    pub(crate) number: u64,
    pub(crate) places: Vec<u64>,
    pub(crate) submits: u64,
}

impl<C: Growing, N: Naming> Model for Pass<C, N> {
    ghost use Rattle.std.specs.Prelude.{◌≡◌};
    ghost use Rattle.ghc_shared.specs.inner.Logs.{items_of};
    ghost use Rattle.ghc_shared.specs.Passes.{Known, IsPass};

    ghost Value = { Known C.Item };

    ghost view = { λ p. record { number = p.number; front = items_of p.seat.me.0.seen; places = p.places.items; submits = p.submits } };

    ghost invariant = { λ p. (p.seat.table_id ≡ N.table) × IsPass N.base N.passes C.legal p.number p.places.items p.seat.me p.share.parts p.share.amount };
}

impl<C: Growing, N: Naming> Pass<C, N> {
    /// The places of the calls that were accepted from this pass, in their order. The items that these calls added stand there; of a
    /// core the opening stands at place 0, and the first entry of the journal at place 1.
    pub fn places(&self) -> &[u64]
        ensures places { result.now ≡ self.now.places }
        ensures rising { IsStrictlyIncreasing self.now.places }
        ensures legal { C.legal self.now.front }
    {
        self.places.as_slice()
    }

    /// How many submits were made with this pass, accepted or not; the count stops at the greatest u64.
    pub fn submits(&self) -> u64
        ensures { result ≡ self.now.submits }
    {
        self.submits
    }
}

// The count of submits after a call, which is a submit or not. It stops at the greatest u64.
pub(crate) fn counted(submits: u64, submit: bool) -> u64
    ensures { result ≡ submits_after submit submits }
{
    if submit {
        submits.saturating_add(1)
    } else {
        submits
    }
}
