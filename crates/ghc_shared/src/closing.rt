// How the sharing ends.
ghost use Rattle.std.specs.Prelude.{◌≡◌, ◌≤◌, ◌+◌, [], length, drop, All};
ghost use Rattle.std.specs.List.Sorted.{IsStrictlyIncreasing};
ghost use mathlib.Core.List.{IsPrefix};
ghost use Rattle.ghc_shared.specs.inner.Logs.{items_of, ArePlacesBy};
ghost use Rattle.ghc_shared.specs.Rule.{keeper};
ghost use Rattle.ghc_shared.specs.Passes.{AreAll};
ghost use Rattle.ghc_shared.specs.Places.{AreAllByTheirs, AreEachOnce, places_since, weight_of_places};

use crate::growing::Growing;
use crate::keeper::catch_up;
use crate::knowledge::{HistorySeat, HistoryTable};
use crate::locked::Held;
use crate::naming::Naming;
use crate::pass::Pass;
use crate::shared::Shared;
use std::sync::ledger::Share;

impl<C: Growing + Drop, N: Naming> Shared<C, N> {
    /// Takes back all passes that the opening gave, in their order, and gives the value. Its history begins with each pass's front, and
    /// each place since the opening is that of one accepted call of one pass. It takes no memory, waits for nobody, and is never
    /// refused; it costs a few steps on one word for each pass.
    pub fn close(self, passes: Vec<Pass<C, N>>) -> C
        requires all { AreAll N.passes 0 passes.items }
        requires parts { N.parts ≡ N.passes + 1 }
        ensures opened { C.opened result ≡ N.opened }
        ensures legal { C.legal (C.history result) }
        ensures longer { N.base ≤ length (C.history result) }
        ensures begins { All (λ p. IsPrefix p.front (C.history result)) passes.items }
        ensures rising { All (λ p. IsStrictlyIncreasing p.places) passes.items }
        ensures once { AreEachOnce passes.items (places_since N.base (C.history result)) }
    {
        let Shared { table, lock, rest } = self;
        let (value, held) = lock.into_inner().into_parts();
        let Held { mut seat, mut book } = held;
        let mut rest = rest.into_inner();
        let count = value.len();
        take_all_back(&table, &mut seat, &value, count, &mut rest, passes);
        book.audit(&mut rest);
        value
    }
}

// All passes come back.
fn take_all_back<C: Growing, N: Naming>(
    table: &HistoryTable<C>,
    seat: &mut HistorySeat<C>,
    value: &C,
    count: u64,
    rest: &mut Share<N>,
    passes: Vec<Pass<C, N>>,
)
    requires table { (table.now.shared.table_id ≡ N.table) × (N.table.words ≡ 1) × (seat.old.table_id ≡ N.table) }
    requires keeper { (seat.old.me ≡ (keeper seat.old.me.0.seen, [])) × (items_of seat.old.me.0.seen ≡ C.history value.now) }
    requires count { count ≡ length (C.history value.now) }
    ensures rest { (rest.new.parts ≡ rest.old.parts + length passes.items) × (rest.new.amount ≡ rest.old.amount + weight_of_places (λ _. 1) passes.items) }
    ensures begins { All (λ p. IsPrefix p.front (C.history value.now)) passes.items }
    ensures rising { All (λ p. IsStrictlyIncreasing p.places) passes.items }
    ensures theirs { AreAllByTheirs N.base (drop N.base seat.old.me.0.seen) passes.items }
{
    for pass in passes {
        take_back(table, seat, value, count, rest, pass);
    }
}

// A pass comes back: what it has seen begins the history, and its share of the ledger goes to the others.
fn take_back<C: Growing, N: Naming>(
    table: &HistoryTable<C>,
    seat: &mut HistorySeat<C>,
    value: &C,
    count: u64,
    rest: &mut Share<N>,
    pass: Pass<C, N>,
)
    requires table { (table.now.shared.table_id ≡ N.table) × (N.table.words ≡ 1) × (seat.old.table_id ≡ N.table) }
    requires keeper { (seat.old.me ≡ (keeper seat.old.me.0.seen, [])) × (items_of seat.old.me.0.seen ≡ C.history value.now) }
    requires count { count ≡ length (C.history value.now) }
    ensures seat { (seat.new.table_id ≡ seat.old.table_id) × (seat.new.me ≡ seat.old.me) }
    ensures rest { (rest.new.parts ≡ rest.old.parts + 1) × (rest.new.amount ≡ rest.old.amount + length pass.places) }
    ensures begins { IsPrefix pass.front (C.history value.now) }
    ensures theirs { ArePlacesBy pass.number N.base (drop N.base seat.old.me.0.seen) pass.places }
{
    let Pass {
        seat: claim,
        share,
        number,
        places: _,
        submits: _,
    } = pass;
    drop(catch_up(table, seat, claim, value, number, count, count));
    rest.merge(share);
}
