// How the sharing begins.
ghost use Rattle.std.specs.Prelude.{◌≡◌, ◌<◌, ◌+◌, [], length, IfOk, IfErr};
ghost use Rattle.ghc_shared.specs.inner.Logs.{opening_log};
ghost use Rattle.ghc_shared.specs.Rule.{keeper};
ghost use Rattle.ghc_shared.specs.Passes.{newcomers, AreAll};

use crate::exclusive::Exclusive;
use crate::growing::Growing;
use crate::knowledge::{Copied, HistorySeat, HistoryTable};
use crate::locked::{Held, Locked};
use crate::naming::Naming;
use crate::pass::Pass;
use crate::shared::Shared;
use atomic_table::Table;
use std::alloc::Global;
use std::marker::Model;
use std::snapshot::Snapshot;
use std::sync::RwLock;
use std::sync::ledger::{Blank, Share};

/// A value that is to be shared, before the type says the name of its table and its ledger. Contracts see these names, the value,
/// and how many passes there are to be.
pub struct Opening<C: Growing> {
    table: HistoryTable<C>,
    seat: HistorySeat<C>,
    blank: Blank,
    value: C,
    passes: u32,
}

impl<C: Growing> Model for Opening<C> {
    ghost use Rattle.std.specs.Prelude.{◌≡◌, ◌+◌, []};
    ghost use Rattle.ghc_shared.specs.inner.Logs.{opening_log};
    ghost use Rattle.ghc_shared.specs.Rule.{keeper};
    ghost use Rattle.ghc_shared.specs.inner.Openings.{Offer};

    ghost Value = { Offer C };

    ghost view = { λ o. record { table = o.table.shared.table_id; name = o.blank.name; passes = o.passes; value = o.value } };

    ghost invariant = { λ o. (o.seat.table_id ≡ o.table.shared.table_id) × (o.table.shared.table_id.words ≡ 1) × (o.seat.me ≡ (keeper (opening_log (C.history o.value)), [])) × (o.blank.parts ≡ o.passes + 1) };
}

impl<C: Growing + Drop> Opening<C> {
    /// The first of two steps: the value with a table and a ledger, for so many passes. Where memory is refused for the table, the
    /// value is given back; there is no other refusal.
    pub fn new(alloc: Global, value: C, passes: u32) -> Result<Opening<C>, C>
        ensures value { IfOk result (λ o. o.value ≡ value) }
        ensures passes { IfOk result (λ o. o.passes ≡ passes) }
        ensures refused { IfErr result (λ back. back ≡ value) }
    {
        let about = Snapshot::of(&value);
        let words = [value.len()];
        match Table::of_words(alloc, &words, &about) {
            Ok((table, seat)) => Ok(Opening {
                table,
                seat,
                blank: Blank::new(passes as u64 + 1),
                value,
                passes,
            }),
            Err(_) => Err(value),
        }
    }

    /// The second step, in a function that is generic in the name: the value behind its lock, and the passes, each of which has
    /// seen the history so far. Where memory is refused for the list of passes, the value is given back; there is no other refusal.
    pub fn named<N: Naming>(self, alloc: Global) -> Result<(Shared<C, N>, Vec<Pass<C, N>>), C>
        requires table { self.table ≡ N.table }
        requires ledger { (self.name ≡ N.name) × (self.passes + 1 ≡ N.parts) }
        requires passes { self.passes ≡ N.passes }
        requires opened { C.opened self.value ≡ N.opened }
        requires base { length (C.history self.value) ≡ N.base }
        ensures passes { IfOk result (λ r. r.1.items ≡ newcomers (C.history self.value) N.passes) }
        ensures all { IfOk result (λ r. AreAll N.passes 0 r.1.items) }
        ensures refused { IfErr result (λ back. back ≡ self.value) }
    {
        let Opening {
            table,
            mut seat,
            blank,
            value,
            passes,
        } = self;
        let Ok(mut made) = Vec::with_capacity(alloc, passes as usize) else {
            return Err(value);
        };
        let (book, mut rest) = blank.open::<N>();
        for number in 0..passes {
            made.push_reserved(newcomer(alloc, &table, &mut seat, &value, &mut rest, number));
        }
        let lock = RwLock::new(Locked::new(value, Held { seat, book }));
        let shared = Shared {
            table,
            lock,
            rest: Exclusive::new(rest),
        };
        Ok((shared, made))
    }
}

// A pass that has seen the history so far.
fn newcomer<C: Growing, N: Naming>(
    alloc: Global,
    table: &HistoryTable<C>,
    seat: &mut HistorySeat<C>,
    value: &C,
    rest: &mut Share<N>,
    number: u32,
) -> Pass<C, N>
    requires table { (table.now.shared.table_id ≡ N.table) × (N.table.words ≡ 1) × (seat.old.table_id ≡ N.table) × (seat.old.me ≡ (keeper (opening_log (C.history value.now)), [])) }
    requires counts { (number < N.passes) × (N.base ≡ length (C.history value.now)) }
    requires rest { (1 < rest.old.parts) × (rest.old.amount ≡ 0) }
    ensures pass { (result.number ≡ number) × (result.front ≡ C.history value.now) × (result.places ≡ []) × (result.submits ≡ 0) }
    ensures seat { (seat.new.table_id ≡ seat.old.table_id) × (seat.new.me ≡ seat.old.me) }
    ensures rest { (rest.new.parts + 1 ≡ rest.old.parts) × (rest.new.amount ≡ 0) }
{
    let _count = value.len();
    Pass {
        seat: table.shared.split_seat::<Copied>(seat),
        share: rest.split_off(1, 0),
        number: number as u64,
        places: Vec::new(alloc),
        submits: 0,
    }
}
