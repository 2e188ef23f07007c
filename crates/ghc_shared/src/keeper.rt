// The steps of the table that are made under the lock.
ghost use Rattle.std.specs.Prelude.{◌≡◌, [], true, length};
ghost use mathlib.Core.List.{IsPrefix};
ghost use Rattle.ghc_shared.specs.inner.Logs.{extended};
ghost use Rattle.ghc_shared.specs.Rule.{keeper, front};

use crate::growing::Growing;
use crate::knowledge::{CatchUp, Compared, Copied, HistorySeat, HistoryTable};
use std::snapshot::Snapshot;

// The keeper finds that what the claim has seen begins what it knows. It takes in what the value's history has more, which the pass
// with this number made: its length was `old` and is `new`. The claim is spent; the seat given in its place has seen all that the
// keeper knows. It takes no memory, and cannot fail: the word is changed by one compare-and-exchange.
pub(crate) fn catch_up<C: Growing>(
    table: &HistoryTable<C>,
    seat: &mut HistorySeat<C>,
    claim: HistorySeat<C>,
    value: &C,
    by: u64,
    old: u64,
    new: u64,
) -> HistorySeat<C>
    requires tables { (seat.old.table_id ≡ table.now.shared.table_id) × (claim.table_id ≡ table.now.shared.table_id) × (table.now.shared.table_id.words ≡ 1) }
    requires keeps { (seat.old.me.0.keeps ≡ true) × (seat.old.me.1 ≡ []) × (claim.me.1 ≡ []) }
    requires counts { (old ≡ length seat.old.me.0.seen) × (new ≡ length (extended seat.old.me.0.seen by (C.history value.now))) }
    ensures begins { IsPrefix claim.me.0.seen seat.old.me.0.seen }
    ensures keeper { (seat.new.table_id ≡ seat.old.table_id) × (seat.new.me ≡ (keeper (extended seat.old.me.0.seen by (C.history value.now)), [])) }
    ensures told { (result.table_id ≡ seat.old.table_id) × (result.me ≡ (front (extended seat.old.me.0.seen by (C.history value.now)), [])) }
{
    let shared = &table.shared;
    let said = (by, Snapshot::of(value));
    shared.join_seat::<Compared>(seat, claim);
    shared.compare_exchange_with::<CatchUp<C>>(seat, 0, old, new, &said);
    shared.split_seat::<Copied>(seat)
}
