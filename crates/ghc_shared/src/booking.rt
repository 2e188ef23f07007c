// What is done for a pass after a call of the value.
ghost use Rattle.std.specs.Prelude.{◌≡◌, ◌<◌, ◌++◌, [], ◌∷◌, length, IsTrue, MatchBool, vec_len, vec_capacity};
ghost use mathlib.Core.List.{IsPrefix};
ghost use Rattle.ghc_shared.specs.inner.Logs.{items_of, AddsOneIf};
ghost use Rattle.ghc_shared.specs.Passes.{IsKeeper, IsPass};

use crate::growing::Growing;
use crate::keeper::catch_up;
use crate::knowledge::{Copied, HistorySeat, HistoryTable};
use crate::locked::Held;
use crate::naming::Naming;
use std::sync::ledger::Share;

// The keeper takes in what a call added to the history, which had `place` items before and has `count` now; and the pass with this
// number, seat, share and places sees the whole history. An accepted call is counted in the book, and its place kept. It takes no
// memory, and cannot fail.
pub(crate) fn book_call<C: Growing, N: Naming>(
    table: &HistoryTable<C>,
    value: &C,
    kept: &mut Held<C, N>,
    seat: &mut HistorySeat<C>,
    share: &mut Share<N>,
    places: &mut Vec<u64>,
    number: u64,
    place: u64,
    count: u64,
    accepted: bool,
)
    requires tables { (table.now.shared.table_id ≡ N.table) × (N.table.words ≡ 1) }
    requires keeper { (kept.old.seat.table_id ≡ N.table) × IsKeeper N.base N.passes (items_of kept.old.seat.me.0.seen) kept.old.seat.me kept.old.book.total }
    requires pass { (seat.old.table_id ≡ N.table) × IsPass N.base N.passes C.legal number places.old.items seat.old.me share.old.parts share.old.amount }
    requires adds { AddsOneIf accepted (items_of kept.old.seat.me.0.seen) (C.history value.now) }
    requires counts { (place ≡ length (items_of kept.old.seat.me.0.seen)) × (count ≡ length (C.history value.now)) }
    requires legal { C.legal (C.history value.now) }
    requires room { IsTrue accepted → vec_len places.old < vec_capacity places.old }
    ensures keeper { (kept.new.seat.table_id ≡ N.table) × IsKeeper N.base N.passes (C.history value.now) kept.new.seat.me kept.new.book.total }
    ensures pass { (seat.new.table_id ≡ N.table) × IsPass N.base N.passes C.legal number places.new.items seat.new.me share.new.parts share.new.amount }
    ensures seen { IsPrefix (items_of seat.old.me.0.seen) (items_of kept.old.seat.me.0.seen) }
    ensures begins { IsPrefix (items_of seat.old.me.0.seen) (items_of seat.new.me.0.seen) }
    ensures front { items_of seat.new.me.0.seen ≡ C.history value.now }
    ensures places { MatchBool accepted (places.new.items ≡ places.old.items ++ place ∷ []) (places.new.items ≡ places.old.items) }
{
    let claim = table.shared.split_seat::<Copied>(seat);
    *seat = catch_up(table, &mut kept.seat, claim, value, number, place, count);
    if !accepted {
        return;
    }
    kept.book.add(share, 1);
    places.push_reserved(place);
}
