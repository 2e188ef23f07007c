// What lies behind the lock: the value, with the keeper's seat and the book.
mod stepping;

ghost use Rattle.std.specs.Prelude.{◌≡◌, ◌⊎◌, IsTrue, length};
ghost use mathlib.Core.List.{IsPrefix};
ghost use Rattle.ghc_shared.specs.Passes.{IsKeeper, submits_after};
ghost use Rattle.ghc_shared.specs.Receipts.{AddsIfAccepted, IsDecided};

use crate::booking::book_call;
use crate::exclusive::Exclusive;
use crate::growing::Growing;
use crate::keeper::catch_up;
use crate::knowledge::{Copied, HistorySeat, HistoryTable};
use crate::naming::Naming;
use crate::pass::{Pass, counted};
use crate::receipt::Receipt;
use std::alloc::Global;
use std::marker::Model;
use std::sync::ledger::Book;

// The keeper's seat, and the book that counts the accepted calls of all passes.
#[derive(Drop)]
pub(crate) struct Held<C: Growing, N: Naming> {
    pub(crate) seat: HistorySeat<C>,
    pub(crate) book: Book<N>,
}

// The value, with the keeper's seat and the book. Contracts see the value. Under the read side the seat and the book are out of
// reach; they are there whenever the lock is free. Nothing changes the value but the methods of this module, which say what they do
// to it.
#[derive(Drop)]
pub(crate) struct Locked<C: Growing, N: Naming> {
    value: C,
    held: Exclusive<Option<Held<C, N>>>,
}

impl<C: Growing, N: Naming> Model for Locked<C, N> {
    ghost use Rattle.std.specs.Prelude.{◌≡◌, MatchOption};
    ghost use Rattle.ghc_shared.specs.Passes.{IsKeeper};

    ghost Value = { C };

    ghost view = { λ l. l.value };

    ghost invariant = { λ l. (C.opened l.value ≡ N.opened) × MatchOption l.held ⊥ (λ h. (h.seat.table_id ≡ N.table) × IsKeeper N.base N.passes (C.history l.value) h.seat.me h.book.total) };
}

impl<C: Growing, N: Naming> Locked<C, N> {
    // The value, with the keeper's seat and the book of its opening.
    pub(crate) fn new(value: C, held: Held<C, N>) -> Locked<C, N>
        requires opened { C.opened value ≡ N.opened }
        requires keeper { (held.seat.table_id ≡ N.table) × IsKeeper N.base N.passes (C.history value) held.seat.me held.book.total }
        ensures { result ≡ value }
    {
        Locked {
            value,
            held: Exclusive::new(Some(held)),
        }
    }

    // The value, which nobody changes while it is read.
    pub(crate) fn get(&self) -> &C
        ensures value { result.now ≡ self.now }
        ensures opened { C.opened result.now ≡ N.opened }
    {
        &self.value
    }

    // The pass sees the whole history.
    pub(crate) fn look(&mut self, table: &HistoryTable<C>, me: &mut Pass<C, N>)
        requires { (table.now.shared.table_id ≡ N.table) × (N.table.words ≡ 1) }
        ensures value { self.new ≡ self.old }
        ensures begins { IsPrefix me.old.front me.new.front }
        ensures front { me.new.front ≡ C.history self.old }
        ensures legal { C.legal me.new.front }
        ensures same { (me.new.number ≡ me.old.number) × (me.new.places ≡ me.old.places) × (me.new.submits ≡ me.old.submits) }
    {
        let count = self.value.len();
        let Some(mut kept) = self.held.replace(None) else {
            unreachable!()
        };
        let claim = table.shared.split_seat::<Copied>(&mut me.seat);
        me.seat = catch_up(
            table,
            &mut kept.seat,
            claim,
            &self.value,
            me.number,
            count,
            count,
        );
        drop(self.held.replace(Some(kept)));
    }

    // Makes the call, and the pass sees the whole history after it.
    pub(crate) fn call(
        &mut self,
        table: &HistoryTable<C>,
        alloc: Global,
        me: &mut Pass<C, N>,
        ask: C::Ask,
    ) -> Receipt<C::Reply>
        requires tables { (table.now.shared.table_id ≡ N.table) × (N.table.words ≡ 1) }
        requires known { C.knows N.opened ask }
        ensures begins { IsPrefix me.old.front me.new.front }
        ensures number { me.new.number ≡ me.old.number }
        ensures legal { C.legal me.new.front }
        ensures front { me.new.front ≡ C.history self.new }
        ensures submits { me.new.submits ≡ submits_after (C.submits ask) me.old.submits }
        ensures decided { IsDecided C.answers (C.history self.old) ask result me.old me.new }
        ensures does { C.does self.old ask result.reply self.new }
    {
        let room = me.places.reserve(1).is_ok();
        me.submits = counted(me.submits, self.value.is_submit(&ask));
        let (receipt, count) = call_with(&mut self.value, alloc, ask, room);
        let Some(mut kept) = self.held.replace(None) else {
            unreachable!()
        };
        book_call(
            table,
            &self.value,
            &mut kept,
            &mut me.seat,
            &mut me.share,
            &mut me.places,
            me.number,
            receipt.place,
            count,
            receipt.accepted,
        );
        drop(self.held.replace(Some(kept)));
        receipt
    }

    // Both passes see the whole history.
    pub(crate) fn meet(
        &mut self,
        table: &HistoryTable<C>,
        me: &mut Pass<C, N>,
        you: &mut Pass<C, N>,
    )
        requires { (table.now.shared.table_id ≡ N.table) × (N.table.words ≡ 1) }
        ensures one { IsPrefix me.old.front you.old.front ⊎ IsPrefix you.old.front me.old.front }
        ensures same { me.new.front ≡ you.new.front }
        ensures mine { IsPrefix me.old.front me.new.front × (me.new.number ≡ me.old.number) × (me.new.places ≡ me.old.places) × (me.new.submits ≡ me.old.submits) }
        ensures yours { IsPrefix you.old.front you.new.front × (you.new.number ≡ you.old.number) × (you.new.places ≡ you.old.places) × (you.new.submits ≡ you.old.submits) }
        ensures legal { C.legal me.new.front }
    {
        self.look(table, me);
        self.look(table, you);
    }
}

impl<C: Growing + Drop, N: Naming> Locked<C, N> {
    // The value, with the keeper's seat and the book.
    pub(crate) fn into_parts(self) -> (C, Held<C, N>)
        ensures value { result.0 ≡ self }
        ensures opened { C.opened result.0 ≡ N.opened }
        ensures keeper { (result.1.seat.table_id ≡ N.table) × IsKeeper N.base N.passes (C.history result.0) result.1.seat.me result.1.book.total }
    {
        let Locked { value, held } = self;
        let Some(held) = held.into_inner() else {
            unreachable!()
        };
        (value, held)
    }
}

// Makes the call, or refuses it where there is no room for its place; gives its receipt, and how many items the history has then.
fn call_with<C: Growing>(
    value: &mut C,
    alloc: Global,
    ask: C::Ask,
    room: bool,
) -> (Receipt<C::Reply>, u64)
    requires { C.knows (C.opened value.old) ask }
    ensures place { result.0.place ≡ length (C.history value.old) }
    ensures call { AddsIfAccepted C.answers result.0.accepted (C.history value.old) (C.history value.new) ask result.0.reply }
    ensures opened { C.opened value.new ≡ C.opened value.old }
    ensures room { IsTrue result.0.accepted → IsTrue room }
    ensures count { result.1 ≡ length (C.history value.new) }
    ensures legal { C.legal (C.history value.new) }
    ensures does { C.does value.old ask result.0.reply value.new }
{
    let place = value.len();
    if !room {
        let reply = value.refuse(alloc, &ask);
        let receipt = Receipt {
            place,
            accepted: false,
            reply,
        };
        return (receipt, value.len());
    }
    let (reply, accepted) = value.call(alloc, ask);
    let receipt = Receipt {
        place,
        accepted,
        reply,
    };
    (receipt, value.len())
}
