// The value behind its lock, as threads share it.
ghost use Rattle.std.specs.Prelude.{◌≡◌, ◌⊎◌, List};
ghost use mathlib.Core.List.{IsPrefix};
ghost use Rattle.ghc_shared.specs.Passes.{submits_after};
ghost use Rattle.ghc_shared.specs.Receipts.{IsDecided};

use crate::exclusive::Exclusive;
use crate::growing::Growing;
use crate::knowledge::HistoryTable;
use crate::locked::Locked;
use crate::naming::Naming;
use crate::pass::Pass;
use crate::receipt::Receipt;
use std::alloc::Global;
use std::sync::ledger::Share;
use std::sync::{RwLock, Wait};

/// A value that threads share. Each call takes a pass and holds the write side of the one lock, so calls come one after another;
/// whoever only reads the value, in this crate, holds the read side. A call may wait for the lock, and owes no return.
#[derive(Drop)]
pub struct Shared<C: Growing, N: Naming> {
    pub(crate) table: HistoryTable<C>,
    pub(crate) lock: RwLock<Locked<C, N>>,
    pub(crate) rest: Exclusive<Share<N>>,
    ghost table_is: { table.shared.table_id ≡ N.table },
    ghost one_word: { N.table.words ≡ 1 },
    ghost one_part: { rest.parts ≡ 1 },
    ghost no_amount: { rest.amount ≡ 0 },
}

impl<C: Growing, N: Naming> Shared<C, N> {
    /// Makes a call of the value, and gives its receipt: accepted, the call is the last item of the pass's front, at the receipt's
    /// place; refused, it was decided on just the pass's front. A submit is counted, accepted or not. Where memory is refused for the place that the pass is to keep, the
    /// value refuses the call. It costs the value's call, two looks at its length, and a few steps on one word.
    pub fn call<R: Wait>(
        &self,
        rt: &R,
        alloc: Global,
        me: &mut Pass<C, N>,
        ask: C::Ask,
    ) -> Receipt<C::Reply>
        requires { C.knows N.opened ask }
        ensures begins { IsPrefix me.old.front me.new.front }
        ensures number { me.new.number ≡ me.old.number }
        ensures legal { C.legal me.new.front }
        ensures submits { me.new.submits ≡ submits_after (C.submits ask) me.old.submits }
        ensures decided { (before : List C.Item) × IsDecided C.answers before ask result me.old me.new }
    {
        self.lock.write(rt).call(&self.table, alloc, me, ask)
    }

    /// Both passes see the history as it is now, under one holding of the lock: so one of the two had seen all that the other had,
    /// and now both have seen the same. It costs two looks.
    pub fn meet<R: Wait>(&self, rt: &R, me: &mut Pass<C, N>, you: &mut Pass<C, N>)
        ensures one { IsPrefix me.old.front you.old.front ⊎ IsPrefix you.old.front me.old.front }
        ensures same { me.new.front ≡ you.new.front }
        ensures mine { IsPrefix me.old.front me.new.front × (me.new.number ≡ me.old.number) × (me.new.places ≡ me.old.places) × (me.new.submits ≡ me.old.submits) }
        ensures yours { IsPrefix you.old.front you.new.front × (you.new.number ≡ you.old.number) × (you.new.places ≡ you.old.places) × (you.new.submits ≡ you.old.submits) }
        ensures legal { C.legal me.new.front }
    {
        self.lock.write(rt).meet(&self.table, me, you)
    }
}
