// What the seats of the table know of the history, and the rule that all of them keep.
use crate::growing::Growing;
use atomic_table::{Join, Play, Seat, Split, Table, TableRule};
use std::alloc::Global;
use std::collections::LinkedList;
use std::marker::PhantomData;
use std::snapshot::Snapshot;

/// What a seat knows. The keeper knows the whole log, which is the history with the number of the pass that made each item; a
/// pass knows how the log began. Beside it stands what is to be compared. No value of this type is made.
pub struct Knowledge<E> {
    pub keeps: bool,
    pub seen: LinkedList<(u64, E)>,
    pub compared: LinkedList<(u64, E)>,
}

/// What is announced with a new length: the pass that made a call, and the value after it.
pub type Announced<C> = (u64, Snapshot<C>);

/// A seat of the keeper or of a pass.
pub type HistorySeat<C> = Seat<Announced<C>, Knowledge<<C as Growing>::Item>>;

/// The table of one word, the length of the history.
pub type HistoryTable<C> = Table<
    Announced<C>,
    Knowledge<<C as Growing>::Item>,
    Snapshot<C>,
    HistoryRule<C>,
    Global,
>;

/// The rule: one keeper at most knows the whole log, the word is its length, and what each pass has seen begins it.
pub struct HistoryRule<C> {
    of: PhantomData<C>,
}

impl<C: Growing> TableRule<Announced<C>, Knowledge<C::Item>, Snapshot<C>> for HistoryRule<C> {
    ghost use Rattle.ghc_shared.specs.inner.Logs.{opening_log};
    ghost use Rattle.ghc_shared.specs.Rule.{IsOneLog, keeper};

    ghost holds = { λ key s. IsOneLog s };

    ghost first = { λ key. keeper (opening_log (C.history key.value)) };
}

/// The step in which the keeper takes in what the value's history has more.
pub struct CatchUp<C> {
    of: PhantomData<C>,
}

impl<C: Growing> Play<Announced<C>, Knowledge<C::Item>> for CatchUp<C> {
    ghost use Rattle.ghc_shared.specs.Rule.{CatchesUp};

    ghost then = { CatchesUp C.history };
}

/// The step in which a seat is made that has seen the same.
pub struct Copied;

impl<E> Split<Knowledge<E>> for Copied {
    ghost use Rattle.ghc_shared.specs.Rule.{front};

    ghost left = { λ v. v };

    ghost right = { λ v. front v.seen };
}

/// The step in which a seat is spent, and what it has seen is put beside what another one knows.
pub struct Compared;

impl<E> Join<Knowledge<E>> for Compared {
    ghost use Rattle.std.specs.Prelude.{[]};
    ghost use Rattle.ghc_shared.specs.Rule.{beside, front};

    ghost both = { beside };

    ghost spent = { front [] };
}
