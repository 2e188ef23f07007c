// What a type can say of one opening.
use std::marker::Brand;
use std::sync::ledger::Ledger;

/// The name of one opening: its table, its ledger, how the value began, how many items the history had then, and how many passes
/// there are. No value of such a type is made. `Brand` is one: whoever calls a function that is generic in a name gives it what the name says.
pub trait Naming: Ledger {
    ghost use Rattle.std.specs.Prelude.{ℕ};
    ghost use Rattle.atomic_table.specs.Seated.{TableId};
    ghost use base.Stored.{Gv};

    /// The table of which the seats are.
    ghost table: { TableId };

    /// The code of how the value began.
    ghost opened: { Gv };

    /// How many items the history had at the opening.
    ghost base: { ℕ };

    /// How many passes there are.
    ghost passes: { ℕ };
}

impl Naming for Brand {
    ghost use base.Stored.{gnil};
    ghost use Rattle.ghc_shared.specs.inner.Openings.{no_table};

    ghost table = { no_table };

    ghost opened = { gnil };

    ghost base = { 0 };

    ghost passes = { 0 };
}
