// Putting the record into another order.
ghost use Rattle.std.specs.Prelude.{◌≡◌, ◌⊎◌, ◌<◌, ℕ, Err, IfOk, IfErr, OnOk, OnErr};
ghost use Rattle.ghc_term.specs.declared.fault.Fault.{Fault};
ghost use Rattle.ghc_hooks.specs.Notes.{AreLeft};
ghost use Rattle.ghc_term.specs.Lists.{In};
ghost use Rattle.ghc_records.specs.Record.{Record, numbers};
ghost use Rattle.ghc_records.specs.Orders.{AreDistinct};
ghost use Rattle.ghc_depend.specs.Lawful.{IsUnlawful};
ghost use Rattle.ghc_core.specs.Anyway.{BeginsUnkept};
ghost use Rattle.ghc_core.specs.Events.{arrange, arranged};
ghost use Rattle.ghc_core.specs.Answers.{Obeys};
ghost use Rattle.ghc_core.specs.declared.changes.Change.TheVariants.{Reorders as reorders};
ghost use Rattle.ghc_core.specs.Change.{CanChange, HasRoomFor, Changes, IsBoundBy};
ghost use Rattle.ghc_core.specs.Core.{Stays};

use crate::core_state::Core;
use ghc_depend::lawful;
use ghc_records::{Entry, Records};
use ghc_term::Fault;
use std::alloc::{AllocError, Global};
use std::marker::Model;

/// A lawful order of the record that was found, and the records in it, which stand in memory of their own: a change is handed on
/// with each step, and is small by this.
#[derive(Drop)]
pub struct Arrangement {
    records: Box<Records>,
    order: Box<Vec<u32>>,
}

impl Model for Arrangement {
    ghost use Rattle.ghc_core.specs.Arrangement.{Arrangement};
    ghost use Rattle.ghc_core.specs.inner.ArrangementCode.{arrangement_code};

    ghost Value = { Arrangement };

    ghost coded = { arrangement_code };

    ghost view = { λ a. record { records = a.records.value.held; order = a.order.value.items } };
}

// A copy of the order, in memory of its own.
fn boxed(alloc: Global, order: &[u32]) -> Result<Box<Vec<u32>>, AllocError>
    ensures { IfOk result (λ copy. copy.value.items ≡ order.now) }
{
    let copy = order.to_vec(alloc)?;
    Ok(Box::new(alloc, copy)?)
}

// The records of these numbers in this order, shared with these, in memory of their own.
fn boxed_in_order(
    alloc: Global,
    records: &Records,
    order: &[u32],
) -> Result<Box<Records>, AllocError>
    requires kept { (n : ℕ) → In n order.now → In n (numbers records.now.held) }
    requires distinct { AreDistinct order.now }
    ensures numbers { IfOk result (λ new. numbers new.value.held ≡ order.now) }
    ensures kept { IfOk result (λ new. (r : Record) → In r new.value.held → In r records.now.held) }
{
    let new = records.in_order(alloc, order)?;
    Ok(Box::new(alloc, new)?)
}

impl Core {
    /// Finds what it takes to put the record into this order: `NotLawful`, with the pair that tells why, exactly where the order is
    /// not lawful, unless memory was refused before that was known. Else it fails only where memory is refused, which cannot be where
    /// the first number is not kept. It costs what `lawful` costs, and a look-up for each step.
    pub fn prepare_arrange(&self, alloc: Global, order: &[u32]) -> Result<Arrangement, Fault>
        ensures found { IfOk result (λ arrangement. CanChange self.now.world (reorders arrangement)) }
        ensures order { IfOk result (λ arrangement. arrangement.order ≡ order.now) }
        ensures fault { IfErr result (λ f. (f ≡ Fault.Memory) ⊎ ((a b : ℕ) × (f ≡ Fault.NotLawful a b) × IsUnlawful self.now.world.kept order.now a b)) }
        ensures anyway { (f : Fault) → BeginsUnkept self.now.world order.now f → result ≡ Err f }
    {
        let _count = self.records.len();
        match lawful(alloc, &self.records, order) {
            Ok(()) => {}
            Err(fault) => return Err(fault),
        }
        let records = boxed_in_order(alloc, &self.records, order)?;
        let order = boxed(alloc, order)?;
        Ok(Arrangement { records, order })
    }

    // Makes room to put the record into another order.
    #[inline(never)]
    pub(crate) fn reserve_to_arrange(&mut self) -> Result<(), AllocError>
        ensures room { OnOk result (0 < self.new.room.journal) }
        ensures stays { Stays self.old self.new }
        ensures meter { self.new.meter ≡ self.old.meter }
    {
        self.journal.reserve(1)
    }

    // Puts the record into another order, and lets the old one go.
    #[inline(never)]
    pub(crate) fn put_in_order(&mut self, arrangement: Arrangement)
        requires found { CanChange self.old.world (reorders arrangement) }
        requires room { HasRoomFor self.old.world self.old.room (reorders arrangement) }
        ensures changed { Changes self.old.world (reorders arrangement) self.new.world }
        ensures left { AreLeft self.new.world.state.goals (IsBoundBy (reorders arrangement)) self.old.notes self.new.notes }
        ensures notes { self.new.notes ≡ self.old.notes }
        ensures untried { self.new.untried ≡ self.old.untried }
        ensures meter { self.new.meter ≡ self.old.meter }
    {
        let Arrangement { records, order } = arrangement;
        self.records = Box::into_inner(records);
        self.journal.put(Entry::Reordered(order));
    }

    /// Puts the record into this order, also where that is the present one: goals, store, shelf, notes and untried goals stay as
    /// they are, and the journal has the order. `NotLawful`, with the pair that tells why, where the order is not lawful; else it
    /// fails only where memory is refused. A refused order changes nothing. It goes over order and record, with a look-up for each
    /// variable that a step read or bound, and fires and tries nothing.
    pub fn arrange(&mut self, alloc: Global, order: &[u32]) -> Result<(), Fault>
        ensures ok { OnOk result (Obeys ⊥ self.old.world (arrange order.now) arranged self.new.world) }
        ensures fault { IfErr result (λ f. (f ≡ Fault.Memory) ⊎ ((a b : ℕ) × (f ≡ Fault.NotLawful a b) × IsUnlawful self.old.world.kept order.now a b)) }
        ensures anyway { (f : Fault) → BeginsUnkept self.old.world order.now f → result ≡ Err f }
        ensures stays { OnErr result (Stays self.old self.new) }
        ensures notes { self.new.notes ≡ self.old.notes }
        ensures untried { self.new.untried ≡ self.old.untried }
        ensures meter { self.new.meter ≡ self.old.meter }
    {
        self.index_records();
        let arrangement = match self.prepare_arrange(alloc, order) {
            Ok(arrangement) => arrangement,
            Err(fault) => return Err(fault),
        };
        self.reserve_to_arrange()?;
        self.put_in_order(arrangement);
        Ok(())
    }
}
