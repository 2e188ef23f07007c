// Rolling back: a step and its consequences are taken away, all or none.
ghost use Rattle.std.specs.Prelude.{◌≡◌, ◌⊎◌, [], ℕ, List, IfOk, IfErr, OnOk, OnErr, Err};
ghost use Rattle.ghc_term.specs.Lists.{In};
ghost use Rattle.ghc_hooks.specs.Notes.{AreLeft};
ghost use Rattle.ghc_records.specs.Record.{Record as record_spec, numbers};
ghost use Rattle.ghc_records.specs.inner.EntryCode.{entry_of};
ghost use Rattle.ghc_depend.specs.Depend.{IsKeptAs, IsNotKept};
ghost use Rattle.ghc_depend.specs.Deletion.{IsBoundIn};
ghost use Rattle.ghc_depend.specs.Kept.{IsSplitAt};
ghost use Rattle.ghc_core.specs.Events.{roll, undone};
ghost use Rattle.ghc_core.specs.Answers.{Obeys};
ghost use Rattle.ghc_core.specs.declared.changes.Change.TheVariants.{Goes as goes};
ghost use Rattle.ghc_core.specs.Gone.{all_gone};
ghost use Rattle.ghc_core.specs.Change.{CanChange, HasRoomFor, Changes, IsBoundBy, entry_of_going};
ghost use Rattle.ghc_core.specs.Core.{Stays};

use crate::changes::rolling::{strike_all, take_all_back, take_one_back};
use crate::changes::{Change, Going, strike};
use crate::core_state::Core;
use ghc_depend::consequences;
use ghc_records::{Entry, Records, Removal};
use ghc_term::Fault;
use std::alloc::{AllocError, Global};
use std::marker::Model;

/// What it takes to take a step away, alone or with its consequences in recorded order: no memory, but room in some tables.
#[derive(Drop)]
pub struct Rollback {
    step: Removal,
    consequences: Vec<Removal>,
}

impl Model for Rollback {
    ghost use Rattle.ghc_core.specs.Gone.{Gone};
    ghost use Rattle.ghc_core.specs.inner.GoneCode.{gone_code};

    ghost Value = { Gone };

    ghost coded = { gone_code };

    ghost view = { λ r. record { first = r.step; others = r.consequences.items } };
}

// What it takes to take away the kept steps of these numbers: a look-up and one step for each.
fn removals_of(alloc: Global, records: &Records, ns: &[u32]) -> Result<Vec<Removal>, AllocError>
    requires kept { (n : ℕ) → In n ns.now → In n (numbers records.now.held) }
    ensures numbers { IfOk result (λ removals. numbers removals.items ≡ ns.now) }
    ensures kept { IfOk result (λ removals. (r : record_spec) → In r removals.items → In r records.now.held) }
{
    let mut removals = Vec::new(alloc);
    removals.reserve_exact(ns.len())?;
    for number in ns {
        let kept = records.get(*number).unwrap();
        removals.push(Removal::of(kept)?)?;
    }
    Ok(removals)
}

impl Rollback {
    // What it takes to take this step away alone.
    #[inline(always)]
    pub(crate) fn alone(alloc: Global, step: Removal) -> Rollback
        ensures { result ≡ record { first = step; others = [] } }
    {
        Rollback {
            step,
            consequences: Vec::new(alloc),
        }
    }

    // What it takes to roll this kept step back. It fails only where memory is refused. It costs what `consequences` costs.
    fn of(alloc: Global, records: &Records, step: Removal) -> Result<Rollback, AllocError>
        requires kept { In step records.now.held }
        ensures first { IfOk result (λ gone. gone.first ≡ step) }
        ensures split { IfOk result (λ gone. (left : List record_spec) × IsSplitAt records.now.held step (all_gone gone) left) }
    {
        let _count = records.len();
        let found = consequences(alloc, records, step.step().number())?;
        let consequences = removals_of(alloc, records, &found)?;
        Ok(Rollback { step, consequences })
    }

    /// The step itself, and its consequences in recorded order.
    pub fn parts(&self) -> (&Removal, &[Removal])
        ensures first { result.0.now ≡ self.now.first }
        ensures others { result.1.now ≡ self.now.others }
    {
        let consequences: &[Removal] = &self.consequences;
        (&self.step, consequences)
    }

    /// The numbers of the steps, in recorded order: one step for each.
    pub fn numbers(&self, alloc: Global) -> Result<Vec<u32>, AllocError>
        ensures { IfOk result (λ ns. ns.items ≡ numbers (all_gone self.now)) }
    {
        let mut ns = Vec::new(alloc);
        ns.push(self.step.step().number())?;
        for removal in &self.consequences {
            ns.push(removal.step().number())?;
        }
        Ok(ns)
    }
}

// The entry of steps that go, of which the first has this number.
#[inline(always)]
fn entry_for(how: Going, number: u32) -> Entry
    ensures { (r : record_spec) → r.number ≡ number → entry_of result ≡ entry_of_going how r }
{
    match how {
        Going::Alone => Entry::Undid(number),
        Going::Together => Entry::Rolled(number),
    }
}

impl Core {
    // Makes room to take steps away.
    #[inline(never)]
    pub(crate) fn reserve_to_roll(&mut self, rollback: &Rollback) -> Result<(), AllocError>
        ensures room { OnOk result (HasRoomFor self.new.world self.new.room (goes Going.Together rollback.now)) }
        ensures stays { Stays self.old self.new }
        ensures meter { self.new.meter ≡ self.old.meter }
    {
        let count = rollback.consequences.len() + 1;
        let newest = rollback.step.step().number();
        self.state.reserve_goals(count, newest)?;
        self.tries.reserve(count, newest)?;
        self.shelf.reserve(count)?;
        self.journal.reserve(1)
    }

    // Takes steps away: a look-up for each of their goals and bindings, and what `Records::remove` costs for each.
    #[inline(never)]
    pub(crate) fn take_away(&mut self, how: Going, rollback: Rollback)
        requires found { CanChange self.old.world (goes how rollback) }
        requires room { HasRoomFor self.old.world self.old.room (goes how rollback) }
        ensures changed { Changes self.old.world (goes how rollback) self.new.world }
        ensures notes { AreLeft self.new.world.state.goals (IsBoundBy (goes how rollback)) self.old.notes self.new.notes }
        ensures meter { self.new.meter ≡ self.old.meter }
    {
        let Rollback { step, consequences } = rollback;
        let number = step.step().number();
        strike_all(&mut self.records, consequences.as_slice());
        strike(&mut self.records, number);
        take_all_back(
            &mut self.state,
            &mut self.tries,
            &mut self.shelf,
            &mut self.streams,
            consequences,
        );
        take_one_back(
            &mut self.state,
            &mut self.tries,
            &mut self.shelf,
            &mut self.streams,
            step,
        );
        self.journal.put(entry_for(how, number));
    }

    /// Finds what it takes to roll the step of this number back: `NotKept` exactly where the step is not kept, which it reports
    /// before it asks for memory. Else it fails only where memory is refused. It costs a look-up for each direct dependence on the
    /// step or on a consequence, and puts the consequences in order; where the index of the record is not whole, it goes once over the
    /// records after the step.
    pub fn prepare_rollback(&self, alloc: Global, number: u32) -> Result<Rollback, Fault>
        ensures found { IfOk result (λ gone. CanChange self.now.world (goes Going.Together gone)) }
        ensures step { IfOk result (λ gone. gone.first.number ≡ number) }
        ensures fault { IfErr result (λ f. ((f ≡ Fault.Memory) × ((r : record_spec) × IsKeptAs self.now.world.kept number r)) ⊎ ((f ≡ Fault.NotKept) × IsNotKept self.now.world.kept number)) }
    {
        let Some(kept) = self.records.get(number) else {
            return Err(Fault::NotKept);
        };
        let step = match Removal::of(kept) {
            Ok(step) => step,
            Err(_) => return Err(Fault::Memory),
        };
        match Rollback::of(alloc, &self.records, step) {
            Ok(rollback) => Ok(rollback),
            Err(_) => Err(Fault::Memory),
        }
    }

    /// Rolls the step of this number back: it and its consequences are taken away, all or none, and their records go to the shelf.
    /// What they bound is unbound, the goals that they made are gone, and those that they consumed and did not make are there again.
    /// The reply is their numbers in recorded order. Nothing is fired or tried. `NotKept` exactly where the step is not kept, which
    /// it reports before it asks for memory. Else it fails only where memory is refused. A refused rollback changes nothing. It
    /// costs some look-ups for each goal, read and binding of the steps that are taken away, however many steps are kept.
    pub fn rollback(&mut self, alloc: Global, number: u32) -> Result<Vec<u32>, Fault>
        ensures ok { IfOk result (λ ns. Obeys ⊥ self.old.world (roll number) (undone ns.items) self.new.world) }
        ensures fault { IfErr result (λ f. (f ≡ Fault.Memory) ⊎ ((f ≡ Fault.NotKept) × IsNotKept self.old.world.kept number)) }
        ensures refused { IsNotKept self.old.world.kept number → result ≡ Err Fault.NotKept }
        ensures stays { OnErr result (Stays self.old self.new) }
        ensures meter { self.new.meter ≡ self.old.meter }

        // A note stays just where its goal is still there and did not look at what the steps had bound.
        ensures notes { OnOk result ((r : record_spec) × (gone left : List record_spec) × IsKeptAs self.old.world.kept number r × IsSplitAt self.old.world.kept r gone left
            × AreLeft self.new.world.state.goals (IsBoundIn gone) self.old.notes self.new.notes) }
    {
        self.stands();
        self.index_records();
        let rollback = match self.prepare_rollback(alloc, number) {
            Ok(rollback) => rollback,
            Err(fault) => return Err(fault),
        };
        let ns = rollback.numbers(alloc)?;
        self.make(Change::Goes(Going::Together, rollback))?;
        Ok(ns)
    }
}
