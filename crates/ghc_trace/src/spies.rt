// The predicates at whose calls a run stops.
ghost use Rattle.std.specs.Prelude.{◌≡◌, ◌↔◌, ◌++◌, ◌<◌, All, map, IfOk, IsTrue, OnOk, OnErr};
ghost use Rattle.std.specs.FinSet as set;
ghost use Rattle.ghc_trace.specs.Spies.{as_written, predicate, spied_of, spies_in_order, HasPredicate, IsSpied};

use ghc_records::Predicate as Written;
use ghc_term::{Goal, GoalView, Name};
use indexmap::{Equivalent, IndexSet};
use std::alloc::{AllocError, Global};
use std::collections::BTreeSet;
use std::marker::Model;

// A predicate by its name and its number of arguments.
#[derive(Drop, PartialEq, Eq, PartialOrd, Ord, Hash)]
struct Predicate {
    name: Name,
    arity: usize,
}

// A predicate that is asked for, whose name is not shared.
#[derive(Clone, Copy, Drop, PartialEq, Eq, Hash)]
struct Asked<'a> {
    name: &'a Name,
    arity: usize,
}

impl<'a> Equivalent<Predicate> for Asked<'a> {
    ghost use Rattle.std.specs.Hash as fed;
    ghost use Rattle.ghc_flat.specs.Numbers.{is_same_key};
    ghost use Rattle.ghc_trace.specs.inner.SpyKeys.{said_of_both};

    ghost equivalent = { λ q p. is_same_key p.name p.arity (q.name.now, q.arity) };

    ghost respects_hash = { λ q p. said_of_both (λ f n. fed.str f ++ fed.usize n) q.name.now p.name q.arity p.arity };

    ghost respects_eq = { λ q p other. said_of_both (λ f n. is_same_key other.name other.arity (f, n)) q.name.now p.name q.arity p.arity };

    fn equivalent(&self, key: &Predicate) -> bool {
        *self.name == key.name && self.arity == key.arity
    }
}

/// A set of predicates, each known by its name and its number of arguments.
#[derive(Drop)]
pub struct SpySet {
    table: IndexSet<Predicate>,
}

impl Model for SpySet {
    ghost use Rattle.std.specs.FinSet as set;
    ghost use Rattle.ghc_trace.specs.Spies.{Spies};
    ghost use Rattle.ghc_trace.specs.inner.SpiesCode.{spies_code};
    ghost use Rattle.std.specs.Prelude.{All, ◌<◌};

    ghost Value = { Spies };

    ghost coded = { spies_code };

    ghost view = { λ s. set.from_list s.table.keys };

    // Each has as many arguments as a word can say.
    ghost invariant = { λ s. All (λ p. p.arity < 4294967296) s.table.keys };
}

// The predicates, as a chronicle has them.
fn written(alloc: Global, ordered: &BTreeSet<Predicate>) -> Result<Vec<Written>, AllocError>
    requires { All (λ p. p.arity < 4294967296) ordered.now.keys }
    ensures { IfOk result (λ listed. listed.items ≡ map as_written ordered.now.keys) }
{
    let mut listed = Vec::new(alloc);
    for spied in ordered {
        let name = spied.name.share()?;
        let arity = spied.arity as u32;
        listed.push(Written { name, arity })?;
    }
    Ok(listed)
}

impl SpySet {
    /// No predicates, which take no memory.
    pub fn new(alloc: Global) -> SpySet
        ensures { result ≡ set.empty }
    {
        SpySet {
            table: IndexSet::new(alloc),
        }
    }

    /// The set of these predicates, in whatever order they stand and however often. It costs one look-up for each. It fails only where
    /// memory is refused.
    pub fn of(alloc: Global, predicates: &[Written]) -> Result<SpySet, AllocError>
        ensures { IfOk result (λ spies. spies ≡ spied_of predicates.now) }
    {
        let mut spies = SpySet::new(alloc);
        for predicate in predicates {
            spies.add(&predicate.name, predicate.arity)?;
        }
        Ok(spies)
    }

    /// The predicates of the set, each once, by name, byte by byte, then arity. It costs what it takes to put them in order. It fails
    /// where memory is refused, or a count of handles is full.
    pub fn in_order(&self, alloc: Global) -> Result<Vec<Written>, AllocError>
        ensures { IfOk result (λ listed. listed.items ≡ spies_in_order self.now) }
    {
        let mut ordered = BTreeSet::new(alloc);
        for spied in self.table.as_slice() {
            let arity = spied.arity;
            let name = spied.name.share()?;
            ordered.insert(Predicate { name, arity })?;
        }
        let _count = ordered.len();
        written(alloc, &ordered)
    }

    /// Whether no predicate is in the set: one step.
    pub fn is_empty(&self) -> bool
        ensures { IsTrue result ↔ (self.now ≡ set.empty) }
    {
        self.table.len() == 0
    }

    /// Whether the predicate of this name and arity is in the set: one look-up.
    pub fn has(&self, name: &Name, arity: usize) -> bool
        ensures { IsTrue result ↔ HasPredicate self.now name.now arity }
    {
        self.table.contains(Asked { name, arity })
    }

    /// Whether the goal is a call of a predicate of the set: one look-up.
    pub fn is_spied(&self, goal: &Goal) -> bool
        ensures { IsTrue result ↔ IsSpied self.now goal.now }
    {
        match goal.view() {
            GoalView::Call(name, arguments) => self.has(name, arguments.len()),
            GoalView::Unify(_, _) => false,
            GoalView::Assign(_, _) => false,
            GoalView::Stream(_, _) => false,
        }
    }

    /// Adds the predicate of this name and arity: one look-up. Where memory is refused, and it fails for nothing else, the set
    /// stays as it was.
    pub fn add(&mut self, name: &Name, arity: u32) -> Result<(), AllocError>
        ensures ok { OnOk result (self.new ≡ set.insert self.old (predicate name.now arity)) }
        ensures err { OnErr result (self.new ≡ self.old) }
    {
        let name = name.share()?;
        let arity = arity as usize;
        self.table.reserve(1)?;
        self.table.insert(Predicate { name, arity }).unwrap();
        Ok(())
    }

    /// Takes the predicate of this name and arity out, if it is in the set: one look-up. It takes no memory and cannot fail.
    pub fn remove(&mut self, name: &Name, arity: usize)
        ensures { self.new ≡ set.remove self.old (predicate name.now arity) }
    {
        self.table.swap_remove(Asked { name, arity });
    }
}
