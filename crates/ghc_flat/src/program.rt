// Programs: clauses in order, and which of them are for a call.
ghost use Rattle.std.specs.Prelude.{◌≡◌, IfSome, IfNone, option_copied};

use crate::candidates::Candidates;
use crate::clause::Clause;
use crate::firsts::Firsts;
use crate::index::Index;
use ghc_term::{Name, Term};
use std::marker::Model;

/// A program: flat, linear and defined clauses, numbered from 1.
pub struct Program {
    pub(crate) clauses: Vec<Clause>,
    pub(crate) index: Index,
    pub(crate) firsts: Firsts,
}

impl Drop for Program {
    fn drop(self) {
        let Program {
            clauses: _clauses,
            index: _index,
            firsts: _firsts,
        } = self;
    }
}

impl Model for Program {
    ghost use Rattle.ghc_flat.specs.Clause.{Program as program};
    ghost use Rattle.ghc_flat.specs.inner.ClauseCode.{program_code};

    ghost Value = { program };

    ghost coded = { program_code };

    ghost use Rattle.ghc_flat.specs.Flat.{IsProgram};
    ghost use Rattle.ghc_flat.specs.inner.Index.{IsIndexOf};
    ghost use Rattle.ghc_flat.specs.Numbers.{keys_of_program};
    ghost use Rattle.ghc_flat.specs.inner.Firsts.{AreTablesOf};

    ghost view = { λ p. p.clauses.items };

    ghost invariant = { λ p. IsProgram p.clauses.items × IsIndexOf (keys_of_program p.clauses.items) p.index × AreTablesOf p.clauses.items p.firsts.tables.entries };
}

impl Program {
    ghost use Rattle.ghc_flat.specs.Clause.{Clause as clause, IsClause};
    ghost use Rattle.ghc_flat.specs.Flat.{IsProgram};
    ghost use Rattle.ghc_flat.specs.Numbers.{AreNumbersFor, AreNumbersWith};

    /// Its clauses, in order.
    pub fn clauses(&self) -> &[Clause]
        ensures same { result.now ≡ self.now }
        ensures program { IsProgram self.now }
    {
        &self.clauses
    }

    /// The clause of this number, from 1 on: one step.
    pub fn clause(&self, number: u32) -> Option<&Clause>
        ensures found { IfSome result (λ c. IsClause self.now number c.now) }
        ensures none { IfNone result ((c : clause) → ¬ IsClause self.now number c) }
    {
        let index = number.checked_sub(1)?;
        self.clauses.get(index as usize)
    }

    /// The numbers of the clauses for the calls of the name with so many arguments, in order: two look-ups.
    pub fn clauses_for(&self, name: &Name, arity: usize) -> &[u32]
        ensures { AreNumbersFor self.now name.now arity result.now }
    {
        self.index.numbers(name, arity)
    }

    /// The numbers, in order, of the clauses that a call of the name with so many arguments can have where the first of these ends so: it
    /// leaves out clauses that have another value there, where they are many. Two look-ups, or four.
    pub fn candidates(&self, name: &Name, arity: usize, end: Option<&Term>) -> Candidates<'_>
        ensures { AreNumbersWith self.now name.now arity (option_copied end.entry) result }
    {
        self.firsts.candidates(&self.index, name, arity, end)
    }
}
