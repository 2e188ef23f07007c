// The index of a program by the first arguments of its heads: which clauses a call can have that has a value there.
ghost use Rattle.std.specs.Prelude.{◌≡◌, ℕ, ℤ, List, [], ◌∷◌, ◌++◌, OnOk, IfOk, if◌then◌else◌, bytes_eq, option_copied};
ghost use Rattle.std.specs.Map.{lookup};
ghost use Rattle.std.specs.Ordering.{int_eq};
ghost use Rattle.ghc_term.specs.Tree.{Tree};
ghost use Rattle.ghc_flat.specs.Clause.{Program};
ghost use Rattle.ghc_flat.specs.Numbers.{keys_of_program, numbers_from, AreNumbersWith};
ghost use Rattle.ghc_flat.specs.inner.Firsts.{has_top, is_unvalued, first_of as first_argument_of, numbers_of_top, candidates_of, IsTableOf, AreTablesOf};
ghost use Rattle.ghc_flat.specs.inner.Index.{IsIndexOf, found_numbers};

use crate::candidates::Candidates;
use crate::clause::Clause;
use crate::index::Index;
use ghc_term::{Name, Term, TermView};
use indexmap::IndexMap;
use std::alloc::{AllocError, Global};

// Where no more clauses than this have a name and arity, a call tries them all.
const MOST_TRIED: usize = 8;

// The numbers of the clauses of one name and arity, by the first arguments of their heads.
pub(crate) struct Table {
    // an integer
    integers: IndexMap<i64, Vec<u32>>,
    // an atom, or a structure, by its name
    names: IndexMap<Name, Vec<u32>>,
    // a variable, or no argument
    unvalued: Vec<u32>,
}

impl Drop for Table {
    fn drop(self) {
        let Table {
            integers: _integers,
            names: _names,
            unvalued: _unvalued,
        } = self;
    }
}

// The numbers that were found, if any were.
fn listed(found: Option<&Vec<u32>>) -> &[u32]
    ensures { result.now ≡ found_numbers (option_copied found.entry) }
{
    match found {
        Some(numbers) => numbers,
        None => &[],
    }
}

// Adds a number under an integer, after those that are there.
fn add_integer(
    integers: &mut IndexMap<i64, Vec<u32>>,
    alloc: Global,
    integer: i64,
    number: u32,
) -> Result<(), AllocError>
    ensures { OnOk result ((k : ℤ) → found_numbers (lookup (int_eq k) integers.new.entries) ≡ found_numbers (lookup (int_eq k) integers.old.entries) ++ (if int_eq k integer then number ∷ [] else [])) }
{
    if let Some(numbers) = integers.get_mut(&integer) {
        numbers.push(number)?;
        return Ok(());
    }
    let mut numbers = Vec::new(alloc);
    numbers.push(number)?;
    match integers.insert(integer, numbers) {
        Ok(_) => Ok(()),
        Err(_) => Err(AllocError),
    }
}

// Adds a number under a name, after those that are there.
fn add_name(
    names: &mut IndexMap<Name, Vec<u32>>,
    alloc: Global,
    name: &Name,
    number: u32,
) -> Result<(), AllocError>
    ensures { OnOk result ((f : List ℕ) → found_numbers (lookup (bytes_eq f) names.new.entries) ≡ found_numbers (lookup (bytes_eq f) names.old.entries) ++ (if bytes_eq f name.now then number ∷ [] else [])) }
{
    if let Some(numbers) = names.get_mut(name) {
        numbers.push(number)?;
        return Ok(());
    }
    let mut numbers = Vec::new(alloc);
    numbers.push(number)?;
    match names.insert(name.share()?, numbers) {
        Ok(_) => Ok(()),
        Err(_) => Err(AllocError),
    }
}

// The first argument of the head of the clause of this number, if there are both.
fn first_of(clauses: &[Clause], number: u32) -> Option<&Term>
    ensures { option_copied result ≡ first_argument_of clauses.now number }
{
    let index = number.checked_sub(1)?;
    let clause = clauses.get(index as usize)?;
    clause.head.first()
}

impl Table {
    // The table of the clauses of these numbers: a look-up for each of them.
    fn of(alloc: Global, clauses: &[Clause], numbers: &[u32]) -> Result<Table, AllocError>
        ensures { IfOk result (IsTableOf clauses.now numbers.now) }
    {
        let mut table = Table {
            integers: IndexMap::new(alloc),
            names: IndexMap::new(alloc),
            unvalued: Vec::new(alloc),
        };
        for number in numbers {
            table.add(alloc, first_of(clauses, *number), *number)?;
        }
        Ok(table)
    }

    // Adds the number of a clause with this first argument, after those that are there.
    fn add(&mut self, alloc: Global, first: Option<&Term>, number: u32) -> Result<(), AllocError>
        ensures valued { OnOk result ((t : Tree) → numbers_of_top self.new t ≡ numbers_of_top self.old t ++ (if has_top t (option_copied first.entry) then number ∷ [] else [])) }
        ensures unvalued { OnOk result (self.new.unvalued.items ≡ self.old.unvalued.items ++ (if is_unvalued (option_copied first.entry) then number ∷ [] else [])) }
    {
        let Some(first) = first else {
            self.unvalued.push(number)?;
            return Ok(());
        };
        match first.view() {
            TermView::Int(integer) => add_integer(&mut self.integers, alloc, integer, number),
            TermView::Atom(name) => add_name(&mut self.names, alloc, name, number),
            TermView::Struct(name, _) => add_name(&mut self.names, alloc, name, number),
            TermView::Var(_) => {
                self.unvalued.push(number)?;
                Ok(())
            },
        }
    }

    // The numbers of the clauses that have this integer in the first place, or this name.
    fn valued(&self, end: &Term) -> &[u32]
        ensures { result.now ≡ numbers_of_top self.now end.now }
    {
        match end.view() {
            TermView::Int(integer) => listed(self.integers.get(&integer)),
            TermView::Atom(name) => listed(self.names.get(name)),
            TermView::Struct(name, _) => listed(self.names.get(name)),
            TermView::Var(_) => &[],
        }
    }

    // Of these numbers, of which it is the table, those of the clauses that do not have another value than this in the first place.
    fn candidates<'a>(&'a self, numbers: &'a [u32], end: &Term) -> Candidates<'a>
        ensures { result ≡ candidates_of self.now numbers.now end.now }
    {
        if let TermView::Var(_) = end.view() {
            return Candidates::all(numbers);
        }
        Candidates {
            valued: self.valued(end),
            unvalued: &self.unvalued,
        }
    }
}

// Adds the table of these numbers, which are all that a name and arity have, where they are many and it is not there.
fn add_table(
    tables: &mut IndexMap<u32, Table>,
    alloc: Global,
    clauses: &[Clause],
    numbers: &[u32],
) -> Result<(), AllocError>
    ensures { OnOk result ((f : List ℕ) (n : ℕ) → numbers.now ≡ numbers_from 0 (keys_of_program clauses.now) f n → AreTablesOf clauses.now tables.old.entries → AreTablesOf clauses.now tables.new.entries) }
{
    let Some(first) = numbers.first() else {
        return Ok(());
    };
    if numbers.len() <= MOST_TRIED || tables.get(first).is_some() {
        return Ok(());
    }
    let table = Table::of(alloc, clauses, numbers)?;
    match tables.insert(*first, table) {
        Ok(_) => Ok(()),
        Err(_) => Err(AllocError),
    }
}

// The tables of a program, each by the first of its numbers.
pub(crate) struct Firsts {
    tables: IndexMap<u32, Table>,
}

impl Drop for Firsts {
    fn drop(self) {
        let Firsts { tables: _tables } = self;
    }
}

impl Firsts {
    // The tables of the clauses, of which the index is given: some look-ups for each of them.
    pub(crate) fn of(alloc: Global, clauses: &[Clause], index: &Index) -> Result<Firsts, AllocError>
        requires { IsIndexOf (keys_of_program clauses.now) index.now }
        ensures { IfOk result (λ firsts. AreTablesOf clauses.now firsts.tables.entries) }
    {
        let mut tables = IndexMap::new(alloc);
        for clause in clauses {
            let numbers = index.numbers(&clause.name, clause.head.len());
            add_table(&mut tables, alloc, clauses, numbers)?;
        }
        Ok(Firsts { tables })
    }

    // Of the numbers of a name and arity, those of the clauses that do not have another value in the first place than that in which
    // the first argument of a call ends.
    pub(crate) fn candidates<'a>(
        &'a self,
        index: &'a Index,
        name: &Name,
        arity: usize,
        end: Option<&Term>,
    ) -> Candidates<'a>
        ensures { (P : Program) → IsIndexOf (keys_of_program P) index.now → AreTablesOf P self.now.tables.entries → AreNumbersWith P name.now arity (option_copied end.entry) result }
    {
        let numbers = index.numbers(name, arity);
        if numbers.len() <= MOST_TRIED {
            return Candidates::all(numbers);
        }
        let (Some(first), Some(end)) = (numbers.first(), end) else {
            return Candidates::all(numbers);
        };
        match self.tables.get(first) {
            Some(table) => table.candidates(numbers, end),
            None => Candidates::all(numbers),
        }
    }
}
