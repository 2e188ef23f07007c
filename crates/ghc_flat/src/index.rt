// The index of a program: which clauses are for the calls of a name and arity.
ghost use Rattle.std.specs.Prelude.{◌≡◌, ◌++◌, ℕ, List, [], ◌∷◌, OnOk, IfOk, if◌then◌else◌, option_copied, bytes_eq};
ghost use Rattle.std.specs.Map.{lookup};
ghost use Rattle.ghc_reader.specs.Written.{AreWellWritten};

use ghc_reader::WrittenClause;
use ghc_term::Name;
use indexmap::IndexMap;
use std::alloc::{AllocError, Global};

// How many names are searched one after another.
const MOST_LISTED: usize = 8;

// The numbers of the clauses of one name, by arity.
pub(crate) struct Arities {
    numbers: IndexMap<usize, Vec<u32>>,
}

impl Drop for Arities {
    fn drop(self) {
        let Arities { numbers: _numbers } = self;
    }
}

impl Arities {
    ghost use Rattle.ghc_flat.specs.inner.Index.{numbers_of_arity};
    ghost use Rattle.std.specs.Prelude.{nat_eq};

    fn new(alloc: Global) -> Arities
        ensures { (n : ℕ) → numbers_of_arity result n ≡ [] }
    {
        Arities {
            numbers: IndexMap::new(alloc),
        }
    }

    // The numbers at the arity, in order: one look-up.
    fn numbers(&self, arity: usize) -> &[u32]
        ensures { result.now ≡ numbers_of_arity self.now arity }
    {
        match self.numbers.get(&arity) {
            Some(numbers) => numbers,
            None => &[],
        }
    }

    // Adds a number at the arity, after those that are there.
    fn add(&mut self, alloc: Global, arity: usize, number: u32) -> Result<(), AllocError>
        ensures { OnOk result ((n : ℕ) → numbers_of_arity self.new n ≡ numbers_of_arity self.old n ++ (if nat_eq arity n then number ∷ [] else [])) }
    {
        if let Some(numbers) = self.numbers.get_mut(&arity) {
            numbers.push(number)?;
            return Ok(());
        }
        let mut numbers = Vec::new(alloc);
        numbers.push(number)?;
        match self.numbers.insert(arity, numbers) {
            Ok(_) => Ok(()),
            Err(_) => Err(AllocError),
        }
    }
}

// The numbers of the clauses, by name and arity.
pub(crate) struct Index {
    names: IndexMap<Name, Arities>,
}

impl Drop for Index {
    fn drop(self) {
        let Index { names: _names } = self;
    }
}

// What the table has under the name: one comparison for each that stands before it.
#[inline(always)]
fn among<'a>(names: &'a IndexMap<Name, Arities>, name: &Name) -> Option<&'a Arities>
    ensures { option_copied result ≡ lookup (bytes_eq name.now) names.now.entries }
{
    for (other, arities) in names.iter() {
        if name == other {
            return Some(arities);
        }
    }
    None
}

// The same: eight comparisons at most, or one look-up.
#[inline(always)]
fn found<'a>(names: &'a IndexMap<Name, Arities>, name: &Name) -> Option<&'a Arities>
    ensures { option_copied result ≡ lookup (bytes_eq name.now) names.now.entries }
{
    if names.len() <= MOST_LISTED {
        return among(names, name);
    }
    names.get(name)
}

impl Index {
    ghost use Rattle.ghc_flat.specs.inner.Index.{numbers_at, IsIndexOf};
    ghost use Rattle.ghc_flat.specs.Numbers.{is_same_key, keys_of_written};

    // The index of the clauses, which are numbered from 1: a look-up for each of them.
    pub(crate) fn of(alloc: Global, clauses: &[WrittenClause]) -> Result<Index, AllocError>
        requires { AreWellWritten clauses.now }
        ensures { IfOk result (IsIndexOf (keys_of_written clauses.now)) }
    {
        let mut index = Index {
            names: IndexMap::new(alloc),
        };
        let mut number: u32 = 0;
        for clause in clauses {
            number += 1;
            index.add(alloc, &clause.name, clause.head.len(), number)?;
        }
        Ok(index)
    }

    // The numbers at the name and the arity, in order: some comparisons, or a look-up, and a look-up.
    #[inline(always)]
    pub(crate) fn numbers(&self, name: &Name, arity: usize) -> &[u32]
        ensures { result.now ≡ numbers_at self.now name.now arity }
    {
        match found(&self.names, name) {
            Some(arities) => arities.numbers(arity),
            None => &[],
        }
    }

    // Adds a number at the name and the arity, after those that are there.
    fn add(
        &mut self,
        alloc: Global,
        name: &Name,
        arity: usize,
        number: u32,
    ) -> Result<(), AllocError>
        ensures { OnOk result ((f : List ℕ) (n : ℕ) → numbers_at self.new f n ≡ numbers_at self.old f n ++ (if is_same_key f n (name.now, arity) then number ∷ [] else [])) }
    {
        if let Some(arities) = self.names.get_mut(name) {
            return arities.add(alloc, arity, number);
        }
        let mut arities = Arities::new(alloc);
        arities.add(alloc, arity, number)?;
        match self.names.insert(name.share()?, arities) {
            Ok(_) => Ok(()),
            Err(_) => Err(AllocError),
        }
    }
}
