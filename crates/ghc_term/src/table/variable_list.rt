// Distinct variables in the order in which they came.
ghost use Rattle.std.specs.Prelude.{◌≡◌, ◌≢◌, [], ◌∷◌, ◌++◌, IfOk, IfSome, IfNone, IsTrue, OnOk, OnErr, Some, All, slice_get};
ghost use Rattle.ghc_term.specs.Lists.{In};
ghost use Rattle.ghc_term.specs.inner.VariableList.{AreDifferent};

use crate::var_name::VarName;
use indexmap::IndexSet;
use std::alloc::{AllocError, Global};
use std::marker::Model;
use std::slice;

// How many variables are searched one after another.
const MOST_LISTED: usize = 8;

// Variables, each once: up to three without memory of their own, a few in a list, more in a table.
#[derive(Drop)]
pub struct VariableList {
    held: Held,
}

#[derive(Drop)]
enum Held {
    Nothing(Global),
    One(Global, VarName),
    Two(Global, [VarName; 2]),
    Three(Global, [VarName; 3]),
    Listed(Vec<VarName>),
    Tabled(Box<IndexSet<VarName>>),
}

impl Model for VariableList {
    ghost use Rattle.std.specs.Prelude.{List};
    ghost use Rattle.ghc_term.specs.declared.var_name.VarName.{VarName};
    ghost use Rattle.ghc_term.specs.inner.VariableList.{variable_list_code, in_order, AreDifferent};

    ghost Value = { List VarName };

    ghost coded = { variable_list_code };

    ghost view = { λ m. in_order m.held };

    ghost invariant = { λ m. AreDifferent (in_order m.held) };
}

// Where the variable stands in the list: one comparison for each that stands before it.
fn place_in(list: &[VarName], x: VarName) -> Option<usize>
    ensures found { IfSome result (λ place. slice_get list.now place ≡ Some x) }
    ensures none { IfNone result (All (λ y. y ≢ x) list.now) }
{
    list.iter().position(|y| *y == x)
}

// The three.
fn with_third(two: &[VarName; 2], third: VarName) -> [VarName; 3]
    ensures { result ≡ two.now ++ third ∷ [] }
{
    [two[0], two[1], third]
}

// A list of the four, with no more room.
fn listed(alloc: Global, three: &[VarName], fourth: VarName) -> Result<Vec<VarName>, AllocError>
    ensures { IfOk result (λ list. list.items ≡ three.now ++ fourth ∷ []) }
{
    let mut list = Vec::with_capacity(alloc, 4)?;
    list.extend_from_slice(three)?;
    list.push(fourth)?;
    Ok(list)
}

impl Held {
    ghost use Rattle.ghc_term.specs.inner.VariableList.{in_order};

    // The allocator.
    fn allocator(&self) -> Global {
        match self {
            Held::Nothing(alloc) => *alloc,
            Held::One(alloc, _) => *alloc,
            Held::Two(alloc, _) => *alloc,
            Held::Three(alloc, _) => *alloc,
            Held::Listed(list) => *list.allocator(),
            Held::Tabled(table) => *table.allocator(),
        }
    }

    // The variables.
    fn as_slice(&self) -> &[VarName]
        ensures { result.now ≡ in_order self.now }
    {
        match self {
            Held::Nothing(_) => &[],
            Held::One(_, x) => slice::from_ref(x),
            Held::Two(_, xs) => xs,
            Held::Three(_, xs) => xs,
            Held::Listed(list) => list.as_slice(),
            Held::Tabled(table) => table.as_slice(),
        }
    }
}

impl VariableList {
    // No variables, which take no memory.
    pub fn new(alloc: Global) -> VariableList
        ensures { result ≡ [] }
    {
        VariableList {
            held: Held::Nothing(alloc),
        }
    }

    // No variables, with room for a few.
    pub fn with_capacity(alloc: Global, count: usize) -> Result<VariableList, AllocError>
        ensures { IfOk result (λ list. list ≡ []) }
    {
        if count < 4 {
            return Ok(VariableList::new(alloc));
        }
        let list = Vec::with_capacity(alloc, count.min(MOST_LISTED))?;
        Ok(VariableList {
            held: Held::Listed(list),
        })
    }

    // The variables.
    pub fn as_slice(&self) -> &[VarName]
        ensures variables { result.now ≡ self.now }
        ensures different { AreDifferent self.now }
    {
        self.held.as_slice()
    }

    // Whether there are no variables.
    #[inline(always)]
    pub fn is_empty(&self) -> bool
        ensures { IsTrue result → self.now ≡ [] }
    {
        matches!(&self.held, Held::Nothing(_))
    }

    // Where the variable stands, from 0 on: eight comparisons at most, or one look-up.
    #[inline(always)]
    pub fn place_of(&self, x: VarName) -> Option<usize>
        ensures found { IfSome result (λ place. slice_get self.now place ≡ Some x) }
        ensures none { IfNone result (¬ In x self.now) }
        ensures different { AreDifferent self.now }
    {
        match &self.held {
            Held::Tabled(table) => table.get_index_of(&x),
            held => place_in(held.as_slice(), x),
        }
    }

    // Puts a variable after the others.
    #[inline(always)]
    pub fn push(&mut self, x: VarName) -> Result<(), AllocError>
        requires { ¬ In x self.old }
        ensures ok { OnOk result (self.new ≡ self.old ++ x ∷ []) }
        ensures err { OnErr result (self.new ≡ self.old) }
    {
        let alloc = self.held.allocator();
        match &mut self.held {
            Held::Nothing(_) => {
                self.held = Held::One(alloc, x);
            }
            Held::One(_, y) => {
                self.held = Held::Two(alloc, [*y, x]);
            }
            Held::Two(_, two) => {
                let three = with_third(two, x);
                self.held = Held::Three(alloc, three);
            }
            Held::Three(_, three) => {
                let list = listed(alloc, three, x)?;
                self.held = Held::Listed(list);
            }
            Held::Listed(list) => {
                if list.len() < MOST_LISTED {
                    list.push(x)?;
                } else {
                    self.held = Held::Tabled(tabled(list, x)?);
                }
            }
            Held::Tabled(table) => {
                table.insert(x)?;
            }
        }
        Ok(())
    }
}

// A table of the variables, with one more after them.
fn tabled(list: &Vec<VarName>, x: VarName) -> Result<Box<IndexSet<VarName>>, AllocError>
    requires different { AreDifferent list.now.items }
    requires new { ¬ In x list.now.items }
    ensures { IfOk result (λ table. table.value.keys ≡ list.now.items ++ x ∷ []) }
{
    let alloc = *list.allocator();
    let mut table = IndexSet::with_capacity(alloc, 2 * MOST_LISTED)?;
    for y in list {
        table.insert(*y)?;
    }
    table.insert(x)?;
    Ok(Box::new(alloc, table)?)
}
