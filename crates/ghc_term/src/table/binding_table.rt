// Many variables with their bindings, found by a table.
ghost use Rattle.std.specs.Prelude.{◌≡◌, IfOk, OnOk, OnErr, option_copied};
ghost use Rattle.std.specs.FinMap as finite;
ghost use Rattle.std.specs.Map.{keys_of};
ghost use Rattle.ghc_term.specs.inner.BindingTable.{AreOnce, map_of};
ghost use Rattle.ghc_term.specs.Store.{value_at};

use crate::table::entry_list::share_entries;
use crate::table::variable_list::VariableList;
use crate::term::Term;
use crate::var_name::VarName;
use std::alloc::{AllocError, Global};
use std::marker::Model;
use std::mem;

// Different variables, each with the term to which it is bound.
pub struct BindingTable {
    names: VariableList,
    entries: Vec<(VarName, Term)>,
}

impl Model for BindingTable {
    ghost use Rattle.std.specs.Prelude.{◌≡◌};
    ghost use Rattle.std.specs.Map.{keys_of};
    ghost use Rattle.ghc_term.specs.inner.BindingTable.{Entries, entries_code};

    ghost Value = { Entries };

    ghost coded = { entries_code };

    ghost view = { λ t. t.entries.items };

    ghost invariant = { λ t. keys_of t.entries.items ≡ t.names };
}

// The variables of the entries.
fn names_of(alloc: Global, entries: &[(VarName, Term)]) -> Result<VariableList, AllocError>
    requires { AreOnce entries.now }
    ensures { IfOk result (λ names. names ≡ keys_of entries.now) }
{
    let mut names = VariableList::with_capacity(alloc, entries.len())?;
    for (x, _) in entries {
        names.push(*x)?;
    }
    Ok(names)
}

// The entries of the list in a table, which takes them out of it. Where memory is refused they stay there.
#[inline(never)]
pub fn tabled(list: &mut Vec<(VarName, Term)>) -> Result<Box<BindingTable>, AllocError>
    requires { AreOnce list.old.items }
    ensures ok { IfOk result (λ table. table.value ≡ list.old.items) }
    ensures err { OnErr result (list.new.items ≡ list.old.items) }
{
    let alloc = *list.allocator();
    let names = names_of(alloc, list)?;
    let entries = mem::replace(list, Vec::new(alloc));
    match Box::new(alloc, BindingTable { names, entries }) {
        Ok(table) => Ok(table),
        Err(failed) => {
            *list = failed.value.into_entries();
            Err(AllocError)
        }
    }
}

impl BindingTable {
    // What the variable is bound to: one look-up.
    pub fn get(&self, x: VarName) -> Option<&Term>
        ensures { option_copied result ≡ value_at (map_of self.now) x }
    {
        match self.names.place_of(x) {
            Some(place) => Some(&self.entries[place].1),
            None => None,
        }
    }

    // The entries.
    pub fn entries(&self) -> &[(VarName, Term)]
        ensures { result.now ≡ self.now }
    {
        self.entries.as_slice()
    }

    // The bindings once more, in a table of their own: one step and one look-up for each.
    pub fn share(&self) -> Result<Box<BindingTable>, AllocError>
        requires { AreOnce self.now }
        ensures { IfOk result (λ table. table.value ≡ self.now) }
    {
        let mut list = share_entries(*self.entries.allocator(), &self.entries)?;
        tabled(&mut list)
    }

    // The entries alone.
    pub fn into_entries(self) -> Vec<(VarName, Term)>
        ensures { result.items ≡ self }
    {
        let BindingTable {
            names: _names,
            entries,
        } = self;
        entries
    }

    // Binds the variable: one look-up.
    #[inline(never)]
    pub fn insert(&mut self, x: VarName, value: Term) -> Result<(), AllocError>
        ensures once { AreOnce self.new }
        ensures ok { OnOk result (map_of self.new ≡ finite.insert (map_of self.old) x value) }
        ensures err { OnErr result (self.new ≡ self.old) }
    {
        match self.names.place_of(x) {
            Some(place) => {
                self.entries[place] = (x, value);
            }
            None => {
                self.entries.reserve(1)?;
                self.names.push(x)?;
                self.entries.push_reserved((x, value));
            }
        }
        Ok(())
    }
}

impl Drop for BindingTable {
    fn drop(self) {
        let BindingTable {
            names: _names,
            entries: _entries,
        } = self;
    }
}
