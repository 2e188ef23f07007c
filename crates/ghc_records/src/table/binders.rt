// Which step bound a variable.
ghost use Rattle.std.specs.Prelude.{◌≡◌, ◌≤◌, if◌then◌else◌, is_some, Some, None, OnOk};
ghost use Rattle.std.specs.FinMap as finite;
ghost use Rattle.ghc_term.specs.declared.var_name.VarName.{VarName};
ghost use Rattle.ghc_term.specs.Store.{value_at};

use ghc_term::{Bindings, VarName, VariableMap};
use std::alloc::{AllocError, Global};
use std::marker::Model;

// The numbers of the steps that bound variables, by variable.
#[derive(Drop)]
pub(crate) struct Binders {
    map: VariableMap<u32>,
}

impl Model for Binders {
    ghost use Rattle.ghc_term.specs.Table.{Table, table_code};
    ghost use Rattle.ghc_records.specs.UseIndex.{BindersByVariable};
    ghost use Rattle.ghc_records.specs.inner.RecordCode.{binders_code};

    ghost Value = { Table BindersByVariable };

    ghost coded = { table_code binders_code };

    ghost view = { λ b. b.map };
}

impl Binders {
    // No variables, which take no memory.
    pub(crate) fn new(alloc: Global) -> Binders
        ensures { result.held ≡ finite.empty }
    {
        Binders {
            map: VariableMap::new(alloc),
        }
    }

    // The number of the step that bound the variable, if one did: one look-up.
    #[inline(always)]
    pub(crate) fn get(&self, x: VarName) -> Option<u32>
        ensures { result ≡ finite.get self.now.held x }
    {
        self.map.get(x).copied()
    }

    // Makes room for as many more variables, which steps up to this number made.
    #[inline(always)]
    pub(crate) fn reserve(&mut self, count: usize, newest: u32) -> Result<(), AllocError>
        ensures held { self.new.held ≡ self.old.held }
        ensures room { OnOk result (count ≤ self.new.room) }
        ensures kept { self.old.room ≤ self.new.room }
    {
        self.map.reserve(count, newest)
    }

    // Puts the step under each variable that it bound, where there is room: one look-up for each.
    #[inline(always)]
    pub(crate) fn put_all(&mut self, binds: &Bindings, number: u32)
        requires { finite.len binds.now ≤ self.old.room }
        ensures { (y : VarName) → finite.get self.new.held y ≡ if is_some (value_at binds.now y) then Some number else finite.get self.old.held y }
    {
        for (x, _) in binds.entries() {
            self.map.put(*x, number);
        }
    }

    // Takes each variable away that is bound here: one look-up for each.
    pub(crate) fn remove_all(&mut self, binds: &Bindings)
        ensures { (y : VarName) → finite.get self.new.held y ≡ if is_some (value_at binds.now y) then None else finite.get self.old.held y }
    {
        for (x, _) in binds.entries() {
            self.map.remove(*x);
        }
    }
}
