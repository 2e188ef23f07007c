// Sets of variables.
ghost use Rattle.std.specs.Prelude.{◌≡◌, ◌↔◌, length, IsTrue, OnOk, OnErr};

use crate::table::variable_list::VariableList;
use crate::var_name::VarName;
use std::alloc::{AllocError, Global};
use std::marker::Model;

/// A set of variables. One takes no memory; a few are searched one after another, and more by a look-up.
pub struct Variables {
    members: VariableList,
}

impl Model for Variables {
    ghost use Rattle.ghc_term.specs.Bindings.{name_cmp};
    ghost use Rattle.ghc_term.specs.inner.Code.{name_code};
    ghost use Rattle.std.specs.FinSet as set;

    ghost Value = { set.FinSet name_cmp };

    ghost coded = { set.code name_code };

    ghost view = { λ v. set.from_list v.members };
}

impl Variables {
    ghost use Rattle.std.specs.FinSet as set;
    ghost use Rattle.ghc_term.specs.Lists.{In};
    ghost use Rattle.ghc_term.specs.declared.var_name.VarName.{VarName};

    /// The empty set, which takes no memory.
    pub fn new(alloc: Global) -> Variables
        ensures { result ≡ set.empty }
    {
        Variables {
            members: VariableList::new(alloc),
        }
    }

    // The variables of the list.
    pub(crate) fn of(members: VariableList) -> Variables
        ensures { result ≡ set.from_list members }
    {
        Variables { members }
    }

    /// Whether the variable is in the set: one look-up.
    pub fn contains(&self, x: VarName) -> bool
        ensures { result ≡ set.contains self.now x }
    {
        self.members.place_of(x).is_some()
    }

    /// How many variables are in the set.
    pub fn len(&self) -> usize
        ensures { result ≡ set.len self.now }
    {
        self.members().len()
    }

    /// Adds the variable.
    #[inline(always)]
    pub fn insert(&mut self, x: VarName) -> Result<(), AllocError>
        ensures ok { OnOk result (self.new ≡ set.insert self.old x) }
        ensures err { OnErr result (self.new ≡ self.old) }
    {
        if self.contains(x) {
            return Ok(());
        }
        self.members.push(x)
    }

    /// The variables of the set, each once.
    pub fn members(&self) -> &[VarName]
        ensures all { set.from_list result.now ≡ self.now }
        ensures once { length result.now ≡ set.len self.now }
    {
        self.members.as_slice()
    }

    // Whether each of the variables is in the set: one look-up for each.
    fn has_all(&self, others: &[VarName]) -> bool
        ensures { IsTrue result ↔ ((x : VarName) → In x others.now → IsTrue (set.contains self.now x)) }
    {
        for x in others {
            if !self.contains(*x) {
                return false;
            }
        }
        true
    }

    /// Whether the other is the same set: one look-up for each member of both.
    pub fn same(&self, other: &Variables) -> bool
        ensures { IsTrue result ↔ (self.now ≡ other.now) }
    {
        self.has_all(other.members()) && other.has_all(self.members())
    }
}

impl Drop for Variables {
    #[inline(always)]
    fn drop(self) {
        let Variables { members: _members } = self;
    }
}
