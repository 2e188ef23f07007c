// Where the variables of a text are looked up.
ghost use Rattle.std.specs.Prelude.{◌≡◌, List, option_copied};
ghost use Rattle.ghc_term.specs.Bindings.{IsAcyclic, Leads};
ghost use Rattle.ghc_term.specs.Store.{value_at};
ghost use Rattle.ghc_term.specs.declared.var_name.VarName.{VarName};
ghost use Rattle.ghc_term.specs.inner.Lookup.{held_in};

use crate::store::Store;
use crate::term::Term;
use crate::var_name::VarName;

// Where the variables of a text are looked up.
#[derive(Clone, Copy)]
pub(crate) enum Lookup<'a> {
    // Nowhere: the text is as it is written.
    Nowhere,
    // In a store.
    In(&'a Store),
}

impl<'a> Lookup<'a> {
    // No value reaches its own variable. This costs nothing.
    pub(crate) fn acyclic(&self)
        ensures { IsAcyclic (value_at (held_in self.now)) }
    {
        match *self {
            Lookup::Nowhere => (),
            Lookup::In(store) => store.acyclic(),
        }
    }

    // What the variable is bound to: one look-up at most.
    pub(crate) fn get(&self, x: VarName) -> Option<&'a Term>
        ensures { option_copied result ≡ value_at (held_in self.now) x }
    {
        match *self {
            Lookup::Nowhere => None,
            Lookup::In(store) => store.get(x),
        }
    }

    // Where the chain of the term ends: an unbound variable or a value.
    pub(crate) fn end(&self, term: &'a Term) -> &'a Term
        ensures { (passed : List VarName) × Leads (value_at (held_in self.now)) term.now passed result.now }
    {
        match *self {
            Lookup::Nowhere => term,
            Lookup::In(store) => store.end(term),
        }
    }
}
