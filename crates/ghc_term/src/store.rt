// The bindings of variables.
ghost use Rattle.std.specs.Prelude.{◌≡◌, ◌≤◌, ◌↔◌, ◌⊎◌, IfOk, IfErr, OnOk, OnErr, IsTrue, None, Some};
ghost use Rattle.std.specs.FinMap as finite;
ghost use Rattle.ghc_term.specs.Store.{with_binds};

use crate::bindings::Bindings;
use crate::fault::Fault;
use crate::overlay::Overlay;
use crate::table::known::{goes_far, has_no_other, has_none};
use crate::table::variable_list::VariableList;
use crate::table::variable_map::VariableMap;
use crate::term::Term;
use crate::var_name::VarName;
use crate::view::TermView;
use std::alloc::{AllocError, Global};
use std::marker::Model;
use std::mem;

/// What variables are bound to: a finite map in which no value reaches its own variable.
pub struct Store {
    map: VariableMap<Term>,
    // variables that reach none but each other, so that a search for another one goes past them
    known: VariableList,
    // whether a variable was unbound: from then on a step may come again, whose search was seen to be short in an earlier store
    has_unbound: bool,
}

impl Model for Store {
    ghost use Rattle.ghc_term.specs.Store.{StoreValue, store_code, value_at};
    ghost use Rattle.ghc_term.specs.Table.{Table, table_code};
    ghost use Rattle.ghc_term.specs.Bindings.{IsAcyclic};
    ghost use Rattle.ghc_term.specs.inner.Known.{AreKnown};

    ghost Value = { Table StoreValue };

    ghost coded = { table_code store_code };

    ghost view = { λ s. s.map };

    ghost invariant = { λ s. IsAcyclic (value_at s.map.held) × AreKnown (value_at s.map.held) s.known };
}

impl Store {
    ghost use Rattle.std.specs.Prelude.{option_copied, List};
    ghost use Rattle.ghc_term.specs.Store.{value_at};
    ghost use Rattle.ghc_term.specs.Tree.{Tree, variable};
    ghost use Rattle.ghc_term.specs.Bindings.{IsAcyclic, Leads, Reaches};
    ghost use Rattle.ghc_term.specs.inner.Known.{AreKnown, AreKnownBut};
    ghost use Rattle.ghc_term.specs.declared.var_name.VarName.{VarName};

    /// A store without bindings, which takes no memory.
    pub fn new(alloc: Global) -> Store
        ensures { result.held ≡ finite.empty }
    {
        Store {
            map: VariableMap::new(alloc),
            known: VariableList::new(alloc),
            has_unbound: false,
        }
    }

    /// Every store is acyclic. This costs nothing.
    pub fn acyclic(&self)
        ensures { IsAcyclic (value_at self.now.held) }
    {
        let _map = &self.map;
    }

    /// What the variable is bound to: one look-up.
    #[inline(always)]
    pub fn get(&self, x: VarName) -> Option<&Term>
        ensures { option_copied result ≡ value_at self.now.held x }
    {
        self.map.get(x)
    }

    /// Where the chain of the term ends: an unbound variable or a value. One look-up for each variable passed.
    pub fn end<'a>(&'a self, term: &'a Term) -> &'a Term
        ensures { (passed : List VarName) × Leads (value_at self.now.held) term.now passed result.now }
    {
        self.acyclic();
        let mut place = term;
        loop {
            match place.view() {
                TermView::Var(x) => match self.get(x) {
                    Some(value) => place = value,
                    None => return place,
                },
                _ => return place,
            }
        }
    }

    /// The variables passed from the term by following bindings, an unbound last one included. Two look-ups for each.
    pub fn chain(&self, alloc: Global, term: &Term) -> Result<Vec<VarName>, AllocError>
        ensures { IfOk result (λ passed. (e : Tree) × Leads (value_at self.now.held) term.now passed.items e) }
    {
        self.acyclic();
        let none = Bindings::new(alloc);
        let overlay = Overlay {
            store: self,
            binds: &none,
        };
        let chain = overlay.chain(alloc, term)?;
        Ok(chain.into_passed())
    }

    /// Whether the variable stands in the term, or in the value of a variable that the term reaches. It goes by a loop,
    /// once through the term and through each value that it reaches, past what is closed as written and past known variables.
    pub fn reaches(&self, from: &Term, to: VarName) -> Result<bool, AllocError>
        ensures { IfOk result (λ yes. IsTrue yes ↔ Reaches (value_at self.now.held) from.now to) }
    {
        self.acyclic();
        let alloc = self.map.allocator();
        let none = Bindings::new(alloc);
        let overlay = Overlay {
            store: self,
            binds: &none,
        };
        overlay.reaches(alloc, from, to)
    }

    // Whether two look-ups tell that a variable does not reach another: it is known, and the other is not.
    pub(crate) fn is_known_apart(&self, y: VarName, x: VarName) -> bool
        ensures { IsTrue result → ¬ Reaches (value_at self.now.held) (variable y) x }
    {
        self.known.place_of(y).is_some() && self.known.place_of(x).is_none()
    }

    /// Makes room for as many more bindings of variables that steps up to this number made. The bindings stay, and so does the room
    /// where memory is refused.
    pub fn reserve(&mut self, count: usize, newest: u32) -> Result<(), AllocError>
        ensures held { self.new.held ≡ self.old.held }
        ensures room { OnOk result (count ≤ self.new.room) }
        ensures kept { self.old.room ≤ self.new.room }
    {
        self.map.reserve(count, newest)
    }

    // Whether there is one binding, and a search from its value was seen to be short in this store.
    #[inline(always)]
    fn is_near(&self, binds: &Bindings) -> bool {
        !self.has_unbound && binds.is_near()
    }

    // The first of the bindings: its variable, and whether a search from its value is long. No look-up where it was seen to be short,
    // else one for each argument of the value, and where it has an open one, a few steps.
    fn first_of(&self, binds: &Bindings) -> (VarName, bool) {
        match binds.entries().first() {
            Some((x, value)) => (
                *x,
                !self.is_near(binds) && goes_far(&self.map, &self.known, value),
            ),
            None => (VarName { step: 0, place: 0 }, false),
        }
    }

    // Adds to the known variables all that the value of x reaches, where x was bound now.
    fn know(&self, x: VarName, known: &mut VariableList) -> Result<(), AllocError>
        requires { AreKnownBut (value_at self.now.held) x known.old }
        ensures { OnOk result (AreKnown (value_at self.now.held) known.new) }
    {
        self.acyclic();
        let alloc = self.map.allocator();
        let none = Bindings::new(alloc);
        let overlay = Overlay {
            store: self,
            binds: &none,
        };
        overlay.learn(alloc, x, known)
    }

    /// Binds each variable to its value, where there is room and the store stays acyclic. It cannot fail, and costs a look-up for
    /// each. What a long search from a single value comes to is known from then on, if there is memory for that and the search was
    /// not seen to be short before, and so is what a known variable is bound to; it is gone through once more for this, as far as it
    /// is not known. It shows in what searches cost.
    pub fn put(&mut self, binds: Bindings)
        requires room { finite.len binds ≤ self.old.room }
        requires acyclic { IsAcyclic (value_at (with_binds (finite.entries binds) self.old.held)) }
        ensures { self.new.held ≡ with_binds (finite.entries binds) self.old.held }
    {
        if self.is_near(&binds) && self.known.is_empty() {
            binds.put_into(&mut self.map);
            return;
        }
        let (x, is_far) = self.first_of(&binds);
        if !is_far && has_none(&self.known, binds.entries(), x) {
            binds.put_into(&mut self.map);
            return;
        }
        self.put_and_know(x, binds);
    }

    // Binds each variable to its value. All that the value of x reaches is known then, if none of the others was known, and there is
    // memory. (That x is known, too, is not wanted: once it is unbound again, it may be bound to the same term.)
    #[inline(never)]
    fn put_and_know(&mut self, x: VarName, binds: Bindings)
        requires room { finite.len binds ≤ self.old.room }
        requires acyclic { IsAcyclic (value_at (with_binds (finite.entries binds) self.old.held)) }
        ensures { self.new.held ≡ with_binds (finite.entries binds) self.old.held }
    {
        let alloc = self.map.allocator();
        let mut known = mem::replace(&mut self.known, VariableList::new(alloc));
        let is_first = has_no_other(&known, binds.entries(), x);
        binds.put_into(&mut self.map);
        if is_first && self.know(x, &mut known).is_ok() {
            self.known = known;
        }
    }

    /// Binds an unbound variable, at the cost of `reaches`, after which no variable is known. `Fault::Cycle` exactly where the value reaches the
    /// variable; otherwise it fails only where memory is refused.
    pub fn bind(&mut self, x: VarName, value: Term) -> Result<(), Fault>
        requires { value_at self.old.held x ≡ None }
        ensures ok { OnOk result (self.new.held ≡ finite.insert self.old.held x value) }
        ensures open { OnOk result (¬ Reaches (value_at self.old.held) value x) }
        ensures cycle { result ≡ Err Fault.Cycle → Reaches (value_at self.old.held) value x }
        ensures only { IfErr result (λ e. (e ≡ Fault.Cycle) ⊎ (e ≡ Fault.Memory)) }
        ensures err { OnErr result (self.new.held ≡ self.old.held) }
    {
        if self.reaches(&value, x)? {
            return Err(Fault::Cycle);
        }
        self.map.reserve(1, x.step)?;
        let alloc = self.map.allocator();
        let _known = mem::replace(&mut self.known, VariableList::new(alloc));
        self.map.put(x, value);
        Ok(())
    }

    /// Takes a binding away and gives its value, if the variable was bound: one look-up. The room does not shrink.
    pub fn unbind(&mut self, x: VarName) -> Option<Term>
        ensures value { result ≡ value_at self.old.held x }
        ensures held { self.new.held ≡ finite.remove self.old.held x }
        ensures room { self.old.room ≤ self.new.room }
    {
        self.has_unbound = true;
        self.map.remove(x)
    }
}

impl Drop for Store {
    fn drop(self) {
        let Store {
            map: _map,
            known: _known,
            has_unbound: _,
        } = self;
    }
}
