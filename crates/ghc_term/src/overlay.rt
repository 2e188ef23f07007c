// A store with some bindings in front of it.
ghost use Rattle.std.specs.Prelude.{◌≡◌, ◌↔◌, [], ◌++◌, map, IfOk, OnOk, IsTrue, option_copied, slice_get};
ghost use Rattle.ghc_term.specs.Bindings.{IsAcyclic, Leads, Reaches};
ghost use Rattle.ghc_term.specs.Tree.{variable};
ghost use Rattle.ghc_term.specs.inner.Known.{AreKnown, AreKnownBut};
ghost use Rattle.ghc_term.specs.inner.Walking.{AreFirstKnown, Walking};
ghost use Rattle.ghc_term.specs.Store.{value_at, with_bindings};

use crate::bindings::Bindings;
use crate::gathering::{add_variables, add_variables_of_all};
use crate::store::Store;
use crate::table::variable_list::VariableList;
use crate::term::Term;
use crate::var_name::VarName;
use crate::view::TermView;
use std::alloc::{AllocError, Global};

// How many structures a walk goes through as they are written, before it looks at their variables alone.
const MOST_PLAIN: u32 = 4096;

/// A store with some bindings in front of it, in which no value reaches its own variable.
#[derive(Clone, Copy)]
pub struct Overlay<'a> {
    pub store: &'a Store,
    pub binds: &'a Bindings,
    pub ghost acyclic: { IsAcyclic (with_bindings binds.now (value_at store.now.held)) },
}

/// The variables passed from a term by following bindings, an unbound last one included, and the term to which they lead.
pub struct Chain<'a> {
    pub passed: Vec<VarName>,
    pub end: &'a Term,
}

impl Drop for Chain<'_> {
    fn drop(self) {
        let Chain {
            passed: _passed,
            end: _,
        } = self;
    }
}

impl Chain<'_> {
    /// The variables passed.
    pub fn into_passed(self) -> Vec<VarName>
        ensures { result ≡ self.entry.passed }
    {
        let Chain { passed, end: _ } = self;
        passed
    }
}

// The variable at the place, from 0 on.
fn name_at(list: &VariableList, place: usize) -> Option<VarName>
    ensures { result ≡ slice_get list.now place }
{
    match list.as_slice().get(place) {
        Some(x) => Some(*x),
        None => None,
    }
}

// Adds the terms to those that are still to be searched.
pub fn push_all<'a>(terms: &'a [Term], waiting: &mut Vec<&'a Term>) -> Result<(), AllocError>
    ensures { OnOk result (map (λ t. t.now) waiting.new.items ≡ map (λ t. t.now) waiting.old.items ++ terms.now) }
{
    for term in terms {
        waiting.push(term)?;
    }
    Ok(())
}

impl<'a> Overlay<'a> {
    ghost use Rattle.ghc_term.specs.inner.Overlay.{value_in};
    ghost use Rattle.ghc_term.specs.inner.Seen.{Sees, value_list, StandsInValue};
    ghost use Rattle.ghc_term.specs.inner.KeptList.{Gathers};

    /// What the variable is bound to, in front or else in the store: two look-ups at most.
    pub fn get(&self, x: VarName) -> Option<&'a Term>
        ensures { option_copied result ≡ value_in self.now x }
    {
        match self.binds.get(x) {
            Some(value) => Some(value),
            None => self.store.get(x),
        }
    }

    /// The chain of the term, as a loop. It costs `get` for each variable passed.
    pub fn chain(&self, alloc: Global, term: &'a Term) -> Result<Chain<'a>, AllocError>
        ensures { IfOk result (λ c. Leads (value_in self.now) term.now c.passed.items c.end.now) }
    {
        let mut passed = Vec::new(alloc);
        let mut end = term;
        loop {
            match end.view() {
                TermView::Var(x) => {
                    passed.push(x)?;
                    match self.get(x) {
                        Some(value) => end = value,
                        None => return Ok(Chain { passed, end }),
                    }
                }
                _ => return Ok(Chain { passed, end }),
            }
        }
    }

    // Sees a variable: if it was not seen before, its value is still to be searched.
    fn see(
        &self,
        x: VarName,
        seen: &mut VariableList,
        waiting: &mut Vec<&'a Term>,
    ) -> Result<(), AllocError>
        ensures { OnOk result (Sees (value_in self.now) x seen.old seen.new (map (λ t. t.now) waiting.old.items) (map (λ t. t.now) waiting.new.items)) }
    {
        if seen.place_of(x).is_some() {
            return Ok(());
        }
        seen.push(x)?;
        if let Some(value) = self.get(x) {
            waiting.push(value)?;
        }
        Ok(())
    }

    // Whether two look-ups tell that the term does not reach the variable: where no bindings stand in front, it is a variable that the
    // store knows, as it does not know the other.
    fn is_known_apart(&self, term: &Term, x: VarName) -> bool
        ensures { IsTrue result → ¬ Reaches (value_in self.now) term.now x }
    {
        let TermView::Var(y) = term.view() else {
            return false;
        };
        self.binds.len() == 0 && self.store.is_known_apart(y, x)
    }

    // The same of a variable.
    fn is_name_known_apart(&self, y: VarName, x: VarName) -> bool
        ensures { IsTrue result → ¬ Reaches (value_in self.now) (variable y) x }
    {
        self.binds.len() == 0 && self.store.is_known_apart(y, x)
    }

    // Adds the variables of the variable's value, if there is one.
    fn add_those_of_value(
        &self,
        alloc: Global,
        x: VarName,
        seen: &mut VariableList,
    ) -> Result<(), AllocError>
        ensures { OnOk result (Gathers (StandsInValue (value_in self.now x)) seen.old seen.new) }
    {
        match self.get(x) {
            Some(value) => add_variables(alloc, value, seen),
            None => Ok(()),
        }
    }

    // The search of `reaches` along variables alone, each of them once, where parts of terms may stand in many places.
    fn search_far(&self, alloc: Global, from: &Term, to: VarName) -> Result<bool, AllocError>
        ensures { IfOk result (λ yes. IsTrue yes ↔ Reaches (value_in self.now) from.now to) }
    {
        let mut seen = VariableList::new(alloc);
        add_variables(alloc, from, &mut seen)?;
        for index in 0..usize::MAX {
            let Some(x) = name_at(&seen, index) else {
                return Ok(false);
            };
            if x == to {
                return Ok(true);
            }
            if self.is_name_known_apart(x, to) {
                continue;
            }
            self.add_those_of_value(alloc, x, &mut seen)?;
        }
        Err(AllocError)
    }

    // The search of `reaches`, of which nothing is seen so far.
    fn search(
        &self,
        alloc: Global,
        from: &'a Term,
        to: VarName,
        seen: &mut VariableList,
    ) -> Result<bool, AllocError>
        requires { seen.old ≡ [] }
        ensures { IfOk result (λ yes. IsTrue yes ↔ Reaches (value_in self.now) from.now to) }
    {
        let mut waiting = Vec::new(alloc);
        let mut left = MOST_PLAIN;
        waiting.push(from)?;
        while let Some(term) = waiting.pop() {
            if term.is_closed() {
                continue;
            }
            if self.is_known_apart(term, to) {
                continue;
            }
            match term.view() {
                TermView::Var(x) => {
                    if x == to {
                        return Ok(true);
                    }
                    self.see(x, seen, &mut waiting)?;
                }
                TermView::Struct(_, arguments) => {
                    if left == 0 {
                        return self.search_far(alloc, from, to);
                    }
                    left -= 1;
                    push_all(arguments, &mut waiting)?;
                }
                _ => {}
            }
        }
        Ok(false)
    }

    /// Whether the variable stands in the term, or in the value of a variable that the term reaches. It goes by a loop,
    /// once through the term and through each value that it reaches, past what is closed as written, and, where no bindings
    /// stand in front, past the variables that the store knows.
    pub fn reaches(&self, alloc: Global, from: &'a Term, to: VarName) -> Result<bool, AllocError>
        ensures { IfOk result (λ yes. IsTrue yes ↔ Reaches (value_in self.now) from.now to) }
    {
        let mut seen = VariableList::new(alloc);
        self.search(alloc, from, to, &mut seen)
    }

    // Puts the value of the variable, if there is one, into a search.
    fn open_value(&self, x: VarName, waiting: &mut Vec<&'a Term>) -> Result<(), AllocError>
        ensures { OnOk result (map (λ t. t.now) waiting.new.items ≡ map (λ t. t.now) waiting.old.items ++ value_list (value_in self.now x)) }
    {
        if let Some(value) = self.get(x) {
            waiting.push(value)?;
        }
        Ok(())
    }

    // Adds to the known variables all that the values of those from the place on reach: the value of each once.
    fn learn_values(
        &self,
        alloc: Global,
        from: usize,
        known: &mut VariableList,
    ) -> Result<(), AllocError>
        requires { AreFirstKnown (value_in self.now) from known.old }
        ensures { OnOk result (AreKnown (value_in self.now) known.new) }
    {
        for index in from..usize::MAX {
            let Some(x) = name_at(known, index) else {
                return Ok(());
            };
            self.add_those_of_value(alloc, x, known)?;
        }
        Err(AllocError)
    }

    // The rest of a walk of `learn`, along variables alone, each of them once, where parts of terms may stand in many places.
    fn learn_far(
        &self,
        alloc: Global,
        waiting: &[&Term],
        known: &mut VariableList,
    ) -> Result<(), AllocError>
        requires { Walking (value_in self.now) known.old (map (λ t. t.now) waiting.now) }
        ensures { OnOk result (AreKnown (value_in self.now) known.new) }
    {
        let count = known.as_slice().len();
        add_variables_of_all(alloc, waiting, known)?;
        self.learn_values(alloc, count, known)
    }

    // Adds to the known variables all that the value of the variable reaches, where only this one of them may have been bound since they
    // were known: one step for each part of the values that were not gone through, up to a limit, and then one for each variable.
    pub(crate) fn learn(
        &self,
        alloc: Global,
        x: VarName,
        known: &mut VariableList,
    ) -> Result<(), AllocError>
        requires { AreKnownBut (value_in self.now) x known.old }
        ensures { OnOk result (AreKnown (value_in self.now) known.new) }
    {
        let mut waiting = Vec::new(alloc);
        let mut left = MOST_PLAIN;
        self.open_value(x, &mut waiting)?;
        while let Some(term) = waiting.pop() {
            if term.is_closed() {
                continue;
            }
            match term.view() {
                TermView::Var(y) => self.see(y, known, &mut waiting)?,
                TermView::Struct(_, arguments) => {
                    push_all(arguments, &mut waiting)?;
                    if left == 0 {
                        return self.learn_far(alloc, waiting.as_slice(), known);
                    }
                    left -= 1;
                }
                _ => {}
            }
        }
        Ok(())
    }
}
