// The variables of a term. What stands in many places is looked into once, as far as a part keeps its variables.
ghost use Rattle.std.specs.Prelude.{OnOk, IfOk, map};
ghost use Rattle.ghc_term.specs.Tree.{Occurs};
ghost use Rattle.ghc_term.specs.inner.KeptList.{Gathers};
ghost use Rattle.ghc_term.specs.inner.Walking.{StandsIn};

use crate::kept::add_one;
use crate::overlay::push_all;
use crate::table::variable_list::VariableList;
use crate::table::variables::Variables;
use crate::term::Term;
use crate::view::TermView;
use std::alloc::{AllocError, Global};

// Adds the variables of the term to the list: one step for each part that stands outside the parts that keep their variables.
fn gather(alloc: Global, from: &Term, into: &mut VariableList) -> Result<(), AllocError>
    ensures { OnOk result (Gathers (λ y. Occurs y from.now) into.old into.new) }
{
    let mut waiting = Vec::new(alloc);
    waiting.push(from)?;
    while let Some(term) = waiting.pop() {
        if term.is_closed() {
            continue;
        }
        if term.add_kept(into)? {
            continue;
        }
        match term.view() {
            TermView::Var(x) => add_one(x, into)?,
            TermView::Struct(_, arguments) => push_all(arguments, &mut waiting)?,
            _ => {}
        }
    }
    Ok(())
}

// Keeps the variables of the term in it, and says how many there are.
fn keep_those_of(alloc: Global, term: &Term) -> Result<usize, AllocError> {
    let mut list = VariableList::new(alloc);
    gather(alloc, term, &mut list)?;
    let mut variables = Vec::with_capacity(alloc, list.as_slice().len())?;
    variables.extend_from_slice(list.as_slice())?;
    term.keep(variables);
    Ok(list.as_slice().len())
}

// Adds to those that wait what a search for parts goes on with.
fn push_parts<'a>(
    terms: &'a [Term],
    waiting: &mut Vec<(&'a Term, bool)>,
) -> Result<(), AllocError> {
    for term in terms {
        if !term.is_closed() {
            waiting.push((term, false))?;
        }
    }
    Ok(())
}

// Goes on with the parts of the term, and then with the term once more where it may keep its variables.
fn push_inner<'a>(term: &'a Term, waiting: &mut Vec<(&'a Term, bool)>) -> Result<(), AllocError> {
    let TermView::Struct(_, arguments) = term.view() else {
        return Ok(());
    };
    if term.may_keep() {
        waiting.push((term, true))?;
    }
    push_parts(arguments, waiting)
}

// Keeps the variables of parts of the term, the inner ones first: of one part after as many steps as the last one has variables, so that
// the lists cost no more than the steps. A part that keeps its variables is not looked into any more.
fn keep_in_parts(alloc: Global, term: &Term) -> Result<(), AllocError> {
    let mut waiting = Vec::new(alloc);
    waiting.push((term, false))?;
    let mut steps = 0usize;
    let mut last = 0usize;
    for _ in 0..u64::MAX {
        let Some((part, is_gone_through)) = waiting.pop() else {
            return Ok(());
        };
        steps = steps.saturating_add(1);
        if part.keeps() {
            continue;
        }
        if !is_gone_through {
            push_inner(part, &mut waiting)?;
        } else if steps > last {
            last = keep_those_of(alloc, part)?;
            steps = 0;
        }
    }
    Ok(())
}

// Adds the variables of the term to the list.
pub(crate) fn add_variables(
    alloc: Global,
    term: &Term,
    into: &mut VariableList,
) -> Result<(), AllocError>
    ensures { OnOk result (Gathers (λ y. Occurs y term.now) into.old into.new) }
{
    keep_in_parts(alloc, term)?;
    gather(alloc, term, into)
}

// Adds the variables of the terms to the list.
pub(crate) fn add_variables_of_all(
    alloc: Global,
    terms: &[&Term],
    into: &mut VariableList,
) -> Result<(), AllocError>
    ensures { OnOk result (Gathers (λ y. StandsIn y (map (λ t. t.now) terms.now)) into.old into.new) }
{
    for term in terms {
        add_variables(alloc, term, into)?;
    }
    Ok(())
}

impl Term {
    ghost use Rattle.ghc_term.specs.Sets.{IsSetOf};
    ghost use Rattle.ghc_term.specs.Tree.{Occurs};

    /// The variables that stand in the term as written. It goes by a loop, and looks into a part that stands in many places once, as
    /// far as the parts keep their variables: for parts that branch so many steps as they have variables.
    pub fn variables(&self, alloc: Global) -> Result<Variables, AllocError>
        ensures { IfOk result (λ found. IsSetOf found (λ x. Occurs x self.now)) }
    {
        let mut list = VariableList::new(alloc);
        add_variables(alloc, self, &mut list)?;
        Ok(Variables::of(list))
    }
}
