// All variables that terms reach.
ghost use Rattle.std.specs.Prelude.{◌≡◌, ◌⊎◌, ◌++◌, map, IfOk, OnOk, IsTrue};
ghost use Rattle.ghc_term.specs.Bindings.{Reaches};
ghost use Rattle.ghc_term.specs.Store.{value_at};
ghost use Rattle.ghc_term.specs.Lists.{In};
ghost use Rattle.ghc_term.specs.Sets.{IsSetOf};
ghost use Rattle.ghc_term.specs.Tree.{Occurs};
ghost use Rattle.ghc_hooks.specs.Reached.{leaves, OneReaches, TakesUp, TakesUpAll};
ghost use Rattle.ghc_match.specs.Looked.{ExpressionReaches};
ghost use Rattle.ghc_match.specs.inner.Meeting.{Gains};

use ghc_term::{Expr, ExprView, Store, Term, TermView, VarName, Variables};
use std::alloc::{AllocError, Global};

// How many structures a search goes through as they are written, before it looks at their variables alone.
const MOST_PLAIN: u32 = 4096;

// Adds the leaves of the expression, from left to right. One step for each part of the expression, by a list of the parts that wait.
pub fn push_leaves<'a>(
    alloc: Global,
    expression: &'a Expr,
    terms: &mut Vec<&'a Term>,
) -> Result<(), AllocError>
    ensures { OnOk result (map (λ t. t.now) terms.new.items ≡ map (λ t. t.now) terms.old.items ++ leaves expression.now) }
{
    let mut waiting = Vec::new(alloc);
    waiting.push(expression)?;
    while let Some(part) = waiting.pop() {
        match part.view() {
            ExprView::Leaf(term) => terms.push(term)?,
            ExprView::Operation(_, left, right) => {
                waiting.push(right)?;
                waiting.push(left)?;
            }
        }
    }
    Ok(())
}

// Adds the terms to those that are still to be gone through.
fn push_all<'a>(terms: &'a [Term], waiting: &mut Vec<&'a Term>) -> Result<(), AllocError>
    ensures { OnOk result (map (λ t. t.now) waiting.new.items ≡ map (λ t. t.now) waiting.old.items ++ terms.now) }
{
    for term in terms {
        waiting.push(term)?;
    }
    Ok(())
}

// Takes up a variable: if it was not reached before, its value is still to be gone through.
#[inline(always)]
fn take_up<'a>(
    store: &'a Store,
    x: VarName,
    reached: &mut Variables,
    waiting: &mut Vec<&'a Term>,
) -> Result<(), AllocError>
    ensures { OnOk result (TakesUp (value_at store.now.held) x reached.old reached.new (map (λ t. t.now) waiting.old.items) (map (λ t. t.now) waiting.new.items)) }
{
    if reached.contains(x) {
        return Ok(());
    }
    reached.insert(x)?;
    if let Some(value) = store.get(x) {
        waiting.push(value)?;
    }
    Ok(())
}

// Takes up each of the variables: a look-up or two for each.
fn take_up_all<'a>(
    store: &'a Store,
    names: &[VarName],
    reached: &mut Variables,
    waiting: &mut Vec<&'a Term>,
) -> Result<(), AllocError>
    ensures { OnOk result (TakesUpAll (value_at store.now.held) (λ x. In x names.now) reached.old reached.new (map (λ t. t.now) waiting.old.items) (map (λ t. t.now) waiting.new.items)) }
{
    for name in names {
        take_up(store, *name, reached, waiting)?;
    }
    Ok(())
}

// Takes up each variable that stands in the term.
#[inline(never)]
fn take_up_those_of<'a>(
    alloc: Global,
    store: &'a Store,
    term: &Term,
    reached: &mut Variables,
    waiting: &mut Vec<&'a Term>,
) -> Result<(), AllocError>
    ensures { OnOk result (TakesUpAll (value_at store.now.held) (λ x. Occurs x term.now) reached.old reached.new (map (λ t. t.now) waiting.old.items) (map (λ t. t.now) waiting.new.items)) }
{
    let names = term.variables(alloc)?;
    take_up_all(store, names.members(), reached, waiting)
}

/// All variables that the terms reach in the store. It goes by a loop, once through each term and through the value of each variable,
/// and past what is closed as written. After 4,096 structures it asks each further one for its variables, so that a part that stands in
/// many places costs its variables there. It fails only where memory is refused.
pub fn reached_from<'a>(
    alloc: Global,
    store: &'a Store,
    terms: Vec<&'a Term>,
) -> Result<Variables, AllocError>
    ensures { IfOk result (λ xs. IsSetOf xs (OneReaches (value_at store.now.held) (map (λ t. t.now) terms.entry.items))) }
{
    store.acyclic();
    let mut reached = Variables::new(alloc);
    let mut waiting = terms;
    let mut left = MOST_PLAIN;
    while let Some(term) = waiting.pop() {
        if term.is_closed() {
            continue;
        }
        match term.view() {
            TermView::Var(x) => take_up(store, x, &mut reached, &mut waiting)?,
            TermView::Struct(_, arguments) => {
                if left == 0 {
                    take_up_those_of(alloc, store, term, &mut reached, &mut waiting)?;
                } else {
                    left -= 1;
                    push_all(arguments, &mut waiting)?;
                }
            }
            _ => {}
        }
    }
    Ok(reached)
}

// Adds what the term reaches, where that is seen at once: a closed term reaches nothing, and a variable without a value, or with one
// that is closed, itself alone. It tells whether it was seen.
fn add_leaf(store: &Store, term: &Term, reached: &mut Variables) -> Result<bool, AllocError>
    ensures { IfOk result (λ seen. IsTrue seen → Gains reached.old reached.new (Reaches (value_at store.now.held) term.now)) }
{
    if term.is_closed() {
        return Ok(true);
    }
    let TermView::Var(x) = term.view() else {
        return Ok(false);
    };
    if let Some(value) = store.get(x) {
        if !value.is_closed() {
            return Ok(false);
        }
    }
    reached.insert(x)?;
    Ok(true)
}

// Adds what the terms reach, where that is seen at once of each.
fn add_leaves(store: &Store, terms: &[Term], reached: &mut Variables) -> Result<bool, AllocError>
    ensures { IfOk result (λ seen. IsTrue seen → Gains reached.old reached.new (OneReaches (value_at store.now.held) terms.now)) }
{
    for term in terms {
        if !add_leaf(store, term, reached)? {
            return Ok(false);
        }
    }
    Ok(true)
}

// Adds what the term reaches, where that is seen at once of it or of its arguments.
fn add_shallow(store: &Store, term: &Term, reached: &mut Variables) -> Result<bool, AllocError>
    ensures { IfOk result (λ seen. IsTrue seen → Gains reached.old reached.new (Reaches (value_at store.now.held) term.now)) }
{
    match term.view() {
        TermView::Struct(_, arguments) => add_leaves(store, arguments, reached),
        _ => add_leaf(store, term, reached),
    }
}

// Adds what the two terms reach, where that is seen at once.
fn add_both(
    store: &Store,
    left: &Term,
    right: &Term,
    reached: &mut Variables,
) -> Result<bool, AllocError>
    ensures { IfOk result (λ seen. IsTrue seen → Gains reached.old reached.new (λ x. Reaches (value_at store.now.held) left.now x ⊎ Reaches (value_at store.now.held) right.now x)) }
{
    if !add_shallow(store, left, reached)? {
        return Ok(false);
    }
    add_shallow(store, right, reached)
}

// All variables that the two terms reach in the store.
pub fn reached_by_both(
    alloc: Global,
    store: &Store,
    left: &Term,
    right: &Term,
) -> Result<Variables, AllocError>
    ensures { IfOk result (λ xs. IsSetOf xs (λ x. Reaches (value_at store.now.held) left.now x ⊎ Reaches (value_at store.now.held) right.now x)) }
{
    let mut reached = Variables::new(alloc);
    if add_both(store, left, right, &mut reached)? {
        return Ok(reached);
    }
    let mut terms = Vec::new(alloc);
    terms.push(left)?;
    terms.push(right)?;
    reached_from(alloc, store, terms)
}

// All variables that the term and the expression reach in the store.
pub fn reached_with_leaves(
    alloc: Global,
    store: &Store,
    term: &Term,
    expression: &Expr,
) -> Result<Variables, AllocError>
    ensures { IfOk result (λ xs. IsSetOf xs (λ x. Reaches (value_at store.now.held) term.now x ⊎ ExpressionReaches (value_at store.now.held) expression.now x)) }
{
    let mut terms = Vec::new(alloc);
    terms.push(term)?;
    push_leaves(alloc, expression, &mut terms)?;
    reached_from(alloc, store, terms)
}
