// What is read in computing the value of an expression.
ghost use Rattle.std.specs.Prelude.{OnOk};
ghost use Rattle.ghc_term.specs.Lists.{In};
ghost use Rattle.ghc_term.specs.Expression.{leaf};
ghost use Rattle.ghc_term.specs.Store.{value_at};
ghost use Rattle.ghc_match.specs.inner.Meeting.{Gains};
ghost use Rattle.ghc_fire.specs.Effect.{IsOnChainsOf};

use ghc_term::{Expr, ExprView, Store, Term, VarName, Variables};
use std::alloc::{AllocError, Global};

// Adds the variables.
fn add_all(names: &[VarName], reads: &mut Variables) -> Result<(), AllocError>
    ensures { OnOk result (Gains reads.old reads.new (λ x. In x names.now)) }
{
    for name in names {
        reads.insert(*name)?;
    }
    Ok(())
}

// Adds the variables on the chain of the leaf. One look-up for each of them.
fn add_chain(
    alloc: Global,
    store: &Store,
    term: &Term,
    reads: &mut Variables,
) -> Result<(), AllocError>
    ensures { OnOk result (Gains reads.old reads.new (IsOnChainsOf (value_at store.now.held) (leaf term.now))) }
{
    let passed = store.chain(alloc, term)?;
    add_all(&passed, reads)
}

// Adds the variables on the chains of the expression's variables. One step for each part of the expression and one
// look-up for each variable passed, by loops.
pub fn add_chains(
    alloc: Global,
    store: &Store,
    expression: &Expr,
    reads: &mut Variables,
) -> Result<(), AllocError>
    ensures { OnOk result (Gains reads.old reads.new (IsOnChainsOf (value_at store.now.held) expression.now)) }
{
    let mut waiting = Vec::new(alloc);
    waiting.push(expression)?;
    while let Some(part) = waiting.pop() {
        match part.view() {
            ExprView::Leaf(term) => {
                add_chain(alloc, store, term, reads)?;
            }
            ExprView::Operation(_, left, right) => {
                waiting.push(right)?;
                waiting.push(left)?;
            }
        }
    }
    Ok(())
}
