// The values of expressions in a store.
ghost use Rattle.std.specs.Prelude.{IfOk};
ghost use Rattle.ghc_term.specs.Store.{value_at};
ghost use Rattle.ghc_term.specs.Sets.{IsSetOf};
ghost use Rattle.ghc_match.specs.Position.{EndsIn};
ghost use Rattle.ghc_match.specs.Value.{Wants, HasValue};
ghost use Rattle.ghc_match.specs.inner.Told.{value_of};

use crate::leaves::push_leaves;
use crate::number::integer_of;
use crate::scope::{End, Scope, end_of};
use crate::value::Value;
use ghc_term::{Expr, Store, VarName, Variables};
use std::alloc::{AllocError, Global};

// The unbound variables at which the variables end. One look-up for each variable passed.
fn unbound_ends(alloc: Global, store: &Store, names: &[VarName]) -> Result<Variables, AllocError>
    ensures { IfOk result (λ xs. IsSetOf xs (Wants (EndsIn (value_at store.now.held)) names.now)) }
{
    let mut wanted = Variables::new(alloc);
    for name in names {
        if let End::Unbound(x) = end_of(store, Scope::Goal, *name) {
            wanted.insert(x)?;
        }
    }
    Ok(wanted)
}

/// The value of the expression: it waits for the unbound variables at which its variables end, if there are any;
/// else it is an integer, or there is none. One step for each part of the expression and one look-up for each variable
/// passed, by loops.
pub fn evaluate(alloc: Global, expression: &Expr, store: &Store) -> Result<Value, AllocError>
    ensures { IfOk result (λ v. HasValue (value_at store.now.held) expression.now (value_of v)) }
{
    let mut names = Vec::new(alloc);
    push_leaves(alloc, expression, &mut names)?;
    let wanted = unbound_ends(alloc, store, &names)?;
    if wanted.len() > 0 {
        return Ok(Value::Waits(wanted));
    }
    match integer_of(alloc, store, Scope::Goal, expression)? {
        Some(integer) => Ok(Value::Number(integer)),
        None => Ok(Value::Bad),
    }
}
