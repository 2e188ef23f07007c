// Whether a test of a guard holds, and whether it has values to compare.
ghost use Rattle.std.specs.Prelude.{◌↔◌, IfOk, IsTrue};
ghost use Rattle.ghc_term.specs.Store.{value_at};
ghost use Rattle.ghc_match.specs.Match.{HoldsBy};
ghost use Rattle.ghc_match.specs.Refusal.{HasValuesBy};
ghost use Rattle.ghc_match.specs.inner.Ends.{StandsAndEnds};
ghost use Rattle.ghc_match.specs.inner.Guarding.{TellsValue};

use crate::alike::{is_atom, is_integer, is_list};
use crate::arithmetic::compares;
use crate::number::integer_of;
use crate::scope::{End, Scope, end_of};
use crate::stands::Stands;
use ghc_flat::Test;
use ghc_term::{Comparison, Expr, Store, Term, VarName};
use std::alloc::{AllocError, Global};

// The value in which the variable ends, if it ends in one.
fn value_of<'a>(store: &'a Store, stands: &'a Stands<'a>, x: VarName) -> Option<&'a Term>
    ensures { TellsValue (StandsAndEnds stands.now (value_at store.now.held) x) result }
{
    match end_of(store, Scope::Head(stands), x) {
        End::Value(value) => Some(value),
        _ => None,
    }
}

// Whether both expressions are integers between which the comparison holds.
fn holds_between(
    alloc: Global,
    store: &Store,
    stands: &Stands<'_>,
    comparison: Comparison,
    left: &Expr,
    right: &Expr,
) -> Result<bool, AllocError>
    ensures { IfOk result (λ yes. IsTrue yes ↔ HoldsBy (StandsAndEnds stands.now (value_at store.now.held)) (Test.Compare comparison left.now right.now)) }
{
    let scope = Scope::Head(stands);
    let Some(x) = integer_of(alloc, store, scope, left)? else {
        return Ok(false);
    };
    let Some(y) = integer_of(alloc, store, scope, right)? else {
        return Ok(false);
    };
    Ok(compares(comparison, x, y))
}

// Whether the test holds of what its variables end in: it does not where one of them ends in no value.
pub fn holds(
    alloc: Global,
    store: &Store,
    stands: &Stands<'_>,
    test: &Test,
) -> Result<bool, AllocError>
    ensures { IfOk result (λ yes. IsTrue yes ↔ HoldsBy (StandsAndEnds stands.now (value_at store.now.held)) test.now) }
{
    match test {
        Test::Wait(x) => Ok(value_of(store, stands, *x).is_some()),
        Test::IsInteger(x) => match value_of(store, stands, *x) {
            Some(value) => Ok(is_integer(value)),
            None => Ok(false),
        },
        Test::IsAtom(x) => match value_of(store, stands, *x) {
            Some(value) => Ok(is_atom(value)),
            None => Ok(false),
        },
        Test::IsList(x) => match value_of(store, stands, *x) {
            Some(value) => Ok(is_list(value)),
            None => Ok(false),
        },
        Test::Compare(comparison, left, right) => {
            holds_between(alloc, store, stands, *comparison, left, right)
        }
    }
}

// Whether each side of the test has a value, if it compares.
pub fn has_values(
    alloc: Global,
    store: &Store,
    stands: &Stands<'_>,
    test: &Test,
) -> Result<bool, AllocError>
    ensures { IfOk result (λ yes. IsTrue yes ↔ HasValuesBy (StandsAndEnds stands.now (value_at store.now.held)) test.now) }
{
    let Test::Compare(_, left, right) = test else {
        return Ok(true);
    };
    let scope = Scope::Head(stands);
    if integer_of(alloc, store, scope, left)?.is_none() {
        return Ok(false);
    }
    Ok(integer_of(alloc, store, scope, right)?.is_some())
}
