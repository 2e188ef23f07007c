// Unifications of long lists.
use crate::tests::building::{ones, variable};
use ghc_term::{Fault, Store, Term};
use ghc_unify::unify;
use std::alloc::{AllocError, Global};
use std::test::Fail;

// How many variables are bound where the terms are unified and nothing was bound before, if they can be.
fn bound(alloc: Global, left: &Term, right: &Term) -> Option<usize> {
    match unify(alloc, left, right, &Store::new(alloc)) {
        Ok(solved) => Some(solved.binds.len()),
        Err(_) => None,
    }
}

// The same of a long list that ends with 7 and one of its length that ends with the term.
fn bound_at_end(alloc: Global, end: Term) -> Result<Option<usize>, AllocError> {
    let left = ones(alloc, 100_000, Term::integer(7))?;
    let right = ones(alloc, 100_000, end)?;
    Ok(bound(alloc, &left, &right))
}

#[test]
fn long_lists_take_no_stack(rt: HostRuntime) -> Result<(), Fail> {
    assert!(rt; bound_at_end(rt.alloc(), Term::integer(7))? == Some(0));
    assert!(rt; bound_at_end(rt.alloc(), variable(1))? == Some(1));
    assert!(rt; bound_at_end(rt.alloc(), Term::integer(8))?.is_none());
    Ok(())
}
