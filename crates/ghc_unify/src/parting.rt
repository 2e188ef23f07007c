// Where two chains come together.
ghost use Rattle.std.specs.Prelude.{◌↔◌, List, IfOk, IsTrue};
ghost use Rattle.ghc_term.specs.Bindings.{IsAcyclic, Leads};
ghost use Rattle.ghc_term.specs.Store.{value_at};
ghost use Rattle.ghc_unify.specs.inner.Parting.{EndAlike, Parts};
ghost use Rattle.ghc_unify.specs.Unify.{with_bindings};

use ghc_term::{Bindings, Chain, Overlay, Store, Term, VarName};
use std::alloc::{AllocError, Global};

// The chains of two terms, up to where they come together, and whether they do.
pub struct Sides<'a> {
    pub left: Chain<'a>,
    pub right: Chain<'a>,
    pub shared: bool,
}

impl Drop for Sides<'_> {
    fn drop(self) {
        let Sides {
            left: _left,
            right: _right,
            shared: _,
        } = self;
    }
}

// Whether both lists have the same last variable.
fn end_alike(left: &[VarName], right: &[VarName]) -> bool
    ensures { IsTrue result ↔ EndAlike left.now right.now }
{
    match (left.last(), right.last()) {
        (Some(x), Some(y)) => x == y,
        _ => false,
    }
}

// Takes off both chains what they have in common, which is their end, and tells whether there was any. One step for
// each variable taken off.
fn strip_common_tail(left: &mut Vec<VarName>, right: &mut Vec<VarName>) -> bool
    ensures { Parts left.old.items right.old.items left.new.items right.new.items result }
{
    let mut shared = false;
    while end_alike(left, right) {
        let _x = left.pop();
        let _y = right.pop();
        shared = true;
    }
    shared
}

// The chains of both terms, less what they have in common. One look-up for each variable.
pub fn both_chains<'a>(
    alloc: Global,
    store: &'a Store,
    binds: &'a Bindings,
    left: &'a Term,
    right: &'a Term,
) -> Result<Sides<'a>, AllocError>
    requires { IsAcyclic (with_bindings binds.now (value_at store.now.held)) }
    ensures { IfOk result (λ sides. (xs ys : List VarName)
        × Leads (with_bindings binds.now (value_at store.now.held)) left.now xs sides.left.end.now
        × Leads (with_bindings binds.now (value_at store.now.held)) right.now ys sides.right.end.now
        × Parts xs ys sides.left.passed.items sides.right.passed.items sides.shared) }
{
    let overlay = Overlay { store, binds };
    let mut from_left = overlay.chain(alloc, left)?;
    let mut from_right = overlay.chain(alloc, right)?;
    let shared = strip_common_tail(&mut from_left.passed, &mut from_right.passed);
    Ok(Sides {
        left: from_left,
        right: from_right,
        shared,
    })
}
