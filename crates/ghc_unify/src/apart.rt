// Terms that are seen at a glance not to reach a variable.
ghost use Rattle.std.specs.Prelude.{IsTrue};
ghost use Rattle.ghc_term.specs.Bindings.{Reaches};
ghost use Rattle.ghc_term.specs.Store.{value_at};

use ghc_term::{Store, Term, TermView, VarName};

// Whether the term is closed, or another variable that is unbound or has a closed value: one look-up at most.
#[inline(always)]
fn is_leaf_apart(store: &Store, term: &Term, x: VarName) -> bool
    ensures { IsTrue result → ¬ Reaches (value_at store.now.held) term.now x }
{
    if term.is_closed() {
        return true;
    }
    let TermView::Var(y) = term.view() else {
        return false;
    };
    if y == x {
        return false;
    }
    match store.get(y) {
        Some(value) => value.is_closed(),
        None => true,
    }
}

// Whether the term is such a leaf, or a structure of such leaves: one look-up an argument at most. Where it is neither, it
// may still be that it does not reach the variable.
pub fn is_apart(store: &Store, term: &Term, x: VarName) -> bool
    ensures { IsTrue result → ¬ Reaches (value_at store.now.held) term.now x }
{
    if term.is_closed() {
        return true;
    }
    let TermView::Struct(_, arguments) = term.view() else {
        return is_leaf_apart(store, term, x);
    };
    for argument in arguments {
        if !is_leaf_apart(store, argument, x) {
            return false;
        }
    }
    true
}
