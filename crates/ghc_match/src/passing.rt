// Chains that are followed for what they pass.
ghost use Rattle.std.specs.Prelude.{IfOk, OnOk};
ghost use Rattle.ghc_term.specs.Store.{value_at};
ghost use Rattle.ghc_term.specs.Bindings.{Passes};
ghost use Rattle.ghc_match.specs.inner.Ends.{ChainEnds};
ghost use Rattle.ghc_match.specs.inner.Meeting.{Gains};

use ghc_term::{Store, Term, TermView, Variables};
use std::alloc::AllocError;

// The end of the term's chain, whose variables are added to those looked at. One look-up for each of them.
#[inline(always)]
pub fn follow_noting<'a>(
    store: &'a Store,
    term: &'a Term,
    looked: &mut Variables,
) -> Result<&'a Term, AllocError>
    ensures end { IfOk result (λ end. ChainEnds (value_at store.now.held) term.now end.now) }
    ensures looked { OnOk result (Gains looked.old looked.new (Passes (value_at store.now.held) term.now)) }
{
    store.acyclic();
    let mut place = term;
    loop {
        match place.view() {
            TermView::Var(x) => {
                looked.insert(x)?;
                match store.get(x) {
                    Some(value) => place = value,
                    None => return Ok(place),
                }
            }
            _ => return Ok(place),
        }
    }
}
