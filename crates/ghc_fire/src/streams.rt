// What a step of a stream goal would do: an input, or the close.
ghost use Rattle.std.specs.Prelude.{◌≡◌, IfOk, IfSome, IfNone};
ghost use Rattle.std.specs.FinMap as finite;
ghost use Rattle.ghc_term.specs.Store.{value_at};
ghost use Rattle.ghc_term.specs.Tree.{variable, cons};
ghost use Rattle.ghc_fire.specs.Effect.{Feeds, Closes};
ghost use Rattle.ghc_fire.specs.inner.Tail.{IsOpenAt, IsTailBound};

use crate::effect::Effect;
use crate::made::Made;
use ghc_term::{Bindings, Goal, Ground, Name, Store, Term, TermView, VarName, Variables};
use std::alloc::{AllocError, Global};

// The unbound variable at which the chain of the tail ends, with those that stand before it; none where the chain ends in
// a value. One look-up for each variable of the chain.
fn open_end(
    alloc: Global,
    store: &Store,
    tail: VarName,
) -> Result<Option<(VarName, Variables)>, AllocError>
    ensures open { IfOk result (λ found. IfSome found (λ p. IsOpenAt tail (value_at store.now.held) p.0 p.1)) }
    ensures bound { IfOk result (λ found. IfNone found (IsTailBound tail (value_at store.now.held))) }
{
    store.acyclic();
    let mut before = Variables::new(alloc);
    let mut end = tail;
    while let Some(value) = store.get(end) {
        match value.view() {
            TermView::Var(next) => {
                before.insert(end)?;
                end = next;
            }
            _ => return Ok(None),
        }
    }
    Ok(Some((end, before)))
}

/// The effect of an input of the stream of this number as this step: the end of the stream's tail is bound to a list cell of
/// the input and a fresh tail, with which the stream goes on. None exactly where the chain of the tail ends in a value; it
/// fails only where memory is refused. It costs a look-up for each variable of the chain.
pub fn feed(
    alloc: Global,
    store: &Store,
    stream: u32,
    tail: VarName,
    input: &Ground,
    step: u32,
) -> Result<Option<Effect>, AllocError>
    ensures fed { IfOk result (λ found. IfSome found (Feeds stream tail input.now step (value_at store.now.held))) }
    ensures bound { IfOk result (λ found. IfNone found (IsTailBound tail (value_at store.now.held))) }
{
    let Some((end, before)) = open_end(alloc, store, tail)? else {
        return Ok(None);
    };
    let goes_on = VarName { step, place: 1 };
    let binds = bind_to_cell(alloc, end, input.as_term(), goes_on)?;
    let makes = Made::one(alloc, Goal::stream(stream, goes_on), 1)?;
    Ok(Some(Effect::new(before, binds, makes)))
}

// The binding of the variable to the list cell of a term and a tail.
#[inline(always)]
fn bind_to_cell(
    alloc: Global,
    x: VarName,
    element: &Term,
    tail: VarName,
) -> Result<Bindings, AllocError>
    ensures { IfOk result (λ binds. binds ≡ finite.insert finite.empty x (cons element.now (variable tail))) }
{
    let element = element.share()?;
    let name = Name::new(alloc, ".")?;
    bind_to(
        alloc,
        x,
        Term::pair(alloc, name, element, Term::variable(tail))?,
    )
}

// The binding of the variable to the term.
#[inline(always)]
fn bind_to(alloc: Global, x: VarName, value: Term) -> Result<Bindings, AllocError>
    ensures { IfOk result (λ binds. binds ≡ finite.insert finite.empty x value) }
{
    let mut binds = Bindings::new(alloc);
    binds.insert(x, value)?;
    Ok(binds)
}

/// The effect of the close of a stream: the end of its tail is bound to `[]`. None exactly where the chain of the tail ends
/// in a value; it fails only where memory is refused. It costs a look-up for each variable of the chain.
pub fn close(alloc: Global, store: &Store, tail: VarName) -> Result<Option<Effect>, AllocError>
    ensures closed { IfOk result (λ found. IfSome found (Closes tail (value_at store.now.held))) }
    ensures bound { IfOk result (λ found. IfNone found (IsTailBound tail (value_at store.now.held))) }
{
    let Some((end, before)) = open_end(alloc, store, tail)? else {
        return Ok(None);
    };
    let binds = bind_to(alloc, end, Term::atom(Name::new(alloc, "[]")?))?;
    Ok(Some(Effect::new(before, binds, Made::none(0))))
}
