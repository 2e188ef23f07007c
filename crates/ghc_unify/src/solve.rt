// Unification.
ghost use Rattle.std.specs.Prelude.{◌≡◌, true, false, ◌⊎◌, ◌↔◌, [], ◌∷◌, IfOk, IfErr, OnOk, Err};
ghost use Rattle.std.specs.FinMap as finite;
ghost use Rattle.std.specs.FinSet as set;
ghost use Rattle.ghc_term.specs.Answered.{Answered};
ghost use Rattle.ghc_term.specs.Store.{value_at};
ghost use Rattle.ghc_term.specs.Tree.{Tree};
ghost use Rattle.ghc_term.specs.declared.var_name.VarName.{VarName};
ghost use Rattle.ghc_term.specs.Bindings.{IsAcyclic};
ghost use Rattle.ghc_unify.specs.Unify.{Unifies, UnifyFails, Clashes, Cycles, with_bindings};
ghost use Rattle.ghc_unify.specs.Solutions.{Solves, Equates};

use crate::apart::is_apart;
use crate::step::{Equations, advance};
use ghc_term::{Bindings, Fault, Store, Term, TermView, Variables};
use std::alloc::{AllocError, Global};

/// What a unification binds, as written, and which variables it reads.
#[derive(Drop)]
pub struct Solved {
    pub binds: Bindings,
    pub reads: Variables,
}

// The equation of the two terms, alone.
fn equation(alloc: Global, left: &Term, right: &Term) -> Result<Equations, AllocError>
    ensures { IfOk result (λ equations. equations.items ≡ (left.now, right.now) ∷ []) }
{
    let mut equations = Vec::new(alloc);
    equations.push((left.share()?, right.share()?))?;
    Ok(equations)
}

// Makes the moves on the equation of the two terms, from no bindings and no reads on.
#[inline(never)]
fn make_moves(
    alloc: Global,
    left: &Term,
    right: &Term,
    store: &Store,
    solved: &mut Solved,
) -> Result<(), Fault>
    requires acyclic { IsAcyclic (value_at store.now.held) }
    requires unbound { solved.old.binds ≡ finite.empty }
    requires unread { solved.old.reads ≡ set.empty }
    ensures solved { OnOk result (Unifies (value_at store.now.held) left.now right.now solved.new.binds solved.new.reads) }
    ensures clash { result ≡ Err Fault.Clash → Clashes (value_at store.now.held) left.now right.now }
    ensures cycle { result ≡ Err Fault.Cycle → Cycles (value_at store.now.held) left.now right.now }
    ensures only { IfErr result (λ e. (e ≡ Fault.Clash) ⊎ (e ≡ Fault.Cycle) ⊎ (e ≡ Fault.Memory)) }
{
    let mut equations = equation(alloc, left, right)?;
    while let Some((x, value)) = advance(
        alloc,
        store,
        &solved.binds,
        &mut equations,
        &mut solved.reads,
    )? {
        solved.binds.insert(x, value)?;
    }
    Ok(())
}

// Binds the left side to the right one, where it is an unbound variable that the right side is seen not to reach: the
// only move then, and nothing is read. Else it binds nothing.
fn bind_at_once(
    left: &Term,
    right: &Term,
    store: &Store,
    binds: &mut Bindings,
) -> Result<bool, AllocError>
    requires { binds.old ≡ finite.empty }
    ensures bound { IfOk result (λ done. done ≡ true → Unifies (value_at store.now.held) left.now right.now binds.new set.empty) }
    ensures unbound { IfOk result (λ done. done ≡ false → binds.new ≡ binds.old) }
{
    let TermView::Var(x) = left.view() else {
        return Ok(false);
    };
    if store.get(x).is_some() || !is_apart(store, right, x) {
        return Ok(false);
    }
    binds.insert_near(x, right.share()?)?;
    Ok(true)
}

// Solves the equation of the two terms, from no bindings and no reads on.
fn solve(
    alloc: Global,
    left: &Term,
    right: &Term,
    store: &Store,
    solved: &mut Solved,
) -> Result<(), Fault>
    requires acyclic { IsAcyclic (value_at store.now.held) }
    requires unbound { solved.old.binds ≡ finite.empty }
    requires unread { solved.old.reads ≡ set.empty }
    ensures solved { OnOk result (Unifies (value_at store.now.held) left.now right.now solved.new.binds solved.new.reads) }
    ensures clash { result ≡ Err Fault.Clash → Clashes (value_at store.now.held) left.now right.now }
    ensures cycle { result ≡ Err Fault.Cycle → Cycles (value_at store.now.held) left.now right.now }
    ensures only { IfErr result (λ e. (e ≡ Fault.Clash) ⊎ (e ≡ Fault.Cycle) ⊎ (e ≡ Fault.Memory)) }
{
    if bind_at_once(left, right, store, &mut solved.binds)? {
        return Ok(());
    }
    make_moves(alloc, left, right, store, solved)
}

/// Unifies two terms: gives what is bound beside the store, and which bound variables were read. `Fault::Clash` exactly
/// where the moves come to a clash, `Fault::Cycle` exactly where a variable would come to reach itself. Otherwise it
/// fails only where memory is refused. Nothing is bound in the store.
///
/// It goes by loops along chains and through the terms, once through each pair of parts that is met, so that lists of
/// any length take no stack. Each binding costs a search of the bound term, and that of the first one goes past what the
/// store knows. Between two bindings each equation of two variables is solved once, but for the first 64 equations. A part that
/// stands several times in a term as written is met at each of its places: it ends, but no bound on the time is promised there.
pub fn unify(alloc: Global, left: &Term, right: &Term, store: &Store) -> Result<Solved, Fault>
    ensures answer { Answered (λ s. Unifies (value_at store.now.held) left.now right.now s.binds s.reads) (UnifyFails (value_at store.now.held) left.now right.now) result }

    // The solutions of the store and the equation are those of the store with the bindings; a clash or a cycle has none.
    ensures kept { IfOk result (λ s. (a : VarName → Tree) → (Solves a (value_at store.now.held) × Equates a left.now right.now) ↔ Solves a (with_bindings s.binds (value_at store.now.held))) }
    ensures none { (result ≡ Err Fault.Clash) ⊎ (result ≡ Err Fault.Cycle) → (a : VarName → Tree) → Solves a (value_at store.now.held) → ¬ Equates a left.now right.now }
{
    store.acyclic();
    let mut solved = Solved {
        binds: Bindings::new(alloc),
        reads: Variables::new(alloc),
    };
    solve(alloc, left, right, store, &mut solved)?;
    Ok(solved)
}
