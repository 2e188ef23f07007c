// The moves on a list of equations up to the next binding.
ghost use Rattle.std.specs.Prelude.{◌≡◌, true, ◌⊎◌, IfOk, IfErr, OnOk, Err, List, [], length, reverse, ◌++◌};
ghost use Rattle.ghc_term.specs.Store.{value_at};
ghost use Rattle.ghc_term.specs.Tree.{Tree, trees, IsValue};
ghost use Rattle.ghc_term.specs.Bindings.{IsAcyclic, Leads, Reaches};
ghost use Rattle.ghc_unify.specs.Unify.{Pairs, Meets, IsClash, IsCycle, with_bindings};
ghost use Rattle.ghc_unify.specs.inner.Met.{IsNoted, IsPairOf};
ghost use Rattle.ghc_unify.specs.inner.Parting.{Parts};
ghost use Rattle.ghc_unify.specs.inner.Steps.{Steps, Advances, FailsFrom};

use crate::chains::add_bound_reads;
use crate::parting::{Sides, both_chains};
use ghc_term::{Bindings, Fault, Overlay, Store, Term, TermView, VarName, Variables};
use indexmap::IndexSet;
use std::alloc::{AllocError, Global};

// A variable and what it is to be bound to.
pub type Binding = (VarName, Term);

// Equations, of which the last one comes first.
pub type Equations = Vec<(Term, Term)>;

// Equations of two variables that were met, as written.
type Met = IndexSet<(VarName, VarName)>;

// Adds the equations of the arguments, those of the first ones to come first. One step an argument, whatever its size.
fn push_pairs(lefts: &[Term], rights: &[Term], equations: &mut Equations) -> Result<(), AllocError>
    requires { length lefts.now ≡ length rights.now }
    ensures { OnOk result ((new : List (Tree × Tree)) × Pairs (trees lefts.now) (trees rights.now) new × (reverse equations.new.items ≡ new ++ reverse equations.old.items)) }
{
    for index in (0..lefts.len()).rev() {
        equations.push((lefts[index].share()?, rights[index].share()?))?;
    }
    Ok(())
}

// Replaces the equation of two values by those of their arguments, or refuses it as a clash.
fn meet(left: &Term, right: &Term, equations: &mut Equations) -> Result<(), Fault>
    requires left { IsValue left.now }
    requires right { IsValue right.now }
    ensures ok { OnOk result ((new : List (Tree × Tree)) × Meets left.now right.now new × (reverse equations.new.items ≡ new ++ reverse equations.old.items)) }
    ensures clash { result ≡ Err Fault.Clash → (new : List (Tree × Tree)) → ¬ Meets left.now right.now new }
    ensures only { IfErr result (λ e. (e ≡ Fault.Clash) ⊎ (e ≡ Fault.Memory)) }
{
    match (left.view(), right.view()) {
        (TermView::Int(i), TermView::Int(k)) => {
            if i != k {
                return Err(Fault::Clash);
            }
        }
        (TermView::Atom(f), TermView::Atom(g)) => {
            if f != g {
                return Err(Fault::Clash);
            }
        }
        (TermView::Struct(f, lefts), TermView::Struct(g, rights)) => {
            if f != g || lefts.len() != rights.len() {
                return Err(Fault::Clash);
            }
            push_pairs(lefts, rights, equations)?;
        }
        _ => return Err(Fault::Clash),
    }
    Ok(())
}

// The binding of a variable to a term, or the refusal of one that would close a cycle.
fn binding(
    alloc: Global,
    store: &Store,
    binds: &Bindings,
    x: VarName,
    term: &Term,
) -> Result<Binding, Fault>
    requires { IsAcyclic (with_bindings binds.now (value_at store.now.held)) }
    ensures ok { IfOk result (λ b. b ≡ (x, term.now)) }
    ensures open { OnOk result (¬ Reaches (with_bindings binds.now (value_at store.now.held)) term.now x) }
    ensures cycle { result ≡ Err Fault.Cycle → Reaches (with_bindings binds.now (value_at store.now.held)) term.now x }
    ensures only { IfErr result (λ e. (e ≡ Fault.Cycle) ⊎ (e ≡ Fault.Memory)) }
{
    let overlay = Overlay { store, binds };
    if overlay.reaches(alloc, term, x)? {
        return Err(Fault::Cycle);
    }
    let value = term.share()?;
    Ok((x, value))
}

// The move on one equation; the equations are those that come after it.
fn step<'a>(
    alloc: Global,
    store: &'a Store,
    binds: &'a Bindings,
    left: &'a Term,
    right: &'a Term,
    equations: &mut Equations,
    reads: &mut Variables,
) -> Result<Option<Binding>, Fault>
    requires { IsAcyclic (with_bindings binds.now (value_at store.now.held)) }
    ensures ok { IfOk result (Steps (value_at store.now.held) (with_bindings binds.now (value_at store.now.held)) left.now right.now equations.old.items equations.new.items reads.old reads.new) }
    ensures clash { result ≡ Err Fault.Clash → IsClash (with_bindings binds.now (value_at store.now.held)) left.now right.now }
    ensures cycle { result ≡ Err Fault.Cycle → IsCycle (with_bindings binds.now (value_at store.now.held)) left.now right.now }
    ensures only { IfErr result (λ e. (e ≡ Fault.Clash) ⊎ (e ≡ Fault.Cycle) ⊎ (e ≡ Fault.Memory)) }
{
    let sides = both_chains(alloc, store, binds, left, right)?;
    step_between(alloc, store, binds, left, right, &sides, equations, reads)
}

// The same, where these are the chains of both sides.
#[inline(always)]
fn step_between(
    alloc: Global,
    store: &Store,
    binds: &Bindings,
    left: &Term,
    right: &Term,
    sides: &Sides<'_>,
    equations: &mut Equations,
    reads: &mut Variables,
) -> Result<Option<Binding>, Fault>
    requires acyclic { IsAcyclic (with_bindings binds.now (value_at store.now.held)) }
    requires sides { (xs ys : List VarName)
        × Leads (with_bindings binds.now (value_at store.now.held)) left.now xs sides.now.left.end.now
        × Leads (with_bindings binds.now (value_at store.now.held)) right.now ys sides.now.right.end.now
        × Parts xs ys sides.now.left.passed.items sides.now.right.passed.items sides.now.shared }
    ensures ok { IfOk result (Steps (value_at store.now.held) (with_bindings binds.now (value_at store.now.held)) left.now right.now equations.old.items equations.new.items reads.old reads.new) }
    ensures clash { result ≡ Err Fault.Clash → IsClash (with_bindings binds.now (value_at store.now.held)) left.now right.now }
    ensures cycle { result ≡ Err Fault.Cycle → IsCycle (with_bindings binds.now (value_at store.now.held)) left.now right.now }
    ensures only { IfErr result (λ e. (e ≡ Fault.Clash) ⊎ (e ≡ Fault.Cycle) ⊎ (e ≡ Fault.Memory)) }
{
    add_bound_reads(store, &sides.left.passed, reads)?;
    if sides.shared {
        add_bound_reads(store, &sides.right.passed, reads)?;
        return Ok(None);
    }
    if let TermView::Var(x) = sides.left.end.view() {
        return Ok(Some(binding(alloc, store, binds, x, right)?));
    }
    add_bound_reads(store, &sides.right.passed, reads)?;
    if let TermView::Var(y) = sides.right.end.view() {
        return Ok(Some(binding(alloc, store, binds, y, left)?));
    }
    meet(sides.left.end, sides.right.end, equations)?;
    Ok(None)
}

// Whether both sides are variables that were met as a pair. Notes a pair that is new. One look-up.
#[inline(never)]
fn are_met_again(left: &Term, right: &Term, met: &mut Met) -> Result<bool, AllocError>
    ensures noted { OnOk result (IsNoted left.now right.now met.old.keys met.new.keys) }
    ensures again { IfOk result (λ again. again ≡ true → IsPairOf left.now right.now met.old.keys) }
{
    let TermView::Var(x) = left.view() else {
        return Ok(false);
    };
    let TermView::Var(y) = right.view() else {
        return Ok(false);
    };
    let is_new = met.insert((x, y))?;
    Ok(!is_new)
}

// The same, but neither looks nor notes as long as the equations are few.
#[inline(always)]
fn are_solved(left: &Term, right: &Term, few: &mut u32, met: &mut Met) -> Result<bool, AllocError>
    ensures noted { OnOk result (IsNoted left.now right.now met.old.keys met.new.keys) }
    ensures again { IfOk result (λ again. again ≡ true → IsPairOf left.now right.now met.old.keys) }
{
    if *few > 0 {
        *few -= 1;
        return Ok(false);
    }
    are_met_again(left, right, met)
}

// Makes the moves up to the next binding, which it gives, or up to the last equation. After the first few it drops an equation
// of two variables that it met before: that one is solved by now, and to solve it again binds nothing and reads nothing new.
// So terms that share parts through variables cost a look-up for each pair of variables, not a move for each path to it.
pub fn advance(
    alloc: Global,
    store: &Store,
    binds: &Bindings,
    equations: &mut Equations,
    reads: &mut Variables,
) -> Result<Option<Binding>, Fault>
    requires { IsAcyclic (with_bindings binds.now (value_at store.now.held)) }
    ensures ok { IfOk result (Advances (value_at store.now.held) (with_bindings binds.now (value_at store.now.held)) equations.old.items equations.new.items reads.old reads.new) }
    ensures clash { result ≡ Err Fault.Clash → FailsFrom IsClash (value_at store.now.held) (with_bindings binds.now (value_at store.now.held)) (reverse equations.old.items) }
    ensures cycle { result ≡ Err Fault.Cycle → FailsFrom IsCycle (value_at store.now.held) (with_bindings binds.now (value_at store.now.held)) (reverse equations.old.items) }
    ensures only { IfErr result (λ e. (e ≡ Fault.Clash) ⊎ (e ≡ Fault.Cycle) ⊎ (e ≡ Fault.Memory)) }
{
    let mut met = IndexSet::new(alloc);
    advance_noting(alloc, store, binds, equations, reads, &mut met)
}

// The same, where no equation of two variables was met.
#[inline(always)]
fn advance_noting(
    alloc: Global,
    store: &Store,
    binds: &Bindings,
    equations: &mut Equations,
    reads: &mut Variables,
    met: &mut Met,
) -> Result<Option<Binding>, Fault>
    requires acyclic { IsAcyclic (with_bindings binds.now (value_at store.now.held)) }
    requires none { met.old.keys ≡ [] }
    ensures ok { IfOk result (Advances (value_at store.now.held) (with_bindings binds.now (value_at store.now.held)) equations.old.items equations.new.items reads.old reads.new) }
    ensures clash { result ≡ Err Fault.Clash → FailsFrom IsClash (value_at store.now.held) (with_bindings binds.now (value_at store.now.held)) (reverse equations.old.items) }
    ensures cycle { result ≡ Err Fault.Cycle → FailsFrom IsCycle (value_at store.now.held) (with_bindings binds.now (value_at store.now.held)) (reverse equations.old.items) }
    ensures only { IfErr result (λ e. (e ≡ Fault.Clash) ⊎ (e ≡ Fault.Cycle) ⊎ (e ≡ Fault.Memory)) }
{
    let mut few = 64;
    while let Some((left, right)) = equations.pop() {
        if are_solved(&left, &right, &mut few, met)? {
            continue;
        }
        if let Some(binding) = step(alloc, store, binds, &left, &right, equations, reads)? {
            return Ok(Some(binding));
        }
    }
    Ok(None)
}
