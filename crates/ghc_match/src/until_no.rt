// What a clause says to a call, as far as a step asks: up to the first no.
ghost use Rattle.std.specs.Prelude.{◌≡◌, ◌↔◌, false, Some, IfOk, OnOk, IsTrue};
ghost use Rattle.ghc_term.specs.declared.var_name.VarName.{VarName};
ghost use Rattle.ghc_term.specs.Sets.{IsSetOf};
ghost use Rattle.ghc_term.specs.Store.{value_at};
ghost use Rattle.ghc_term.specs.Tree.{Tree};
ghost use Rattle.ghc_flat.specs.Flat.{IsLinear};
ghost use Rattle.ghc_match.specs.Match.{StandsFor, Mismatch, HeadWants};
ghost use Rattle.ghc_match.specs.inner.Ends.{StandsAndEnds};
ghost use Rattle.ghc_match.specs.inner.Meeting.{Gains, HeadLooksAt};
ghost use Rattle.ghc_match.specs.inner.Guarding.{OneSaysNo, OneWants, GuardLooksAt};
ghost use Rattle.ghc_match.specs.inner.Told.{HasShownNothing, IsAnswer};

use crate::guard::{Says, try_test};
use crate::head::{Met, visit};
use crate::places::{Places, go_below, next_pair};
use crate::stands::Stands;
use ghc_flat::{Clause, Test};
use ghc_term::{Store, Term, Variables};
use std::alloc::{AllocError, Global};

// What the positions of the clause's head show, up to the first one that clashes; where none does, it goes once to each of them. Places
// wait in `pending`, which is emptied first.
#[inline(always)]
fn match_until_clash<'a>(
    clause: &'a Clause,
    arguments: &'a [Term],
    store: &'a Store,
    met: &mut Met<'a>,
    pending: &mut Vec<Places<'a>>,
) -> Result<(), AllocError>
    requires linear { IsLinear clause.now }
    requires nothing { HasShownNothing met.old }
    ensures clashes { OnOk result (IsTrue met.new.clashes ↔ Mismatch clause.now arguments.now (value_at store.now.held)) }
    ensures stands { OnOk result (met.new.clashes ≡ false → (y : VarName) (t : Tree) → (value_at met.new.stands y ≡ Some t) ↔ StandsFor clause.now arguments.now (value_at store.now.held) y t) }
    ensures wanted { OnOk result (met.new.clashes ≡ false → IsSetOf met.new.wanted (HeadWants clause.now arguments.now (value_at store.now.held))) }
    ensures looked { OnOk result (met.new.clashes ≡ false → IsSetOf met.new.looked (HeadLooksAt clause.now arguments.now (value_at store.now.held))) }
{
    pending.clear();
    let mut here = Places::all(clause.head(), arguments);
    while let Some((head, term)) = next_pair(&mut here, pending) {
        let below = visit(store, head, term, met)?;
        if met.clashes {
            return Ok(());
        }
        go_below(below, &mut here, pending)?;
    }
    Ok(())
}

// Whether one of the tests of a guard says no: they are asked up to the first that does, and what they wait for is wanted.
fn try_until_no(
    alloc: Global,
    store: &Store,
    stands: &Stands<'_>,
    tests: &[Test],
    wanted: &mut Variables,
    looked: &mut Variables,
) -> Result<bool, AllocError>
    ensures no { IfOk result (OneSaysNo (StandsAndEnds stands.now (value_at store.now.held)) tests.now) }
    ensures wanted { IfOk result (λ says_no. says_no ≡ false → Gains wanted.old wanted.new (OneWants (StandsAndEnds stands.now (value_at store.now.held)) tests.now)) }
    ensures looked { IfOk result (λ says_no. says_no ≡ false → Gains looked.old looked.new (GuardLooksAt stands.now (value_at store.now.held) tests.now)) }
{
    for test in tests {
        if let Says::No = try_test(alloc, store, stands, test, wanted, looked)? {
            return Ok(true);
        }
    }
    Ok(false)
}

/// Lays the clause over a call with these arguments for a step, which uses nothing of a clause that does not accept. It says what
/// `lay_clause` does, and ends at the first position that clashes and at the first test that says no: it costs as much at most.
/// A clause of a program is linear. Places of the head wait in `pending`: what it holds before and after is nothing to anybody, and who
/// lends it from clause to clause takes memory for it once.
#[inline(always)]
pub fn lay_until_no<'a>(
    alloc: Global,
    clause: &'a Clause,
    arguments: &'a [Term],
    store: &'a Store,
    met: &mut Met<'a>,
    pending: &mut Vec<Places<'a>>,
) -> Result<Says, AllocError>
    requires linear { IsLinear clause.now }
    requires nothing { HasShownNothing met.old }
    ensures { IfOk result (λ says. IsAnswer clause.now arguments.now (value_at store.now.held) says met.new) }
{
    match_until_clash(clause, arguments, store, met, pending)?;
    if met.clashes {
        return Ok(Says::No);
    }
    if met.wanted.len() > 0 {
        return Ok(Says::Waits);
    }
    let says_no = try_until_no(
        alloc,
        store,
        &met.stands,
        clause.tests(),
        &mut met.wanted,
        &mut met.looked,
    )?;
    if says_no {
        return Ok(Says::No);
    }
    if met.wanted.len() == 0 {
        return Ok(Says::Yes);
    }
    Ok(Says::Waits)
}
