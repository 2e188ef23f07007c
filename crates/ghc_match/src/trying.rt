// What a clause says to a call.
ghost use Rattle.std.specs.Prelude.{IfOk, OnOk};
ghost use Rattle.ghc_term.specs.Store.{value_at};
ghost use Rattle.ghc_term.specs.Sets.{IsSetOf};
ghost use Rattle.ghc_flat.specs.Flat.{IsLinear};
ghost use Rattle.ghc_match.specs.Match.{LooksAt, HasOutcome};
ghost use Rattle.ghc_match.specs.inner.Meeting.{Gains};
ghost use Rattle.ghc_match.specs.inner.Guarding.{GuardLooksAt};
ghost use Rattle.ghc_match.specs.inner.Told.{HasShownNothing, outcome_of, outcome_laid};

use crate::guard::{Says, try_guard};
use crate::head::{Met, match_head};
use crate::stands::Stands;
use ghc_flat::{Clause, Test};
use ghc_term::{Bindings, Store, Term, Variables};
use std::alloc::{AllocError, Global};

/// What a clause says to a call.
#[derive(Drop)]
pub enum Outcome {
    /// It refuses the call: its head clashes with it, or a test of its guard says no.
    Refuses,
    /// It waits for these unbound variables, of which there is one at least.
    Waits(Variables),
    /// It accepts the call, and its head variables stand for these terms, as written. What it looked at is what it read.
    Accepts(Bindings),
}

/// An outcome, and the variables that were looked at for it: it is the same in each store that agrees on them.
#[derive(Drop)]
pub struct Tried {
    pub outcome: Outcome,
    pub looked: Variables,
}

// Looks at what the tests of a guard look at, where the head has decided what the clause says.
#[inline(never)]
fn look_on(
    alloc: Global,
    store: &Store,
    stands: &Stands<'_>,
    tests: &[Test],
    looked: &mut Variables,
) -> Result<(), AllocError>
    ensures { OnOk result (Gains looked.old looked.new (GuardLooksAt stands.now (value_at store.now.held) tests.now)) }
{
    let mut wanted = Variables::new(alloc);
    try_guard(alloc, store, stands, tests, &mut wanted, looked)?;
    Ok(())
}

/// Lays the clause over a call with these arguments, and says whether it accepts it, refuses it or waits for the variables that
/// are wanted then. What its head variables stand for is lent. It goes once to each position of the head and asks each test
/// once, by loops; a position costs the chain of the goal's term there, and a test the chains of what its variables stand for.
/// A clause of a program is linear.
pub fn lay_clause<'a>(
    alloc: Global,
    clause: &'a Clause,
    arguments: &'a [Term],
    store: &'a Store,
    met: &mut Met<'a>,
) -> Result<Says, AllocError>
    requires linear { IsLinear clause.now }
    requires nothing { HasShownNothing met.old }
    ensures outcome { IfOk result (λ says. HasOutcome clause.now arguments.now (value_at store.now.held) (outcome_laid says met.new)) }
    ensures looked { OnOk result (IsSetOf met.new.looked (LooksAt clause.now arguments.now (value_at store.now.held))) }
{
    match_head(alloc, clause, arguments, store, met)?;
    if met.clashes {
        look_on(alloc, store, &met.stands, clause.tests(), &mut met.looked)?;
        return Ok(Says::No);
    }
    if met.wanted.len() > 0 {
        look_on(alloc, store, &met.stands, clause.tests(), &mut met.looked)?;
        return Ok(Says::Waits);
    }
    let says_no = try_guard(
        alloc,
        store,
        &met.stands,
        clause.tests(),
        &mut met.wanted,
        &mut met.looked,
    )?;
    if says_no {
        return Ok(Says::No);
    }
    if met.wanted.len() == 0 {
        return Ok(Says::Yes);
    }
    Ok(Says::Waits)
}

/// Tries the clause on a call with these arguments. It costs what `lay_clause` does, and a step for each head variable where it
/// accepts. A clause of a program is linear.
pub fn try_clause(
    alloc: Global,
    clause: &Clause,
    arguments: &[Term],
    store: &Store,
) -> Result<Tried, AllocError>
    requires { IsLinear clause.now }
    ensures outcome { IfOk result (λ tried. HasOutcome clause.now arguments.now (value_at store.now.held) (outcome_of tried)) }
    ensures looked { IfOk result (λ tried. IsSetOf tried.looked (LooksAt clause.now arguments.now (value_at store.now.held))) }
{
    let mut met = Met::new(alloc);
    let says = lay_clause(alloc, clause, arguments, store, &mut met)?;
    let Met {
        clashes: _,
        stands,
        wanted,
        looked,
    } = met;
    let outcome = match says {
        Says::Yes => Outcome::Accepts(stands.share()?),
        Says::No => Outcome::Refuses,
        Says::Waits => Outcome::Waits(wanted),
    };
    Ok(Tried { outcome, looked })
}
