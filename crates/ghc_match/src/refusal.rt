// Where a clause refuses a call.
ghost use Rattle.std.specs.Prelude.{◌↔◌, ℕ, IfOk, OnOk, IsTrue};
ghost use Rattle.ghc_term.specs.Store.{value_at};
ghost use Rattle.ghc_term.specs.Variables.{variables};
ghost use Rattle.ghc_flat.specs.Flat.{AreDistinct, IsLinear};
ghost use Rattle.ghc_match.specs.Refusal.{MismatchIn};
ghost use Rattle.ghc_match.specs.inner.Ends.{StandsAndEnds};
ghost use Rattle.ghc_match.specs.inner.Refusing.{TellsFirst, ClashesWithin, TellsFirstNo, TellsRefusal};
ghost use Rattle.ghc_match.specs.inner.Told.{HasShownNothing};

use crate::guard::{Says, try_test};
use crate::head::{Met, match_head, visit};
use crate::places::{go_below, next_pair};
use crate::stands::Stands;
use crate::test_holds::has_values;
use ghc_flat::{Clause, Test};
use ghc_term::{Store, Term, Variables};
use std::alloc::{AllocError, Global};

/// Where a clause refuses a call. Arguments and tests are counted from 1.
#[derive(Clone, Copy, Drop)]
pub enum RefusalPlace {
    /// In this argument of its head, the first one that clashes.
    Argument(usize),
    /// At this test of its guard, the first one that says no.
    Test(usize),
    /// At this test, the first one that says no: it compares, and one of its sides has no value.
    Value(usize),
}

// Whether the argument of a head clashes with that of a call, at some position. It goes once to each of them, by a loop.
fn clash<'a>(
    alloc: Global,
    head: &'a Term,
    term: &'a Term,
    store: &'a Store,
) -> Result<bool, AllocError>
    requires { AreDistinct (variables head.now) }
    ensures { IfOk result (λ clashes. IsTrue clashes ↔ ClashesWithin (value_at store.now.held) head.now term.now) }
{
    let mut met = Met::new(alloc);
    visit_all(alloc, head, term, store, &mut met)?;
    Ok(met.clashes)
}

// Lets the argument of a head meet that of a call, at each position. Before, nothing was shown.
#[inline(always)]
fn visit_all<'a>(
    alloc: Global,
    head: &'a Term,
    term: &'a Term,
    store: &'a Store,
    met: &mut Met<'a>,
) -> Result<(), AllocError>
    requires distinct { AreDistinct (variables head.now) }
    requires nothing { HasShownNothing met.old }
    ensures { OnOk result (IsTrue met.new.clashes ↔ ClashesWithin (value_at store.now.held) head.now term.now) }
{
    let mut here = visit(store, head, term, met)?;
    let mut pending = Vec::new(alloc);
    while let Some((part, other)) = next_pair(&mut here, &mut pending) {
        let below = visit(store, part, other, met)?;
        go_below(below, &mut here, &mut pending)?;
    }
    Ok(())
}

// The first argument of the clause's head that clashes, if one does.
fn first_clash(
    alloc: Global,
    clause: &Clause,
    arguments: &[Term],
    store: &Store,
) -> Result<Option<usize>, AllocError>
    requires { IsLinear clause.now }
    ensures { IfOk result (TellsFirst (MismatchIn clause.now arguments.now (value_at store.now.held))) }
{
    let heads = clause.head();
    let mut number = 0;
    while number < heads.len() && number < arguments.len() {
        let clashes = clash(alloc, &heads[number], &arguments[number], store)?;
        number += 1;
        if clashes {
            return Ok(Some(number));
        }
    }
    Ok(None)
}

// The first of the tests that says no, and its number, if one does.
fn first_no<'a>(
    alloc: Global,
    store: &Store,
    stands: &Stands<'_>,
    tests: &'a [Test],
) -> Result<Option<(usize, &'a Test)>, AllocError>
    ensures { IfOk result (TellsFirstNo (StandsAndEnds stands.now (value_at store.now.held)) tests.now) }
{
    let mut wanted = Variables::new(alloc);
    let mut looked = Variables::new(alloc);
    let mut number = 0;
    while number < tests.len() {
        let test = &tests[number];
        number += 1;
        if let Says::No = try_test(alloc, store, stands, test, &mut wanted, &mut looked)? {
            return Ok(Some((number, test)));
        }
    }
    Ok(None)
}

/// The place at which the clause refuses a call with these arguments; none where it accepts it or waits. It goes at most twice to
/// each position of the head, and asks the tests up to the first that says no: it costs what `lay_clause` does, twice at most. A
/// clause of a program is linear.
pub fn refusal_place(
    alloc: Global,
    clause: &Clause,
    arguments: &[Term],
    store: &Store,
) -> Result<Option<RefusalPlace>, AllocError>
    requires { IsLinear clause.now }
    ensures { IfOk result (TellsRefusal clause.now arguments.now (value_at store.now.held)) }
{
    if let Some(number) = first_clash(alloc, clause, arguments, store)? {
        return Ok(Some(RefusalPlace::Argument(number)));
    }
    let mut met = Met::new(alloc);
    test_place(alloc, clause, arguments, store, &mut met)
}

// The same, where no argument clashes and nothing was shown.
#[inline(always)]
fn test_place<'a>(
    alloc: Global,
    clause: &'a Clause,
    arguments: &'a [Term],
    store: &'a Store,
    met: &mut Met<'a>,
) -> Result<Option<RefusalPlace>, AllocError>
    requires linear { IsLinear clause.now }
    requires nothing { HasShownNothing met.old }
    requires none { (i : ℕ) → ¬ MismatchIn clause.now arguments.now (value_at store.now.held) i }
    ensures { IfOk result (TellsRefusal clause.now arguments.now (value_at store.now.held)) }
{
    match_head(alloc, clause, arguments, store, met)?;
    if met.wanted.len() > 0 {
        return Ok(None);
    }
    let Some((number, test)) = first_no(alloc, store, &met.stands, clause.tests())? else {
        return Ok(None);
    };
    if has_values(alloc, store, &met.stands, test)? {
        return Ok(Some(RefusalPlace::Test(number)));
    }
    Ok(Some(RefusalPlace::Value(number)))
}
