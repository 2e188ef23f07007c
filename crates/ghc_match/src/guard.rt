// What the guard of a clause says.
ghost use Rattle.std.specs.Prelude.{◌≡◌, ◌↔◌, ◌++◌, IfOk, OnOk, IsTrue};
ghost use Rattle.ghc_term.specs.declared.var_name.VarName.{VarName};
ghost use Rattle.ghc_term.specs.Tree.{variable};
ghost use Rattle.ghc_term.specs.Store.{value_at};
ghost use Rattle.ghc_flat.specs.Variables.{variables_of_test};
ghost use Rattle.ghc_match.specs.Value.{Wants};
ghost use Rattle.ghc_match.specs.inner.Ends.{StandsAndEnds};
ghost use Rattle.ghc_match.specs.inner.Meeting.{Gains};
ghost use Rattle.ghc_match.specs.inner.Guarding.{StandsAndPasses, PassedFrom, IsSaid, OneSaysNo, OneWants, GuardLooksAt};

use crate::leaves::push_leaves;
use crate::passing::follow_noting;
use crate::small::{compare_small, small_sides};
use crate::stands::Stands;
use crate::test_holds::holds;
use ghc_flat::Test;
use ghc_term::{Store, TermView, VarName, Variables};
use std::alloc::{AllocError, Global};

/// What a test says of what its variables stand for, and a clause to a call.
#[derive(Clone, Copy, Drop)]
pub enum Says {
    Yes,
    No,
    Waits,
}

// The variables of the test, in the order in which they stand there.
fn variables_of(alloc: Global, test: &Test) -> Result<Vec<VarName>, AllocError>
    ensures { IfOk result (λ names. names.items ≡ variables_of_test test.now) }
{
    let mut names = Vec::new(alloc);
    push_variables(alloc, test, &mut names)?;
    Ok(names)
}

// Adds the variables of the test, in the order in which they stand there.
#[inline(always)]
fn push_variables(alloc: Global, test: &Test, names: &mut Vec<VarName>) -> Result<(), AllocError>
    ensures { OnOk result (names.new.items ≡ names.old.items ++ variables_of_test test.now) }
{
    match test {
        Test::Wait(x) | Test::IsInteger(x) | Test::IsAtom(x) | Test::IsList(x) => {
            names.push(*x)?;
        }
        Test::Compare(_, left, right) => {
            push_leaves(alloc, left, names)?;
            push_leaves(alloc, right, names)?;
        }
    }
    Ok(())
}

// Whether what the variable stands for ends in an unbound variable, which is then wanted. Its chain is looked at.
fn look_at(
    store: &Store,
    stands: &Stands<'_>,
    name: VarName,
    wanted: &mut Variables,
    looked: &mut Variables,
) -> Result<bool, AllocError>
    ensures waits { IfOk result (λ waits. IsTrue waits ↔ ((x : VarName) × StandsAndEnds stands.now (value_at store.now.held) name (variable x))) }
    ensures wanted { OnOk result (Gains wanted.old wanted.new (λ x. StandsAndEnds stands.now (value_at store.now.held) name (variable x))) }
    ensures looked { OnOk result (Gains looked.old looked.new (StandsAndPasses stands.now (value_at store.now.held) name)) }
{
    let Some(term) = stands.get(name) else {
        return Ok(false);
    };
    let end = follow_noting(store, term, looked)?;
    if let TermView::Var(x) = end.view() {
        wanted.insert(x)?;
        return Ok(true);
    }
    Ok(false)
}

// The same for several variables: whether one of them ends unbound.
fn look_at_all(
    store: &Store,
    stands: &Stands<'_>,
    names: &[VarName],
    wanted: &mut Variables,
    looked: &mut Variables,
) -> Result<bool, AllocError>
    ensures waits { IfOk result (λ waits. IsTrue waits ↔ ((x : VarName) × Wants (StandsAndEnds stands.now (value_at store.now.held)) names.now x)) }
    ensures wanted { OnOk result (Gains wanted.old wanted.new (Wants (StandsAndEnds stands.now (value_at store.now.held)) names.now)) }
    ensures looked { OnOk result (Gains looked.old looked.new (PassedFrom stands.now (value_at store.now.held) names.now)) }
{
    let mut waits = false;
    for name in names {
        if look_at(store, stands, *name, wanted, looked)? {
            waits = true;
        }
    }
    Ok(waits)
}

// What the test says. What it waits for is wanted, and the chains of its variables are looked at.
pub fn try_test(
    alloc: Global,
    store: &Store,
    stands: &Stands<'_>,
    test: &Test,
    wanted: &mut Variables,
    looked: &mut Variables,
) -> Result<Says, AllocError>
    ensures says { IfOk result (IsSaid (StandsAndEnds stands.now (value_at store.now.held)) test.now) }
    ensures wanted { OnOk result (Gains wanted.old wanted.new (Wants (StandsAndEnds stands.now (value_at store.now.held)) (variables_of_test test.now))) }
    ensures looked { OnOk result (Gains looked.old looked.new (PassedFrom stands.now (value_at store.now.held) (variables_of_test test.now))) }
{
    if let Some((comparison, left, right)) = small_sides(test) {
        return compare_small(store, stands, comparison, left, right, wanted, looked);
    }
    let names = variables_of(alloc, test)?;
    if look_at_all(store, stands, &names, wanted, looked)? {
        return Ok(Says::Waits);
    }
    if holds(alloc, store, stands, test)? {
        return Ok(Says::Yes);
    }
    Ok(Says::No)
}

// Whether one of the tests of a guard says no, each of which is asked once. What they wait for is wanted.
pub fn try_guard(
    alloc: Global,
    store: &Store,
    stands: &Stands<'_>,
    tests: &[Test],
    wanted: &mut Variables,
    looked: &mut Variables,
) -> Result<bool, AllocError>
    ensures no { IfOk result (OneSaysNo (StandsAndEnds stands.now (value_at store.now.held)) tests.now) }
    ensures wanted { OnOk result (Gains wanted.old wanted.new (OneWants (StandsAndEnds stands.now (value_at store.now.held)) tests.now)) }
    ensures looked { OnOk result (Gains looked.old looked.new (GuardLooksAt stands.now (value_at store.now.held) tests.now)) }
{
    let mut says_no = false;
    for test in tests {
        if let Says::No = try_test(alloc, store, stands, test, wanted, looked)? {
            says_no = true;
        }
    }
    Ok(says_no)
}
