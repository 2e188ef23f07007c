// The tests that guards make.
ghost use Rattle.std.specs.Prelude.{◌≡◌, ◌⊎◌, [], ◌∷◌, List, IfOk, IfErr, MatchResult, option_to_list};
ghost use Rattle.ghc_term.specs.declared.fault.Fault.{Fault};
ghost use Rattle.ghc_term.specs.Tree.{variable};
ghost use Rattle.ghc_term.specs.Goal.{call};
ghost use Rattle.ghc_term.specs.Lists.{In};
ghost use Rattle.ghc_reader.specs.declared.written.Guard.{Guard as WrittenGuard};
ghost use Rattle.ghc_reader.specs.declared.written.Guard.TheVariants.{Item as item};
ghost use Rattle.ghc_flat.specs.declared.test.Test.{Test as GuardTest};
ghost use Rattle.ghc_flat.specs.inner.Counting.{MakesAmong, AreAmong};
ghost use Rattle.ghc_flat.specs.Checked.{MakeTests};
ghost use Rattle.ghc_flat.specs.Variables.{variables_of_test};

use crate::counting::{are_among, is_among};
use crate::test::Test;
use ghc_reader::Guard;
use ghc_term::{Fault, Goal, GoalView, Name, Term, TermView, VarName};
use std::alloc::Global;

// The guard makes no tests, or one with another variable than the first ones.
#[derive(Drop)]
struct NotFlat;

// The test of the guard that is the name over one variable.
fn test_of_variable(name: &str, x: VarName, count: u32) -> Result<Option<Test>, NotFlat>
    ensures { MatchResult result (λ t. MakesAmong count (item (call name.now (variable x ∷ []))) (option_to_list t))
        (λ _. (ts : List GuardTest) → ¬ MakesAmong count (item (call name.now (variable x ∷ []))) ts) }
{
    if !is_among(x, count) {
        return Err(NotFlat);
    }
    if name == "wait" {
        Ok(Some(Test::Wait(x)))
    } else if name == "integer" {
        Ok(Some(Test::IsInteger(x)))
    } else if name == "atom" {
        Ok(Some(Test::IsAtom(x)))
    } else if name == "list" {
        Ok(Some(Test::IsList(x)))
    } else {
        Err(NotFlat)
    }
}

// The test of the guard that is the name over one argument.
fn test_of_argument(name: &str, argument: &Term, count: u32) -> Result<Option<Test>, NotFlat>
    ensures { MatchResult result (λ t. MakesAmong count (item (call name.now (argument.now ∷ []))) (option_to_list t))
        (λ _. (ts : List GuardTest) → ¬ MakesAmong count (item (call name.now (argument.now ∷ []))) ts) }
{
    match argument.view() {
        TermView::Var(x) => test_of_variable(name, x, count),
        TermView::Int(_) => Err(NotFlat),
        TermView::Atom(_) => Err(NotFlat),
        TermView::Struct(_, _) => Err(NotFlat),
    }
}

// The test of the guard that is the call, if it is not `true`.
fn test_of_call(name: &Name, arguments: &[Term], count: u32) -> Result<Option<Test>, NotFlat>
    ensures { MatchResult result (λ t. MakesAmong count (item (call name.now arguments.now)) (option_to_list t))
        (λ _. (ts : List GuardTest) → ¬ MakesAmong count (item (call name.now arguments.now)) ts) }
{
    match arguments {
        [] => {
            if name.as_str() == "true" {
                Ok(None)
            } else {
                Err(NotFlat)
            }
        }
        [argument] => test_of_argument(name.as_str(), argument, count),
        _ => Err(NotFlat),
    }
}

// The test of the guard that is the goal, if it is not `true`.
fn test_of_goal(goal: &Goal, count: u32) -> Result<Option<Test>, NotFlat>
    ensures { MatchResult result (λ t. MakesAmong count (item goal.now) (option_to_list t))
        (λ _. (ts : List GuardTest) → ¬ MakesAmong count (item goal.now) ts) }
{
    match goal.view() {
        GoalView::Call(name, arguments) => test_of_call(name, arguments, count),
        GoalView::Unify(_, _) => Err(NotFlat),
        GoalView::Assign(_, _) => Err(NotFlat),
        GoalView::Stream(_, _) => Err(NotFlat),
    }
}

// The test of the guard, if it is not `true`, in a clause whose head has the variables `_0_1` to `_0_count`.
fn test_of_guard(guard: Guard, count: u32) -> Result<Option<Test>, NotFlat>
    ensures { MatchResult result (λ t. MakesAmong count guard (option_to_list t))
        (λ _. (ts : List GuardTest) → ¬ MakesAmong count guard ts) }
{
    match guard {
        Guard::Item(goal) => test_of_goal(&goal, count),
        Guard::Comparison(comparison, left, right) => {
            if are_among(&left, count) && are_among(&right, count) {
                Ok(Some(Test::Compare(comparison, left, right)))
            } else {
                Err(NotFlat)
            }
        }
    }
}

// The tests of the guards of clause `number`, in order, whose head has the variables `_0_1` to `_0_count`.
pub(crate) fn tests_of_guards(
    alloc: Global,
    guards: Vec<Guard>,
    count: u32,
    number: u32,
) -> Result<Vec<Test>, Fault>
    ensures made { IfOk result (λ tests. MakeTests guards.items tests.items) }
    ensures among { IfOk result (λ tests. (t : GuardTest) → In t tests.items → AreAmong count (variables_of_test t)) }
    ensures refused { IfErr result (λ e. (e ≡ Fault.Memory)
        ⊎ ((e ≡ Fault.NotFlat number)
        × ((g : WrittenGuard) × In g guards.items × ((ts : List GuardTest) → ¬ MakesAmong count g ts)))) }
{
    let mut tests = Vec::new(alloc);
    for guard in guards {
        match test_of_guard(guard, count) {
            Ok(Some(test)) => tests.push(test)?,
            Ok(None) => {}
            Err(NotFlat) => return Err(Fault::NotFlat { clause: number }),
        }
    }
    Ok(tests)
}
