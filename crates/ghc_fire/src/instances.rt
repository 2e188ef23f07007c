// The goals that a clause's body makes in a step, goals of an effect as the step of some number has them, and goals of an ask.
ghost use Rattle.std.specs.Prelude.{◌≡◌, [], ◌∷◌, ◌++◌, length, map, IfOk};
ghost use Rattle.ghc_term.specs.Goal.{call};
ghost use Rattle.ghc_flat.specs.Variables.{fresh_variables};
ghost use Rattle.ghc_unify.specs.Solutions.{replace};
ghost use Rattle.ghc_fire.specs.Instance.{replace_in_goal, body_made};
ghost use Rattle.ghc_fire.specs.Proposal.{numbered};
ghost use Rattle.ghc_fire.specs.Asked.{called_by};
ghost use Rattle.ghc_fire.specs.inner.Renaming.{AreBehindHead, replacement};

mod bodies;
mod expressions;
mod leaves;
mod renaming;
mod terms;

use crate::instances::bodies::replace_term;
use crate::instances::expressions::replace_expression;
use crate::instances::renaming::Renaming;
use crate::made::Made;
use ghc_flat::Clause;
use ghc_match::Stands;
use ghc_term::{Goal, GoalView, Name, Term, VarName};
use std::alloc::{AllocError, Global};

// The terms with their variables replaced.
fn replace_terms(alloc: Global, terms: &[Term], by: Renaming<'_>) -> Result<Vec<Term>, AllocError>
    ensures { IfOk result (λ ts. ts.items ≡ map (replace (replacement by.entry)) terms.now) }
{
    let mut replaced = Vec::new(alloc);
    replaced.reserve_exact(terms.len())?;
    for term in terms {
        replaced.push(replace_term(alloc, term, by)?)?;
    }
    Ok(replaced)
}

// The call of this name with its variables replaced.
#[inline(never)]
fn replace_call(
    alloc: Global,
    name: &Name,
    arguments: &[Term],
    by: Renaming<'_>,
) -> Result<Goal, AllocError>
    ensures { IfOk result (λ g. g ≡ call name.now (map (replace (replacement by.entry)) arguments.now)) }
{
    match arguments {
        [] => Ok(Goal::call_of_none(name.share()?)),
        [first] => replace_one(alloc, name, first, by),
        [first, second] => replace_two(alloc, name, first, second, by),
        [first, second, third] => replace_three(alloc, name, first, second, third, by),
        [first, second, third, fourth] => {
            replace_four(alloc, name, first, second, third, fourth, by)
        }
        _ => replace_many(alloc, name, arguments, by),
    }
}

// The call of this name of one term.
#[inline(always)]
fn replace_one(
    alloc: Global,
    name: &Name,
    first: &Term,
    by: Renaming<'_>,
) -> Result<Goal, AllocError>
    ensures { IfOk result (λ g. g ≡ call name.now (map (replace (replacement by.entry)) (first.now ∷ []))) }
{
    let arguments = [replace_term(alloc, first, by)?];
    Ok(Goal::call_of_one(name.share()?, arguments))
}

// The call of this name of two terms.
#[inline(always)]
fn replace_two(
    alloc: Global,
    name: &Name,
    first: &Term,
    second: &Term,
    by: Renaming<'_>,
) -> Result<Goal, AllocError>
    ensures { IfOk result (λ g. g ≡ call name.now (map (replace (replacement by.entry)) (first.now ∷ second.now ∷ []))) }
{
    let arguments = replace_pair(alloc, first, second, by)?;
    Ok(Goal::call_of_two(name.share()?, arguments))
}

// The call of this name of three terms.
#[inline(always)]
fn replace_three(
    alloc: Global,
    name: &Name,
    first: &Term,
    second: &Term,
    third: &Term,
    by: Renaming<'_>,
) -> Result<Goal, AllocError>
    ensures { IfOk result (λ g. g ≡ call name.now (map (replace (replacement by.entry)) (first.now ∷ second.now ∷ third.now ∷ []))) }
{
    let [first, second] = replace_pair(alloc, first, second, by)?;
    let arguments = [first, second, replace_term(alloc, third, by)?];
    Ok(Goal::call_of_three(name.share()?, arguments))
}

// The call of this name of four terms.
#[inline(always)]
fn replace_four(
    alloc: Global,
    name: &Name,
    first: &Term,
    second: &Term,
    third: &Term,
    fourth: &Term,
    by: Renaming<'_>,
) -> Result<Goal, AllocError>
    ensures { IfOk result (λ g. g ≡ call name.now (map (replace (replacement by.entry)) (first.now ∷ second.now ∷ third.now ∷ fourth.now ∷ []))) }
{
    let [first, second] = replace_pair(alloc, first, second, by)?;
    let [third, fourth] = replace_pair(alloc, third, fourth, by)?;
    let arguments = [first, second, third, fourth];
    Ok(Goal::call_of_four(name.share()?, arguments))
}

// The call of this name of any number of terms.
#[inline(always)]
fn replace_many(
    alloc: Global,
    name: &Name,
    arguments: &[Term],
    by: Renaming<'_>,
) -> Result<Goal, AllocError>
    ensures { IfOk result (λ g. g ≡ call name.now (map (replace (replacement by.entry)) arguments.now)) }
{
    let arguments = replace_terms(alloc, arguments, by)?;
    Goal::call(alloc, name.share()?, arguments)
}

// Two terms with their variables replaced.
#[inline(always)]
fn replace_pair(
    alloc: Global,
    first: &Term,
    second: &Term,
    by: Renaming<'_>,
) -> Result<[Term; 2], AllocError>
    ensures { IfOk result (λ ts. ts ≡ map (replace (replacement by.entry)) (first.now ∷ second.now ∷ [])) }
{
    let first = replace_term(alloc, first, by)?;
    Ok([first, replace_term(alloc, second, by)?])
}

// The goal with its variables replaced.
#[inline(always)]
fn replace_goal(alloc: Global, goal: &Goal, by: Renaming<'_>) -> Result<Goal, AllocError>
    ensures { IfOk result (λ g. g ≡ replace_in_goal (replacement by.entry) goal.now) }
{
    match goal.view() {
        GoalView::Call(name, arguments) => replace_call(alloc, name, arguments, by),
        GoalView::Unify(left, right) => {
            let left = replace_term(alloc, left, by)?;
            Ok(Goal::unify(left, replace_term(alloc, right, by)?))
        }
        GoalView::Assign(left, value) => {
            let left = replace_term(alloc, left, by)?;
            Ok(Goal::assign(left, replace_expression(alloc, value, by)?))
        }
        GoalView::Stream(number, tail) => Ok(Goal::stream(number, tail)),
    }
}

// The same, kept apart from functions that replace few goals.
#[inline(never)]
fn replace_next(alloc: Global, goal: &Goal, by: Renaming<'_>) -> Result<Goal, AllocError>
    ensures { IfOk result (λ g. g ≡ replace_in_goal (replacement by.entry) goal.now) }
{
    replace_goal(alloc, goal, by)
}

// Three goals with their variables replaced, and so many variables.
#[inline(always)]
fn made_of_three(
    alloc: Global,
    first: &Goal,
    second: &Goal,
    third: &Goal,
    by: Renaming<'_>,
    fresh: u32,
) -> Result<Made, AllocError>
    ensures { IfOk result (λ made. made ≡ record { goals = map (replace_in_goal (replacement by.entry)) (first.now ∷ second.now ∷ third.now ∷ []); fresh = fresh }) }
{
    let [first, second] = replace_next_pair(alloc, first, second, by)?;
    Made::three(alloc, first, second, replace_next(alloc, third, by)?, fresh)
}

// The goals in front and two more with their variables replaced, and so many variables.
#[inline(always)]
fn made_of_four(
    alloc: Global,
    front: [Goal; 2],
    third: &Goal,
    fourth: &Goal,
    by: Renaming<'_>,
    fresh: u32,
) -> Result<Made, AllocError>
    ensures { IfOk result (λ made. made ≡ record { goals = front ++ map (replace_in_goal (replacement by.entry)) (third.now ∷ fourth.now ∷ []); fresh = fresh }) }
{
    let [first, second] = front;
    let [third, fourth] = replace_next_pair(alloc, third, fourth, by)?;
    Made::four(alloc, [first, second, third, fourth], fresh)
}

// Two goals with their variables replaced.
#[inline(always)]
fn replace_next_pair(
    alloc: Global,
    first: &Goal,
    second: &Goal,
    by: Renaming<'_>,
) -> Result<[Goal; 2], AllocError>
    ensures { IfOk result (λ gs. gs ≡ map (replace_in_goal (replacement by.entry)) (first.now ∷ second.now ∷ [])) }
{
    let first = replace_next(alloc, first, by)?;
    Ok([first, replace_next(alloc, second, by)?])
}

// The goals with their variables replaced.
fn replace_goals(alloc: Global, goals: &[Goal], by: Renaming<'_>) -> Result<Vec<Goal>, AllocError>
    ensures { IfOk result (λ gs. gs.items ≡ map (replace_in_goal (replacement by.entry)) goals.now) }
{
    let mut replaced = Vec::new(alloc);
    replaced.reserve_exact(goals.len())?;
    for goal in goals {
        replaced.push(replace_next(alloc, goal, by)?)?;
    }
    Ok(replaced)
}

// Three goals or more with their variables replaced, as a step makes them with so many variables. It is kept apart from functions that
// make fewer, which need no room for so many.
#[inline(never)]
fn replace_more(
    alloc: Global,
    goals: &[Goal],
    by: Renaming<'_>,
    fresh: u32,
) -> Result<Made, AllocError>
    ensures { IfOk result (λ made. made ≡ record { goals = map (replace_in_goal (replacement by.entry)) goals.now; fresh = fresh }) }
{
    match goals {
        [first, second, third] => made_of_three(alloc, first, second, third, by, fresh),
        [first, second, third, fourth] => {
            let front = replace_next_pair(alloc, first, second, by)?;
            made_of_four(alloc, front, third, fourth, by, fresh)
        }
        _ => Made::of(alloc, replace_goals(alloc, goals, by)?, fresh),
    }
}

// The goals with their variables replaced, as a step makes them with so many variables.
#[inline(always)]
fn replace_made(
    alloc: Global,
    goals: &[Goal],
    by: Renaming<'_>,
    fresh: u32,
) -> Result<Made, AllocError>
    ensures { IfOk result (λ made. made ≡ record { goals = map (replace_in_goal (replacement by.entry)) goals.now; fresh = fresh }) }
{
    match goals {
        [] => Ok(Made::none(fresh)),
        [first] => Made::one(alloc, replace_goal(alloc, first, by)?, fresh),
        [first, second] => {
            let first = replace_goal(alloc, first, by)?;
            Made::two(alloc, first, replace_goal(alloc, second, by)?, fresh)
        }
        _ => replace_more(alloc, goals, by, fresh),
    }
}

/// What the body of the clause makes in the step of that number, where its head variables, of which there are
/// `head_variables`, stand for what theta has. It goes once through the body, with one look-up for each variable in it,
/// and shares what theta has and each part that has no variables.
pub fn instance(
    alloc: Global,
    clause: &Clause,
    head_variables: u32,
    theta: &Stands<'_>,
    number: u32,
) -> Result<Made, AllocError>
    requires { AreBehindHead head_variables clause.now theta.now }
    ensures { IfOk result (λ made. made ≡ record { goals = body_made clause.now theta.now number; fresh = length (fresh_variables clause.now) }) }
{
    let by = Renaming::Body {
        theta,
        head_variables,
        number,
    };
    replace_made(alloc, clause.body(), by, clause.fresh())
}

// What is made as the step of this number has it: the variables that it makes get the number. It goes once through the
// goals, and shares each part of their terms that has no such variable.
pub fn number_goals(alloc: Global, made: &Made, number: u32) -> Result<Made, AllocError>
    ensures { IfOk result (λ other. other ≡ record { goals = map (replace_in_goal (numbered number)) made.now.goals; fresh = made.now.fresh }) }
{
    let by = Renaming::Numbered(number);
    replace_made(alloc, made.as_slice(), by, made.fresh())
}

// The same of a list of goals.
pub fn number_list(alloc: Global, goals: &[Goal], number: u32) -> Result<Vec<Goal>, AllocError>
    ensures { IfOk result (λ gs. gs.items ≡ map (replace_in_goal (numbered number)) goals.now) }
{
    replace_goals(alloc, goals, Renaming::Numbered(number))
}

// The goals of a written ask, whose i-th variable becomes the i-th of these. It goes once through the goals, and shares each part
// of their terms that has no variable.
pub fn call_goals(alloc: Global, goals: &[Goal], names: &[VarName]) -> Result<Vec<Goal>, AllocError>
    ensures { IfOk result (λ gs. gs.items ≡ map (replace_in_goal (called_by names.now)) goals.now) }
{
    replace_goals(alloc, goals, Renaming::Called(names))
}
