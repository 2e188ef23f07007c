// The variables of what is written, as they stand there.
ghost use Rattle.std.specs.Prelude.{◌≡◌, ◌++◌, OnOk};
ghost use Rattle.std.specs.List.{flat_map};
ghost use Rattle.ghc_reader.specs.inner.Views.{view, views, value_view, factor_views, summand_views, goal_view, goal_views, test_view, test_views, clause_view};
ghost use Rattle.ghc_reader.specs.Amounts.{names, names_of, names_in, names_of_goal, names_of_goals, names_of_test, names_of_clause};

use crate::source::{SourceClause, SourceExpression, SourceGoal, SourceTerm, SourceTest};
use crate::token::{Product, Sum};
use ghc_term::Name;
use std::alloc::AllocError;

// Each function adds the variables of what it is given at the end of `out`.
#[cycle(names)]
fn push_term(out: &mut Vec<Name>, term: &SourceTerm) -> Result<(), AllocError>
    ensures { OnOk result (out.new.items ≡ out.old.items ++ names (view term.now)) }
{
    match term {
        SourceTerm::Variable(name) => {
            out.push(name.share()?)?;
            Ok(())
        }
        SourceTerm::Integer(_) => Ok(()),
        SourceTerm::Structure(_, arguments) => push_terms(out, arguments),
        SourceTerm::Empty => Ok(()),
        SourceTerm::List(items, tail) => {
            push_terms(out, items)?;
            push_term(out, tail)
        }
    }
}

#[cycle(names)]
fn push_terms(out: &mut Vec<Name>, terms: &[SourceTerm]) -> Result<(), AllocError>
    ensures { OnOk result (out.new.items ≡ out.old.items ++ names_of (views terms.now)) }
{
    for term in terms {
        push_term(out, term)?;
    }
    Ok(())
}

#[cycle(operands)]
fn push_expression(out: &mut Vec<Name>, expression: &SourceExpression) -> Result<(), AllocError>
    ensures { OnOk result (out.new.items ≡ out.old.items ++ names_in (value_view expression.now)) }
{
    match expression {
        SourceExpression::Integer(_) => Ok(()),
        SourceExpression::Variable(name) => {
            out.push(name.share()?)?;
            Ok(())
        }
        SourceExpression::Products(first, others) => {
            push_expression(out, first)?;
            push_factors(out, others)
        }
        SourceExpression::Sums(first, others) => {
            push_expression(out, first)?;
            push_summands(out, others)
        }
    }
}

#[cycle(operands)]
fn push_factors(
    out: &mut Vec<Name>,
    factors: &[(Product, SourceExpression)],
) -> Result<(), AllocError>
    ensures { OnOk result (out.new.items ≡ out.old.items ++ flat_map (λ x. names_in x.1) (factor_views factors.now)) }
{
    for (_, factor) in factors {
        push_expression(out, factor)?;
    }
    Ok(())
}

#[cycle(operands)]
fn push_summands(
    out: &mut Vec<Name>,
    summands: &[(Sum, SourceExpression)],
) -> Result<(), AllocError>
    ensures { OnOk result (out.new.items ≡ out.old.items ++ flat_map (λ x. names_in x.1) (summand_views summands.now)) }
{
    for (_, summand) in summands {
        push_expression(out, summand)?;
    }
    Ok(())
}

fn push_goal(out: &mut Vec<Name>, goal: &SourceGoal) -> Result<(), AllocError>
    ensures { OnOk result (out.new.items ≡ out.old.items ++ names_of_goal (goal_view goal.now)) }
{
    match goal {
        SourceGoal::Call(call) => push_terms(out, &call.arguments),
        SourceGoal::Unify(left, right) => {
            push_term(out, left)?;
            push_term(out, right)
        }
        SourceGoal::Assign(name, value) => {
            out.push(name.share()?)?;
            push_expression(out, value)
        }
    }
}

/// Adds the variables of the goals as they stand there. Time grows with the goals.
pub(crate) fn push_goals(out: &mut Vec<Name>, goals: &[SourceGoal]) -> Result<(), AllocError>
    ensures { OnOk result (out.new.items ≡ out.old.items ++ names_of_goals (goal_views goals.now)) }
{
    for goal in goals {
        push_goal(out, goal)?;
    }
    Ok(())
}

fn push_test(out: &mut Vec<Name>, test: &SourceTest) -> Result<(), AllocError>
    ensures { OnOk result (out.new.items ≡ out.old.items ++ names_of_test (test_view test.now)) }
{
    match test {
        SourceTest::Goal(goal) => push_goal(out, goal),
        SourceTest::Compare(left, _, right) => {
            push_expression(out, left)?;
            push_expression(out, right)
        }
    }
}

fn push_tests(out: &mut Vec<Name>, tests: &[SourceTest]) -> Result<(), AllocError>
    ensures { OnOk result (out.new.items ≡ out.old.items ++ flat_map names_of_test (test_views tests.now)) }
{
    for test in tests {
        push_test(out, test)?;
    }
    Ok(())
}

/// Adds the variables of the clause as they stand there. Time grows with the clause.
pub(crate) fn push_clause(out: &mut Vec<Name>, clause: &SourceClause) -> Result<(), AllocError>
    ensures { OnOk result (out.new.items ≡ out.old.items ++ names_of_clause (clause_view clause.now)) }
{
    push_terms(out, &clause.head.arguments)?;
    push_tests(out, &clause.guard)?;
    push_goals(out, &clause.body)
}
