// How deep the operators of expressions stand inside one another.
ghost use Rattle.std.specs.Prelude.{◌≡◌, ◌+◌, ◌≤◌, min, max};
ghost use Rattle.ghc_reader.specs.Source.{Value, products, sums};
ghost use Rattle.ghc_reader.specs.inner.Views.{value_view, factor_views, summand_views, goal_view, goal_views};
ghost use Rattle.ghc_reader.specs.Amounts.{largest, levels, levels_of_goal};

use crate::source::{SourceExpression, SourceGoal};
use crate::token::{Product, Sum};

/// The most operators that may stand inside one another in what is asked for.
pub(crate) const MOST_LEVELS: usize = 1_000;

// An operator over two operands. Each function counts up to one more than the most, and no further.
fn above(left: usize, right: usize) -> usize
    requires left_counted { left ≤ MOST_LEVELS + 1 }
    requires right_counted { right ≤ MOST_LEVELS + 1 }
    ensures { result ≡ min (max left right + 1) (MOST_LEVELS + 1) }
{
    let deeper = left.max(right);
    if deeper > MOST_LEVELS {
        return deeper;
    }
    deeper + 1
}

#[cycle(levels)]
fn levels(expression: &SourceExpression) -> usize
    ensures { result ≡ min (levels (value_view expression.now)) (MOST_LEVELS + 1) }
{
    match expression {
        SourceExpression::Integer(_) => 0,
        SourceExpression::Variable(_) => 0,
        SourceExpression::Products(first, others) => {
            let innermost = levels(first);
            over_factors(innermost, others)
        }
        SourceExpression::Sums(first, others) => {
            let innermost = levels(first);
            over_summands(innermost, others)
        }
    }
}

// .. of the product of what has so many and of further operands
#[cycle(levels)]
fn over_factors(first: usize, factors: &[(Product, SourceExpression)]) -> usize
    requires { first ≤ MOST_LEVELS + 1 }
    ensures { (left : Value) → first ≡ min (levels left) (MOST_LEVELS + 1)
        → result ≡ min (levels (products left (factor_views factors.now))) (MOST_LEVELS + 1) }
{
    let mut most = first;
    for (_, factor) in factors {
        most = above(most, levels(factor));
    }
    most
}

// .. of the sum of what has so many and of further operands
#[cycle(levels)]
fn over_summands(first: usize, summands: &[(Sum, SourceExpression)]) -> usize
    requires { first ≤ MOST_LEVELS + 1 }
    ensures { (left : Value) → first ≡ min (levels left) (MOST_LEVELS + 1)
        → result ≡ min (levels (sums left (summand_views summands.now))) (MOST_LEVELS + 1) }
{
    let mut most = first;
    for (_, summand) in summands {
        most = above(most, levels(summand));
    }
    most
}

fn levels_of_goal(goal: &SourceGoal) -> usize
    ensures { result ≡ min (levels_of_goal (goal_view goal.now)) (MOST_LEVELS + 1) }
{
    match goal {
        SourceGoal::Call(_) => 0,
        SourceGoal::Unify(_, _) => 0,
        SourceGoal::Assign(_, value) => levels(value),
    }
}

/// How deep operators stand inside one another in the goals, or one more than the most where they stand deeper. Time grows with the
/// goals.
pub(crate) fn most_levels(goals: &[SourceGoal]) -> usize
    ensures { result ≡ min (largest levels_of_goal (goal_views goals.now)) (MOST_LEVELS + 1) }
{
    let mut most = 0;
    for goal in goals {
        most = most.max(levels_of_goal(goal));
    }
    most
}
