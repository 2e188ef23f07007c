// Integers of 64 bits: what the operators make of two, and whether a comparison holds.
ghost use Rattle.std.specs.Prelude.{ℤ, ◌↔◌, IsTrue, MatchOption};
ghost use Rattle.ghc_match.specs.Value.{Computes};
ghost use Rattle.ghc_match.specs.Match.{Compares};

use ghc_term::{Comparison, Operator};

// What the operator makes of the two, if there is such an integer.
pub fn apply(operator: Operator, x: i64, y: i64) -> Option<i64>
    ensures { MatchOption result ((z : ℤ) → ¬ Computes operator x y z) (Computes operator x y) }
{
    match operator {
        Operator::Add => x.checked_add(y),
        Operator::Subtract => x.checked_sub(y),
        Operator::Multiply => x.checked_mul(y),
        Operator::Divide => x.checked_div(y),
        Operator::Modulo => remainder(x, y),
    }
}

// The remainder with the dividend's sign, which is 0 by -1 for each dividend.
fn remainder(x: i64, y: i64) -> Option<i64>
    ensures { MatchOption result ((z : ℤ) → ¬ Computes Operator.Modulo x y z) (Computes Operator.Modulo x y) }
{
    if y == -1 { Some(0) } else { x.checked_rem(y) }
}

// Whether the comparison holds.
pub fn compares(comparison: Comparison, x: i64, y: i64) -> bool
    ensures { IsTrue result ↔ Compares comparison x y }
{
    match comparison {
        Comparison::Less => x < y,
        Comparison::AtMost => x <= y,
        Comparison::Greater => x > y,
        Comparison::AtLeast => x >= y,
        Comparison::Equal => x == y,
        Comparison::NotEqual => x != y,
    }
}
