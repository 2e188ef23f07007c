// The tests of guards.

use ghc_term::{Comparison, Expr, VarName};

/// A test of a guard: of a variable of the clause, or a comparison. (`true` is no test.)
pub enum Test {
    /// `wait(X)`: X ends in a value.
    Wait(VarName),
    /// `integer(X)`
    IsInteger(VarName),
    /// `atom(X)`
    IsAtom(VarName),
    /// `list(X)`
    IsList(VarName),
    /// A comparison of two expressions.
    Compare(Comparison, Expr, Expr),
}

impl Drop for Test {
    fn drop(self) {
        match self {
            Test::Wait(_) => {}
            Test::IsInteger(_) => {}
            Test::IsAtom(_) => {}
            Test::IsList(_) => {}
            Test::Compare(_, _left, _right) => {}
        }
    }
}
