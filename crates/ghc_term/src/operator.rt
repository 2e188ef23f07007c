// The operators of expressions.

/// An operator between two integers. `Divide` goes towards zero, and `Modulo` has the dividend's sign.
#[derive(Clone, Copy, Debug, PartialEq, Eq)]
pub enum Operator {
    Add,
    Subtract,
    Multiply,
    Divide,
    Modulo,
}
