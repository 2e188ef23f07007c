// The values of expressions.

use ghc_term::Variables;

/// What an expression is worth: an integer, a wait for unbound variables, or nothing.
#[derive(Drop)]
pub enum Value {
    /// The integer.
    Number(i64),
    /// The unbound variables at which its variables end, of which there is one at least.
    Waits(Variables),
    /// It waits for nothing and has no value.
    Bad,
}
