// Predicates by name and number of arguments, as chronicles have them.

use ghc_term::Name;

/// A predicate: its name and its number of arguments.
#[derive(Drop)]
pub struct Predicate {
    /// Its name.
    pub name: Name,
    /// How many arguments it has.
    pub arity: u32,
}
