//! Programs of Flat GHC: tests, clauses and queries, and which of them are flat, linear and defined.
#![tactic(auto)]

mod candidates;
mod checker;
mod clause;
mod counting;
mod firsts;
mod guards;
mod index;
mod laws;
mod program;
mod refused;
mod test;

pub use candidates::Candidates;
pub use checker::{check, judge};
pub use clause::Clause;
pub use laws::{check_is_exact, query_faults_are_told};
pub use program::Program;
pub use refused::Refused;
pub use test::Test;
