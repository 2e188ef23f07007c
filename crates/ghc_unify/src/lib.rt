//! Unification: the call, the relation that it meets, and laws about it.
#![tactic(auto)]

mod apart;
mod chains;
mod laws;
mod parting;
mod solve;
mod step;

pub use laws::{
    each_unification_has_an_ending, unification_binds_and_reads, unification_has_one_ending,
    unification_is_local, unification_keeps_acyclic, unification_keeps_solutions,
    unification_looks_at_its_terms, unifications_commute, unify_is_exact,
};
pub use solve::{Solved, unify};
