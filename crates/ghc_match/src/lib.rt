//! What a clause says to a call: positions, values, guards, and what is read and looked at.
#![tactic(auto)]

mod alike;
mod arithmetic;
mod evaluation;
mod facts;
mod first;
mod guard;
mod head;
mod laws;
mod leaves;
mod number;
mod passing;
mod places;
mod refusal;
mod scope;
mod small;
mod stands;
mod test_holds;
mod trying;
mod until_no;
mod value;

pub use evaluation::evaluate;
pub use facts::{structure_is_no_number, waits_on_two};
pub use first::{first_end, refuses_at_first};
pub use guard::Says;
pub use head::Met;
pub use laws::{
    each_clause_has_an_outcome, each_expression_has_a_value, outcome_is_of_what_is_looked_at,
    outcomes_exclude, refuses_at_one_place, refuses_somewhere, value_looks_at_its_terms,
    values_exclude,
};
pub use places::Places;
pub use refusal::{RefusalPlace, refusal_place};
pub use stands::Stands;
pub use trying::{Outcome, Tried, lay_clause, try_clause};
pub use until_no::lay_until_no;
pub use value::Value;
