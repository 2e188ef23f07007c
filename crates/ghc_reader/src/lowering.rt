// From what the parser makes to programs, queries and terms in the terms of the language.

mod asks;
mod clauses;
mod expressions;
mod goals;
mod guards;
mod lists;
mod queries;
mod scope;
mod terms;

pub(crate) use asks::lower_ask;
pub(crate) use clauses::lower_program;
pub(crate) use queries::{lower_closed, lower_query};
