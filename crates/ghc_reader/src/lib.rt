//! The reader: from the bytes of a program, a query, an input term or what is asked for in mid-run to its tree.
#![tactic(auto)]

mod ask;
mod clause_lines;
mod clause_parser;
mod depth;
mod expression_parser;
mod front;
mod goal_parser;
mod input_parser;
mod laws;
mod lexer;
mod limits;
mod lowering;
mod parse_error;
mod parse_trees;
mod parser;
mod place;
mod read;
mod reserved;
mod source;
mod term_parser;
mod token;
mod written;

pub use ask::WrittenAsk;
pub use clause_lines::ClauseLines;
pub use laws::{
    printed_goals_are_read_again, printed_terms_are_read_again, read_ask_is_exact,
    read_body_is_exact, read_ground_term_is_exact, read_program_is_exact, read_query_is_exact,
};
pub use read::{
    read_ask, read_body, read_clause_lines, read_ground_term, read_program, read_query,
};
pub use written::{Guard, Query, Source, WrittenClause};
