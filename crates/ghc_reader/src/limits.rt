// What a program, a query or an input term may not exceed.
ghost use Rattle.std.specs.Prelude.{◌≡◌, IfOk};
ghost use Rattle.ghc_reader.specs.inner.Views.{view, goal_views, clause_views};
ghost use Rattle.ghc_reader.specs.Limits.{first_exceeded, of_program, of_query, of_term};

pub(crate) mod arguments;
pub(crate) mod goals;
pub(crate) mod levels;
pub(crate) mod names;
pub(crate) mod nodes;
pub(crate) mod variables;

use crate::limits::arguments::{widest, widest_clauses, widest_goals};
use crate::limits::goals::most_goals;
use crate::limits::nodes::has_more_nodes;
use crate::limits::variables::{most_variables, variables_of_goals};
use crate::source::{SourceClause, SourceGoal, SourceTerm};
use ghc_term::Limit;
use std::alloc::{AllocError, Global};

/// The most clauses of a program.
pub(crate) const MOST_CLAUSES: usize = 10_000;

/// The most arguments of a head, a goal or a structure.
pub(crate) const MOST_ARGUMENTS: usize = 255;

/// The most guards or body goals of a clause, and goals of a query.
pub(crate) const MOST_GOALS: usize = 1_000;

/// The most variables of a clause or a query.
pub(crate) const MOST_VARIABLES: usize = 1_000;

/// The most nodes of an input term.
pub(crate) const MOST_NODES: usize = 10_000;

/// The first limit that the program exceeds anywhere. Time grows with the program, memory with the variables of a clause.
pub(crate) fn program_limit(
    alloc: Global,
    clauses: &[SourceClause],
) -> Result<Option<Limit>, AllocError>
    ensures { IfOk result (λ limit. limit ≡ first_exceeded (of_program (clause_views clauses.now))) }
{
    if clauses.len() > MOST_CLAUSES {
        return Ok(Some(Limit::Clauses));
    }
    if widest_clauses(clauses) > MOST_ARGUMENTS {
        return Ok(Some(Limit::Arity));
    }
    if most_goals(clauses) > MOST_GOALS {
        return Ok(Some(Limit::Goals));
    }
    if most_variables(alloc, clauses)? > MOST_VARIABLES {
        return Ok(Some(Limit::Variables));
    }
    Ok(None)
}

/// The first limit that the query exceeds. Time grows with the query, memory with its variables.
pub(crate) fn query_limit(alloc: Global, goals: &[SourceGoal]) -> Result<Option<Limit>, AllocError>
    ensures { IfOk result (λ limit. limit ≡ first_exceeded (of_query (goal_views goals.now))) }
{
    if widest_goals(goals) > MOST_ARGUMENTS {
        return Ok(Some(Limit::Arity));
    }
    if goals.len() > MOST_GOALS {
        return Ok(Some(Limit::Goals));
    }
    if variables_of_goals(alloc, goals)? > MOST_VARIABLES {
        return Ok(Some(Limit::Variables));
    }
    Ok(None)
}

/// The first limit that the input term exceeds. Time grows with the term.
pub(crate) fn term_limit(term: &SourceTerm) -> Option<Limit>
    ensures { result ≡ first_exceeded (of_term (view term.now)) }
{
    if widest(term) > MOST_ARGUMENTS {
        return Some(Limit::Arity);
    }
    if has_more_nodes(term, MOST_NODES) {
        return Some(Limit::Term);
    }
    None
}
