// From the parse trees of a query to the query as it is written, and from a closed parse tree to its term.
ghost use Rattle.std.specs.Prelude.{◌≡◌, [], IfOk, None};
ghost use Rattle.ghc_reader.specs.Limits.{first_exceeded, of_query};
ghost use Rattle.ghc_reader.specs.inner.Views.{view, goal_views};
ghost use Rattle.ghc_reader.specs.Lowered.{Says, SaysQuery, IsClosed};

use crate::lowering::goals::lower_asked;
use crate::lowering::lists::Lists;
use crate::lowering::scope::Scope;
use crate::lowering::terms::lower_term;
use crate::source::{SourceGoal, SourceTerm};
use crate::written::Query;
use ghc_term::Term;
use std::alloc::{AllocError, Global};

/// The query that parse trees within the limits say. It fails where memory is refused. Time grows with the size of the
/// trees.
pub(crate) fn lower_query(alloc: Global, goals: &[SourceGoal]) -> Result<Query, AllocError>
    requires { first_exceeded (of_query (goal_views goals.now)) ≡ None }
    ensures { IfOk result (λ q. SaysQuery (goal_views goals.now) q) }
{
    let lists = Lists::new(alloc)?;
    let mut scope = Scope::new(alloc);
    let lowered = lower_asked(&lists, goals, &mut scope)?;
    Ok(Query {
        goals: lowered,
        variables: scope.into_names(),
    })
}

/// The term that a parse tree without variables says. Time grows with the size of the tree.
pub(crate) fn lower_closed(alloc: Global, term: &SourceTerm) -> Result<Term, AllocError>
    requires { IsClosed (view term.now) }
    ensures { IfOk result (λ t. Says [] (view term.now) t) }
{
    let lists = Lists::new(alloc)?;
    let mut scope = Scope::new(alloc);
    lower_term(&lists, term, &mut scope)
}
