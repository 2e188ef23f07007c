// The most guards or body goals of a clause.
ghost use Rattle.std.specs.Prelude.{◌≡◌};
ghost use Rattle.ghc_reader.specs.inner.Views.{clause_view, clause_views};
ghost use Rattle.ghc_reader.specs.Amounts.{largest, goals_of_clause};

use crate::source::SourceClause;

fn goals_of_clause(clause: &SourceClause) -> usize
    ensures { result ≡ goals_of_clause (clause_view clause.now) }
{
    clause.guard.len().max(clause.body.len())
}

/// The most guards, or body goals, of one of the clauses. Time grows with the number of clauses.
pub(crate) fn most_goals(clauses: &[SourceClause]) -> usize
    ensures { result ≡ largest goals_of_clause (clause_views clauses.now) }
{
    let mut most = 0;
    for clause in clauses {
        most = most.max(goals_of_clause(clause));
    }
    most
}
