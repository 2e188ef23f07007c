// How many variables a clause or a query has: the distinct names, and each `_`.
ghost use Rattle.std.specs.Prelude.{◌≡◌, ℕ, List, false, ◌||◌, not, bytes_eq, IfOk, OnOk};
ghost use Rattle.std.specs.List.{list_any};
ghost use Rattle.ghc_reader.specs.inner.Views.{goal_views, clause_view, clause_views};
ghost use Rattle.ghc_reader.specs.Amounts.{largest, names_of_goals, names_of_clause, is_unnamed, variables};

use crate::limits::names::{push_clause, push_goals};
use crate::source::{SourceClause, SourceGoal};
use ghc_term::Name;
use indexmap::IndexSet;
use std::alloc::{AllocError, Global};

// Whether the name is one variable more: `_`, or a name that is not yet among those met, to which it is added.
fn is_further(named: &mut IndexSet<Name>, name: &Name) -> Result<bool, AllocError>
    ensures further { IfOk result (λ further. further ≡ (is_unnamed name.now || not (list_any (bytes_eq name.now) named.old.keys))) }
    ensures met { OnOk result ((v : List ℕ) → is_unnamed v ≡ false
        → list_any (bytes_eq v) named.new.keys ≡ (list_any (bytes_eq v) named.old.keys || bytes_eq v name.now)) }
{
    if name.as_str() == "_" {
        return Ok(true);
    }
    let is_new = named.insert(name.share()?)?;
    Ok(is_new)
}

// How many variables these are. One look-up for each.
fn count(alloc: Global, names: &[Name]) -> Result<usize, AllocError>
    ensures { IfOk result (λ count. count ≡ variables names.now) }
{
    let mut named = IndexSet::new(alloc);
    let mut count = 0;
    for name in names {
        count += usize::from(is_further(&mut named, name)?);
    }
    Ok(count)
}

/// How many variables the goals have together. Time and memory grow with the goals.
pub(crate) fn variables_of_goals(alloc: Global, goals: &[SourceGoal]) -> Result<usize, AllocError>
    ensures { IfOk result (λ count. count ≡ variables (names_of_goals (goal_views goals.now))) }
{
    let mut names = Vec::new(alloc);
    push_goals(&mut names, goals)?;
    count(alloc, &names)
}

fn variables_of_clause(alloc: Global, clause: &SourceClause) -> Result<usize, AllocError>
    ensures { IfOk result (λ count. count ≡ variables (names_of_clause (clause_view clause.now))) }
{
    let mut names = Vec::new(alloc);
    push_clause(&mut names, clause)?;
    count(alloc, &names)
}

/// The most variables of one of the clauses. Time grows with the clauses, memory with the longest.
pub(crate) fn most_variables(alloc: Global, clauses: &[SourceClause]) -> Result<usize, AllocError>
    ensures { IfOk result (λ most. most ≡ largest (λ c. variables (names_of_clause c)) (clause_views clauses.now)) }
{
    let mut most = 0;
    for clause in clauses {
        most = most.max(variables_of_clause(alloc, clause)?);
    }
    Ok(most)
}
