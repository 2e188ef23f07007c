// Heads and goals that the grammar allows and the language does not.
ghost use Rattle.std.specs.Prelude.{◌≡◌};
ghost use Rattle.ghc_reader.specs.Reserved.{is_call, is_reserved, is_stream, is_variable, starts_with_variable, misplaced_goal, misplaced_query_goal, misplaced_body, misplaced_query, misplaced_clause, misplaced_program, first_place};
ghost use Rattle.ghc_reader.specs.inner.Views.{call_view, goal_view, goal_views, clause_view, clause_views, view, views};

use crate::source::{SourceCall, SourceClause, SourceGoal, SourceTerm};

/// The place of the first misplaced head or goal of a program, as the number of tokens that the text has left there: a
/// head `true`, `otherwise`, `alternatively` or `instream(_)`, or a goal `instream(_)` in a body. Time grows with the
/// number of clauses and goals.
pub fn misplaced_in_program(clauses: &[SourceClause]) -> Option<usize>
    ensures { result ≡ first_place (misplaced_program (clause_views clauses.now)) }
{
    for clause in clauses {
        if let Some(left) = misplaced_in_clause(clause) {
            return Some(left);
        }
    }
    None
}

fn misplaced_in_clause(clause: &SourceClause) -> Option<usize>
    ensures { result ≡ first_place (misplaced_clause (clause_view clause.now)) }
{
    if is_reserved(&clause.head) {
        return Some(clause.head.left);
    }
    misplaced_in_body(&clause.body)
}

/// The place of the first goal `instream(_)`, as the number of tokens that the text has left there. Time grows with the number of
/// goals.
pub fn misplaced_in_body(goals: &[SourceGoal]) -> Option<usize>
    ensures { result ≡ first_place (misplaced_body (goal_views goals.now)) }
{
    for goal in goals {
        if let Some(left) = misplaced_in_goal(goal) {
            return Some(left);
        }
    }
    None
}

fn misplaced_in_goal(goal: &SourceGoal) -> Option<usize>
    ensures { result ≡ first_place (misplaced_goal (goal_view goal.now)) }
{
    match goal {
        SourceGoal::Call(call) => {
            if is_stream(call) {
                Some(call.left)
            } else {
                None
            }
        }
        SourceGoal::Unify(_, _) => None,
        SourceGoal::Assign(_, _) => None,
    }
}

/// The place of the first goal `instream(_)` of a query whose argument is no variable, as the number of tokens that
/// the text has left there. Time grows with the number of goals.
pub fn misplaced_in_query(goals: &[SourceGoal]) -> Option<usize>
    ensures { result ≡ first_place (misplaced_query (goal_views goals.now)) }
{
    for goal in goals {
        if let Some(left) = misplaced_in_query_goal(goal) {
            return Some(left);
        }
    }
    None
}

fn misplaced_in_query_goal(goal: &SourceGoal) -> Option<usize>
    ensures { result ≡ first_place (misplaced_query_goal (goal_view goal.now)) }
{
    match goal {
        SourceGoal::Call(call) => {
            if is_stream(call) && !starts_with_variable(&call.arguments) {
                Some(call.left)
            } else {
                None
            }
        }
        SourceGoal::Unify(_, _) => None,
        SourceGoal::Assign(_, _) => None,
    }
}

// Whether no clause may define what the call calls.
fn is_reserved(call: &SourceCall) -> bool
    ensures { result ≡ is_reserved (call_view call.now) }
{
    is_call(call, "true", 0)
        || is_call(call, "otherwise", 0)
        || is_call(call, "alternatively", 0)
        || is_stream(call)
}

fn is_stream(call: &SourceCall) -> bool
    ensures { result ≡ is_stream (call_view call.now) }
{
    is_call(call, "instream", 1)
}

fn is_call(call: &SourceCall, name: &str, arity: usize) -> bool
    ensures { result ≡ is_call name.now arity (call_view call.now) }
{
    call.name.as_str() == name && call.arguments.len() == arity
}

fn starts_with_variable(terms: &[SourceTerm]) -> bool
    ensures { result ≡ starts_with_variable (views terms.now) }
{
    match terms {
        [] => false,
        [term, ..] => is_variable(term),
    }
}

fn is_variable(term: &SourceTerm) -> bool
    ensures { result ≡ is_variable (view term.now) }
{
    match term {
        SourceTerm::Variable(_) => true,
        SourceTerm::Integer(_) => false,
        SourceTerm::Structure(_, _) => false,
        SourceTerm::Empty => false,
        SourceTerm::List(items, tail) => items.is_empty() && is_variable(tail),
    }
}
