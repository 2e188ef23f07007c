// The most arguments of a head, a goal or a structure.
ghost use Rattle.std.specs.Prelude.{◌≡◌};
ghost use Rattle.ghc_reader.specs.inner.Views.{view, views, call_view, goal_view, goal_views, test_view, test_views, clause_view, clause_views};
ghost use Rattle.ghc_reader.specs.Amounts.{largest, widest, widest_of, widest_call, widest_goal, widest_goals, widest_test, widest_clause};

use crate::source::{SourceCall, SourceClause, SourceGoal, SourceTerm, SourceTest};

/// The most arguments of a structure in the term. Time grows with the term.
#[cycle(widest)]
pub(crate) fn widest(term: &SourceTerm) -> usize
    ensures { result ≡ widest (view term.now) }
{
    match term {
        SourceTerm::Variable(_) => 0,
        SourceTerm::Integer(_) => 0,
        SourceTerm::Structure(_, arguments) => arguments.len().max(widest_of(arguments)),
        SourceTerm::Empty => 0,
        SourceTerm::List(items, tail) => widest_of(items).max(widest(tail)),
    }
}

#[cycle(widest)]
fn widest_of(terms: &[SourceTerm]) -> usize
    ensures { result ≡ widest_of (views terms.now) }
{
    let mut most = 0;
    for term in terms {
        most = most.max(widest(term));
    }
    most
}

fn widest_call(call: &SourceCall) -> usize
    ensures { result ≡ widest_call (call_view call.now) }
{
    call.arguments.len().max(widest_of(&call.arguments))
}

fn widest_goal(goal: &SourceGoal) -> usize
    ensures { result ≡ widest_goal (goal_view goal.now) }
{
    match goal {
        SourceGoal::Call(call) => widest_call(call),
        SourceGoal::Unify(left, right) => widest(left).max(widest(right)),
        SourceGoal::Assign(_, _) => 0,
    }
}

/// The most arguments of a goal or of a structure in the goals. Time grows with the goals.
pub(crate) fn widest_goals(goals: &[SourceGoal]) -> usize
    ensures { result ≡ widest_goals (goal_views goals.now) }
{
    let mut most = 0;
    for goal in goals {
        most = most.max(widest_goal(goal));
    }
    most
}

fn widest_test(test: &SourceTest) -> usize
    ensures { result ≡ widest_test (test_view test.now) }
{
    match test {
        SourceTest::Goal(goal) => widest_goal(goal),
        SourceTest::Compare(_, _, _) => 0,
    }
}

fn widest_tests(tests: &[SourceTest]) -> usize
    ensures { result ≡ largest widest_test (test_views tests.now) }
{
    let mut most = 0;
    for test in tests {
        most = most.max(widest_test(test));
    }
    most
}

fn widest_clause(clause: &SourceClause) -> usize
    ensures { result ≡ widest_clause (clause_view clause.now) }
{
    let right = widest_tests(&clause.guard).max(widest_goals(&clause.body));
    widest_call(&clause.head).max(right)
}

/// The most arguments of a head, of a goal or of a structure in the clauses. Time grows with the clauses.
pub(crate) fn widest_clauses(clauses: &[SourceClause]) -> usize
    ensures { result ≡ largest widest_clause (clause_views clauses.now) }
{
    let mut most = 0;
    for clause in clauses {
        most = most.max(widest_clause(clause));
    }
    most
}
