// What clauses say to calls, where it is not seen in a step: what a call waits for, and what was looked at. X is `_0_1`, Y `_0_2`.
use crate::tests::building::query;
use crate::tests::cores::{are_taken, core_of};
use ghc_core::Core;
use ghc_flat::Clause;
use ghc_match::{Outcome, Tried, try_clause};
use ghc_term::{Goal, GoalName, GoalView, Store, Variables, push_written};
use std::alloc::{AllocError, Global};

// Writes which of X and Y are in the set.
fn push_names(variables: &Variables, out: &mut String) -> Result<(), AllocError> {
    for (place, name) in [(1, " X"), (2, " Y")] {
        if variables.contains(query(place)) {
            out.push_str(name)?;
        }
    }
    Ok(())
}

// Writes the outcome, with what the first variable of the clause stands for.
fn push_outcome(outcome: &Outcome, out: &mut String) -> Result<(), AllocError> {
    match outcome {
        Outcome::Refuses => out.push_str("refuses"),
        Outcome::Waits(wanted) => {
            out.push_str("waits for")?;
            push_names(wanted, out)
        }
        Outcome::Accepts(stands) => {
            out.push_str("accepts ")?;
            match stands.get(query(1)) {
                Some(term) => push_written(term, out),
                None => Ok(()),
            }
        }
    }
}

// Writes the outcome, and what was looked at.
fn push_tried(tried: &Tried, out: &mut String) -> Result<(), AllocError> {
    push_outcome(&tried.outcome, out)?;
    out.push_str("; looked at")?;
    push_names(&tried.looked, out)
}

// Writes what the clause says to the goal, which is a call.
fn push_said(
    clause: &Clause,
    goal: &Goal,
    store: &Store,
    out: &mut String,
) -> Result<(), AllocError> {
    let GoalView::Call(_, arguments) = goal.view() else {
        return Err(AllocError);
    };
    clause.head_variables();
    let tried = try_clause(*out.allocator(), clause, arguments, store)?;
    push_tried(&tried, out)
}

// What the first clause says to the first goal, once a step of the second is taken.
fn said(alloc: Global, core: &mut Core) -> Result<String, AllocError> {
    let mut out = String::new(alloc);
    if !are_taken(alloc, core, SECOND) {
        return Ok(out);
    }
    if let (Some(clause), Some(goal)) = (core.program().clause(1), core.query().goals().first()) {
        push_said(clause, goal, core.store(), &mut out)?;
    }
    Ok(out)
}

fn is_said(alloc: Global, core: &mut Core, wanted: &str) -> bool {
    match said(alloc, core) {
        Ok(said) => said.as_str() == wanted,
        Err(_) => false,
    }
}

// The same in the core of a query, where one is given.
fn says(alloc: Global, core: Option<Core>, wanted: &str) -> bool {
    match core {
        Some(core) => {
            let mut core = core;
            is_said(alloc, &mut core, wanted)
        }
        None => false,
    }
}

// The program, the query, of which the second goal is taken first, and what the first clause says to the first goal.
const SAID: &[(&str, &str, &str)] = &[
    ("p(a,b).", "p(X,Y), Y = b", "waits for X; looked at X Y"),
    ("p(a,b).", "p(X,Y), Z = b", "waits for X Y; looked at X Y"),
    ("p(a,b).", "p(X,c), Y = b", "refuses; looked at X"),
    ("p(A,b).", "p(X,Y), Y = b", "accepts _0_1; looked at Y"),
    (
        "p(A,B) :- 1 / A > 0, atom(B) | true.",
        "p(X,Y), Y = b",
        "waits for X; looked at X Y",
    ),
    (
        "p(A,B) :- 1 / A > 0, atom(B) | true.",
        "p(0,X), Y = b",
        "refuses; looked at X",
    ),
    (
        "p(A,B) :- 1 / A > 0, atom(B) | true.",
        "p(1,b), Y = b",
        "accepts 1; looked at",
    ),
];

const SECOND: &[(GoalName, u32)] = &[(GoalName { step: 0, place: 2 }, 1)];

#[test]
fn clauses_answer(rt: HostRuntime) {
    for (program, query, wanted) in SAID {
        let core = core_of(rt.alloc(), program, query);
        assert!(rt; says(rt.alloc(), core, wanted), "{wanted}");
    }
}
