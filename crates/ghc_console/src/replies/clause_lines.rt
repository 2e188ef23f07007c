// The reply that tells what each clause says to a goal, and the line at which a clause begins.
ghost use Rattle.std.specs.Prelude.{◌≡◌, ◌++◌, ℕ, List, [], OnOk, codes, string_bytes};
ghost use Rattle.ghc_term.specs.Store.{value_at};
ghost use Rattle.ghc_flat.specs.Flat.{IsLinear};
ghost use Rattle.ghc_match.specs.Match.{Refuses};
ghost use Rattle.ghc_match.specs.Refusal.{RefusesAt};
ghost use Rattle.ghc_reader.specs.ClauseLines.{line_of};
ghost use Rattle.ghc_console.specs.Looks.{RepliesToClauses, TellsClauses, TellsOutcome, line_text, place_text};

use crate::count_text::push_count;
use crate::replies::refused;
use ghc_core::Core;
use ghc_flat::{Clause, Program};
use ghc_match::{Outcome, RefusalPlace, refusal_place, try_clause};
use ghc_reader::ClauseLines;
use ghc_records::push_variables;
use ghc_term::{Fault, GoalName, GoalView, Name, Store, Term, push_number};
use std::alloc::{AllocError, Global};

// The place at which a clause refuses.
fn push_place(place: RefusalPlace, reply: &mut String) -> Result<(), AllocError>
    ensures { OnOk result (string_bytes reply.new ≡ string_bytes reply.old ++ place_text place) }
{
    let (word, number) = match place {
        RefusalPlace::Argument(number) => ("head ", number),
        RefusalPlace::Test(number) => ("test ", number),
        RefusalPlace::Value(number) => ("value ", number),
    };
    reply.push_str(word)?;
    push_count(number, reply)
}

// Where the clause refuses the call.
fn push_refusal(
    alloc: Global,
    clause: &Clause,
    arguments: &[Term],
    store: &Store,
    reply: &mut String,
) -> Result<(), AllocError>
    requires linear { IsLinear clause.now }
    requires refuses { Refuses clause.now arguments.now (value_at store.now.held) }
    ensures { OnOk result ((place : RefusalPlace) × RefusesAt clause.now arguments.now (value_at store.now.held) place × (string_bytes reply.new ≡ string_bytes reply.old ++ (codes "no " ++ place_text place))) }
{
    let place = refusal_place(alloc, clause, arguments, store)?.unwrap();
    reply.push_str("no ")?;
    push_place(place, reply)
}

// What the clause says to the call.
fn push_outcome(
    alloc: Global,
    clause: &Clause,
    arguments: &[Term],
    store: &Store,
    reply: &mut String,
) -> Result<(), AllocError>
    requires { IsLinear clause.now }
    ensures { OnOk result ((says : List ℕ) × TellsOutcome clause.now arguments.now (value_at store.now.held) says × (string_bytes reply.new ≡ string_bytes reply.old ++ says)) }
{
    let tried = try_clause(alloc, clause, arguments, store)?;
    match &tried.outcome {
        Outcome::Refuses => push_refusal(alloc, clause, arguments, store, reply),
        Outcome::Waits(awaited) => {
            reply.push_str("waits ")?;
            push_variables(awaited, reply)
        }
        Outcome::Accepts(_) => reply.push_str("yes"),
    }
}

/// Writes the line at which the clause of this number begins, as ` line 7`, where it is known. It costs the text.
pub fn push_line(clause: u32, lines: &ClauseLines, reply: &mut String) -> Result<(), AllocError>
    ensures { OnOk result (string_bytes reply.new ≡ string_bytes reply.old ++ line_text (line_of lines.now clause)) }
{
    match lines.line_of(clause) {
        Some(line) => {
            reply.push_str(" line ")?;
            push_number(line, reply)
        }
        None => Ok(()),
    }
}

// What each clause of the predicate says to a call with these arguments, and where it begins, a line each.
fn clause_lines(
    alloc: Global,
    program: &Program,
    lines: &ClauseLines,
    store: &Store,
    name: &Name,
    arguments: &[Term],
    reply: &mut String,
) -> Result<(), AllocError>
    requires { string_bytes reply.old ≡ [] }
    ensures { OnOk result (TellsClauses lines.now program.now name.now arguments.now (value_at store.now.held) (string_bytes reply.new)) }
{
    for number in program.clauses_for(name, arguments.len()) {
        let clause = program.clause(*number).unwrap();
        // Called for its clause that the clause is linear, which `push_outcome` requires.
        let _variables = clause.head_variables();
        push_number(*number, reply)?;
        reply.push_str(" ")?;
        push_outcome(alloc, clause, arguments, store, reply)?;
        push_line(*number, lines, reply)?;
        reply.push_str("\n")?;
    }
    Ok(())
}

/// Tells what each clause of its predicate says now to the goal of this name, and where it begins, in order, a line each. It refuses with `NoGoal` where
/// there is no such goal or it is a stream, and with `NoClause` where it is a goal of another kind that is no call. It costs what
/// `try_clause` costs for each clause, what `refusal_place` costs for each that refuses, and the text.
#[inline(never)]
pub fn clauses(
    alloc: Global,
    core: &Core,
    lines: &ClauseLines,
    goal: GoalName,
    reply: &mut String,
) -> Result<(), AllocError>
    requires { string_bytes reply.old ≡ [] }
    ensures { OnOk result (RepliesToClauses lines.now core.now.world goal (string_bytes reply.new)) }
{
    let Some(found) = core.goals().get(goal) else {
        return refused(&Fault::NoGoal, reply);
    };
    match found.view() {
        GoalView::Call(name, arguments) => {
            clause_lines(
                alloc,
                core.program(),
                lines,
                core.store(),
                name,
                arguments,
                reply,
            )
        }
        GoalView::Unify(_, _) => refused(&Fault::NoClause, reply),
        GoalView::Assign(_, _) => refused(&Fault::NoClause, reply),
        GoalView::Stream(_, _) => refused(&Fault::NoGoal, reply),
    }
}
