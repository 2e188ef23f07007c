// Tries goals from scratch.
ghost use Rattle.std.specs.Prelude.{◌≡◌, false, IfOk, MatchOption};
ghost use Rattle.ghc_term.specs.Goal.{call, unify as unify_goal, assign as assign_goal};
ghost use Rattle.ghc_term.specs.Store.{StoreValue, value_at};
ghost use Rattle.ghc_term.specs.Sets.{Variables as variables_spec};
ghost use Rattle.ghc_flat.specs.Clause.{Program as program_spec};
ghost use Rattle.ghc_flat.specs.Flat.{is_stream};
ghost use Rattle.ghc_unify.specs.Unify.{Unifies, UnifyFails};
ghost use Rattle.ghc_hooks.specs.Notes.{IsExact};

use crate::heard::Heard;
use crate::note::Note;
use crate::reached::{reached_by_both, reached_with_leaves};
use ghc_flat::Program;
use ghc_match::{Value, evaluate};
use ghc_term::{Expr, Fault, Goal, GoalView, Name, Store, Term};
use ghc_unify::unify;
use std::alloc::{AllocError, Global};

// Tries a call: each of its clauses once.
#[inline(never)]
fn try_call(
    alloc: Global,
    program: &Program,
    store: &Store,
    name: &Name,
    arguments: &[Term],
) -> Result<Note, AllocError>
    ensures { IfOk result (IsExact program.now (value_at store.now.held) (call name.now arguments.now)) }
{
    store.acyclic();
    program.clauses();
    let mut heard = Heard::nothing(alloc);
    for number in program.clauses_for(name, arguments.len()) {
        let clause = program.clause(*number).unwrap();
        heard.hear(alloc, clause, arguments, store)?;
    }
    Ok(heard.into_note())
}

// Why the two terms cannot be made equal, if they cannot: it costs what `unify` does.
fn refusal(
    alloc: Global,
    store: &Store,
    left: &Term,
    right: &Term,
) -> Result<Option<Fault>, AllocError>
    ensures { IfOk result (λ fault. MatchOption fault ((binds : StoreValue) × (reads : variables_spec) × Unifies (value_at store.now.held) left.now right.now binds reads) (UnifyFails (value_at store.now.held) left.now right.now)) }
{
    match unify(alloc, left, right, store) {
        Ok(_solved) => Ok(None),
        Err(Fault::Memory) => Err(AllocError),
        Err(fault) => Ok(Some(fault)),
    }
}

// Tries a unification, which never waits.
#[inline(never)]
fn try_unification(
    alloc: Global,
    store: &Store,
    left: &Term,
    right: &Term,
) -> Result<Note, AllocError>
    ensures { IfOk result (λ note. (P : program_spec) → IsExact P (value_at store.now.held) (unify_goal left.now right.now) note) }
{
    store.acyclic();
    let looked = reached_by_both(alloc, store, left, right)?;
    match refusal(alloc, store, left, right)? {
        None => Ok(Note::ready(looked)),
        Some(cause) => Ok(Note::failed(cause, looked)),
    }
}

// Tries an assignment, which waits where its expression does.
#[inline(never)]
fn try_assignment(
    alloc: Global,
    store: &Store,
    left: &Term,
    value: &Expr,
) -> Result<Note, AllocError>
    ensures { IfOk result (λ note. (P : program_spec) → IsExact P (value_at store.now.held) (assign_goal left.now value.now) note) }
{
    store.acyclic();
    let looked = reached_with_leaves(alloc, store, left, value)?;
    let integer = match evaluate(alloc, value, store)? {
        Value::Number(integer) => integer,
        Value::Waits(awaited) => return Ok(Note::waiting(awaited, looked)),
        Value::Bad => return Ok(Note::failed(Fault::Arithmetic, looked)),
    };
    match refusal(alloc, store, left, &Term::integer(integer))? {
        None => Ok(Note::ready(looked)),
        Some(cause) => Ok(Note::failed(cause, looked)),
    }
}

/// Tries the goal from scratch: what it can do, and all that it looks at to find that. Nothing is bound, made or counted, and it
/// fails only where memory is refused. A call costs what its clauses cost, each of which is tried once. A unification or an assignment
/// costs what `unify` and `evaluate` do, and goes once through all that its terms reach, by loops and past what is closed as written.
pub fn try_goal(
    alloc: Global,
    program: &Program,
    store: &Store,
    goal: &Goal,
) -> Result<Note, AllocError>
    requires { is_stream goal.now ≡ false }
    ensures { IfOk result (IsExact program.now (value_at store.now.held) goal.now) }
{
    match goal.view() {
        GoalView::Call(name, arguments) => try_call(alloc, program, store, name, arguments),
        GoalView::Unify(left, right) => try_unification(alloc, store, left, right),
        GoalView::Assign(left, value) => try_assignment(alloc, store, left, value),
        GoalView::Stream(_, _) => unreachable!(),
    }
}
