// What a step of a unification, or of an assignment, would do.
ghost use Rattle.std.specs.Prelude.{◌≡◌, ◌⊎◌, IfOk, IfErr};
ghost use Rattle.ghc_term.specs.Store.{value_at};
ghost use Rattle.ghc_flat.specs.Clause.{Program as program_spec};
ghost use Rattle.ghc_fire.specs.Attempt.{refused, UnificationAnswers, AssignmentAnswers};
ghost use Rattle.ghc_fire.specs.Effect.{Unites, Assigns};

use crate::effect::Effect;
use crate::expression_reads::add_chains;
use crate::made::Made;
use ghc_match::{Value, evaluate};
use ghc_term::{Expr, Fault, Store, Term};
use ghc_unify::{Solved, unify};
use std::alloc::Global;

/// The effect of a step that unifies the two sides. `Clash` or `Cycle` where they cannot be made equal; otherwise it
/// fails only where memory is refused. It costs what `unify` does.
pub fn attempt_unification(
    alloc: Global,
    store: &Store,
    left: &Term,
    right: &Term,
) -> Result<Effect, Fault>
    ensures effect { IfOk result (Unites left.now right.now (value_at store.now.held)) }
    ensures fault { IfErr result (λ f. (f ≡ Fault.Memory)
        ⊎ ((P : program_spec) → UnificationAnswers P left.now right.now (value_at store.now.held) (refused f))) }
{
    let solved = unify(alloc, left, right, store)?;
    Ok(Effect::new(solved.reads, solved.binds, Made::none(0)))
}

/// The effect of a step that assigns the value of the expression. `Waits` or `Arithmetic` where it has none, and `Clash`
/// where the left side cannot be made equal to it; otherwise it fails only where memory is refused. It costs what
/// `evaluate` and `unify` do, and goes once more along the chains of the expression's variables.
pub fn attempt_assignment(
    alloc: Global,
    store: &Store,
    left: &Term,
    value: &Expr,
) -> Result<Effect, Fault>
    ensures effect { IfOk result (Assigns left.now value.now (value_at store.now.held)) }
    ensures fault { IfErr result (λ f. (f ≡ Fault.Memory)
        ⊎ ((P : program_spec) → AssignmentAnswers P left.now value.now (value_at store.now.held) (refused f))) }
{
    let integer = match evaluate(alloc, value, store)? {
        Value::Number(integer) => integer,
        Value::Waits(_) => return Err(Fault::Waits),
        Value::Bad => return Err(Fault::Arithmetic),
    };
    let Solved { binds, mut reads } = unify(alloc, left, &Term::integer(integer), store)?;
    add_chains(alloc, store, value, &mut reads)?;
    Ok(Effect::new(reads, binds, Made::none(0)))
}
