// What a step of a call would do.
ghost use Rattle.std.specs.Prelude.{◌≡◌, ◌⊎◌, length, Err, IfOk, IfErr};
ghost use Rattle.ghc_term.specs.Store.{value_at};
ghost use Rattle.ghc_fire.specs.Attempt.{proposes, refused, CallAnswers, ChoiceAnswers};
ghost use Rattle.ghc_fire.specs.declared.act.Act.TheVariants.{ByClause as by_clause};
ghost use Rattle.ghc_fire.specs.Effect.{no_step};
ghost use Rattle.ghc_fire.specs.Firing.{IsReductionOf};
ghost use Rattle.ghc_fire.specs.inner.Calls.{HasVerdict};

use crate::act::Act;
use crate::effect::Effect;
use crate::firing::{Firing, Reduction};
use crate::instances::instance;
use ghc_flat::{Clause, Program};
use ghc_match::{Met, Places, Says, first_end, lay_until_no, refuses_at_first};
use ghc_term::{Bindings, Fault, Name, Store, Term};
use std::alloc::{AllocError, Global};
use std::sync::Arc;

// What a clause makes of a call.
#[derive(Drop)]
enum Verdict {
    Refuses,
    Waits,
    // It accepts the call, and the step by it has this effect.
    Reduces(Effect),
}

// What the clause makes of a call with these arguments as the step of this number: it tries the clause, and where that
// accepts, goes once through its body. Places of its head wait in `pending`.
fn try_clause_as_step<'a>(
    alloc: Global,
    clause: &'a Clause,
    arguments: &'a [Term],
    store: &'a Store,
    step: u32,
    pending: &mut Vec<Places<'a>>,
) -> Result<Verdict, AllocError>
    requires { length clause.now.head ≡ length arguments.now }
    ensures { IfOk result (HasVerdict step clause.now arguments.now (value_at store.now.held)) }
{
    store.acyclic();
    let head_variables = clause.head_variables();
    let mut met = Met::new(alloc);
    match lay_until_no(alloc, clause, arguments, store, &mut met, pending)? {
        Says::No => Ok(Verdict::Refuses),
        Says::Waits => Ok(Verdict::Waits),
        Says::Yes => {
            let makes = instance(alloc, clause, head_variables, &met.stands, step)?;
            let effect = Effect::new(met.looked, Bindings::new(alloc), makes);
            Ok(Verdict::Reduces(effect))
        }
    }
}

/// The step that reduces a call by the least of its clauses that accepts it; where none does, `Waits` if one waits, and else
/// `NoMatch`. It tries the clauses in order up to the one that it takes, but for those that refuse the call for its first
/// argument, whose chain it follows once more.
pub fn attempt_call(
    alloc: Global,
    program: &Program,
    store: &Store,
    name: &Name,
    arguments: &[Term],
    reduction: &Reduction<'_>,
) -> Result<Arc<Firing>, Fault>
    ensures fired { IfOk result (λ f. IsReductionOf reduction.now.step reduction.now.name reduction.now.goal.now f.value) }
    ensures proposed { IfOk result (λ f. CallAnswers reduction.now.step program.now name.now arguments.now (value_at store.now.held) (proposes f.value.act f.value.effect)) }
    ensures fault { IfErr result (λ f. (f ≡ Fault.Memory) ⊎ CallAnswers no_step program.now name.now arguments.now (value_at store.now.held) (refused f)) }
{
    let first = first_end(arguments, store);
    let mut waits = false;
    let mut pending = Vec::new(alloc);
    let mut candidates = program.candidates(name, arguments.len(), first);
    while let Some(number) = candidates.pop_least() {
        let clause = program.clause(number).unwrap();
        if refuses_at_first(clause, first) {
            continue;
        }
        match try_clause_as_step(
            alloc,
            clause,
            arguments,
            store,
            reduction.step,
            &mut pending,
        )? {
            Verdict::Refuses => {}
            Verdict::Waits => waits = true,
            Verdict::Reduces(effect) => {
                let fired = reduction.fire(alloc, Act::ByClause(number), effect)?;
                return Ok(fired);
            }
        }
    }
    if waits {
        Err(Fault::Waits)
    } else {
        Err(Fault::NoMatch)
    }
}

/// The effect of a step of a call by the clause of this number, or `NoClause` where that is not for the call, or else `Waits` or
/// `NoMatch`. The number of the step is `step`. It tries no other clause.
#[inline(never)]
pub fn attempt_choice(
    alloc: Global,
    program: &Program,
    store: &Store,
    name: &Name,
    arguments: &[Term],
    number: u32,
    step: u32,
) -> Result<Effect, Fault>
    ensures proposed { IfOk result (λ e. ChoiceAnswers step program.now name.now arguments.now number (value_at store.now.held) (proposes (by_clause number) e)) }
    ensures fault { IfErr result (λ f. (f ≡ Fault.Memory) ⊎ ChoiceAnswers no_step program.now name.now arguments.now number (value_at store.now.held) (refused f)) }
    ensures no_clause { ChoiceAnswers no_step program.now name.now arguments.now number (value_at store.now.held) (refused Fault.NoClause) → result ≡ Err Fault.NoClause }
{
    let Some(clause) = program.clause(number) else {
        return Err(Fault::NoClause);
    };
    if clause.name() != name || clause.head().len() != arguments.len() {
        return Err(Fault::NoClause);
    }
    let verdict = {
        let mut pending = Vec::new(alloc);
        try_clause_as_step(alloc, clause, arguments, store, step, &mut pending)?
    };
    match verdict {
        Verdict::Refuses => Err(Fault::NoMatch),
        Verdict::Waits => Err(Fault::Waits),
        Verdict::Reduces(effect) => Ok(effect),
    }
}
