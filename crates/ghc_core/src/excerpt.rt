// What an attempt at a call reads of a core, so that it is made apart from the core.
ghost use Rattle.std.specs.Prelude.{◌≡◌, map, None, Err, IfOk, MatchOption, OnOk};
ghost use Rattle.ghc_term.specs.Answered.{Answered};
ghost use Rattle.ghc_term.specs.Store.{value_at};
ghost use Rattle.ghc_fire.specs.Attempt.{refused};
ghost use Rattle.ghc_core.specs.Core.{IsStanding};
ghost use Rattle.ghc_core.specs.Excerpt.{GivesExcerpt};
ghost use Rattle.ghc_core.specs.Proposes.{AttemptAnswers, IsProposedIn};
ghost use Rattle.ghc_core.specs.GoneThrough.{ReachFew};
ghost use Rattle.ghc_core.specs.inner.CutOut.{IsCutOut, OpenOnesWait, TakesOver};

use crate::core_state::Core;
use ghc_fire::{Goals, MadeGoal, Meter, Proposal, attempt};
use ghc_flat::Program;
use ghc_term::{Fault, GoalName, GoalView, Store, Term, TermView, VarName};
use std::alloc::{AllocError, Global};
use std::marker::Model;
use std::slice;
use std::snapshot::Snapshot;
use std::sync::Arc;

/// As many clauses are few: a call of no more is not worth an excerpt.
pub const FEW_CLAUSES: usize = 32;

// How many terms are gone through at most for an excerpt, closed ones apart.
const MOST: usize = 64;

/// What an attempt at a goal reads of a core: the program, the goal, which is a call, and what the variables that it reaches are bound
/// to. An attempt is made of it whatever has become of the core. Contracts see the world of the core, and the goal's name.
pub struct Excerpt {
    about: Snapshot<Core>,
    program: Arc<Program>,
    name: GoalName,
    goal: MadeGoal,
    store: Store,
}

impl Drop for Excerpt {
    fn drop(self) {
        let Excerpt {
            about: _,
            program: _program,
            name: _,
            goal: _goal,
            store: _store,
        } = self;
    }
}

impl Model for Excerpt {
    ghost use Rattle.ghc_term.specs.Store.{value_at};
    ghost use Rattle.ghc_core.specs.Excerpt.{Excerpt, IsExcerpt};
    ghost use Rattle.ghc_core.specs.inner.CoreCode.{excerpt_code};

    ghost Value = { Excerpt };

    ghost coded = { excerpt_code };

    ghost view = { λ e. record { world = e.about.value.world; goal = e.name } };

    ghost invariant = { λ e. IsExcerpt e.about.value.world e.name e.program.value e.goal (value_at e.store.held) };
}

// Adds the terms to those that wait, but for closed ones.
fn push_all<'a>(terms: &'a [Term], waiting: &mut Vec<&'a Term>) -> Result<(), AllocError>
    ensures { OnOk result (OpenOnesWait terms.now (map (λ t. t.now) waiting.old.items) (map (λ t. t.now) waiting.new.items)) }
{
    for term in terms {
        if !term.is_closed() {
            waiting.push(term)?;
        }
    }
    Ok(())
}

// Takes over what the variable is bound to, if it is bound and was not taken over before; then its value waits, if it is not closed.
fn take_over<'a>(
    store: &'a Store,
    x: VarName,
    cut: &mut Store,
    waiting: &mut Vec<&'a Term>,
) -> Result<(), AllocError>
    ensures { OnOk result (TakesOver (value_at store.now.held) x (value_at cut.old.held) (value_at cut.new.held) (map (λ t. t.now) waiting.old.items) (map (λ t. t.now) waiting.new.items)) }
{
    if cut.get(x).is_some() {
        return Ok(());
    }
    let Some(value) = store.get(x) else {
        return Ok(());
    };
    let Ok(()) = cut.bind(x, value.share()?) else {
        return Err(AllocError);
    };
    push_all(slice::from_ref(value), waiting)?;
    Ok(())
}

// The part of the store that the terms reach; nothing where more than 64 terms are to be gone through. It goes by a loop, past what is
// closed as written, and costs a look-up or two for each variable.
fn cut_out(alloc: Global, store: &Store, terms: &[Term]) -> Result<Option<Store>, AllocError>
    ensures { IfOk result (λ found. MatchOption found (¬ ReachFew (value_at store.now.held) terms.now) (λ cut. IsCutOut (value_at store.now.held) (value_at cut.held) terms.now)) }
{
    let mut cut = Store::new(alloc);
    let mut waiting = Vec::new(alloc);
    push_all(terms, &mut waiting)?;
    for _ in 0..MOST {
        let Some(term) = waiting.pop() else {
            return Ok(Some(cut));
        };
        match term.view() {
            TermView::Var(x) => take_over(store, x, &mut cut, &mut waiting)?,
            TermView::Struct(_, arguments) => push_all(arguments, &mut waiting)?,
            _ => {}
        }
    }
    if waiting.is_empty() {
        return Ok(Some(cut));
    }
    Ok(None)
}

impl Core {
    /// What an attempt at the goal of this name reads, where that is a call for which the program has more than 32 clauses, and which
    /// reaches few terms. It gives nothing only where there is no such goal; where it is no call; where the program has 32 clauses for it
    /// at most; or where more than 64 terms are gone through for it. These are its arguments and theirs, and the values of variables, each
    /// as often as it stands there; none is closed as written, since nothing is looked up at such a term. It fails only where memory is
    /// refused. It costs some look-ups, one or two for each of 64 variables at most, and no memory for arguments that are closed.
    pub fn excerpt(&self, alloc: Global, name: GoalName) -> Result<Option<Excerpt>, AllocError>
        ensures { IfOk result (GivesExcerpt self.now.world name) }
    {
        self.stands();
        let Some(goal) = self.state.goals().handle(name) else {
            return Ok(None);
        };
        let GoalView::Call(predicate, arguments) = goal.goal().view() else {
            return Ok(None);
        };
        if self.program().clauses_for(predicate, arguments.len()).len() <= FEW_CLAUSES {
            return Ok(None);
        }
        let Some(store) = cut_out(alloc, self.state.store(), arguments)? else {
            return Ok(None);
        };
        Ok(Some(Excerpt {
            about: Snapshot::of(self),
            program: Arc::try_clone(&self.program)?,
            name,
            goal: goal.share()?,
            store,
        }))
    }
}

impl Excerpt {
    /// Proposes a step of the goal, by the least clause that accepts it: what an attempt answers in the world of which the excerpt is.
    /// The refusals are those of an attempt. It costs what the clauses look at.
    pub fn attempt(&self, alloc: Global) -> Result<Proposal, Fault>
        ensures standing { IsStanding self.now.world }
        ensures answer { Answered (IsProposedIn self.now.world self.now.goal None) (λ f. AttemptAnswers self.now.world self.now.goal None (refused f)) result }

        // It is a call, so neither is ever the answer.
        ensures no_goal { AttemptAnswers self.now.world self.now.goal None (refused Fault.NoGoal) → result ≡ Err Fault.NoGoal }
        ensures no_clause { AttemptAnswers self.now.world self.now.goal None (refused Fault.NoClause) → result ≡ Err Fault.NoClause }
    {
        let name = self.name;
        let mut meter = Meter::new();
        let mut goals = Goals::new(alloc);
        goals.reserve(1, 0)?;
        goals.put(name, self.goal.share()?);
        attempt(
            alloc,
            &mut meter,
            &*self.program,
            &goals,
            &self.store,
            name,
            None,
        )
    }
}
