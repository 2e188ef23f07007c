// The holders of the unbound variables of a term, or of those for which a goal waits: the goals that reach them.
ghost use Rattle.std.specs.Prelude.{◌≡◌, ◌≢◌, ◌++◌, map, IfOk, OnOk};
ghost use Rattle.ghc_term.specs.Sets.{IsSetOf};
ghost use Rattle.ghc_term.specs.Store.{value_at};
ghost use Rattle.ghc_hooks.specs.Reached.{leaves};
ghost use Rattle.ghc_records.specs.Orders.{Picks};
ghost use Rattle.ghc_trace.specs.Holding.{AreHolders, AreHoldersAmong, AreHoldersFor, GoalReaches, HasGained, IsHeldBy, IsUnboundIn};
ghost use Rattle.ghc_trace.specs.Laws.{IsSettled};

use crate::given::reached_by;
use ghc_core::Core;
use ghc_hooks::{Verdict, reached_from};
use ghc_term::{Expr, ExprView, Goal, GoalName, GoalView, Store, Term, VarName, Variables};
use std::alloc::{AllocError, Global};
use std::collections::BTreeSet;

/// An unbound variable, and a goal that reaches it.
#[derive(Clone, Copy, PartialEq, Eq, PartialOrd, Ord)]
pub struct Holder {
    pub variable: VarName,
    pub goal: GoalName,
}

// Adds the leaves of the expression, from left to right. The parts still to visit stand in a list.
pub(crate) fn push_leaves<'a>(
    alloc: Global,
    expression: &'a Expr,
    terms: &mut Vec<&'a Term>,
) -> Result<(), AllocError>
    ensures { OnOk result (map (λ t. t.now) terms.new.items ≡ map (λ t. t.now) terms.old.items ++ leaves expression.now) }
{
    let mut waiting = Vec::new(alloc);
    waiting.push(expression)?;
    while let Some(part) = waiting.pop() {
        match part.view() {
            ExprView::Leaf(term) => terms.push(term)?,
            ExprView::Operation(_, left, right) => {
                waiting.push(right)?;
                waiting.push(left)?;
            }
        }
    }
    Ok(())
}

// Adds the arguments.
fn push_arguments<'a>(arguments: &'a [Term], terms: &mut Vec<&'a Term>) -> Result<(), AllocError>
    ensures { OnOk result (map (λ t. t.now) terms.new.items ≡ map (λ t. t.now) terms.old.items ++ arguments.now) }
{
    for argument in arguments {
        terms.push(argument)?;
    }
    Ok(())
}

// All variables that the goal reaches in the store.
pub(crate) fn reached_by_goal(
    alloc: Global,
    store: &Store,
    goal: &Goal,
) -> Result<Variables, AllocError>
    ensures { IfOk result (λ xs. IsSetOf xs (GoalReaches (value_at store.now.held) goal.now)) }
{
    let mut terms = Vec::new(alloc);
    match goal.view() {
        GoalView::Call(_, arguments) => push_arguments(arguments, &mut terms)?,
        GoalView::Unify(left, right) => {
            terms.push(left)?;
            terms.push(right)?;
        }
        GoalView::Assign(target, value) => {
            terms.push(target)?;
            push_leaves(alloc, value, &mut terms)?;
        }
        GoalView::Stream(_, tail) => return reached_by(alloc, store, &Term::variable(tail)),
    }
    reached_from(alloc, store, terms)
}

// The unbound variables that the variable reaches in the store.
pub(crate) fn unbound_in(alloc: Global, store: &Store, x: VarName) -> Result<Variables, AllocError>
    ensures { IfOk result (λ ys. IsSetOf ys (IsUnboundIn (value_at store.now.held) x)) }
{
    let variable = Term::variable(x);
    let reached = reached_by(alloc, store, &variable)?;
    let mut unbound = Variables::new(alloc);
    for y in reached.members() {
        if store.get(*y).is_none() {
            unbound.insert(*y)?;
        }
    }
    Ok(unbound)
}

// Adds the goal as a holder of each variable that it reaches and that is unbound.
fn add_holder(
    holders: &mut BTreeSet<Holder>,
    unbound: &Variables,
    reached: &Variables,
    goal: GoalName,
) -> Result<(), AllocError>
    ensures { OnOk result (HasGained holders.old.keys holders.new.keys (IsHeldBy unbound.now reached.now goal)) }
{
    for y in reached.members() {
        if unbound.contains(*y) {
            holders.insert(Holder { variable: *y, goal })?;
        }
    }
    Ok(())
}

// The holders as a list, in their order.
fn listed(alloc: Global, holders: &BTreeSet<Holder>) -> Result<Vec<Holder>, AllocError>
    ensures { IfOk result (λ list. list.items ≡ holders.now.keys) }
{
    let mut list = Vec::new(alloc);
    for holder in holders {
        list.push(*holder)?;
    }
    Ok(list)
}

// The goals that reach one of these variables. Where there is a variable, it goes once through what each goal reaches, and sorts what
// it finds.
pub(crate) fn holders_among(
    alloc: Global,
    core: &Core,
    variables: &Variables,
) -> Result<Vec<Holder>, AllocError>
    ensures { IfOk result (λ list. AreHoldersAmong core.now.world.state variables.now list.items) }
{
    if variables.members().is_empty() {
        return Ok(Vec::new(alloc));
    }
    let mut held = BTreeSet::new(alloc);
    let goals = core.goals().by_name(alloc)?;
    for (name, goal) in &goals {
        let reached = reached_by_goal(alloc, core.store(), *goal)?;
        add_holder(&mut held, variables, &reached, *name)?;
    }
    let _count = held.len();
    listed(alloc, &held)
}

/// The unbound variables of the variable's term, each with the goals that reach it: by variable, then goal, each by step, then place.
/// It fails only where memory is refused. It costs the size of the term where none is unbound; else it goes once through what each
/// goal reaches, and sorts what it finds.
pub fn holders(alloc: Global, core: &Core, x: VarName) -> Result<Vec<Holder>, AllocError>
    ensures { IfOk result (λ list. AreHolders core.now.world.state x list.items) }
{
    let unbound = unbound_in(alloc, core.store(), x)?;
    holders_among(alloc, core, &unbound)
}

// Those of the holders whose goal is not this one.
fn of_others(alloc: Global, holders: &[Holder], goal: GoalName) -> Result<Vec<Holder>, AllocError>
    ensures { IfOk result (λ list. Picks (λ h. h.goal ≢ goal) holders.now list.items) }
{
    let mut others = Vec::new(alloc);
    for holder in holders {
        if holder.goal != goal {
            others.push(*holder)?;
        }
    }
    Ok(others)
}

/// The variables for which the goal of this name waits, each with the other goals that reach it: by variable, then goal. It fails
/// only where memory is refused. It costs a look-up where the goal does not wait; else what `holders` costs.
pub fn holders_for(alloc: Global, core: &Core, goal: GoalName) -> Result<Vec<Holder>, AllocError>
    requires { IsSettled core.now.world core.now.notes }
    ensures { IfOk result (λ list. AreHoldersFor core.now.world goal list.items) }
{
    let Some(note) = core.tries().get(goal) else {
        return Ok(Vec::new(alloc));
    };
    match note.verdict() {
        Verdict::Waiting(awaited) => {
            let all = holders_among(alloc, core, awaited)?;
            of_others(alloc, all.as_slice(), goal)
        }
        Verdict::Ready => Ok(Vec::new(alloc)),
        Verdict::Failed(_) => Ok(Vec::new(alloc)),
    }
}
