// The variables that are asked about with others: those for which goals wait that reach one of these, and so on.
ghost use Rattle.std.specs.Prelude.{◌≡◌, None, Some, IfOk, IsTrue, OnOk};
ghost use Rattle.std.specs.FinMap as finite;
ghost use Rattle.std.specs.FinSet as set;
ghost use Rattle.ghc_term.specs.declared.var_name.VarName.{VarName as var_name};
ghost use Rattle.ghc_term.specs.Sets.{IsSetOf};
ghost use Rattle.ghc_term.specs.Store.{value_at};
ghost use Rattle.ghc_trace.specs.Laws.{IsSettled};
ghost use Rattle.ghc_trace.specs.WhyNot.{IsAskedAbout};
ghost use Rattle.ghc_trace.specs.inner.WhyNotCode.{AreWaits, GainsEach, GainsUnder, GainsWaits};

use crate::backward::{add_parent, ancestors_of};
use crate::holding::reached_by_goal;
use ghc_core::Core;
use ghc_hooks::Verdict;
use ghc_term::{Goal, GoalName, Store, VarName, Variables};
use std::alloc::{AllocError, Global};
use std::collections::BTreeMap;

// Lists each of these variables under the first one.
fn add_each(
    alloc: Global,
    waits: &mut BTreeMap<VarName, Vec<VarName>>,
    under: VarName,
    awaited: &Variables,
) -> Result<(), AllocError>
    ensures { OnOk result (GainsEach waits.old waits.new under awaited.now) }
{
    for y in awaited.members() {
        add_parent(alloc, waits, under, *y)?;
    }
    Ok(())
}

// Lists the awaited variables under each of those reached that is unbound.
fn add_under(
    alloc: Global,
    store: &Store,
    waits: &mut BTreeMap<VarName, Vec<VarName>>,
    reached: &Variables,
    awaited: &Variables,
) -> Result<(), AllocError>
    ensures { OnOk result (GainsUnder (value_at store.now.held) waits.old waits.new reached.now awaited.now) }
{
    for z in reached.members() {
        if store.get(*z).is_none() {
            add_each(alloc, waits, *z, awaited)?;
        }
    }
    Ok(())
}

// Lists the variables for which the goal waits under each unbound one that it reaches.
fn add_waits(
    alloc: Global,
    core: &Core,
    waits: &mut BTreeMap<VarName, Vec<VarName>>,
    name: GoalName,
    goal: &Goal,
) -> Result<(), AllocError>
    requires settled { IsSettled core.now.world core.now.notes }
    requires there { finite.get core.now.world.state.goals name ≡ Some goal.now }
    ensures { OnOk result (GainsWaits core.now.world name waits.old waits.new) }
{
    let Some(note) = core.tries().get(name) else {
        return Ok(());
    };
    match note.verdict() {
        Verdict::Waiting(awaited) => {
            let reached = reached_by_goal(alloc, core.store(), goal)?;
            add_under(alloc, core.store(), waits, &reached, awaited)
        }
        Verdict::Ready => Ok(()),
        Verdict::Failed(_) => Ok(()),
    }
}

// Under each unbound variable those for which a goal waits that reaches it. It goes once through what each goal that waits reaches.
fn waits_of(alloc: Global, core: &Core) -> Result<BTreeMap<VarName, Vec<VarName>>, AllocError>
    requires { IsSettled core.now.world core.now.notes }
    ensures { IfOk result (AreWaits core.now.world) }
{
    let mut waits = BTreeMap::new(alloc);
    let goals = core.goals().by_name(alloc)?;
    for (name, goal) in &goals {
        add_waits(alloc, core, &mut waits, *name, *goal)?;
    }
    Ok(waits)
}

// The variables asked about, where one asks about these, which are unbound. It goes once through what each goal that waits reaches.
pub(crate) fn asked_about(
    alloc: Global,
    core: &Core,
    first: &Variables,
) -> Result<Variables, AllocError>
    requires settled { IsSettled core.now.world core.now.notes }
    requires unbound { (y : var_name) → IsTrue (set.contains first.now y) → value_at core.now.world.state.store y ≡ None }
    ensures { IfOk result (λ asked. IsSetOf asked (IsAskedAbout core.now.world (λ y. IsTrue (set.contains first.now y)))) }
{
    let waits = waits_of(alloc, core)?;
    ancestors_of(alloc, &waits, first.members())
}
