// Why variables are not bound: who holds them and what these wait for, who lost them, and whether a goal may still bind one.
ghost use Rattle.std.specs.Prelude.{◌≡◌, ◌≢◌, ◌↔◌, ◌++◌, ℕ, List, None, IsTrue, OnOk, string_bytes};
ghost use Rattle.std.specs.FinMap as finite;
ghost use Rattle.std.specs.FinSet as set;
ghost use Rattle.ghc_term.specs.declared.var_name.VarName.{VarName as var_name};
ghost use Rattle.ghc_term.specs.Lists.{In};
ghost use Rattle.ghc_term.specs.Store.{value_at};
ghost use Rattle.ghc_hooks.specs.Status.{ready};
ghost use Rattle.ghc_hooks.specs.Verdict.{status_of};
ghost use Rattle.ghc_trace.specs.declared.holding.Holder.{Holder as holder_spec};
ghost use Rattle.ghc_trace.specs.Holding.{IsUnboundIn};
ghost use Rattle.ghc_trace.specs.Laws.{IsSettled};
ghost use Rattle.ghc_trace.specs.WhyNot.{IsAwaitedBy, MayGoOn, TellsWhyNot};
ghost use Rattle.ghc_trace.specs.inner.WhyNotCode.{verdict_line};

use crate::asked_about::asked_about;
use crate::explaining::push_holders;
use crate::holding::{Holder, holders_among, unbound_in};
use crate::lost::write_all_lost;
use ghc_core::Core;
use ghc_hooks::Verdict;
use ghc_term::{GoalName, VarName, Variables};
use std::alloc::{AllocError, Global};

// Whether a goal of this verdict is ready.
fn is_ready(verdict: &Verdict) -> bool
    ensures { IsTrue result ↔ (status_of verdict.now ≡ ready) }
{
    match verdict {
        Verdict::Ready => true,
        Verdict::Waiting(_) => false,
        Verdict::Failed(_) => false,
    }
}

// Whether the goal may take a step. One that is there without a note is a stream goal.
fn may_go_on(core: &Core, goal: GoalName) -> bool
    requires settled { IsSettled core.now.world core.now.notes }
    requires there { finite.get core.now.world.state.goals goal ≢ None }
    ensures { IsTrue result ↔ MayGoOn core.now.world goal }
{
    let Some(note) = core.tries().get(goal) else {
        return true;
    };
    is_ready(note.verdict())
}

// Whether the goal of one of the holders may take a step: a look-up for each.
fn one_may_go_on(core: &Core, holders: &[Holder]) -> bool
    requires settled { IsSettled core.now.world core.now.notes }
    requires there { (h : holder_spec) → In h holders.now → finite.get core.now.world.state.goals h.goal ≢ None }
    ensures { IsTrue result ↔ ((h : holder_spec) × In h holders.now × MayGoOn core.now.world h.goal) }
{
    for holder in holders {
        if may_go_on(core, holder.goal) {
            return true;
        }
    }
    false
}

// The last line.
fn verdict(may_be_bound: bool) -> &'static str
    ensures { result.now ≡ verdict_line may_be_bound }
{
    if may_be_bound {
        return "may be bound\n";
    }
    "stays unbound\n"
}

// Writes what is told where one asks about these variables, which are unbound.
fn push_asked(
    alloc: Global,
    core: &Core,
    first: &Variables,
    out: &mut String,
) -> Result<(), AllocError>
    requires settled { IsSettled core.now.world core.now.notes }
    requires unbound { (y : var_name) → IsTrue (set.contains first.now y) → value_at core.now.world.state.store y ≡ None }
    ensures { OnOk result ((text : List ℕ) × TellsWhyNot core.now.world (λ y. IsTrue (set.contains first.now y)) text × (string_bytes out.new ≡ string_bytes out.old ++ text)) }
{
    if first.members().is_empty() {
        return Ok(());
    }
    let asked = asked_about(alloc, core, first)?;
    let holders = holders_among(alloc, core, &asked)?;
    push_holders(core, holders.as_slice(), out)?;
    write_all_lost(alloc, core, &asked, out)?;
    let may_be_bound = one_may_go_on(core, holders.as_slice());
    out.push_str(verdict(may_be_bound))?;
    Ok(())
}

/// Writes why the variable's term is not bound at the end of `out`: a line for each goal that reaches a variable asked about, as
/// `_1_2 in 1.3 waits _1_2`, a line for each kept step that lost one, as `_1_2 lost by 17 9.3 by 8 skip(_1_2)`, and then `stays unbound`
/// or `may be bound`. Nothing where the term has no unbound variable. It fails only where memory is refused; then a part may stand
/// written. It goes twice through what each goal reaches, once through the store, and for each variable asked about through the
/// variables that reach it, and once over the kept steps with a look-up for each variable in what they took and made.
pub fn push_why_not(
    alloc: Global,
    core: &Core,
    x: VarName,
    out: &mut String,
) -> Result<(), AllocError>
    requires { IsSettled core.now.world core.now.notes }
    ensures { OnOk result ((text : List ℕ) × TellsWhyNot core.now.world (IsUnboundIn (value_at core.now.world.state.store) x) text × (string_bytes out.new ≡ string_bytes out.old ++ text)) }
{
    let first = unbound_in(alloc, core.store(), x)?;
    push_asked(alloc, core, &first, out)
}

/// Writes why nothing has bound what the goal of this name waits for at the end of `out`, as `push_why_not` does, with its failures
/// and costs. Nothing where it does not wait: that costs a look-up.
pub fn push_why_not_goal(
    alloc: Global,
    core: &Core,
    g: GoalName,
    out: &mut String,
) -> Result<(), AllocError>
    requires { IsSettled core.now.world core.now.notes }
    ensures { OnOk result ((text : List ℕ) × TellsWhyNot core.now.world (IsAwaitedBy core.now.world g) text × (string_bytes out.new ≡ string_bytes out.old ++ text)) }
{
    let Some(note) = core.tries().get(g) else {
        return Ok(());
    };
    match note.verdict() {
        Verdict::Waiting(awaited) => push_asked(alloc, core, awaited, out),
        Verdict::Ready => Ok(()),
        Verdict::Failed(_) => Ok(()),
    }
}
