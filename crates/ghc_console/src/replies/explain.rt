// The reply that tells where the value of a variable comes from.
ghost use Rattle.std.specs.Prelude.{◌≡◌, ◌++◌, ◌≤◌, [], List, ℕ, OnOk, length, string_bytes};
ghost use Rattle.ghc_term.specs.Tree.{variable};
ghost use Rattle.ghc_term.specs.Store.{value_at};
ghost use Rattle.ghc_term.specs.Resolved.{IsTextOf};
ghost use Rattle.ghc_core.specs.Settling.{AreKept};
ghost use Rattle.ghc_trace.specs.Laws.{IsSettled};
ghost use Rattle.ghc_console.specs.Explaining.{RepliesToExplain, steps_line};
ghost use Rattle.ghc_trace.specs.GoalLines.{print_limit};
ghost use Rattle.ghc_console.specs.VariableNamed.{IsVariableNamed};

use crate::count_text::push_count;
use crate::replies::found::value_named;
use crate::replies::settled::settle;
use crate::replies::{refused, shown};
use ghc_core::Core;
use ghc_term::VarName;
use ghc_trace::{holders, push_holders, push_steps, slice_of};
use std::alloc::{AllocError, Global};

// The line that says how many of the kept steps the slice has.
pub(crate) fn push_steps_line(
    core: &Core,
    slice: &[u32],
    reply: &mut String,
) -> Result<(), AllocError>
    ensures { OnOk result (string_bytes reply.new ≡ string_bytes reply.old ++ steps_line slice.now core.now.world.kept) }
{
    reply.push_str("steps ")?;
    push_count(slice.len(), reply)?;
    reply.push_str(" of ")?;
    push_count(core.records().len(), reply)?;
    reply.push_str("\n")?;
    Ok(())
}

// Tells where the value comes from, which the word names and the text says.
fn told(
    alloc: Global,
    core: &Core,
    x: VarName,
    word: &str,
    term: &str,
    reply: &mut String,
) -> Result<(), AllocError>
    requires empty { string_bytes reply.old ≡ [] }
    requires settled { IsSettled core.now.world core.now.notes }
    requires named { IsVariableNamed core.now.world word.now x }
    requires text { IsTextOf (value_at core.now.world.state.store) (variable x) term.now }
    requires short { length term.now ≤ print_limit }
    ensures { OnOk result (RepliesToExplain core.now.world word.now (string_bytes reply.new)) }
{
    let slice = slice_of(alloc, core, x)?;
    let held = holders(alloc, core, x)?;
    shown(word, term, reply)?;
    push_holders(core, held.as_slice(), reply)?;
    push_steps(alloc, core, slice.as_slice(), reply)?;
    push_steps_line(core, slice.as_slice(), reply)?;
    Ok(())
}

/// Tells the term to which the variable leads that the word names, or the refusal. For each unbound variable of it come the goals that
/// hold it, with their status. Then come the kept steps to which it owes its term, in recorded order, each with the other clauses by
/// which it could have been, and how many of the kept steps these are. What is untried is tried first. It costs what `print`, `slice_of`,
/// `holders` and `push_steps` cost.
#[inline(never)]
pub fn explain(
    alloc: Global,
    core: &mut Core,
    word: &str,
    reply: &mut String,
) -> Result<(), AllocError>
    requires { string_bytes reply.old ≡ [] }
    ensures text { OnOk result (RepliesToExplain core.old.world word.now (string_bytes reply.new)) }
    ensures world { core.new.world ≡ core.old.world }
    ensures kept { AreKept core.old.notes core.new.notes }
    ensures firings { core.new.meter.firings ≡ core.old.meter.firings }
{
    settle(alloc, core)?;
    match value_named(alloc, core, word) {
        Ok((x, term)) => told(alloc, core, x, word, term.as_str(), reply),
        Err(fault) => refused(&fault, reply),
    }
}
