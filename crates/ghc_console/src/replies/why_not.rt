// The replies that tell why a variable is not bound, or why a goal waits.
ghost use Rattle.std.specs.Prelude.{◌≡◌, ◌≤◌, [], OnOk, length, string_bytes};
ghost use Rattle.ghc_term.specs.Tree.{variable};
ghost use Rattle.ghc_term.specs.Store.{value_at};
ghost use Rattle.ghc_term.specs.Resolved.{IsTextOf};
ghost use Rattle.ghc_core.specs.Settling.{AreKept};
ghost use Rattle.ghc_trace.specs.Laws.{IsSettled};
ghost use Rattle.ghc_trace.specs.GoalLines.{print_limit};
ghost use Rattle.ghc_console.specs.VariableNamed.{IsVariableNamed};
ghost use Rattle.ghc_console.specs.WhyNot.{RepliesToWhyNot, RepliesToWhyNotGoal};

use crate::replies::found::{push_goal_named, value_named};
use crate::replies::settled::settle;
use crate::replies::{refused, shown};
use ghc_core::Core;
use ghc_term::{GoalName, VarName};
use ghc_trace::{push_why_not, push_why_not_goal};
use std::alloc::{AllocError, Global};

// Tells why the variables of the term are not bound, which the word names and the text says.
fn told(
    alloc: Global,
    core: &Core,
    x: VarName,
    word: &str,
    term: &str,
    reply: &mut String,
) -> Result<(), AllocError>
    requires empty { string_bytes reply.old ≡ [] }
    requires settled { IsSettled core.now.world core.now.notes }
    requires named { IsVariableNamed core.now.world word.now x }
    requires text { IsTextOf (value_at core.now.world.state.store) (variable x) term.now }
    requires short { length term.now ≤ print_limit }
    ensures { OnOk result (RepliesToWhyNot core.now.world word.now (string_bytes reply.new)) }
{
    shown(word, term, reply)?;
    push_why_not(alloc, core, x, reply)
}

/// Tells the term to which the variable leads that the word names, or the refusal. Where the term has unbound variables, it asks why
/// they are not bound, and so why those are not for which goals wait that reach one asked about. For each comes a line for each goal that
/// reaches it, with its status; then a line for each kept step that lost it; and last whether a goal may still bind one. What is untried
/// is tried first. It costs what `print` and `push_why_not` cost.
#[inline(never)]
pub fn why_not(
    alloc: Global,
    core: &mut Core,
    word: &str,
    reply: &mut String,
) -> Result<(), AllocError>
    requires { string_bytes reply.old ≡ [] }
    ensures text { OnOk result (RepliesToWhyNot core.old.world word.now (string_bytes reply.new)) }
    ensures world { core.new.world ≡ core.old.world }
    ensures kept { AreKept core.old.notes core.new.notes }
    ensures firings { core.new.meter.firings ≡ core.old.meter.firings }
{
    settle(alloc, core)?;
    match value_named(alloc, core, word) {
        Ok((x, term)) => told(alloc, core, x, word, term.as_str(), reply),
        Err(fault) => refused(&fault, reply),
    }
}

/// Tells the goal of this name as `goals` does, and why the variables for which it waits are not bound, as `why_not` does; or the
/// refusal. What is untried is tried first. It costs what `print_goal` and `push_why_not_goal` cost.
#[inline(never)]
pub fn why_not_goal(
    alloc: Global,
    core: &mut Core,
    name: GoalName,
    reply: &mut String,
) -> Result<(), AllocError>
    requires { string_bytes reply.old ≡ [] }
    ensures text { OnOk result (RepliesToWhyNotGoal core.old.world name (string_bytes reply.new)) }
    ensures world { core.new.world ≡ core.old.world }
    ensures kept { AreKept core.old.notes core.new.notes }
    ensures firings { core.new.meter.firings ≡ core.old.meter.firings }
{
    settle(alloc, core)?;
    match push_goal_named(alloc, core, name, reply) {
        Ok(_goal) => push_why_not_goal(alloc, core, name, reply),
        Err(fault) => refused(&fault, reply),
    }
}
