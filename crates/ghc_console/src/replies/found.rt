// What a reply is about: the variable that a word names, or the goal of a name. It is told first, or refused.
ghost use Rattle.std.specs.Prelude.{◌≡◌, ◌⊎◌, ◌++◌, ◌≤◌, List, ℕ, IfErr, IfOk, OnErr, Some, length, string_bytes};
ghost use Rattle.std.specs.FinMap as finite;
ghost use Rattle.ghc_term.specs.Tree.{variable};
ghost use Rattle.ghc_term.specs.Store.{value_at};
ghost use Rattle.ghc_term.specs.Resolved.{IsTextOf};
ghost use Rattle.ghc_trace.specs.GoalLines.{IsGoalLineOf, IsTooLong, print_limit};
ghost use Rattle.ghc_trace.specs.Laws.{IsSettled};
ghost use Rattle.ghc_console.specs.VariableNamed.{IsVariableNamed};
ghost use Rattle.ghc_console.specs.inner.Found.{IsGoalRefusal, IsValueRefusal};

use crate::named_variable::variable_named;
use ghc_core::Core;
use ghc_term::{Fault, Goal, GoalName, Term, VarName, print};
use ghc_trace::push_goal;
use std::alloc::Global;

/// The variable that the word names, and the text of the term to which it leads. It refuses with `NoVariable` where the word names
/// none, then with the limit `print`; or with F1. It costs what `variable_named` and `print` cost.
pub fn value_named(alloc: Global, core: &Core, word: &str) -> Result<(VarName, String), Fault>
    ensures named { IfOk result (λ found. IsVariableNamed core.now.world word.now found.0) }
    ensures text { IfOk result (λ found. IsTextOf (value_at core.now.world.state.store) (variable found.0) (string_bytes found.1)) }
    ensures short { IfOk result (λ found. length (string_bytes found.1) ≤ print_limit) }
    ensures refused { IfErr result (λ fault. (fault ≡ Fault.Memory) ⊎ IsValueRefusal core.now.world word.now fault) }
{
    let Some(x) = variable_named(core, word.as_bytes()) else {
        return Err(Fault::NoVariable);
    };
    let variable = Term::variable(x);
    match print(alloc, &variable, core.store()) {
        Ok(text) => Ok((x, text)),
        Err(fault) => Err(fault),
    }
}

/// Tells the goal of this name as `goals` does, and gives it. It refuses with `NoGoal` where there is none, then with the limit
/// `print`; or with F1. A refusal leaves the text as it was. It costs what `push_goal` costs.
pub fn push_goal_named<'a>(
    alloc: Global,
    core: &'a Core,
    name: GoalName,
    reply: &mut String,
) -> Result<&'a Goal, Fault>
    requires settled { IsSettled core.now.world core.now.notes }
    ensures there { IfOk result (λ goal. finite.get core.now.world.state.goals name ≡ Some goal.now) }
    ensures told { IfOk result (λ goal. (line : List ℕ) × IsGoalLineOf core.now.world name goal.now line × (string_bytes reply.new ≡ string_bytes reply.old ++ line)) }
    ensures short { IfOk result (λ goal. ¬ IsTooLong core.now.world.state.store goal.now) }
    ensures err { OnErr result (string_bytes reply.new ≡ string_bytes reply.old) }
    ensures refused { IfErr result (λ fault. (fault ≡ Fault.Memory) ⊎ IsGoalRefusal core.now.world name fault) }
{
    let Some(goal) = core.goals().get(name) else {
        return Err(Fault::NoGoal);
    };
    match push_goal(alloc, core, name, goal, reply) {
        Ok(()) => Ok(goal),
        Err(fault) => Err(fault),
    }
}
