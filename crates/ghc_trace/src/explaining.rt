// The texts of the steps of a slice, of the holders of a variable, and of a goal. Where one is refused, a part of it may stand
// written; of a goal's text none does.
ghost use Rattle.std.specs.Prelude.{◌≡◌, ◌≢◌, ◌⊎◌, ◌++◌, ℕ, None, Some, List, IfErr, OnErr, OnOk, drop, string_bytes};
ghost use Rattle.std.specs.FinMap as finite;
ghost use Rattle.ghc_term.specs.Lists.{In};
ghost use Rattle.ghc_records.specs.Record.{Record as record_spec};
ghost use Rattle.ghc_depend.specs.Depend.{IsKeptAs};
ghost use Rattle.ghc_hooks.specs.Status.{Status};
ghost use Rattle.ghc_trace.specs.declared.holding.Holder.{Holder as holder_spec};
ghost use Rattle.ghc_trace.specs.Explaining.{AreHolderLines, AreStepLines, holder_line, more_text, others_text, step_line};
ghost use Rattle.ghc_trace.specs.GoalLines.{IsGoalLineOf, IsTooLong};
ghost use Rattle.ghc_trace.specs.Laws.{IsSettled};
ghost use Rattle.ghc_trace.specs.News.{Stands};
ghost use Rattle.ghc_trace.specs.OtherClauses.{AreOtherClauses};

use crate::goal_lines::{write_line, write_status};
use crate::holding::Holder;
use crate::others::other_clauses;
use ghc_core::Core;
use ghc_records::{Record, push_goal_name, push_record};
use ghc_term::{Fault, Goal, GoalName, Limit, end_of, or_cut_back, push_number, push_variable};
use std::alloc::{AllocError, Global};

// Writes the clauses from this place on, each after a comma.
fn write_more(others: &[u32], from: usize, out: &mut String) -> Result<(), AllocError>
    ensures { OnOk result (string_bytes out.new ≡ string_bytes out.old ++ more_text (drop from others.now)) }
{
    let mut place = from;
    while place < others.len() {
        out.push_str(",")?;
        push_number(others[place], out)?;
        place += 1;
    }
    Ok(())
}

// Writes the other clauses after the text of a record.
fn write_others(others: &[u32], out: &mut String) -> Result<(), AllocError>
    ensures { OnOk result (string_bytes out.new ≡ string_bytes out.old ++ others_text others.now) }
{
    if others.is_empty() {
        return Ok(());
    }
    out.push_str(" or ")?;
    push_number(others[0], out)?;
    write_more(others, 1, out)
}

// Writes the line of a kept step, with the other clauses by which it could have been taken.
fn write_step(alloc: Global, core: &Core, step: &Record, out: &mut String) -> Result<(), AllocError>
    requires { In step.now core.now.world.kept }
    ensures { OnOk result ((others : List ℕ) × AreOtherClauses core.now.world step.now others × (string_bytes out.new ≡ string_bytes out.old ++ step_line step.now others)) }
{
    let others = other_clauses(alloc, core, step)?;
    push_record(step, out)?;
    write_others(others.as_slice(), out)?;
    out.push_str("\n")
}

/// Writes a line for each kept step of these numbers, in their order, at the end of `out`. A line is the record, and then the other
/// clauses by which the step could have been taken, as ` or 3,4`. It costs what `other_clauses` costs for each, and the text.
pub fn push_steps(
    alloc: Global,
    core: &Core,
    numbers: &[u32],
    out: &mut String,
) -> Result<(), AllocError>
    requires { (n : ℕ) → In n numbers.now → (r : record_spec) × IsKeptAs core.now.world.kept n r }
    ensures { OnOk result ((text : List ℕ) × AreStepLines core.now.world numbers.now text × (string_bytes out.new ≡ string_bytes out.old ++ text)) }
{
    let records = core.records();
    for number in numbers {
        let step = records.get(*number).unwrap();
        write_step(alloc, core, step, out)?;
    }
    Ok(())
}

// Writes the line of a holder.
fn write_holder(core: &Core, holder: Holder, out: &mut String) -> Result<(), AllocError>
    requires settled { IsSettled core.now.world core.now.notes }
    requires there { finite.get core.now.world.state.goals holder.goal ≢ None }
    ensures { OnOk result ((s : Status) × Stands core.now.world holder.goal s × (string_bytes out.new ≡ string_bytes out.old ++ holder_line holder s)) }
{
    let goal = core.goals().get(holder.goal).unwrap();
    push_variable(holder.variable, out)?;
    out.push_str(" in ")?;
    push_goal_name(holder.goal, out)?;
    out.push_str(" ")?;
    write_status(holder.goal, goal, core.tries(), out)?;
    out.push_str("\n")?;
    Ok(())
}

/// Writes a line for each of the holders, in their order, with the status of its goal, at the end of `out`, as `_0_1 in 0.3 waits _0_3`. It
/// costs two look-ups for each, and the text.
pub fn push_holders(core: &Core, holders: &[Holder], out: &mut String) -> Result<(), AllocError>
    requires settled { IsSettled core.now.world core.now.notes }
    requires there { (h : holder_spec) → In h holders.now → finite.get core.now.world.state.goals h.goal ≢ None }
    ensures { OnOk result ((text : List ℕ) × AreHolderLines core.now.world holders.now text × (string_bytes out.new ≡ string_bytes out.old ++ text)) }
{
    for holder in holders {
        write_holder(core, *holder, out)?;
    }
    Ok(())
}

/// Writes the line of the goal of this name at the end of `out`, with its status and its text in the store, as `goals` has it. It fails
/// where memory is refused, or else, by the limit `print`, exactly where that text has more than `PRINT_LIMIT` bytes. Then `out` stays as
/// it was. It costs some look-ups, and what `print_goal` costs.
pub fn push_goal(
    alloc: Global,
    core: &Core,
    name: GoalName,
    goal: &Goal,
    out: &mut String,
) -> Result<(), Fault>
    requires settled { IsSettled core.now.world core.now.notes }
    requires there { finite.get core.now.world.state.goals name ≡ Some goal.now }
    ensures text { OnOk result ((line : List ℕ) × IsGoalLineOf core.now.world name goal.now line × (string_bytes out.new ≡ string_bytes out.old ++ line)) }
    ensures short { OnOk result (¬ IsTooLong core.now.world.state.store goal.now) }
    ensures err { OnErr result (string_bytes out.new ≡ string_bytes out.old) }
    ensures refused { IfErr result (λ fault. (fault ≡ Fault.Memory) ⊎ (fault ≡ Fault.Limit Limit.Print)) }
    ensures too_long { result ≡ Err (Fault.Limit Limit.Print) → IsTooLong core.now.world.state.store goal.now }
{
    let length = end_of(out);
    match write_line(alloc, name, goal, core.tries(), core.store(), out) {
        Ok(()) => Ok(()),
        Err(fault) => {
            let _ = or_cut_back(out, length, Err(AllocError));
            Err(fault)
        }
    }
}
