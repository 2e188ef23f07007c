// The texts of steps and of records. Where memory is refused, what `write_..` writes may be a part of its text.
ghost use Rattle.std.specs.Prelude.{◌≡◌, ◌++◌, List, ℕ, map, IfOk, OnOk, is_ok, if◌then◌else◌, string_bytes};
ghost use Rattle.std.specs.FinSet as set;
ghost use Rattle.std.specs.FinMap as finite;
ghost use Rattle.std.specs.Io.{StartsWith};
ghost use Rattle.ghc_records.specs.Journal.{step_of};
ghost use Rattle.ghc_records.specs.StepText.{goal_name_text, body_text, act_text, consumed_text, step_text, by_name, variables_text, binding_text, bindings_text, makes_text, record_text};

use crate::record::Record;
use crate::step::Step;
use ghc_fire::{Act, Effect};
use ghc_term::{
    Bindings, Goal, GoalName, Term, VarName, Variables, end_of, or_cut_back, push_goal_written,
    push_number, push_variable, push_written,
};
use std::alloc::{AllocError, Global};
use std::collections::{BTreeMap, BTreeSet};

// Writes the name of a goal.
#[inline(always)]
fn write_goal_name(name: GoalName, out: &mut String) -> Result<(), AllocError>
    ensures text { OnOk result (string_bytes out.new ≡ string_bytes out.old ++ goal_name_text name) }
    ensures begun { StartsWith (string_bytes out.new) (string_bytes out.old) }
{
    push_number(name.step, out)?;
    out.push_str(".")?;
    push_number(name.place, out)
}

/// Writes the name of a goal at the end of `out`, `n.m`, which stays as it was where memory is refused: one step.
pub fn push_goal_name(name: GoalName, out: &mut String) -> Result<(), AllocError>
    ensures { string_bytes out.new ≡ (if is_ok result then string_bytes out.old ++ goal_name_text name else string_bytes out.old) }
{
    let length = end_of(out);
    let written = write_goal_name(name, out);
    or_cut_back(out, length, written)
}

/// Writes goals as they are written, with a comma and a space between them, and `true` where there is none.
pub(crate) fn write_body(goals: &[Goal], out: &mut String) -> Result<(), AllocError>
    ensures text { OnOk result (string_bytes out.new ≡ string_bytes out.old ++ body_text goals.now) }
    ensures begun { StartsWith (string_bytes out.new) (string_bytes out.old) }
{
    if goals.is_empty() {
        return out.push_str("true");
    }
    let mut mark = "";
    for goal in goals {
        out.push_str(mark)?;
        push_goal_written(goal, out)?;
        mark = ", ";
    }
    Ok(())
}

// Writes an act.
fn write_act(act: &Act, out: &mut String) -> Result<(), AllocError>
    ensures text { OnOk result (string_bytes out.new ≡ string_bytes out.old ++ act_text act.now) }
    ensures begun { StartsWith (string_bytes out.new) (string_bytes out.old) }
{
    match act {
        Act::ByClause(number) => {
            out.push_str("by ")?;
            push_number(*number, out)
        }
        Act::Unified => out.push_str("eq"),
        Act::Assigned => out.push_str("is"),
        Act::Given(input) => {
            out.push_str("in ")?;
            push_written(input.as_term(), out)
        }
        Act::Closed => out.push_str("end"),
        Act::Asked(asked) => {
            out.push_str("ask ")?;
            write_body(asked.goals(), out)
        }
    }
}

// Writes the name of the goal that a step consumed, or `-` where it consumed none, and a space after it.
fn write_consumed(goal: Option<GoalName>, out: &mut String) -> Result<(), AllocError>
    ensures text { OnOk result (string_bytes out.new ≡ string_bytes out.old ++ consumed_text goal) }
    ensures begun { StartsWith (string_bytes out.new) (string_bytes out.old) }
{
    match goal {
        Some(name) => {
            write_goal_name(name, out)?;
            out.push_str(" ")
        }
        None => out.push_str("- "),
    }
}

// Writes the step of these parts.
fn write_step(
    number: u32,
    goal: Option<GoalName>,
    act: &Act,
    out: &mut String,
) -> Result<(), AllocError>
    ensures text { OnOk result (string_bytes out.new ≡ string_bytes out.old ++ step_text (record { number = number; goal = goal; act = act.now })) }
    ensures begun { StartsWith (string_bytes out.new) (string_bytes out.old) }
{
    push_number(number, out)?;
    out.push_str(" ")?;
    write_consumed(goal, out)?;
    write_act(act, out)
}

/// Writes a step at the end of `out`, which stays as it was where memory is refused, as `1 0.1 by 2`. The cost is that of
/// the text.
pub fn push_journal_step(step: &Step, out: &mut String) -> Result<(), AllocError>
    ensures { string_bytes out.new ≡ (if is_ok result then string_bytes out.old ++ step_text step.now else string_bytes out.old) }
{
    let length = end_of(out);
    let written = write_step(step.number(), step.goal(), step.act(), out);
    or_cut_back(out, length, written)
}

/// Writes the step of a record at the end of `out`, which stays as it was where memory is refused, as `1 0.1 by 2`. The
/// cost is that of the text.
pub fn push_step(taken: &Record, out: &mut String) -> Result<(), AllocError>
    ensures { string_bytes out.new ≡ (if is_ok result then string_bytes out.old ++ step_text (step_of taken.now) else string_bytes out.old) }
{
    let length = end_of(out);
    let written = write_step(taken.number(), taken.goal(), taken.act(), out);
    or_cut_back(out, length, written)
}

// The variables of a set by step, then place.
fn in_order(alloc: Global, xs: &Variables) -> Result<BTreeSet<VarName>, AllocError>
    ensures { IfOk result (λ names. names.keys ≡ by_name (set.items xs.now)) }
{
    let mut names = BTreeSet::new(alloc);
    for x in xs.members() {
        names.insert(*x)?;
    }
    let _count = names.len();
    Ok(names)
}

// Writes the variables of a set, as `_0_1,_0_2`, and `-` where there is none.
fn write_variables(xs: &Variables, out: &mut String) -> Result<(), AllocError>
    ensures text { OnOk result (string_bytes out.new ≡ string_bytes out.old ++ variables_text xs.now) }
    ensures begun { StartsWith (string_bytes out.new) (string_bytes out.old) }
{
    let names = in_order(*out.allocator(), xs)?;
    if names.is_empty() {
        return out.push_str("-");
    }
    let mut mark = "";
    for name in &names {
        out.push_str(mark)?;
        push_variable(*name, out)?;
        mark = ",";
    }
    Ok(())
}

/// Writes the variables of a set at the end of `out`, which stays as it was where memory is refused, as `_0_1,_0_2` by step,
/// then place, and `-` where there is none. The cost is that of the text, and what it takes to put them in order.
pub fn push_variables(xs: &Variables, out: &mut String) -> Result<(), AllocError>
    ensures { string_bytes out.new ≡ (if is_ok result then string_bytes out.old ++ variables_text xs.now else string_bytes out.old) }
{
    let length = end_of(out);
    let written = write_variables(xs, out);
    or_cut_back(out, length, written)
}

// Bindings by their variables, by step, then place.
fn by_variable<'a>(
    alloc: Global,
    binds: &'a Bindings,
) -> Result<BTreeMap<VarName, &'a Term>, AllocError>
    ensures { IfOk result (λ m. map (λ b. (b.0, b.1.now)) m.entries ≡ finite.entries binds.now) }
{
    let mut ordered = BTreeMap::new(alloc);
    for (x, value) in binds.entries() {
        ordered.insert(*x, value)?;
    }
    let _count = ordered.len();
    Ok(ordered)
}

// Writes a binding, as `_0_1=[1|_1_1]`.
fn write_binding(x: VarName, value: &Term, out: &mut String) -> Result<(), AllocError>
    ensures text { OnOk result (string_bytes out.new ≡ string_bytes out.old ++ binding_text (x, value.now)) }
    ensures begun { StartsWith (string_bytes out.new) (string_bytes out.old) }
{
    push_variable(x, out)?;
    out.push_str("=")?;
    push_written(value, out)
}

// Writes bindings, as `_0_1=a;_0_2=b`, and `-` where there is none.
fn write_bindings(binds: &Bindings, out: &mut String) -> Result<(), AllocError>
    ensures text { OnOk result (string_bytes out.new ≡ string_bytes out.old ++ bindings_text binds.now) }
    ensures begun { StartsWith (string_bytes out.new) (string_bytes out.old) }
{
    let ordered = by_variable(*out.allocator(), binds)?;
    if ordered.is_empty() {
        return out.push_str("-");
    }
    let mut mark = "";
    for (x, value) in &ordered {
        out.push_str(mark)?;
        write_binding(*x, *value, out)?;
        mark = ";";
    }
    Ok(())
}

// Writes the names of the goals that step `number` makes, as `1.1,1.2`, and `-` where there is none.
fn write_makes(number: u32, effect: &Effect, out: &mut String) -> Result<(), AllocError>
    ensures text { OnOk result (string_bytes out.new ≡ string_bytes out.old ++ makes_text number effect.now.makes) }
    ensures begun { StartsWith (string_bytes out.new) (string_bytes out.old) }
{
    let count = effect.made();
    if count == 0 {
        return out.push_str("-");
    }
    let mut mark = "";
    for index in 0..count {
        let place = index + 1;
        out.push_str(mark)?;
        write_goal_name(
            GoalName {
                step: number,
                place,
            },
            out,
        )?;
        mark = ",";
    }
    Ok(())
}

// Writes a record.
fn write_record(taken: &Record, out: &mut String) -> Result<(), AllocError>
    ensures text { OnOk result (string_bytes out.new ≡ string_bytes out.old ++ record_text taken.now) }
    ensures begun { StartsWith (string_bytes out.new) (string_bytes out.old) }
{
    write_step(taken.number(), taken.goal(), taken.act(), out)?;
    let effect = taken.effect();
    out.push_str(" reads ")?;
    write_variables(effect.reads(), out)?;
    out.push_str(" binds ")?;
    write_bindings(effect.binds(), out)?;
    out.push_str(" makes ")?;
    write_makes(taken.number(), effect, out)
}

/// Writes a record at the end of `out`, which stays as it was where memory is refused, as
/// `1 0.1 by 2 reads - binds - makes 1.1,1.2`. The cost is that of the text, and what it takes to put its variables in
/// order.
pub fn push_record(taken: &Record, out: &mut String) -> Result<(), AllocError>
    ensures { string_bytes out.new ≡ (if is_ok result then string_bytes out.old ++ record_text taken.now else string_bytes out.old) }
{
    let length = end_of(out);
    let written = write_record(taken, out);
    or_cut_back(out, length, written)
}
