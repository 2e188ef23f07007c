// The lines of the steps that lost variables. Where memory is refused, a part of them may stand written.
ghost use Rattle.std.specs.Prelude.{◌≡◌, ◌⊎◌, ◌↔◌, ◌++◌, ℕ, List, IfOk, IsTrue, OnOk, string_bytes};
ghost use Rattle.ghc_term.specs.declared.var_name.VarName.{VarName as var_name};
ghost use Rattle.ghc_term.specs.Store.{value_at};
ghost use Rattle.ghc_fire.specs.declared.act.Act.TheVariants.{ByClause as by_clause};
ghost use Rattle.ghc_records.specs.Orders.{Picks};
ghost use Rattle.ghc_records.specs.Record.{Record as record_spec};
ghost use Rattle.ghc_trace.specs.WhyNot.{AreLostLines, HasLost, lost_line, lost_lines};
ghost use Rattle.ghc_trace.specs.inner.Backward.{AreAllParents};
ghost use Rattle.ghc_trace.specs.inner.WhyNotCode.{AreByName, LetsGoOf};

use crate::backward::{all_parents, ancestors_of};
use crate::step_goals::push_step_with_goal;
use crate::written_in::{goal_has_one_of, some_has_one_of};
use ghc_core::Core;
use ghc_fire::Act;
use ghc_records::{Record, Records};
use ghc_term::{VarName, Variables, push_variable};
use std::alloc::{AllocError, Global};
use std::collections::{BTreeMap, BTreeSet};

// Whether the step is by a clause.
fn is_by_clause(step: &Record) -> bool
    ensures { IsTrue result ↔ ((k : ℕ) × (step.now.act ≡ by_clause k)) }
{
    match step.act() {
        Act::ByClause(_) => true,
        _ => false,
    }
}

// Whether the step took, by a clause, a goal in which a variable of the set stands, and made none in which one does.
fn lets_go_of(alloc: Global, step: &Record, xs: &Variables) -> Result<bool, AllocError>
    ensures { IfOk result (λ lets_go. IsTrue lets_go ↔ LetsGoOf xs.now step.now) }
{
    if !is_by_clause(step) {
        return Ok(false);
    }
    let Some(taken) = step.consumed() else {
        return Ok(false);
    };
    let has = goal_has_one_of(alloc, taken, xs)?;
    if !has {
        return Ok(false);
    }
    let is_given_on = some_has_one_of(alloc, step.effect().makes(), xs)?;
    Ok(!is_given_on)
}

// Writes the line of a variable with a step that lost it.
fn write_lost(lost: VarName, step: &Record, out: &mut String) -> Result<(), AllocError>
    ensures { OnOk result (string_bytes out.new ≡ string_bytes out.old ++ lost_line lost step.now) }
{
    push_variable(lost, out)?;
    out.push_str(" lost by ")?;
    push_step_with_goal(step, out)?;
    out.push_str("\n")?;
    Ok(())
}

// Writes the line if the step lets go of the set.
fn write_if_lost(
    alloc: Global,
    lost: VarName,
    step: &Record,
    xs: &Variables,
    out: &mut String,
) -> Result<(), AllocError>
    ensures { OnOk result ((LetsGoOf xs.now step.now × (string_bytes out.new ≡ string_bytes out.old ++ lost_line lost step.now)) ⊎ ((¬ LetsGoOf xs.now step.now) × (string_bytes out.new ≡ string_bytes out.old))) }
{
    let is_lost = lets_go_of(alloc, step, xs)?;
    if !is_lost {
        return Ok(());
    }
    write_lost(lost, step, out)?;
    Ok(())
}

// Writes a line for each record that lets go of the set, in recorded order: one pass over the records, with a look-up for each variable
// that stands in what a step by a clause took and made.
fn write_steps(
    alloc: Global,
    records: &Records,
    lost: VarName,
    xs: &Variables,
    out: &mut String,
) -> Result<(), AllocError>
    ensures { OnOk result ((steps : List record_spec) × Picks (LetsGoOf xs.now) records.now.held steps × (string_bytes out.new ≡ string_bytes out.old ++ lost_lines lost steps)) }
{
    let _count = records.len();
    for place in 0..records.places() {
        if let Some(step) = records.at(place) {
            write_if_lost(alloc, lost, step, xs, out)?;
        }
    }
    Ok(())
}

// Writes a line for each kept step that lost the variable, in recorded order.
fn write_lost_of(
    alloc: Global,
    core: &Core,
    parents: &BTreeMap<VarName, Vec<VarName>>,
    lost: VarName,
    out: &mut String,
) -> Result<(), AllocError>
    requires { AreAllParents (value_at core.now.world.state.store) parents.now }
    ensures { OnOk result ((steps : List record_spec) × Picks (HasLost core.now.world lost) core.now.world.kept steps × (string_bytes out.new ≡ string_bytes out.old ++ lost_lines lost steps)) }
{
    let reaching = ancestors_of(alloc, parents, &[lost])?;
    write_steps(alloc, core.records(), lost, &reaching, out)
}

// The variables of the set, by name.
fn by_name(alloc: Global, xs: &Variables) -> Result<BTreeSet<VarName>, AllocError>
    ensures { IfOk result (λ names. AreByName xs.now names.keys) }
{
    let mut names = BTreeSet::new(alloc);
    for x in xs.members() {
        names.insert(*x)?;
    }
    let _count = names.len();
    Ok(names)
}

// Writes a line for each of the variables with each kept step that lost it: by variable, then in recorded order. It goes once through
// the store, and then for each variable through the variables that reach it, and over the kept steps, with a look-up for each variable
// that stands in what a step by a clause took and made.
pub(crate) fn write_all_lost(
    alloc: Global,
    core: &Core,
    lost: &Variables,
    out: &mut String,
) -> Result<(), AllocError>
    ensures { OnOk result ((ys : List var_name) × (text : List ℕ) × AreByName lost.now ys × AreLostLines core.now.world ys text × (string_bytes out.new ≡ string_bytes out.old ++ text)) }
{
    let parents = all_parents(alloc, core)?;
    let names = by_name(alloc, lost)?;
    for name in &names {
        write_lost_of(alloc, core, &parents, *name, out)?;
    }
    Ok(())
}
