// What a change tells of goals that waited, wait or have failed. Where memory is refused, what `write_..` writes may be a part
// of its text.
ghost use Rattle.std.specs.Prelude.{◌≡◌, ◌↔◌, ◌++◌, ◌∷◌, [], List, map, IfSome, IfNone, OnOk, OnErr, IsTrue, string_bytes};
ghost use Rattle.std.specs.FinMap as finite;
ghost use Rattle.std.specs.FinSet as set;
ghost use Rattle.std.specs.Io.{StartsWith};
ghost use Rattle.ghc_term.specs.declared.var_name.VarName.{VarName as var_name};
ghost use Rattle.ghc_term.specs.declared.goal_name.GoalName.{GoalName as goal_name};
ghost use Rattle.ghc_hooks.specs.Verdict.{status_of};
ghost use Rattle.ghc_trace.specs.Ports.{resumed};
ghost use Rattle.ghc_trace.specs.PortText.{ports_text};
ghost use Rattle.ghc_trace.specs.News.{Standing, news_text};
ghost use Rattle.ghc_trace.specs.Disturbed.{WaitsWhereBound, AreResumedBy, IsStuckOtherwise, AreStuckOtherwise, status_by};
ghost use Rattle.ghc_trace.specs.inner.NewsCode.{AddsResumed, AddsNews};

use crate::disturbed::Disturbed;
use crate::port::{Port, push_port};
use crate::status_text::write_news;
use crate::stuck::{Stuck, stands_so};
use ghc_hooks::{Tries, Verdict};
use ghc_records::Record;
use ghc_term::{Bindings, GoalName, Variables, end_of, or_cut_back};
use std::alloc::AllocError;

// Whether one of the variables is bound here: one look-up for each.
fn binds_one_of(binds: &Bindings, xs: &Variables) -> bool
    ensures { IsTrue result ↔ ((x : var_name) × IsTrue (set.contains xs.now x) × IsTrue (finite.contains_key binds.now x)) }
{
    for x in xs.members() {
        if binds.get(*x).is_some() {
            return true;
        }
    }
    false
}

// Whether a goal that is stuck so waits for a variable that the step binds.
fn waits_where_bound(step: &Record, before: &Option<Stuck>) -> bool
    ensures { IsTrue result ↔ WaitsWhereBound step.now before.now }
{
    match before {
        Some(Stuck::Waiting(awaited)) => binds_one_of(step.effect().binds(), awaited),
        _ => false,
    }
}

// Writes that the goal is resumed.
fn write_resumed(goal: GoalName, out: &mut String) -> Result<(), AllocError>
    ensures text { OnOk result (string_bytes out.new ≡ string_bytes out.old ++ ports_text (resumed goal ∷ [])) }
    ensures begun { StartsWith (string_bytes out.new) (string_bytes out.old) }
{
    push_port(&Port::Resumed(goal), out)?;
    out.push_str("\n")
}

// Writes of each goal that it is resumed, where it waits for a variable that the step binds.
fn write_each_resumed(
    goals: &[(GoalName, Option<Stuck>)],
    step: &Record,
    out: &mut String,
) -> Result<(), AllocError>
    ensures text { OnOk result (AddsResumed step.now goals.now (string_bytes out.old) (string_bytes out.new)) }
    ensures begun { StartsWith (string_bytes out.new) (string_bytes out.old) }
{
    for (goal, before) in goals {
        if waits_where_bound(step, before) {
            write_resumed(*goal, out)?;
        }
    }
    Ok(())
}

// The verdict of the goal by its note, where the goal is stuck and was not stuck so before: a look-up, and two for each variable
// for which it waits.
fn news_of<'a>(tries: &'a Tries, goal: GoalName, before: &Option<Stuck>) -> Option<&'a Verdict>
    ensures some { IfSome result (λ v. IsStuckOtherwise before.now (finite.get tries.now.notes goal)) }
    ensures status { IfSome result (λ v. status_of v.now ≡ status_by (finite.get tries.now.notes goal)) }
    ensures none { IfNone result (¬ IsStuckOtherwise before.now (finite.get tries.now.notes goal)) }
{
    let verdict = tries.get(goal)?.verdict();
    if let Verdict::Ready = verdict {
        return None;
    }
    if stands_so(before, verdict) {
        return None;
    }
    Some(verdict)
}

// Writes of each goal how it is stuck, where it is stuck otherwise by its note.
fn write_each_news(
    goals: &[(GoalName, Option<Stuck>)],
    tries: &Tries,
    out: &mut String,
) -> Result<(), AllocError>
    ensures text { OnOk result (AddsNews tries.now.notes goals.now (string_bytes out.old) (string_bytes out.new)) }
    ensures begun { StartsWith (string_bytes out.new) (string_bytes out.old) }
{
    for (goal, before) in goals {
        if let Some(verdict) = news_of(tries, *goal, before) {
            write_news(*goal, verdict, out)?;
        }
    }
    Ok(())
}

impl Disturbed {
    /// Writes the port `RESU` of each goal that waited for a variable that the step binds, by name, a line each, at the end of `out`.
    /// Where memory is refused, `out` stays as it was. It costs the text, and one look-up for each variable for which a goal waited.
    pub fn push_resumed(&self, step: &Record, out: &mut String) -> Result<(), AllocError>
        ensures ok { OnOk result ((names : List goal_name) × AreResumedBy step.now self.now names × (string_bytes out.new ≡ string_bytes out.old ++ ports_text (map resumed names))) }
        ensures err { OnErr result (string_bytes out.new ≡ string_bytes out.old) }
    {
        let length = end_of(out);
        let written = write_each_resumed(&self.goals, step, out);
        or_cut_back(out, length, written)
    }

    /// Writes the line of each goal that is stuck by its note otherwise than it was before the change, by name, at the end of `out`:
    /// `SUSP 0.1 _0_1,_0_2` or `FAIL 0.1 F10`. Where memory is refused, `out` stays as it was. It costs the text, and a few look-ups
    /// for each goal and each variable for which it waits.
    pub fn push_news(&self, tries: &Tries, out: &mut String) -> Result<(), AllocError>
        ensures ok { OnOk result ((news : List Standing) × AreStuckOtherwise tries.now.notes self.now news × (string_bytes out.new ≡ string_bytes out.old ++ news_text news)) }
        ensures err { OnErr result (string_bytes out.new ≡ string_bytes out.old) }
    {
        let length = end_of(out);
        let written = write_each_news(&self.goals, tries, out);
        or_cut_back(out, length, written)
    }
}
