// The text of all goals, a line for each. Where it is refused, what `write_..` writes may be a part of its text.
ghost use Rattle.std.specs.Prelude.{◌≡◌, ◌++◌, ◌⊎◌, ℕ, List, map, IfErr, OnOk, OnErr, string_bytes};
ghost use Rattle.std.specs.Io.{StartsWith};
ghost use Rattle.ghc_term.specs.declared.goal_name.GoalName.{GoalName as goal_name};
ghost use Rattle.ghc_term.specs.Lists.{In};
ghost use Rattle.ghc_hooks.specs.Status.{Status};
ghost use Rattle.ghc_hooks.specs.Notes.{IsUntried};
ghost use Rattle.ghc_trace.specs.News.{status_text};
ghost use Rattle.ghc_trace.specs.GoalLines.{Named, StandsByNote, AreLinesByNotes, IsTooLong, HasTooLong};
ghost use Rattle.ghc_trace.specs.inner.GoalLinesCode.{IsKnown, AddsLine, AddsLines, lent};

use crate::status_text::push_status;
use ghc_core::is_stream;
use ghc_fire::Goals;
use ghc_hooks::Tries;
use ghc_records::push_goal_name;
use ghc_term::{Fault, Goal, GoalName, Limit, Store, end_of, or_cut_back, print_goal};
use std::alloc::{AllocError, Global};
use std::collections::BTreeMap;

// Writes the status of a goal: that of its note, or that it is a stream.
pub(crate) fn write_status(
    name: GoalName,
    goal: &Goal,
    tries: &Tries,
    out: &mut String,
) -> Result<(), AllocError>
    requires { IsKnown tries.now.notes (name, goal.now) }
    ensures text { OnOk result ((s : Status) × StandsByNote tries.now.notes (name, goal.now) s × (string_bytes out.new ≡ string_bytes out.old ++ status_text s)) }
    ensures begun { StartsWith (string_bytes out.new) (string_bytes out.old) }
{
    if is_stream(goal) {
        out.push_str("stream")?;
        return Ok(());
    }
    let note = tries.get(name).unwrap();
    push_status(note.verdict(), out)?;
    Ok(())
}

// Writes the line of a goal.
pub(crate) fn write_line(
    alloc: Global,
    name: GoalName,
    goal: &Goal,
    tries: &Tries,
    store: &Store,
    out: &mut String,
) -> Result<(), Fault>
    requires { IsKnown tries.now.notes (name, goal.now) }
    ensures text { OnOk result (AddsLine tries.now.notes store.now.held (name, goal.now) (string_bytes out.old) (string_bytes out.new)) }
    ensures begun { StartsWith (string_bytes out.new) (string_bytes out.old) }
    ensures refused { IfErr result (λ fault. (fault ≡ Fault.Memory) ⊎ (fault ≡ Fault.Limit Limit.Print)) }
    ensures too_long { result ≡ Err (Fault.Limit Limit.Print) → IsTooLong store.now.held goal.now }
{
    let text = print_goal(alloc, goal, store)?;
    push_goal_name(name, out)?;
    out.push_str(" ")?;
    write_status(name, goal, tries, out)?;
    out.push_str(" ")?;
    out.push_str(text.as_str())?;
    out.push_str("\n")?;
    Ok(())
}

// Writes the lines of the goals, in their order.
fn write_lines(
    alloc: Global,
    goals: &BTreeMap<GoalName, &Goal>,
    tries: &Tries,
    store: &Store,
    out: &mut String,
) -> Result<(), Fault>
    requires { (goal : Named) → In goal (lent goals.now.entries) → IsKnown tries.now.notes goal }
    ensures text { OnOk result (AddsLines tries.now.notes store.now.held (lent goals.now.entries) (string_bytes out.old) (string_bytes out.new)) }
    ensures begun { StartsWith (string_bytes out.new) (string_bytes out.old) }
    ensures refused { IfErr result (λ fault. (fault ≡ Fault.Memory) ⊎ (fault ≡ Fault.Limit Limit.Print)) }
    ensures too_long { result ≡ Err (Fault.Limit Limit.Print) → (goal : Named) × In goal (lent goals.now.entries) × IsTooLong store.now.held goal.1 }
{
    for (name, goal) in goals {
        match write_line(alloc, *name, *goal, tries, store, out) {
            Ok(()) => {}
            Err(fault) => return Err(fault),
        }
    }
    Ok(())
}

/// Writes a line for each goal at the end of `out`, by step, then place: its status and its text in the store, as
/// `0.1 waits _0_1 append(_0_1,_0_2)`. It refuses where there is no memory, or with the limit `print` where there is and the text of
/// a goal has more than `PRINT_LIMIT` bytes; `out` then stays as it was. It costs some look-ups and a `print_goal` for each goal.
pub fn push_goals(
    alloc: Global,
    goals: &Goals,
    tries: &Tries,
    store: &Store,
    out: &mut String,
) -> Result<(), Fault>
    requires { (g : goal_name) → ¬ IsUntried goals.now.held tries.now.notes g }
    ensures text { OnOk result ((text : List ℕ) × AreLinesByNotes tries.now.notes goals.now.held store.now.held text × (string_bytes out.new ≡ string_bytes out.old ++ text)) }
    ensures short { OnOk result (¬ HasTooLong goals.now.held store.now.held) }
    ensures err { OnErr result (string_bytes out.new ≡ string_bytes out.old) }
    ensures refused { IfErr result (λ fault. (fault ≡ Fault.Memory) ⊎ (fault ≡ Fault.Limit Limit.Print)) }
    ensures too_long { result ≡ Err (Fault.Limit Limit.Print) → HasTooLong goals.now.held store.now.held }
{
    let ordered = goals.by_name(alloc)?;
    let length = end_of(out);
    match write_lines(alloc, &ordered, tries, store, out) {
        Ok(()) => Ok(()),
        Err(fault) => {
            let _ = or_cut_back(out, length, Err(AllocError));
            Err(fault)
        }
    }
}
