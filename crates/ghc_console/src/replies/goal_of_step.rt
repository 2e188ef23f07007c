// The reply that tells which goal a step took.
ghost use Rattle.std.specs.Prelude.{◌≡◌, ◌++◌, [], OnOk, string_bytes};
ghost use Rattle.ghc_trace.specs.StepGoals.{step_with_goal};
ghost use Rattle.ghc_console.specs.Looks.{RepliesToGoalOf, act_line_text};
ghost use Rattle.ghc_console.specs.TextLines.{lined};

use crate::replies::clause_lines::push_line;
use crate::replies::refused;
use ghc_core::Core;
use ghc_fire::Act;
use ghc_reader::ClauseLines;
use ghc_records::Record;
use ghc_term::Fault;
use ghc_trace::push_step_with_goal;
use std::alloc::AllocError;

// The line at which the clause begins by which the act reduced a goal, if it did.
fn push_act_line(act: &Act, lines: &ClauseLines, reply: &mut String) -> Result<(), AllocError>
    ensures { OnOk result (string_bytes reply.new ≡ string_bytes reply.old ++ act_line_text lines.now act.now) }
{
    match act {
        Act::ByClause(clause) => push_line(*clause, lines, reply),
        _ => Ok(()),
    }
}

// The step, the goal that it took, and the line of the clause by which it was reduced, on a line.
fn step_line(step: &Record, lines: &ClauseLines, reply: &mut String) -> Result<(), AllocError>
    requires { string_bytes reply.old ≡ [] }
    ensures { OnOk result (string_bytes reply.new ≡ lined (step_with_goal step.now ++ act_line_text lines.now step.now.act)) }
{
    push_step_with_goal(step, reply)?;
    push_act_line(step.act(), lines, reply)?;
    reply.push_str("\n")
}

/// Tells the kept step of this number, the goal that it took, as it was written then, and the line at which its clause begins; or the
/// refusal. It costs a look-up, and the text.
#[inline(never)]
pub fn goal_of(
    core: &Core,
    lines: &ClauseLines,
    number: u32,
    reply: &mut String,
) -> Result<(), AllocError>
    requires { string_bytes reply.old ≡ [] }
    ensures { OnOk result (RepliesToGoalOf lines.now core.now.world number (string_bytes reply.new)) }
{
    match core.records().get(number) {
        Some(step) => step_line(step, lines, reply),
        None => refused(&Fault::NotKept, reply),
    }
}
