// The texts of statuses. Where memory is refused, what `write_..` writes may be a part of its text.
ghost use Rattle.std.specs.Prelude.{◌≡◌, ◌++◌, OnOk, is_ok, if◌then◌else◌, string_bytes};
ghost use Rattle.std.specs.Io.{StartsWith};
ghost use Rattle.ghc_hooks.specs.Verdict.{status_of};
ghost use Rattle.ghc_trace.specs.News.{cause_text, status_text, news_line};

use ghc_hooks::Verdict;
use ghc_records::{push_goal_name, push_variables};
use ghc_term::{GoalName, end_of, or_cut_back, push_number};
use std::alloc::AllocError;

// Writes the refusal of a goal that has failed, as `F10`.
fn write_cause(number: u32, out: &mut String) -> Result<(), AllocError>
    ensures text { OnOk result (string_bytes out.new ≡ string_bytes out.old ++ cause_text number) }
    ensures begun { StartsWith (string_bytes out.new) (string_bytes out.old) }
{
    out.push_str("F")?;
    push_number(number, out)
}

// Writes the status of a goal that was tried.
fn write_status(verdict: &Verdict, out: &mut String) -> Result<(), AllocError>
    ensures text { OnOk result (string_bytes out.new ≡ string_bytes out.old ++ status_text (status_of verdict.now)) }
    ensures begun { StartsWith (string_bytes out.new) (string_bytes out.old) }
{
    match verdict {
        Verdict::Ready => out.push_str("ready"),
        Verdict::Waiting(awaited) => {
            out.push_str("waits ")?;
            push_variables(awaited, out)
        }
        Verdict::Failed(cause) => {
            out.push_str("failed ")?;
            write_cause(cause.number(), out)
        }
    }
}

/// Writes the status of a goal that was tried at the end of `out`, which stays as it was where memory is refused: `ready`,
/// `waits _0_1,_0_2` or `failed F10`. The cost is that of the text, and what it takes to put the variables in order.
pub fn push_status(verdict: &Verdict, out: &mut String) -> Result<(), AllocError>
    ensures { string_bytes out.new ≡ (if is_ok result then string_bytes out.old ++ status_text (status_of verdict.now) else string_bytes out.old) }
{
    let length = end_of(out);
    let written = write_status(verdict, out);
    or_cut_back(out, length, written)
}

// Writes the line of a goal that is stuck, and nothing of one that is ready.
pub(crate) fn write_news(
    goal: GoalName,
    verdict: &Verdict,
    out: &mut String,
) -> Result<(), AllocError>
    ensures text { OnOk result (string_bytes out.new ≡ string_bytes out.old ++ news_line (goal, status_of verdict.now)) }
    ensures begun { StartsWith (string_bytes out.new) (string_bytes out.old) }
{
    match verdict {
        Verdict::Ready => return Ok(()),
        Verdict::Waiting(awaited) => {
            out.push_str("SUSP ")?;
            push_goal_name(goal, out)?;
            out.push_str(" ")?;
            push_variables(awaited, out)?;
        }
        Verdict::Failed(cause) => {
            out.push_str("FAIL ")?;
            push_goal_name(goal, out)?;
            out.push_str(" ")?;
            write_cause(cause.number(), out)?;
        }
    }
    out.push_str("\n")
}
