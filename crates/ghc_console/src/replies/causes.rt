// The replies that tell causes: on which steps a step depends, and which steps bound the variables of a chain.
ghost use Rattle.std.specs.Prelude.{◌≡◌, ◌++◌, [], map, OnOk, string_bytes};
ghost use Rattle.ghc_trace.specs.ReasonText.{reason_text};
ghost use Rattle.ghc_trace.specs.Who.{binder_text};
ghost use Rattle.ghc_console.specs.Replies.{RepliesToWhy, RepliesToWho, text_lines};

use crate::named_variable::variable_named;
use crate::replies::{or_none, refused};
use ghc_core::Core;
use ghc_term::Fault;
use ghc_trace::{Binder, Reason, binders, push_binder, push_reason};
use std::alloc::{AllocError, Global};

// The reasons, a line each.
fn reason_lines(reasons: &[Reason], reply: &mut String) -> Result<(), AllocError>
    ensures { OnOk result (string_bytes reply.new ≡ string_bytes reply.old ++ text_lines (map reason_text reasons.now)) }
{
    for reason in reasons {
        push_reason(*reason, reply)?;
        reply.push_str("\n")?;
    }
    Ok(())
}

/// Tells the steps on which the kept step of this number depends directly, in recorded order, a line each with its cause, or
/// `none`; or the refusal. It costs what `why` costs, and the text.
#[inline(never)]
pub fn why(alloc: Global, core: &Core, number: u32, reply: &mut String) -> Result<(), AllocError>
    requires { string_bytes reply.old ≡ [] }
    ensures { OnOk result (RepliesToWhy core.now.world number (string_bytes reply.new)) }
{
    match ghc_trace::why(alloc, core.records(), number) {
        Ok(reasons) => {
            reason_lines(reasons.as_slice(), reply)?;
            or_none(reply)
        }
        Err(fault) => refused(&fault, reply),
    }
}

// The variables with the steps that bound them, a line each.
fn binder_lines(told: &[Binder], reply: &mut String) -> Result<(), AllocError>
    ensures { OnOk result (string_bytes reply.new ≡ string_bytes reply.old ++ text_lines (map binder_text told.now)) }
{
    for binder in told {
        push_binder(*binder, reply)?;
        reply.push_str("\n")?;
    }
    Ok(())
}

/// Tells the bound variables of the chain of the variable that the word names, in its order, a line each with the kept step
/// that bound it, or `none`; or the refusal. It costs what `binders` costs, and the text.
#[inline(never)]
pub fn who(alloc: Global, core: &Core, word: &str, reply: &mut String) -> Result<(), AllocError>
    requires { string_bytes reply.old ≡ [] }
    ensures { OnOk result (RepliesToWho core.now.world word.now (string_bytes reply.new)) }
{
    let Some(x) = variable_named(core, word.as_bytes()) else {
        return refused(&Fault::NoVariable, reply);
    };
    let told = binders(alloc, core, x)?;
    binder_lines(told.as_slice(), reply)?;
    or_none(reply)
}
