// Settling: the goals that are untried are tried, and a reply ends with those that are stuck then.
ghost use Rattle.std.specs.Prelude.{◌≡◌, ◌+◌, ◌≤◌, OnErr, OnOk, length, string_bytes, string_capacity, string_len};
ghost use Rattle.ghc_hooks.specs.Notes.{NotesByGoal};
ghost use Rattle.ghc_core.specs.World.{World};
ghost use Rattle.ghc_core.specs.Settling.{AreKept};
ghost use Rattle.ghc_core.specs.declared.changes.Change.{Change as change_spec};
ghost use Rattle.ghc_core.specs.Change.{CanChange, Changes, IsBoundBy};
ghost use Rattle.ghc_trace.specs.Disturbed.{AreDisturbed};
ghost use Rattle.ghc_trace.specs.Laws.{IsSettled, Brings};
ghost use Rattle.ghc_console.specs.Replies.{Settled};
ghost use Rattle.ghc_console.specs.inner.Told.{IsJustChanged};

use ghc_core::{Change, Core};
use ghc_trace::{Disturbed, notes_tell_news};
use std::alloc::{AllocError, Global};

// The line that stands where memory was refused for what is stuck.
const UNTOLD: &str = "F1 no memory\n";

/// Tries each goal that is untried; then none is. Where memory is refused the goals that were not reached stay untried, and the
/// notes that were made stay. It costs the tries: nothing, where no goal is untried.
pub fn settle(alloc: Global, core: &mut Core) -> Result<(), AllocError>
    ensures world { core.new.world ≡ core.old.world }
    ensures settled { OnOk result (IsSettled core.new.world core.new.notes) }
    ensures kept { AreKept core.old.notes core.new.notes }
    ensures firings { core.new.meter.firings ≡ core.old.meter.firings }
{
    core.settle(alloc)?;
    core.stands();
    Ok(())
}

// Settles, and tells of the goals that were disturbed which are stuck then and were not so before.
fn push_stuck(
    alloc: Global,
    core: &mut Core,
    disturbed: &Disturbed,
    reply: &mut String,
) -> Result<(), AllocError>
    ensures world { core.new.world ≡ core.old.world }
    ensures kept { AreKept core.old.notes core.new.notes }
    ensures firings { core.new.meter.firings ≡ core.old.meter.firings }
    ensures told { OnOk result ((w : World) (change : change_spec) (notes : NotesByGoal) → IsJustChanged w change notes core.old.world core.old.notes disturbed.now
        → Settled w core.new.world (string_bytes reply.old) (string_bytes reply.new)) }
    ensures err { OnErr result (string_bytes reply.new ≡ string_bytes reply.old) }
    ensures len { OnErr result (string_len reply.new ≡ string_len reply.old) }
    ensures capacity { string_capacity reply.old ≤ string_capacity reply.new }
{
    settle(alloc, core)?;
    let mut lines = String::new(alloc);
    disturbed.push_news(core.tries(), &mut lines)?;
    // Called for its clause that the notes tell the news, which the proof cites.
    notes_tell_news();
    if lines.is_empty() {
        return Ok(());
    }
    reply.push_str(lines.as_str())
}

// The same, or the line that memory was refused, for which there is room. It cannot fail.
fn tell_stuck(alloc: Global, core: &mut Core, disturbed: &Disturbed, reply: &mut String)
    requires room { string_len reply.old + length UNTOLD.now ≤ string_capacity reply.old }
    ensures world { core.new.world ≡ core.old.world }
    ensures kept { AreKept core.old.notes core.new.notes }
    ensures firings { core.new.meter.firings ≡ core.old.meter.firings }
    ensures told { (w : World) (change : change_spec) (notes : NotesByGoal) → IsJustChanged w change notes core.old.world core.old.notes disturbed.now
        → Settled w core.new.world (string_bytes reply.old) (string_bytes reply.new) }
{
    if push_stuck(alloc, core, disturbed, reply).is_ok() {
        return;
    }
    let _ = reply.push_str(UNTOLD);
}

/// Makes a change that was found where no goal is untried, and settles. It adds to the reply a line for each goal that is stuck then and
/// was not so before, or `F1 no memory` in place of these. The caller gives the goals that the change disturbs. An error leaves the core
/// as it was; it says that memory was refused for the change itself. It costs the change, and a try of each goal that was disturbed.
pub fn make(
    alloc: Global,
    core: &mut Core,
    change: Change,
    disturbed: &Disturbed,
    reply: &mut String,
) -> Result<(), AllocError>
    requires found { CanChange core.old.world change }
    requires settled { IsSettled core.old.world core.old.notes }
    requires disturbed { AreDisturbed core.old.notes (IsBoundBy change) (Brings change) disturbed.now }
    ensures changed { OnOk result (Changes core.old.world change core.new.world) }
    ensures told { OnOk result (Settled core.old.world core.new.world (string_bytes reply.old) (string_bytes reply.new)) }
    ensures err { OnErr result (core.new.world ≡ core.old.world) }
    ensures firings { core.new.meter.firings ≡ core.old.meter.firings }
{
    reply.reserve(UNTOLD.len())?;
    core.make(change)?;
    tell_stuck(alloc, core, disturbed, reply);
    Ok(())
}
