// The replies to commands, each written into a text that is empty before. Where one gives up, what stands there is no reply.
ghost use Rattle.std.specs.Prelude.{◌≡◌, ◌≢◌, ◌⊎◌, ◌++◌, ◌∷◌, [], List, OnErr, OnOk, codes, string_bytes};
ghost use Rattle.ghc_fire.specs.Meter.{one_more};
ghost use Rattle.ghc_records.specs.Replay.{MakesGoal};
ghost use Rattle.ghc_depend.specs.Depend.{Binds};
ghost use Rattle.ghc_trace.specs.Disturbed.{AreDisturbed};
ghost use Rattle.ghc_trace.specs.Laws.{IsSettled};
ghost use Rattle.ghc_trace.specs.Ports.{Port, ArePorts};
ghost use Rattle.ghc_trace.specs.PortText.{ports_text};
ghost use Rattle.ghc_console.specs.inner.WritesTold.{WritesTold};
ghost use Rattle.ghc_console.specs.Replies.{RepliesToStep, RepliesToShow, lined, TellsSlot, refusal};
ghost use Rattle.ghc_console.specs.inner.OnlyWrites.{OnlyWrites};

pub(crate) mod all_causes;
pub(crate) mod blame;
pub(crate) mod causes;
pub(crate) mod clause_lines;
pub(crate) mod effects;
pub(crate) mod explain;
pub(crate) mod explain_goal;
pub(crate) mod found;
pub(crate) mod goal_listing;
pub(crate) mod goal_of_step;
pub(crate) mod keep;
pub(crate) mod keep_laws;
pub(crate) mod kept_listing;
pub(crate) mod listing;
pub(crate) mod listing_laws;
pub(crate) mod obey_reply;
pub(crate) mod outside;
pub(crate) mod part;
pub(crate) mod record_listing;
pub(crate) mod rollbacks;
pub(crate) mod run_lines;
pub(crate) mod runs;
pub(crate) mod session_listing;
pub(crate) mod settled;
pub(crate) mod shelf_listing;
pub(crate) mod since;
pub(crate) mod spy_reply;
pub(crate) mod why_not;

use crate::devices::device::{Broken, Device};
use crate::devices::made_line::write_made;
use crate::replies::found::value_named;
use crate::replies::obey_reply::tell_and_make;
use crate::replies::settled::settle;
use ghc_core::{Change, Coming, Core};
use ghc_records::{Addition, Record, Records, push_record};
use ghc_term::{Fault, GoalName};
use ghc_trace::{Disturbed, notes_tell_ports, push_ports_of};
use std::alloc::{AllocError, Global};

/// The line of a refusal. It fails where memory is refused, and where that is the refusal.
#[inline(never)]
pub fn refused(fault: &Fault, reply: &mut String) -> Result<(), AllocError>
    requires { string_bytes reply.old ≡ [] }
    ensures text { OnOk result (string_bytes reply.new ≡ refusal fault.now) }
    ensures memory { OnOk result (fault.now ≢ Fault.Memory) }
{
    if let Fault::Memory = fault {
        return Err(AllocError);
    }
    fault.push_text(reply)?;
    reply.push_str("\n")
}

/// Tells the ports of a step that is about to be taken: that it is taken, the goals that it makes, the goals that it resumes.
pub fn push_ports(
    disturbed: &Disturbed,
    core: &Core,
    step: &Record,
    reply: &mut String,
) -> Result<(), AllocError>
    requires empty { string_bytes reply.old ≡ [] }
    requires settled { IsSettled core.now.world core.now.notes }
    requires disturbed { AreDisturbed core.now.notes (Binds step.now) (MakesGoal step.now) disturbed.now }
    ensures { OnOk result ((ports : List Port) × ArePorts core.now.world step.now ports × (string_bytes reply.new ≡ ports_text ports)) }
{
    push_ports_of(step, reply)?;
    disturbed.push_resumed(step, reply)?;
    // Called for its clause that the notes tell the ports, which the proof cites.
    notes_tell_ports();
    Ok(())
}

/// Takes a step of the goal, by the clause chosen or else by the least that accepts, and tells its ports and what is stuck
/// then; or its refusal. What is untried is tried first, so that it is known what waits; the step is then fired at most once.
/// The change is found, then the text of its ports is made, and then room; an error leaves the world as it was.
pub fn step(
    alloc: Global,
    core: &mut Core,
    goal: GoalName,
    choice: Option<u32>,
    reply: &mut String,
) -> Result<(), AllocError>
    requires { string_bytes reply.old ≡ [] }
    ensures text { OnOk result (RepliesToStep core.old.world goal choice (string_bytes reply.new) core.new.world) }
    ensures err { OnErr result (core.new.world ≡ core.old.world) }
    ensures firings { (core.new.meter.firings ≡ core.old.meter.firings) ⊎ (core.new.meter.firings ≡ one_more core.old.meter.firings) }
{
    settle(alloc, core)?;
    match core.prepare_step(alloc, goal, choice) {
        Ok(step) => {
            let addition = Addition::of(alloc, step)?;
            tell_and_make(alloc, core, Change::Comes(Coming::Next, addition), reply)
        }
        Err(fault) => refused(&fault, reply),
    }
}

// The word, and the term to which its variable leads.
pub(crate) fn shown(word: &str, term: &str, reply: &mut String) -> Result<(), AllocError>
    requires { string_bytes reply.old ≡ [] }
    ensures { OnOk result (string_bytes reply.new ≡ lined (word.now ++ (codes " = " ++ term.now))) }
{
    reply.push_str(word)?;
    reply.push_str(" = ")?;
    reply.push_str(term)?;
    reply.push_str("\n")
}

/// Tells the term to which the variable leads that the word names; or the refusal.
#[inline(never)]
pub fn show(alloc: Global, core: &Core, word: &str, reply: &mut String) -> Result<(), AllocError>
    requires { string_bytes reply.old ≡ [] }
    ensures { OnOk result (RepliesToShow core.now.world word.now (string_bytes reply.new)) }
{
    match value_named(alloc, core, word) {
        Ok((_x, term)) => shown(word, term.as_str(), reply),
        Err(fault) => refused(&fault, reply),
    }
}

// The record at this place on a line, if there is one.
pub(crate) fn line(records: &Records, place: usize, reply: &mut String) -> Result<(), AllocError>
    ensures { OnOk result (TellsSlot records.now.slots place (string_bytes reply.old) (string_bytes reply.new)) }
{
    let Some(record) = records.at(place) else {
        return Ok(());
    };
    push_record(record, reply)?;
    reply.push_str("\n")?;
    Ok(())
}

/// Writes `none` where the reply is empty.
pub(crate) fn or_none(reply: &mut String) -> Result<(), AllocError>
    ensures none { OnOk result (string_bytes reply.old ≡ [] → string_bytes reply.new ≡ lined (codes "none")) }
    ensures some { OnOk result (string_bytes reply.old ≢ [] → string_bytes reply.new ≡ string_bytes reply.old) }
{
    if reply.is_empty() {
        return reply.push_str("none\n");
    }
    Ok(())
}

/// Writes the line of a refusal, in place of what stands in the text; or where memory is refused for it, that.
pub(crate) fn write_refusal<D: Device>(
    device: &mut D,
    fault: &Fault,
    line: &mut String,
) -> Result<(), Broken>
    ensures told { WritesTold (refusal fault.now ∷ []) (D.written device.old) (D.written device.new) result }
    ensures writes { OnlyWrites D.Device device.old device.new result }
{
    line.clear();
    let made = refused(fault, line);
    write_made(device, made, line)
}
