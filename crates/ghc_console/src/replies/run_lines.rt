// The lines of runs, which are written one at a time.
ghost use Rattle.std.specs.Prelude.{◌≡◌, ◌++◌, ◌∷◌, [], map, OnOk, string_bytes};
ghost use Rattle.ghc_console.specs.RunReplies.{IsAdded, last_of, run_lines, step_line, stop_line, stop_text};
ghost use Rattle.ghc_console.specs.inner.WritesTold.{WritesTold};
ghost use Rattle.ghc_console.specs.inner.OnlyWrites.{OnlyWrites};

use crate::devices::device::{Broken, Device};
use crate::devices::writing::write_all;
use ghc_core::Core;
use ghc_pool::{Report, Stop};
use ghc_records::{Record, push_goal_name, push_step};
use std::alloc::AllocError;

// The line that stands where memory was refused for a line.
pub(crate) const UNTOLD: &str = "F1 no memory\n";

// Why a run stopped.
fn push_stop(stop: Stop, out: &mut String) -> Result<(), AllocError>
    ensures { OnOk result (string_bytes out.new ≡ string_bytes out.old ++ stop_text stop) }
{
    match stop {
        Stop::Quiet => out.push_str("quiet"),
        Stop::Spied(goal) => {
            out.push_str("spied ")?;
            push_goal_name(goal, out)
        }
        Stop::Clash(goal) => {
            out.push_str("clash ")?;
            push_goal_name(goal, out)
        }
        Stop::Limit => out.push_str("limit"),
        Stop::Full => out.push_str("full"),
        Stop::Memory => out.push_str("memory"),
    }
}

// The line that says why a run stopped.
fn tell_stop(stop: Stop, line: &mut String) -> Result<(), AllocError>
    requires { string_bytes line.old ≡ [] }
    ensures { OnOk result (string_bytes line.new ≡ stop_line stop) }
{
    line.push_str("stopped ")?;
    push_stop(stop, line)?;
    line.push_str("\n")
}

// The line of a step.
fn tell_step(step: &Record, line: &mut String) -> Result<(), AllocError>
    requires { string_bytes line.old ≡ [] }
    ensures { OnOk result (string_bytes line.new ≡ step_line step.now) }
{
    line.push_str("REDU ")?;
    push_step(step, line)?;
    line.push_str("\n")
}

// Writes the line of a step, or that memory was refused for it.
fn write_step<D: Device>(device: &mut D, step: &Record, line: &mut String) -> Result<(), Broken>
    ensures told { WritesTold (step_line step.now ∷ []) (D.written device.old) (D.written device.new) result }
    ensures writes { OnlyWrites D.Device device.old device.new result }
{
    line.clear();
    match tell_step(step, line) {
        Ok(()) => write_all(device, line.as_bytes()),
        Err(_) => write_all(device, UNTOLD.as_bytes()),
    }
}

// Writes the line that says why a run stopped, or that memory was refused for it.
fn write_stop<D: Device>(device: &mut D, stop: Stop, line: &mut String) -> Result<(), Broken>
    ensures told { WritesTold (stop_line stop ∷ []) (D.written device.old) (D.written device.new) result }
    ensures writes { OnlyWrites D.Device device.old device.new result }
{
    line.clear();
    match tell_stop(stop, line) {
        Ok(()) => write_all(device, line.as_bytes()),
        Err(_) => write_all(device, UNTOLD.as_bytes()),
    }
}

// Writes the lines of so many steps, the last that are kept: one look-up for each.
fn write_steps<D: Device>(
    device: &mut D,
    core: &Core,
    count: usize,
    line: &mut String,
) -> Result<(), Broken>
    requires { IsAdded core.now.world count }
    ensures told { WritesTold (map step_line (last_of count core.now.world.kept)) (D.written device.old) (D.written device.new) result }
    ensures writes { OnlyWrites D.Device device.old device.new result }
{
    let records = core.records();
    // Called for its clause that no two records have one number, which the proof cites.
    let _count = records.len();
    let next = core.next();
    for number in next - count as u32..next {
        let Some(step) = records.get(number) else {
            unreachable!();
        };
        write_step(device, step, line)?;
    }
    Ok(())
}

/// Writes the lines of a run that was made, one at a time, in place of what stands in the text: that of each step, in recorded
/// order, and then why it stopped. Where memory is refused for a line, F1 stands in its place. It costs one look-up for each step,
/// and memory for one line.
pub fn write_run<D: Device>(
    device: &mut D,
    core: &Core,
    report: Report,
    line: &mut String,
) -> Result<(), Broken>
    requires { IsAdded core.now.world report.added }
    ensures told { WritesTold (run_lines (last_of report.added core.now.world.kept) report.stop) (D.written device.old) (D.written device.new) result }
    ensures writes { OnlyWrites D.Device device.old device.new result }
{
    write_steps(device, core, report.added, line)?;
    write_stop(device, report.stop, line)
}
