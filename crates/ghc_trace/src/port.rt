// The ports of a step, and their texts. Where memory is refused, what `write_..` writes may be a part of its text.
ghost use Rattle.std.specs.Prelude.{◌≡◌, ◌++◌, map, is_ok, if◌then◌else◌, OnOk, string_bytes};
ghost use Rattle.std.specs.Io.{StartsWith};
ghost use Rattle.ghc_trace.specs.Ports.{called};
ghost use Rattle.ghc_trace.specs.inner.PortCode.{port_of};
ghost use Rattle.ghc_trace.specs.PortText.{port_text, ports_text};

use ghc_records::{Step, push_goal_name, push_journal_step};
use ghc_term::{Goal, GoalName, end_of, or_cut_back, push_goal_written};
use std::alloc::AllocError;

/// A port: a step is taken, a goal is made, or a waiting goal is to be tried again.
#[derive(Drop)]
pub enum Port {
    /// The step is taken.
    Reduced(Step),
    /// The goal of this name is made.
    Called(GoalName, Goal),
    /// The goal of this name is to be tried again.
    Resumed(GoalName),
}

// Writes the port of a goal that is made.
pub(crate) fn write_call(name: GoalName, goal: &Goal, out: &mut String) -> Result<(), AllocError>
    ensures text { OnOk result (string_bytes out.new ≡ string_bytes out.old ++ port_text (called name goal.now)) }
    ensures begun { StartsWith (string_bytes out.new) (string_bytes out.old) }
{
    out.push_str("CALL ")?;
    push_goal_name(name, out)?;
    out.push_str(" ")?;
    push_goal_written(goal, out)
}

// Writes a port.
fn write_port(port: &Port, out: &mut String) -> Result<(), AllocError>
    ensures text { OnOk result (string_bytes out.new ≡ string_bytes out.old ++ port_text (port_of port.now)) }
    ensures begun { StartsWith (string_bytes out.new) (string_bytes out.old) }
{
    match port {
        Port::Reduced(step) => {
            out.push_str("REDU ")?;
            push_journal_step(step, out)
        }
        Port::Called(name, goal) => write_call(*name, goal, out),
        Port::Resumed(name) => {
            out.push_str("RESU ")?;
            push_goal_name(*name, out)
        }
    }
}

// Writes ports, each with a line feed after it.
fn write_ports(ports: &[Port], out: &mut String) -> Result<(), AllocError>
    ensures text { OnOk result (string_bytes out.new ≡ string_bytes out.old ++ ports_text (map port_of ports.now)) }
    ensures begun { StartsWith (string_bytes out.new) (string_bytes out.old) }
{
    for port in ports {
        write_port(port, out)?;
        out.push_str("\n")?;
    }
    Ok(())
}

/// Writes a port at the end of `out`, which stays as it was where memory is refused: `REDU 1 0.1 by 2`, `CALL 1.1 X = Y` with
/// the goal as written, or `RESU 0.2`. The cost is that of the text.
pub fn push_port(port: &Port, out: &mut String) -> Result<(), AllocError>
    ensures { string_bytes out.new ≡ (if is_ok result then string_bytes out.old ++ port_text (port_of port.now) else string_bytes out.old) }
{
    let length = end_of(out);
    let written = write_port(port, out);
    or_cut_back(out, length, written)
}

/// Writes ports at the end of `out`, each with a line feed after it. Where memory is refused, `out` stays as it was. It costs the
/// text.
pub fn push_ports(ports: &[Port], out: &mut String) -> Result<(), AllocError>
    ensures { string_bytes out.new ≡ (if is_ok result then string_bytes out.old ++ ports_text (map port_of ports.now) else string_bytes out.old) }
{
    let length = end_of(out);
    let written = write_ports(ports, out);
    or_cut_back(out, length, written)
}
