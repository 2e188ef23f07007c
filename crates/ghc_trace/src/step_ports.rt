// The ports of a step that is about to be taken, and their texts.
ghost use Rattle.std.specs.Prelude.{◌≡◌, ◌++◌, map, IfOk, OnOk, is_ok, if◌then◌else◌, string_bytes};
ghost use Rattle.ghc_trace.specs.Ports.{calls, taken_ports};
ghost use Rattle.std.specs.Io.{StartsWith};
ghost use Rattle.ghc_trace.specs.PortText.{ports_text};
ghost use Rattle.ghc_trace.specs.inner.PortCode.{port_of};

use crate::port::{Port, write_call};
use ghc_fire::Effect;
use ghc_records::{Record, push_step};
use ghc_term::{GoalName, end_of, or_cut_back};
use std::alloc::{AllocError, Global};

// Puts the port of each goal that step `number` makes at the end, and shares the goals.
fn push_calls(number: u32, effect: &Effect, ports: &mut Vec<Port>) -> Result<(), AllocError>
    ensures { OnOk result (map port_of ports.new.items ≡ map port_of ports.old.items ++ calls number 1 effect.now.makes) }
{
    let goals = effect.makes();
    for index in 0..effect.made() {
        let place = index + 1;
        let name = GoalName {
            step: number,
            place,
        };
        let goal = goals[index as usize].share()?;
        ports.push(Port::Called(name, goal))?;
    }
    Ok(())
}

/// The ports of a step without those of the goals that it resumes: that it is taken, then the goals that it makes. It costs a
/// step for each goal, and shares the goals.
pub fn ports(alloc: Global, taken: &Record) -> Result<Vec<Port>, AllocError>
    ensures { IfOk result (λ ps. map port_of ps.items ≡ taken_ports taken.now) }
{
    let mut ports = Vec::new(alloc);
    ports.push(Port::Reduced(taken.step()?))?;
    push_calls(taken.number(), taken.effect(), &mut ports)?;
    Ok(ports)
}

// Writes the ports of the goals that step `number` makes. Where memory is refused a part of them may stand there.
fn write_calls(number: u32, effect: &Effect, out: &mut String) -> Result<(), AllocError>
    ensures text { OnOk result (string_bytes out.new ≡ string_bytes out.old ++ ports_text (calls number 1 effect.now.makes)) }
    ensures begun { StartsWith (string_bytes out.new) (string_bytes out.old) }
{
    let goals = effect.makes();
    for index in 0..effect.made() {
        let name = GoalName {
            step: number,
            place: index + 1,
        };
        write_call(name, &goals[index as usize], out)?;
        out.push_str("\n")?;
    }
    Ok(())
}

// Writes the ports of a step. Where memory is refused a part of them may stand there.
fn write_ports_of(taken: &Record, out: &mut String) -> Result<(), AllocError>
    ensures text { OnOk result (string_bytes out.new ≡ string_bytes out.old ++ ports_text (taken_ports taken.now)) }
    ensures begun { StartsWith (string_bytes out.new) (string_bytes out.old) }
{
    out.push_str("REDU ")?;
    push_step(taken, out)?;
    out.push_str("\n")?;
    write_calls(taken.number(), taken.effect(), out)
}

/// Writes the ports of a step, but for those of the goals that it resumes, a line each, at the end of `out`. Where memory is refused,
/// `out` stays as it was. It costs the text.
pub fn push_ports_of(taken: &Record, out: &mut String) -> Result<(), AllocError>
    ensures { string_bytes out.new ≡ (if is_ok result then string_bytes out.old ++ ports_text (taken_ports taken.now) else string_bytes out.old) }
{
    let length = end_of(out);
    let written = write_ports_of(taken, out);
    or_cut_back(out, length, written)
}
