// A schedule on a device of which each call fails in turn.
ghost use Rattle.std.specs.Prelude.{◌≡◌, ◌<◌};

use crate::tests::cores::core_of;
use ghc_console::{Script, schedule};
use ghc_core::Core;
use std::alloc::Global;
use std::marker::Brand;
use std::sync::Wait;
use std::sync::ledger::{Blank, Ledger};

const LINES: &str = "propose 1 0.1\r\n\ncommit 1\nundo 9";

const OUTPUT: &str = "held 1\nstep 1\nF16 not a kept step\n1 0.1 eq reads - binds _0_1=1 makes -\n";

// What became of a schedule: how many bytes of the output were written, where nothing else was; how many steps the core has;
// whether it was broken off.
type Played = (Option<usize>, usize, bool);

// How many bytes of the output were written, where nothing else was.
fn written<L: Ledger>(script: &Script<L>) -> Option<usize> {
    let out = script.output();
    if OUTPUT.as_bytes().starts_with(out) {
        Some(out.len())
    } else {
        None
    }
}

fn play_to_script<L: Ledger, R: Wait>(
    rt: &R,
    alloc: Global,
    core: Core,
    lines: Vec<u8>,
    fails_after: u64,
    blank: Blank,
) -> Played
    requires blank { (blank.name ≡ L.name) × (blank.parts ≡ L.parts) × (1 < L.parts) }
{
    let mut script: Script<L> = Script::new(alloc, lines, Some(fails_after), blank);
    let (core, ended) = schedule(rt, alloc, core, &mut script);
    (written(&script), core.records().len(), ended.is_err())
}

fn play_failing<R: Wait>(
    rt: &R,
    alloc: Global,
    core: Core,
    lines: Vec<u8>,
    fails_after: u64,
) -> Played {
    play_to_script::<Brand, R>(rt, alloc, core, lines, fails_after, Blank::new(2))
}

// A schedule of which the call after so many fails.
fn played<R: Wait>(rt: &R, alloc: Global, fails_after: u64) -> Option<Played> {
    let lines = Vec::from_slice(alloc, LINES.as_bytes()).ok()?;
    let core = core_of(alloc, "", "X = 1")?;
    Some(play_failing(rt, alloc, core, lines, fails_after))
}

// How many bytes are written, and how many steps taken, where the call after so many fails. Four reads give the lines, and a read before
// and one after the reply to the last finds their end; a write is made for each reply, none for the empty line, and one for the records.
const FAILING: &[(usize, usize)] = &[
    // The first line is not read, or its reply is not written.
    (0, 0),
    (0, 0),
    // The empty line is not read, or that after it.
    (7, 0),
    (7, 0),
    // The step is taken, and its reply is not written.
    (7, 1),
    // The last line is not read, or not to its end, or its reply is not written.
    (14, 1),
    (14, 1),
    (14, 1),
    // The end of the lines is not read once more, or the records are not written.
    (34, 1),
    (34, 1),
];

#[test]
fn each_call_of_a_schedule_fails(rt: HostRuntime) {
    for (n, (written, steps)) in FAILING.iter().enumerate() {
        let played = played(&rt, rt.alloc(), n as u64);
        assert!(rt; played == Some((Some(*written), *steps, true)), "at {n}");
    }
    assert!(rt; played(&rt, rt.alloc(), 10) == Some((Some(72), 1, false)));
}
