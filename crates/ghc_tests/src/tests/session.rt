// A session on a device of which each call fails in turn.
ghost use Rattle.std.specs.Prelude.{◌≡◌, ◌<◌};

use crate::tests::cores::core_of;
use ghc_console::{Debugger, Script, session};
use ghc_pool::Gate;
use ghc_reader::read_clause_lines;
use ghc_term::GoalName;
use ghc_trace::SpySet;
use std::alloc::Global;
use std::marker::Brand;
use std::sync::Wait;
use std::sync::ledger::{Blank, Ledger};
use std::thread::Threads;

// A gate that holds no worker up.
struct NoGate;

impl Gate for NoGate {
    fn held(&self, worker: usize, goal: GoalName) {
        let _ = (worker, goal);
    }

    fn answered(&self, worker: usize, goal: GoalName) {
        let _ = (worker, goal);
    }

    fn holds_up(&self) -> bool {
        false
    }
}

const INPUT: &str = "step 0.1\r\n\nshow X\nrecords";

const OUTPUT: &str = "REDU 1 0.1 eq\nX = 1\n1 0.1 eq reads - binds _0_1=1 makes -\n";

// What became of a session: how many bytes of the output were written, where nothing else was; how many steps the core has;
// whether it was broken off.
type Served = (Option<usize>, usize, bool);

// Runs a session, and says how many steps the core has then, and whether it was broken off.
fn serve<L: Ledger, R: Threads + Wait + Sync>(
    rt: &R,
    alloc: Global,
    debugger: Debugger,
    script: &mut Script<L>,
) -> (usize, bool) {
    let (debugger, ended) = session(rt, alloc, debugger, &NoGate, script);
    (debugger.core.records().len(), ended.is_err())
}

// How many bytes of the output were written, where nothing else was.
fn written<L: Ledger>(script: &Script<L>) -> Option<usize> {
    let out = script.output();
    if OUTPUT.as_bytes().starts_with(out) {
        Some(out.len())
    } else {
        None
    }
}

fn serve_script<L: Ledger, R: Threads + Wait + Sync>(
    rt: &R,
    alloc: Global,
    debugger: Debugger,
    input: Vec<u8>,
    fails_after: u64,
    blank: Blank,
) -> Served
    requires blank { (blank.name ≡ L.name) × (blank.parts ≡ L.parts) × (1 < L.parts) }
{
    let mut script: Script<L> = Script::new(alloc, input, Some(fails_after), blank);
    let (steps, broken) = serve(rt, alloc, debugger, &mut script);
    (written(&script), steps, broken)
}

fn serve_failing<R: Threads + Wait + Sync>(
    rt: &R,
    alloc: Global,
    debugger: Debugger,
    input: Vec<u8>,
    fails_after: u64,
) -> Served {
    serve_script::<Brand, R>(rt, alloc, debugger, input, fails_after, Blank::new(2))
}

// A session of which the call after so many fails.
fn served<R: Threads + Wait + Sync>(rt: &R, alloc: Global, fails_after: u64) -> Option<Served> {
    let input = Vec::from_slice(alloc, INPUT.as_bytes()).ok()?;
    let core = core_of(alloc, "", "X = 1")?;
    let lines = read_clause_lines(alloc, b"").ok()?;
    let debugger = Debugger::new(core, SpySet::new(alloc), lines);
    Some(serve_failing(rt, alloc, debugger, input, fails_after))
}

// How many bytes are written, and how many steps taken, where the call after so many fails. Five reads give the lines and
// their end, the last line and its end by two; three writes are made, none for the empty line.
const FAILING: &[(usize, usize)] = &[
    // The first line is not read.
    (0, 0),
    // The step is taken, and its reply is not written.
    (0, 1),
    (14, 1),
    (14, 1),
    (14, 1),
    // The last line is not read, or not to its end, or its reply is not written.
    (20, 1),
    (20, 1),
    (20, 1),
    // The end of the input is not read once more.
    (58, 1),
];

#[test]
fn each_call_of_a_session_fails(rt: HostRuntime) {
    for (n, (written, steps)) in FAILING.iter().enumerate() {
        let served = served(&rt, rt.alloc(), n as u64);
        assert!(rt; served == Some((Some(*written), *steps, true)), "at {n}");
    }
    assert!(rt; served(&rt, rt.alloc(), 9) == Some((Some(58), 1, false)));
}
