// The commands that run: they take steps until there is a reason to stop.
ghost use Rattle.std.specs.Prelude.{◌≡◌, [], List, ℕ, IfOk, string_bytes};
ghost use Rattle.ghc_console.specs.inner.Answered.{IsCommandAnsweredBy};
ghost use Rattle.ghc_console.specs.RunReplies.{AreLinesTold, IsAdded, TellsRun, last_of, mode_of, run_lines};
ghost use Rattle.ghc_console.specs.SessionState.{state_of};
ghost use Rattle.ghc_console.specs.declared.command.LineCommand.TheVariants.{Skip as skip};

use crate::answered::Answered;
use crate::command::RUN_LIMIT;
use crate::debugger::Debugger;
use crate::replies::refused;
use ghc_pool::{Gate, Mode, Report, run_together, runs_add_at_the_end};
use ghc_term::{Fault, GoalName};
use std::alloc::{AllocError, Global};
use std::sync::Wait;
use std::thread::Threads;

// A run of at most so many steps: of any goal, or where a root is named, of the goals that descend from it.
fn mode_of(root: Option<GoalName>, limit: u32) -> Mode
    ensures { result ≡ mode_of root limit }
{
    let limit = limit as usize;
    match root {
        None => Mode::Leap { limit },
        Some(root) => Mode::Skip { root, limit },
    }
}

/// Runs, by as many workers as the debugger says. It takes as many steps as the limit at most, of any goal, or where a root is named,
/// of the goals that descend from it. Its caller tells what it reports, a line for each step. It costs what the run costs.
pub fn leap<R: Threads + Wait + Sync, G: Gate + Sync>(
    rt: &R,
    alloc: Global,
    debugger: Debugger,
    gate: &G,
    root: Option<GoalName>,
    limit: u32,
) -> (Debugger, Report)
    ensures told { (lines : List ℕ) → AreLinesTold (run_lines (last_of result.1.added result.0.core.world.kept) result.1.stop) lines
        → TellsRun debugger.workers debugger.spies root limit debugger.core.world lines result.0.core.world }
    ensures added { IsAdded result.0.core.world result.1.added }
    ensures opening { result.0.core.world.opening ≡ debugger.core.world.opening }
    ensures spies { result.0.spies ≡ debugger.spies }
    ensures workers { result.0.workers ≡ debugger.workers }
    ensures lines { result.0.clause_lines ≡ debugger.clause_lines }
{
    // Called for its clause that the steps stand at the end of the record, which the proof cites.
    runs_add_at_the_end();
    let Debugger {
        core,
        spies,
        workers,
        clause_lines,
    } = debugger;
    let mode = mode_of(root, limit);
    let (core, report) = run_together(rt, alloc, core, mode, &spies, workers, gate);
    let debugger = Debugger {
        core,
        spies,
        workers,
        clause_lines,
    };
    (debugger, report)
}

/// Asks for a run of the goals that descend from the goal, where it is there, with the limit of a run for which no number is said;
/// or writes the refusal. It costs a look-up.
#[inline(never)]
pub fn skip(debugger: &Debugger, goal: GoalName, reply: &mut String) -> Result<Answered, AllocError>
    requires { string_bytes reply.old ≡ [] }
    ensures { IfOk result (IsCommandAnsweredBy (state_of debugger.now) (skip goal) (string_bytes reply.new) (state_of debugger.now)) }
{
    if debugger.core.goals().get(goal).is_none() {
        refused(&Fault::NoGoal, reply)?;
        return Ok(Answered::Told);
    }
    Ok(Answered::Asks(Some(goal), RUN_LIMIT))
}
