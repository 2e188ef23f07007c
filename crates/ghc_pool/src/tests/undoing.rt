// While a worker of a round holds a proposal, a thread that is none of its workers undoes the step that made the goal.
ghost use Rattle.std.specs.Prelude.{◌≡◌, ◌≤◌, ◌<◌, ◌+◌, ℕ, length, IfSome};
ghost use Rattle.std.specs.Vec.{vec_len};
ghost use Rattle.ghc_records.specs.Journal.{history};
ghost use Rattle.ghc_shared.specs.Passes.{AreAll};
ghost use Rattle.ghc_shared.specs.inner.Calls.{code_of};

use crate::answer::{Answer, Work};
use crate::gate::Gate;
use crate::mode::Mode;
use crate::rounds::round::{RoundReport, round};
use crate::scope::Scope;
use crate::tests::played_again::is_played_again;
use crate::tests::unifications::{core_of, counts, goal};
use ghc_core::{Command, Core, Reply};
use ghc_fire::Meter;
use ghc_records::{Entry, Journal};
use ghc_shared::{Naming, Opening, Pass, Shared};
use ghc_term::{Fault, GoalName};
use ghc_trace::SpySet;
use std::alloc::Global;
use std::marker::Brand;
use std::process::Abort;
use std::sync::Wait;
use std::sync::atomic::{AtomicU64, Ordering};
use std::test::*;
use std::thread;
use std::thread::Threads;
use std::time::{Clock, Duration};

// A gate at which the worker that holds a proposal of goal 1.1 waits until a thread that is no worker has undone step 1, which made 1.1.
// Each word is 1 when it was so, and 0 before.
#[derive(Drop)]
struct Undoing<'a, R: Wait + Clock> {
    rt: &'a R,
    // A proposal of 1.1 is held.
    held: AtomicU64,
    // Just step 1 was undone.
    undone: AtomicU64,
    // The worker that waited saw that.
    seen: AtomicU64,
}

// Whether just step 1 was undone.
fn is_first_undone(reply: &Reply) -> bool {
    match reply {
        Reply::Undone(steps) => steps.len() == 1 && steps[0] == 1,
        _ => false,
    }
}

impl<'a, R: Wait + Clock> Undoing<'a, R> {
    // The gate before a proposal of 1.1 is held.
    fn new(rt: &'a R) -> Undoing<'a, R> {
        Undoing {
            rt,
            held: AtomicU64::new(0),
            undone: AtomicU64::new(0),
            seen: AtomicU64::new(0),
        }
    }

    // Whether the word is 1 within 10,000 turns of a millisecond's sleep.
    fn is_set(&self, word: &AtomicU64) -> bool {
        for _ in 0..10_000 {
            if word.load(Ordering::SeqCst) == 1 {
                return true;
            }
            thread::sleep(self.rt, Duration::from_millis(1));
        }
        false
    }

    // Undoes step 1 with the pass, once a proposal of 1.1 is held, and gives the pass back.
    fn undo<N: Naming>(
        &self,
        alloc: Global,
        shared: &Shared<Core, N>,
        pass: Pass<Core, N>,
    ) -> Pass<Core, N>
        ensures { result.number ≡ pass.number }
    {
        let mut me = pass;
        if self.is_set(&self.held) {
            let receipt = shared.command(self.rt, alloc, &mut me, Command::Undo(1));
            if is_first_undone(&receipt.reply) {
                self.undone.store(1, Ordering::SeqCst);
            }
        }
        me
    }
}

impl<R: Wait + Clock> Gate for Undoing<'_, R> {
    fn held(&self, worker: usize, goal: GoalName) {
        let _ = worker;
        if goal.step == 1 && goal.place == 1 {
            self.held.store(1, Ordering::SeqCst);
            if self.is_set(&self.undone) {
                self.seen.store(1, Ordering::SeqCst);
            }
        }
    }

    fn answered(&self, worker: usize, goal: GoalName) {
        let _ = worker;
        let _ = goal;
    }

    fn holds_up(&self) -> bool {
        true
    }
}

// A round of goal 1.1 alone, by a worker for each pass; none where memory is refused for it.
fn round_of_one<N: Naming + Send + Sync, R: Threads + Wait + Clock + Sync>(
    gate: &Undoing<'_, R>,
    alloc: Global,
    shared: &Shared<Core, N>,
    passes: Vec<Pass<Core, N>>,
) -> Option<(Vec<Pass<Core, N>>, RoundReport)>
    requires count { (0 < vec_len passes) × (vec_len passes ≤ 64) }
    ensures all { (n k : ℕ) → AreAll n k passes.items → IfSome result (λ r. AreAll n k r.0.items) }
{
    let names = [GoalName { step: 1, place: 1 }];
    let spies = SpySet::new(alloc);
    let mode = Mode::Leap { limit: 10 };
    match round(
        gate.rt,
        alloc,
        shared,
        passes,
        &mode,
        &Scope::Any,
        &spies,
        &names,
        gate,
    ) {
        Ok(ended) => Some(ended),
        Err(_passes) => None,
    }
}

// How many submits of goal 1.1 were refused as stale.
fn stale_in(work: &Work) -> usize {
    let mut stale = 0usize;
    for taken in &work.taken {
        if let (GoalName { step: 1, place: 1 }, Answer::Submitted(receipt)) = taken {
            if !receipt.accepted && matches!(receipt.reply, Reply::Refused(Fault::Stale)) {
                stale = stale.wrapping_add(1);
            }
        }
    }
    stale
}

// How many of all workers were.
fn stale_of(report: &RoundReport) -> usize {
    let mut stale = 0usize;
    for work in &report.workers {
        stale = stale.wrapping_add(stale_in(work));
    }
    stale
}

// Whether the journal tells that step 1 was taken and undone, and nothing else.
fn is_taken_and_undone(journal: &Journal) -> bool {
    match (journal.at(0), journal.at(1)) {
        (Some(Entry::Took(step)), Some(Entry::Undid(number))) => {
            journal.len() == 2 && step.number() == 1 && *number == 1
        }
        _ => false,
    }
}

const APPEND: &[u8] =
    b"append([],Y,Z) :- true | Z = Y. append([A|X],Y,Z) :- true | Z = [A|Z1], append(X,Y,Z1).";

// The core of a query of which no step is taken.
fn unbegun(alloc: Global) -> Option<Core> {
    core_of(alloc, APPEND, b"append([1],[2],R)")
}

// The same core after step 1, which makes 1.1 and 1.2.
fn begun(alloc: Global) -> Option<Core> {
    let mut core = unbegun(alloc)?;
    let mut meter = Meter::new();
    let proposal = core.attempt(alloc, &mut meter, goal(1), None).ok()?;
    core.commit(alloc, &proposal).ok()?;
    Some(core)
}

#[test]
fn undo_under_a_held_proposal(rt: HostRuntime) -> Result<(), Fail> {
    let core = begun(rt.alloc()).ok_or("a core")?;
    let Ok(opening) = Opening::new(rt.alloc(), core, 3) else {
        return Err("memory for the table".into());
    };
    undo_named::<Brand, _>(&rt, rt.alloc(), opening)
}

// Step 1 was taken before. While one of two workers holds a proposal of 1.1, a thread that is no worker undoes step 1 with the first
// pass. So the proposal is stale and nothing is kept; the journal comes again where a new core is given its events.
fn undo_named<N: Naming + Send + Sync, R: Threads + Wait + Clock + Abort + Sync>(
    rt: &R,
    alloc: Global,
    opening: Opening<Core>,
) -> Result<(), Fail>
    requires table { opening.table ≡ N.table }
    requires ledger { (opening.name ≡ N.name) × (opening.passes + 1 ≡ N.parts) }
    requires passes { opening.passes ≡ N.passes }
    requires opened { code_of opening.value.world.opening ≡ N.opened }
    requires base { length (history opening.value.world.opening opening.value.world.journal) ≡ N.base }
{
    let Ok((shared, mut passes)) = opening.named::<N>(alloc) else {
        return Err("memory for the passes".into());
    };
    if passes.len() < 2 || passes.len() > 64 {
        return Err("three passes".into());
    }
    let other = passes.remove(0);
    let gate = Undoing::new(rt);
    let (other, ended) = thread::join(
        rt,
        ||
            ensures { result.number ≡ other.number }
        { gate.undo(alloc, &shared, other) },
        ||
            requires { (0 < vec_len passes) × (vec_len passes ≤ 64) }
            ensures { (n k : ℕ) → AreAll n k passes.items → IfSome result (λ r. AreAll n k r.0.items) }
        { round_of_one(&gate, alloc, &shared, passes) },
    );
    let (mut passes, report) = ended.ok_or("memory for the round")?;
    assert_eq!(rt; gate.seen.load(Ordering::SeqCst), 1);
    assert_eq!(rt; counts(&report), (1, 1, 0, 0));
    assert_eq!(rt; stale_of(&report), 1);
    assert!(rt; report.stop.is_none());
    let Ok(()) = passes.insert(0, other) else {
        return Err("memory for the passes".into());
    };
    let core = shared.close(passes);
    assert_eq!(rt; core.records().len(), 0);
    assert!(rt; is_taken_and_undone(core.journal()));
    let new = unbegun(alloc).ok_or("a core")?;
    assert!(rt; is_played_again(alloc, core.journal(), new));
    Ok(())
}
