// Four threads take the steps of one core, each by a pass of its own.
ghost use Rattle.std.specs.Prelude.{◌≡◌, ◌+◌, length};
ghost use Rattle.ghc_records.specs.Journal.{history};
ghost use Rattle.ghc_shared.specs.inner.Calls.{code_of};
ghost use Rattle.ghc_shared.specs.Passes.{AreAll};

use crate::tests::unifications::{goal, hundred};
use crate::{Naming, Opening, Pass, Shared, Tender, tend_all};
use ghc_core::{Core, Reply};
use ghc_fire::Meter;
use ghc_hooks::Verdict;
use ghc_term::{Fault, GoalName};
use std::alloc::Global;
use std::marker::Brand;
use std::process::Abort;
use std::sync::Wait;
use std::sync::atomic::{AtomicU64, Ordering};
use std::test::*;
use std::thread::Threads;

// What is done with each pass.
#[derive(Clone, Copy)]
enum Task {
    // A note of the first goal says that it is ready.
    Note,
    // 25 goals are taken.
    Take,
    // The first goal is not there any more, and a look shows a hundred entries.
    Look,
}

// What the threads share; they count the passes with which it went as it should.
#[derive(Drop)]
struct Hands<'a, N: Naming, R: Wait> {
    rt: &'a R,
    alloc: Global,
    shared: &'a Shared<Core, N>,
    task: Task,
    done: AtomicU64,
}

impl<N: Naming, R: Wait> Hands<'_, N, R> {
    fn is_noted(&self, me: &mut Pass<Core, N>) -> bool
        ensures { me.new.number ≡ me.old.number }
    {
        let receipt = self.shared.note(self.rt, self.alloc, me, goal(1));
        matches!(receipt.reply, Reply::Noted(_, Verdict::Ready))
    }

    fn is_taken(&self, me: &mut Pass<Core, N>, goal: GoalName) -> bool
        ensures { me.new.number ≡ me.old.number }
    {
        let mut meter = Meter::new();
        match self
            .shared
            .propose(self.rt, self.alloc, &mut meter, goal, None)
        {
            Ok(proposal) => self
                .shared
                .submit(self.rt, self.alloc, me, proposal)
                .accepted,
            Err(_) => false,
        }
    }

    fn is_taken_at_once(&self, me: &mut Pass<Core, N>, goal: GoalName) -> bool
        ensures { me.new.number ≡ me.old.number }
    {
        let mut woken = Vec::new(self.alloc);
        let taken = self
            .shared
            .step_at_once(self.rt, self.alloc, me, goal, &mut woken);
        match taken {
            Ok((receipt, made)) => receipt.accepted && made == 0,
            Err(_) => false,
        }
    }

    // The goals after those of the earlier passes, the last of them at once.
    fn are_taken(&self, me: &mut Pass<Core, N>) -> bool
        ensures { me.new.number ≡ me.old.number }
    {
        let Ok(number) = u32::try_from(me.number) else {
            return false;
        };
        let front = number.wrapping_mul(25);
        for place in 1..25 {
            if !self.is_taken(me, goal(front.wrapping_add(place))) {
                return false;
            }
        }
        self.shared.has_few_clauses(self.rt)
            && self.is_taken_at_once(me, goal(front.wrapping_add(25)))
    }

    fn is_gone(&self) -> bool {
        let mut meter = Meter::new();
        let proposed = self
            .shared
            .propose(self.rt, self.alloc, &mut meter, goal(1), None);
        matches!(proposed, Err(Fault::NoGoal))
    }

    fn is_shown(&self, me: &mut Pass<Core, N>) -> bool
        ensures { me.new.number ≡ me.old.number }
    {
        match self.shared.look(self.rt, self.alloc, me) {
            Ok(shown) => shown.length == 100 && shown.kept.len() == 100,
            Err(_) => false,
        }
    }

    fn is_done(&self, me: &mut Pass<Core, N>) -> bool
        ensures { me.new.number ≡ me.old.number }
    {
        match self.task {
            Task::Note => self.is_noted(me),
            Task::Take => self.are_taken(me),
            Task::Look => self.is_shown(me) && self.is_gone(),
        }
    }
}

impl<N: Naming, R: Wait> Tender<Pass<Core, N>> for Hands<'_, N, R> {
    ghost can = { λ _ _. Unit {0} };

    ghost does = { λ _ p q. q.number ≡ p.number };

    fn tend(&self, job: &mut Pass<Core, N>) {
        if self.is_done(job) {
            self.done.fetch_add(1, Ordering::SeqCst);
        }
    }
}

// Does the task with each pass, in a thread of its own, and says whether it went as it should with all four.
fn do_in_threads<N: Naming + Send + Sync, R: Threads + Wait + Sync>(
    rt: &R,
    alloc: Global,
    shared: &Shared<Core, N>,
    passes: &mut Vec<Pass<Core, N>>,
    task: Task,
) -> bool
    requires { AreAll N.passes 0 passes.old.items }
    ensures { AreAll N.passes 0 passes.new.items }
{
    let hands = Hands {
        rt,
        alloc,
        shared,
        task,
        done: AtomicU64::new(0),
    };
    tend_all(rt, &hands, passes.as_mut_slice(), 4);
    hands.done.load(Ordering::SeqCst) == 4
}

// The first two passes meet, where there are two.
fn meet_first_two<N: Naming, R: Wait>(
    rt: &R,
    shared: &Shared<Core, N>,
    passes: &mut [Pass<Core, N>],
) -> bool
    requires { AreAll N.passes 0 passes.old }
    ensures { AreAll N.passes 0 passes.new }
{
    let Some((me, others)) = passes.split_first_mut() else {
        return false;
    };
    let Some((you, _others)) = others.split_first_mut() else {
        return false;
    };
    shared.meet(rt, me, you);
    true
}

// The first two of these meet.
fn meet_in<N: Naming, R: Wait>(
    rt: &R,
    shared: &Shared<Core, N>,
    passes: &mut Vec<Pass<Core, N>>,
) -> bool
    requires { AreAll N.passes 0 passes.old.items }
    ensures { AreAll N.passes 0 passes.new.items }
{
    meet_first_two(rt, shared, passes.as_mut_slice())
}

#[test]
fn four_passes(rt: HostRuntime) -> Result<(), Fail> {
    let core = hundred(rt.alloc()).ok_or("a core")?;
    let Ok(opening) = Opening::new(rt.alloc(), core, 4) else {
        return Err("memory for the table".into());
    };
    four_named::<Brand, _>(&rt, rt.alloc(), opening)
}

// Each pass takes 25 goals; then each of the places 1 to 100, after the opening at place 0, is one pass's, and all 100 steps are kept.
fn four_named<N: Naming + Send + Sync, R: Threads + Wait + Abort + Sync>(
    rt: &R,
    alloc: Global,
    opening: Opening<Core>,
) -> Result<(), Fail>
    requires table { opening.table ≡ N.table }
    requires ledger { (opening.name ≡ N.name) × (opening.passes + 1 ≡ N.parts) }
    requires passes { opening.passes ≡ N.passes }
    requires opened { code_of opening.value.world.opening ≡ N.opened }
    requires base { length (history opening.value.world.opening opening.value.world.journal) ≡ N.base }
{
    let Ok((shared, mut passes)) = opening.named::<N>(alloc) else {
        return Err("memory for the passes".into());
    };
    assert!(rt; do_in_threads(rt, alloc, &shared, &mut passes, Task::Note));
    assert!(rt; do_in_threads(rt, alloc, &shared, &mut passes, Task::Take));
    assert!(rt; do_in_threads(rt, alloc, &shared, &mut passes, Task::Look));
    assert!(rt; meet_in(rt, &shared, &mut passes));
    let mut seen = [0u8; 101];
    for pass in &passes {
        assert_eq!(rt; pass.places().len(), 25);
        for place in pass.places() {
            if *place < 101 {
                seen[*place as usize] = 1;
            }
        }
    }
    for place in 1..101 {
        assert_eq!(rt; seen[place], 1);
    }
    let core = shared.close(passes);
    assert_eq!(rt; core.records().len(), 100);
    Ok(())
}
