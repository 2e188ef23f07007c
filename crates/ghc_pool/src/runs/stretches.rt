// Stretches of a run by several workers.
ghost use Rattle.std.specs.Prelude.{◌≡◌, ◌≤◌, ◌<◌, ◌^◌, length, All, IfOk};
ghost use Rattle.ghc_term.specs.Lists.{In};
ghost use Rattle.ghc_term.specs.declared.goal_name.GoalName.{GoalName as goal_name};
ghost use Rattle.ghc_pool.specs.Runs.{HasFailed, IsInQuestion};
ghost use Rattle.ghc_pool.specs.inner.Told.{Covers};
ghost use Rattle.ghc_pool.specs.inner.Stretches.{TakesSoMany, TakesAtMost};

use crate::gate::Gate;
use crate::runs::drain::drain;
use crate::runs::round_of_run::work_off;
use crate::scope::Scope;
use crate::workers::Workers;
use ghc_core::Core;
use ghc_shared::Opening;
use ghc_term::GoalName;
use ghc_trace::SpySet;
use std::alloc::{AllocError, Global};
use std::collections::BTreeSet;
use std::marker::Brand;
use std::sync::Wait;
use std::thread::Threads;

// How many steps one worker takes at most in a stretch.
const MOST_ALONE: usize = 64;

// How many goals are handed to a round at most.
const MOST_NAMES: usize = 1_000_000;

// What a run by several workers goes by.
#[derive(Drop)]
pub struct Team<'a, R: Wait, G: Gate> {
    pub rt: &'a R,
    pub alloc: Global,
    pub spies: &'a SpySet,
    pub gate: &'a G,
    pub workers: Workers,
}

// The names as a set.
fn set_of(alloc: Global, names: &[GoalName]) -> Result<BTreeSet<GoalName>, AllocError>
    ensures { IfOk result (λ set. All (λ g. In g names.now) set.keys) }
{
    let mut set = BTreeSet::new(alloc);
    for name in names {
        match set.insert(*name) {
            Ok(_) => {}
            Err(_) => return Err(AllocError),
        }
    }
    Ok(set)
}

// What a round may step: any goal, or where a root is named, the goals of these names, which are in question, and those that are
// made from now on. It puts the names in order.
fn scope_of(
    core: &Core,
    alloc: Global,
    root: Option<GoalName>,
    names: &[GoalName],
) -> Result<Scope, AllocError>
    requires { (g : goal_name) → In g names.now → IsInQuestion root core.now.world.kept g }
    ensures { IfOk result (λ scope. Covers root core.now.world scope) }
{
    match root {
        None => Ok(Scope::Any),
        Some(_) => {
            let names = set_of(alloc, names)?;
            Ok(Scope::Of {
                names,
                since: core.next(),
            })
        }
    }
}

// How many steps one worker takes at most in a stretch, of so many that may be taken.
fn alone_at_most(most: usize) -> usize
    ensures { result ≤ most }
{
    if most < MOST_ALONE {
        return most;
    }
    MOST_ALONE
}

impl<R: Threads + Wait + Sync, G: Gate + Sync> Team<'_, R, G> {
    // Takes steps by one worker, which starts no thread: as many as a stretch of one may have, and at most as many as it may.
    fn take_alone(
        &self,
        core: &mut Core,
        root: Option<GoalName>,
        most: usize,
        ready: Vec<GoalName>,
    ) -> usize
        requires { (g : goal_name) → ¬ HasFailed root core.old.world g }
        ensures taken { TakesSoMany result self.now.workers self.now.spies.now root core.old.world core.old.notes core.new.world core.new.notes }
        ensures few { result ≤ most }
    {
        let mut listed = ready;
        drain(
            core,
            self.alloc,
            self.spies,
            root,
            alone_at_most(most),
            &mut listed,
        )
    }

    // Shares the core among the workers, and has them work off the names; where memory is refused for that, nothing is done.
    fn share(&self, core: Core, root: Option<GoalName>, most: usize, ready: &[GoalName]) -> Core
        requires several { self.now.workers ≡ 1 → ⊥ }
        requires asked { (g : goal_name) → In g ready.now → IsInQuestion root core.world.kept g }
        requires few { length ready.now < 2 ^ 60 }
        ensures { TakesAtMost most self.now.workers self.now.spies.now root core.world core.notes result.world result.notes }
    {
        let Ok(scope) = scope_of(&core, self.alloc, root, ready) else {
            return core;
        };
        core.stands();
        match Opening::new(self.alloc, core, self.workers.passes()) {
            Ok(opening) => work_off::<Brand, R, G>(self, opening, root, most, &scope, ready),
            Err(core) => core,
        }
    }

    // Takes steps by all workers, at most as many as it may, and says how many: a round of as many of the goals as one may be handed.
    fn take_together(
        &self,
        core: Core,
        root: Option<GoalName>,
        most: usize,
        ready: Vec<GoalName>,
    ) -> (Core, usize)
        requires several { self.now.workers ≡ 1 → ⊥ }
        requires asked { (g : goal_name) → In g ready.items → IsInQuestion root core.world.kept g }
        ensures taken { TakesSoMany result.1 self.now.workers self.now.spies.now root core.world core.notes result.0.world result.0.notes }
        ensures few { result.1 ≤ most }
    {
        let mut ready = ready;
        ready.truncate(MOST_NAMES);
        let before = core.records().len();
        let core = self.share(core, root, most, &ready);
        let after = core.records().len();
        (core, after - before)
    }

    // Takes steps, at most as many as it may, and says how many, where these goals are in question: by one worker, if there is one
    // goal alone, and else by all.
    pub fn stretch(
        &self,
        core: Core,
        root: Option<GoalName>,
        most: usize,
        ready: Vec<GoalName>,
    ) -> (Core, usize)
        requires several { self.now.workers ≡ 1 → ⊥ }
        requires unfailed { (g : goal_name) → ¬ HasFailed root core.world g }
        requires asked { (g : goal_name) → In g ready.items → IsInQuestion root core.world.kept g }
        ensures taken { TakesSoMany result.1 self.now.workers self.now.spies.now root core.world core.notes result.0.world result.0.notes }
        ensures few { result.1 ≤ most }
    {
        if ready.len() == 1 {
            let mut core = core;
            let taken = self.take_alone(&mut core, root, most, ready);
            return (core, taken);
        }
        self.take_together(core, root, most, ready)
    }
}
