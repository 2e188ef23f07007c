// A round of a run by several workers.
ghost use Rattle.std.specs.Prelude.{◌≡◌, ◌+◌, ◌<◌, ◌≤◌, ◌^◌, length};
ghost use Rattle.ghc_records.specs.Journal.{history};
ghost use Rattle.ghc_core.specs.Core.{IsStanding};
ghost use Rattle.ghc_shared.specs.inner.Calls.{code_of};
ghost use Rattle.ghc_pool.specs.inner.Told.{Covers};
ghost use Rattle.ghc_pool.specs.inner.Stretches.{TakesAtMost};

use crate::gate::Gate;
use crate::mode::Mode;
use crate::rounds::round::round;
use crate::runs::stretches::Team;
use crate::scope::Scope;
use ghc_core::Core;
use ghc_shared::{Naming, Opening};
use ghc_term::GoalName;
use std::sync::Wait;
use std::thread::Threads;

// The workers work off the names, at most so many submits, and the core comes back; where memory is refused for what a round has to
// have room for, as it was.
pub fn work_off<N: Naming + Send + Sync, R: Threads + Wait + Sync, G: Gate + Sync>(
    team: &Team<'_, R, G>,
    opening: Opening<Core>,
    root: Option<GoalName>,
    most: usize,
    scope: &Scope,
    names: &[GoalName],
) -> Core
    requires several { team.now.workers ≡ 1 → ⊥ }
    requires count { (opening.passes ≡ team.now.workers) × (0 < opening.passes) × (opening.passes ≤ 64) }
    requires few { length names.now < 2 ^ 60 }
    requires covers { Covers root opening.value.world scope.now }
    requires standing { IsStanding opening.value.world }
    requires table { opening.table ≡ N.table }
    requires ledger { (opening.name ≡ N.name) × (opening.passes + 1 ≡ N.parts) }
    requires passes { opening.passes ≡ N.passes }
    requires opened { code_of opening.value.world.opening ≡ N.opened }
    requires base { length (history opening.value.world.opening opening.value.world.journal) ≡ N.base }
    ensures { TakesAtMost most team.now.workers team.now.spies.now root opening.value.world opening.value.notes result.world result.notes }
{
    let mode = Mode::Leap { limit: most };
    match opening.named::<N>(team.alloc) {
        Ok((shared, passes)) => {
            let worked = round(
                team.rt, team.alloc, &shared, passes, &mode, scope, team.spies, names, team.gate,
            );
            match worked {
                Ok((passes, _report)) => {
                    let core = shared.close(passes);
                    core.stands();
                    core
                }
                Err(passes) => {
                    let core = shared.close(passes);
                    core.stands();
                    core
                }
            }
        }
        Err(core) => core,
    }
}
