// The pools of goals, and the names of all.
ghost use Rattle.std.specs.Prelude.{◌≡◌, map, IfOk};
ghost use Rattle.std.specs.FinMap as finite;
ghost use Rattle.ghc_hooks.specs.declared.face.status.Kind.TheVariants.{Ready, Waiting, Failed, Stream};
ghost use Rattle.ghc_hooks.specs.inner.Parts.{TellsPool};

use crate::face::status::Kind;
use crate::face::statuses::Statuses;
use crate::goal_set::GoalSet;
use ghc_fire::Goals;
use ghc_term::{Goal, GoalName};
use std::alloc::{AllocError, Global};
use std::collections::BTreeMap;

// The names by which the goals are listed.
fn names_in(alloc: Global, by_name: &BTreeMap<GoalName, &Goal>) -> Result<Vec<GoalName>, AllocError>
    ensures { IfOk result (λ names. names.items ≡ map (λ e. e.0) by_name.now.entries) }
{
    by_name.keys().copied().collect(alloc)
}

// The names of the goals, in order: what listing them by name costs.
pub fn names_of(alloc: Global, goals: &Goals) -> Result<Vec<GoalName>, AllocError>
    ensures { IfOk result (λ names. names.items ≡ finite.keys goals.now.held) }
{
    names_in(alloc, &goals.by_name(alloc)?)
}

// Those of the goals whose status is of this kind: two look-ups for each.
fn pool_of(
    alloc: Global,
    statuses: &Statuses,
    names: &[GoalName],
    kind: Kind,
) -> Result<GoalSet, AllocError>
    ensures { IfOk result (λ pool. TellsPool statuses.now kind names.now pool.held) }
{
    let mut pool = GoalSet::new(alloc);
    for name in names {
        if statuses.is_of(*name, kind) {
            pool.insert(*name)?;
        }
    }
    Ok(pool)
}

// The same for two kinds.
#[inline(always)]
fn pools_of(
    alloc: Global,
    statuses: &Statuses,
    names: &[GoalName],
    first: Kind,
    second: Kind,
) -> Result<(GoalSet, GoalSet), AllocError>
    ensures first { IfOk result (λ pools. TellsPool statuses.now first names.now pools.0.held) }
    ensures second { IfOk result (λ pools. TellsPool statuses.now second names.now pools.1.held) }
{
    let pool = pool_of(alloc, statuses, names, first)?;
    Ok((pool, pool_of(alloc, statuses, names, second)?))
}

// The goals of each kind of status.
pub struct Pools {
    pub ready: GoalSet,
    pub waiting: GoalSet,
    pub failed: GoalSet,
    pub streams: GoalSet,
}

impl Drop for Pools {
    fn drop(self) {
        let Pools {
            ready: _ready,
            waiting: _waiting,
            failed: _failed,
            streams: _streams,
        } = self;
    }
}

impl Pools {
    // The pools of these goals by their statuses: two look-ups for each goal and each pool.
    pub fn of(alloc: Global, statuses: &Statuses, names: &[GoalName]) -> Result<Pools, AllocError>
        ensures ready { IfOk result (λ pools. TellsPool statuses.now Ready names.now pools.ready.held) }
        ensures waiting { IfOk result (λ pools. TellsPool statuses.now Waiting names.now pools.waiting.held) }
        ensures failed { IfOk result (λ pools. TellsPool statuses.now Failed names.now pools.failed.held) }
        ensures streams { IfOk result (λ pools. TellsPool statuses.now Stream names.now pools.streams.held) }
    {
        let (ready, waiting) = pools_of(alloc, statuses, names, Kind::Ready, Kind::Waiting)?;
        let (failed, streams) = pools_of(alloc, statuses, names, Kind::Failed, Kind::Stream)?;
        Ok(Pools {
            ready,
            waiting,
            failed,
            streams,
        })
    }
}
