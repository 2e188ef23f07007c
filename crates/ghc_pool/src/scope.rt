// Which goals a round may step.

use ghc_term::GoalName;
use std::collections::BTreeSet;

/// Which goals a round may step.
#[derive(Drop)]
pub enum Scope {
    /// Any goal.
    Any,
    /// Those of these names, and those that the step of this number or a later one makes.
    Of {
        names: BTreeSet<GoalName>,
        since: u32,
    },
}

impl Scope {
    ghost use Rattle.std.specs.Prelude.{◌↔◌, IsTrue};
    ghost use Rattle.ghc_pool.specs.inner.Told.{IsInScope};

    /// Whether a round may step the goal: a comparison, and as many more as the logarithm of the number of names.
    pub fn has(&self, goal: GoalName) -> bool
        ensures { IsTrue result ↔ IsInScope self.now goal }
    {
        match self {
            Scope::Any => true,
            Scope::Of { names, since } => {
                if goal.step >= *since {
                    return true;
                }
                names.contains(&goal)
            }
        }
    }
}
