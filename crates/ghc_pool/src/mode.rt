// How a round works off its names.

use ghc_term::GoalName;

/// What a run does.
#[derive(Clone, Copy, Drop)]
pub enum Mode {
    /// Takes steps of any goals, at most as many as the limit.
    Leap { limit: usize },
    /// Takes steps of goals that descend from the root, at most as many as the limit.
    Skip { root: GoalName, limit: usize },
    /// Takes no step, and tries the goals.
    Settle,
}

impl Mode {
    ghost use Rattle.std.specs.Prelude.{◌≡◌};
    ghost use Rattle.ghc_pool.specs.Modes.{takes_steps, limit_of};

    /// Whether it takes steps.
    pub fn takes_steps(&self) -> bool
        ensures { result ≡ takes_steps self.now }
    {
        match self {
            Mode::Leap { .. } => true,
            Mode::Skip { .. } => true,
            Mode::Settle => false,
        }
    }

    /// How many steps it takes at most.
    pub fn limit(&self) -> u64
        ensures { result ≡ limit_of self.now }
    {
        match self {
            Mode::Leap { limit } => *limit as u64,
            Mode::Skip { root: _, limit } => *limit as u64,
            Mode::Settle => 0,
        }
    }
}
