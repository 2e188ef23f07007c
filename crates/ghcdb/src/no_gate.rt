// The gate of the program's own runs.
use ghc_pool::Gate;
use ghc_term::GoalName;

/// A gate that holds no worker up.
#[derive(Clone, Copy, Drop)]
pub struct NoGate;

impl Gate for NoGate {
    fn held(&self, worker: usize, goal: GoalName) {
        let _ = (worker, goal);
    }

    fn answered(&self, worker: usize, goal: GoalName) {
        let _ = (worker, goal);
    }

    fn holds_up(&self) -> bool {
        false
    }
}
