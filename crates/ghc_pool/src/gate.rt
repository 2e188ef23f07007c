// Where a worker can be held up.

use ghc_term::GoalName;

/// What a worker calls between its calls of the core, each time with no lock held. It may wait there. Nothing is promised of it, and no
/// contract says that a worker calls it: two tests hold workers up here.
pub trait Gate {
    /// The worker of this number holds a proposed step of the goal, and has not submitted it.
    fn held(&self, worker: usize, goal: GoalName);

    /// What the worker submitted for the goal was answered.
    fn answered(&self, worker: usize, goal: GoalName);

    /// Whether a worker may be held up here. Where none is, a light step is taken at once, with no call of the two above.
    fn holds_up(&self) -> bool;
}
