// What the workers of a round do with a name.
ghost use Rattle.std.specs.Prelude.{◌≡◌, ◌≤◌, ◌++◌, [], ◌∷◌, List, Bool, Result, IfSome};
ghost use Rattle.ghc_term.specs.declared.goal_name.GoalName.{GoalName as goal_name};
ghost use Rattle.ghc_term.specs.declared.fault.Fault.{Fault as fault};
ghost use Rattle.ghc_core.specs.World.{Proposal as proposal};
ghost use Rattle.ghc_core.specs.Excerpt.{Excerpt as excerpt_spec};
ghost use Rattle.ghc_pool.specs.declared.answer.RoundStop.{RoundStop as round_stop};
ghost use Rattle.ghc_pool.specs.inner.Answers.{Taken, submits_in, one_if, IsReason};

use crate::answer::{Answer, RoundStop};
use ghc_core::Excerpt;
use ghc_fire::Proposal;
use ghc_term::{Fault, GoalName};

/// What came of a name: its answer, the reason to stop if it is one, the number of the step that was taken, how many goals it made, and
/// the goals that it woke. Where no step was taken, the number is 0, no goal is made, and those that it would have woken wait on.
#[derive(Drop)]
pub struct Decided {
    pub answer: Answer,
    pub stop: Option<RoundStop>,
    pub step: u32,
    pub made: u32,
    pub woken: Vec<GoalName>,
}

/// What workers share, each of whom has a pass.
pub trait Craft<P> {
    /// Whether steps are taken.
    ghost takes: { Self → Bool };

    /// What one sees of a worker: its pass as it was, the names that it took since with their answers, and its pass as it is.
    ghost tells: { Self → P → List Taken → P → Type 0 };

    /// Memory was refused for none of these names.
    ghost fed: { Self → List Taken → Type 0 };

    /// The answer to one of these names is this reason to stop.
    ghost asks: { Self → List Taken → round_stop → Type 0 };

    /// The excerpt is one of which a step of the goal with this name may be proposed.
    ghost excerpts: { Self → goal_name → excerpt_spec → Type 0 };

    /// A step of the goal with this name may be submitted, or is refused, as an attempt answered.
    ghost attempts: { Self → goal_name → Result proposal fault → Type 0 };

    /// Whether workers take names in turns, by several at one go. Else one may wait for another while it decides a name.
    fn takes_turns(&self) -> bool;

    /// Whether steps are taken, for each of which a permit is needed.
    fn takes_steps(&self) -> bool
        ensures { result ≡ takes self.now };

    /// A pass with which nothing was done so far. It does nothing.
    fn begin(&self, pass: &P)
        ensures tells { tells self.now pass.now [] pass.now }
        ensures fed { fed self.now [] };

    /// What an attempt at the name reads, where the attempt is to be made apart.
    fn excerpt(&self, name: GoalName) -> Option<Excerpt>
        ensures { IfSome result (λ e. excerpts self.now name e) };

    /// Makes the attempt, apart from all that workers share.
    fn attempt(&self, excerpt: &Excerpt) -> Result<Proposal, Fault>
        ensures { (name : goal_name) → excerpts self.now name excerpt.now → attempts self.now name result };

    /// Decides what comes of a name that the worker of this number took, for which an attempt was made apart or none. Where steps are
    /// taken it may take one.
    fn decide(
        &self,
        worker: usize,
        pass: &mut P,
        name: GoalName,
        attempt: Option<Result<Proposal, Fault>>,
    ) -> Decided
        requires { IfSome attempt (λ a. attempts self.now name a) }
        ensures tells { (start : P) (taken : List Taken) → tells self.now start taken pass.old → tells self.now start (taken ++ (name, result.answer) ∷ []) pass.new }
        ensures submits { submits_in result.answer ≤ one_if (takes self.now) }
        ensures still { (taken : List Taken) (stop : round_stop) → asks self.now taken stop → asks self.now (taken ++ (name, result.answer) ∷ []) stop }
        ensures reason { (taken : List Taken) → fed self.now taken → IsReason (fed self.now) (asks self.now) result.stop (taken ++ (name, result.answer) ∷ []) };
}
