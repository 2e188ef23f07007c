// The end of a round: when all passes are back, what is still in the deques is decided, as long as there is no reason to stop, and
// else it is left.
ghost use Rattle.std.specs.Prelude.{◌≡◌, ◌≤◌, ◌+◌, ◌<◌, [], ◌∷◌, ℕ, List, length, true, false};
ghost use Rattle.std.specs.Vec.{vec_len};
ghost use Rattle.crossbeam_deque.specs.Handles.{worker_view};
ghost use Rattle.ghc_term.specs.declared.goal_name.GoalName.{GoalName as goal_name};
ghost use Rattle.ghc_pool.specs.inner.Fair.{weigh};
ghost use Rattle.ghc_pool.specs.inner.Workers.{work_of, works, IsAble, HasRoom, Keeps, submits, over, in_of, out_of, submits_of};
ghost use Rattle.ghc_pool.specs.inner.Stops.{IsSpent, AreJudged, GoesOn, WentOn};
ghost use Rattle.ghc_pool.specs.inner.Gathered.{IsPending, ArePending, AreDrained, AreTold, FirstBegins};

use crate::answer::RoundStop;
use crate::craft::Craft;
use crate::rounds::budget::Limited;
use crate::rounds::permits::Permits;
use crate::rounds::rule::TakesLast;
use crate::rounds::worker::Worker;
use ghc_term::GoalName;
use std::sync::Wait;

// Whether a name may still be decided: where steps are taken, a permit is needed.
fn may_decide<P, C: Craft<P>, L: Limited>(craft: &C, permits: &mut Permits<L>) -> bool
    requires { 0 < permits.old.share.parts }
    ensures parts { permits.new.share.parts ≡ permits.old.share.parts }
    ensures one { result ≡ true → C.takes craft.now ≡ true → 0 < permits.new.spare }
    ensures none { result ≡ false → IsSpent (C.takes craft.now) permits.new.spare permits.new.budget.left }
    ensures counted { permits.new.share.amount + permits.old.spare ≡ permits.old.share.amount + permits.new.spare }
{
    if !craft.takes_steps() {
        return true;
    }
    permits.are_there()
}

impl Worker {
    // The name that is in hand is left.
    fn leave(&mut self, name: GoalName)
        requires able { IsAble self.old }
        requires room { HasRoom (length (worker_view self.old.owner).got) self.old }
        requires few { length (worker_view self.old.owner).got ≤ length (worker_view self.old.owner).put }
        ensures keeps { Keeps (name ∷ []) [] self.old self.new }
        ensures room { HasRoom (length (worker_view self.new.owner).got + 1) self.new }
        ensures taken { self.new.taken ≡ self.old.taken }
    {
        self.left.push_reserved(name);
    }

    // The name that is in hand when all passes are back is decided where there is no reason to stop, and else it is left.
    fn meet_last<P, C: Craft<P>, L: Limited>(
        &mut self,
        craft: &C,
        number: usize,
        pass: &mut P,
        permits: &mut Permits<L>,
        stop: Option<RoundStop>,
        name: GoalName,
    ) -> Option<RoundStop>
        requires able { IsAble self.old }
        requires room { HasRoom (length (worker_view self.old.owner).got) self.old }
        requires few { length (worker_view self.old.owner).got ≤ length (worker_view self.old.owner).put }
        requires part { 0 < permits.old.share.parts }
        requires goes_on { GoesOn (C.fed craft.now) (C.asks craft.now) stop (work_of self.old) }
        ensures keeps { Keeps (name ∷ []) [] self.old self.new }
        ensures room { HasRoom (length (worker_view self.new.owner).got + 1) self.new }
        ensures parts { permits.new.share.parts ≡ permits.old.share.parts }
        ensures went { WentOn (C.fed craft.now) (C.asks craft.now) (IsSpent (C.takes craft.now) permits.new.spare permits.new.budget.left) stop result (work_of self.old) (work_of self.new) permits.old permits.new }
        ensures tells { (start : P) → C.tells craft.now start self.old.taken.items pass.old → C.tells craft.now start self.new.taken.items pass.new }
        ensures counted { permits.new.share.amount + (permits.old.spare + submits self.old.taken.items) ≡ permits.old.share.amount + (permits.new.spare + submits self.new.taken.items) }
    {
        if stop.is_some() {
            self.leave(name);
            return stop;
        }
        let Ok(()) = self.taken.reserve(1) else {
            self.leave(name);
            return Some(RoundStop::Memory);
        };
        if !may_decide(craft, permits) {
            self.leave(name);
            return Some(RoundStop::Limit);
        }
        self.handle(craft, number, pass, &mut permits.spare, name, None);
        self.stop
    }

    // What is still in the worker's deque when all passes are back is decided or left, and the reason to stop is given, if there
    // is one then.
    fn drain<P, C: Craft<P>, L: Limited, R: Wait>(
        &mut self,
        rt: &R,
        craft: &C,
        number: usize,
        pass: &mut P,
        permits: &mut Permits<L>,
        stop: Option<RoundStop>,
    ) -> Option<RoundStop>
        requires pending { IsPending self.old }
        requires part { 0 < permits.old.share.parts }
        requires goes_on { GoesOn (C.fed craft.now) (C.asks craft.now) stop (work_of self.old) }
        ensures keeps { Keeps [] [] self.old self.new }
        ensures empty { (h : goal_name → ℕ) → weigh h (worker_view self.new.owner).put ≡ weigh h (worker_view self.new.owner).got }
        ensures parts { permits.new.share.parts ≡ permits.old.share.parts }
        ensures went { WentOn (C.fed craft.now) (C.asks craft.now) (IsSpent (C.takes craft.now) permits.new.spare permits.new.budget.left) stop result (work_of self.old) (work_of self.new) permits.old permits.new }
        ensures tells { (start : P) → C.tells craft.now start self.old.taken.items pass.old → C.tells craft.now start self.new.taken.items pass.new }
        ensures counted { permits.new.share.amount + (permits.old.spare + submits self.old.taken.items) ≡ permits.old.share.amount + (permits.new.spare + submits self.new.taken.items) }
    {
        let mut stop = stop;
        for _ in rt.forever() {
            match self.owner.pop_as::<TakesLast>() {
                Some(name) => stop = self.meet_last(craft, number, pass, permits, stop, name),
                None => return stop,
            }
        }
        stop
    }
}

// What is still in the deques when all passes are back is decided or left, worker by worker, and the reason to stop is given, if
// there is one then.
pub fn drain_all<P, C: Craft<P>, L: Limited, R: Wait>(
    rt: &R,
    craft: &C,
    workers: &mut Vec<Worker>,
    passes: &mut Vec<P>,
    permits: &mut Permits<L>,
    stop: Option<RoundStop>,
) -> Option<RoundStop>
    requires pending { ArePending workers.old.items }
    requires passes { vec_len passes.old ≡ vec_len workers.old }
    requires part { 0 < permits.old.share.parts }
    requires judged { AreJudged (C.fed craft.now) (C.asks craft.now) (IsSpent (C.takes craft.now) permits.old.spare permits.old.budget.left) stop (works workers.old.items) }
    ensures drained { AreDrained workers.new.items }
    ensures balance { (h : goal_name → ℕ) → over (in_of h) workers.new.items + over (out_of h) workers.old.items ≡ over (in_of h) workers.old.items + over (out_of h) workers.new.items }
    ensures judged { AreJudged (C.fed craft.now) (C.asks craft.now) (IsSpent (C.takes craft.now) permits.new.spare permits.new.budget.left) result (works workers.new.items) }
    ensures tells { (starts : List P) → AreTold (C.tells craft.now) starts (works workers.old.items) passes.old.items → AreTold (C.tells craft.now) starts (works workers.new.items) passes.new.items }
    ensures begins { (names : List goal_name) → FirstBegins names (works workers.old.items) → FirstBegins names (works workers.new.items) }
    ensures parts { permits.new.share.parts ≡ permits.old.share.parts }
    ensures counted { permits.new.share.amount + (permits.old.spare + over submits_of workers.old.items) ≡ permits.old.share.amount + (permits.new.spare + over submits_of workers.new.items) }
{
    let mut stop = stop;
    for index in 0..workers.len() {
        stop = workers[index].drain(rt, craft, index, &mut passes[index], permits, stop);
    }
    stop
}
