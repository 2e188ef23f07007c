// What a round does with a goal: a step of it is proposed and submitted, or it is noted.
ghost use Rattle.std.specs.Prelude.{◌≡◌, ◌⊎◌, IsTrue, MatchOption, None, Ok, Err, true, false};
ghost use Rattle.std.specs.FinSet as set;
ghost use Rattle.ghc_core.specs.World.{World};
ghost use Rattle.ghc_shared.specs.inner.Calls.{IsProposal};
ghost use Rattle.ghc_pool.specs.declared.answer.Answer.TheVariants.{Submitted};
ghost use Rattle.ghc_pool.specs.inner.Told.{IsInScope, IsSpiedGoal, IsRefusedGoal, IsStarvedGoal, IsUnspiedStep};
ghost use Rattle.ghc_pool.specs.inner.Plans.{IsPlan, GoesOnWithout, IsDecidedAs, AreWokenOf, IsExcerptOf, IsAttempt, IsSubmitStop, step_in, made_if_stepped};

use crate::answer::{Answer, RoundStop};
use crate::craft::{Craft, Decided};
use crate::gate::Gate;
use crate::heard::{
    is_memory, is_ready, step_and_made, stop_of_note, stop_of_settling, stop_of_submit,
};
use crate::manner::Manner;
use crate::scope::Scope;
use ghc_core::{Core, Excerpt, Reply};
use ghc_fire::{Meter, Proposal};
use ghc_shared::{Naming, Pass, Receipt, Shared};
use ghc_term::{Fault, GoalName};
use ghc_trace::SpySet;
use std::alloc::{AllocError, Global};
use std::sync::Wait;

// What the workers of a round over a shared core have in common.
#[derive(Drop)]
pub struct Deciding<'a, N: Naming, R: Wait, G: Gate> {
    pub rt: &'a R,
    pub alloc: Global,
    pub shared: &'a Shared<Core, N>,
    pub scope: &'a Scope,
    pub spies: &'a SpySet,
    pub gate: &'a G,
    pub steps: bool,
    pub manner: Manner,
}

// What is to be done with a goal where steps are taken.
#[derive(Drop)]
pub enum Plan {
    // This step of it is to be submitted, and these goals looked at what it binds.
    Submit(Proposal, Vec<GoalName>),
    // It is to be noted, since the round may not step it.
    Outside,
    // It is to be noted, as a call of a spied predicate.
    Pass,
    // It is to be noted, since no step of it could be proposed.
    Refuse,
    // Nothing: memory was refused.
    Starve,
}

// What came of a step that was submitted: where it was taken, it made so many goals, and woke these.
#[inline(always)]
fn submitted(receipt: Receipt<Reply>, goals: u32, woken: Vec<GoalName>) -> Decided
    ensures answer { result.answer ≡ Submitted receipt }
    ensures stop { IsSubmitStop receipt.reply result.stop }
    ensures step { result.step ≡ step_in receipt.reply }
    ensures made { result.made ≡ made_if_stepped receipt.reply goals }
    ensures woken { result.woken ≡ woken }
{
    let stop = stop_of_submit(&receipt.reply);
    let (step, made) = step_and_made(&receipt.reply, goals);
    Decided {
        answer: Answer::Submitted(receipt),
        stop,
        step,
        made,
        woken,
    }
}

impl<N: Naming, R: Wait, G: Gate> Deciding<'_, N, R, G> {
    // What is to be done with the goal, of which this step was proposed, where these look at what it binds: it is passed over, if it is a
    // call of a spied predicate.
    #[inline(always)]
    fn plan_of(&self, goal: GoalName, proposal: Proposal, woken: Vec<GoalName>) -> Plan
        requires inside { IsInScope self.now.scope.now goal }
        requires proposed { (w : World) × IsProposal N.opened w goal None (Ok proposal) }
        requires woken { AreWokenOf N.opened goal woken.items }
        ensures { IsPlan N.opened self.now.scope.now self.now.spies.now goal result }
    {
        let _ = goal;
        if self.spies.is_spied(proposal.consumed()) {
            return Plan::Pass;
        }
        Plan::Submit(proposal, woken)
    }

    // What is to be done with the goal, of which no step could be proposed.
    #[inline(always)]
    fn plan_without(&self, goal: GoalName, fault: &Fault) -> Plan
        requires { (w : World) × IsProposal N.opened w goal None (Err fault.now) }
        ensures { IsPlan N.opened self.now.scope.now self.now.spies.now goal result }
    {
        let _ = goal;
        if is_memory(fault) {
            return Plan::Starve;
        }
        Plan::Refuse
    }

    // What is to be done with the goal where steps are taken: if the round may step it, one is proposed, which is a firing.
    fn plan(&self, goal: GoalName) -> Plan
        ensures { IsPlan N.opened self.now.scope.now self.now.spies.now goal result }
    {
        if !self.scope.has(goal) {
            return Plan::Outside;
        }
        let mut meter = Meter::new();
        let mut woken = Vec::new(self.alloc);
        match self
            .shared
            .propose_and_list(self.rt, self.alloc, &mut meter, goal, &mut woken)
        {
            Ok(proposal) => self.plan_of(goal, proposal, woken),
            Err(fault) => self.plan_without(goal, &fault),
        }
    }

    // Submits the step of the goal; where it is taken, it makes the goals that were proposed, and wakes these.
    fn submit(
        &self,
        worker: usize,
        pass: &mut Pass<Core, N>,
        goal: GoalName,
        proposal: Proposal,
        woken: Vec<GoalName>,
    ) -> Decided
        requires steps { self.now.steps ≡ true }
        requires inside { IsInScope self.now.scope.now goal }
        requires proposed { IsUnspiedStep N.opened self.now.spies.now goal proposal }
        requires woken { AreWokenOf N.opened goal woken.items }
        ensures { IsDecidedAs N.opened self.now.scope.now self.now.spies.now self.now.steps goal pass.old pass.new result }
    {
        let goals = proposal.effect().made();
        self.gate.held(worker, goal);
        let receipt = self
            .shared
            .submit_proposed(self.rt, self.alloc, pass, proposal);
        self.gate.answered(worker, goal);
        submitted(receipt, goals, woken)
    }

    // Notes the goal where no step of it may be taken; any status is the answer.
    fn note_unstepped(&self, pass: &mut Pass<Core, N>, goal: GoalName) -> Decided
        requires { (self.now.steps ≡ false) ⊎ (¬ IsInScope self.now.scope.now goal) }
        ensures { IsDecidedAs N.opened self.now.scope.now self.now.spies.now self.now.steps goal pass.old pass.new result }
    {
        let receipt = self.shared.note(self.rt, self.alloc, pass, goal);
        let stop = stop_of_settling(&receipt.reply);
        Decided {
            answer: Answer::Noted(receipt),
            stop,
            step: 0,
            made: 0,
            woken: Vec::new(self.alloc),
        }
    }

    // Notes the goal, which is a call of a spied predicate.
    fn note_spied(&self, pass: &mut Pass<Core, N>, goal: GoalName) -> Decided
        requires steps { self.now.steps ≡ true }
        requires spied { IsSpiedGoal N.opened self.now.spies.now goal }
        ensures { IsDecidedAs N.opened self.now.scope.now self.now.spies.now self.now.steps goal pass.old pass.new result }
    {
        let receipt = self.shared.note(self.rt, self.alloc, pass, goal);
        let stop = stop_of_note(&receipt.reply, goal, true);
        Decided {
            answer: Answer::Noted(receipt),
            stop,
            step: 0,
            made: 0,
            woken: Vec::new(self.alloc),
        }
    }

    // Notes the goal, of which no step could be proposed; or it is ready by now, and nothing comes of that.
    fn note_refused(&self, pass: &mut Pass<Core, N>, goal: GoalName) -> Option<Decided>
        requires steps { self.now.steps ≡ true }
        requires refused { IsRefusedGoal N.opened goal }
        ensures { MatchOption result (GoesOnWithout N.opened self.now.scope.now self.now.spies.now self.now.steps pass.old pass.new) (IsDecidedAs N.opened self.now.scope.now self.now.spies.now self.now.steps goal pass.old pass.new) }
    {
        let receipt = self.shared.note(self.rt, self.alloc, pass, goal);
        if is_ready(&receipt.reply) {
            drop(receipt);
            return None;
        }
        let stop = stop_of_note(&receipt.reply, goal, false);
        Some(Decided {
            answer: Answer::Noted(receipt),
            stop,
            step: 0,
            made: 0,
            woken: Vec::new(self.alloc),
        })
    }

    // Memory was refused for the proposal of a step of the goal.
    fn starve(&self, pass: &mut Pass<Core, N>, goal: GoalName) -> Decided
        requires steps { self.now.steps ≡ true }
        requires starved { IsStarvedGoal N.opened goal }
        ensures { IsDecidedAs N.opened self.now.scope.now self.now.spies.now self.now.steps goal pass.old pass.new result }
    {
        let _ = pass;
        let _ = goal;
        Decided {
            answer: Answer::Starved,
            stop: Some(RoundStop::Memory),
            step: 0,
            made: 0,
            woken: Vec::new(self.alloc),
        }
    }

    // Decides what comes of a goal of which no step could be proposed; or it is ready by now, and nothing comes of that.
    #[inline(always)]
    fn note_unproposed(
        &self,
        pass: &mut Pass<Core, N>,
        goal: GoalName,
        fault: &Fault,
    ) -> Option<Decided>
        requires steps { self.now.steps ≡ true }
        requires refused { (w : World) × IsProposal N.opened w goal None (Err fault.now) }
        ensures { MatchOption result (GoesOnWithout N.opened self.now.scope.now self.now.spies.now self.now.steps pass.old pass.new) (IsDecidedAs N.opened self.now.scope.now self.now.spies.now self.now.steps goal pass.old pass.new) }
    {
        if is_memory(fault) {
            return Some(self.starve(pass, goal));
        }
        self.note_refused(pass, goal)
    }

    // Whether the round may step the goal, and nothing is spied.
    fn is_plain(&self, goal: GoalName) -> bool
        ensures unspied { IsTrue result → (self.now.spies.now ≡ set.empty) }
        ensures inside { IsTrue result → IsInScope self.now.scope.now goal }
    {
        self.spies.is_empty() && self.scope.has(goal)
    }

    // Takes a step of the goal at once, or notes it, where none could be proposed; or it is ready by now, and nothing comes of that.
    fn take_at_once(&self, pass: &mut Pass<Core, N>, goal: GoalName) -> Option<Decided>
        requires steps { self.now.steps ≡ true }
        requires unspied { self.now.spies.now ≡ set.empty }
        requires inside { IsInScope self.now.scope.now goal }
        ensures { MatchOption result (GoesOnWithout N.opened self.now.scope.now self.now.spies.now self.now.steps pass.old pass.new) (IsDecidedAs N.opened self.now.scope.now self.now.spies.now self.now.steps goal pass.old pass.new) }
    {
        let mut woken = Vec::new(self.alloc);
        match self
            .shared
            .step_at_once(self.rt, self.alloc, pass, goal, &mut woken)
        {
            Ok((receipt, goals)) => Some(submitted(receipt, goals, woken)),
            Err(fault) => self.note_unproposed(pass, goal, &fault),
        }
    }

    // Does with the goal what was planned; or it is ready by now, and nothing comes of that.
    #[inline(always)]
    fn follow(
        &self,
        worker: usize,
        pass: &mut Pass<Core, N>,
        goal: GoalName,
        plan: Plan,
    ) -> Option<Decided>
        requires steps { self.now.steps ≡ true }
        requires plan { IsPlan N.opened self.now.scope.now self.now.spies.now goal plan }
        ensures { MatchOption result (GoesOnWithout N.opened self.now.scope.now self.now.spies.now self.now.steps pass.old pass.new) (IsDecidedAs N.opened self.now.scope.now self.now.spies.now self.now.steps goal pass.old pass.new) }
    {
        match plan {
            Plan::Submit(proposal, woken) => {
                Some(self.submit(worker, pass, goal, proposal, woken))
            }
            Plan::Outside => Some(self.note_unstepped(pass, goal)),
            Plan::Pass => Some(self.note_spied(pass, goal)),
            Plan::Refuse => self.note_refused(pass, goal),
            Plan::Starve => Some(self.starve(pass, goal)),
        }
    }

    // Decides what comes of a goal where steps are taken; or it is ready by now, and nothing comes of that.
    fn try_step(&self, worker: usize, pass: &mut Pass<Core, N>, goal: GoalName) -> Option<Decided>
        requires { self.now.steps ≡ true }
        ensures { MatchOption result (GoesOnWithout N.opened self.now.scope.now self.now.spies.now self.now.steps pass.old pass.new) (IsDecidedAs N.opened self.now.scope.now self.now.spies.now self.now.steps goal pass.old pass.new) }
    {
        if !matches!(self.manner, Manner::Proposed) && self.is_plain(goal) {
            return self.take_at_once(pass, goal);
        }
        self.follow(worker, pass, goal, self.plan(goal))
    }

    // Decides what comes of a goal where steps are taken.
    fn take_step(&self, worker: usize, pass: &mut Pass<Core, N>, goal: GoalName) -> Decided
        requires { self.now.steps ≡ true }
        ensures { IsDecidedAs N.opened self.now.scope.now self.now.spies.now self.now.steps goal pass.old pass.new result }
    {
        for _ in self.rt.forever() {
            if let Some(decided) = self.try_step(worker, pass, goal) {
                return decided;
            }
        }
        unreachable!()
    }

    // Decides what comes of a goal of which no step could be proposed apart.
    #[inline(always)]
    fn take_unproposed(
        &self,
        worker: usize,
        pass: &mut Pass<Core, N>,
        goal: GoalName,
        fault: &Fault,
    ) -> Decided
        requires steps { self.now.steps ≡ true }
        requires refused { (w : World) × IsProposal N.opened w goal None (Err fault.now) }
        ensures { IsDecidedAs N.opened self.now.scope.now self.now.spies.now self.now.steps goal pass.old pass.new result }
    {
        if let Some(decided) = self.note_unproposed(pass, goal, fault) {
            return decided;
        }
        self.take_step(worker, pass, goal)
    }

    // Submits the step of the goal that was proposed apart, or notes the goal, where none could be proposed.
    fn take_attempt(
        &self,
        worker: usize,
        pass: &mut Pass<Core, N>,
        goal: GoalName,
        attempt: Result<Proposal, Fault>,
    ) -> Decided
        requires { IsAttempt N.opened self.now.scope.now self.now.spies.now self.now.steps goal attempt }
        ensures { IsDecidedAs N.opened self.now.scope.now self.now.spies.now self.now.steps goal pass.old pass.new result }
    {
        match attempt {
            Ok(proposal) => self.submit(worker, pass, goal, proposal, Vec::new(self.alloc)),
            Err(fault) => self.take_unproposed(worker, pass, goal, &fault),
        }
    }
}

impl<N: Naming, R: Wait, G: Gate> Craft<Pass<Core, N>> for Deciding<'_, N, R, G> {
    ghost use Rattle.ghc_pool.specs.inner.Told.{IsPassAfter, AreFedAnswers, Asks};

    ghost takes = { λ d. d.steps };

    ghost tells = { λ d. IsPassAfter N.opened d.scope.now d.spies.now d.steps };

    ghost fed = { λ d. AreFedAnswers };

    ghost asks = { λ d. Asks N.opened d.spies.now d.steps };

    ghost excerpts = { λ d. IsExcerptOf N.opened d.scope.now d.spies.now d.steps };

    ghost attempts = { λ d. IsAttempt N.opened d.scope.now d.spies.now d.steps };

    fn takes_turns(&self) -> bool {
        !self.gate.holds_up()
    }

    fn takes_steps(&self) -> bool {
        self.steps
    }

    fn begin(&self, pass: &Pass<Core, N>) {
        let _ = pass;
    }

    fn excerpt(&self, name: GoalName) -> Option<Excerpt> {
        if !self.steps || !matches!(self.manner, Manner::Apart) || !self.is_plain(name) {
            return None;
        }
        match self.shared.excerpt(self.rt, self.alloc, name) {
            Ok(found) => found,
            Err(AllocError) => None,
        }
    }

    fn attempt(&self, excerpt: &Excerpt) -> Result<Proposal, Fault> {
        excerpt.attempt(self.alloc)
    }

    fn decide(
        &self,
        worker: usize,
        pass: &mut Pass<Core, N>,
        name: GoalName,
        attempt: Option<Result<Proposal, Fault>>,
    ) -> Decided {
        if let Some(attempt) = attempt {
            return self.take_attempt(worker, pass, name, attempt);
        }
        if self.steps {
            return self.take_step(worker, pass, name);
        }
        self.note_unstepped(pass, name)
    }
}
