// The calls of a shared core.
ghost use Rattle.std.specs.Prelude.{◌≡◌, ◌≤◌, ◌↔◌, List, length, IsTrue, IfOk, IfErr, OnOk, OnErr, None, Err};
ghost use mathlib.Core.List.{IsPrefix};
ghost use Rattle.ghc_fire.specs.Meter.{fired, one_more};
ghost use Rattle.ghc_records.specs.Journal.{Item, Opening};
ghost use Rattle.ghc_core.specs.World.{World, no_hands};
ghost use Rattle.ghc_core.specs.Core.{IsStanding};
ghost use Rattle.ghc_core.specs.Events.{commit as committed, note as noted, command as commanded};
ghost use Rattle.ghc_core.specs.Legal.{IsLegal, IsAnswered, Shows};
ghost use Rattle.ghc_core.specs.CommandCode.{command_of};
ghost use Rattle.ghc_core.specs.Excerpt.{few_clauses, GivesExcerpt};
ghost use Rattle.ghc_shared.specs.declared.calls.Call.TheVariants.{Submit as submitted, Note as asked_note, Command as asked};
ghost use Rattle.ghc_shared.specs.Passes.{submits_after};
ghost use Rattle.ghc_shared.specs.Receipts.{IsDecided};
ghost use Rattle.ghc_shared.specs.inner.Calls.{holding, hands_of, event_of, receipt_of, code_of, IsAnswerTo, IsToldOnFront, IsProposal, ListsWoken, is_submit, WasProposedUnder, IsKnownCall};
ghost use Rattle.ghc_shared.specs.inner.AtOnce.{IsStepAtOnce};

use crate::calls::Call;
use crate::naming::Naming;
use crate::pass::Pass;
use crate::receipt::Receipt;
use crate::shared::Shared;
use crate::waking::list_woken;
use ghc_core::{Command, Core, Excerpt, FEW_CLAUSES, Reply, leaves_is_one, legal_is_reachable};
use ghc_fire::{Meter, Proposal};
use ghc_term::{Fault, GoalName};
use std::alloc::{AllocError, Global};
use std::sync::Wait;

/// What a look shows: how many entries the journal has, and the numbers of the kept steps in recorded order.
#[derive(Drop)]
pub struct Shown {
    pub length: usize,
    pub kept: Vec<u32>,
}

impl<N: Naming> Shared<Core, N> {
    /// Proposes a step of the goal, with a clause chosen or not, and counts a firing on the meter given. It is what an attempt on
    /// the core answers, under the read side of the lock: any number of threads propose side by side, and no pass sees anything by
    /// it. (That the core is the present one, and not only of the same opening, no clause can say.)
    pub fn propose<R: Wait>(
        &self,
        rt: &R,
        alloc: Global,
        meter: &mut Meter,
        goal: GoalName,
        choice: Option<u32>,
    ) -> Result<Proposal, Fault>
        ensures answer { (w : World) × IsProposal N.opened w goal choice result }
        ensures counted { meter.new ≡ fired meter.old }
    {
        let held = self.lock.read(rt);
        let core = held.get();
        core.stands();
        core.attempt(alloc, meter, goal, choice)
    }

    /// Proposes a step of the goal, a call by the least clause that accepts it, as `propose` does, and lists the goals that the step
    /// would wake, as far as there is memory: those whose notes looked at a variable that it binds. Both are looked up under one
    /// holding of the read side; the list costs a look-up for each variable bound and a place for each goal.
    pub fn propose_and_list<R: Wait>(
        &self,
        rt: &R,
        alloc: Global,
        meter: &mut Meter,
        goal: GoalName,
        woken: &mut Vec<GoalName>,
    ) -> Result<Proposal, Fault>
        ensures answer { (w : World) × IsProposal N.opened w goal None result × ListsWoken w result woken.old.items woken.new.items }
        ensures counted { meter.new ≡ fired meter.old }
    {
        let held = self.lock.read(rt);
        let core = held.get();
        core.stands();
        match core.attempt(alloc, meter, goal, None) {
            Ok(proposal) => {
                list_woken(core, proposal.effect().binds(), woken);
                Ok(proposal)
            }
            Err(fault) => Err(fault),
        }
    }

    /// Proposes a step of the goal, a call by the least clause that accepts it, and submits it: what `propose_and_list` and `submit`
    /// give one after the other, where nothing comes between. It takes one holding of the write side, and one attempt. The result is
    /// the submit's receipt, and how many goals the step makes; the goals that it would wake are listed, as far as there is memory.
    /// Where no step can be proposed, the fault is the attempt's, and pass and list are as they were. A submit is refused where new
    /// steps have no room, or memory is refused for this one. It costs what preparing and applying the step cost, a look-up for each
    /// variable bound, and a place for each goal listed.
    pub fn step_at_once<R: Wait>(
        &self,
        rt: &R,
        alloc: Global,
        me: &mut Pass<Core, N>,
        goal: GoalName,
        woken: &mut Vec<GoalName>,
    ) -> Result<(Receipt<Reply>, u32), Fault>
        ensures begins { IsPrefix me.old.front me.new.front }
        ensures number { me.new.number ≡ me.old.number }
        ensures legal { IsLegal me.new.front }
        ensures submits { OnOk result (me.new.submits ≡ one_more me.old.submits) }
        ensures stepped { IfOk result (λ r. IsStepAtOnce N.opened goal r.0 r.1 me.old me.new woken.old.items woken.new.items) }
        ensures refused { IfErr result (λ f. (w : World) × IsProposal N.opened w goal None (Err f)) }
        ensures stays { OnErr result ((me.new ≡ me.old) × (woken.new.items ≡ woken.old.items)) }
    {
        self.lock
            .write(rt)
            .step_at_once(&self.table, alloc, me, goal, woken)
    }

    /// Whether the program has 32 clauses at most: a comparison, under the read side of the lock.
    pub fn has_few_clauses<R: Wait>(&self, rt: &R) -> bool
        ensures { (o : Opening) × (code_of o ≡ N.opened) × (IsTrue result ↔ (length o.program ≤ few_clauses)) }
    {
        let held = self.lock.read(rt);
        held.get().program().clauses().len() <= FEW_CLAUSES
    }

    /// What an attempt at the goal reads, where that is a call for which the program has more than 32 clauses and which reaches few
    /// terms. It gives nothing only where a core gives none, in a world that events lead to: where there is no such goal, it is no call,
    /// the program has 32 clauses for it at most, or more than 64 terms are gone through for it. (That the world is the present one, no
    /// clause can say, as of `propose`.) An attempt at it is made apart, while others hold the lock. It takes one holding of the read side,
    /// and costs what the excerpt of a core costs. It fails only where memory is refused.
    pub fn excerpt<R: Wait>(
        &self,
        rt: &R,
        alloc: Global,
        goal: GoalName,
    ) -> Result<Option<Excerpt>, AllocError>
        ensures { (w : World) × (code_of w.opening ≡ N.opened) × IsStanding w × IfOk result (GivesExcerpt w goal) }
    {
        let held = self.lock.read(rt);
        let core = held.get();
        core.stands();
        core.excerpt(alloc, goal)
    }

    // Asks the core, and tells it by the core's words.
    fn ask<R: Wait>(
        &self,
        rt: &R,
        alloc: Global,
        me: &mut Pass<Core, N>,
        call: Call,
    ) -> Receipt<Reply>
        requires { IsKnownCall N.opened call }
        ensures begins { IsPrefix me.old.front me.new.front }
        ensures number { me.new.number ≡ me.old.number }
        ensures legal { IsLegal me.new.front }
        ensures submits { me.new.submits ≡ submits_after (is_submit call) me.old.submits }
        ensures decided { (before : List Item) × IsDecided IsAnswerTo before call result me.old me.new }
        ensures answered { IsAnswered (Unit {0}) me.old.front me.new.front (hands_of call) (event_of call) (receipt_of result) }
        ensures anyway { IsToldOnFront me.new.front call result }
    {
        legal_is_reachable();
        leaves_is_one();
        self.call(rt, alloc, me, call)
    }

    /// Takes the step that was proposed, as a commit of the core does. Accepted, its entry is the last item of the pass's front. A
    /// refusal, F1 too, is the receipt's reply; F1 never hides that the goal is gone. The receipt's place counts the opening, which is
    /// the first item: `answered` speaks of the place among the entries, which is one less.
    pub fn submit<R: Wait>(
        &self,
        rt: &R,
        alloc: Global,
        me: &mut Pass<Core, N>,
        proposal: Proposal,
    ) -> Receipt<Reply>
        ensures begins { IsPrefix me.old.front me.new.front }
        ensures number { me.new.number ≡ me.old.number }
        ensures legal { IsLegal me.new.front }
        ensures submits { me.new.submits ≡ one_more me.old.submits }
        ensures decided { (before : List Item) × IsDecided IsAnswerTo before (submitted proposal) result me.old me.new }
        ensures anyway { IsToldOnFront me.new.front (submitted proposal) result }
        ensures answered { IsAnswered (Unit {0}) me.old.front me.new.front (holding proposal) (committed 1) (receipt_of result) }
    {
        self.ask(rt, alloc, me, Call::Submit(proposal))
    }

    /// Takes the step that was proposed as `submit` does, where an attempt in a world of the opening proposed it: `propose` did, or an
    /// attempt at an excerpt. Where the step is a small call's and read nothing, it costs no attempt under the lock.
    pub fn submit_proposed<R: Wait>(
        &self,
        rt: &R,
        alloc: Global,
        me: &mut Pass<Core, N>,
        proposal: Proposal,
    ) -> Receipt<Reply>
        requires { WasProposedUnder N.opened proposal }
        ensures begins { IsPrefix me.old.front me.new.front }
        ensures number { me.new.number ≡ me.old.number }
        ensures legal { IsLegal me.new.front }
        ensures submits { me.new.submits ≡ one_more me.old.submits }
        ensures decided { (before : List Item) × IsDecided IsAnswerTo before (submitted proposal) result me.old me.new }
        ensures anyway { IsToldOnFront me.new.front (submitted proposal) result }
        ensures answered { IsAnswered (Unit {0}) me.old.front me.new.front (holding proposal) (committed 1) (receipt_of result) }
    {
        self.ask(rt, alloc, me, Call::SubmitProposed(proposal))
    }

    /// Tries the goal and notes what was found, as the core does. It adds no entry: the reply is the status of the goal after just the
    /// pass's front, or a refusal. F1 never hides that there is no goal to try. The receipt's place is as at `submit`.
    pub fn note<R: Wait>(
        &self,
        rt: &R,
        alloc: Global,
        me: &mut Pass<Core, N>,
        goal: GoalName,
    ) -> Receipt<Reply>
        ensures begins { IsPrefix me.old.front me.new.front }
        ensures number { me.new.number ≡ me.old.number }
        ensures legal { IsLegal me.new.front }
        ensures submits { me.new.submits ≡ me.old.submits }
        ensures decided { (before : List Item) × IsDecided IsAnswerTo before (asked_note goal) result me.old me.new }
        ensures anyway { IsToldOnFront me.new.front (asked_note goal) result }
        ensures answered { IsAnswered (Unit {0}) me.old.front me.new.front no_hands (noted goal) (receipt_of result) }
    {
        self.ask(rt, alloc, me, Call::Note(goal))
    }

    /// Does what the command says, as the core does. Accepted, its entry is the last item of the pass's front. A refusal, F1 too, is the
    /// receipt's reply; F1 hides nothing here that it cannot hide in the core. The receipt's place is as at `submit`.
    pub fn command<R: Wait>(
        &self,
        rt: &R,
        alloc: Global,
        me: &mut Pass<Core, N>,
        command: Command,
    ) -> Receipt<Reply>
        ensures begins { IsPrefix me.old.front me.new.front }
        ensures number { me.new.number ≡ me.old.number }
        ensures legal { IsLegal me.new.front }
        ensures submits { me.new.submits ≡ me.old.submits }
        ensures decided { (before : List Item) × IsDecided IsAnswerTo before (asked command) result me.old me.new }
        ensures anyway { IsToldOnFront me.new.front (asked command) result }
        ensures answered { IsAnswered (Unit {0}) me.old.front me.new.front no_hands (commanded (command_of command)) (receipt_of result) }
    {
        self.ask(rt, alloc, me, Call::Command(command))
    }

    /// The pass sees the history as it is now, and learns how many entries that is, and which steps are kept after it. Where memory is
    /// refused for their numbers it learns nothing, and has seen the history still. It costs one step for each place of the record,
    /// while nobody else reads.
    pub fn look<R: Wait>(
        &self,
        rt: &R,
        alloc: Global,
        me: &mut Pass<Core, N>,
    ) -> Result<Shown, AllocError>
        ensures begins { IsPrefix me.old.front me.new.front }
        ensures legal { IsLegal me.new.front }
        ensures same { (me.new.number ≡ me.old.number) × (me.new.places ≡ me.old.places) × (me.new.submits ≡ me.old.submits) }
        ensures shows { IfOk result (λ shown. Shows me.new.front shown.length shown.kept.items) }
    {
        let mut held = self.lock.write(rt);
        held.look(&self.table, me);
        let core = held.get();
        core.stands();
        let length = core.journal().len();
        let kept = core.kept_numbers(alloc)?;
        Ok(Shown { length, kept })
    }
}
