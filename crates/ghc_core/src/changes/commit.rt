// Steps of a core: proposals, the steps that they would take, and taking them.
ghost use Rattle.std.specs.Prelude.{◌≡◌, ◌⊎◌, true, false, Some, None, Err, IfOk, IfErr, OnOk, OnErr};
ghost use Rattle.std.specs.FinMap as finite;
ghost use Rattle.ghc_term.specs.Answered.{Answered};
ghost use Rattle.ghc_fire.specs.Attempt.{refused};
ghost use Rattle.ghc_fire.specs.Meter.{fired};
ghost use Rattle.ghc_fire.specs.Proposal.{under};
ghost use Rattle.ghc_hooks.specs.Notes.{AreLeft};
ghost use Rattle.ghc_records.specs.Record.{Record as record_spec, record_of};
ghost use Rattle.ghc_core.specs.World.{IsReplay, IsFull, HasRoom, IsNextStep, with_step};
ghost use Rattle.ghc_core.specs.declared.changes.Change.TheVariants.{Comes as comes};
ghost use Rattle.ghc_core.specs.Change.{HasRoomFor};
ghost use Rattle.ghc_core.specs.Core.{IsCommitted, record_as, next_record, Stays};
ghost use Rattle.ghc_depend.specs.Depend.{Binds};
ghost use Rattle.ghc_core.specs.Proposes.{AttemptAnswers, IsProposedIn, IsFiredNext, IsCommitOf, CommitFails, WasProposed};

use crate::changes::carrying::carry_over;
use crate::changes::recheck::{holds_as_it_was, recheck};
use crate::changes::{Change, Coming};
use crate::core_state::Core;
use ghc_fire::{Firing, Meter, Proposal, attempt, finish, fire_as};
use ghc_records::{Addition, Entry, Record};
use ghc_term::{Fault, GoalName};
use std::alloc::{AllocError, Global};
use std::sync::Arc;

pub(crate) const KEPT_LIMIT: usize = 1_000_000;

// The proposal with its effect as the step of this number has it.
fn numbered(alloc: Global, proposal: Proposal, number: u32) -> Result<Proposal, AllocError>
    ensures { IfOk result (λ p. p ≡ record { goal = proposal.goal; consumed = proposal.consumed; act = proposal.act; effect = under number proposal.effect }) }
{
    let goal = proposal.goal();
    let (consumed, act, effect) = proposal.into_parts();
    let effect = finish(alloc, effect, number)?;
    Ok(Proposal::new(goal, consumed, act, effect))
}

// The step of this number that was proposed as that step, with all that it takes to take it.
#[inline(always)]
fn addition_of(alloc: Global, proposal: Proposal, number: u32) -> Result<Addition, AllocError>
    ensures { IfOk result (λ step. step ≡ record_as number proposal) }
{
    let goal = proposal.goal();
    let (consumed, act, effect) = proposal.into_parts();
    let step = Record::new(alloc, number, Some(goal), Some(consumed), act, effect)?;
    Addition::of(alloc, step)
}

impl Core {
    /// Proposes a step of the goal of this name, with a clause chosen or not, and counts a firing on the meter given. The
    /// refusals, and their order, are those of an attempt at the goal in the present state. The core stays as it is.
    pub fn attempt(
        &self,
        alloc: Global,
        meter: &mut Meter,
        goal: GoalName,
        choice: Option<u32>,
    ) -> Result<Proposal, Fault>
        ensures answer { Answered (IsProposedIn self.now.world goal choice) (λ f. AttemptAnswers self.now.world goal choice (refused f)) result }

        // Where memory runs out, it still reports that the goal or the clause is not there.
        ensures no_goal { AttemptAnswers self.now.world goal choice (refused Fault.NoGoal) → result ≡ Err Fault.NoGoal }
        ensures no_clause { AttemptAnswers self.now.world goal choice (refused Fault.NoClause) → result ≡ Err Fault.NoClause }
        ensures counted { meter.new ≡ fired meter.old }

        // What the proposal is made in is the replay of the record.
        ensures replay { IsReplay self.now.world self.now.world.kept self.now.world.state }
    {
        self.stands();
        attempt(
            alloc,
            meter,
            &*self.program,
            self.state.goals(),
            self.state.store(),
            goal,
            choice,
        )
    }

    // The same, counted on the meter of the core.
    pub(crate) fn attempt_counted(
        &mut self,
        alloc: Global,
        goal: GoalName,
        choice: Option<u32>,
    ) -> Result<Proposal, Fault>
        ensures answer { Answered (IsProposedIn self.old.world goal choice) (λ f. AttemptAnswers self.old.world goal choice (refused f)) result }
        ensures no_goal { AttemptAnswers self.old.world goal choice (refused Fault.NoGoal) → result ≡ Err Fault.NoGoal }
        ensures no_clause { AttemptAnswers self.old.world goal choice (refused Fault.NoClause) → result ≡ Err Fault.NoClause }
        ensures stays { Stays self.old self.new }
        ensures counted { self.new.meter ≡ fired self.old.meter }
    {
        attempt(
            alloc,
            &mut self.meter,
            &*self.program,
            self.state.goals(),
            self.state.store(),
            goal,
            choice,
        )
    }

    // Counts a firing.
    fn count_firing(&mut self)
        ensures stays { Stays self.old self.new }
        ensures counted { self.new.meter ≡ fired self.old.meter }
    {
        self.meter.count_firing();
    }

    // Fires the step of the goal as the next one: what an attempt proposes, under the number of the next step.
    pub(crate) fn fire_next(
        &mut self,
        alloc: Global,
        goal: GoalName,
        choice: Option<u32>,
    ) -> Result<Arc<Firing>, Fault>
        ensures answer { Answered (λ f. IsFiredNext self.old.world goal choice f.value) (λ f. AttemptAnswers self.old.world goal choice (refused f)) result }
        ensures no_goal { AttemptAnswers self.old.world goal choice (refused Fault.NoGoal) → result ≡ Err Fault.NoGoal }
        ensures no_clause { AttemptAnswers self.old.world goal choice (refused Fault.NoClause) → result ≡ Err Fault.NoClause }
        ensures stays { Stays self.old self.new }
        ensures counted { self.new.meter ≡ fired self.old.meter }
    {
        fire_as(
            alloc,
            &mut self.meter,
            &*self.program,
            self.state.goals(),
            self.state.store(),
            goal,
            choice,
            self.next,
        )
    }

    /// Whether a new step has no room: the numbers are used up, or 1,000,000 steps are kept. It looks at two numbers.
    pub fn is_full(&self) -> bool
        ensures full { result ≡ true → IsFull self.now.world }
        ensures room { result ≡ false → HasRoom self.now.world }
    {
        self.next == u32::MAX || self.records.len() >= KEPT_LIMIT
    }

    // The step of the proposal under the next number, with all that it takes to take it, where a new step has room.
    #[inline(never)]
    pub(crate) fn as_next(&self, alloc: Global, proposal: Proposal) -> Result<Addition, Fault>
        ensures step { IfOk result (λ step. step ≡ next_record self.now.world proposal) }
        ensures room { IfOk result (λ _. HasRoom self.now.world) }
        ensures fault { IfErr result (λ f. (f ≡ Fault.Memory) ⊎ ((f ≡ Fault.Full) × IsFull self.now.world)) }
    {
        if self.is_full() {
            return Err(Fault::Full);
        }
        let proposal = numbered(alloc, proposal, self.next)?;
        Ok(addition_of(alloc, proposal, self.next)?)
    }

    // The step that was fired as the next one, where a new step has room.
    #[inline(always)]
    pub(crate) fn fired_as_next(&self, fired: Arc<Firing>) -> Result<Record, Fault>
        ensures step { IfOk result (λ step. step ≡ record_of fired.value) }
        ensures room { IfOk result (λ _. HasRoom self.now.world) }
        ensures fault { IfErr result (λ f. (f ≡ Fault.Memory) ⊎ ((f ≡ Fault.Full) × IsFull self.now.world)) }
    {
        if self.is_full() {
            return Err(Fault::Full);
        }
        Ok(Record::of(fired))
    }

    /// Finds what it takes to take the step that was proposed, as the next step, and counts a firing. `Stale` exactly where the
    /// goal is not there any more or the effect is not the one proposed. Else `Full` exactly where the numbers are used up or
    /// 1,000,000 steps are kept. Else it fails only where memory is refused. But for the meter the core stays as it is. It costs
    /// what the attempt costs, and a walk over its effect as written.
    pub fn prepare(&mut self, alloc: Global, proposal: &Proposal) -> Result<Addition, Fault>
        ensures answer { Answered (IsCommitOf self.old.world proposal.now) (CommitFails self.old.world proposal.now) result }

        // Where memory runs out, it still reports that the goal is not there any more.
        ensures gone { finite.get self.old.world.state.goals proposal.now.goal ≡ None → result ≡ Err Fault.Stale }
        ensures stays { Stays self.old self.new }
        ensures counted { self.new.meter ≡ fired self.old.meter }
    {
        self.stands();
        match recheck(alloc, self, proposal) {
            Ok(again) => self.as_next(alloc, again),
            Err(fault) => Err(fault),
        }
    }

    /// Finds what it takes to take a step that an attempt proposed in a world of the core's opening, with the refusals of `prepare`, and
    /// counts a firing. Where the step is a call's and read nothing, and the call is small and there as it was, no attempt is made, and it
    /// costs a walk over the call and what the step makes; else it costs what `prepare` costs.
    pub fn prepare_proposed(&mut self, alloc: Global, proposal: Proposal) -> Result<Addition, Fault>
        requires { WasProposed self.old.world proposal }
        ensures answer { Answered (IsCommitOf self.old.world proposal) (CommitFails self.old.world proposal) result }
        ensures gone { finite.get self.old.world.state.goals proposal.goal ≡ None → result ≡ Err Fault.Stale }
        ensures stays { Stays self.old self.new }
        ensures counted { self.new.meter ≡ fired self.old.meter }
    {
        self.stands();
        if !holds_as_it_was(alloc, self, &proposal) {
            return self.prepare(alloc, &proposal);
        }
        self.count_firing();
        self.as_next(alloc, proposal)
    }

    // Takes a step that was found as the next one, and gives its number.
    pub(crate) fn take_next(&mut self, addition: Addition) -> Result<u32, AllocError>
        requires found { IsNextStep self.old.world addition }
        ensures ok { IfOk result (λ n. (n ≡ self.old.world.next) × (self.new.world ≡ with_step addition self.old.world)) }
        ensures notes { OnOk result (AreLeft self.new.world.state.goals (Binds addition) self.old.notes self.new.notes) }
        ensures stays { OnErr result (Stays self.old self.new) }
        ensures meter { self.new.meter ≡ self.old.meter }
    {
        let number = addition.step().number();
        self.make(Change::Comes(Coming::Next, addition))?;
        Ok(number)
    }

    // Takes the next step, where there is room for it. Where a handle of what it makes or binds is refused, nothing changes.
    #[inline(always)]
    fn add_next(&mut self, alloc: Global, step: Record) -> Result<(), AllocError>
        requires found { IsNextStep self.old.world step }
        requires room { HasRoomFor self.old.world self.old.room (comes Coming.Next step) }
        ensures world { OnOk result (self.new.world ≡ with_step step self.old.world) }
        ensures notes { OnOk result (AreLeft self.new.world.state.goals (Binds step) self.old.notes self.new.notes) }
        ensures stays { OnErr result (Stays self.old self.new) }
        ensures meter { self.new.meter ≡ self.old.meter }
    {
        let entry = Entry::Took(step.share()?);
        self.state.take_step(alloc, &step)?;
        carry_over(&mut self.tries, &step);
        self.streams.tell(&step);
        self.records.put(step);
        self.journal.put(entry);
        self.next += 1;
        Ok(())
    }

    /// Takes a step that was fired as the next one, as `make` takes it, and moves less. Room in the tables is made first, and where
    /// memory is refused nothing changes.
    #[inline(never)]
    pub fn take_step(&mut self, alloc: Global, step: Record) -> Result<(), AllocError>
        requires found { IsNextStep self.old.world step }
        ensures world { OnOk result (self.new.world ≡ with_step step self.old.world) }
        ensures notes { OnOk result (AreLeft self.new.world.state.goals (Binds step) self.old.notes self.new.notes) }
        ensures stays { OnErr result (Stays self.old self.new) }
        ensures meter { self.new.meter ≡ self.old.meter }
    {
        self.reserve_to_add(&step)?;
        self.add_next(alloc, step)
    }

    /// Takes the step that was proposed, under the next number, and gives that number: what it binds is in the store, the goals
    /// that it makes are there, the goal that it consumes is gone, and the record and the journal have it. The goals that it makes
    /// are untried, and so are those that looked at what it binds. The refusals are those of `prepare`. A refused commit changes
    /// nothing but the meter. It costs what preparing and applying the step cost.
    pub fn commit(&mut self, alloc: Global, proposal: &Proposal) -> Result<u32, Fault>
        ensures answer { Answered (IsCommitted self.old.world proposal.now self.new.world) (CommitFails self.old.world proposal.now) result }

        // Where memory runs out, it still reports that the goal is not there any more.
        ensures gone { finite.get self.old.world.state.goals proposal.now.goal ≡ None → result ≡ Err Fault.Stale }
        ensures stays { OnErr result (Stays self.old self.new) }
        ensures counted { self.new.meter ≡ fired self.old.meter }

        // A note stays just where its goal is still there and did not look at what the step binds.
        ensures notes { OnOk result ((r : record_spec) × IsCommitOf self.old.world proposal.now r × (self.new.world ≡ with_step r self.old.world) × AreLeft self.new.world.state.goals (Binds r) self.old.notes self.new.notes) }

        // Goals and store are the replay of the record.
        ensures replay { IsReplay self.new.world self.new.world.kept self.new.world.state }
    {
        self.stands();
        let addition = self.prepare(alloc, proposal)?;
        let number = self.take_next(addition)?;
        self.stands();
        Ok(number)
    }

    /// Takes a step that an attempt proposed in a world of the core's opening, as `commit` does, with its refusals. It costs what
    /// preparing it so and applying the step cost.
    pub fn commit_proposed(&mut self, alloc: Global, proposal: Proposal) -> Result<u32, Fault>
        requires { WasProposed self.old.world proposal }
        ensures answer { Answered (IsCommitted self.old.world proposal self.new.world) (CommitFails self.old.world proposal) result }
        ensures gone { finite.get self.old.world.state.goals proposal.goal ≡ None → result ≡ Err Fault.Stale }
        ensures stays { OnErr result (Stays self.old self.new) }
        ensures counted { self.new.meter ≡ fired self.old.meter }
        ensures notes { OnOk result ((r : record_spec) × IsCommitOf self.old.world proposal r × (self.new.world ≡ with_step r self.old.world) × AreLeft self.new.world.state.goals (Binds r) self.old.notes self.new.notes) }
    {
        let addition = self.prepare_proposed(alloc, proposal)?;
        let number = self.take_next(addition)?;
        Ok(number)
    }
}
