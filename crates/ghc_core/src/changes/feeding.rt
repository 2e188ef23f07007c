// Inputs and closes of streams.
ghost use Rattle.std.specs.Prelude.{◌≡◌, ◌≢◌, Some, Err, IfOk, IfErr, IfSome, IfNone, OnOk, OnErr};
ghost use Rattle.ghc_term.specs.declared.fault.Fault.{Fault as fault_spec};
ghost use Rattle.ghc_term.specs.Answered.{Answered};
ghost use Rattle.ghc_term.specs.declared.goal_name.GoalName.{GoalName as goal_name};
ghost use Rattle.ghc_term.specs.declared.var_name.VarName.{VarName as var_name};
ghost use Rattle.ghc_term.specs.Goal.{stream as stream_goal};
ghost use Rattle.ghc_fire.specs.declared.act.Act.TheVariants.{Given as given, Closed as closed};
ghost use Rattle.ghc_hooks.specs.Notes.{AreLeft};
ghost use Rattle.ghc_records.specs.Record.{Record as record_spec};
ghost use Rattle.ghc_depend.specs.Depend.{Binds};
ghost use Rattle.ghc_core.specs.Answers.{Obeys};
ghost use Rattle.ghc_core.specs.Events.{input as gives, finish, stepped};
ghost use Rattle.ghc_core.specs.Core.{Stays};
ghost use Rattle.ghc_core.specs.World.{HasRoom};
ghost use Rattle.ghc_core.specs.Streams.{IsStreamAt, StreamFails, IsStreamStep};

use crate::core_state::Core;
use ghc_fire::{Act, Effect, MadeGoal, close, feed};
use ghc_records::{Addition, Record};
use ghc_term::{Fault, Goal, GoalName, GoalView, Ground, Term, TermView, VarName};
use std::alloc::{AllocError, Global};

// The step of this number, an act on the goal of a stream, with all that it takes to take it.
fn stream_addition(
    alloc: Global,
    number: u32,
    name: GoalName,
    goal: Goal,
    act: Act,
    effect: Effect,
) -> Result<Addition, AllocError>
    ensures { IfOk result (λ step. step ≡ record { number = number; goal = Some name; consumed = Some goal; act = act; effect = effect }) }
{
    let consumed = MadeGoal::alone(alloc, goal)?;
    let step = Record::new(alloc, number, Some(name), Some(consumed), act, effect)?;
    Addition::of(alloc, step)
}

// The tail of the stream, if it is its goal.
fn tail_of(goal: &Goal, stream: u32) -> Option<VarName>
    ensures some { IfSome result (λ s. goal.now ≡ stream_goal stream s) }
    ensures none { IfNone result ((s : var_name) → goal.now ≢ stream_goal stream s) }
{
    match goal.view() {
        GoalView::Stream(number, tail) if number == stream => Some(tail),
        _ => None,
    }
}

impl Core {
    // The name of the goal of this stream, and its tail, if the stream is there and open: two look-ups.
    fn stream_goal(&self, stream: u32) -> Option<(GoalName, VarName)>
        ensures some { IfSome result (λ p. IsStreamAt self.now.world stream p.0 p.1) }
        ensures none { IfNone result ((g : goal_name) (s : var_name) → ¬ IsStreamAt self.now.world stream g s) }
    {
        let Some(name) = self.streams.get(stream) else {
            return None;
        };
        let Some(goal) = self.state.goals().get(name) else {
            return None;
        };
        match tail_of(goal, stream) {
            Some(tail) => Some((name, tail)),
            None => None,
        }
    }

    // The name of the goal of this stream, and its tail, where that ends in an unbound variable and a new step has room; else why
    // the stream takes neither input nor close: a look-up for each variable of the tail's chain.
    fn open_stream(&self, stream: u32) -> Result<(GoalName, VarName), Fault>
        ensures found { IfOk result (λ p. IsStreamAt self.now.world stream p.0 p.1) }
        ensures room { IfOk result (λ _. HasRoom self.now.world) }
        ensures fault { IfErr result (StreamFails self.now.world stream) }
        ensures anyway { (f : fault_spec) → StreamFails self.now.world stream f → result ≡ Err f }
    {
        self.stands();
        let Some((name, tail)) = self.stream_goal(stream) else {
            return Err(Fault::NoStream);
        };
        let tail_term = Term::variable(tail);
        match self.state.store().end(&tail_term).view() {
            TermView::Var(_) => {
                if self.is_full() {
                    return Err(Fault::Full);
                }
                Ok((name, tail))
            }
            _ => Err(Fault::TailBound),
        }
    }

    /// Finds what it takes to give the stream this input, as the next step: `NoStream` exactly where there is no such stream or it
    /// is closed, else `TailBound` exactly where its tail ends in a value, else `Full` exactly where the numbers are used up or
    /// 1,000,000 steps are kept. It reports these before it asks for memory. Else it fails only where memory is refused. Nothing is
    /// fired. It costs a look-up for each variable of the tail's chain.
    pub fn prepare_input(
        &self,
        alloc: Global,
        stream: u32,
        input: &Ground,
    ) -> Result<Addition, Fault>
        ensures answer { Answered (IsStreamStep self.now.world stream (given input.now)) (StreamFails self.now.world stream) result }
        ensures anyway { (f : fault_spec) → StreamFails self.now.world stream f → result ≡ Err f }
    {
        let (name, tail) = match self.open_stream(stream) {
            Ok(open) => open,
            Err(fault) => return Err(fault),
        };
        let effect = match feed(alloc, self.state.store(), stream, tail, input, self.next) {
            Ok(Some(effect)) => effect,
            Ok(None) => return Err(Fault::TailBound),
            Err(_) => return Err(Fault::Memory),
        };
        let act = Act::Given(input.share()?);
        let goal = Goal::stream(stream, tail);
        Ok(stream_addition(alloc, self.next, name, goal, act, effect)?)
    }

    /// Finds what it takes to close the stream, as the next step. Refusals and cost are those of `prepare_input`.
    pub fn prepare_close(&self, alloc: Global, stream: u32) -> Result<Addition, Fault>
        ensures answer { Answered (IsStreamStep self.now.world stream closed) (StreamFails self.now.world stream) result }
        ensures anyway { (f : fault_spec) → StreamFails self.now.world stream f → result ≡ Err f }
    {
        let (name, tail) = match self.open_stream(stream) {
            Ok(open) => open,
            Err(fault) => return Err(fault),
        };
        let effect = match close(alloc, self.state.store(), tail) {
            Ok(Some(effect)) => effect,
            Ok(None) => return Err(Fault::TailBound),
            Err(_) => return Err(Fault::Memory),
        };
        let goal = Goal::stream(stream, tail);
        Ok(stream_addition(alloc, self.next, name, goal, Act::Closed, effect)?)
    }

    /// Gives the stream this input, under the next number, and gives that number: the end of the stream's tail is bound to a list
    /// cell of the input and a fresh tail, with which the stream goes on as the goal that the step makes. Untried are then also the
    /// goals that looked at the end. The refusals are those of `prepare_input`; a refused input changes nothing. Nothing is fired.
    /// It costs what preparing and applying the step cost.
    pub fn input(&mut self, alloc: Global, stream: u32, input: &Ground) -> Result<u32, Fault>
        ensures answer { Answered (λ n. Obeys ⊥ self.old.world (gives stream input.now) (stepped n) self.new.world) (StreamFails self.old.world stream) result }
        ensures anyway { (f : fault_spec) → StreamFails self.old.world stream f → result ≡ Err f }
        ensures stays { OnErr result (Stays self.old self.new) }
        ensures meter { self.new.meter ≡ self.old.meter }

        // A note stays just where its goal is still there and did not look at what the step binds.
        ensures notes { OnOk result ((r : record_spec) × IsStreamStep self.old.world stream (given input.now) r × AreLeft self.new.world.state.goals (Binds r) self.old.notes self.new.notes) }
    {
        let addition = match self.prepare_input(alloc, stream, input) {
            Ok(addition) => addition,
            Err(fault) => return Err(fault),
        };
        Ok(self.take_next(addition)?)
    }

    /// Closes the stream, under the next number, and gives that number: the end of the stream's tail is bound to `[]`, and its goal
    /// is gone. The refusals are those of `prepare_close`; a refused close changes nothing. Nothing is fired. It costs what
    /// preparing and applying the step cost.
    pub fn close(&mut self, alloc: Global, stream: u32) -> Result<u32, Fault>
        ensures answer { Answered (λ n. Obeys ⊥ self.old.world (finish stream) (stepped n) self.new.world) (StreamFails self.old.world stream) result }
        ensures anyway { (f : fault_spec) → StreamFails self.old.world stream f → result ≡ Err f }
        ensures stays { OnErr result (Stays self.old self.new) }
        ensures meter { self.new.meter ≡ self.old.meter }

        // A note stays just where its goal is still there and did not look at what the step binds.
        ensures notes { OnOk result ((r : record_spec) × IsStreamStep self.old.world stream closed r × AreLeft self.new.world.state.goals (Binds r) self.old.notes self.new.notes) }
    {
        let addition = match self.prepare_close(alloc, stream) {
            Ok(addition) => addition,
            Err(fault) => return Err(fault),
        };
        Ok(self.take_next(addition)?)
    }
}
