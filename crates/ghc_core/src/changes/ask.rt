// Asking for goals in mid-run.
ghost use Rattle.std.specs.Prelude.{◌≡◌, ◌≤◌, ◌⊎◌, ◌↔◌, ℕ, List, None, Err, IfOk, IfErr, IsTrue, OnOk, OnErr};
ghost use Rattle.ghc_term.specs.Answered.{Answered};
ghost use Rattle.ghc_term.specs.declared.fault.Fault.{Fault as fault_spec};
ghost use Rattle.ghc_term.specs.declared.limit.Limit.TheVariants.{Arity};
ghost use Rattle.ghc_reader.specs.Limits.{most};
ghost use Rattle.ghc_reader.specs.Written.{AreNarrow};
ghost use Rattle.ghc_flat.specs.Checked.{AllCalls, IsFirstCallWithout};
ghost use Rattle.ghc_fire.specs.Asked.{NameNoneOf, Asks, asked_as};
ghost use Rattle.ghc_fire.specs.declared.act.Act.TheVariants.{Asked as asked};
ghost use Rattle.ghc_flat.specs.Clause.{Program as program_spec};
ghost use Rattle.ghc_flat.specs.Flat.{AreDefined};
ghost use Rattle.ghc_hooks.specs.Notes.{AreLeft};
ghost use Rattle.ghc_records.specs.Record.{Record as record_spec};
ghost use Rattle.ghc_depend.specs.Depend.{Binds};
ghost use Rattle.ghc_core.specs.Answers.{Obeys};
ghost use Rattle.ghc_core.specs.Anyway.{IsNotAskedAnyway};
ghost use Rattle.ghc_core.specs.AskedGoals.{HasClauseFor, NamesKnownIn, IsOfAsk, AskFails};
ghost use Rattle.ghc_core.specs.Core.{Stays};
ghost use Rattle.ghc_core.specs.Events.{ask as asks, stepped};
ghost use Rattle.ghc_core.specs.World.{IsNextStep};

use crate::core_state::Core;
use crate::variables::is_own_or_of;
use ghc_fire::{Act, Ask, NO_STEP, ask_as};
use ghc_flat::Program;
use ghc_reader::Query;
use ghc_records::{Addition, Record, Records};
use ghc_term::{Fault, Goal, GoalView, Name};
use std::alloc::{AllocError, Global};

// Whether the program has a clause of this name and arity: two look-ups.
pub(crate) fn is_defined(program: &Program, name: &Name, arity: usize) -> bool
    ensures { IsTrue result ↔ HasClauseFor program.now name.now arity }
{
    !program.clauses_for(name, arity).is_empty()
}

// The fault of a call of this name with so many arguments.
fn undefined(name: &Name, arity: usize) -> Fault
    requires { arity ≤ most Arity }
    ensures { (result ≡ Fault.Memory) ⊎ (result ≡ Fault.Undefined name.now arity) }
{
    let arity = arity as u32;
    match name.share() {
        Ok(name) => Fault::Undefined { name, arity },
        Err(_) => Fault::Memory,
    }
}

// Fails with the first of the goals, from the left, that is a call of which the program has no clause: two look-ups for each.
fn check_calls(program: &Program, goals: &[Goal]) -> Result<(), Fault>
    requires { AreNarrow goals.now }
    ensures defined { OnOk result (AllCalls (HasClauseFor program.now) goals.now) }
    ensures refused { IfErr result (λ e. (f : List ℕ) × (n : ℕ) × IsFirstCallWithout (HasClauseFor program.now) goals.now f n × ((e ≡ Fault.Memory) ⊎ (e ≡ Fault.Undefined f n))) }
{
    for goal in goals {
        if let GoalView::Call(name, arguments) = goal.view() {
            if !is_defined(program, name, arguments.len()) {
                return Err(undefined(name, arguments.len()));
            }
        }
    }
    Ok(())
}

// Whether each variable of the goals asked for is a new one, or one of the query, or was made by one of the steps: one look-up for
// each.
fn ask_is_known(query: &Query, records: &Records, ask: &Ask) -> bool
    ensures { IsTrue result ↔ NamesKnownIn query.now.goals records.now.held ask.now }
{
    for x in ask.variables() {
        if !is_own_or_of(query, records, NO_STEP, *x) {
            return false;
        }
    }
    true
}

// The step of this number that asks for the goals, with all that it takes to take it.
fn ask_addition(alloc: Global, number: u32, ask: &Ask) -> Result<Addition, AllocError>
    requires { NameNoneOf number ask.now }
    ensures step { IfOk result (λ step. step ≡ record { number = number; goal = None; consumed = None; act = asked (asked_as number ask.now); effect = step.effect }) }
    ensures effect { IfOk result (λ step. (P : program_spec) → AreDefined P ask.now → Asks P (asked_as number ask.now) number step.effect) }
{
    let (asked, effect) = ask_as(alloc, ask, number)?;
    let step = Record::new(alloc, number, None, None, Act::Asked(asked), effect)?;
    let addition = Addition::of(alloc, step)?;
    Ok(addition)
}

impl Core {
    /// Finds what it takes to ask for the goals, as the next step: `Undefined` exactly where a call among them has no clause, with
    /// the first; else `NoVariable` exactly where they name a variable that is neither the query's nor made by a kept step; else
    /// `Full` exactly where the numbers are used up or 1,000,000 steps are kept. It reports these before it asks for memory (but a
    /// count of handles of the name of an undefined call may be full). Else it fails only where memory is refused. Nothing is
    /// fired. It costs two look-ups for each call, one for each variable, and a walk over the goals.
    pub fn prepare_ask(&self, alloc: Global, ask: &Ask) -> Result<Addition, Fault>
        ensures answer { Answered (λ step. IsOfAsk ask.now step × IsNextStep self.now.world step) (AskFails self.now.world ask.now) result }
        ensures anyway { (f : fault_spec) → IsNotAskedAnyway self.now.world ask.now f → result ≡ Err f }
    {
        self.stands();
        let goals = ask.goals();
        match check_calls(&*self.program, goals) {
            Ok(()) => {}
            Err(fault) => return Err(fault),
        }
        if !ask_is_known(&self.query, &self.records, ask) {
            return Err(Fault::NoVariable);
        }
        if self.is_full() {
            return Err(Fault::Full);
        }
        Ok(ask_addition(alloc, self.next, ask)?)
    }

    /// Asks for the goals, under the next number, and gives that number: the goals are there, and untried; their new variables are
    /// the step's. The refusals are those of `prepare_ask`; a refused ask changes nothing. Nothing is fired. It costs what preparing
    /// and applying the step cost.
    pub fn ask(&mut self, alloc: Global, ask: &Ask) -> Result<u32, Fault>
        ensures answer { Answered (λ n. Obeys ⊥ self.old.world (asks ask.now) (stepped n) self.new.world) (AskFails self.old.world ask.now) result }
        ensures anyway { (f : fault_spec) → IsNotAskedAnyway self.old.world ask.now f → result ≡ Err f }
        ensures stays { OnErr result (Stays self.old self.new) }
        ensures meter { self.new.meter ≡ self.old.meter }

        // A note stays just where its goal is still there: the step binds nothing.
        ensures notes { OnOk result ((r : record_spec) × IsOfAsk ask.now r × AreLeft self.new.world.state.goals (Binds r) self.old.notes self.new.notes) }
    {
        let addition = match self.prepare_ask(alloc, ask) {
            Ok(addition) => addition,
            Err(fault) => return Err(fault),
        };
        Ok(self.take_next(addition)?)
    }
}
