// The checker: from a written program and a query to the program, or the first fault.
ghost use Rattle.std.specs.Prelude.{◌≡◌, ◌⊎◌, ◌-◌, ◌≤◌, ℕ, List, [], length, IfOk, IfErr, OnOk};
ghost use Rattle.ghc_term.specs.Answered.{Answered};
ghost use Rattle.ghc_term.specs.declared.limit.Limit.TheVariants.{Arity};
ghost use Rattle.ghc_reader.specs.Limits.{most};
ghost use Rattle.ghc_reader.specs.Written.{AreWellWritten, IsWellWritten, AreNarrow};
ghost use Rattle.ghc_flat.specs.Flat.{IsWellMade};
ghost use Rattle.ghc_flat.specs.Variables.{variables_of_list};
ghost use Rattle.ghc_flat.specs.Checked.{IsMadeOf, AreMadeOf, IsAcceptedAs, IsRepeated, AllCalls, IsFirstCallWithout, IsClauseFault, IsFirstFault, IsFault};
ghost use Rattle.ghc_flat.specs.inner.Refused.{IsRefusedAs};
ghost use Rattle.ghc_flat.specs.inner.Counting.{Rises};
ghost use Rattle.ghc_flat.specs.inner.Index.{Knows, AreSound};

use crate::clause::Clause;
use crate::counting::count_terms;
use crate::firsts::Firsts;
use crate::guards::tests_of_guards;
use crate::index::Index;
use crate::program::Program;
use crate::refused::Refused;
use ghc_reader::{Query, Source, WrittenClause};
use ghc_term::{Fault, Goal, GoalView, Name};
use std::alloc::Global;

/// The program that is written, where it and the query are accepted, or else the first fault, by clauses in order.
/// Faults of a clause, in order: a variable twice in the head, a guard that is not flat, the first undefined call of
/// the body. Last comes the first undefined call of the query. `Memory` comes only where memory is refused. Time and
/// memory grow with the number of symbols.
pub fn check(alloc: Global, source: Source, query: &Query) -> Result<Program, Fault>
    ensures answer { Answered (IsAcceptedAs source query.now.goals) (IsFault source query.now.goals) result }
{
    match judge(alloc, source, query) {
        Ok(program) => Ok(program),
        Err(refused) => Err(refused.fault()),
    }
}

/// The program that is written, as `check`, or else the first fault with the text that it is of.
pub fn judge(alloc: Global, source: Source, query: &Query) -> Result<Program, Refused>
    ensures accepted { IfOk result (IsAcceptedAs source query.now.goals) }
    ensures refused { IfErr result (IsRefusedAs source query.now.goals) }
{
    let index = match Index::of(alloc, source.clauses()) {
        Ok(index) => index,
        Err(_) => return Err(Refused::Program(Fault::Memory)),
    };
    let clauses = match check_clauses(alloc, source.into_clauses(), &index) {
        Ok(clauses) => clauses,
        Err(fault) => return Err(Refused::Program(fault)),
    };
    let firsts = match Firsts::of(alloc, &clauses, &index) {
        Ok(firsts) => firsts,
        Err(_) => return Err(Refused::Program(Fault::Memory)),
    };
    match check_calls(query.goals(), &index) {
        Ok(()) => Ok(Program {
            clauses,
            index,
            firsts,
        }),
        Err(fault) => Err(Refused::of_query(fault)),
    }
}

// The clauses, or the fault of the first with which something is wrong.
fn check_clauses(
    alloc: Global,
    written: Vec<WrittenClause>,
    index: &Index,
) -> Result<Vec<Clause>, Fault>
    requires { AreWellWritten written.items }
    ensures made { IfOk result (λ clauses. AreMadeOf written.items clauses.items) }
    ensures defined { IfOk result (λ clauses. AreSound index.now clauses.items) }
    ensures refused { IfErr result (λ e. (e ≡ Fault.Memory) ⊎ IsFirstFault (Knows index.now) written.items e) }
{
    let mut clauses = Vec::new(alloc);
    let mut number: u32 = 0;
    for clause in written {
        number += 1;
        let checked = check_clause(alloc, clause, number, index)?;
        clauses.push(checked)?;
    }
    Ok(clauses)
}

// The clause of this number, or its fault.
fn check_clause(
    alloc: Global,
    written: WrittenClause,
    number: u32,
    index: &Index,
) -> Result<Clause, Fault>
    requires { IsWellWritten written }
    ensures made { IfOk result (IsMadeOf written) }
    ensures well_made { IfOk result IsWellMade }
    ensures defined { IfOk result (λ c. AllCalls (Knows index.now) c.body) }
    ensures refused { IfErr result (λ e. (e ≡ Fault.Memory) ⊎ IsClauseFault (Knows index.now) number written e) }
{
    let head_variables = check_head(&written, number)?;
    let fresh = count_fresh(&written, head_variables);
    let WrittenClause {
        name,
        head,
        guards,
        body,
        variables: _variables,
    } = written;
    let tests = tests_of_guards(alloc, guards, head_variables, number)?;
    check_calls(&body, index)?;
    Ok(Clause {
        name,
        head,
        tests,
        body,
        head_variables,
        fresh,
    })
}

// How many variables stand in the head of the clause of this number, where none stands there twice.
fn check_head(written: &WrittenClause, number: u32) -> Result<u32, Fault>
    requires { IsWellWritten written.now }
    ensures count { IfOk result (λ n. n ≡ length (variables_of_list written.now.head)) }
    ensures rising { IfOk result (λ n. Rises 0 (variables_of_list written.now.head)) }
    ensures refused { IfErr result (λ e. (e ≡ Fault.Memory) ⊎ ((v : List ℕ) × IsRepeated written.now v × (e ≡ Fault.Repeated number v))) }
{
    match count_terms(&written.head, 0) {
        Ok(count) => Ok(count),
        Err(x) => {
            let variable = written.variables[x.place as usize - 1].share()?;
            Err(Fault::Repeated {
                clause: number,
                variable,
            })
        }
    }
}

// How many of the clause's variables are left when so many stand in its head.
fn count_fresh(written: &WrittenClause, head_variables: u32) -> u32
    requires { IsWellWritten written.now }
    ensures { result ≡ length written.now.variables - head_variables }
{
    let all = written.variables.len() as u32;
    all.saturating_sub(head_variables)
}

// Fails with the first of the goals, from the left, that is a call of which the index knows no clause.
fn check_calls(goals: &[Goal], index: &Index) -> Result<(), Fault>
    requires { AreNarrow goals.now }
    ensures defined { OnOk result (AllCalls (Knows index.now) goals.now) }
    ensures refused { IfErr result (λ e. (e ≡ Fault.Memory) ⊎ ((f : List ℕ) × (n : ℕ) × IsFirstCallWithout (Knows index.now) goals.now f n × (e ≡ Fault.Undefined f n))) }
{
    for goal in goals {
        if let GoalView::Call(name, arguments) = goal.view() {
            if index.numbers(name, arguments.len()).is_empty() {
                return Err(undefined(name, arguments.len()));
            }
        }
    }
    Ok(())
}

// The fault of a call of this name with so many arguments.
fn undefined(name: &Name, arity: usize) -> Fault
    requires { arity ≤ most Arity }
    ensures { (result ≡ Fault.Memory) ⊎ (result ≡ Fault.Undefined name.now arity) }
{
    let arity = arity as u32;
    match name.share() {
        Ok(name) => Fault::Undefined { name, arity },
        Err(_) => Fault::Memory,
    }
}
