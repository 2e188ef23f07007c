// How many workers make the runs of a session.
ghost use Rattle.std.specs.Prelude.{◌≡◌, ◌↔◌, IsTrue};
ghost use Rattle.ghcdb.specs.inner.Workers.{AreProcessorsFor, AreWorkersOf, HasLargePredicate, one_each, processors_in};

use crate::settings::WorkersOption;
use ghc_core::FEW_CLAUSES;
use ghc_flat::Program;
use ghc_pool::Workers;
use std::io;
use std::num::NonZeroUsize;

// No run is made by more.
const MOST: usize = 64;

// Whether a predicate of the program has more than 32 clauses: one pass over the clauses, two look-ups for each.
fn has_large_predicate(program: &Program) -> bool
    ensures { IsTrue result ↔ HasLargePredicate program.now }
{
    for clause in program.clauses() {
        let numbers = program.clauses_for(clause.name(), clause.head().len());
        if numbers.len() > FEW_CLAUSES {
            return true;
        }
    }
    false
}

// A worker for each processor, but one at least and 64 at most.
fn one_each(processors: usize) -> Workers
    ensures { result ≡ one_each processors }
{
    let count = processors.clamp(1, MOST);
    Workers::new(count as u32).unwrap()
}

/// How many workers make the runs of the program on a machine of so many processors: the number that is asked for. Under `auto` it is
/// one, or one for each processor, 64 at most, where a predicate of the program has more than 32 clauses. That costs one pass over the
/// clauses, two look-ups for each.
pub fn workers_of(asked: WorkersOption, program: &Program, processors: usize) -> Workers
    ensures { AreWorkersOf asked program.now processors result }
{
    match asked {
        WorkersOption::Number(workers) => workers,
        WorkersOption::Auto => {
            if has_large_predicate(program) {
                one_each(processors)
            } else {
                Workers::one()
            }
        }
    }
}

/// How many processors the machine has, or one where it does not say, or where a number of workers is asked for. Only under `auto` it is
/// asked for them.
pub fn processors_for<C: FnOnce() -> io::Result<NonZeroUsize> + Drop>(
    asked: &WorkersOption,
    available: C,
) -> usize
    requires { C.pre available }
    ensures { AreProcessorsFor (C.post available) asked.now result }
{
    match asked {
        WorkersOption::Number(_) => 1,
        WorkersOption::Auto => counted(available()),
    }
}

// So many processors, or one where none are told.
fn counted(told: io::Result<NonZeroUsize>) -> usize
    ensures { result ≡ processors_in told }
{
    match told {
        Ok(count) => count.get(),
        Err(_) => 1,
    }
}
