// What chains read.
ghost use Rattle.std.specs.Prelude.{◌≡◌, OnOk};
ghost use Rattle.std.specs.FinSet as set;
ghost use Rattle.ghc_term.specs.Store.{value_at};
ghost use Rattle.ghc_unify.specs.Unify.{met};

use ghc_term::{Store, VarName, Variables};
use std::alloc::AllocError;

// Adds those of the variables that are bound in the store.
pub fn add_bound_reads(
    store: &Store,
    passed: &[VarName],
    reads: &mut Variables,
) -> Result<(), AllocError>
    ensures { OnOk result (reads.new ≡ set.union reads.old (set.from_list (met (value_at store.now.held) passed.now))) }
{
    for x in passed {
        if store.get(*x).is_some() {
            reads.insert(*x)?;
        }
    }
    Ok(())
}
