// The slice of a variable: the kept steps that gave it its term, and all on which they depend.
ghost use Rattle.std.specs.Prelude.{◌↔◌, IfOk};
ghost use Rattle.ghc_term.specs.Bindings.{Reaches};
ghost use Rattle.ghc_term.specs.Lists.{In};
ghost use Rattle.ghc_term.specs.Sets.{IsSetOf};
ghost use Rattle.ghc_term.specs.Store.{value_at};
ghost use Rattle.ghc_records.specs.Record.{Record};
ghost use Rattle.ghc_depend.specs.Slices.{Gave};
ghost use Rattle.ghc_trace.specs.Causes.{AreBindersOf, IsToldSliceOf};

use crate::slices::slice;
use ghc_core::Core;
use ghc_depend::place_of_maker;
use ghc_hooks::reached_from;
use ghc_records::Records;
use ghc_term::{Store, Term, VarName, Variables};
use std::alloc::{AllocError, Global};

// All variables that the term reaches in the store.
pub(crate) fn reached_by(alloc: Global, store: &Store, term: &Term) -> Result<Variables, AllocError>
    ensures { IfOk result (λ xs. IsSetOf xs (Reaches (value_at store.now.held) term.now)) }
{
    let mut terms = Vec::new(alloc);
    terms.push(term)?;
    reached_from(alloc, store, terms)
}

// The numbers of the kept steps that bound one of these variables: a look-up for each.
pub(crate) fn binders_of(
    alloc: Global,
    records: &Records,
    xs: &[VarName],
) -> Result<Vec<u32>, AllocError>
    ensures { IfOk result (λ ns. AreBindersOf records.now.held (λ x. In x xs.now) ns.items) }
{
    let mut binders = Vec::new(alloc);
    for x in xs {
        if let Some(step) = records.binder_of(*x) {
            binders.push(step)?;
        }
    }
    Ok(binders)
}

// The numbers of the kept steps that gave the variable its term: those that bound a variable that it reaches, and the one that made
// it. It goes once through the term, with a look-up for each variable.
fn given_to(alloc: Global, core: &Core, x: VarName) -> Result<Vec<u32>, AllocError>
    ensures { IfOk result (λ ns. (r : Record) → In r core.now.world.kept → (In r.number ns.items ↔ Gave (value_at core.now.world.state.store) x r)) }
{
    let records = core.records();
    let _count = records.len();
    let variable = Term::variable(x);
    let reached = reached_by(alloc, core.store(), &variable)?;
    let mut givers = binders_of(alloc, records, reached.members())?;
    if place_of_maker(records, x).is_some() {
        givers.push(x.step)?;
    }
    Ok(givers)
}

/// The numbers of the steps of the slice of the variable, in recorded order: of the kept steps those that gave it its term, or made
/// it, and all on which these depend. It costs the size of the term, and what `slice` costs. It fails only where memory is refused.
pub fn slice_of(alloc: Global, core: &Core, x: VarName) -> Result<Vec<u32>, AllocError>
    ensures { IfOk result (λ told. IsToldSliceOf core.now.world.kept core.now.world.state x told.items) }
{
    let givers = given_to(alloc, core, x)?;
    slice(alloc, core.records(), givers.as_slice())
}
