// The slice of a place: the kept steps that gave a variable its term, and its place within the term of another one.
ghost use Rattle.std.specs.Prelude.{◌⊎◌, ◌↔◌, IfNone, IfOk, IfSome, OnOk};
ghost use Rattle.ghc_term.specs.declared.var_name.VarName.{VarName as var_name};
ghost use Rattle.ghc_term.specs.Bindings.{Reaches};
ghost use Rattle.ghc_term.specs.Lists.{In};
ghost use Rattle.ghc_term.specs.Store.{value_at};
ghost use Rattle.ghc_term.specs.Sets.{IsSetOf};
ghost use Rattle.ghc_term.specs.Tree.{variable};
ghost use Rattle.ghc_records.specs.Record.{Record as record_spec};
ghost use Rattle.ghc_records.specs.Uses.{MakesVariable};
ghost use Rattle.ghc_depend.specs.Parts.{GavePlace};
ghost use Rattle.ghc_trace.specs.Causes.{IsToldPlaceSliceOf};
ghost use Rattle.ghc_trace.specs.inner.Backward.{HasAllBelow};

use crate::backward::reaching;
use crate::given::{binders_of, reached_by};
use crate::slices::slice;
use ghc_core::Core;
use ghc_depend::place_of_maker;
use ghc_records::Records;
use ghc_term::{Store, Term, VarName, Variables};
use std::alloc::{AllocError, Global};

// Of these variables those that reach y, or that y reaches, which below are all that y reaches: some look-ups for each variable that
// stands in the value of one.
fn on_way_to(
    alloc: Global,
    store: &Store,
    among: &[VarName],
    below: &Variables,
    y: VarName,
) -> Result<Vec<VarName>, AllocError>
    requires all { HasAllBelow (value_at store.now.held) among.now }
    requires below { IsSetOf below.now (Reaches (value_at store.now.held) (variable y)) }
    ensures { IfOk result (λ way. (v : var_name) → In v way.items ↔ (In v among.now × (Reaches (value_at store.now.held) (variable v) y ⊎ Reaches (value_at store.now.held) (variable y) v))) }
{
    let above = reaching(alloc, store, among, y)?;
    let mut way = Vec::new(alloc);
    for v in among {
        if above.contains(*v) || below.contains(*v) {
            way.push(*v)?;
        }
    }
    Ok(way)
}

// Adds the numbers of the kept steps that made these: a look-up for each.
fn add_makers(records: &Records, xs: &[VarName], steps: &mut Vec<u32>) -> Result<(), AllocError>
    ensures { OnOk result ((r : record_spec) → In r records.now.held → (In r.number steps.new.items ↔ (In r.number steps.old.items ⊎ ((x : var_name) × In x xs.now × MakesVariable r x)))) }
{
    let _count = records.len();
    for x in xs {
        if place_of_maker(records, *x).is_some() {
            steps.push(x.step)?;
        }
    }
    Ok(())
}

// The numbers of the kept steps that gave y its term and its place in the term of x, from which these are reached.
fn given_to_place(
    alloc: Global,
    core: &Core,
    reached: &Variables,
    x: VarName,
    y: VarName,
) -> Result<Vec<u32>, AllocError>
    requires { IsSetOf reached.now (Reaches (value_at core.now.world.state.store) (variable x)) }
    ensures { IfOk result (λ ns. (r : record_spec) → In r core.now.world.kept → (In r.number ns.items ↔ GavePlace (value_at core.now.world.state.store) x y r)) }
{
    let records = core.records();
    let _count = records.len();
    let variable = Term::variable(y);
    let below = reached_by(alloc, core.store(), &variable)?;
    let way = on_way_to(alloc, core.store(), reached.members(), &below, y)?;
    let mut givers = binders_of(alloc, records, way.as_slice())?;
    add_makers(records, &[x, y], &mut givers)?;
    Ok(givers)
}

/// The numbers of the steps of the slice of the place of y in the term of x, in recorded order, or nothing where x does not reach y.
/// These are the kept steps that bound a variable on a way from x to y or one that y reaches, or made x or y, and all on which they
/// depend. It goes once through the term of x, with some look-ups for each variable there, and costs what `slice` costs.
pub(crate) fn slice_of_place(
    alloc: Global,
    core: &Core,
    x: VarName,
    y: VarName,
) -> Result<Option<Vec<u32>>, AllocError>
    ensures there { IfOk result (λ found. IfSome found (λ told. Reaches (value_at core.now.world.state.store) (variable x) y × IsToldPlaceSliceOf core.now.world.kept core.now.world.state x y told.items)) }
    ensures none { IfOk result (λ found. IfNone found (¬ Reaches (value_at core.now.world.state.store) (variable x) y)) }
{
    let variable = Term::variable(x);
    let reached = reached_by(alloc, core.store(), &variable)?;
    if !reached.contains(y) {
        return Ok(None);
    }
    let givers = given_to_place(alloc, core, &reached, x, y)?;
    let steps = slice(alloc, core.records(), givers.as_slice())?;
    Ok(Some(steps))
}
