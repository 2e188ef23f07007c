// Which variables reach others: found backwards from these, by the variables in whose values each stands.
ghost use Rattle.std.specs.Prelude.{◌≡◌, ◌↔◌, ◌++◌, IfOk, IsTrue, OnOk};
ghost use Rattle.std.specs.FinSet as set;
ghost use Rattle.ghc_term.specs.declared.var_name.VarName.{VarName as var_name};
ghost use Rattle.ghc_term.specs.Bindings.{Reaches};
ghost use Rattle.ghc_term.specs.Lists.{In};
ghost use Rattle.ghc_term.specs.Sets.{IsSetOf};
ghost use Rattle.ghc_term.specs.Store.{value_at};
ghost use Rattle.ghc_term.specs.Tree.{variable};
ghost use Rattle.ghc_trace.specs.inner.Backward.{AreAllParents, AreParentsAmong, GainsParent, GainsParentsOf, HasAllBelow, IsAncestor};

use crate::parts::all_numbers;
use crate::slice_store::bound_by;
use ghc_core::Core;
use ghc_term::{Store, VarName, Variables};
use std::alloc::{AllocError, Global};
use std::collections::BTreeMap;

// Adds the parent to those that are listed under the child: two look-ups.
pub(crate) fn add_parent(
    alloc: Global,
    parents: &mut BTreeMap<VarName, Vec<VarName>>,
    child: VarName,
    parent: VarName,
) -> Result<(), AllocError>
    ensures { OnOk result (GainsParent parents.old parents.new child parent) }
{
    let mut those = match parents.remove(&child) {
        Some(those) => those,
        None => Vec::new(alloc),
    };
    those.push(parent)?;
    match parents.insert(child, those) {
        Ok(_) => Ok(()),
        Err(_) => Err(AllocError),
    }
}

// Adds the variable as a parent of each that stands in its value, if it has one: two look-ups for each.
fn add_as_parent(
    alloc: Global,
    store: &Store,
    parents: &mut BTreeMap<VarName, Vec<VarName>>,
    parent: VarName,
) -> Result<(), AllocError>
    ensures { OnOk result (GainsParentsOf (value_at store.now.held) parents.old parents.new parent) }
{
    let Some(value) = store.get(parent) else {
        return Ok(());
    };
    let children = value.variables(alloc)?;
    for child in children.members() {
        add_parent(alloc, parents, *child, parent)?;
    }
    Ok(())
}

// The parents of each variable among these: it goes once through the value of each.
fn parents_among(
    alloc: Global,
    store: &Store,
    among: &[VarName],
) -> Result<BTreeMap<VarName, Vec<VarName>>, AllocError>
    ensures { IfOk result (λ parents. AreParentsAmong (value_at store.now.held) among.now parents) }
{
    let mut parents = BTreeMap::new(alloc);
    for v in among {
        add_as_parent(alloc, store, &mut parents, *v)?;
    }
    Ok(parents)
}

// Adds the variables to those that wait.
fn push_all(xs: &[VarName], waiting: &mut Vec<VarName>) -> Result<(), AllocError>
    ensures { OnOk result (waiting.new.items ≡ waiting.old.items ++ xs.now) }
{
    for x in xs {
        waiting.push(*x)?;
    }
    Ok(())
}

// These variables, what is listed under them, what is listed under that, and so on: each once. It costs a look-up for each that is
// listed, and two for each that is found.
pub(crate) fn ancestors_of(
    alloc: Global,
    parents: &BTreeMap<VarName, Vec<VarName>>,
    from: &[VarName],
) -> Result<Variables, AllocError>
    ensures { IfOk result (λ xs. IsSetOf xs (IsAncestor parents.now (λ y. In y from.now))) }
{
    let mut ancestors = Variables::new(alloc);
    let mut waiting = Vec::new(alloc);
    push_all(from, &mut waiting)?;
    while let Some(x) = waiting.pop() {
        if ancestors.contains(x) {
            continue;
        }
        ancestors.insert(x)?;
        if let Some(those) = parents.get(&x) {
            push_all(those.as_slice(), &mut waiting)?;
        }
    }
    Ok(ancestors)
}

// The parents of each variable in the store. It goes once through the values that the kept steps bound, with some look-ups for each
// variable there.
pub(crate) fn all_parents(
    alloc: Global,
    core: &Core,
) -> Result<BTreeMap<VarName, Vec<VarName>>, AllocError>
    ensures { IfOk result (AreAllParents (value_at core.now.world.state.store)) }
{
    core.stands();
    let records = core.records();
    let steps = all_numbers(alloc, records)?;
    let bound = bound_by(alloc, records, steps.as_slice())?;
    parents_among(alloc, core.store(), bound.as_slice())
}

// Of these variables the set has just those that reach y, where what stands in the value of one is one of them. It goes once through
// the value of each, with some look-ups for each variable there.
pub(crate) fn reaching(
    alloc: Global,
    store: &Store,
    among: &[VarName],
    y: VarName,
) -> Result<Variables, AllocError>
    requires { HasAllBelow (value_at store.now.held) among.now }
    ensures { IfOk result (λ xs. (v : var_name) → In v among.now → (IsTrue (set.contains xs v) ↔ Reaches (value_at store.now.held) (variable v) y)) }
{
    let parents = parents_among(alloc, store, among)?;
    ancestors_of(alloc, &parents, &[y])
}
