// The store that the steps of a slice leave.
ghost use Rattle.std.specs.Prelude.{◌≡◌, ◌⊎◌, ◌↔◌, ℕ, List, IfOk, OnOk};
ghost use Rattle.ghc_term.specs.declared.var_name.VarName.{VarName as var_name};
ghost use Rattle.ghc_term.specs.Lists.{In};
ghost use Rattle.ghc_flat.specs.Clause.{Program, Query};
ghost use Rattle.ghc_records.specs.Record.{Record as record_spec, State};
ghost use Rattle.ghc_records.specs.Replay.{Replays};
ghost use Rattle.ghc_records.specs.UseIndex.{StepBinds};
ghost use Rattle.ghc_records.specs.Uses.{Binds};
ghost use Rattle.ghc_depend.specs.Depend.{IsKeptAs};
ghost use Rattle.ghc_trace.specs.inner.PartsCode.{AreKeptAs};

use crate::call_given::store_of;
use ghc_records::{Record, Records};
use ghc_term::{Store, VarName};
use std::alloc::{AllocError, Global};

// Adds the variables that the step bound.
fn add_bound(bound: &mut Vec<VarName>, step: &Record) -> Result<(), AllocError>
    ensures { OnOk result ((x : var_name) → In x bound.new.items ↔ (In x bound.old.items ⊎ Binds step.now x)) }
{
    for (x, _value) in step.effect().binds().entries() {
        bound.push(*x)?;
    }
    Ok(())
}

// The variables that the kept steps of these numbers bound.
pub(crate) fn bound_by(
    alloc: Global,
    records: &Records,
    steps: &[u32],
) -> Result<Vec<VarName>, AllocError>
    requires { (n : ℕ) → In n steps.now → (r : record_spec) × IsKeptAs records.now.held n r }
    ensures { IfOk result (λ bound. (x : var_name) → In x bound.items ↔ ((n : ℕ) × In n steps.now × StepBinds records.now.held n x)) }
{
    let _count = records.len();
    let mut bound = Vec::new(alloc);
    for number in steps {
        let step = records.get(*number).unwrap();
        add_bound(&mut bound, step)?;
    }
    Ok(bound)
}

/// A store of what the kept steps of these numbers bound in the store, and of nothing else: two look-ups for each variable. The terms
/// are shared.
pub(crate) fn store_after(
    alloc: Global,
    records: &Records,
    store: &Store,
    steps: &[u32],
) -> Result<Store, AllocError>
    requires { (n : ℕ) → In n steps.now → (r : record_spec) × IsKeptAs records.now.held n r }
    ensures { IfOk result (λ left. (P : Program) (query : Query) (rs : List record_spec) (t u : State) → Replays P query records.now.held t → t.store ≡ store.now.held
        → AreKeptAs records.now.held rs steps.now → Replays P query rs u → u.store ≡ left.held) }
{
    let bound = bound_by(alloc, records, steps)?;
    store_of(alloc, store, bound.as_slice())
}
