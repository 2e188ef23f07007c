// Which kept steps bound the variables of a chain.
ghost use Rattle.std.specs.Prelude.{◌≡◌, ◌⊎◌, ◌++◌, ℕ, List, IfOk, IfErr, OnOk, Err, is_ok, if◌then◌else◌, map, string_bytes};
ghost use Rattle.std.specs.Io.{StartsWith};
ghost use Rattle.ghc_term.specs.declared.var_name.VarName.{VarName as var_name};
ghost use Rattle.ghc_trace.specs.Binders.{Bound, IsNoVariable};
ghost use Rattle.ghc_trace.specs.Who.{AreBindersTold, binder_of, binder_text};

use ghc_core::{Core, is_variable_of};
use ghc_term::{Fault, Term, VarName, end_of, or_cut_back, push_number, push_variable};
use std::alloc::{AllocError, Global};

/// A variable, and the number of the kept step that bound it.
#[derive(Clone, Copy, Drop, Debug, PartialEq, Eq)]
pub struct Binder {
    pub variable: VarName,
    pub step: u32,
}

// The variables that are bound, in their order, each with the step that bound it.
fn binders_of(alloc: Global, core: &Core, chain: &[VarName]) -> Result<Vec<Binder>, AllocError>
    ensures { IfOk result (λ told. (pairs : List (var_name × ℕ)) × Bound core.now.world chain.now pairs × (told.items ≡ map binder_of pairs)) }
{
    core.stands();
    let mut binders = Vec::new(alloc);
    for variable in chain {
        if let Some(step) = core.records().binder_of(*variable) {
            binders.push(Binder {
                variable: *variable,
                step,
            })?;
        }
    }
    Ok(binders)
}

/// The variables of the chain of `x` that are bound, in its order, each with the kept step that bound it; none where `x` is
/// unbound. It goes along the chain, with a look-up for each of its variables.
pub fn binders(alloc: Global, core: &Core, x: VarName) -> Result<Vec<Binder>, AllocError>
    ensures { IfOk result (λ told. AreBindersTold core.now.world x told.items) }
{
    let variable = Term::variable(x);
    let chain = core.store().chain(alloc, &variable)?;
    binders_of(alloc, core, chain.as_slice())
}

/// The variables of the chain of `x` that are bound, in its order, each with the kept step that bound it; none where `x` is unbound.
/// It refuses with `NoVariable` exactly where `x` is neither a variable of the query nor one that a kept step made, before it takes
/// memory; else only with `Memory`. It costs what `binders` costs, and a look-up.
pub fn who(alloc: Global, core: &Core, x: VarName) -> Result<Vec<Binder>, Fault>
    ensures found { IfOk result (λ told. AreBindersTold core.now.world x told.items) }
    ensures no_variable { IsNoVariable core.now.world x → result ≡ Err Fault.NoVariable }
    ensures fault { IfErr result (λ f. (f ≡ Fault.Memory) ⊎ ((f ≡ Fault.NoVariable) × IsNoVariable core.now.world x)) }
{
    if !is_variable_of(core, x) {
        return Err(Fault::NoVariable);
    }
    Ok(binders(alloc, core, x)?)
}

// Writes a variable and the step that bound it.
fn write_binder(binder: Binder, out: &mut String) -> Result<(), AllocError>
    ensures text { OnOk result (string_bytes out.new ≡ string_bytes out.old ++ binder_text binder) }
    ensures begun { StartsWith (string_bytes out.new) (string_bytes out.old) }
{
    push_variable(binder.variable, out)?;
    out.push_str(" by ")?;
    push_number(binder.step, out)
}

/// Writes a variable and the step that bound it at the end of `out`, which stays as it was where memory is refused, as
/// `_0_1 by 2`. The cost is that of the text.
pub fn push_binder(binder: Binder, out: &mut String) -> Result<(), AllocError>
    ensures { string_bytes out.new ≡ (if is_ok result then string_bytes out.old ++ binder_text binder else string_bytes out.old) }
{
    let length = end_of(out);
    let written = write_binder(binder, out);
    or_cut_back(out, length, written)
}
