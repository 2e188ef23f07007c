// What the variables of goals that are asked for are called.
ghost use Rattle.std.specs.Prelude.{◌≡◌, ◌≤◌, [], length, map, filter, is_none, IfOk};
ghost use Rattle.ghc_reader.specs.Limits.{most};
ghost use Rattle.ghc_term.specs.declared.limit.Limit.TheVariants as limit;
ghost use Rattle.ghc_term.specs.Variables.{firsts};
ghost use Rattle.ghc_fire.specs.Asked.{named_so as as_named, called, renumbered};

use crate::effect::NO_STEP;
use ghc_term::{VarName, Variables};
use std::alloc::{AllocError, Global};

// What the variables of a written ask are called, and how many of these are new.
#[derive(Drop)]
pub(crate) struct Called {
    pub(crate) variables: Vec<VarName>,
    pub(crate) fresh: u32,
}

// A variable that is named, or `_0_0`, which is none, in place of one of no step.
fn named_so(x: VarName) -> VarName
    ensures { result ≡ as_named x }
{
    if x.step == NO_STEP {
        return VarName { step: 0, place: 0 };
    }
    x
}

// What the variables of a written ask are called, of which each names one of the state or is new.
pub(crate) fn call_variables(alloc: Global, named: &[Option<VarName>]) -> Result<Called, AllocError>
    requires { length named.now ≤ most limit.Variables }
    ensures variables { IfOk result (λ c. c.variables.items ≡ called 1 named.now) }
    ensures fresh { IfOk result (λ c. c.fresh ≡ length (filter is_none named.now)) }
{
    let mut variables = Vec::new(alloc);
    let mut fresh = 0u32;
    for name in named {
        if let Some(x) = name {
            variables.push(named_so(*x))?;
        } else {
            fresh += 1;
            variables.push(VarName {
                step: NO_STEP,
                place: fresh,
            })?;
        }
    }
    Ok(Called { variables, fresh })
}

// Each of the variables once, in the order in which they stand first: one look-up for each.
pub(crate) fn each_once(alloc: Global, xs: &[VarName]) -> Result<Vec<VarName>, AllocError>
    ensures { IfOk result (λ ys. ys.items ≡ firsts [] xs.now) }
{
    let mut seen = Variables::new(alloc);
    let mut once = Vec::new(alloc);
    for x in xs {
        if !seen.contains(*x) {
            seen.insert(*x)?;
            once.push(*x)?;
        }
    }
    Ok(once)
}

// The variables as the step of this number has them: the new ones are its own.
pub(crate) fn number_variables(
    alloc: Global,
    xs: &[VarName],
    number: u32,
) -> Result<Vec<VarName>, AllocError>
    ensures { IfOk result (λ ys. ys.items ≡ map (renumbered number) xs.now) }
{
    let mut numbered = Vec::new(alloc);
    numbered.reserve_exact(xs.len())?;
    for x in xs {
        let step = if x.step == NO_STEP { number } else { x.step };
        numbered.push(VarName {
            step,
            place: x.place,
        })?;
    }
    Ok(numbered)
}
