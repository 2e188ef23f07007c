// What variables become in the goals that a step makes.
ghost use Rattle.std.specs.Prelude.{◌≡◌, IfOk, MatchOption};
ghost use Rattle.ghc_term.specs.Tree.{variable};
ghost use Rattle.ghc_fire.specs.inner.Renaming.{renamed, replacement};

use crate::effect::NO_STEP;
use ghc_match::Stands;
use ghc_term::{Term, VarName};
use std::alloc::AllocError;

// The ways in which a variable becomes a term.
#[derive(Clone, Copy)]
pub enum Renaming<'a> {
    // In the body of a clause: one of the head becomes what it stands for, and another a variable of the step.
    Body {
        theta: &'a Stands<'a>,
        head_variables: u32,
        number: u32,
    },
    // In the goals of an effect under any number: one that the step makes gets this number, and another stays.
    Numbered(u32),
    // In the goals of a written ask: the i-th becomes the i-th of these.
    Called(&'a [VarName]),
}

// What the variable of a body becomes in the step of this number, where the head variables stand for what theta has: one look-up.
#[inline(always)]
pub fn body_variable(
    x: VarName,
    theta: &Stands<'_>,
    head_variables: u32,
    number: u32,
) -> Result<Term, AllocError>
    ensures { IfOk result (λ t. t ≡ renamed head_variables theta.now number x) }
{
    match theta.get(x) {
        Some(term) => term.share(),
        None => Ok(Term::variable(VarName {
            step: number,
            place: x.place.saturating_sub(head_variables),
        })),
    }
}

// What the variable becomes, if that may be another term: one look-up at most.
#[inline(always)]
pub fn replace_variable(x: VarName, by: Renaming<'_>) -> Result<Option<Term>, AllocError>
    ensures { IfOk result (λ o. MatchOption o (replacement by.entry x ≡ variable x) (λ t. t ≡ replacement by.entry x)) }
{
    match by {
        Renaming::Body {
            theta,
            head_variables,
            number,
        } => Ok(Some(body_variable(x, theta, head_variables, number)?)),
        Renaming::Numbered(number) => {
            if x.step != NO_STEP {
                return Ok(None);
            }
            Ok(Some(Term::variable(VarName {
                step: number,
                place: x.place,
            })))
        }
        Renaming::Called(names) => match names.get(x.place.saturating_sub(1) as usize) {
            Some(name) => Ok(Some(Term::variable(*name))),
            None => Ok(None),
        },
    }
}
