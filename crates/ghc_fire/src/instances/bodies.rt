// Terms of a clause's body as a step has them: what its head variables stand for is shared, as each closed part is.
ghost use Rattle.std.specs.Prelude.{◌≡◌, ◌≢◌, [], ◌∷◌, IfOk};
ghost use Rattle.ghc_term.specs.Tree.{node, trees};
ghost use Rattle.ghc_unify.specs.Solutions.{replace};
ghost use Rattle.ghc_fire.specs.inner.Renaming.{renamed, replacement};

use crate::instances::renaming::{Renaming, body_variable};
use crate::instances::terms::replace_deep;
use ghc_match::Stands;
use ghc_term::{Name, Term, TermView};
use std::alloc::{AllocError, Global};

// An argument of a structure of the body as the step has it: at once where it is a variable or closed.
#[inline(always)]
fn body_argument(
    alloc: Global,
    term: &Term,
    theta: &Stands<'_>,
    head_variables: u32,
    number: u32,
) -> Result<Term, AllocError>
    ensures { IfOk result (λ t. t ≡ replace (renamed head_variables theta.now number) term.now) }
{
    if let TermView::Var(x) = term.view() {
        return body_variable(x, theta, head_variables, number);
    }
    if term.is_closed() {
        return term.share();
    }
    let by = Renaming::Body {
        theta,
        head_variables,
        number,
    };
    replace_deep(alloc, term, by)
}

// The structure of this name over the two arguments as the step has them.
#[inline(always)]
fn body_pair(
    alloc: Global,
    name: &Name,
    first: &Term,
    second: &Term,
    theta: &Stands<'_>,
    head_variables: u32,
    number: u32,
) -> Result<Term, AllocError>
    ensures { IfOk result (λ t. t ≡ replace (renamed head_variables theta.now number) (node name.now (trees (first.now ∷ second.now ∷ [])))) }
{
    let left = body_argument(alloc, first, theta, head_variables, number)?;
    let right = body_argument(alloc, second, theta, head_variables, number)?;
    Term::pair(alloc, name.share()?, left, right)
}

// The structure of this name over the arguments as the step has them.
fn body_list(
    alloc: Global,
    name: &Name,
    arguments: &[Term],
    theta: &Stands<'_>,
    head_variables: u32,
    number: u32,
) -> Result<Term, AllocError>
    requires { arguments.now ≢ [] }
    ensures { IfOk result (λ t. t ≡ replace (renamed head_variables theta.now number) (node name.now (trees arguments.now))) }
{
    let mut made = Vec::new(alloc);
    made.reserve_exact(arguments.len())?;
    for argument in arguments {
        made.push(body_argument(alloc, argument, theta, head_variables, number)?)?;
    }
    Term::structure(alloc, name.share()?, made)
}

// The structure of the body as the step has it.
#[inline(never)]
fn body_structure(
    alloc: Global,
    term: &Term,
    theta: &Stands<'_>,
    head_variables: u32,
    number: u32,
) -> Result<Term, AllocError>
    ensures { IfOk result (λ t. t ≡ replace (renamed head_variables theta.now number) term.now) }
{
    match term.view() {
        TermView::Struct(name, [first, second]) => {
            body_pair(alloc, name, first, second, theta, head_variables, number)
        }
        TermView::Struct(name, arguments) => {
            body_list(alloc, name, arguments, theta, head_variables, number)
        }
        TermView::Var(x) => body_variable(x, theta, head_variables, number),
        TermView::Int(_) => term.share(),
        TermView::Atom(_) => term.share(),
    }
}

// The term of the body as the step has it. It goes once through the term, and shares each part that is closed.
#[inline(always)]
fn body_term(
    alloc: Global,
    term: &Term,
    theta: &Stands<'_>,
    head_variables: u32,
    number: u32,
) -> Result<Term, AllocError>
    ensures { IfOk result (λ t. t ≡ replace (renamed head_variables theta.now number) term.now) }
{
    if let TermView::Var(x) = term.view() {
        return body_variable(x, theta, head_variables, number);
    }
    if term.is_closed() {
        return term.share();
    }
    body_structure(alloc, term, theta, head_variables, number)
}

// The term with its variables replaced. It goes once through the term, and shares each part that stays.
#[inline(always)]
pub fn replace_term(alloc: Global, term: &Term, by: Renaming<'_>) -> Result<Term, AllocError>
    ensures { IfOk result (λ t. t ≡ replace (replacement by.entry) term.now) }
{
    if let Renaming::Body {
        theta,
        head_variables,
        number,
    } = by
    {
        return body_term(alloc, term, theta, head_variables, number);
    }
    replace_deep(alloc, term, by)
}
