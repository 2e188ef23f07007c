// Variables replaced at once: in a variable, and in a structure in which no open structure stands.
ghost use Rattle.std.specs.Prelude.{◌≡◌, ◌≢◌, [], ◌∷◌, IfOk, IfSome};
ghost use Rattle.ghc_term.specs.Tree.{node, trees};
ghost use Rattle.ghc_unify.specs.Solutions.{replace};
ghost use Rattle.ghc_fire.specs.inner.Renaming.{replacement};

use crate::instances::renaming::{Renaming, replace_variable};
use ghc_term::{Name, Term, TermView};
use std::alloc::{AllocError, Global};

// The argument with its variables replaced, where it is closed or a variable that becomes a term.
#[inline(always)]
fn replace_leaf(term: &Term, by: Renaming<'_>) -> Result<Option<Term>, AllocError>
    ensures { IfOk result (λ o. IfSome o (λ t. t ≡ replace (replacement by.entry) term.now)) }
{
    if let TermView::Var(x) = term.view() {
        return replace_variable(x, by);
    }
    if term.is_closed() {
        return Ok(Some(term.share()?));
    }
    Ok(None)
}

// The structure of this name over the two arguments with their variables replaced, where both are such leaves.
fn replace_pair(
    alloc: Global,
    name: &Name,
    first: &Term,
    second: &Term,
    by: Renaming<'_>,
) -> Result<Option<Term>, AllocError>
    ensures { IfOk result (λ o. IfSome o (λ t. t ≡ replace (replacement by.entry) (node name.now (trees (first.now ∷ second.now ∷ []))))) }
{
    let Some(left) = replace_leaf(first, by)? else {
        return Ok(None);
    };
    let Some(right) = replace_leaf(second, by)? else {
        return Ok(None);
    };
    Ok(Some(Term::pair(alloc, name.share()?, left, right)?))
}

// The structure of this name over the arguments with their variables replaced, where each of them is such a leaf.
fn replace_flat(
    alloc: Global,
    name: &Name,
    arguments: &[Term],
    by: Renaming<'_>,
) -> Result<Option<Term>, AllocError>
    requires { arguments.now ≢ [] }
    ensures { IfOk result (λ o. IfSome o (λ t. t ≡ replace (replacement by.entry) (node name.now (trees arguments.now)))) }
{
    let mut replaced = Vec::new(alloc);
    replaced.reserve_exact(arguments.len())?;
    for argument in arguments {
        let Some(other) = replace_leaf(argument, by)? else {
            return Ok(None);
        };
        replaced.push(other)?;
    }
    Ok(Some(Term::structure(alloc, name.share()?, replaced)?))
}

// The term with its variables replaced, where it is a variable that becomes a term or a structure of such leaves. It looks no
// deeper.
pub fn replace_at_once(
    alloc: Global,
    term: &Term,
    by: Renaming<'_>,
) -> Result<Option<Term>, AllocError>
    ensures { IfOk result (λ o. IfSome o (λ t. t ≡ replace (replacement by.entry) term.now)) }
{
    match term.view() {
        TermView::Var(x) => replace_variable(x, by),
        TermView::Struct(name, [first, second]) => replace_pair(alloc, name, first, second, by),
        TermView::Struct(name, arguments) => replace_flat(alloc, name, arguments, by),
        _ => Ok(None),
    }
}
