// Terms with their variables replaced.
ghost use Rattle.std.specs.Prelude.{◌≡◌, map, take, IfOk, MatchOption, false};
ghost use Rattle.ghc_unify.specs.Solutions.{replace};
ghost use Rattle.ghc_fire.specs.inner.Renaming.{replacement, plugged};

use crate::instances::leaves::replace_at_once;
use crate::instances::renaming::{Renaming, replace_variable};
use ghc_term::{Name, Term, TermView};
use std::alloc::{AllocError, Global};

// A structure whose last argument is still to come, with room for it.
#[derive(Drop)]
pub struct Front {
    name: Name,
    arguments: Vec<Term>,
}

// Arguments with their variables replaced, and whether one of them may have become another.
#[derive(Drop)]
pub struct Replaced {
    arguments: Vec<Term>,
    changed: bool,
}

// Puts the term in as the last argument of the last structure, that as the last argument of the one before, and so on.
fn rebuild(alloc: Global, mut fronts: Vec<Front>, end: Term) -> Result<Term, AllocError>
    ensures { IfOk result (λ t. t ≡ plugged fronts.items end) }
{
    let mut term = end;
    while let Some(front) = fronts.pop() {
        let Front {
            name,
            mut arguments,
        } = front;
        arguments.push(term)?;
        term = Term::structure(alloc, name, arguments)?;
    }
    Ok(term)
}

// What comes about where the rest, which is shared, is the last argument of the innermost of the first so many
// structures. Where there are none, nothing does.
fn rebuild_some(
    alloc: Global,
    mut fronts: Vec<Front>,
    count: usize,
    rest: &Term,
) -> Result<Option<Term>, AllocError>
    ensures { IfOk result (λ o. MatchOption o (count ≡ 0) (λ t. t ≡ plugged (take count fronts.items) rest.now)) }
{
    if count == 0 {
        return Ok(None);
    }
    fronts.truncate(count);
    Ok(Some(rebuild(alloc, fronts, rest.share()?)?))
}

// The term with its variables replaced, if that may be another term. It goes along last arguments in a loop, and into the
// others by calls. Behind the first `count` structures, of which the last has another argument, comes `rest`, in which
// nothing has become another term so far.
#[cycle(replace)]
#[inline(never)]
fn replace_open(alloc: Global, term: &Term, by: Renaming<'_>) -> Result<Option<Term>, AllocError>
    ensures { IfOk result (λ o. MatchOption o (replace (replacement by.entry) term.now ≡ term.now) (λ t. t ≡ replace (replacement by.entry) term.now)) }
{
    let mut fronts = Vec::new(alloc);
    let mut place = term;
    let mut count = 0;
    let mut rest = term;
    loop {
        if place.is_closed() {
            return rebuild_some(alloc, fronts, count, rest);
        }
        match place.view() {
            TermView::Var(x) => {
                let Some(end) = replace_variable(x, by)? else {
                    return rebuild_some(alloc, fronts, count, rest);
                };
                return Ok(Some(rebuild(alloc, fronts, end)?));
            }
            TermView::Struct(name, arguments) => {
                let (last, front) = arguments.split_last().unwrap();
                let Replaced { arguments, changed } = replace_each(
                    alloc,
                    front,
                    by,
                    arguments.len(),
                )?;
                let name = name.share()?;
                fronts.push(Front { name, arguments })?;
                place = last;
                if changed {
                    count = fronts.len();
                    rest = last;
                }
            }
            _ => return rebuild_some(alloc, fronts, count, rest),
        }
    }
}

// The same, at once where no structure below the term has variables; it is seen by its arguments, up to the first such one.
#[cycle(replace)]
fn replace_part(alloc: Global, term: &Term, by: Renaming<'_>) -> Result<Option<Term>, AllocError>
    ensures { IfOk result (λ o. MatchOption o (replace (replacement by.entry) term.now ≡ term.now) (λ t. t ≡ replace (replacement by.entry) term.now)) }
{
    if term.is_closed() {
        return Ok(None);
    }
    match replace_at_once(alloc, term, by)? {
        Some(other) => Ok(Some(other)),
        None => replace_open(alloc, term, by),
    }
}

// The terms with their variables replaced, in a list with room for so many. Those that stay are shared.
#[cycle(replace)]
fn replace_each(
    alloc: Global,
    terms: &[Term],
    by: Renaming<'_>,
    room: usize,
) -> Result<Replaced, AllocError>
    ensures arguments { IfOk result (λ r. r.arguments.items ≡ map (replace (replacement by.entry)) terms.now) }
    ensures changed { IfOk result (λ r. r.changed ≡ false → map (replace (replacement by.entry)) terms.now ≡ terms.now) }
{
    let mut arguments = Vec::new(alloc);
    arguments.reserve_exact(room)?;
    let mut changed = false;
    for term in terms {
        match replace_part(alloc, term, by)? {
            Some(other) => {
                arguments.push(other)?;
                changed = true;
            }
            None => arguments.push(term.share()?)?,
        }
    }
    Ok(Replaced { arguments, changed })
}

// The term with its variables replaced. It goes once through the term, and shares each part that stays.
#[inline(never)]
pub fn replace_deep(alloc: Global, term: &Term, by: Renaming<'_>) -> Result<Term, AllocError>
    ensures { IfOk result (λ t. t ≡ replace (replacement by.entry) term.now) }
{
    match replace_part(alloc, term, by)? {
        Some(other) => Ok(other),
        None => term.share(),
    }
}
