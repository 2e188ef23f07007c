// Where variables end: those of a goal, and those of a clause whose head meets one.
ghost use Rattle.ghc_term.specs.Store.{value_at};
ghost use Rattle.ghc_match.specs.inner.Ends.{ChainEnds, EndsAt, TellsEnd};

use crate::stands::Stands;
use ghc_term::{Store, Term, TermView, VarName};

/// What variables stand for.
#[derive(Clone, Copy)]
pub enum Scope<'a> {
    /// Themselves, as in a goal.
    Goal,
    /// What the head of a clause gives them, as in its guard.
    Head(&'a Stands<'a>),
}

// Where a variable ends.
#[derive(Clone, Copy)]
pub enum End<'a> {
    // It stands for nothing.
    Nowhere,
    Unbound(VarName),
    Value(&'a Term),
}

// The end of what the variable stands for. One look-up for each variable passed.
pub fn end_of<'a>(store: &'a Store, scope: Scope<'a>, x: VarName) -> End<'a>
    ensures { TellsEnd (EndsAt scope.entry store.now.held x) result }
{
    match scope {
        Scope::Goal => match store.get(x) {
            Some(value) => end_of_term(store, value),
            None => End::Unbound(x),
        },
        Scope::Head(stands) => match stands.get(x) {
            Some(term) => end_of_term(store, term),
            None => End::Nowhere,
        },
    }
}

// The end of the term's chain.
fn end_of_term<'a>(store: &'a Store, term: &'a Term) -> End<'a>
    ensures { TellsEnd (ChainEnds (value_at store.now.held) term.now) result }
{
    let end = store.end(term);
    match end.view() {
        TermView::Var(x) => End::Unbound(x),
        _ => End::Value(end),
    }
}
