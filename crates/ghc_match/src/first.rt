// The first argument of a call, which alone refuses some clauses.
ghost use Rattle.std.specs.Prelude.{IsTrue, List, Option, option_copied};
ghost use Rattle.ghc_term.specs.declared.var_name.VarName.{VarName};
ghost use Rattle.ghc_term.specs.Tree.{Tree};
ghost use Rattle.ghc_term.specs.Store.{value_at};
ghost use Rattle.ghc_match.specs.inner.First.{FirstEnds};
ghost use Rattle.ghc_match.specs.Match.{Refuses};

use crate::alike::{are_alike, is_value};
use ghc_flat::Clause;
use ghc_term::{Store, Term};

/// Where the first of the arguments of a call ends, if it has arguments: one look-up for each variable passed.
pub fn first_end<'a>(arguments: &'a [Term], store: &'a Store) -> Option<&'a Term>
    ensures { FirstEnds (value_at store.now.held) arguments.now (option_copied result) }
{
    match arguments.first() {
        Some(term) => Some(store.end(term)),
        None => None,
    }
}

/// Whether the clause is seen to refuse each call whose first argument ends so: its head has another value there. It looks at
/// the tops of the two alone, and what it does not refuse so may still be refused.
pub fn refuses_at_first(clause: &Clause, end: Option<&Term>) -> bool
    ensures { IsTrue result → (ts : List Tree) (S : VarName → Option Tree) → FirstEnds S ts (option_copied end.entry) → Refuses clause.now ts S }
{
    let (Some(head), Some(end)) = (clause.head().first(), end) else {
        return false;
    };
    if !is_value(head) || !is_value(end) {
        return false;
    }
    !are_alike(head, end)
}
