// The nodes of a term: variables, integers, structures, the cells of lists and the empty lists that end them.
ghost use Rattle.std.specs.Prelude.{◌≡◌, ◌+◌, ◌<◌, ◌↔◌, IsTrue, MatchOption};
ghost use Rattle.ghc_reader.specs.inner.Views.{view, views};
ghost use Rattle.ghc_reader.specs.Amounts.{nodes, nodes_of};

use crate::source::SourceTerm;

/// Whether the term has more than so many nodes. Time grows with the nodes, up to so many.
pub(crate) fn has_more_nodes(term: &SourceTerm, most: usize) -> bool
    ensures { IsTrue result ↔ (most < nodes (view term.now)) }
{
    without_nodes(most, term).is_none()
}

// What is left of a number when the nodes of the term are taken off, where there are no more than it.
#[cycle(nodes)]
fn without_nodes(count: usize, term: &SourceTerm) -> Option<usize>
    ensures { MatchOption result (count < nodes (view term.now)) (λ left. left + nodes (view term.now) ≡ count) }
{
    match term {
        SourceTerm::Variable(_) => count.checked_sub(1),
        SourceTerm::Integer(_) => count.checked_sub(1),
        SourceTerm::Structure(_, arguments) => without_all(count.checked_sub(1)?, arguments),
        SourceTerm::Empty => count.checked_sub(1),
        SourceTerm::List(items, tail) => {
            let left = count.checked_sub(items.len())?;
            without_nodes(without_all(left, items)?, tail)
        }
    }
}

#[cycle(nodes)]
fn without_all(count: usize, terms: &[SourceTerm]) -> Option<usize>
    ensures { MatchOption result (count < nodes_of (views terms.now)) (λ left. left + nodes_of (views terms.now) ≡ count) }
{
    let mut left = count;
    for term in terms {
        left = without_nodes(left, term)?;
    }
    Some(left)
}
