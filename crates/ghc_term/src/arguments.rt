// The arguments of a structure.
ghost use Rattle.std.specs.Prelude.{◌≡◌, [], ◌∷◌};
ghost use Rattle.ghc_term.specs.inner.View.{items_of, closed_of, KnowsClosed};

use crate::term::{Term, are_closed, do_branch};

// Two arguments, as a list cell has, stand beside their name; others have memory of their own. With them stands whether no variable
// stands in them, which takes no memory there.
#[cycle(term)]
pub(crate) enum Arguments {
    Two(bool, [Term; 2]),
    Others(bool, Vec<Term>),
}

impl Arguments {
    // Two arguments.
    #[inline(always)]
    pub(crate) fn two(first: Term, second: Term) -> Arguments
        ensures items { items_of result ≡ first ∷ second ∷ [] }
        ensures closed { KnowsClosed result }
    {
        let is_closed = first.is_closed() && second.is_closed();
        Arguments::Two(is_closed, [first, second])
    }

    // The arguments of the list.
    pub(crate) fn of(mut list: Vec<Term>) -> Arguments
        ensures items { items_of result ≡ list.items }
        ensures closed { KnowsClosed result }
    {
        if list.len() == 2 {
            let second = list.pop().unwrap();
            return Arguments::two(list.pop().unwrap(), second);
        }
        let is_closed = are_closed(list.as_slice());
        Arguments::Others(is_closed, list)
    }

    // Whether no variable stands in them: one step.
    #[inline(always)]
    pub(crate) fn is_closed(&self) -> bool
        ensures { result ≡ closed_of self.now }
    {
        match self {
            Arguments::Two(is_closed, _) => *is_closed,
            Arguments::Others(is_closed, _) => *is_closed,
        }
    }

    // Whether two of them or more are structures in which variables stand. Where nothing is open, it looks at none.
    #[inline(always)]
    pub(crate) fn branches(&self) -> bool {
        match self {
            Arguments::Two(is_closed, terms) => {
                !*is_closed && terms[0].is_open_structure() && terms[1].is_open_structure()
            }
            Arguments::Others(is_closed, list) => !*is_closed && do_branch(list.as_slice()),
        }
    }

    // The arguments in order.
    #[inline(always)]
    pub(crate) fn as_slice(&self) -> &[Term]
        ensures { result.now ≡ items_of self.now }
    {
        match self {
            Arguments::Two(_, terms) => terms,
            Arguments::Others(_, list) => list.as_slice(),
        }
    }
}

// The two terms.
pub(crate) fn parts_of_two(terms: [Term; 2]) -> (Term, Term)
    ensures { result.0 ∷ result.1 ∷ [] ≡ terms }
{
    let [first, second] = terms;
    (first, second)
}

// Drops the arguments.
pub(crate) fn give_up(arguments: Arguments) {
    match arguments {
        Arguments::Two(_, [_first, _last]) => {}
        Arguments::Others(_, _list) => {}
    }
}
