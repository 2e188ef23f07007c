// What is seen of a value at its top.
ghost use Rattle.std.specs.Prelude.{◌≡◌, ◌↔◌, IsTrue};
ghost use Rattle.ghc_term.specs.Tree.{IsValue};
ghost use Rattle.ghc_match.specs.Match.{AreAlike, IsInteger, IsAtom, IsList};
ghost use Rattle.ghc_match.specs.inner.Meeting.{arguments};

use ghc_term::{Term, TermView};

// The arguments of a structure; other terms have none.
pub fn arguments_of(term: &Term) -> &[Term]
    ensures { result.now ≡ arguments term.now }
{
    match term.view() {
        TermView::Struct(_, arguments) => arguments,
        _ => &[],
    }
}

// Whether both are one integer, or both have one name and as many arguments: one step.
#[inline(always)]
pub fn are_alike(left: &Term, right: &Term) -> bool
    ensures { IsTrue result ↔ AreAlike left.now right.now }
{
    match (left.view(), right.view()) {
        (TermView::Int(i), TermView::Int(k)) => i == k,
        (TermView::Atom(f), TermView::Atom(g)) => f == g,
        (TermView::Struct(f, lefts), TermView::Struct(g, rights)) => {
            f == g && lefts.len() == rights.len()
        }
        _ => false,
    }
}

// Whether the term is no variable.
pub fn is_value(term: &Term) -> bool
    ensures { IsTrue result ↔ IsValue term.now }
{
    !matches!(term.view(), TermView::Var(_))
}

// Whether the term is an integer.
pub fn is_integer(term: &Term) -> bool
    ensures { IsTrue result ↔ IsInteger term.now }
{
    matches!(term.view(), TermView::Int(_))
}

// Whether the term is an atom.
pub fn is_atom(term: &Term) -> bool
    ensures { IsTrue result ↔ IsAtom term.now }
{
    matches!(term.view(), TermView::Atom(_))
}

// Whether the term is a list cell or the empty list.
pub fn is_list(term: &Term) -> bool
    ensures { IsTrue result ↔ IsList term.now }
{
    match term.view() {
        TermView::Atom(name) => name.as_str() == "[]",
        TermView::Struct(name, arguments) => name.as_str() == "." && arguments.len() == 2,
        _ => false,
    }
}
