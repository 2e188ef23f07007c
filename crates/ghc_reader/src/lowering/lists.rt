// Structures and lists of terms.
ghost use Rattle.std.specs.Prelude.{◌≡◌, IfOk, codes};
ghost use Rattle.ghc_term.specs.Tree.{node, trees, nil, cons};
ghost use Rattle.ghc_reader.specs.inner.Scope.{conses};

use ghc_term::{Name, Term};
use std::alloc::{AllocError, Global};

/// The names of which lists are made, so that each list shares them.
pub(crate) struct Lists {
    alloc: Global,
    cell: Name,
    empty: Name,
    ghost names_cells: { cell ≡ codes "." },
    ghost names_the_empty: { empty ≡ codes "[]" },
}

impl Drop for Lists {
    fn drop(self) {
        let Lists {
            alloc: _alloc,
            cell: _cell,
            empty: _empty,
        } = self;
    }
}

impl Lists {
    /// The two names. It takes memory for their texts.
    pub(crate) fn new(alloc: Global) -> Result<Lists, AllocError> {
        let cell = Name::new(alloc, ".")?;
        let empty = Name::new(alloc, "[]")?;
        Ok(Lists { alloc, cell, empty })
    }

    /// The allocator.
    pub(crate) fn alloc(&self) -> Global {
        self.alloc
    }

    /// The empty list.
    pub(crate) fn empty(&self) -> Result<Term, AllocError>
        ensures { IfOk result (λ t. t ≡ nil) }
    {
        Ok(Term::atom(self.empty.share()?))
    }

    /// One cell.
    pub(crate) fn cell(&self, head: Term, tail: Term) -> Result<Term, AllocError>
        ensures { IfOk result (λ t. t ≡ cons head tail) }
    {
        let arguments = vec![in self.alloc; head, tail]?;
        Term::structure(self.alloc, self.cell.share()?, arguments)
    }

    /// The cells of the elements in front of an end.
    pub(crate) fn cells(&self, mut elements: Vec<Term>, end: Term) -> Result<Term, AllocError>
        ensures { IfOk result (λ t. t ≡ conses elements.items end) }
    {
        let mut list = end;
        while let Some(element) = elements.pop() {
            list = self.cell(element, list)?;
        }
        Ok(list)
    }
}

/// The name over its arguments: an atom where there are none.
pub(crate) fn structure(alloc: Global, name: Name, arguments: Vec<Term>) -> Result<Term, AllocError>
    ensures { IfOk result (λ t. t ≡ node name (trees arguments.items)) }
{
    if arguments.is_empty() {
        return Ok(Term::atom(name));
    }
    Term::structure(alloc, name, arguments)
}
