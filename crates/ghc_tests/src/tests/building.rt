// Terms that the tests are made of.
use ghc_term::{Name, Term, VarName};
use std::alloc::{AllocError, Global};

// The variable `_0_place`.
pub(crate) fn query(place: u32) -> VarName {
    VarName { step: 0, place }
}

// The same as a term.
pub(crate) fn variable(place: u32) -> Term {
    Term::variable(VarName { step: 0, place })
}

pub(crate) fn atom(alloc: Global, text: &str) -> Result<Term, AllocError> {
    let name = Name::new(alloc, text)?;
    Ok(Term::atom(name))
}

// An atom of so many bytes.
pub(crate) fn long_atom(alloc: Global, bytes: usize) -> Result<Term, AllocError> {
    let mut text = String::new(alloc);
    for _ in 0..bytes {
        text.push('a')?;
    }
    let name = Name::from_string(text)?;
    Ok(Term::atom(name))
}

// So many times the term.
fn copies(alloc: Global, term: &Term, count: usize) -> Result<Vec<Term>, AllocError> {
    let mut copies = Vec::new(alloc);
    for _ in 0..count {
        copies.push(term.share()?)?;
    }
    Ok(copies)
}

// The name over so many times the argument.
pub(crate) fn over(
    alloc: Global,
    name: &str,
    argument: &Term,
    count: usize,
) -> Result<Term, AllocError> {
    let arguments = copies(alloc, argument, count)?;
    if arguments.is_empty() {
        return atom(alloc, name);
    }
    let name = Name::new(alloc, name)?;
    Term::structure(alloc, name, arguments)
}

// `[1|rest]`.
fn cell(alloc: Global, rest: Term) -> Result<Term, AllocError> {
    let mut arguments = Vec::new(alloc);
    arguments.push(Term::integer(1))?;
    arguments.push(rest)?;
    let name = Name::new(alloc, ".")?;
    Term::structure(alloc, name, arguments)
}

// `[1,1,..|rest]` with so many cells.
pub(crate) fn ones(alloc: Global, cells: u32, rest: Term) -> Result<Term, AllocError> {
    let mut list = rest;
    for _ in 0..cells {
        list = cell(alloc, list)?;
    }
    Ok(list)
}

// The term within so many structures of so many times the one within.
pub(crate) fn nested(
    alloc: Global,
    term: Term,
    levels: u32,
    count: usize,
) -> Result<Term, AllocError> {
    let mut term = term;
    for _ in 0..levels {
        term = over(alloc, "f", &term, count)?;
    }
    Ok(term)
}
