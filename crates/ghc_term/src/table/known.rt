// Which variables a store gets to know when it binds one: those that a long search would go through.
ghost use Rattle.std.specs.Prelude.{◌≢◌, IsTrue};
ghost use Rattle.ghc_term.specs.declared.var_name.VarName.{VarName as name_spec};
ghost use Rattle.ghc_term.specs.Tree.{Tree};
ghost use Rattle.ghc_term.specs.Lists.{In};

use crate::overlay::push_all;
use crate::table::variable_list::VariableList;
use crate::table::variable_map::VariableMap;
use crate::term::Term;
use crate::var_name::VarName;
use crate::view::TermView;
use std::alloc::AllocError;

// How many terms a search comes to until it is a long one.
const SHORT: usize = 32;

// Whether the term is closed, or a variable that is unbound or has a closed value: one look-up at most.
#[inline(always)]
fn is_near_leaf(map: &VariableMap<Term>, term: &Term) -> bool {
    let TermView::Var(y) = term.view() else {
        return term.is_closed();
    };
    match map.get(y) {
        Some(value) => value.is_closed(),
        None => true,
    }
}

// Whether the term is such a leaf, or a structure of such leaves: one look-up an argument at most.
fn is_near(map: &VariableMap<Term>, term: &Term) -> bool {
    if term.is_closed() {
        return true;
    }
    let TermView::Struct(_, arguments) = term.view() else {
        return is_near_leaf(map, term);
    };
    for argument in arguments {
        if !is_near_leaf(map, argument) {
            return false;
        }
    }
    true
}

// Puts into the list what a search goes on with after a term: the arguments of an open structure, or an unknown variable's value.
fn push_next<'a>(
    map: &'a VariableMap<Term>,
    known: &VariableList,
    term: &'a Term,
    waiting: &mut Vec<&'a Term>,
) -> Result<(), AllocError> {
    match term.view() {
        TermView::Var(y) => {
            if known.place_of(y).is_some() {
                return Ok(());
            }
            if let Some(value) = map.get(y) {
                waiting.push(value)?;
            }
        }
        TermView::Struct(_, arguments) => {
            if !term.is_closed() {
                push_all(arguments, waiting)?;
            }
        }
        _ => {}
    }
    Ok(())
}

// Whether a search from the term comes to more than a few terms: so many steps at most.
fn is_long(map: &VariableMap<Term>, known: &VariableList, term: &Term) -> Result<bool, AllocError> {
    let mut waiting = Vec::new(map.allocator());
    waiting.push(term)?;
    for _ in 0..SHORT {
        let Some(next) = waiting.pop() else {
            return Ok(false);
        };
        push_next(map, known, next, &mut waiting)?;
    }
    Ok(true)
}

// Whether a search from the term is a long one, as far as a few steps tell; where memory is refused, it is not.
pub fn goes_far(map: &VariableMap<Term>, known: &VariableList, term: &Term) -> bool {
    if is_near(map, term) {
        return false;
    }
    match is_long(map, known, term) {
        Ok(is) => is,
        Err(_) => false,
    }
}

// Whether no variable of the entries is known, but for x: one look-up for each.
#[inline(always)]
pub fn has_no_other(known: &VariableList, entries: &[(VarName, Term)], x: VarName) -> bool
    ensures { IsTrue result → (e : name_spec × Tree) → In e entries.now → e.0 ≢ x → ¬ In e.0 known.now }
{
    for (y, _) in entries {
        if *y == x {
            continue;
        }
        if known.place_of(*y).is_some() {
            return false;
        }
    }
    true
}

// Whether no variable of the entries is known, and x is not: one look-up for each.
pub fn has_none(known: &VariableList, entries: &[(VarName, Term)], x: VarName) -> bool
    ensures unknown { IsTrue result → ¬ In x known.now }
    ensures others { IsTrue result → (e : name_spec × Tree) → In e entries.now → e.0 ≢ x → ¬ In e.0 known.now }
{
    known.place_of(x).is_none() && has_no_other(known, entries, x)
}
