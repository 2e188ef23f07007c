// What is still to be written of a text, in pieces. They stand in a list, so that no depth of a term takes stack.
ghost use Rattle.std.specs.Prelude.{◌≡◌, ◌≢◌, ◌↔◌, ◌<◌, ◌∷◌, ◌++◌, ◌+◌, [], ℕ, suc, List, if◌then◌else◌, IfOk, IsTrue, MatchOption, string_bytes};
ghost use Rattle.std.specs.Io.{StartsWith};
ghost use Rattle.ghc_term.specs.Store.{value_at};
ghost use Rattle.ghc_term.specs.Tree.{Tree, node, trees, cons, nil};
ghost use Rattle.ghc_term.specs.Text.{IsNoCell, barred, term_text, rest_text, arguments_text, further_text};
ghost use Rattle.ghc_term.specs.Resolved.{all_resolved};
ghost use Rattle.ghc_term.specs.inner.Lookup.{held_in};
ghost use Rattle.ghc_term.specs.inner.Pieces.{Advances, IsLeaf, Unfolds, UnfoldsIn, piece_text, piece_size, term_size, rest_size, arguments_size};

use crate::appending::{push_integer, push_mark, push_variable};
use crate::expr::Expr;
use crate::name::Name;
use crate::printing::expressions::{push_expression, push_operand};
use crate::printing::lookup::Lookup;
use crate::term::Term;
use crate::view::TermView;
use std::alloc::AllocError;

// So many bytes of a list are written at most before the text is looked at for its length, but for a last leaf.
const STRETCH: usize = 4_096;

// Something that is still to be written.
#[derive(Clone, Copy)]
pub(crate) enum Piece<'a> {
    // A term.
    Term(&'a Term),
    // The rest of a list, up to its closing bracket.
    Rest(&'a Term),
    // Further arguments of a structure, up to its closing parenthesis.
    Further(&'a [Term]),
    // A mark, as the closing bracket of a list that ends in no list.
    Mark(&'a str),
    // An expression.
    Expr(&'a Expr),
    // An operand of an expression.
    Operand(&'a Expr),
}

// The head and the tail, where a name over these arguments is a list cell.
fn cell_of<'a>(name: &Name, arguments: &'a [Term]) -> Option<(&'a Term, &'a Term)>
    ensures { MatchOption result (IsNoCell (node name.now (trees arguments.now))) (λ parts. node name.now (trees arguments.now) ≡ cons parts.0.now parts.1.now) }
{
    match arguments {
        [head, tail] if name.as_str() == "." => Some((head, tail)),
        _ => None,
    }
}

// The head and the tail of a list cell.
fn cell(term: &Term) -> Option<(&Term, &Term)>
    ensures { MatchOption result (IsNoCell term.now) (λ parts. term.now ≡ cons parts.0.now parts.1.now) }
{
    match term.view() {
        TermView::Struct(name, arguments) => cell_of(name, arguments),
        _ => None,
    }
}

// Whether the term is the empty list.
fn is_nil(term: &Term) -> bool
    ensures { IsTrue result ↔ (term.now ≡ nil) }
{
    match term.view() {
        TermView::Atom(name) => name.as_str() == "[]",
        _ => false,
    }
}

// Writes a term that leads to no other, if it is a variable, an integer or an atom, and tells whether it is. A structure is left.
pub(crate) fn push_leaf(term: &Term, out: &mut String) -> Result<bool, AllocError>
    ensures text { IfOk result (λ is_leaf. string_bytes out.new ≡ string_bytes out.old ++ (if is_leaf then term_text term.now else [])) }
    ensures leaf { IfOk result (λ is_leaf. IsTrue is_leaf → IsLeaf term.now) }
    ensures begun { StartsWith (string_bytes out.new) (string_bytes out.old) }
{
    match term.view() {
        TermView::Var(x) => {
            push_variable(x, out)?;
            Ok(true)
        }
        TermView::Int(k) => {
            push_integer(k, out)?;
            Ok(true)
        }
        TermView::Atom(name) => {
            out.push_str(name.as_str())?;
            Ok(true)
        }
        TermView::Struct(_, _) => Ok(false),
    }
}

// Writes the bar, the end of a list that ends in no list, and the closing bracket. A structure is left, and the bracket.
fn push_tail<'a>(
    end: &'a Term,
    pieces: &mut Vec<Piece<'a>>,
    out: &mut String,
) -> Result<(), AllocError>
    ensures text { IfOk result (λ _. (r : Tree → Tree) (w : Tree → ℕ) → (IsLeaf end.now → r end.now ≡ end.now)
        → Advances r w (barred (term_text (r end.now))) (rest_size w end.now) pieces.old.items pieces.new.items (string_bytes out.old) (string_bytes out.new)) }
    ensures begun { StartsWith (string_bytes out.new) (string_bytes out.old) }
{
    push_mark('|', out)?;
    if push_leaf(end, out)? {
        return push_mark(']', out);
    }
    pieces.push(Piece::Mark("]"))?;
    pieces.push(Piece::Term(end))?;
    Ok(())
}

// Writes the rest of a list up to the first structure in it, which is left, and no more than a stretch of it.
fn push_rest<'a>(
    term: &'a Term,
    lookup: &Lookup<'a>,
    pieces: &mut Vec<Piece<'a>>,
    out: &mut String,
) -> Result<(), AllocError>
    ensures text { IfOk result (λ _. UnfoldsIn (value_at (held_in lookup.now)) (λ r. rest_text (r term.now)) (λ w. rest_size w term.now) pieces.old.items pieces.new.items (string_bytes out.old) (string_bytes out.new)) }
    ensures begun { StartsWith (string_bytes out.new) (string_bytes out.old) }
{
    lookup.acyclic();
    let enough = out.len().saturating_add(STRETCH);
    let mut left = term;
    loop {
        let end = lookup.end(left);
        if is_nil(end) {
            return push_mark(']', out);
        }
        let Some((head, tail)) = cell(end) else {
            return push_tail(end, pieces, out);
        };
        push_mark(',', out)?;
        let first = lookup.end(head);
        if !push_leaf(first, out)? {
            pieces.push(Piece::Rest(tail))?;
            pieces.push(Piece::Term(first))?;
            return Ok(());
        }
        if out.len() > enough {
            pieces.push(Piece::Rest(tail))?;
            return Ok(());
        }
        left = tail;
    }
}

// Writes the mark in front of a list's head, the head, and the rest up to the first structure, which is left.
fn push_cell<'a>(
    mark: char,
    head: &'a Term,
    tail: &'a Term,
    lookup: &Lookup<'a>,
    pieces: &mut Vec<Piece<'a>>,
    out: &mut String,
) -> Result<(), AllocError>
    requires { mark < 128 }
    ensures text { IfOk result (λ _. UnfoldsIn (value_at (held_in lookup.now)) (λ r. mark ∷ (term_text (r head.now) ++ rest_text (r tail.now))) (λ w. suc (term_size w head.now + rest_size w tail.now)) pieces.old.items pieces.new.items (string_bytes out.old) (string_bytes out.new)) }
    ensures begun { StartsWith (string_bytes out.new) (string_bytes out.old) }
{
    push_mark(mark, out)?;
    let end = lookup.end(head);
    if push_leaf(end, out)? {
        return push_rest(tail, lookup, pieces, out);
    }
    pieces.push(Piece::Rest(tail))?;
    pieces.push(Piece::Term(end))?;
    Ok(())
}

// Writes the mark in front of an argument, and the argument and the further ones up to the first structure, which is left.
fn push_argument<'a>(
    mark: char,
    argument: &'a Term,
    further: &'a [Term],
    lookup: &Lookup<'a>,
    pieces: &mut Vec<Piece<'a>>,
    out: &mut String,
) -> Result<(), AllocError>
    requires { mark < 128 }
    ensures text { IfOk result (λ _. UnfoldsIn (value_at (held_in lookup.now)) (λ r. mark ∷ (term_text (r argument.now) ++ further_text (all_resolved r further.now))) (λ w. suc (term_size w argument.now + arguments_size w further.now)) pieces.old.items pieces.new.items (string_bytes out.old) (string_bytes out.new)) }
    ensures begun { StartsWith (string_bytes out.new) (string_bytes out.old) }
{
    push_mark(mark, out)?;
    let end = lookup.end(argument);
    if push_leaf(end, out)? {
        return push_further(further, lookup, pieces, out);
    }
    pieces.push(Piece::Further(further))?;
    pieces.push(Piece::Term(end))?;
    Ok(())
}

// Leaves two sides with a mark between them.
pub(crate) fn push_sides<'a>(
    left: Piece<'a>,
    mark: &'a str,
    right: Piece<'a>,
    pieces: &mut Vec<Piece<'a>>,
) -> Result<(), AllocError>
    ensures { IfOk result (λ _. Unfolds (λ r. piece_text r left.entry ++ (mark.now ++ piece_text r right.entry)) (λ w. suc (piece_size w left.entry + 1 + piece_size w right.entry)) pieces.old.items pieces.new.items [] []) }
{
    pieces.push(right)?;
    pieces.push(Piece::Mark(mark))?;
    pieces.push(left)?;
    Ok(())
}

// Writes a name, and what stands in front of its first argument.
pub(crate) fn push_structure<'a>(
    name: &Name,
    arguments: &'a [Term],
    lookup: &Lookup<'a>,
    pieces: &mut Vec<Piece<'a>>,
    out: &mut String,
) -> Result<(), AllocError>
    ensures text { IfOk result (λ _. UnfoldsIn (value_at (held_in lookup.now)) (λ r. name.now ++ arguments_text (all_resolved r arguments.now)) (λ w. arguments_size w arguments.now) pieces.old.items pieces.new.items (string_bytes out.old) (string_bytes out.new)) }
    ensures begun { StartsWith (string_bytes out.new) (string_bytes out.old) }
{
    out.push_str(name.as_str())?;
    match arguments {
        [first, further @ ..] => push_argument('(', first, further, lookup, pieces, out),
        [] => Ok(()),
    }
}

// Writes further arguments and the closing parenthesis, up to the first structure, which is left.
fn push_further<'a>(
    arguments: &'a [Term],
    lookup: &Lookup<'a>,
    pieces: &mut Vec<Piece<'a>>,
    out: &mut String,
) -> Result<(), AllocError>
    ensures text { IfOk result (λ _. UnfoldsIn (value_at (held_in lookup.now)) (λ r. further_text (all_resolved r arguments.now)) (λ w. arguments_size w arguments.now) pieces.old.items pieces.new.items (string_bytes out.old) (string_bytes out.new)) }
    ensures begun { StartsWith (string_bytes out.new) (string_bytes out.old) }
{
    let mut left = arguments;
    loop {
        let [next, further @ ..] = left else {
            return push_mark(')', out);
        };
        push_mark(',', out)?;
        let last = lookup.end(next);
        if !push_leaf(last, out)? {
            pieces.push(Piece::Further(further))?;
            pieces.push(Piece::Term(last))?;
            return Ok(());
        }
        left = further;
    }
}

// Writes the beginning of a term.
fn push_term<'a>(
    term: &'a Term,
    lookup: &Lookup<'a>,
    pieces: &mut Vec<Piece<'a>>,
    out: &mut String,
) -> Result<(), AllocError>
    ensures text { IfOk result (λ _. UnfoldsIn (value_at (held_in lookup.now)) (λ r. term_text (r term.now)) (λ w. term_size w term.now) pieces.old.items pieces.new.items (string_bytes out.old) (string_bytes out.new)) }
    ensures begun { StartsWith (string_bytes out.new) (string_bytes out.old) }
{
    let end = lookup.end(term);
    if let Some((head, tail)) = cell(end) {
        return push_cell('[', head, tail, lookup, pieces, out);
    }
    match end.view() {
        TermView::Var(x) => push_variable(x, out),
        TermView::Int(k) => push_integer(k, out),
        TermView::Atom(name) => out.push_str(name.as_str()),
        TermView::Struct(name, arguments) => push_structure(name, arguments, lookup, pieces, out),
    }
}

// Writes the beginning of a piece, which was taken from the pieces.
pub(crate) fn push_piece<'a>(
    piece: Piece<'a>,
    lookup: &Lookup<'a>,
    pieces: &mut Vec<Piece<'a>>,
    out: &mut String,
) -> Result<(), AllocError>
    ensures text { IfOk result (λ _. UnfoldsIn (value_at (held_in lookup.now)) (λ r. piece_text r piece.entry) (λ w. piece_size w piece.entry) pieces.old.items pieces.new.items (string_bytes out.old) (string_bytes out.new)) }
    ensures begun { StartsWith (string_bytes out.new) (string_bytes out.old) }
{
    match piece {
        Piece::Term(term) => push_term(term, lookup, pieces, out),
        Piece::Rest(term) => push_rest(term, lookup, pieces, out),
        Piece::Further(arguments) => push_further(arguments, lookup, pieces, out),
        Piece::Mark(mark) => out.push_str(mark),
        Piece::Expr(expression) => push_expression(expression, pieces),
        Piece::Operand(expression) => push_operand(expression, pieces, out),
    }
}
