// The pieces of goals.
ghost use Rattle.std.specs.Prelude.{◌≡◌, ◌++◌, IfOk, codes, string_bytes};
ghost use Rattle.std.specs.Fmt.{decimal};
ghost use Rattle.std.specs.Io.{StartsWith};
ghost use Rattle.ghc_term.specs.Store.{value_at};
ghost use Rattle.ghc_term.specs.Tree.{variable};
ghost use Rattle.ghc_term.specs.Text.{term_text};
ghost use Rattle.ghc_term.specs.GoalText.{goal_text_by};
ghost use Rattle.ghc_term.specs.inner.Lookup.{held_in};
ghost use Rattle.ghc_term.specs.inner.Pieces.{StartsIn, piece_text};

use crate::appending::{push_number, push_variable};
use crate::goal::Goal;
use crate::goal_view::GoalView;
use crate::printing::lookup::Lookup;
use crate::printing::pieces::{Piece, push_leaf, push_piece, push_sides, push_structure};
use crate::term::Term;
use crate::var_name::VarName;
use std::alloc::AllocError;

// Writes the beginning of a stream goal. Its tail is left, if it is bound.
fn push_stream<'a>(
    number: u32,
    tail: VarName,
    lookup: &Lookup<'a>,
    pieces: &mut Vec<Piece<'a>>,
    out: &mut String,
) -> Result<(), AllocError>
    ensures text { IfOk result (λ _. StartsIn (value_at (held_in lookup.now)) (λ r. codes "instream " ++ (decimal number ++ (codes " " ++ term_text (r (variable tail))))) pieces.old.items pieces.new.items (string_bytes out.old) (string_bytes out.new)) }
    ensures begun { StartsWith (string_bytes out.new) (string_bytes out.old) }
{
    out.push_str("instream ")?;
    push_number(number, out)?;
    out.push_str(" ")?;
    match lookup.get(tail) {
        Some(value) => {
            pieces.push(Piece::Term(value))?;
            Ok(())
        }
        None => push_variable(tail, out),
    }
}

// Writes the left side of a goal, the mark after it and the beginning of the right side, or leaves them where the left one is a
// structure.
fn push_equation<'a>(
    left: &'a Term,
    mark: &'a str,
    right: Piece<'a>,
    lookup: &Lookup<'a>,
    pieces: &mut Vec<Piece<'a>>,
    out: &mut String,
) -> Result<(), AllocError>
    ensures text { IfOk result (λ _. StartsIn (value_at (held_in lookup.now)) (λ r. term_text (r left.now) ++ (mark.now ++ piece_text r right.entry)) pieces.old.items pieces.new.items (string_bytes out.old) (string_bytes out.new)) }
    ensures begun { StartsWith (string_bytes out.new) (string_bytes out.old) }
{
    lookup.acyclic();
    let last = lookup.end(left);
    if !push_leaf(last, out)? {
        return push_sides(Piece::Term(left), mark, right, pieces);
    }
    out.push_str(mark)?;
    push_piece(right, lookup, pieces, out)
}

// Writes the beginning of a goal.
pub(crate) fn push_goal<'a>(
    goal: &'a Goal,
    lookup: &Lookup<'a>,
    pieces: &mut Vec<Piece<'a>>,
    out: &mut String,
) -> Result<(), AllocError>
    ensures text { IfOk result (λ _. StartsIn (value_at (held_in lookup.now)) (λ r. goal_text_by r goal.now) pieces.old.items pieces.new.items (string_bytes out.old) (string_bytes out.new)) }
    ensures begun { StartsWith (string_bytes out.new) (string_bytes out.old) }
{
    lookup.acyclic();
    match goal.view() {
        GoalView::Call(name, arguments) => push_structure(name, arguments, lookup, pieces, out),
        GoalView::Unify(left, right) => {
            push_equation(left, " = ", Piece::Term(right), lookup, pieces, out)
        }
        GoalView::Assign(left, value) => {
            push_equation(left, " := ", Piece::Expr(value), lookup, pieces, out)
        }
        GoalView::Stream(number, tail) => push_stream(number, tail, lookup, pieces, out),
    }
}
