// The texts of terms and goals, as they are written or with their variables replaced.
ghost use Rattle.std.specs.Prelude.{◌≡◌, ◌++◌, ◌+◌, ◌<◌, ◌≤◌, ◌⊎◌, List, ℕ, length, IfOk, IfErr, OnOk, is_ok, if◌then◌else◌, string_bytes};
ghost use Rattle.std.specs.Io.{StartsWith};
ghost use Rattle.ghc_term.specs.Store.{value_at};
ghost use Rattle.ghc_term.specs.Tree.{Tree};
ghost use Rattle.ghc_term.specs.Text.{term_text};
ghost use Rattle.ghc_term.specs.GoalText.{goal_text, IsGoalTextOf};
ghost use Rattle.ghc_term.specs.Resolved.{IsTextOf, IsResolution};
ghost use Rattle.ghc_term.specs.inner.Lookup.{held_in};
ghost use Rattle.ghc_term.specs.inner.Pieces.{pieces_text};

mod expressions;
mod goals;
mod lookup;
mod pieces;

use crate::appending::{end_of, or_cut_back};
use crate::fault::Fault;
use crate::goal::Goal;
use crate::limit::Limit;
use crate::printing::goals::push_goal;
use crate::printing::lookup::Lookup;
use crate::printing::pieces::{Piece, push_piece};
use crate::store::Store;
use crate::term::Term;
use std::alloc::{AllocError, Global};

/// The most bytes of a term or a goal that is printed with its variables replaced.
pub const PRINT_LIMIT: usize = 1_048_576;

// Writes pieces, of which the last one comes first. More than `limit` bytes in all are refused.
fn write_pieces<'a>(
    lookup: &Lookup<'a>,
    limit: usize,
    mut pieces: Vec<Piece<'a>>,
    out: &mut String,
) -> Result<(), Fault>
    ensures text { IfOk result (λ _. (r : Tree → Tree) → IsResolution (value_at (held_in lookup.now)) r → string_bytes out.new ≡ string_bytes out.old ++ pieces_text r pieces.entry.items) }
    ensures begun { StartsWith (string_bytes out.new) (string_bytes out.old) }
    ensures short { IfOk result (λ _. length (string_bytes out.new) ≤ limit) }
    ensures refused { IfErr result (λ fault. (fault ≡ Fault.Memory) ⊎ (fault ≡ Fault.Limit Limit.Print)) }
    ensures too_long { result ≡ Err (Fault.Limit Limit.Print) → (r : Tree → Tree) → IsResolution (value_at (held_in lookup.now)) r → limit < length (string_bytes out.old) + length (pieces_text r pieces.entry.items) }
{
    lookup.acyclic();
    loop {
        if out.len() > limit {
            return Err(Fault::Limit(Limit::Print));
        }
        match pieces.pop() {
            Some(piece) => push_piece(piece, lookup, &mut pieces, out)?,
            None => return Ok(()),
        }
    }
}

// Writes pieces, of which the last one comes first, as they are written. Where memory is refused a part may stand there.
fn write_written(pieces: Vec<Piece<'_>>, out: &mut String) -> Result<(), AllocError>
    ensures text { IfOk result (λ _. string_bytes out.new ≡ string_bytes out.old ++ pieces_text (λ t. t) pieces.entry.items) }
    ensures begun { StartsWith (string_bytes out.new) (string_bytes out.old) }
{
    match write_pieces(&Lookup::Nowhere, usize::MAX, pieces, out) {
        Ok(()) => Ok(()),
        Err(_fault) => Err(AllocError),
    }
}

/// The text of a term with every variable replaced by what it leads to. One over `PRINT_LIMIT` bytes is
/// refused by the limit `print`, as soon as so much is written. The cost is that of the text, times that of the chains.
pub fn print(alloc: Global, term: &Term, store: &Store) -> Result<String, Fault>
    ensures text { IfOk result (λ text. IsTextOf (value_at store.now.held) term.now (string_bytes text)) }
    ensures short { IfOk result (λ text. length (string_bytes text) ≤ PRINT_LIMIT) }
    ensures refused { IfErr result (λ fault. (fault ≡ Fault.Memory) ⊎ (fault ≡ Fault.Limit Limit.Print)) }
    ensures too_long { result ≡ Err (Fault.Limit Limit.Print) → (text : List ℕ) × (IsTextOf (value_at store.now.held) term.now text × (PRINT_LIMIT < length text)) }
{
    store.acyclic();
    let mut pieces = Vec::new(alloc);
    pieces.push(Piece::Term(term))?;
    let mut out = String::new(alloc);
    match write_pieces(&Lookup::In(store), PRINT_LIMIT, pieces, &mut out) {
        Ok(()) => Ok(out),
        Err(fault) => Err(fault),
    }
}

/// The text of a goal with every variable replaced by what it leads to, under the same limit as `print`.
pub fn print_goal(alloc: Global, goal: &Goal, store: &Store) -> Result<String, Fault>
    ensures text { IfOk result (λ text. IsGoalTextOf (value_at store.now.held) goal.now (string_bytes text)) }
    ensures short { IfOk result (λ text. length (string_bytes text) ≤ PRINT_LIMIT) }
    ensures refused { IfErr result (λ fault. (fault ≡ Fault.Memory) ⊎ (fault ≡ Fault.Limit Limit.Print)) }
    ensures too_long { result ≡ Err (Fault.Limit Limit.Print) → (text : List ℕ) × (IsGoalTextOf (value_at store.now.held) goal.now text × (PRINT_LIMIT < length text)) }
{
    store.acyclic();
    let mut pieces = Vec::new(alloc);
    let mut out = String::new(alloc);
    push_goal(goal, &Lookup::In(store), &mut pieces, &mut out)?;
    match write_pieces(&Lookup::In(store), PRINT_LIMIT, pieces, &mut out) {
        Ok(()) => Ok(out),
        Err(fault) => Err(fault),
    }
}

// Writes a term as it is written. Where memory is refused a part of it may stand there.
fn write_term(term: &Term, out: &mut String) -> Result<(), AllocError>
    ensures text { OnOk result (string_bytes out.new ≡ string_bytes out.old ++ term_text term.now) }
    ensures begun { StartsWith (string_bytes out.new) (string_bytes out.old) }
{
    let mut pieces = Vec::new(*out.allocator());
    push_piece(Piece::Term(term), &Lookup::Nowhere, &mut pieces, out)?;
    write_written(pieces, out)
}

// Writes a goal as it is written. Where memory is refused a part of it may stand there.
fn write_goal(goal: &Goal, out: &mut String) -> Result<(), AllocError>
    ensures text { OnOk result (string_bytes out.new ≡ string_bytes out.old ++ goal_text goal.now) }
    ensures begun { StartsWith (string_bytes out.new) (string_bytes out.old) }
{
    let mut pieces = Vec::new(*out.allocator());
    push_goal(goal, &Lookup::Nowhere, &mut pieces, out)?;
    write_written(pieces, out)
}

/// Writes a term as it is written at the end of `out`, which stays as it was where memory is refused. The cost is that of
/// the text.
pub fn push_written(term: &Term, out: &mut String) -> Result<(), AllocError>
    ensures { string_bytes out.new ≡ (if is_ok result then string_bytes out.old ++ term_text term.now else string_bytes out.old) }
{
    let length = end_of(out);
    let written = write_term(term, out);
    or_cut_back(out, length, written)
}

/// Writes a goal as it is written at the end of `out`, which stays as it was where memory is refused. The cost is that of
/// the text.
pub fn push_goal_written(goal: &Goal, out: &mut String) -> Result<(), AllocError>
    ensures { string_bytes out.new ≡ (if is_ok result then string_bytes out.old ++ goal_text goal.now else string_bytes out.old) }
{
    let length = end_of(out);
    let written = write_goal(goal, out);
    or_cut_back(out, length, written)
}

/// The text of a term as it is written, without a limit.
pub fn print_written(alloc: Global, term: &Term) -> Result<String, AllocError>
    ensures { IfOk result (λ text. string_bytes text ≡ term_text term.now) }
{
    let mut out = String::new(alloc);
    push_written(term, &mut out)?;
    Ok(out)
}

/// The text of a goal as it is written, without a limit.
pub fn print_goal_written(alloc: Global, goal: &Goal) -> Result<String, AllocError>
    ensures { IfOk result (λ text. string_bytes text ≡ goal_text goal.now) }
{
    let mut out = String::new(alloc);
    push_goal_written(goal, &mut out)?;
    Ok(out)
}
