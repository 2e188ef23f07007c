// Counting the variables of a head, which are numbered in the order in which they stand there until one comes again.
ghost use Rattle.std.specs.Prelude.{◌≡◌, ◌≢◌, ◌↔◌, [], ◌∷◌, IsTrue};
ghost use Rattle.ghc_flat.specs.inner.Counting.{CountsTo, IsAmong, AreAmong};
ghost use Rattle.ghc_flat.specs.Variables.{variables, variables_of_list, leaf_variables};
ghost use Rattle.ghc_term.specs.Expression.{leaf};

use ghc_term::{Expr, ExprView, Term, TermView, VarName};

// The number of the variable, where it is the next one after `_0_count`.
fn count_variable(x: VarName, count: u32) -> Result<u32, VarName>
    ensures { CountsTo (x ∷ []) count result }
{
    if x.step == 0 && x.place > count && x.place - count == 1 {
        Ok(x.place)
    } else {
        Err(x)
    }
}

// The number of the last variable of the term, where they go on from `_0_count`, or the first that does not. It goes
// along last arguments in a loop.
#[cycle(count)]
fn count_term(term: &Term, count: u32) -> Result<u32, VarName>
    ensures { CountsTo (variables term.now) count result }
{
    let mut part = term;
    let mut last = count;
    loop {
        match part.view() {
            TermView::Var(x) => return count_variable(x, last),
            TermView::Int(_) => return Ok(last),
            TermView::Atom(_) => return Ok(last),
            TermView::Struct(_, arguments) => {
                let (end, front) = arguments.split_last().unwrap();
                last = count_terms(front, last)?;
                part = end;
            }
        }
    }
}

// The number of the last variable of the terms, where they go on from `_0_count`, or the first that does not: one step
// for each symbol.
#[cycle(count)]
pub(crate) fn count_terms(terms: &[Term], count: u32) -> Result<u32, VarName>
    ensures { CountsTo (variables_of_list terms.now) count result }
{
    let mut last = count;
    for term in terms {
        last = count_term(term, last)?;
    }
    Ok(last)
}

// Whether the variable is one of `_0_1` to `_0_count`.
pub(crate) fn is_among(x: VarName, count: u32) -> bool
    ensures { IsTrue result ↔ IsAmong count x }
{
    x.step == 0 && 0 < x.place && x.place <= count
}

// Whether the term, if it is a variable, is one of `_0_1` to `_0_count`.
fn is_leaf_among(term: &Term, count: u32) -> bool
    ensures { IsTrue result ↔ AreAmong count (leaf_variables (leaf term.now)) }
{
    match term.view() {
        TermView::Var(x) => is_among(x, count),
        TermView::Int(_) => true,
        TermView::Atom(_) => true,
        TermView::Struct(_, _) => true,
    }
}

// Whether each variable with which the expression computes is one of `_0_1` to `_0_count`. It goes along left sides in
// a loop.
pub(crate) fn are_among(expression: &Expr, count: u32) -> bool
    ensures { IsTrue result ↔ AreAmong count (leaf_variables expression.now) }
{
    let mut part = expression;
    loop {
        match part.view() {
            ExprView::Leaf(term) => return is_leaf_among(term, count),
            ExprView::Operation(_, left, right) => {
                if !are_among(right, count) {
                    return false;
                }
                part = left;
            }
        }
    }
}
