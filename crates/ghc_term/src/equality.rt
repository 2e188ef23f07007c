// Whether two terms, two expressions or two goals are the same. What is left to be compared stands in a list, so that
// no depth takes stack.
ghost use Rattle.std.specs.Prelude.{◌≡◌, ◌<◌, ◌≤◌, ◌↔◌, ◌∷◌, ◌++◌, [], true, suc, length, IfOk, MatchOption, OnOk, IsTrue};
ghost use Rattle.ghc_term.specs.Tree.{variable, integer, atom, trees};
ghost use Rattle.ghc_term.specs.InputTerm.{nodes, nodes_of_all};
ghost use Rattle.ghc_term.specs.inner.Equality.{AreAlike, IsAlike, Compared, Adds, left_nodes, all_left_nodes, expression_nodes, goal_nodes};

use crate::expr::Expr;
use crate::expr_view::ExprView;
use crate::goal::Goal;
use crate::goal_view::GoalView;
use crate::name::Name;
use crate::term::Term;
use crate::var_name::VarName;
use crate::view::TermView;
use std::alloc::{AllocError, Global};

// Two terms or two expressions that are still to be compared.
#[derive(Clone, Copy)]
pub(crate) enum Pair<'a> {
    Terms(&'a Term, &'a Term),
    Exprs(&'a Expr, &'a Expr),
}

// Whether the term is this variable.
fn is_variable(term: &Term, x: VarName) -> bool
    ensures { IsTrue result ↔ (term.now ≡ variable x) }
{
    match term.view() {
        TermView::Var(y) => x == y,
        _ => false,
    }
}

// Whether the term is this integer.
fn is_integer(term: &Term, k: i64) -> bool
    ensures { IsTrue result ↔ (term.now ≡ integer k) }
{
    match term.view() {
        TermView::Int(j) => k == j,
        _ => false,
    }
}

// Whether the term is this atom.
fn is_atom(term: &Term, name: &Name) -> bool
    ensures { IsTrue result ↔ (term.now ≡ atom name.now) }
{
    match term.view() {
        TermView::Atom(other) => name == other,
        _ => false,
    }
}

// Leaves the arguments to be compared, the first ones first.
fn push_arguments<'a>(
    lefts: &'a [Term],
    rights: &'a [Term],
    waiting: &mut Vec<Pair<'a>>,
) -> Result<(), AllocError>
    requires { length lefts.now ≡ length rights.now }
    ensures { OnOk result (Adds (lefts.now ≡ rights.now) (suc (nodes_of_all (trees lefts.now))) waiting.old.items waiting.new.items) }
{
    for index in (0..lefts.len()).rev() {
        waiting.push(Pair::Terms(&lefts[index], &rights[index]))?;
    }
    Ok(())
}

// Compares two names with their arguments, which are left to be compared where the names and their number agree.
pub(crate) fn compare_calls<'a>(
    left: &Name,
    lefts: &'a [Term],
    right: &Name,
    rights: &'a [Term],
    waiting: &mut Vec<Pair<'a>>,
) -> Result<bool, AllocError>
    ensures { IfOk result (λ same. Compared ((left.now ≡ right.now) × (lefts.now ≡ rights.now)) (suc (nodes_of_all (trees lefts.now))) waiting.old.items waiting.new.items same) }
{
    if left != right || lefts.len() != rights.len() {
        return Ok(false);
    }
    push_arguments(lefts, rights, waiting)?;
    Ok(true)
}

// Compares two terms at the top.
pub(crate) fn compare_terms<'a>(
    left: &'a Term,
    right: &'a Term,
    waiting: &mut Vec<Pair<'a>>,
) -> Result<bool, AllocError>
    ensures { IfOk result (λ same. Compared (left.now ≡ right.now) (nodes left.now) waiting.old.items waiting.new.items same) }
{
    match left.view() {
        TermView::Var(x) => Ok(is_variable(right, x)),
        TermView::Int(k) => Ok(is_integer(right, k)),
        TermView::Atom(name) => Ok(is_atom(right, name)),
        TermView::Struct(name, lefts) => match right.view() {
            TermView::Struct(other, rights) => compare_calls(name, lefts, other, rights, waiting),
            _ => Ok(false),
        },
    }
}

// Leaves two pairs to be compared, and tells that nothing differs so far.
fn push_two<'a>(
    first: Pair<'a>,
    second: Pair<'a>,
    waiting: &mut Vec<Pair<'a>>,
) -> Result<bool, AllocError>
    ensures { IfOk result (λ same. (same ≡ true) × (waiting.new.items ≡ (waiting.old.items ++ first.entry ∷ []) ++ second.entry ∷ [])) }
{
    waiting.push(first)?;
    waiting.push(second)?;
    Ok(true)
}

// Compares two expressions at the top. Their right operands come first, so that a long sum leaves one pair at a time.
pub(crate) fn compare_expressions<'a>(
    left: &'a Expr,
    right: &'a Expr,
    waiting: &mut Vec<Pair<'a>>,
) -> Result<bool, AllocError>
    ensures { IfOk result (λ same. Compared (left.now ≡ right.now) (expression_nodes left.now) waiting.old.items waiting.new.items same) }
{
    match (left.view(), right.view()) {
        (ExprView::Leaf(term), ExprView::Leaf(other)) => compare_terms(term, other, waiting),
        (ExprView::Operation(operator, first, second), ExprView::Operation(other, third, fourth)) =>
            {
                if operator != other {
                    return Ok(false);
                }
                push_two(
                    Pair::Exprs(first, third),
                    Pair::Exprs(second, fourth),
                    waiting,
                )
            }
        _ => Ok(false),
    }
}

// Compares the two sides of a pair at the top.
fn compare<'a>(pair: Pair<'a>, waiting: &mut Vec<Pair<'a>>) -> Result<bool, AllocError>
    ensures { IfOk result (λ same. Compared (IsAlike pair.entry) (left_nodes pair.entry) waiting.old.items waiting.new.items same) }
{
    match pair {
        Pair::Terms(left, right) => compare_terms(left, right, waiting),
        Pair::Exprs(left, right) => compare_expressions(left, right, waiting),
    }
}

// Whether each pair has two sides that are the same.
pub(crate) fn are_alike<'a>(mut waiting: Vec<Pair<'a>>) -> Result<bool, AllocError>
    ensures { IfOk result (λ same. IsTrue same ↔ AreAlike waiting.entry.items) }
{
    while let Some(pair) = waiting.pop() {
        if !compare(pair, &mut waiting)? {
            return Ok(false);
        }
    }
    Ok(true)
}

// Whether each pair has two sides that are the same, or nothing where so many comparisons do not tell it.
fn are_alike_within<'a>(mut waiting: Vec<Pair<'a>>, most: u32) -> Result<Option<bool>, AllocError>
    ensures { IfOk result (λ found. MatchOption found (most ≤ all_left_nodes waiting.entry.items) (λ same. IsTrue same ↔ AreAlike waiting.entry.items)) }
{
    for _ in 0..most {
        let Some(pair) = waiting.pop() else {
            return Ok(Some(true));
        };
        if !compare(pair, &mut waiting)? {
            return Ok(Some(false));
        }
    }
    if waiting.is_empty() {
        return Ok(Some(true));
    }
    Ok(None)
}

// Compares two goals at the top.
fn compare_goals<'a>(
    left: &'a Goal,
    right: &'a Goal,
    waiting: &mut Vec<Pair<'a>>,
) -> Result<bool, AllocError>
    ensures { IfOk result (λ same. Compared (left.now ≡ right.now) (goal_nodes left.now) waiting.old.items waiting.new.items same) }
{
    match (left.view(), right.view()) {
        (GoalView::Call(name, lefts), GoalView::Call(other, rights)) => {
            compare_calls(name, lefts, other, rights, waiting)
        }
        (GoalView::Unify(first, second), GoalView::Unify(third, fourth)) => {
            push_two(
                Pair::Terms(first, third),
                Pair::Terms(second, fourth),
                waiting,
            )
        }
        (GoalView::Assign(first, value), GoalView::Assign(other, wanted)) => {
            push_two(
                Pair::Terms(first, other),
                Pair::Exprs(value, wanted),
                waiting,
            )
        }
        (GoalView::Stream(number, tail), GoalView::Stream(other, end)) => {
            Ok(number == other && tail == end)
        }
        _ => Ok(false),
    }
}

impl Term {
    /// Whether the other is the same term. It goes once through both, up to the first difference, and takes memory for
    /// what is left to be compared, which is no more than a cell at a time along a list.
    pub fn same(&self, alloc: Global, other: &Term) -> Result<bool, AllocError>
        ensures { IfOk result (λ same. IsTrue same ↔ (self.now ≡ other.now)) }
    {
        let mut waiting = Vec::new(alloc);
        if !compare_terms(self, other, &mut waiting)? {
            return Ok(false);
        }
        are_alike(waiting)
    }
}

impl Expr {
    /// Whether the other is the same expression, at the cost of `Term::same`, also along the left operands of a long sum.
    pub fn same(&self, alloc: Global, other: &Expr) -> Result<bool, AllocError>
        ensures { IfOk result (λ same. IsTrue same ↔ (self.now ≡ other.now)) }
    {
        let mut waiting = Vec::new(alloc);
        if !compare_expressions(self, other, &mut waiting)? {
            return Ok(false);
        }
        are_alike(waiting)
    }
}

impl Goal {
    /// Whether the other is the same goal, at the cost of `Term::same`.
    pub fn same(&self, alloc: Global, other: &Goal) -> Result<bool, AllocError>
        ensures { IfOk result (λ same. IsTrue same ↔ (self.now ≡ other.now)) }
    {
        let mut waiting = Vec::new(alloc);
        if !compare_goals(self, other, &mut waiting)? {
            return Ok(false);
        }
        are_alike(waiting)
    }

    /// Whether the other is the same goal, as `same` says it, or nothing where that takes more than so many comparisons: the goal has
    /// more nodes then. It costs so many steps at most.
    pub fn same_within(
        &self,
        alloc: Global,
        other: &Goal,
        most: u32,
    ) -> Result<Option<bool>, AllocError>
        ensures { IfOk result (λ found. MatchOption found (most < goal_nodes self.now) (λ same. IsTrue same ↔ (self.now ≡ other.now))) }
    {
        let mut waiting = Vec::new(alloc);
        if !compare_goals(self, other, &mut waiting)? {
            return Ok(Some(false));
        }
        are_alike_within(waiting, most)
    }
}
