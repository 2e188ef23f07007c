// Goals: calls, unifications, assignments and streams.
ghost use Rattle.std.specs.Prelude.{◌≡◌, [], IfOk};
ghost use Rattle.ghc_term.specs.Goal.{call, unify, assign, stream};

use crate::expr::Expr;
use crate::goal_view::GoalView;
use crate::name::Name;
use crate::term::Term;
use crate::var_name::VarName;
use std::alloc::{AllocError, Global};
use std::marker::Model;
use std::sync::Arc;

/// A goal as written. Its parts are shared, so a goal of any size is lent once more by `share` in five steps at most.
pub struct Goal {
    shape: Shape,
}

// A call of up to four arguments has them beside its name; the arguments of another one have memory of their own.
#[derive(Drop)]
enum Shape {
    Nothing(Name),
    One(Name, [Term; 1]),
    Two(Name, [Term; 2]),
    Three(Name, [Term; 3]),
    Four(Name, [Term; 4]),
    Many(Name, Arc<Vec<Term>>),
    Unify(Term, Term),
    Assign(Term, Expr),
    Stream(u32, VarName),
}

impl Model for Goal {
    ghost use Rattle.ghc_term.specs.Goal.{Goal};
    ghost use Rattle.ghc_term.specs.inner.GoalCode.{goal_code};

    ghost Value = { Goal };

    ghost coded = { goal_code };

    ghost use Rattle.ghc_term.specs.inner.GoalShape.{goal_of};

    ghost view = { λ g. goal_of g.shape };
}

// The handle of arguments for which there is no place beside a name.
fn apart(alloc: Global, arguments: Vec<Term>) -> Result<Arc<Vec<Term>>, AllocError>
    ensures { IfOk result (λ kept. kept.value.items ≡ arguments.items) }
{
    match Arc::new(alloc, arguments) {
        Ok(kept) => Ok(kept),
        Err(_) => Err(AllocError),
    }
}

// A call of this name and this argument, with both shared.
#[inline(always)]
fn share_one(name: &Name, arguments: &[Term; 1]) -> Result<Goal, AllocError>
    ensures { IfOk result (λ g. g ≡ call name.now arguments.now) }
{
    let [first] = arguments;
    let first = first.share()?;
    Ok(Goal::call_of_one(name.share()?, [first]))
}

// The same of two arguments.
#[inline(always)]
fn share_two(name: &Name, arguments: &[Term; 2]) -> Result<Goal, AllocError>
    ensures { IfOk result (λ g. g ≡ call name.now arguments.now) }
{
    let [first, second] = arguments;
    let arguments = [first.share()?, second.share()?];
    Ok(Goal::call_of_two(name.share()?, arguments))
}

// Three terms shared.
#[inline(always)]
fn share_three_terms(terms: &[Term; 3]) -> Result<[Term; 3], AllocError>
    ensures { IfOk result (λ shared. shared ≡ terms.now) }
{
    let [first, second, third] = terms;
    let first = first.share()?;
    let second = second.share()?;
    Ok([first, second, third.share()?])
}

// The same of three arguments.
#[inline(always)]
fn share_three(name: &Name, arguments: &[Term; 3]) -> Result<Goal, AllocError>
    ensures { IfOk result (λ g. g ≡ call name.now arguments.now) }
{
    let arguments = share_three_terms(arguments)?;
    Ok(Goal::call_of_three(name.share()?, arguments))
}

// Four terms shared.
#[inline(always)]
fn share_four_terms(terms: &[Term; 4]) -> Result<[Term; 4], AllocError>
    ensures { IfOk result (λ shared. shared ≡ terms.now) }
{
    let [first, second, third, fourth] = terms;
    let first = first.share()?;
    let second = second.share()?;
    let third = third.share()?;
    Ok([first, second, third, fourth.share()?])
}

// The same of four arguments.
#[inline(always)]
fn share_four(name: &Name, arguments: &[Term; 4]) -> Result<Goal, AllocError>
    ensures { IfOk result (λ g. g ≡ call name.now arguments.now) }
{
    let arguments = share_four_terms(arguments)?;
    Ok(Goal::call_of_four(name.share()?, arguments))
}

// The same of arguments that have memory of their own.
#[inline(always)]
fn share_many(name: &Name, arguments: &Arc<Vec<Term>>) -> Result<Goal, AllocError>
    ensures { IfOk result (λ g. g ≡ call name.now arguments.now.value.items) }
{
    let arguments = Arc::try_clone(arguments)?;
    Ok(Goal {
        shape: Shape::Many(name.share()?, arguments),
    })
}

// The unification of these two, with both shared.
#[inline(always)]
fn share_unify(left: &Term, right: &Term) -> Result<Goal, AllocError>
    ensures { IfOk result (λ g. g ≡ unify left.now right.now) }
{
    let left = left.share()?;
    Ok(Goal::unify(left, right.share()?))
}

// The assignment of these two, with both shared.
#[inline(always)]
fn share_assign(left: &Term, value: &Expr) -> Result<Goal, AllocError>
    ensures { IfOk result (λ g. g ≡ assign left.now value.now) }
{
    let left = left.share()?;
    Ok(Goal::assign(left, value.share()?))
}

impl Goal {
    ghost use Rattle.ghc_term.specs.inner.GoalShown.{shown};

    /// A call. It takes memory only where there are more arguments than four.
    pub fn call(alloc: Global, name: Name, mut arguments: Vec<Term>) -> Result<Goal, AllocError>
        ensures { IfOk result (λ g. g ≡ call name arguments.items) }
    {
        let shape = match arguments.len() {
            0 => Shape::Nothing(name),
            1 => Shape::One(name, [arguments.pop().unwrap()]),
            2 => {
                let second = arguments.pop().unwrap();
                Shape::Two(name, [arguments.pop().unwrap(), second])
            }
            3 => {
                let third = arguments.pop().unwrap();
                let second = arguments.pop().unwrap();
                Shape::Three(name, [arguments.pop().unwrap(), second, third])
            }
            4 => {
                let fourth = arguments.pop().unwrap();
                let third = arguments.pop().unwrap();
                let second = arguments.pop().unwrap();
                Shape::Four(name, [arguments.pop().unwrap(), second, third, fourth])
            }
            _ => Shape::Many(name, apart(alloc, arguments)?),
        };
        Ok(Goal { shape })
    }

    /// A call without arguments.
    #[inline(always)]
    pub fn call_of_none(name: Name) -> Goal
        ensures { result ≡ call name [] }
    {
        Goal {
            shape: Shape::Nothing(name),
        }
    }

    /// A call of one argument.
    #[inline(always)]
    pub fn call_of_one(name: Name, argument: [Term; 1]) -> Goal
        ensures { result ≡ call name argument }
    {
        Goal {
            shape: Shape::One(name, argument),
        }
    }

    /// A call of two arguments.
    #[inline(always)]
    pub fn call_of_two(name: Name, arguments: [Term; 2]) -> Goal
        ensures { result ≡ call name arguments }
    {
        Goal {
            shape: Shape::Two(name, arguments),
        }
    }

    /// A call of three arguments.
    #[inline(always)]
    pub fn call_of_three(name: Name, arguments: [Term; 3]) -> Goal
        ensures { result ≡ call name arguments }
    {
        Goal {
            shape: Shape::Three(name, arguments),
        }
    }

    /// A call of four arguments.
    #[inline(always)]
    pub fn call_of_four(name: Name, arguments: [Term; 4]) -> Goal
        ensures { result ≡ call name arguments }
    {
        Goal {
            shape: Shape::Four(name, arguments),
        }
    }

    /// A unification, `left = right`.
    pub fn unify(left: Term, right: Term) -> Goal
        ensures { result ≡ unify left right }
    {
        Goal {
            shape: Shape::Unify(left, right),
        }
    }

    /// An assignment, `left := value`.
    pub fn assign(left: Term, value: Expr) -> Goal
        ensures { result ≡ assign left value }
    {
        Goal {
            shape: Shape::Assign(left, value),
        }
    }

    /// The stream of that number, with the variable at which it goes on.
    pub fn stream(number: u32, tail: VarName) -> Goal
        ensures { result ≡ stream number tail }
    {
        Goal {
            shape: Shape::Stream(number, tail),
        }
    }

    /// The same goal once more, with its parts shared: five steps at most. Fails where a count of handles is full.
    pub fn share(&self) -> Result<Goal, AllocError>
        ensures { IfOk result (λ g. g ≡ self.now) }
    {
        match &self.shape {
            Shape::Nothing(name) => Ok(Goal::call_of_none(name.share()?)),
            Shape::One(name, arguments) => share_one(name, arguments),
            Shape::Two(name, arguments) => share_two(name, arguments),
            Shape::Three(name, arguments) => share_three(name, arguments),
            Shape::Four(name, arguments) => share_four(name, arguments),
            Shape::Many(name, arguments) => share_many(name, arguments),
            Shape::Unify(left, right) => share_unify(left, right),
            Shape::Assign(left, value) => share_assign(left, value),
            Shape::Stream(number, tail) => Ok(Goal::stream(*number, *tail)),
        }
    }

    /// The goal lent in parts: one step.
    #[inline(always)]
    pub fn view(&self) -> GoalView<'_>
        ensures { shown result ≡ self.now }
    {
        match &self.shape {
            Shape::Nothing(name) => GoalView::Call(name, &[]),
            Shape::One(name, arguments) => GoalView::Call(name, arguments),
            Shape::Two(name, arguments) => GoalView::Call(name, arguments),
            Shape::Three(name, arguments) => GoalView::Call(name, arguments),
            Shape::Four(name, arguments) => GoalView::Call(name, arguments),
            Shape::Many(name, arguments) => GoalView::Call(name, arguments.as_slice()),
            Shape::Unify(left, right) => GoalView::Unify(left, right),
            Shape::Assign(left, value) => GoalView::Assign(left, value),
            Shape::Stream(number, tail) => GoalView::Stream(*number, *tail),
        }
    }
}

impl Drop for Goal {
    fn drop(self) {
        let Goal { shape: _shape } = self;
    }
}
