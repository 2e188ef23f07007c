// What a program, a query or an input term says, as it is written.

use crate::token::{Product, Sum};
use ghc_term::{Comparison, Name};

/// A term.
pub enum SourceTerm {
    /// A variable, `_` among them.
    Variable(Name),
    /// An integer.
    Integer(i64),
    /// A name over its arguments. An atom has none.
    Structure(Name, Vec<SourceTerm>),
    /// The empty list.
    Empty,
    /// The elements of a list, and its tail. It stands for the cells of the elements in front of the tail.
    List(Vec<SourceTerm>, Box<SourceTerm>),
}

/// An expression. Operators of one level group to the left.
pub enum SourceExpression {
    /// An integer.
    Integer(i64),
    /// A variable, `_` among them.
    Variable(Name),
    /// The first operand, and each further one after its operator.
    Products(Box<SourceExpression>, Vec<(Product, SourceExpression)>),
    /// The first operand, and each further one after its operator.
    Sums(Box<SourceExpression>, Vec<(Sum, SourceExpression)>),
}

/// A call: a head, or a goal of a guard, a body or a query.
pub struct SourceCall {
    /// How many tokens the text has from the call's name on.
    pub left: usize,
    /// The predicate's name.
    pub name: Name,
    /// The arguments.
    pub arguments: Vec<SourceTerm>,
}

/// A goal of a guard, a body or a query.
pub enum SourceGoal {
    /// A call.
    Call(SourceCall),
    /// An equation between two terms.
    Unify(SourceTerm, SourceTerm),
    /// An assignment of an expression to a variable.
    Assign(Name, SourceExpression),
}

/// A test of a guard. Which goals may be one is for the checker to say.
#[derive(Drop)]
pub enum SourceTest {
    /// A goal.
    Goal(SourceGoal),
    /// A comparison of two expressions.
    Compare(SourceExpression, Comparison, SourceExpression),
}

/// A clause. What is not written is empty.
pub struct SourceClause {
    /// The head.
    pub head: SourceCall,
    /// The tests in front of the bar.
    pub guard: Vec<SourceTest>,
    /// The goals.
    pub body: Vec<SourceGoal>,
}

impl Drop for SourceTerm {
    fn drop(self) {
        match self {
            SourceTerm::Variable(_name) => {}
            SourceTerm::Integer(_) => {}
            SourceTerm::Structure(_name, _arguments) => {}
            SourceTerm::Empty => {}
            SourceTerm::List(_elements, _tail) => {}
        }
    }
}

impl Drop for SourceExpression {
    fn drop(self) {
        match self {
            SourceExpression::Integer(_) => {}
            SourceExpression::Variable(_name) => {}
            SourceExpression::Products(_first, _others) => {}
            SourceExpression::Sums(_first, _others) => {}
        }
    }
}

impl Drop for SourceCall {
    fn drop(self) {
        let SourceCall {
            left: _left,
            name: _name,
            arguments: _arguments,
        } = self;
    }
}

impl Drop for SourceGoal {
    fn drop(self) {
        match self {
            SourceGoal::Call(_call) => {}
            SourceGoal::Unify(_left, _right) => {}
            SourceGoal::Assign(_variable, _value) => {}
        }
    }
}

impl Drop for SourceClause {
    fn drop(self) {
        let SourceClause {
            head: _head,
            guard: _guard,
            body: _body,
        } = self;
    }
}
