// A goal lent in parts.
use crate::expr::Expr;
use crate::name::Name;
use crate::term::Term;
use crate::var_name::VarName;

/// A goal as one level: a call with its arguments, a unification, an assignment, or a stream with its tail.
#[derive(Clone, Copy)]
pub enum GoalView<'a> {
    Call(&'a Name, &'a [Term]),
    Unify(&'a Term, &'a Term),
    Assign(&'a Term, &'a Expr),
    Stream(u32, VarName),
}
