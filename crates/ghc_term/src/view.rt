// A term lent in parts.
use crate::name::Name;
use crate::term::Term;
use crate::var_name::VarName;

/// A term as one level: a variable, an integer, an atom, or a structure with its arguments.
#[derive(Clone, Copy)]
pub enum TermView<'a> {
    Var(VarName),
    Int(i64),
    Atom(&'a Name),
    Struct(&'a Name, &'a [Term]),
}
