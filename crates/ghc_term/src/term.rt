// Terms: trees whose inner parts are shared.
ghost use Rattle.std.specs.Prelude.{◌≡◌, ◌≢◌, ◌↔◌, [], ◌∷◌, false, IfOk, IsTrue};
ghost use Rattle.ghc_term.specs.Tree.{variable, integer, atom, node, trees, IsClosed, AreClosed};
ghost use Rattle.ghc_term.specs.inner.View.{items_of, KnowsClosed};

use crate::arguments::{Arguments, give_up, parts_of_two};
use crate::kept::{Listed, add_kept, is_kept, keep, nothing_kept};
use crate::name::Name;
use crate::table::variable_list::VariableList;
use crate::var_name::VarName;
use crate::view::TermView;
use counted_slot::Counted;
use std::alloc::{AllocError, Global};
use std::marker::Model;
use std::sync::Arc;

/// A term as written. Its parts are shared, so a term of any size is lent once more by `share` in one step.
#[cycle(term)]
pub struct Term {
    shape: Shape,
}

// Before the name of a variable stands a number that nothing reads. It takes no memory, and lets what each shape holds stand at the
// same place, so that a term is moved as two words.
#[cycle(term)]
enum Shape {
    Var(u32, VarName),
    Int(i64),
    Atom(Name),
    Struct(Arc<Structure>),
    Branch(Arc<Branch>),
}

// A name over one argument or more.
#[cycle(term)]
struct Structure {
    name: Name,
    arguments: Arguments,
}

// A structure of which two arguments or more are open structures. Its variables are kept once they were asked for, so that a part that
// stands in many places is looked into once.
#[cycle(term)]
struct Branch {
    structure: Structure,
    kept: Counted<Option<Listed>>,
}

impl Model for Term {
    ghost use Rattle.ghc_term.specs.Tree.{Tree};
    ghost use Rattle.ghc_term.specs.inner.Code.{tree_code};

    ghost Value = { Tree };

    ghost coded = { tree_code };

    ghost use Rattle.ghc_term.specs.inner.View.{tree_of, height, IsWellMade};

    ghost view = { λ a. tree_of a.shape };

    ghost invariant = { λ a. IsWellMade a.shape };

    ghost size = { height };

    ghost use Rattle.ghc_term.specs.inner.Falls.{deep_height};

    ghost size_decreases = { λ a h. deep_height a.shape };
}

impl Term {
    ghost use Rattle.ghc_term.specs.inner.Shown.{shown, HasArgument};

    /// A variable.
    pub fn variable(x: VarName) -> Term
        ensures { result ≡ variable x }
    {
        Term {
            shape: Shape::Var(0, x),
        }
    }

    /// An integer.
    pub fn integer(k: i64) -> Term
        ensures { result ≡ integer k }
    {
        Term {
            shape: Shape::Int(k),
        }
    }

    /// An atom.
    pub fn atom(name: Name) -> Term
        ensures { result ≡ atom name }
    {
        Term {
            shape: Shape::Atom(name),
        }
    }

    /// A structure, which has at least one argument.
    pub fn structure(alloc: Global, name: Name, arguments: Vec<Term>) -> Result<Term, AllocError>
        requires { arguments.items ≢ [] }
        ensures { IfOk result (λ t. t ≡ node name (trees arguments.items)) }
    {
        Term::over(alloc, name, Arguments::of(arguments))
    }

    /// A structure of two arguments, as a list cell is, in one piece of memory.
    #[inline(always)]
    pub fn pair(alloc: Global, name: Name, first: Term, second: Term) -> Result<Term, AllocError>
        ensures { IfOk result (λ t. t ≡ node name (trees (first ∷ second ∷ []))) }
    {
        Term::over(alloc, name, Arguments::two(first, second))
    }

    // A name over these arguments, of which there is one at least.
    #[inline(always)]
    fn over(alloc: Global, name: Name, arguments: Arguments) -> Result<Term, AllocError>
        requires { (items_of arguments ≢ []) × KnowsClosed arguments }
        ensures { IfOk result (λ t. t ≡ node name (trees (items_of arguments))) }
    {
        if arguments.branches() {
            return Term::over_branching(alloc, name, arguments);
        }
        match Arc::new(alloc, Structure { name, arguments }) {
            Ok(structure) => Ok(Term {
                shape: Shape::Struct(structure),
            }),
            Err(failed) => {
                let Structure {
                    name: _name,
                    arguments,
                } = failed.value;
                give_up(arguments);
                Err(AllocError)
            }
        }
    }

    // The same of a structure that is to keep its variables.
    fn over_branching(alloc: Global, name: Name, arguments: Arguments) -> Result<Term, AllocError>
        requires { (items_of arguments ≢ []) × KnowsClosed arguments }
        ensures { IfOk result (λ t. t ≡ node name (trees (items_of arguments))) }
    {
        let kept = nothing_kept(&arguments);
        let structure = Structure { name, arguments };
        match Arc::new(alloc, Branch { structure, kept }) {
            Ok(branch) => Ok(Term {
                shape: Shape::Branch(branch),
            }),
            Err(failed) => {
                let Branch {
                    structure,
                    kept: _kept,
                } = failed.value;
                let Structure {
                    name: _name,
                    arguments,
                } = structure;
                give_up(arguments);
                Err(AllocError)
            }
        }
    }

    /// The same term once more, with its parts shared: one step. Fails where a count of handles is full.
    #[inline(always)]
    pub fn share(&self) -> Result<Term, AllocError>
        ensures { IfOk result (λ t. t ≡ self.now) }
    {
        match &self.shape {
            Shape::Var(_, x) => Ok(Term::variable(*x)),
            Shape::Int(k) => Ok(Term::integer(*k)),
            Shape::Atom(name) => Ok(Term::atom(name.share()?)),
            Shape::Struct(structure) => Ok(Term {
                shape: Shape::Struct(Arc::try_clone(structure)?),
            }),
            Shape::Branch(branch) => Ok(Term {
                shape: Shape::Branch(Arc::try_clone(branch)?),
            }),
        }
    }

    /// Whether no variable stands in the term as written: one step.
    #[inline(always)]
    pub fn is_closed(&self) -> bool
        ensures { IsTrue result ↔ IsClosed self.now }
    {
        match &self.shape {
            Shape::Var(_, _) => false,
            Shape::Int(_) => true,
            Shape::Atom(_) => true,
            Shape::Struct(structure) => structure.arguments.is_closed(),
            Shape::Branch(branch) => branch.structure.arguments.is_closed(),
        }
    }

    /// The term lent in parts: one step.
    #[inline(always)]
    pub fn view(&self) -> TermView<'_>
        ensures shown { shown result ≡ self.now }
        ensures arguments { HasArgument result }
    {
        match &self.shape {
            Shape::Var(_, x) => TermView::Var(*x),
            Shape::Int(k) => TermView::Int(*k),
            Shape::Atom(name) => TermView::Atom(name),
            Shape::Struct(structure) => {
                TermView::Struct(&structure.name, structure.arguments.as_slice())
            },
            Shape::Branch(branch) => TermView::Struct(
                &branch.structure.name,
                branch.structure.arguments.as_slice(),
            ),
        }
    }
}

impl Term {
    ghost use Rattle.ghc_term.specs.Lists.{In};
    ghost use Rattle.ghc_term.specs.Tree.{Occurs};
    ghost use Rattle.ghc_term.specs.declared.var_name.VarName.{VarName};
    ghost use Rattle.ghc_term.specs.inner.KeptList.{Gathers};

    // Whether it is a structure in which a variable stands.
    #[inline(always)]
    pub(crate) fn is_open_structure(&self) -> bool {
        match &self.shape {
            Shape::Struct(structure) => !structure.arguments.is_closed(),
            Shape::Branch(_) => true,
            _ => false,
        }
    }

    // Whether it keeps its variables, or would keep them.
    pub(crate) fn may_keep(&self) -> bool {
        match &self.shape {
            Shape::Branch(_) => true,
            _ => false,
        }
    }

    // Whether it keeps its variables.
    pub(crate) fn keeps(&self) -> bool {
        match &self.shape {
            Shape::Branch(branch) => is_kept(&branch.kept),
            _ => false,
        }
    }

    // Adds its variables where it keeps them, and says whether it does.
    pub(crate) fn add_kept(&self, into: &mut VariableList) -> Result<bool, AllocError>
        ensures found { IfOk result (λ found. IsTrue found → Gathers (λ y. Occurs y self.now) into.old into.new) }
        ensures none { IfOk result (λ found. (found ≡ false) → (into.new ≡ into.old)) }
    {
        match &self.shape {
            Shape::Branch(branch) => add_kept(&branch.kept, into),
            _ => Ok(false),
        }
    }

    // Keeps its variables, if it is to keep them and does not yet.
    pub(crate) fn keep(&self, variables: Vec<VarName>)
        requires { (x : VarName) → In x variables.items ↔ Occurs x self.now }
    {
        match &self.shape {
            Shape::Branch(branch) => keep(&branch.kept, variables),
            _ => {}
        }
    }
}

// Whether two of the terms or more are structures in which variables stand: one step a term.
pub(crate) fn do_branch(terms: &[Term]) -> bool {
    let mut has_one = false;
    for term in terms {
        if term.is_open_structure() {
            if has_one {
                return true;
            }
            has_one = true;
        }
    }
    false
}

// Whether no variable stands in the terms: one step a term.
pub(crate) fn are_closed(terms: &[Term]) -> bool
    ensures { IsTrue result ↔ AreClosed (trees terms.now) }
{
    for term in terms {
        if !term.is_closed() {
            return false;
        }
    }
    true
}

impl Drop for Term {
    // goes along the last arguments, so that a long list takes no stack
    fn drop(mut self) {
        loop {
            let Term { shape } = self;
            match shape {
                Shape::Var(_, _) => return,
                Shape::Int(_) => return,
                Shape::Atom(_name) => return,
                Shape::Struct(structure) => {
                    let Some(structure) = Arc::into_inner(structure) else {
                        return;
                    };
                    let Structure {
                        name: _name,
                        arguments,
                    } = structure;
                    let last = match arguments {
                        Arguments::Two(_, terms) => {
                            let (_first, last) = parts_of_two(terms);
                            last
                        }
                        Arguments::Others(_, mut list) => {
                            let Some(last) = list.pop() else {
                                return;
                            };
                            last
                        }
                    };
                    self = last;
                }
                Shape::Branch(branch) => {
                    let Some(branch) = Arc::into_inner(branch) else {
                        return;
                    };
                    let Branch {
                        structure,
                        kept: _kept,
                    } = branch;
                    let Structure {
                        name: _name,
                        arguments,
                    } = structure;
                    let last = match arguments {
                        Arguments::Two(_, terms) => {
                            let (_first, last) = parts_of_two(terms);
                            last
                        }
                        Arguments::Others(_, mut list) => {
                            let Some(last) = list.pop() else {
                                return;
                            };
                            last
                        }
                    };
                    self = last;
                }
            }
        }
    }
}
