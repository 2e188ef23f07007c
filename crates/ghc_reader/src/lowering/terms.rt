// From the parse trees of terms to terms.
ghost use Rattle.std.specs.Prelude.{IfOk};
ghost use Rattle.ghc_term.specs.Variables.{variables, variables_of_list};
ghost use Rattle.ghc_reader.specs.inner.Views.{view, views};
ghost use Rattle.ghc_reader.specs.Lowered.{Says, SaysAll};
ghost use Rattle.ghc_reader.specs.inner.Scope.{MeetsAll};

use crate::lowering::lists::{Lists, structure};
use crate::lowering::scope::Scope;
use crate::source::SourceTerm;
use ghc_term::Term;
use std::alloc::AllocError;

/// The term that a parse tree says. Its variables are looked up in the scope, from left to right.
#[cycle(term)]
pub(crate) fn lower_term(
    lists: &Lists,
    term: &SourceTerm,
    scope: &mut Scope,
) -> Result<Term, AllocError>
    ensures says { IfOk result (λ u. Says scope.new (view term.now) u) }
    ensures met { IfOk result (λ u. MeetsAll scope.old (variables u) scope.new) }
{
    match term {
        SourceTerm::Variable(name) => Ok(Term::variable(scope.variable(name)?)),
        SourceTerm::Integer(integer) => Ok(Term::integer(*integer)),
        SourceTerm::Structure(name, arguments) => {
            let arguments = lower_terms(lists, arguments, scope)?;
            structure(lists.alloc(), name.share()?, arguments)
        }
        SourceTerm::Empty => lists.empty(),
        SourceTerm::List(elements, tail) => {
            let elements = lower_terms(lists, elements, scope)?;
            let end = lower_term(lists, tail, scope)?;
            lists.cells(elements, end)
        }
    }
}

/// The terms that parse trees say, in order.
#[cycle(term)]
pub(crate) fn lower_terms(
    lists: &Lists,
    terms: &[SourceTerm],
    scope: &mut Scope,
) -> Result<Vec<Term>, AllocError>
    ensures says { IfOk result (λ us. SaysAll scope.new (views terms.now) us.items) }
    ensures met { IfOk result (λ us. MeetsAll scope.old (variables_of_list us.items) scope.new) }
{
    let mut lowered = Vec::new(lists.alloc());
    for term in terms {
        lowered.push(lower_term(lists, term, scope)?)?;
    }
    Ok(lowered)
}
