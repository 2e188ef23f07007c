// From the parse trees of clauses to a program as it is written.
ghost use Rattle.std.specs.Prelude.{◌≡◌, IfOk, None};
ghost use Rattle.ghc_reader.specs.Limits.{first_exceeded, of_program};
ghost use Rattle.ghc_reader.specs.inner.Views.{clause_view, clause_views};
ghost use Rattle.ghc_reader.specs.Lowered.{Each, SaysClause};

use crate::lowering::goals::lower_body;
use crate::lowering::guards::lower_guards;
use crate::lowering::lists::Lists;
use crate::lowering::scope::Scope;
use crate::lowering::terms::lower_terms;
use crate::source::SourceClause;
use crate::written::{Source, WrittenClause};
use std::alloc::{AllocError, Global};

/// The program that parse trees within the limits say, clause by clause. It fails where memory is refused. Time grows
/// with the size of the trees.
pub(crate) fn lower_program(alloc: Global, clauses: &[SourceClause]) -> Result<Source, AllocError>
    requires { first_exceeded (of_program (clause_views clauses.now)) ≡ None }
    ensures { IfOk result (λ s. Each SaysClause (clause_views clauses.now) s) }
{
    let lists = Lists::new(alloc)?;
    let mut lowered = Vec::new(alloc);
    for clause in clauses {
        lowered.push(lower_clause(&lists, clause)?)?;
    }
    Ok(Source { clauses: lowered })
}

fn lower_clause(lists: &Lists, clause: &SourceClause) -> Result<WrittenClause, AllocError>
    ensures { IfOk result (λ w. SaysClause (clause_view clause.now) w) }
{
    let mut scope = Scope::new(lists.alloc());
    let name = clause.head.name.share()?;
    let head = lower_terms(lists, &clause.head.arguments, &mut scope)?;
    let guards = lower_guards(lists, &clause.guard, &mut scope)?;
    let body = lower_body(lists, &clause.body, &mut scope)?;
    Ok(WrittenClause {
        name,
        head,
        guards,
        body,
        variables: scope.into_names(),
    })
}
