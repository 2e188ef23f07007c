// From the parse trees of guards to guards.
ghost use Rattle.std.specs.Prelude.{IfOk};
ghost use Rattle.ghc_reader.specs.inner.Views.{test_view, test_views};
ghost use Rattle.ghc_reader.specs.Written.{variables_of_guard, variables_of_guards};
ghost use Rattle.ghc_reader.specs.Lowered.{Each, SaysGuard};
ghost use Rattle.ghc_reader.specs.inner.Scope.{MeetsAll};

use crate::lowering::expressions::lower_expression;
use crate::lowering::goals::lower_goal;
use crate::lowering::lists::Lists;
use crate::lowering::scope::Scope;
use crate::source::SourceTest;
use crate::written::Guard;
use std::alloc::AllocError;

/// The guards that parse trees say, in order. Their variables are looked up in the scope.
pub(crate) fn lower_guards(
    lists: &Lists,
    tests: &[SourceTest],
    scope: &mut Scope,
) -> Result<Vec<Guard>, AllocError>
    ensures says { IfOk result (λ ws. Each (SaysGuard scope.new) (test_views tests.now) ws.items) }
    ensures met { IfOk result (λ ws. MeetsAll scope.old (variables_of_guards ws.items) scope.new) }
{
    let mut lowered = Vec::new(lists.alloc());
    for test in tests {
        lowered.push(lower_guard(lists, test, scope)?)?;
    }
    Ok(lowered)
}

fn lower_guard(lists: &Lists, test: &SourceTest, scope: &mut Scope) -> Result<Guard, AllocError>
    ensures says { IfOk result (λ w. SaysGuard scope.new (test_view test.now) w) }
    ensures met { IfOk result (λ w. MeetsAll scope.old (variables_of_guard w) scope.new) }
{
    match test {
        SourceTest::Goal(goal) => Ok(Guard::Item(lower_goal(lists, goal, scope)?)),
        SourceTest::Compare(left, comparison, right) => {
            let left = lower_expression(lists.alloc(), left, scope)?;
            let right = lower_expression(lists.alloc(), right, scope)?;
            Ok(Guard::Comparison(*comparison, left, right))
        }
    }
}
