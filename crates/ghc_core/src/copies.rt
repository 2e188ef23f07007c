// Copies of what a note says.
ghost use Rattle.std.specs.Prelude.{◌≡◌, IfOk};
ghost use Rattle.ghc_term.specs.declared.fault.Fault.{Fault as fault_spec};
ghost use Rattle.ghc_hooks.specs.Status.{failed};
ghost use Rattle.ghc_hooks.specs.Verdict.{status_of};
ghost use Rattle.ghc_core.specs.Playing.{IsCauseOfFailure};

use ghc_hooks::{Verdict, variables_again};
use ghc_term::Fault;
use std::alloc::{AllocError, Global};

// The cause once more, which is one for which a goal fails.
fn cause_again(cause: &Fault) -> Fault
    requires { IsCauseOfFailure cause.now }
    ensures { result ≡ cause.now }
{
    match cause {
        Fault::NoMatch => Fault::NoMatch,
        Fault::Clash => Fault::Clash,
        Fault::Cycle => Fault::Cycle,
        _ => Fault::Arithmetic,
    }
}

// The verdict once more, with memory of its own: one look-up for each variable for which the goal waits.
pub(crate) fn verdict_again(alloc: Global, verdict: &Verdict) -> Result<Verdict, AllocError>
    requires { (f : fault_spec) → status_of verdict.now ≡ failed f → IsCauseOfFailure f }
    ensures { IfOk result (λ v. v ≡ verdict.now) }
{
    match verdict {
        Verdict::Ready => Ok(Verdict::Ready),
        Verdict::Waiting(awaited) => Ok(Verdict::Waiting(variables_again(alloc, awaited)?)),
        Verdict::Failed(cause) => Ok(Verdict::Failed(cause_again(cause))),
    }
}
