// What a step asks for.
ghost use Rattle.std.specs.Prelude.{◌≡◌, ◌≤◌, [], length, IfOk};
ghost use Rattle.ghc_flat.specs.Flat.{most_goals};
ghost use Rattle.ghc_term.specs.Variables.{variables_of_goals, firsts};

use ghc_term::{Goal, VarName};
use std::alloc::{AllocError, Global};
use std::marker::Model;
use std::sync::Arc;

/// Goals that a step asks for, as written, at most 1,000. Contracts see the goals. Its parts are shared.
#[derive(Drop)]
pub struct Asked {
    parts: Arc<AskedParts>,
}

// The variables of the goals stand beside them, each once, in the order in which they stand first.
struct AskedParts {
    goals: Vec<Goal>,
    variables: Vec<VarName>,
}

impl Drop for AskedParts {
    fn drop(self) {
        let AskedParts {
            goals: _goals,
            variables: _variables,
        } = self;
    }
}

impl Model for Asked {
    ghost use Rattle.std.specs.Prelude.{◌≡◌, ◌≤◌, List, [], length};
    ghost use Rattle.ghc_term.specs.Goal.{Goal};
    ghost use Rattle.ghc_term.specs.Variables.{variables_of_goals, firsts};
    ghost use Rattle.ghc_flat.specs.Flat.{most_goals};
    ghost use Rattle.ghc_fire.specs.inner.AskedCode.{asked_code};

    ghost Value = { List Goal };

    ghost coded = { asked_code };

    ghost view = { λ a. a.parts.value.goals.items };

    ghost invariant = { λ a. (length a.parts.value.goals.items ≤ most_goals)
        × (a.parts.value.variables.items ≡ firsts [] (variables_of_goals a.parts.value.goals.items)) };
}

impl Asked {
    /// These goals, no more than a body may have, with their variables, each once, in the order in which they stand first. It
    /// fails only where memory is refused.
    pub fn of(alloc: Global, goals: Vec<Goal>, variables: Vec<VarName>) -> Result<Asked, AllocError>
        requires few { length goals.items ≤ most_goals }
        requires variables { variables.items ≡ firsts [] (variables_of_goals goals.items) }
        ensures { IfOk result (λ asked. asked ≡ goals.items) }
    {
        let parts = AskedParts { goals, variables };
        match Arc::new(alloc, parts) {
            Ok(parts) => Ok(Asked { parts }),
            Err(_) => Err(AllocError),
        }
    }

    /// The same once more, with its parts shared: one step. Fails where a count of handles is full.
    pub fn share(&self) -> Result<Asked, AllocError>
        ensures { IfOk result (λ asked. asked ≡ self.now) }
    {
        let parts = Arc::try_clone(&self.parts)?;
        Ok(Asked { parts })
    }

    /// The goals, in order.
    pub fn goals(&self) -> &[Goal]
        ensures goals { result.now ≡ self.now }
        ensures few { length self.now ≤ most_goals }
    {
        self.parts.goals.as_slice()
    }

    /// The variables of the goals, each once, in the order in which they stand first.
    pub fn variables(&self) -> &[VarName]
        ensures { result.now ≡ firsts [] (variables_of_goals self.now) }
    {
        self.parts.variables.as_slice()
    }
}
