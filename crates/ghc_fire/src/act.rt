// What a step does.
ghost use Rattle.std.specs.Prelude.{◌≡◌, IfOk};

use crate::asked::Asked;
use ghc_term::{Ground, VarName};
use std::alloc::AllocError;

/// What a step does to the goal that it consumes, or that it asks for goals.
#[derive(Drop)]
pub enum Act {
    /// Reduces a call by the clause of this number.
    ByClause(u32),
    /// Unifies the two sides of an equation.
    Unified,
    /// Assigns the value of an expression.
    Assigned,
    /// Gives a stream an input.
    Given(Ground),
    /// Closes a stream.
    Closed,
    /// Asks for goals; it consumes none.
    Asked(Asked),
}

impl Act {
    ghost use Rattle.ghc_fire.specs.Asked.{variables_asked};

    /// The variables of the goals for which it asks, each once, in the order in which they stand first.
    pub fn variables(&self) -> &[VarName]
        ensures { result.now ≡ variables_asked self.now }
    {
        match self {
            Act::ByClause(_) => &[],
            Act::Unified => &[],
            Act::Assigned => &[],
            Act::Given(_) => &[],
            Act::Closed => &[],
            Act::Asked(asked) => asked.variables(),
        }
    }

    /// The same act once more, with its input shared: one step. Fails where a count of handles is full.
    pub fn share(&self) -> Result<Act, AllocError>
        ensures { IfOk result (λ act. act ≡ self.now) }
    {
        match self {
            Act::ByClause(number) => Ok(Act::ByClause(*number)),
            Act::Unified => Ok(Act::Unified),
            Act::Assigned => Ok(Act::Assigned),
            Act::Given(input) => Ok(Act::Given(input.share()?)),
            Act::Closed => Ok(Act::Closed),
            Act::Asked(asked) => Ok(Act::Asked(asked.share()?)),
        }
    }
}
