// The face of a core's state.
ghost use Rattle.std.specs.Prelude.{◌≡◌, IfOk};
ghost use Rattle.std.specs.FinSet as set;
ghost use Rattle.ghc_core.specs.Core.{IsFaceOf, IsNotedFaceOf};

use crate::core_state::Core;
use ghc_hooks::Face;
use std::alloc::{AllocError, Global};

impl Core {
    /// The face of the state, found from scratch. It fails only where memory is refused. It costs what `Face::new` does. Nothing is
    /// counted or noted, for it is not a step of the run. Where no goal is untried, notes show the same.
    pub fn face(&self, alloc: Global) -> Result<Face<'_>, AllocError>
        ensures scratch { IfOk result (IsFaceOf self.now.world) }
        ensures noted { self.now.untried ≡ set.empty → IfOk result (IsNotedFaceOf self.now.world self.now.notes) }
    {
        self.stands();
        self.store().acyclic();
        Face::new(alloc, self.program(), self.goals(), self.store())
    }
}
