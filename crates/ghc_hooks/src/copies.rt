// Copies of sets of variables.
ghost use Rattle.std.specs.Prelude.{◌≡◌, IfOk};

use ghc_term::Variables;
use std::alloc::{AllocError, Global};

/// The set once more, with memory of its own: one look-up for each variable.
pub fn variables_again(alloc: Global, xs: &Variables) -> Result<Variables, AllocError>
    ensures { IfOk result (λ ys. ys ≡ xs.now) }
{
    let mut again = Variables::new(alloc);
    for x in xs.members() {
        again.insert(*x)?;
    }
    Ok(again)
}
