// The numbers of a list that are none of a part of it.
ghost use Rattle.std.specs.Prelude.{◌≡◌, ◌↔◌, ◌+◌, Some, IfOk, IsTrue, slice_get};
ghost use Rattle.ghc_term.specs.Lists.{In};
ghost use Rattle.ghc_records.specs.Orders.{Picks};

use std::alloc::{AllocError, Global};

// Whether the number stands at this index.
fn stands_at(numbers: &[u32], index: usize, number: u32) -> bool
    ensures { IsTrue result ↔ (slice_get numbers.now index ≡ Some number) }
{
    match numbers.get(index) {
        Some(there) => *there == number,
        None => false,
    }
}

/// The numbers that are none of the part, which has some of them in their order: one step for each of them.
pub fn outside(alloc: Global, numbers: &[u32], part: &[u32]) -> Result<Vec<u32>, AllocError>
    requires { Picks (λ n. In n part.now) numbers.now part.now }
    ensures { IfOk result (λ rest. Picks (λ n. ¬ In n part.now) numbers.now rest.items) }
{
    let mut next = 0;
    let mut rest = Vec::new(alloc);
    for number in numbers {
        if stands_at(part, next, *number) {
            next += 1;
        } else {
            rest.push(*number)?;
        }
    }
    Ok(rest)
}
