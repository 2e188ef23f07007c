// The line that tells of a refusal, and the status that goes with it.
ghost use Rattle.std.specs.Prelude.{◌≡◌, ◌++◌, is_ok, if◌then◌else◌, string_bytes};
ghost use Rattle.ghcdb.specs.inner.Refusal.{refusal_line};

use crate::refused_part::RefusedPart;
use ghc_term::Fault;
use std::alloc::AllocError;

/// What is refused, and why.
#[derive(Drop)]
pub struct Refusal {
    pub part: RefusedPart,
    pub fault: Fault,
}

/// Writes the line of a refusal at the end of `out`, which stays as it was where memory is refused.
pub fn push_line(out: &mut String, refusal: &Refusal) -> Result<(), AllocError>
    ensures { string_bytes out.new ≡ (if is_ok result then string_bytes out.old ++ refusal_line refusal.now else string_bytes out.old) }
{
    let alloc = *out.allocator();
    let prefix = refusal.part.prefix();
    let text = refusal.fault.text(alloc)?;
    let line = format!(in alloc; "{prefix}{text}\n")?;
    out.push_str(line.as_str())?;
    Ok(())
}
