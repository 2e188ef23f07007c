// Counts as they are written in replies.
ghost use Rattle.std.specs.Prelude.{◌≡◌, ◌++◌, OnErr, OnOk, string_bytes};
ghost use Rattle.std.specs.Fmt.{decimal};

use itoa::Buffer;
use std::alloc::AllocError;

/// Writes a count at the end of the text, which stays as it was where memory is refused. It costs a step for each digit.
pub(crate) fn push_count(count: usize, out: &mut String) -> Result<(), AllocError>
    ensures text { OnOk result (string_bytes out.new ≡ string_bytes out.old ++ decimal count) }
{
    let mut digits = Buffer::new();
    out.push_str(digits.format(count as u64))
}
