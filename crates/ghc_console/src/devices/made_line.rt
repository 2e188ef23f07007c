// Lines that are written one at a time, each made in one text.
ghost use Rattle.std.specs.Prelude.{◌≡◌, ◌∷◌, [], List, ℕ, OnOk, string_bytes};
ghost use Rattle.ghc_console.specs.inner.WritesTold.{WritesTold};
ghost use Rattle.ghc_console.specs.inner.OnlyWrites.{OnlyWrites};

use crate::devices::device::{Broken, Device};
use crate::devices::writing::write_all;
use crate::replies::run_lines::UNTOLD;
use std::alloc::AllocError;

/// Writes the line that was made in the text; or where memory was refused for it, that.
pub(crate) fn write_made<D: Device>(
    device: &mut D,
    made: Result<(), AllocError>,
    line: &String,
) -> Result<(), Broken>
    ensures told { (bytes : List ℕ) → OnOk made (string_bytes line.now ≡ bytes) → WritesTold (bytes ∷ []) (D.written device.old) (D.written device.new) result }
    ensures writes { OnlyWrites D.Device device.old device.new result }
{
    match made {
        Ok(()) => write_all(device, line.as_bytes()),
        Err(_) => write_all(device, UNTOLD.as_bytes()),
    }
}
