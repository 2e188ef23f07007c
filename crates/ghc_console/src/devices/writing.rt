// Writing to a device.
ghost use Rattle.ghc_console.specs.inner.Device.{WritesFront};
ghost use Rattle.ghc_console.specs.inner.OnlyWrites.{OnlyWrites};

use crate::devices::device::{Broken, Device};

/// Writes all the bytes, or a front of them where a call fails, which is the last call. At most one call for each byte.
#[inline(always)]
pub fn write_all<D: Device>(device: &mut D, bytes: &[u8]) -> Result<(), Broken>
    ensures bytes { WritesFront (D.written device.old) (D.written device.new) result bytes.now }
    ensures writes { OnlyWrites D.Device device.old device.new result }
{
    let mut rest = bytes;
    while !rest.is_empty() {
        let n = device.write(rest)?;
        rest = &rest[n..];
    }
    Ok(())
}
