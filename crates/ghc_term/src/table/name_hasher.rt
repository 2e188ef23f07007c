// The hashes of names and numbers: spread so that no run of them, and no steps from one to the next, crowd one place of a table.
ghost use Rattle.std.specs.Prelude.{◌≡◌};
ghost use Rattle.ghc_term.specs.inner.NameHash.{number_of, hash_of};

use indexmap::{IndexMap, IndexSet};
use std::hash::{BuildHasherDefault, Hasher};

/// A table by names of variables or goals, or by numbers of steps.
pub type NameMap<K, V> = IndexMap<K, V, BuildHasherDefault<NameHasher>>;

/// A set of names of variables or goals, or of numbers of steps.
pub type NameSet<K> = IndexSet<K, BuildHasherDefault<NameHasher>>;

// An odd number whose products spread over all bits.
const MULTIPLIER: u64 = 0x9e37_79b9_7f4a_7c15;

/// A hasher of names and numbers, that keeps the last two numbers written.
#[derive(Clone, Copy)]
pub struct NameHasher {
    step: u32,
    place: u32,
}

impl Default for NameHasher {
    ghost use Rattle.std.specs.Prelude.{◌≡◌};
    ghost use Rattle.ghc_term.specs.inner.NameHash.{unwritten};

    ghost is_default = { λ h. h ≡ unwritten };

    fn default() -> NameHasher {
        NameHasher { step: 0, place: 0 }
    }
}

impl Hasher for NameHasher {
    ghost use Rattle.ghc_term.specs.inner.NameHash.{written, finished};

    ghost write = { written };

    ghost finish = { finished };

    fn finish(&self) -> u64 {
        hash(self.step, self.place)
    }

    fn write(&mut self, bytes: &[u8]) {
        self.step = self.place;
        self.place = number(bytes);
    }
}

// The number whose four bytes are these, the lowest first.
fn number(bytes: &[u8]) -> u32
    ensures { result ≡ number_of bytes.now }
{
    match bytes {
        [a, b, c, d] => u32::from_le_bytes([*a, *b, *c, *d]),
        _ => 0,
    }
}

// The hash of a name, or of a number, which stands as a place of no step: multiplied, its upper half laid over its lower half, and
// multiplied again.
fn hash(step: u32, place: u32) -> u64
    ensures { result ≡ hash_of step place }
{
    let number = u64::from(step) * 4_294_967_296 + u64::from(place);
    let product = number.wrapping_mul(MULTIPLIER);
    let mixed = product ^ product / 4_294_967_296;
    mixed.wrapping_mul(MULTIPLIER) / 4_294_967_296
}
