// How many brackets a text opens at one place.
ghost use Rattle.std.specs.Prelude.{◌≡◌, ◌<◌, ◌≤◌, ◌↔◌, IsTrue};
ghost use Rattle.ghc_term.specs.InputTerm.{open_behind, most_open};

/// The most brackets that the text of goals which a step asks for opens at one place, as it is read and as it is printed.
pub(crate) const MOST_OPEN: usize = 1_000;

// How many are open after the byte.
fn open_behind(depth: usize, byte: u8) -> usize
    requires { depth ≤ MOST_OPEN }
    ensures { result ≡ open_behind depth byte }
{
    match byte {
        b'(' => depth + 1,
        b'[' => depth + 1,
        b')' => depth.saturating_sub(1),
        b']' => depth.saturating_sub(1),
        _ => depth,
    }
}

/// Whether the text opens more than `MOST_OPEN` brackets at one place. Time grows with the text.
pub(crate) fn opens_many(text: &[u8]) -> bool
    ensures { IsTrue result ↔ (MOST_OPEN < most_open 0 text.now) }
{
    let mut depth = 0;
    for byte in text {
        depth = open_behind(depth, *byte);
        if depth > MOST_OPEN {
            return true;
        }
    }
    false
}
