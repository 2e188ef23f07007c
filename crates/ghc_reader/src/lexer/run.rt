// The longest run of one class of bytes at the front of a text.
ghost use Rattle.std.specs.Prelude.{◌≡◌, ◌++◌, IsTrue};
ghost use Rattle.std.specs.List.{list_all};
ghost use Rattle.ghc_reader.specs.Bytes.{goes_on, Lacks};

/// What a run is made of.
#[derive(Clone, Copy)]
pub(crate) enum Run {
    /// Digits.
    Digits,
    /// Letters, digits and `_`.
    Word,
    /// All that may stand in a comment: any byte but a line feed.
    Comment,
}

/// Whether the byte goes on with the run.
fn goes_on(run: Run, byte: u8) -> bool
    ensures { result ≡ goes_on run byte }
{
    match run {
        Run::Digits => byte.is_ascii_digit(),
        Run::Word => {
            byte.is_ascii_lowercase()
                || byte.is_ascii_uppercase()
                || byte.is_ascii_digit()
                || byte == b'_'
        }
        Run::Comment => byte != b'\n',
    }
}

/// The longest run at the front of the text, and what follows it.
pub(crate) fn split_run(run: Run, text: &[u8]) -> (&[u8], &[u8])
    ensures split { text.now ≡ result.0.now ++ result.1.now }
    ensures each { IsTrue (list_all (goes_on run) result.0.now) }
    ensures stops { Lacks (goes_on run) result.1.now }
{
    let mut end = 0;
    while end < text.len() && goes_on(run, text[end]) {
        end += 1;
    }
    text.split_at(end)
}
