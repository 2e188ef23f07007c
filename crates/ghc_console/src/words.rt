// The words of a line, and the numbers and goals that they name.
ghost use Rattle.std.specs.Prelude.{◌≡◌, ◌≢◌, ◌∷◌, ◌++◌, ◌+◌, ◌<◌, All, [], length, take, drop, IfSome, IfNone};
ghost use Rattle.std.specs.List.{list_all};
ghost use Rattle.ghc_term.specs.InputTerm.{is_name_byte};
ghost use Rattle.ghc_console.specs.Words.{begins_variable, behind, goal_name_of, goal_named, is_printable, is_variable, number_of, unindented as unindented_of, words_of};

use ghc_term::GoalName;

// Where the first of these bytes is.
pub(crate) fn first(bytes: &[u8], wanted: u8) -> Option<usize>
    ensures bound { IfSome result (λ i. i < length bytes.now) }
    ensures found { IfSome result (λ i. bytes.now ≡ take i bytes.now ++ wanted ∷ drop (i + 1) bytes.now) }
    ensures plain { IfSome result (λ i. All (λ b. b ≢ wanted) (take i bytes.now)) }
    ensures none { IfNone result (All (λ b. b ≢ wanted) bytes.now) }
{
    bytes.iter().position(|b| *b == wanted)
}

// Whether all bytes of a line are printable.
pub(crate) fn is_plain(line: &[u8]) -> bool
    ensures { result ≡ list_all is_printable line.now }
{
    line.iter().all(|byte| *byte >= 32 && *byte <= 126)
}

/// The first word of a line, and what stands after it; none where the line has no word. It takes time in proportion to what it
/// goes over, and no memory.
pub fn next_word(line: &[u8]) -> Option<(&[u8], &[u8])>
    ensures found { IfSome result (λ parts. words_of line.now ≡ parts.0.now ∷ words_of parts.1.now) }
    ensures none { IfNone result (words_of line.now ≡ []) }
    ensures rest { IfSome result (λ parts. unindented_of parts.1.now ≡ behind 1 line.now) }
{
    let mut rest = line;
    while let Some(i) = first(rest, b' ') {
        let (word, behind) = rest.split_at(i);
        rest = &behind[1..];
        if !word.is_empty() {
            return Some((word, rest));
        }
    }
    if rest.is_empty() {
        return None;
    }
    Some((rest, &[]))
}

/// What stands in a line from its first byte on that is no space; nothing, where there is none. It takes time in proportion to
/// the spaces in front, and no memory.
pub fn unindented(line: &[u8]) -> &[u8]
    ensures { result.now ≡ unindented_of line.now }
{
    let mut rest = line;
    while let [first, behind @ ..] = rest
        && *first == b' '
    {
        rest = behind;
    }
    rest
}

/// The number that a word says: digits with a value of at most 4,294,967,295. It takes no memory.
pub fn number(word: &[u8]) -> Option<u32>
    ensures { result ≡ number_of word.now }
{
    if word.is_empty() {
        return None;
    }
    let mut value = 0u64;
    for byte in word {
        if !byte.is_ascii_digit() {
            return None;
        }
        value = value * 10 + u64::from(*byte - b'0');
        if value > 4_294_967_295 {
            return None;
        }
    }
    Some(value as u32)
}

// The goal of a step and a place, where both are there.
fn goal_of(step: Option<u32>, place: Option<u32>) -> Option<GoalName>
    ensures { result ≡ goal_named step place }
{
    match (step, place) {
        (Some(step), Some(place)) => Some(GoalName { step, place }),
        _ => None,
    }
}

/// The goal that a word names: a number, a point, and a number. It takes no memory.
pub fn goal_name(word: &[u8]) -> Option<GoalName>
    ensures { result ≡ goal_name_of word.now }
{
    match first(word, b'.') {
        Some(point) => goal_of(number(&word[..point]), number(&word[point + 1..])),
        None => None,
    }
}

// Whether the byte may stand first in a variable.
fn begins(byte: u8) -> bool
    ensures { result ≡ begins_variable byte }
{
    byte.is_ascii_uppercase() || byte == b'_'
}

// Whether the byte may stand in a variable after its first.
fn goes_on(byte: u8) -> bool
    ensures { result ≡ is_name_byte byte }
{
    byte.is_ascii_lowercase() || byte.is_ascii_uppercase() || byte.is_ascii_digit() || byte == b'_'
}

pub(crate) fn all_go_on(bytes: &[u8]) -> bool
    ensures { result ≡ list_all is_name_byte bytes.now }
{
    bytes.iter().all(|byte| goes_on(*byte))
}

/// Whether a word has the form of a variable. It takes no memory.
pub fn is_variable_word(word: &[u8]) -> bool
    ensures { result ≡ is_variable word.now }
{
    match word.split_first() {
        Some((byte, bytes)) => begins(*byte) && all_go_on(bytes),
        None => false,
    }
}
