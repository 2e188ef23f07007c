// Cutting bytes apart, and the numbers that they say.
ghost use Rattle.std.specs.Prelude.{◌≡◌, ◌≢◌, ◌<◌, ◌≤◌, ◌∷◌, ◌++◌, All, [], ℕ, List, false, true, get_or, length, IfSome, IfNone};
ghost use Rattle.std.specs.Char.{is_ascii_digit};
ghost use Rattle.std.specs.Fmt.{decimal};
ghost use Rattle.std.specs.List.{list_all};
ghost use Rattle.std.specs.Str.Parse.{digits_value};
ghost use Rattle.ghc_records.specs.HistoryText.{pieces_of};
ghost use Rattle.ghc_reader.specs.Lexed.{greatest_number};

// What stands in front of the first such byte, and what after it; none where there is no such byte.
pub(crate) fn cut(bytes: &[u8], mark: u8) -> Option<(&[u8], &[u8])>
    ensures found { IfSome result (λ parts. bytes.now ≡ parts.0.now ++ mark ∷ parts.1.now) }
    ensures plain { IfSome result (λ parts. All (λ b. b ≢ mark) parts.0.now) }
    ensures none { IfNone result (All (λ b. b ≢ mark) bytes.now) }
{
    for place in 0..bytes.len() {
        if bytes[place] == mark {
            return Some((&bytes[..place], &bytes[place + 1..]));
        }
    }
    None
}

// The first line of a text, and what follows its line feed; none where no line feed is left.
pub(crate) fn next_line(text: &[u8]) -> Option<(&[u8], &[u8])>
    ensures found { IfSome result (λ parts. pieces_of text.now ≡ parts.0.now ∷ pieces_of parts.1.now) }
    ensures none { IfNone result (pieces_of text.now ≡ text.now ∷ []) }
{
    cut(text, b'\n')
}

// What follows the bytes in front; none where these are others.
pub(crate) fn behind<'a>(bytes: &'a [u8], front: &[u8]) -> Option<&'a [u8]>
    ensures some { IfSome result (λ rest. bytes.now ≡ front.now ++ rest.now) }
    ensures none { IfNone result ((rest : List ℕ) → bytes.now ≢ front.now ++ rest) }
{
    bytes.strip_prefix(front)
}

// The value of digits, if all bytes are digits and it has 32 bits at most.
fn value_of(word: &[u8]) -> Option<u32>
    ensures digits { IfSome result (λ n. list_all is_ascii_digit word.now ≡ true) }
    ensures value { IfSome result (λ n. n ≡ digits_value 10 word.now) }
    ensures small { IfSome result (λ n. n ≤ greatest_number) }
    ensures none { IfNone result (list_all is_ascii_digit word.now ≡ true → greatest_number < digits_value 10 word.now) }
{
    let mut value = 0u64;
    for byte in word {
        if !byte.is_ascii_digit() {
            return None;
        }
        value = value * 10 + u64::from(*byte - b'0');
        if value > 4_294_967_295 {
            return None;
        }
    }
    Some(value as u32)
}

// Whether a zero stands in front of other bytes.
fn has_leading_zero(word: &[u8]) -> bool
    ensures alone { result ≡ false → get_or word.now 0 0 ≡ 48 → length word.now ≤ 1 }
    ensures leading { result ≡ true → (get_or word.now 0 0 ≡ 48) × (1 < length word.now) }
{
    word.len() > 1 && word[0] == b'0'
}

// The number that a word says, in decimal without leading zeros, of 32 bits at most.
pub(crate) fn number(word: &[u8]) -> Option<u32>
    ensures some { IfSome result (λ n. word.now ≡ decimal n) }
    ensures small { IfSome result (λ n. n ≤ greatest_number) }
    ensures none { IfNone result ((n : ℕ) → n ≤ greatest_number → word.now ≢ decimal n) }
{
    if word.is_empty() {
        return None;
    }
    if has_leading_zero(word) {
        return None;
    }
    value_of(word)
}

// The number from 1 on that a word says so.
pub(crate) fn positive(word: &[u8]) -> Option<u32>
    ensures some { IfSome result (λ n. word.now ≡ decimal n) }
    ensures first { IfSome result (λ n. 1 ≤ n) }
    ensures small { IfSome result (λ n. n ≤ greatest_number) }
    ensures none { IfNone result ((n : ℕ) → 1 ≤ n → n ≤ greatest_number → word.now ≢ decimal n) }
{
    match number(word) {
        Some(value) => {
            if value == 0 {
                return None;
            }
            Some(value)
        }
        None => None,
    }
}
