// The numbers of a line.
ghost use Rattle.std.specs.Prelude.{◌≡◌, ◌≢◌, slice_index, MatchOption};
ghost use Rattle.line_shell.specs.Numbers.{number, number_32, signed_number, IsNoText};

use std::str;

/// The word as a text, which std reads as a number. It takes a plus before digits, so a word with one is none.
fn text_of(word: &[u8]) -> Option<&str>
    ensures { MatchOption result (IsNoText word.now) (λ text. (text.now ≡ word.now) × (slice_index word.now 0 ≢ 43)) }
{
    match word {
        [b'+', ..] => None,
        _ => str::from_utf8(word).ok(),
    }
}

/// The number that a word of decimal digits writes, up to the greatest.
pub fn number(word: &[u8], greatest: u64) -> Option<u64>
    ensures { result ≡ number greatest word.now }
{
    let number = text_of(word)?.parse::<u64>().ok()?;
    if number <= greatest {
        Some(number)
    } else {
        None
    }
}

/// A descriptor, or a count of bytes to read.
pub fn number_32(word: &[u8]) -> Option<u32>
    ensures { result ≡ number_32 word.now }
{
    let number = number(word, u32::MAX as u64)?;
    Some(number as u32)
}

/// An offset or a length.
pub fn signed_number(word: &[u8]) -> Option<i64>
    ensures { result ≡ signed_number word.now }
{
    text_of(word)?.parse::<i64>().ok()
}
