//! Numbers in decimal.

ghost use Rattle.std.specs.Prelude.{◌≡◌};
ghost use Rattle.eden_git.specs.Numbers.{number_of};

use itoa::Buffer;
use std::str;

/// Reads a number from its decimal text, if it is one.
///
/// It is not one if it is empty, or has a byte that is not a digit (also a sign). Nor is
/// it if it has more than one digit and begins with a zero, or is above `u64::MAX`.
pub fn number(word: &[u8]) -> Option<u64>
    ensures { result ≡ number_of word.now }
{
    let Ok(text) = str::from_utf8(word) else {
        return None;
    };
    let Ok(value) = text.parse::<u64>() else {
        return None;
    };
    // `parse` also reads a plus and leading zeros, which the number's own text does not
    // have.
    if Buffer::new().format(value).as_bytes() == word {
        Some(value)
    } else {
        None
    }
}
