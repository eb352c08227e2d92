ghost use Rattle.std.specs.Prelude.{◌≡◌, ℤ, ◌≤ℤ◌, MatchOption, Some, FitsSigned};
ghost use Rattle.std.specs.Int.{w16};
ghost use Rattle.std.specs.Fmt.{signed_decimal};

use itoa::Buffer;
use std::str;

/// The number that the word spells: decimal digits with no needless leading zero, and a `-` before
/// them if the number is below 0. `None` exactly if the word spells no number from `least` to
/// `most`.
pub fn signed_number(word: &[u8], least: i16, most: i16) -> Option<i16>
    ensures { MatchOption result
        ((z : ℤ) → least ≤ℤ z → z ≤ℤ most → word.now ≡ signed_decimal z → ⊥)
        (λ z. (least ≤ℤ z) × (z ≤ℤ most) × (word.now ≡ signed_decimal z)) }
{
    let value = parsed_signed(word)?;
    if value < least || most < value {
        return None;
    }
    if Buffer::new().format(value).as_bytes() != word {
        return None;
    }
    Some(value)
}

// What std reads the word as. It also reads words with a plus sign or needless zeros.
fn parsed_signed(word: &[u8]) -> Option<i16>
    ensures { (z : ℤ) → FitsSigned w16 z → word.now ≡ signed_decimal z → result ≡ Some z }
{
    match str::from_utf8(word) {
        Ok(text) => text.parse().ok(),
        Err(_) => None,
    }
}
