ghost use Rattle.std.specs.Prelude.{◌≡◌, ℕ, ◌<◌, ◌≤◌, ◌^◌, MatchOption, Some};
ghost use Rattle.std.specs.Fmt.{decimal};

use itoa::Buffer;
use std::str;

/// The number that the word spells in decimal digits, with no sign and no needless leading zero.
/// `None` exactly if the word spells no number of at most `most`.
pub fn number(word: &[u8], most: u64) -> Option<u64>
    ensures { MatchOption result
        ((n : ℕ) → n ≤ most → word.now ≡ decimal n → ⊥)
        (λ n. (n ≤ most) × (word.now ≡ decimal n)) }
{
    let value = parsed(word)?;
    if value > most {
        return None;
    }
    if Buffer::new().format(value).as_bytes() != word {
        return None;
    }
    Some(value)
}

// What std reads the word as. It also reads words with a plus sign or needless zeros.
fn parsed(word: &[u8]) -> Option<u64>
    ensures { (n : ℕ) → n < 2 ^ 64 → word.now ≡ decimal n → result ≡ Some n }
{
    match str::from_utf8(word) {
        Ok(text) => text.parse().ok(),
        Err(_) => None,
    }
}

/// The number from 1 to `most` that the word spells as `number` reads it. `None` exactly if the word
/// spells none.
pub fn positive_number(word: &[u8], most: u64) -> Option<u64>
    ensures { MatchOption result
        ((n : ℕ) → 1 ≤ n → n ≤ most → word.now ≡ decimal n → ⊥)
        (λ n. (1 ≤ n) × (n ≤ most) × (word.now ≡ decimal n)) }
{
    match number(word, most)? {
        0 => None,
        n => Some(n),
    }
}
