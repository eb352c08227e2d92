ghost use Rattle.std.specs.Prelude.{◌≡◌, MatchOption};
ghost use Rattle.catalog.specs.Texts.{ships_text};
ghost use Rattle.catalog.specs.declared.ships.Ships.{Ships};
ghost use Rattle.request_text.specs.Ships.{Counted, IsUncounted};

use base_text::{Parts, cut, positive_number};
use catalog::{Kind, SHIPS, Ships, UNITS};

/// Takes the part that counts ships of the kind, where it comes next; else 0 is the count. `None` exactly if the
/// next part names the kind with no count from 1 to `UNITS`.
#[tactic(auto, using(crate::proofs::Counting::counting))]
fn next_ship_count(parts: &mut Parts, kind: Kind) -> Option<u32>
    ensures { MatchOption result
        (IsUncounted kind parts.old)
        (λ count. Counted kind parts.old parts.new count) }
{
    let Some(part) = parts.peek() else {
        return Some(0);
    };
    let Some((word, number)) = cut(part, b'=') else {
        return Some(0);
    };
    if word != kind.word().as_bytes() {
        return Some(0);
    }
    let count = positive_number(number, u64::from(UNITS))?;
    let _ = parts.next();
    Some(count as u32)
}

/// The ships that a word spells, as `smallcargo=2,cruiser=1`: kinds of ships that fly, each at most once and rising by
/// number, with counts from 1 to `UNITS`. `None` exactly if it spells none.
pub fn ships(word: &[u8]) -> Option<Ships>
    ensures { MatchOption result
        ((ships : Ships) → word.now ≡ ships_text ships.n → ⊥)
        (λ ships. word.now ≡ ships_text ships.n) }
{
    let mut n = [0u32; 13];
    let mut parts = Parts::new(word, b',');
    'kinds: for (i, kind) in SHIPS.iter().enumerate() {
        let count = next_ship_count(&mut parts, *kind)?;
        n[i] = count;
    }
    if !parts.is_at_end() {
        return None;
    }
    Some(Ships { n })
}
