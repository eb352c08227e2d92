ghost use Rattle.std.specs.Prelude.{◌≡◌, ◌*◌, ◌^◌, ◌≤◌, ◌↔◌, ℕ, length, map, IsTrue};
ghost use Rattle.std.specs.List.Sorted.{IsStrictlyIncreasing};
ghost use Rattle.battle.specs.declared.limits.TheConstants.{MOST_UNITS};
ghost use Rattle.battle.specs.Sides.{fighters, part_fighters};

use crate::limits::MOST_UNITS;
use crate::part::Part;

/// Whether the parts come by their numbers.
pub(crate) fn is_in_order(parts: &[Part]) -> bool
    ensures { IsTrue result ↔ IsStrictlyIncreasing (map (λ part. part.number) parts.now) }
{
    'places: for place in 1..parts.len() {
        if parts[place].number <= parts[place - 1].number {
            return false;
        }
    }
    true
}

/// Whether the parts have no more units than a side may have.
pub(crate) fn is_within_limit(parts: &[Part]) -> bool
    ensures { IsTrue result ↔ (length (fighters parts.now) ≤ MOST_UNITS) }
{
    let mut units = 0;
    'parts: for part in parts {
        units += unit_count(part);
        if units > MOST_UNITS {
            return false;
        }
    }
    true
}

/// How many units a side has that has no more than a side may have.
pub(crate) fn side_count(parts: &[Part]) -> u64
    requires { length (fighters parts.now) ≤ MOST_UNITS }
    ensures { result ≡ length (fighters parts.now) }
{
    let mut units = 0;
    'parts: for part in parts {
        units += unit_count(part);
    }
    units
}

/// How many units a part has.
#[tactic(auto, using(crate::proofs::UnitCounts::part_counts))]
fn unit_count(part: &Part) -> u64
    ensures value { (place : ℕ) → length (part_fighters place part.now) ≡ result }
    ensures within { result ≤ 22 * 2 ^ 32 }
{
    let mut units = 0;
    'kinds: for count in &part.n {
        units += u64::from(*count);
    }
    units
}
