ghost use Rattle.std.specs.Prelude.{◌≡◌, ◌≤◌};
ghost use Rattle.flight.specs.Distances.{distance_of};

use base_ids::Coord;

/// How far apart two places are, 5 to 160000.
pub fn distance(a: Coord, b: Coord) -> u32
    ensures value { result ≡ distance_of a b }
    ensures both_ways { result ≡ distance_of b a }
    ensures from { 5 ≤ result }
    ensures to { result ≤ 160000 }
{
    if a.g != b.g {
        20_000 * u32::from(a.g.abs_diff(b.g))
    } else if a.s != b.s {
        2700 + 95 * u32::from(a.s.abs_diff(b.s))
    } else if a.p != b.p {
        1000 + 5 * u32::from(a.p.abs_diff(b.p))
    } else {
        5
    }
}
