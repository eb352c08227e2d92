ghost use Rattle.std.specs.Prelude.{◌≡◌, ◌/◌, ◌<◌, ◌≤◌, ◌^◌};
ghost use Rattle.catalog.specs.declared.settings.TheConstants.{TOP_SPEED};
ghost use Rattle.flight.specs.Times.{IsFlightTime, flight_seconds, pace, way};

use base_num::{floor, isqrt};

/// The seconds of a flight, at least 1, over the distance `d` by a fleet of the speed `v`, at least 1, at the speed
/// setting `p`, 1 to 10, in a universe of the speed `speed`, 1 to `TOP_SPEED`.
#[tactic(auto, using(crate::proofs::Rooting::root_to, base_num::proofs::Quotients::quotients))]
pub fn seconds(d: u32, v: u64, p: u8, speed: u32) -> u64
    requires moving { 1 ≤ v }
    requires setting_from { 1 ≤ p }
    requires setting_to { p ≤ 10 }
    requires speed_from { 1 ≤ speed }
    requires speed_to { speed ≤ TOP_SPEED }
    ensures value { result ≡ flight_seconds d v p speed }
    ensures bounds { IsFlightTime d v p speed result }
    ensures some { 1 ≤ result }
{
    let root = isqrt(squared(d, v, p));
    (10 + root).div_ceil(u64::from(speed))
}

/// The number whose root gives the time. Real distances and speeds are divided in 64 bits.
fn squared(d: u32, v: u64, p: u8) -> u128
    requires moving { 1 ≤ v }
    requires setting_from { 1 ≤ p }
    requires setting_to { p ≤ 10 }
    ensures value { result ≡ way d / pace v p }
    ensures within { result < 2 ^ 66 }
{
    let square = u64::from(p) * u64::from(p);
    if d <= 1_000_000_000 && v <= 100_000_000_000_000_000 {
        u128::from(12_250_000_000 * u64::from(d) / (square * v))
    } else {
        floor(
            12_250_000_000 * u128::from(d),
            u128::from(square) * u128::from(v),
        )
    }
}
