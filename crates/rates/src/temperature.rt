ghost use Rattle.std.specs.Prelude.{◌≡◌, ℕ, ◌*◌, ◌/◌, ◌^◌, ◌≤◌, ◌≤ℤ◌};
ghost use Rattle.catalog.specs.declared.ships.TheConstants.{UNITS};
ghost use Rattle.rates.specs.declared.works.TheConstants.{COLDEST, HOTTEST};
ghost use Rattle.rates.specs.Formulas.{IsCollected, IsSynthesized, coldness, collected, synthesized, warmth};

use crate::growth::{power, ten};
use base_num::floor;

/// The degrees of a temperature above -140 degrees: 10 to 400.
#[tactic(auto, using(crate::proofs::Sizes::degrees))]
fn warmth(t: i16) -> u64
    requires coldest { COLDEST ≤ℤ t }
    requires hottest { t ≤ℤ HOTTEST }
    ensures value { result ≡ warmth t }
    ensures within { result ≤ 400 }
{
    u64::from((t + 140).unsigned_abs())
}

/// The degrees by which a temperature, taken twice, is below 1280 degrees: 760 to 1540.
#[tactic(auto, using(crate::proofs::Sizes::degrees))]
fn coldness(t: i16) -> u64
    requires coldest { COLDEST ≤ℤ t }
    requires hottest { t ≤ℤ HOTTEST }
    ensures value { result ≡ coldness t }
    ensures within { result ≤ 1540 }
{
    u64::from((1280 - 2 * t).unsigned_abs())
}

/// What a deuterium synthesizer makes in an hour: the more, the colder its planet is. It is rounded down.
#[tactic(auto, using(crate::proofs::Sizes::synthesis), unfolding(crate::specs::Formulas::synthesized))]
pub fn synthesized(level: u8, t: i16, tenths: u8) -> u64
    requires level { level ≤ 30 }
    requires coldest { COLDEST ≤ℤ t }
    requires hottest { t ≤ℤ HOTTEST }
    requires tenths { tenths ≤ 10 }
    ensures bounds { IsSynthesized level t tenths result }
    ensures value { result ≡ synthesized level t tenths }
    ensures within { result ≤ 8316 }
{
    let degrees = power(10, level) * u128::from(coldness(t));
    let number = degrees * u128::from(tenths);
    floor(number, ten(level) * 1000 * 10) as u64
}

/// What satellites give: the more, the warmer their planet is. What one of them gives is rounded down first.
#[tactic(auto, using(crate::proofs::Sizes::collection, std::proofs::lemmas::Int::ints), unfolding(crate::specs::Formulas::collected))]
pub fn collected(count: u32, t: i16, tenths: u8) -> u64
    requires count { count ≤ UNITS }
    requires coldest { COLDEST ≤ℤ t }
    requires hottest { t ≤ℤ HOTTEST }
    requires tenths { tenths ≤ 10 }
    ensures bounds { IsCollected count t tenths result }
    ensures value { result ≡ collected count t tenths }
    ensures within { result ≤ 6600000 }
{
    let one = warmth(t) / 6;
    let all = u64::from(count) * one;
    all * u64::from(tenths) / 10
}
