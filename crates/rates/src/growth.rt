ghost use Rattle.std.specs.Prelude.{◌≡◌, ◌*◌, ◌^◌, ◌≤◌};
ghost use Rattle.rates.specs.Formulas.{IsIntake, IsOutput, intake, output};

use base_num::{ceiling, floor};

/// 10 to the power of a level.
#[tactic(auto, using(crate::proofs::Powers::powers))]
pub fn ten(level: u8) -> u128
    requires { level ≤ 30 }
    ensures value { result ≡ 10 ^ level }
    ensures from { 1 ≤ result }
    ensures to { result ≤ 10 ^ 30 }
{
    10u128.pow(u32::from(level))
}

/// `rate` for each level, eleven times as much from each level to the next.
#[tactic(auto, using(crate::proofs::Powers::powers, crate::proofs::Sizes::products))]
pub fn power(rate: u64, level: u8) -> u128
    requires rate { rate ≤ 30 }
    requires level { level ≤ 30 }
    ensures value { result ≡ rate * level * 11 ^ level }
    ensures within { result ≤ rate * 30 * 11 ^ 30 }
{
    let levels = u128::from(rate) * u128::from(level);
    levels * 11u128.pow(u32::from(level))
}

/// What a mine makes or a solar plant gives: `rate` for each level, a tenth more from each level to the next, at so
/// many tenths, rounded down.
#[tactic(auto, using(crate::proofs::Sizes::sizes), unfolding(crate::specs::Formulas::output))]
pub fn output(rate: u64, level: u8, tenths: u8) -> u64
    requires rate { rate ≤ 30 }
    requires level { level ≤ 30 }
    requires tenths { tenths ≤ 10 }
    ensures bounds { IsOutput rate level tenths result }
    ensures value { result ≡ output rate level tenths }
    ensures within { result ≤ 540 * rate }
{
    let number = power(rate, level) * u128::from(tenths);
    floor(number, ten(level) * 10) as u64
}

/// What a mine or a synthesizer needs: `rate` for each level, a tenth more from each level to the next, at so many
/// tenths, rounded up.
#[tactic(auto, using(crate::proofs::Sizes::sizes), unfolding(crate::specs::Formulas::intake))]
pub fn intake(rate: u64, level: u8, tenths: u8) -> u64
    requires rate { rate ≤ 30 }
    requires level { level ≤ 30 }
    requires tenths { tenths ≤ 10 }
    ensures bounds { IsIntake rate level tenths result }
    ensures value { result ≡ intake rate level tenths }
    ensures within { result ≤ 540 * rate }
{
    let number = power(rate, level) * u128::from(tenths);
    ceiling(number, ten(level) * 10) as u64
}
