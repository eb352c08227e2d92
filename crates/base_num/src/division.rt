ghost use Rattle.std.specs.Prelude.{◌≡◌, ◌/◌, ◌≤◌};
ghost use Rattle.base_num.specs.Division.{IsCeiling, IsFloor, ceiling};

/// `number` by `divisor`, rounded down. The divisor is at least 1.
pub fn floor(number: u128, divisor: u128) -> u128
    requires { 1 ≤ divisor }
    ensures bounds { IsFloor number divisor result }
    ensures value { result ≡ number / divisor }
{
    number / divisor
}

/// `number` by `divisor`, rounded up. The divisor is at least 1.
#[tactic(auto, using(crate::proofs::Quotients::quotients))]
pub fn ceiling(number: u128, divisor: u128) -> u128
    requires { 1 ≤ divisor }
    ensures bounds { IsCeiling number divisor result }
    ensures value { result ≡ ceiling number divisor }
{
    number.div_ceil(divisor)
}
