ghost use Rattle.std.specs.Prelude.{◌≡◌, ◌/◌, ◌≤◌, min};
ghost use Rattle.spoils.specs.Shares.{IsShare};

/// Of `there` units as much as one of `parts` equal parts of a room holds, floored.
#[tactic(auto, using(crate::proofs::ShareLemmas::shares))]
pub(crate) fn share(room: u64, parts: u64, there: u64) -> u64
    requires { 1 ≤ parts }
    ensures value { result ≡ min (room / parts) there }
    ensures bounds { IsShare room parts there result }
{
    (room / parts).min(there)
}
