ghost use Rattle.std.specs.Prelude.{◌≡◌};
ghost use Rattle.base_num.specs.Root.{IsRoot, root};

/// The square root of `number`, rounded down. A number of 64 bits takes the shorter way.
#[tactic(auto, using(crate::proofs::Rooting::is_root))]
pub fn isqrt(number: u128) -> u64
    ensures bounds { IsRoot number result }
    ensures value { result ≡ root number }
{
    match u64::try_from(number) {
        Ok(number) => number.isqrt(),
        Err(_) => number.isqrt() as u64,
    }
}
