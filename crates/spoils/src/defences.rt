ghost use Rattle.std.specs.Prelude.{◌≡◌, ◌*◌, ◌≤◌};
ghost use Rattle.base_num.specs.Division.{IsFloor};
ghost use Rattle.spoils.specs.Defences.{rebuilt};

/// How many of a kind of defence stand again, of `lost` that were lost in a battle: seven tenths, floored.
pub fn rebuilt(lost: u32) -> u32
    ensures value { result ≡ rebuilt lost }
    ensures bounds { IsFloor (7 * lost) 10 result }
    ensures within { result ≤ lost }
{
    (7 * u64::from(lost) / 10) as u32
}
