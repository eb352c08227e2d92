ghost use Rattle.std.specs.Prelude.{◌≡◌, ◌+◌, ◌*◌, ◌<◌, ◌≤◌, ◌^◌};
ghost use Rattle.catalog.specs.declared.settings.TheConstants.{TOP_SPEED};
ghost use Rattle.prices.specs.Durations.{IsDuration, IsWithinCaps, hourly_work, seconds_of};

use catalog::Amounts;

/// What shortens a piece of work: the levels of the buildings that help with it.
#[derive(Clone, Copy, Debug, PartialEq, Eq)]
pub enum Helpers {
    /// A building is built: robotics 0 to 12, nanite 0 to 8.
    Building { robotics: u8, nanite: u8 },
    /// A technology is researched: lab 0 to 14.
    Research { lab: u8 },
    /// One unit is built in a yard: shipyard 0 to 14, nanite 0 to 8.
    Yard { shipyard: u8, nanite: u8 },
}

/// The seconds that a building, a research or one unit takes, at least 1, from its cost `c` in units and the speed of
/// the universe, 1 to `TOP_SPEED`. Deuterium takes no time.
pub fn seconds(c: Amounts, helpers: Helpers, speed: u32) -> u64
    requires helpers { IsWithinCaps helpers }
    requires speed_from { 1 ≤ speed }
    requires speed_to { speed ≤ TOP_SPEED }
    ensures value { result ≡ seconds_of c.m c.c helpers speed }
    ensures bounds { IsDuration c.m c.c helpers speed result }
{
    let work = 3600 * (c.m + c.c);
    (work / hourly(helpers, speed)).max(1)
}

/// The units of metal and crystal that are worked in an hour.
fn hourly(helpers: Helpers, speed: u32) -> u64
    requires helpers { IsWithinCaps helpers }
    requires speed_from { 1 ≤ speed }
    requires speed_to { speed ≤ TOP_SPEED }
    ensures value { result ≡ hourly_work helpers speed }
    ensures some { 1 ≤ result }
{
    let one = match helpers {
        Helpers::Building { robotics, nanite } => built(robotics, nanite),
        Helpers::Research { lab } => 1000 * (1 + u64::from(lab)),
        Helpers::Yard { shipyard, nanite } => built(shipyard, nanite),
    };
    one * u64::from(speed)
}

/// The units of metal and crystal that are built in an hour at speed 1, by robotics or a shipyard with nanites.
fn built(helper: u8, nanite: u8) -> u64
    requires helper { helper ≤ 14 }
    requires nanite { nanite ≤ 8 }
    ensures value { result ≡ 2500 * (1 + helper) * 2 ^ nanite }
    ensures some { 1 ≤ result }
    ensures within { result ≤ 9600000 }
{
    2500 * (1 + u64::from(helper)) * 2u64.pow(u32::from(nanite))
}
