ghost use Rattle.std.specs.Prelude.{◌≡◌, ◌≤◌};
ghost use Rattle.catalog.specs.Technologies.{level_in};
ghost use Rattle.catalog.specs.declared.ships.TheConstants.{SHIPS};
ghost use Rattle.flight.specs.Fleets.{present};
ghost use Rattle.flight.specs.Speeds.{IsSlowest, fleet_speed, lower, ship_speed, slowest_of, technology_of, tenths_of};

use catalog::{Drive, Kind, SHIPS, Ships, Technology, Techs};

/// The speed of a fleet, at least 100: that of its slowest ship, by the levels of its owner's technologies.
#[tactic(auto, using(crate::proofs::Slowest::speeds))]
pub fn speed(ships: &Ships, t: &Techs) -> u64
    ensures value { result ≡ fleet_speed t.now.n ships.now.n }
    ensures slowest { IsSlowest t.now.n (present SHIPS ships.now.n) result }
    ensures from { 100 ≤ result }
{
    // A fleet has a ship, so one is the slowest.
    slowest(ships, t).unwrap_or(0)
}

/// The speed of the slowest ship, if there is one.
#[tactic(auto, using(crate::proofs::Slowest::steps))]
fn slowest(ships: &Ships, t: &Techs) -> Option<u64>
    ensures { result ≡ slowest_of None t.now.n (present SHIPS ships.now.n) }
{
    let mut slowest = None;
    'ships: for (i, count) in ships.n.iter().enumerate() {
        if *count == 0 {
            continue;
        }
        slowest = lower(slowest, ship_speed(SHIPS[i], t));
    }
    slowest
}

/// The lower of two speeds, if there is a first one.
fn lower(slowest: Option<u64>, speed: u64) -> Option<u64>
    ensures { result ≡ lower slowest speed }
{
    match slowest {
        Some(slowest) => Some(slowest.min(speed)),
        None => Some(speed),
    }
}

/// The speed of one ship; 0 for what does not fly.
fn ship_speed(kind: Kind, t: &Techs) -> u64
    ensures { result ≡ ship_speed t.now.n kind }
{
    let impulse = drive_level(Drive::Impulse, t);
    match kind.engine(impulse) {
        Some(engine) => {
            let gained = tenths(engine.drive) * u64::from(drive_level(engine.drive, t));
            u64::from(engine.speed) * (10 + gained) / 10
        }
        None => 0,
    }
}

/// The tenths of its first speed that a ship gains with each level of its drive.
fn tenths(drive: Drive) -> u64
    ensures value { result ≡ tenths_of drive }
    ensures to { result ≤ 3 }
{
    match drive {
        Drive::Combustion => 1,
        Drive::Impulse => 2,
        Drive::Hyperspace => 3,
    }
}

/// The level of the technology of a drive.
fn drive_level(drive: Drive, t: &Techs) -> u8
    ensures { result ≡ level_in t.now.n (technology_of drive) }
{
    let technology = match drive {
        Drive::Combustion => Technology {
            kind: Kind::Combustion,
        },
        Drive::Impulse => Technology {
            kind: Kind::Impulse,
        },
        Drive::Hyperspace => Technology {
            kind: Kind::Hyperdrive,
        },
    };
    t.level(technology)
}
