ghost use Rattle.std.specs.Prelude.{◌≡◌, ◌-◌, ◌≤◌};
ghost use Rattle.base_num.specs.Division.{IsFloor};
ghost use Rattle.catalog.specs.declared.ships.TheConstants.{SHIPS};
ghost use Rattle.flight.specs.Fleets.{total};
ghost use Rattle.flight.specs.Freight.{burning, capacity_of, flight_fuel, ship_fuel};

use base_num::floor;
use catalog::{Kind, SHIPS, Ships, Technology, Techs};

/// The units of resources that fit into a fleet.
#[tactic(auto, using(crate::proofs::Sums::sums))]
pub fn capacity(ships: &Ships) -> u64
    ensures { result ≡ capacity_of ships.now.n }
{
    let mut sum = 0;
    'ships: for (i, count) in ships.n.iter().enumerate() {
        sum += u64::from(*count) * u64::from(SHIPS[i].cargo());
    }
    sum
}

/// The units of deuterium that a flight takes, at least 1, over the distance `d` at the speed setting `p`, 1 to 10, by
/// the levels of the owner's technologies.
#[tactic(auto, using(crate::proofs::Sums::fuels))]
pub fn fuel(ships: &Ships, t: &Techs, d: u32, p: u8) -> u64
    requires setting_from { 1 ≤ p }
    requires setting_to { p ≤ 10 }
    ensures value { result ≡ flight_fuel t.now.n ships.now.n d p }
    ensures bounds { IsFloor (burning t.now.n ships.now.n d p) 3500000 (result - 1) }
    ensures some { 1 ≤ result }
{
    let impulse = t.level(Technology {
        kind: Kind::Impulse,
    });
    let setting = u64::from(p) + 10;
    let burning = u128::from(fleet_fuel(ships, impulse))
        * u128::from(d)
        * u128::from(setting * setting);
    1 + floor(burning, 3_500_000) as u64
}

/// The fuel that all ships take.
#[tactic(auto, using(crate::proofs::Sums::sums))]
fn fleet_fuel(ships: &Ships, impulse: u8) -> u64
    ensures value { result ≡ total (ship_fuel impulse) SHIPS ships.now.n }
    ensures to { result ≤ 1300000000 }
{
    let mut sum = 0;
    'ships: for (i, count) in ships.n.iter().enumerate() {
        sum += u64::from(*count) * u64::from(ship_fuel(SHIPS[i], impulse));
    }
    sum
}

/// The fuel that one ship takes, up to 1000.
fn ship_fuel(kind: Kind, impulse: u8) -> u32
    ensures value { result ≡ ship_fuel impulse kind }
    ensures to { result ≤ 1000 }
{
    match kind.engine(impulse) {
        Some(engine) => engine.fuel,
        None => 0,
    }
}
