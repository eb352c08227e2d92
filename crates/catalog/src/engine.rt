ghost use Rattle.std.specs.Prelude.{◌≡◌};
ghost use Rattle.catalog.specs.Flight.{cargo_of, engine, engine_of};

use crate::kind::Kind;

/// What drives a ship. Each drive is a technology whose levels make the ship faster.
#[derive(Clone, Copy, Debug, PartialEq, Eq)]
pub enum Drive {
    Combustion,
    Impulse,
    Hyperspace,
}

/// The engine of a ship: its drive, its speed while the drive has level 0 (100 to 100000000), and the fuel that it
/// takes (1 to 1000), by which the deuterium for a flight is reckoned.
#[derive(Clone, Copy, Debug, PartialEq, Eq)]
pub struct Engine {
    pub drive: Drive,
    pub speed: u32,
    pub fuel: u32,
}

impl Kind {
    /// The units of resources that fit into one ship, 0 to 1000000; 0 for what is no ship.
    pub fn cargo(self) -> u32
        ensures { result ≡ cargo_of self }
    {
        match self {
            Kind::SmallCargo => 5000,
            Kind::LargeCargo => 25_000,
            Kind::LightFighter => 50,
            Kind::HeavyFighter => 100,
            Kind::Cruiser => 800,
            Kind::Battleship => 1500,
            Kind::Battlecruiser => 750,
            Kind::Bomber => 500,
            Kind::Destroyer => 2000,
            Kind::Deathstar => 1_000_000,
            Kind::Recycler => 20_000,
            Kind::ColonyShip => 7500,
            Kind::Probe => 5,
            _ => 0,
        }
    }

    /// The engine of a ship whose owner has this level of the impulse technology. `None` for what does not fly.
    pub fn engine(self, impulse: u8) -> Option<Engine>
        ensures { result ≡ engine_of self impulse }
    {
        match self {
            Kind::SmallCargo if impulse >= 5 => driven(10_000, Drive::Impulse, 20),
            Kind::SmallCargo => driven(5000, Drive::Combustion, 10),
            Kind::LargeCargo => driven(7500, Drive::Combustion, 50),
            Kind::LightFighter => driven(12_500, Drive::Combustion, 20),
            Kind::HeavyFighter => driven(10_000, Drive::Impulse, 75),
            Kind::Cruiser => driven(15_000, Drive::Impulse, 300),
            Kind::Battleship => driven(10_000, Drive::Hyperspace, 500),
            Kind::Battlecruiser => driven(10_000, Drive::Hyperspace, 250),
            Kind::Bomber => driven(4000, Drive::Impulse, 1000),
            Kind::Destroyer => driven(5000, Drive::Hyperspace, 1000),
            Kind::Deathstar => driven(100, Drive::Hyperspace, 1),
            Kind::Recycler => driven(2000, Drive::Combustion, 300),
            Kind::ColonyShip => driven(2500, Drive::Impulse, 1000),
            Kind::Probe => driven(100_000_000, Drive::Combustion, 1),
            _ => None,
        }
    }
}

/// An engine, of a ship that flies.
fn driven(speed: u32, drive: Drive, fuel: u32) -> Option<Engine>
    ensures { result ≡ engine speed drive fuel }
{
    Some(Engine { drive, speed, fuel })
}
