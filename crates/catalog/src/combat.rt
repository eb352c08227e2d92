ghost use Rattle.std.specs.Prelude.{◌≡◌};
ghost use Rattle.catalog.specs.Combat.{attack_of, shield_of};

use crate::kind::Kind;

impl Kind {
    /// The attack of one ship or defence, 0 to 200000; 0 for what is neither.
    pub fn attack(self) -> u32
        ensures { result ≡ attack_of self }
    {
        match self {
            Kind::SmallCargo | Kind::LargeCargo => 5,
            Kind::LightFighter | Kind::ColonyShip => 50,
            Kind::HeavyFighter | Kind::IonCannon => 150,
            Kind::Cruiser => 400,
            Kind::Battleship | Kind::Bomber => 1000,
            Kind::Battlecruiser => 700,
            Kind::Destroyer => 2000,
            Kind::Deathstar => 200_000,
            Kind::Recycler | Kind::Satellite | Kind::SmallDome | Kind::LargeDome => 1,
            Kind::Launcher => 80,
            Kind::LightLaser => 100,
            Kind::HeavyLaser => 250,
            Kind::Gauss => 1100,
            Kind::PlasmaTurret => 3000,
            _ => 0,
        }
    }

    /// The shield of one ship or defence, 0 to 50000; 0 for what is neither.
    pub fn shield(self) -> u32
        ensures { result ≡ shield_of self }
    {
        match self {
            Kind::SmallCargo | Kind::LightFighter | Kind::Recycler => 10,
            Kind::LargeCargo | Kind::HeavyFighter | Kind::LightLaser => 25,
            Kind::Cruiser => 50,
            Kind::Battleship | Kind::Gauss => 200,
            Kind::Battlecruiser => 400,
            Kind::Bomber | Kind::Destroyer | Kind::IonCannon => 500,
            Kind::Deathstar => 50_000,
            Kind::ColonyShip | Kind::HeavyLaser => 100,
            Kind::Satellite => 1,
            Kind::Launcher => 20,
            Kind::PlasmaTurret => 300,
            Kind::SmallDome => 2000,
            Kind::LargeDome => 10_000,
            _ => 0,
        }
    }
}
