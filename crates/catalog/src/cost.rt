ghost use Rattle.std.specs.Prelude.{◌≡◌, ◌≤◌};

use crate::amounts::{Amounts, CAP};
use crate::kind::Kind;

impl Kind {
    ghost use Rattle.catalog.specs.Costs.{cost_of};

    /// What level 1 of a building or technology costs, or one ship or defence, in units.
    pub fn first_cost(self) -> Amounts
        ensures metal { result.m ≡ (cost_of self).metal }
        ensures crystal { result.c ≡ (cost_of self).crystal }
        ensures deuterium { result.d ≡ (cost_of self).deuterium }
    {
        match self {
            Kind::MetalMine => units(60, 15, 0),
            Kind::CrystalMine => units(48, 24, 0),
            Kind::DeuteriumSynth => units(225, 75, 0),
            Kind::SolarPlant => units(75, 30, 0),
            Kind::MetalStore => units(1000, 0, 0),
            Kind::CrystalStore => units(1000, 500, 0),
            Kind::DeuteriumTank => units(1000, 1000, 0),
            Kind::Robotics => units(400, 120, 200),
            Kind::Shipyard => units(400, 200, 100),
            Kind::Lab => units(200, 400, 200),
            Kind::Nanite => units(1_000_000, 500_000, 100_000),
            Kind::Energy => units(0, 800, 400),
            Kind::Laser => units(200, 100, 0),
            Kind::Ion => units(1000, 300, 100),
            Kind::Hyperspace => units(0, 4000, 2000),
            Kind::Plasma => units(2000, 4000, 1000),
            Kind::Combustion => units(400, 0, 600),
            Kind::Impulse => units(2000, 4000, 600),
            Kind::Hyperdrive => units(10_000, 20_000, 6000),
            Kind::Espionage => units(200, 1000, 200),
            Kind::Computer => units(0, 400, 600),
            Kind::Weapons => units(800, 200, 0),
            Kind::Shielding => units(200, 600, 0),
            Kind::Armour => units(1000, 0, 0),
            Kind::Graviton => units(0, 0, 0),
            Kind::SmallCargo => units(2000, 2000, 0),
            Kind::LargeCargo => units(6000, 6000, 0),
            Kind::LightFighter => units(3000, 1000, 0),
            Kind::HeavyFighter => units(6000, 4000, 0),
            Kind::Cruiser => units(20_000, 7000, 2000),
            Kind::Battleship => units(45_000, 15_000, 0),
            Kind::Battlecruiser => units(30_000, 40_000, 15_000),
            Kind::Bomber => units(50_000, 25_000, 15_000),
            Kind::Destroyer => units(60_000, 50_000, 15_000),
            Kind::Deathstar => units(5_000_000, 4_000_000, 1_000_000),
            Kind::Recycler => units(10_000, 6000, 2000),
            Kind::ColonyShip => units(10_000, 20_000, 10_000),
            Kind::Probe => units(0, 1000, 0),
            Kind::Satellite => units(0, 2000, 500),
            Kind::Launcher => units(2000, 0, 0),
            Kind::LightLaser => units(1500, 500, 0),
            Kind::HeavyLaser => units(6000, 2000, 0),
            Kind::Gauss => units(20_000, 15_000, 2000),
            Kind::IonCannon => units(2000, 6000, 0),
            Kind::PlasmaTurret => units(50_000, 50_000, 30_000),
            Kind::SmallDome => units(10_000, 10_000, 0),
            Kind::LargeDome => units(50_000, 50_000, 0),
        }
    }
}

/// So many units of metal, crystal and deuterium.
fn units(metal: u64, crystal: u64, deuterium: u64) -> Amounts
    requires metal { metal ≤ CAP }
    requires crystal { crystal ≤ CAP }
    requires deuterium { deuterium ≤ CAP }
    ensures metal { result.m ≡ metal }
    ensures crystal { result.c ≡ crystal }
    ensures deuterium { result.d ≡ deuterium }
{
    Amounts {
        m: metal,
        c: crystal,
        d: deuterium,
    }
}
