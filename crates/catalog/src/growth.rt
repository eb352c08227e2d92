ghost use Rattle.std.specs.Prelude.{◌≡◌};
ghost use Rattle.catalog.specs.Levels.{fraction, growth_of, level_cap_of};

use crate::kind::Kind;

/// An exact fraction by which a cost grows from one level to the next.
#[derive(Clone, Copy, Debug, PartialEq, Eq)]
pub struct Growth {
    pub numerator: u64,
    pub denominator: u64,
}

impl Kind {
    /// By what the cost grows from one level to the next: 3/2, 8/5 or 2/1. For a unit, which has no levels, 1/1.
    pub fn growth(self) -> Growth
        ensures { result ≡ growth_of self }
    {
        match self {
            Kind::MetalMine | Kind::DeuteriumSynth | Kind::SolarPlant => fraction(3, 2),
            Kind::CrystalMine => fraction(8, 5),
            Kind::MetalStore
            | Kind::CrystalStore
            | Kind::DeuteriumTank
            | Kind::Robotics
            | Kind::Shipyard
            | Kind::Lab
            | Kind::Nanite
            | Kind::Energy
            | Kind::Laser
            | Kind::Ion
            | Kind::Hyperspace
            | Kind::Plasma
            | Kind::Combustion
            | Kind::Impulse
            | Kind::Hyperdrive
            | Kind::Espionage
            | Kind::Computer
            | Kind::Weapons
            | Kind::Shielding
            | Kind::Armour
            | Kind::Graviton => fraction(2, 1),
            _ => fraction(1, 1),
        }
    }

    /// The highest level: 1 to 30. A unit counts as level 1.
    pub fn level_cap(self) -> u8
        ensures { result ≡ level_cap_of self }
    {
        match self {
            Kind::MetalMine | Kind::CrystalMine | Kind::DeuteriumSynth | Kind::SolarPlant => 30,
            Kind::MetalStore | Kind::CrystalStore | Kind::DeuteriumTank => 16,
            Kind::Robotics => 12,
            Kind::Shipyard | Kind::Lab => 14,
            Kind::Nanite => 8,
            Kind::Energy
            | Kind::Laser
            | Kind::Ion
            | Kind::Hyperspace
            | Kind::Plasma
            | Kind::Combustion
            | Kind::Impulse
            | Kind::Hyperdrive
            | Kind::Espionage
            | Kind::Computer
            | Kind::Weapons
            | Kind::Shielding
            | Kind::Armour => 20,
            Kind::Graviton => 1,
            _ => 1,
        }
    }
}

/// A fraction.
fn fraction(numerator: u64, denominator: u64) -> Growth
    ensures { result ≡ fraction numerator denominator }
{
    Growth {
        numerator,
        denominator,
    }
}
