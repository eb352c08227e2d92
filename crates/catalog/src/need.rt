ghost use Rattle.std.specs.Prelude.{◌≡◌};
ghost use Rattle.catalog.specs.Needs.{needs_of};

use crate::kind::Kind;

/// The energy that the ordering planet has to give for the graviton technology, beside its prerequisites.
pub const GRAVITON_ENERGY: u64 = 300_000;

/// A prerequisite: a building of the ordering planet, or a technology of the account, and its least level.
#[derive(Clone, Copy, Debug, PartialEq, Eq)]
pub struct Need {
    pub kind: Kind,
    pub level: u8,
}

/// A list of prerequisites, each as `Kind level`.
macro_rules! needs {
    ($($kind:ident $level:literal),*) => {
        &[$(Need { kind: Kind::$kind, level: $level }),*]
    };
}

impl Kind {
    /// What has to stand before the kind can be ordered: buildings first, then technologies.
    pub fn needs(self) -> &'static [Need]
        ensures { result.now ≡ needs_of self }
    {
        match self {
            Kind::Shipyard => needs![Robotics 2],
            Kind::Nanite => needs![Robotics 10, Computer 10],
            Kind::Energy => needs![Lab 1],
            Kind::Laser => needs![Lab 1, Energy 2],
            Kind::Ion => needs![Lab 4, Energy 4, Laser 5],
            Kind::Hyperspace => needs![Lab 7, Energy 5, Shielding 5],
            Kind::Plasma => needs![Lab 4, Energy 8, Laser 10, Ion 5],
            Kind::Combustion => needs![Lab 1, Energy 1],
            Kind::Impulse => needs![Lab 2, Energy 1],
            Kind::Hyperdrive => needs![Lab 7, Hyperspace 3],
            Kind::Espionage => needs![Lab 3],
            Kind::Computer => needs![Lab 1],
            Kind::Weapons => needs![Lab 4],
            Kind::Shielding => needs![Lab 6, Energy 3],
            Kind::Armour => needs![Lab 2],
            Kind::Graviton => needs![Lab 12],
            Kind::SmallCargo => needs![Shipyard 2, Combustion 2],
            Kind::LargeCargo => needs![Shipyard 4, Combustion 6],
            Kind::LightFighter => needs![Shipyard 1, Combustion 1],
            Kind::HeavyFighter => needs![Shipyard 3, Armour 2, Impulse 2],
            Kind::Cruiser => needs![Shipyard 5, Impulse 4, Ion 2],
            Kind::Battleship => needs![Shipyard 7, Hyperdrive 4],
            Kind::Battlecruiser => needs![Shipyard 8, Hyperspace 5, Hyperdrive 5, Laser 12],
            Kind::Bomber => needs![Shipyard 8, Impulse 6, Plasma 5],
            Kind::Destroyer => needs![Shipyard 9, Hyperspace 5, Hyperdrive 6],
            Kind::Deathstar => needs![Shipyard 12, Hyperspace 6, Hyperdrive 7, Graviton 1],
            Kind::Recycler => needs![Shipyard 4, Combustion 6, Shielding 2],
            Kind::ColonyShip => needs![Shipyard 4, Impulse 3],
            Kind::Probe => needs![Shipyard 3, Combustion 3, Espionage 2],
            Kind::Satellite => needs![Shipyard 1],
            Kind::Launcher => needs![Shipyard 1],
            Kind::LightLaser => needs![Shipyard 2, Energy 1, Laser 3],
            Kind::HeavyLaser => needs![Shipyard 4, Energy 3, Laser 6],
            Kind::Gauss => needs![Shipyard 6, Energy 6, Weapons 3, Shielding 1],
            Kind::IonCannon => needs![Shipyard 4, Ion 4],
            Kind::PlasmaTurret => needs![Shipyard 8, Plasma 7],
            Kind::SmallDome => needs![Shipyard 1, Shielding 2],
            Kind::LargeDome => needs![Shipyard 1, Shielding 6],
            _ => needs![],
        }
    }
}
