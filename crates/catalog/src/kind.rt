ghost use Rattle.std.specs.Prelude.{◌≡◌, MatchOption, All};
ghost use Rattle.catalog.specs.Kinds.{kind_word};

use std::fmt;

/// A kind of building, technology, ship or defence. Its number orders the kinds.
#[derive(Clone, Copy, Debug, PartialEq, Eq, PartialOrd, Ord)]
pub enum Kind {
    MetalMine = 1,
    CrystalMine = 2,
    DeuteriumSynth = 3,
    SolarPlant = 4,
    MetalStore = 5,
    CrystalStore = 6,
    DeuteriumTank = 7,
    Robotics = 8,
    Shipyard = 9,
    Lab = 10,
    Nanite = 11,
    Energy = 21,
    Laser = 22,
    Ion = 23,
    Hyperspace = 24,
    Plasma = 25,
    Combustion = 26,
    Impulse = 27,
    Hyperdrive = 28,
    Espionage = 29,
    Computer = 30,
    Weapons = 31,
    Shielding = 32,
    Armour = 33,
    Graviton = 34,
    SmallCargo = 41,
    LargeCargo = 42,
    LightFighter = 43,
    HeavyFighter = 44,
    Cruiser = 45,
    Battleship = 46,
    Battlecruiser = 47,
    Bomber = 48,
    Destroyer = 49,
    Deathstar = 50,
    Recycler = 51,
    ColonyShip = 52,
    Probe = 53,
    Satellite = 54,
    Launcher = 61,
    LightLaser = 62,
    HeavyLaser = 63,
    Gauss = 64,
    IonCannon = 65,
    PlasmaTurret = 66,
    SmallDome = 67,
    LargeDome = 68,
}

/// All kinds, by number.
pub const KINDS: [Kind; 47] = [
    Kind::MetalMine,
    Kind::CrystalMine,
    Kind::DeuteriumSynth,
    Kind::SolarPlant,
    Kind::MetalStore,
    Kind::CrystalStore,
    Kind::DeuteriumTank,
    Kind::Robotics,
    Kind::Shipyard,
    Kind::Lab,
    Kind::Nanite,
    Kind::Energy,
    Kind::Laser,
    Kind::Ion,
    Kind::Hyperspace,
    Kind::Plasma,
    Kind::Combustion,
    Kind::Impulse,
    Kind::Hyperdrive,
    Kind::Espionage,
    Kind::Computer,
    Kind::Weapons,
    Kind::Shielding,
    Kind::Armour,
    Kind::Graviton,
    Kind::SmallCargo,
    Kind::LargeCargo,
    Kind::LightFighter,
    Kind::HeavyFighter,
    Kind::Cruiser,
    Kind::Battleship,
    Kind::Battlecruiser,
    Kind::Bomber,
    Kind::Destroyer,
    Kind::Deathstar,
    Kind::Recycler,
    Kind::ColonyShip,
    Kind::Probe,
    Kind::Satellite,
    Kind::Launcher,
    Kind::LightLaser,
    Kind::HeavyLaser,
    Kind::Gauss,
    Kind::IonCannon,
    Kind::PlasmaTurret,
    Kind::SmallDome,
    Kind::LargeDome,
];

impl fmt::Display for Kind {
    ghost use Rattle.std.specs.Prelude.{Some};

    ghost output = { λ kind. Some (kind_word kind) };

    fn fmt<W: fmt::Write>(&self, f: &mut fmt::Formatter<W>) -> fmt::Result {
        write!(f, "{}", self.word())
    }
}

impl Kind {
    ghost use Rattle.std.specs.Prelude.{◌≡◌, MatchOption};
    ghost use Rattle.catalog.specs.Classes.{is_among, is_building, is_technology, is_ship, is_unit, is_work};
    ghost use Rattle.catalog.specs.Kinds.{kind_number, kind_word};
    ghost use Rattle.catalog.specs.declared.kind.Kind.{Kind};

    /// The number of the kind: 1 to 11 for a building, 21 to 34 for a technology, 41 to 54 for a ship, 61 to 68 for a
    /// defence.
    pub fn number(self) -> u8
        ensures { result ≡ kind_number self }
    {
        self as u8
    }

    /// The word that names the kind in texts.
    pub fn word(self) -> &'static str
        ensures { result.now ≡ kind_word self }
    {
        match self {
            Kind::MetalMine => "metalmine",
            Kind::CrystalMine => "crystalmine",
            Kind::DeuteriumSynth => "deuteriumsynth",
            Kind::SolarPlant => "solarplant",
            Kind::MetalStore => "metalstore",
            Kind::CrystalStore => "crystalstore",
            Kind::DeuteriumTank => "deuteriumtank",
            Kind::Robotics => "robotics",
            Kind::Shipyard => "shipyard",
            Kind::Lab => "lab",
            Kind::Nanite => "nanite",
            Kind::Energy => "energy",
            Kind::Laser => "laser",
            Kind::Ion => "ion",
            Kind::Hyperspace => "hyperspace",
            Kind::Plasma => "plasma",
            Kind::Combustion => "combustion",
            Kind::Impulse => "impulse",
            Kind::Hyperdrive => "hyperdrive",
            Kind::Espionage => "espionage",
            Kind::Computer => "computer",
            Kind::Weapons => "weapons",
            Kind::Shielding => "shielding",
            Kind::Armour => "armour",
            Kind::Graviton => "graviton",
            Kind::SmallCargo => "smallcargo",
            Kind::LargeCargo => "largecargo",
            Kind::LightFighter => "lightfighter",
            Kind::HeavyFighter => "heavyfighter",
            Kind::Cruiser => "cruiser",
            Kind::Battleship => "battleship",
            Kind::Battlecruiser => "battlecruiser",
            Kind::Bomber => "bomber",
            Kind::Destroyer => "destroyer",
            Kind::Deathstar => "deathstar",
            Kind::Recycler => "recycler",
            Kind::ColonyShip => "colonyship",
            Kind::Probe => "probe",
            Kind::Satellite => "satellite",
            Kind::Launcher => "launcher",
            Kind::LightLaser => "lightlaser",
            Kind::HeavyLaser => "heavylaser",
            Kind::Gauss => "gauss",
            Kind::IonCannon => "ioncannon",
            Kind::PlasmaTurret => "plasmaturret",
            Kind::SmallDome => "smalldome",
            Kind::LargeDome => "largedome",
        }
    }

    /// Whether it is a building.
    pub fn is_building(self) -> bool
        ensures { result ≡ is_building self }
    {
        self.is_among(Kind::MetalMine, Kind::Nanite)
    }

    /// Whether it is a technology.
    pub fn is_technology(self) -> bool
        ensures { result ≡ is_technology self }
    {
        self.is_among(Kind::Energy, Kind::Graviton)
    }

    /// Whether it is a ship that flies.
    pub fn is_ship(self) -> bool
        ensures { result ≡ is_ship self }
    {
        self.is_among(Kind::SmallCargo, Kind::Probe)
    }

    /// Whether a yard builds it: a ship, the satellite or a defence.
    pub fn is_unit(self) -> bool
        ensures { result ≡ is_unit self }
    {
        self.is_among(Kind::SmallCargo, Kind::LargeDome)
    }

    /// Whether its work can be set: a mine, the solar plant or the satellite.
    pub fn is_work(self) -> bool
        ensures { result ≡ is_work self }
    {
        self.is_among(Kind::MetalMine, Kind::SolarPlant) || self == Kind::Satellite
    }

    /// Whether it is one of the kinds from `first` to `last`, by number.
    fn is_among(self, first: Kind, last: Kind) -> bool
        ensures { result ≡ is_among first last self }
    {
        (first.number()..=last.number()).contains(&self.number())
    }

    /// The kind that a word names. `None` exactly if it names none.
    #[tactic(auto, using(crate::proofs::Places::read_whole))]
    pub fn read(word: &[u8]) -> Option<Kind>
        ensures { MatchOption result ((kind : Kind) → word.now ≡ kind_word kind → ⊥) (λ kind. word.now ≡ kind_word kind) }
    {
        named(&KINDS, word)
    }
}

/// The first of these kinds that a word names.
fn named(kinds: &[Kind], word: &[u8]) -> Option<Kind>
    ensures { MatchOption result
        (All (λ kind. word.now ≡ kind_word kind → ⊥) kinds.now)
        (λ kind. word.now ≡ kind_word kind) }
{
    kinds
        .iter()
        .find(|kind| kind.word().as_bytes() == word)
        .copied()
}
