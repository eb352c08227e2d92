ghost use Rattle.std.specs.Prelude.{IsTrue};
ghost use Rattle.catalog.specs.Classes.{is_building, is_technology, is_unit, is_work};

use crate::kind::Kind;
use std::fmt;

/// A class of kinds, as the buildings. Its members are the kinds that belong to it.
pub trait Class: Sized {
    ghost use Rattle.std.specs.Prelude.{◌≡◌, Bool, false, true, MatchOption};
    ghost use Rattle.catalog.specs.Kinds.{kind_word};
    ghost use Rattle.catalog.specs.declared.kind.Kind.{Kind};

    // whether a kind belongs to the class
    ghost has: { Kind → Bool };

    // the kind of a member
    ghost kind_of: { Self → Kind };

    /// The member of this kind. `None` exactly if the kind doesn't belong to the class.
    fn of(kind: Kind) -> Option<Self>
        ensures { MatchOption result (has kind ≡ false) (λ member. kind_of member ≡ kind) };

    /// The member that a word names. `None` exactly if it names none.
    final fn read(word: &[u8]) -> Option<Self>
        ensures { MatchOption result
            ((member : Self) → word.now ≡ kind_word (kind_of member) → ⊥)
            (λ member. word.now ≡ kind_word (kind_of member)) }
    {
        Self::of(Kind::read(word)?)
    }

    // each member belongs to the class
    ghost belongs: { (member : Self) → has (kind_of member) ≡ true };
}

/// The kinds of buildings, by number.
pub const BUILDINGS: [Kind; 11] = [
    Kind::MetalMine,
    Kind::CrystalMine,
    Kind::DeuteriumSynth,
    Kind::SolarPlant,
    Kind::MetalStore,
    Kind::CrystalStore,
    Kind::DeuteriumTank,
    Kind::Robotics,
    Kind::Shipyard,
    Kind::Lab,
    Kind::Nanite,
];

/// A kind of building. Its text is the word of the kind.
#[derive(Clone, Copy, Debug, PartialEq, Eq, PartialOrd, Ord)]
pub struct Building {
    pub kind: Kind,
    pub ghost class: { IsTrue (is_building kind) },
}

impl Class for Building {
    ghost has = { is_building };

    ghost kind_of = { λ building. building.kind };

    ghost belongs = { λ building. building.class };

    fn of(kind: Kind) -> Option<Building> {
        if kind.is_building() {
            Some(Building { kind })
        } else {
            None
        }
    }
}

impl fmt::Display for Building {
    ghost use Rattle.std.specs.Prelude.{Some};
    ghost use Rattle.catalog.specs.Kinds.{kind_word};

    ghost output = { λ building. Some (kind_word building.kind) };

    fn fmt<W: fmt::Write>(&self, f: &mut fmt::Formatter<W>) -> fmt::Result {
        write!(f, "{}", self.kind)
    }
}

/// The kinds of technologies, by number.
pub const TECHNOLOGIES: [Kind; 14] = [
    Kind::Energy,
    Kind::Laser,
    Kind::Ion,
    Kind::Hyperspace,
    Kind::Plasma,
    Kind::Combustion,
    Kind::Impulse,
    Kind::Hyperdrive,
    Kind::Espionage,
    Kind::Computer,
    Kind::Weapons,
    Kind::Shielding,
    Kind::Armour,
    Kind::Graviton,
];

/// A kind of technology. Its text is the word of the kind.
#[derive(Clone, Copy, Debug, PartialEq, Eq, PartialOrd, Ord)]
pub struct Technology {
    pub kind: Kind,
    pub ghost class: { IsTrue (is_technology kind) },
}

impl Class for Technology {
    ghost has = { is_technology };

    ghost kind_of = { λ technology. technology.kind };

    ghost belongs = { λ technology. technology.class };

    fn of(kind: Kind) -> Option<Technology> {
        if kind.is_technology() {
            Some(Technology { kind })
        } else {
            None
        }
    }
}

impl fmt::Display for Technology {
    ghost use Rattle.std.specs.Prelude.{Some};
    ghost use Rattle.catalog.specs.Kinds.{kind_word};

    ghost output = { λ technology. Some (kind_word technology.kind) };

    fn fmt<W: fmt::Write>(&self, f: &mut fmt::Formatter<W>) -> fmt::Result {
        write!(f, "{}", self.kind)
    }
}

/// The kinds of units, by number: the ships, the satellite and the defences.
pub const UNIT_KINDS: [Kind; 22] = [
    Kind::SmallCargo,
    Kind::LargeCargo,
    Kind::LightFighter,
    Kind::HeavyFighter,
    Kind::Cruiser,
    Kind::Battleship,
    Kind::Battlecruiser,
    Kind::Bomber,
    Kind::Destroyer,
    Kind::Deathstar,
    Kind::Recycler,
    Kind::ColonyShip,
    Kind::Probe,
    Kind::Satellite,
    Kind::Launcher,
    Kind::LightLaser,
    Kind::HeavyLaser,
    Kind::Gauss,
    Kind::IonCannon,
    Kind::PlasmaTurret,
    Kind::SmallDome,
    Kind::LargeDome,
];

/// A kind that a yard builds: a ship, the satellite or a defence. Its text is the word of the kind.
#[derive(Clone, Copy, Debug, PartialEq, Eq, PartialOrd, Ord)]
pub struct Unit {
    pub kind: Kind,
    pub ghost class: { IsTrue (is_unit kind) },
}

impl Class for Unit {
    ghost has = { is_unit };

    ghost kind_of = { λ unit. unit.kind };

    ghost belongs = { λ unit. unit.class };

    fn of(kind: Kind) -> Option<Unit> {
        if kind.is_unit() {
            Some(Unit { kind })
        } else {
            None
        }
    }
}

impl fmt::Display for Unit {
    ghost use Rattle.std.specs.Prelude.{Some};
    ghost use Rattle.catalog.specs.Kinds.{kind_word};

    ghost output = { λ unit. Some (kind_word unit.kind) };

    fn fmt<W: fmt::Write>(&self, f: &mut fmt::Formatter<W>) -> fmt::Result {
        write!(f, "{}", self.kind)
    }
}

/// The kinds of works, by number.
pub const WORKS: [Kind; 5] = [
    Kind::MetalMine,
    Kind::CrystalMine,
    Kind::DeuteriumSynth,
    Kind::SolarPlant,
    Kind::Satellite,
];

/// A kind whose work can be set: the three mines, the solar plant or the satellite. Its text is the word of the
/// kind.
#[derive(Clone, Copy, Debug, PartialEq, Eq, PartialOrd, Ord)]
pub struct Work {
    pub kind: Kind,
    pub ghost class: { IsTrue (is_work kind) },
}

impl Class for Work {
    ghost has = { is_work };

    ghost kind_of = { λ work. work.kind };

    ghost belongs = { λ work. work.class };

    fn of(kind: Kind) -> Option<Work> {
        if kind.is_work() {
            Some(Work { kind })
        } else {
            None
        }
    }
}

impl fmt::Display for Work {
    ghost use Rattle.std.specs.Prelude.{Some};
    ghost use Rattle.catalog.specs.Kinds.{kind_word};

    ghost output = { λ work. Some (kind_word work.kind) };

    fn fmt<W: fmt::Write>(&self, f: &mut fmt::Formatter<W>) -> fmt::Result {
        write!(f, "{}", self.kind)
    }
}
