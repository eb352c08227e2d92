//! The rapid fire of each kind against each other, as a table that is read without a branch.
ghost use Rattle.std.specs.Prelude.{◌≡◌};
ghost use Rattle.catalog.specs.RapidFire.{rapid_of};
ghost use Rattle.battle.specs.Columns.{column_of};

use catalog::Kind;

/// The rapid fire of a kind against each kind of unit, in the order of `UNIT_KINDS`, and last against what is no unit.
type Row = [u16; 23];

const NONE: Row = [
    0, 0, 0, 0, 0, 0, 0, 0, 0, 0, 0, 0, 0, 0, 0, 0, 0, 0, 0, 0, 0, 0, 0,
];

/// The row of most ships.
const COMMON: Row = [
    0, 0, 0, 0, 0, 0, 0, 0, 0, 0, 0, 0, 5, 5, 0, 0, 0, 0, 0, 0, 0, 0, 0,
];

const HEAVY_FIGHTER: Row = [
    3, 0, 0, 0, 0, 0, 0, 0, 0, 0, 0, 0, 5, 5, 0, 0, 0, 0, 0, 0, 0, 0, 0,
];

const CRUISER: Row = [
    0, 0, 6, 0, 0, 0, 0, 0, 0, 0, 0, 0, 5, 5, 10, 0, 0, 0, 0, 0, 0, 0, 0,
];

const BATTLECRUISER: Row = [
    3, 3, 0, 4, 4, 7, 0, 0, 0, 0, 0, 0, 5, 5, 0, 0, 0, 0, 0, 0, 0, 0, 0,
];

const BOMBER: Row = [
    0, 0, 0, 0, 0, 0, 0, 0, 0, 0, 0, 0, 5, 5, 20, 20, 10, 0, 10, 0, 0, 0, 0,
];

const DESTROYER: Row = [
    0, 0, 0, 0, 0, 0, 2, 0, 0, 0, 0, 0, 5, 5, 0, 10, 0, 0, 0, 0, 0, 0, 0,
];

const DEATHSTAR: Row = [
    250, 250, 200, 100, 33, 30, 15, 25, 5, 0, 250, 250, 1250, 1250, 200, 200, 100, 50, 100, 0, 0,
    0, 0,
];

/// The rows of the kinds of units, in the order of `UNIT_KINDS`, and last that of what is no unit.
static RAPID_FIRE: [Row; 23] = [
    COMMON,
    COMMON,
    COMMON,
    HEAVY_FIGHTER,
    CRUISER,
    COMMON,
    BATTLECRUISER,
    BOMBER,
    DESTROYER,
    DEATHSTAR,
    COMMON,
    COMMON,
    NONE,
    NONE,
    NONE,
    NONE,
    NONE,
    NONE,
    NONE,
    NONE,
    NONE,
    NONE,
    NONE,
];

/// The rapid fire of one kind against another: 0 for none, else 2 to 1250.
pub(crate) fn rapid_fire(from: Kind, to: Kind) -> u32
    ensures { result ≡ rapid_of from to }
{
    u32::from(RAPID_FIRE[column(from)][column(to)])
}

/// The place of a kind in `RAPID_FIRE`, from 0 to 22.
fn column(kind: Kind) -> usize
    ensures { result ≡ column_of kind }
{
    match kind {
        Kind::SmallCargo => 0,
        Kind::LargeCargo => 1,
        Kind::LightFighter => 2,
        Kind::HeavyFighter => 3,
        Kind::Cruiser => 4,
        Kind::Battleship => 5,
        Kind::Battlecruiser => 6,
        Kind::Bomber => 7,
        Kind::Destroyer => 8,
        Kind::Deathstar => 9,
        Kind::Recycler => 10,
        Kind::ColonyShip => 11,
        Kind::Probe => 12,
        Kind::Satellite => 13,
        Kind::Launcher => 14,
        Kind::LightLaser => 15,
        Kind::HeavyLaser => 16,
        Kind::Gauss => 17,
        Kind::IonCannon => 18,
        Kind::PlasmaTurret => 19,
        Kind::SmallDome => 20,
        Kind::LargeDome => 21,
        _ => 22,
    }
}
