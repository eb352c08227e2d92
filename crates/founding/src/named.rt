ghost use Rattle.std.specs.Prelude.{◌≤◌, ◌≤ℤ◌};
ghost use Rattle.catalog.specs.Levels.{level_cap_of};
ghost use Rattle.founding.specs.Bounds.{most_units};
ghost use Rattle.founding.specs.declared.named.TheConstants.{MOST_FIELDS};
ghost use Rattle.rates.specs.declared.works.TheConstants.{COLDEST, HOTTEST};

use base_ids::{Coord, Player};
use catalog::{Amounts, Building, Technology, Unit};

/// The most fields of a planet.
pub const MOST_FIELDS: u16 = 400;

/// The units of metal and of crystal that a new planet holds.
pub const FIRST_UNITS: u64 = 500;

/// What the line `planet C K TEMPERATURE FIELDS` says: a place, its owner, its maximum temperature in degrees, and its fields.
#[derive(Clone, Copy, Debug)]
pub struct NewPlanet {
    pub at: Coord,
    pub owner: Player,
    pub temperature: i16,
    pub fields: u16,
    pub ghost coldest: { COLDEST ≤ℤ temperature },
    pub ghost hottest: { temperature ≤ℤ HOTTEST },
    pub ghost fields_from: { 1 ≤ fields },
    pub ghost fields_to: { fields ≤ MOST_FIELDS },
}

/// What the line `stock C METAL CRYSTAL DEUTERIUM` says: a place, and the units that the planet there holds.
#[derive(Clone, Copy, Debug)]
pub struct NewStock {
    pub at: Coord,
    pub amounts: Amounts,
}

/// What the line `level C BUILDING L` says: a place, a building, and its level on the planet there.
#[derive(Clone, Copy, Debug)]
pub struct NewLevel {
    pub at: Coord,
    pub building: Building,
    pub level: u8,
    pub ghost level_from: { 1 ≤ level },
    pub ghost level_to: { level ≤ level_cap_of building.kind },
}

/// What the line `tech K TECH L` says: a player, a technology, and its level in the player's account.
#[derive(Clone, Copy, Debug)]
pub struct NewTechnology {
    pub player: Player,
    pub technology: Technology,
    pub level: u8,
    pub ghost level_from: { 1 ≤ level },
    pub ghost level_to: { level ≤ level_cap_of technology.kind },
}

/// What the line `units C UNIT N` says: a place, a kind of unit, and how many of it stand on the planet there: one dome, or 1 to
/// `catalog::UNITS` of any other kind.
#[derive(Clone, Copy, Debug)]
pub struct NewUnits {
    pub at: Coord,
    pub unit: Unit,
    pub count: u32,
    pub ghost count_from: { 1 ≤ count },
    pub ghost count_to: { count ≤ most_units unit.kind },
}
