ghost use Rattle.std.specs.Prelude.{[], ◌≡◌, ◌≤◌, ◌≤ℤ◌, length, sum};
ghost use Rattle.catalog.specs.declared.classes.TheConstants.{UNIT_KINDS};
ghost use Rattle.catalog.specs.declared.ships.TheConstants.{UNITS};
ghost use Rattle.founding.specs.Bounds.{HasLoneDomes};
ghost use Rattle.planet_cell.specs.Bounds.{AreWithinCaps};
ghost use Rattle.rates.specs.Stock.{IsWithinCap};
ghost use Rattle.rates.specs.declared.works.TheConstants.{COLDEST, HOTTEST};

use crate::named::{FIRST_UNITS, NewLevel, NewPlanet, NewStock, NewUnits};
use base_ids::{Coord, Player};
use catalog::{Building, Unit};
use planet_cell::{Planet, place_of, place_of_unit};
use rates::{GRAINS, Resources};
use std::alloc::Global;
use tick_model::Debris;

/// A planet as lines have made it so far: its place, its owner, its maximum temperature in degrees, its fields, the levels of
/// its buildings in the order of `catalog::BUILDINGS`, its stocks in grains, whether a line has said them, and its units in the
/// order of `catalog::UNIT_KINDS`, together at most `catalog::UNITS`, and at most one dome of each kind. The levels are together at
/// most its fields. A building whose level no line has said has level 0, and of units that no line has said there are none.
#[derive(Clone, Copy, Debug)]
pub struct Sketch {
    pub at: Coord,
    pub owner: Player,
    pub temperature: i16,
    pub fields: u16,
    pub levels: [u8; 11],
    pub stock: Resources,
    pub stocked: bool,
    pub units: [u32; 22],
    pub ghost coldest: { COLDEST ≤ℤ temperature },
    pub ghost hottest: { temperature ≤ℤ HOTTEST },
    pub ghost within_cap: { IsWithinCap stock },
    pub ghost within_levels: { AreWithinCaps levels [] },
    pub ghost kinds: { length units ≡ length UNIT_KINDS },
    pub ghost within_units: { sum units ≤ UNITS },
    pub ghost within_fields: { sum levels ≤ fields },
    pub ghost lone_domes: { HasLoneDomes units },
}

impl Sketch {
    ghost use Rattle.std.specs.Prelude.{◌≡◌, ◌≤◌, ◌+◌, [], IsTrue, ◌↔◌, sum};
    ghost use Rattle.catalog.specs.declared.ships.TheConstants.{UNITS};
    ghost use Rattle.founding.specs.DraftMaps.{own_of, planet_of};
    ghost use Rattle.founding.specs.Drafts.{first_planet, manned_with, raised_to, stocked_with};
    ghost use Rattle.planet_cell.specs.Planet.{fields_of};
    ghost use Rattle.tick_model.specs.Production.{level_of};
    ghost use Rattle.tick_model.specs.Refusals.{used_fields};
    ghost use Rattle.tick_model.specs.Yards.{count_of};

    /// A planet as its line founds it.
    pub fn new(planet: NewPlanet) -> Sketch
        ensures { planet_of result ≡ first_planet planet }
    {
        Sketch {
            at: planet.at,
            owner: planet.owner,
            temperature: planet.temperature,
            fields: planet.fields,
            levels: [0; 11],
            stock: Resources {
                metal: FIRST_UNITS * GRAINS,
                crystal: FIRST_UNITS * GRAINS,
                deuterium: 0,
            },
            stocked: false,
            units: [0; 22],
        }
    }

    /// The planet with the stock that a line says.
    pub fn stocked_with(mut self, stock: NewStock) -> Sketch
        ensures { planet_of result ≡ stocked_with stock (planet_of self) }
    {
        self.stock = Resources {
            metal: stock.amounts.m * GRAINS,
            crystal: stock.amounts.c * GRAINS,
            deuterium: stock.amounts.d * GRAINS,
        };
        self.stocked = true;
        self
    }

    /// The planet with the level that a line says, for which it has fields.
    pub fn raised_to(mut self, level: NewLevel) -> Sketch
        requires { used_fields (own_of self) + level.level ≤ self.fields }
        ensures { planet_of result ≡ raised_to level (planet_of self) }
    {
        self.levels[place_of(level.building)] = level.level;
        self
    }

    /// The planet with the units of a kind that a line says.
    pub fn manned_with(mut self, new: NewUnits) -> Sketch
        requires { sum self.units + new.count ≤ UNITS }
        ensures planet { planet_of result ≡ manned_with new (planet_of self) }
        ensures total { count_of (own_of self) new.unit.kind ≡ 0 → sum result.units ≡ sum self.units + new.count }
    {
        self.units[place_of_unit(new.unit)] = new.count;
        self
    }

    /// Whether no line has said how many units of a kind there are.
    #[tactic(auto, unfolding(tick_model::specs::Yards::count_of))]
    pub fn has_none(&self, unit: Unit) -> bool
        ensures { IsTrue result ↔ (count_of (own_of self.now) unit.kind ≡ 0) }
    {
        self.units[place_of_unit(unit)] == 0
    }

    /// Whether a line may say the level: none has said one of the building, and the planet has fields for all its levels.
    pub fn may_raise(&self, level: NewLevel) -> bool
        ensures { IsTrue result ↔ (level_of (own_of self.now) level.building.kind ≡ 0)
            × (used_fields (own_of self.now) + level.level ≤ self.now.fields) }
    {
        let used = u32::from(self.used_fields()) + u32::from(level.level);
        self.level(level.building) == 0 && used <= u32::from(self.fields)
    }

    // The level that a line has said of a building, or 0.
    #[tactic(auto, unfolding(tick_model::specs::Production::level_of))]
    fn level(&self, building: Building) -> u8
        ensures { result ≡ level_of (own_of self.now) building.kind }
    {
        self.levels[place_of(building)]
    }

    // How many fields the levels use, one each.
    fn used_fields(&self) -> u16
        ensures { result ≡ used_fields (own_of self.now) }
    {
        let mut used = 0;
        'levels: for level in &self.levels {
            used += u16::from(*level);
        }
        used
    }

    /// The planet as it is founded, with empty queues. It takes no memory.
    pub fn planet(&self, alloc: Global) -> Planet
        ensures at { result.at ≡ self.now.at }
        ensures fields { fields_of result ≡ own_of self.now }
        ensures queue { result.buildings.items ≡ [] }
        ensures yard { result.yard.items ≡ [] }
    {
        let levels = self.levels;
        Planet {
            at: self.at,
            owner: self.owner,
            temperature: self.temperature,
            fields: self.fields,
            levels,
            tenths: [10; 5],
            stock: self.stock,
            debris: Debris {
                metal: 0,
                crystal: 0,
            },
            units: self.units,
            buildings: Vec::new(alloc),
            yard: Vec::new(alloc),
        }
    }
}
