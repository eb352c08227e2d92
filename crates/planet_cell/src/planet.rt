ghost use Rattle.std.specs.Prelude.{◌+◌, ◌≤◌, ◌≤ℤ◌, sum, vec_len};
ghost use Rattle.catalog.specs.declared.ships.TheConstants.{UNITS};
ghost use Rattle.planet_cell.specs.Bounds.{AreAtMost, AreWithinCaps, HasBegun, left_in};
ghost use Rattle.rates.specs.Stock.{IsWithinCap};
ghost use Rattle.rates.specs.declared.works.TheConstants.{COLDEST, HOTTEST};
ghost use Rattle.tick_model.specs.declared.codes.TheConstants.{MOST_QUEUED};

use crate::batch::Batch;
use crate::building_item::BuildingItem;
use base_ids::{Coord, Player};
use rates::Resources;
use tick_model::Debris;

/// A planet: where it stands; its owner; its maximum temperature in degrees, `rates::COLDEST` to `rates::HOTTEST`; its
/// fields; the levels of its buildings in the order of `catalog::BUILDINGS`; the tenths at which its works run, 0 to 10 each, in
/// the order of `catalog::WORKS`; its stocks in grains of 1/3600 unit, each at most the cap; the debris around it in units; its
/// units in the order of `catalog::UNIT_KINDS`; its building queue and its yard, each of at most `tick_model::MOST_QUEUED` items.
///
/// The first item of a queue runs, and the others wait. No building rises above its highest level, even if all items of the
/// queue are built. The units that stand and those that the yard is to build are together at most `catalog::UNITS`.
#[derive(Debug, Drop)]
pub struct Planet {
    pub at: Coord,
    pub owner: Player,
    pub temperature: i16,
    pub fields: u16,
    pub levels: [u8; 11],
    pub tenths: [u8; 5],
    pub stock: Resources,
    pub debris: Debris,
    pub units: [u32; 22],
    pub buildings: Vec<BuildingItem>,
    pub yard: Vec<Batch>,
    pub ghost coldest: { COLDEST ≤ℤ temperature },
    pub ghost hottest: { temperature ≤ℤ HOTTEST },
    pub ghost within_ten: { AreAtMost 10 tenths },
    pub ghost within_cap: { IsWithinCap stock },
    pub ghost within_units: { sum units + left_in yard.items ≤ UNITS },
    pub ghost within_room: { vec_len buildings ≤ MOST_QUEUED },
    pub ghost within_yard: { vec_len yard ≤ MOST_QUEUED },
    pub ghost within_levels: { AreWithinCaps levels buildings.items },
    pub ghost first_begun: { HasBegun yard.items },
}
