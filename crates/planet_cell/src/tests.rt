ghost use Rattle.std.specs.Prelude.{◌≤◌};
ghost use Rattle.ports.specs.declared.clock.TheConstants.{LATEST};
ghost use Rattle.catalog.specs.declared.amounts.TheConstants.{CAP};
ghost use Rattle.rates.specs.Stock.{IsWithinCap};

use crate::{BuildingItem, Planet};
use base_ids::{Coord, Player};
use catalog::{Building, CAP, Class, Kind, Techs, Tenths, Work};
use ports::LATEST;
use rates::{GRAINS, Resources};
use std::alloc::{AllocError, Global};
use std::process::Abort;
use std::test::Fail;
use tick_model::{Debris, LEVEL_CAP, NO_FIELDS, POOR, Placed, QUEUE_FULL, REQUIRES};

/// An account without technologies.
pub(crate) const NO_TECHS: Techs = Techs { n: [0; 14] };

/// A planet without buildings, at -20 degrees, with 163 fields and these stocks in grains.
fn fresh(alloc: Global, stock: Resources) -> Planet
    requires { IsWithinCap stock }
{
    Planet {
        at: Coord { g: 1, s: 1, p: 1 },
        owner: Player { k: 1 },
        temperature: -20,
        fields: 163,
        levels: [0; 11],
        tenths: [10; 5],
        stock,
        debris: Debris {
            metal: 0,
            crystal: 0,
        },
        units: [0; 22],
        buildings: Vec::new(alloc),
        yard: Vec::new(alloc),
    }
}

/// A planet with so many whole units.
pub(crate) fn planet(alloc: Global, metal: u64, crystal: u64, deuterium: u64) -> Planet
    requires metal { metal ≤ CAP }
    requires crystal { crystal ≤ CAP }
    requires deuterium { deuterium ≤ CAP }
{
    fresh(
        alloc,
        Resources {
            metal: GRAINS * metal,
            crystal: GRAINS * crystal,
            deuterium: GRAINS * deuterium,
        },
    )
}

/// Orders a building at speed 1, which nothing refuses.
#[tactic(auto, using(crate::proofs::Granting::can_take))]
pub(crate) fn order(
    rt: &impl Abort,
    planet: &mut Planet,
    kind: Kind,
    moment: u64,
) -> Result<Placed, Fail>
    requires { moment ≤ LATEST }
{
    let building = Building::of(kind).ok_or("no building")?;
    assert_eq!(rt; planet.build_refusal(&NO_TECHS, building), 0);
    Ok(planet.order_building(building, moment, 1)?)
}

/// The first building is done at speed 1.
#[tactic(auto, using(crate::proofs::Starts::runs))]
pub(crate) fn finish(rt: &impl Abort, planet: &mut Planet) -> Result<(), Fail> {
    let first = planet.first_building().ok_or("no building")?;
    assert!(rt; first.second <= LATEST);
    planet.finish_building(1);
    Ok(())
}

/// The items of the queue: their kinds, levels and seconds.
fn shown(planet: &Planet) -> Result<Vec<(Kind, u8, u64)>, AllocError> {
    let alloc = *planet.buildings.allocator();
    planet
        .buildings
        .iter()
        .map(|item| (item.kind.kind, item.level, item.second))
        .collect(alloc)
}

#[test]
fn a_building_is_paid_and_starts_at_once(rt: HostRuntime) -> Result<(), Fail> {
    let mut planet = planet(rt.alloc(), 60, 15, 0);
    let placed = order(&rt, &mut planet, Kind::MetalMine, 0)?;
    assert_eq!(rt;
        placed,
        Placed::Starts {
            amount: 1,
            second: 108
        }
    );
    let left = Resources {
        metal: 0,
        crystal: 0,
        deuterium: 0,
    };
    assert_eq!(rt; planet.stock, left);
    assert_eq!(rt;
        shown(&planet)?.as_slice(),
        [(Kind::MetalMine, 1, 108)].as_slice()
    );
    Ok(())
}

/// Three buildings are ordered at once: a metal mine, a crystal store and a solar plant.
fn three_ordered(rt: &impl Abort, planet: &mut Planet) -> Result<(), Fail> {
    assert_eq!(rt;
        order(rt, planet, Kind::MetalMine, 0)?,
        Placed::Starts {
            amount: 1,
            second: 108
        }
    );
    assert_eq!(rt;
        order(rt, planet, Kind::CrystalStore, 0)?,
        Placed::Waits { place: 2 }
    );
    assert_eq!(rt;
        order(rt, planet, Kind::SolarPlant, 0)?,
        Placed::Waits { place: 3 }
    );
    Ok(())
}

#[test]
fn only_the_building_that_starts_is_paid(rt: HostRuntime) -> Result<(), Fail> {
    let mut planet = planet(rt.alloc(), 500, 500, 0);
    three_ordered(&rt, &mut planet)?;
    assert_eq!(rt;
        (planet.stock.metal, planet.stock.crystal),
        (440 * GRAINS, 485 * GRAINS)
    );
    let want = [
        (Kind::MetalMine, 1, 108),
        (Kind::CrystalStore, 0, 0),
        (Kind::SolarPlant, 0, 0),
    ];
    assert_eq!(rt; shown(&planet)?.as_slice(), want.as_slice());
    Ok(())
}

#[test]
fn a_waiting_building_that_cannot_be_paid_is_dropped(rt: HostRuntime) -> Result<(), Fail> {
    let mut planet = planet(rt.alloc(), 500, 500, 0);
    three_ordered(&rt, &mut planet)?;
    planet.advance(108, 1);
    finish(&rt, &mut planet)?;
    assert_eq!(rt;
        shown(&planet)?.as_slice(),
        [(Kind::SolarPlant, 1, 259)].as_slice()
    );
    assert_eq!(rt; planet.levels, [1, 0, 0, 0, 0, 0, 0, 0, 0, 0, 0]);
    let metal = 365 * GRAINS + 20 * 108;
    let crystal = 455 * GRAINS + 10 * 108;
    assert_eq!(rt;
        (planet.stock.metal, planet.stock.crystal),
        (metal, crystal)
    );
    planet.advance(151, 1);
    finish(&rt, &mut planet)?;
    assert!(rt; planet.buildings.is_empty());
    assert_eq!(rt; planet.levels, [1, 0, 0, 1, 0, 0, 0, 0, 0, 0, 0]);
    assert_eq!(rt; planet.used_fields(), 2);
    Ok(())
}

#[test]
fn robotics_shorten_what_starts_after_them(rt: HostRuntime) -> Result<(), Fail> {
    let mut planet = planet(rt.alloc(), 9000, 9000, 9000);
    let want = Placed::Starts {
        amount: 1,
        second: 748,
    };
    assert_eq!(rt; order(&rt, &mut planet, Kind::Robotics, 0)?, want);
    assert_eq!(rt;
        order(&rt, &mut planet, Kind::MetalMine, 0)?,
        Placed::Waits { place: 2 }
    );
    finish(&rt, &mut planet)?;
    assert_eq!(rt;
        shown(&planet)?.as_slice(),
        [(Kind::MetalMine, 1, 748 + 54)].as_slice()
    );
    Ok(())
}

#[test]
fn a_stock_is_cut_at_its_limit(rt: HostRuntime) -> Result<(), Fail> {
    for (seconds, metal) in [
        (179, 9_999 * GRAINS + 3_580),
        (180, 10_000 * GRAINS),
        (181, 10_000 * GRAINS),
    ] {
        let mut planet = planet(rt.alloc(), 9_999, 20_000, 0);
        assert_eq!(rt; planet.limits().metal, 10_000);
        assert_eq!(rt; planet.yields(1).metal, 20);
        planet.advance(seconds, 1);
        let want = Resources {
            metal,
            crystal: 20_000 * GRAINS,
            deuterium: 0,
        };
        assert_eq!(rt; planet.stock, want, "after {seconds} s");
    }
    Ok(())
}

/// Why a building is refused on a planet.
fn refusal(planet: &Planet, kind: Kind) -> Result<u8, Fail> {
    let building = Building::of(kind).ok_or("no building")?;
    Ok(planet.build_refusal(&NO_TECHS, building))
}

#[test]
fn the_first_reason_to_refuse_is_told(rt: HostRuntime) -> Result<(), Fail> {
    let mut poor = planet(rt.alloc(), 59, 15, 0);
    assert_eq!(rt; refusal(&poor, Kind::MetalMine)?, POOR);
    assert_eq!(rt; refusal(&poor, Kind::Shipyard)?, REQUIRES);
    poor.fields = 0;
    assert_eq!(rt; refusal(&poor, Kind::MetalMine)?, NO_FIELDS);
    assert_eq!(rt; refusal(&poor, Kind::Nanite)?, REQUIRES);
    let mut full = planet(rt.alloc(), 60, 15, 0);
    for _ in 0..5u8 {
        assert_eq!(rt; refusal(&full, Kind::MetalMine)?, 0);
        let _ = order(&rt, &mut full, Kind::MetalMine, 0)?;
    }
    assert_eq!(rt; refusal(&full, Kind::MetalMine)?, QUEUE_FULL);
    Ok(())
}

#[test]
fn queued_levels_count_for_the_fields(rt: HostRuntime) -> Result<(), Fail> {
    let mut planet = planet(rt.alloc(), 60, 15, 0);
    planet.fields = 2;
    let _ = order(&rt, &mut planet, Kind::MetalMine, 0)?;
    assert_eq!(rt; refusal(&planet, Kind::MetalMine)?, 0);
    let _ = order(&rt, &mut planet, Kind::MetalMine, 0)?;
    assert_eq!(rt; refusal(&planet, Kind::MetalMine)?, NO_FIELDS);
    Ok(())
}

#[test]
fn queued_levels_count_for_the_cap(rt: HostRuntime) -> Result<(), Fail> {
    let mut planet = planet(rt.alloc(), CAP, CAP, 0);
    'done: for _ in 0..13u8 {
        let _ = order(&rt, &mut planet, Kind::MetalStore, 0)?;
        finish(&rt, &mut planet)?;
    }
    'waiting: for _ in 0..3u8 {
        let _ = order(&rt, &mut planet, Kind::MetalStore, 0)?;
    }
    assert_eq!(rt; planet.used_fields(), 13);
    assert_eq!(rt; refusal(&planet, Kind::MetalStore)?, LEVEL_CAP);
    Ok(())
}

#[test]
fn a_work_is_set_and_the_last_item_gets_its_number(rt: HostRuntime) -> Result<(), Fail> {
    let mut planet = planet(rt.alloc(), 500, 500, 0);
    let satellites = Work::of(Kind::Satellite).ok_or("no work")?;
    planet.set_tenths(satellites, Tenths { n: 3 });
    assert_eq!(rt; planet.tenths, [10, 10, 10, 10, 3]);
    let _ = order(&rt, &mut planet, Kind::MetalMine, 0)?;
    let _ = order(&rt, &mut planet, Kind::SolarPlant, 0)?;
    assert_eq!(rt; planet.buildings.len(), 2);
    planet.number_last_building(77);
    assert_eq!(rt; planet.buildings.len(), 2);
    assert_eq!(rt;
        (planet.buildings[0].number, planet.buildings[1].number),
        (0, 77)
    );
    Ok(())
}

#[test]
fn a_copy_is_the_same(rt: HostRuntime) -> Result<(), Fail> {
    let mut planet = planet(rt.alloc(), 500, 400, 300);
    let _ = order(&rt, &mut planet, Kind::MetalMine, 7)?;
    let copy = planet.copy()?;
    assert_eq!(rt; (copy.at, copy.owner), (planet.at, planet.owner));
    assert_eq!(rt;
        (copy.temperature, copy.fields),
        (planet.temperature, planet.fields)
    );
    assert_eq!(rt;
        (copy.levels, copy.tenths, copy.units),
        (planet.levels, planet.tenths, planet.units)
    );
    assert_eq!(rt; (copy.stock, copy.debris), (planet.stock, planet.debris));
    assert_eq!(rt; copy.buildings.as_slice(), planet.buildings.as_slice());
    Ok(())
}
