ghost use Rattle.std.specs.Prelude.{◌≤◌};
ghost use Rattle.catalog.specs.declared.amounts.TheConstants.{CAP};
ghost use Rattle.ports.specs.declared.clock.TheConstants.{LATEST};
ghost use Rattle.rates.specs.Stock.{IsWithinCap};

use crate::Planet;
use crate::tests::{NO_TECHS, finish, order, planet};
use catalog::{CAP, Class, Count, Kind, Techs, UNITS, Unit};
use ports::LATEST;
use rates::{GRAINS, Resources};
use std::alloc::Global;
use std::process::Abort;
use std::test::Fail;
use tick_model::{CEILING, LEVEL_CAP, POOR, Placed, QUEUE_FULL, REQUIRES};

/// An account that knows shielding 2.
const SHIELDED: Techs = Techs {
    n: [0, 0, 0, 0, 0, 0, 0, 0, 0, 0, 0, 2, 0, 0],
};

/// So many whole units of each resource, in grains.
fn stock(metal: u64, crystal: u64, deuterium: u64) -> Resources
    requires metal { metal ≤ CAP }
    requires crystal { crystal ≤ CAP }
    requires deuterium { deuterium ≤ CAP }
    ensures { IsWithinCap result }
{
    Resources {
        metal: GRAINS * metal,
        crystal: GRAINS * crystal,
        deuterium: GRAINS * deuterium,
    }
}

/// The planet has these stocks.
fn endow(planet: &mut Planet, stock: Resources)
    requires { IsWithinCap stock }
{
    planet.stock = stock;
}

/// The next level of a building stands.
fn build(rt: &impl Abort, planet: &mut Planet, kind: Kind) -> Result<(), Fail> {
    let _ = order(rt, planet, kind, 0)?;
    finish(rt, planet)
}

/// A planet with robotics 2, shipyard 1 and the most that stocks hold.
fn rich(rt: &impl Abort, alloc: Global) -> Result<Planet, Fail> {
    let mut planet = planet(alloc, CAP, CAP, CAP);
    build(rt, &mut planet, Kind::Robotics)?;
    build(rt, &mut planet, Kind::Robotics)?;
    build(rt, &mut planet, Kind::Shipyard)?;
    Ok(planet)
}

/// Why so many units are refused to an account with these technologies and so many units.
fn refusal(
    planet: &Planet,
    techs: &Techs,
    units: u32,
    kind: Kind,
    count: Count,
) -> Result<u8, Fail> {
    let unit = Unit::of(kind).ok_or("no unit")?;
    Ok(planet.yard_refusal(techs, units, unit, count))
}

/// Orders units at speed 1, which nothing refuses.
#[tactic(auto, using(crate::proofs::Batches::can_take_batch))]
fn order_units(
    rt: &impl Abort,
    planet: &mut Planet,
    kind: Kind,
    count: Count,
    moment: u64,
) -> Result<Placed, Fail>
    requires { moment ≤ LATEST }
{
    let unit = Unit::of(kind).ok_or("no unit")?;
    let units = planet.unit_total();
    assert_eq!(rt; planet.yard_refusal(&SHIELDED, units, unit, count), 0);
    Ok(planet.order_batch(unit, count, moment, 1)?)
}

/// The planet comes from a second to a later one at speed 1.
fn run(rt: &impl Abort, planet: &mut Planet, from: u64, until: u64) -> Result<(), Fail>
    requires order { from ≤ until }
    requires latest { until ≤ LATEST }
{
    let Some(first) = planet.first_batch() else {
        planet.run_yard(from, until, 1);
        return Ok(());
    };
    assert!(rt; from < first.second);
    planet.run_yard(from, until, 1);
    Ok(())
}

/// How many launchers stand.
fn launchers(planet: &Planet) -> u32 {
    planet.units[14]
}

/// How many satellites stand.
fn satellites(planet: &Planet) -> u32 {
    planet.units[13]
}

/// The second of the next unit, and how many are left of its batch.
fn next(planet: &Planet) -> Option<(u64, u32)> {
    let first = planet.first_batch()?;
    Some((first.second, first.left))
}

#[test]
fn units_stand_as_soon_as_they_are_done(rt: HostRuntime) -> Result<(), Fail> {
    let mut planet = rich(&rt, rt.alloc())?;
    endow(&mut planet, stock(5000, 0, 0));
    let want = Placed::Starts {
        amount: 2,
        second: 1440,
    };
    assert_eq!(rt;
        order_units(&rt, &mut planet, Kind::Launcher, Count { n: 2 }, 0)?,
        want
    );
    assert_eq!(rt; planet.stock, stock(1000, 0, 0));
    run(&rt, &mut planet, 0, 2879)?;
    assert_eq!(rt; launchers(&planet), 1);
    assert_eq!(rt; next(&planet), Some((2880, 1)));
    let left = Resources {
        metal: 1000 * GRAINS + 20 * 2879,
        crystal: 10 * 2879,
        deuterium: 0,
    };
    assert_eq!(rt; planet.stock, left);
    assert_eq!(rt; (left.metal / GRAINS, left.crystal / GRAINS), (1015, 7));
    run(&rt, &mut planet, 2879, 2880)?;
    assert_eq!(rt; launchers(&planet), 2);
    assert!(rt; planet.yard.is_empty());
    Ok(())
}

#[test]
fn many_units_are_counted_at_once(rt: HostRuntime) -> Result<(), Fail> {
    let mut planet = rich(&rt, rt.alloc())?;
    let count = Count { n: UNITS };
    let _ = order_units(&rt, &mut planet, Kind::Launcher, count, 0)?;
    run(&rt, &mut planet, 0, 72_000_000)?;
    assert_eq!(rt; launchers(&planet), 50_000);
    assert_eq!(rt; next(&planet), Some((72_001_440, 50_000)));
    run(&rt, &mut planet, 72_000_000, 1_000_000_000)?;
    assert_eq!(rt; launchers(&planet), 100_000);
    assert!(rt; planet.yard.is_empty());
    Ok(())
}

#[test]
fn each_satellite_changes_the_yields_after_it(rt: HostRuntime) -> Result<(), Fail> {
    let mut planet = rich(&rt, rt.alloc())?;
    build(&rt, &mut planet, Kind::MetalMine)?;
    endow(&mut planet, stock(0, 4000, 1000));
    let count = Count { n: 2 };
    let _ = order_units(&rt, &mut planet, Kind::Satellite, count, 0)?;
    run(&rt, &mut planet, 0, 3000)?;
    assert_eq!(rt; satellites(&planet), 2);
    assert_eq!(rt; planet.stock.metal, 20 * 1440 + 53 * 1560);
    Ok(())
}

#[test]
fn a_batch_takes_the_levels_at_which_it_begins(rt: HostRuntime) -> Result<(), Fail> {
    let mut planet = rich(&rt, rt.alloc())?;
    let one = Count { n: 1 };
    let _ = order_units(&rt, &mut planet, Kind::Launcher, one, 0)?;
    assert_eq!(rt;
        order_units(&rt, &mut planet, Kind::Launcher, one, 0)?,
        Placed::Waits { place: 2 }
    );
    build(&rt, &mut planet, Kind::Shipyard)?;
    run(&rt, &mut planet, 0, 1440)?;
    assert_eq!(rt; next(&planet), Some((2400, 1)));
    run(&rt, &mut planet, 1440, 2400)?;
    assert_eq!(rt; launchers(&planet), 2);
    Ok(())
}

#[test]
fn the_first_reason_to_refuse_units_is_told(rt: HostRuntime) -> Result<(), Fail> {
    let mut planet = rich(&rt, rt.alloc())?;
    let one = Count { n: 1 };
    let two = Count { n: 2 };
    assert_eq!(rt;
        refusal(&planet, &NO_TECHS, 0, Kind::SmallDome, two)?,
        LEVEL_CAP
    );
    assert_eq!(rt;
        refusal(&planet, &NO_TECHS, 0, Kind::SmallDome, one)?,
        REQUIRES
    );
    assert_eq!(rt;
        refusal(&planet, &NO_TECHS, 99_999, Kind::Launcher, two)?,
        CEILING
    );
    assert_eq!(rt;
        refusal(&planet, &NO_TECHS, 99_999, Kind::Launcher, one)?,
        0
    );
    let _ = order_units(&rt, &mut planet, Kind::SmallDome, one, 0)?;
    assert_eq!(rt;
        refusal(&planet, &SHIELDED, 1, Kind::SmallDome, one)?,
        LEVEL_CAP
    );
    endow(&mut planet, stock(1999, 0, 0));
    assert_eq!(rt;
        refusal(&planet, &NO_TECHS, UNITS, Kind::Launcher, one)?,
        POOR
    );
    endow(&mut planet, stock(8000, 0, 0));
    for _ in 0..4u8 {
        let _ = order_units(&rt, &mut planet, Kind::Launcher, one, 0)?;
    }
    assert_eq!(rt;
        refusal(&planet, &NO_TECHS, 0, Kind::SmallDome, two)?,
        QUEUE_FULL
    );
    Ok(())
}

#[test]
fn the_last_batch_gets_its_number_and_a_copy_has_it(rt: HostRuntime) -> Result<(), Fail> {
    let mut planet = rich(&rt, rt.alloc())?;
    let one = Count { n: 1 };
    let _ = order_units(&rt, &mut planet, Kind::Launcher, one, 0)?;
    let _ = order_units(&rt, &mut planet, Kind::Launcher, one, 0)?;
    assert_eq!(rt; planet.yard.len(), 2);
    planet.number_last_batch(77);
    assert_eq!(rt; planet.yard.len(), 2);
    assert_eq!(rt; (planet.yard[0].number, planet.yard[1].number), (0, 77));
    let copy = planet.copy()?;
    assert_eq!(rt; copy.yard.as_slice(), planet.yard.as_slice());
    Ok(())
}

#[test]
fn a_planet_pays_for_research(rt: HostRuntime) -> Result<(), Fail> {
    let mut planet = planet(rt.alloc(), 0, 800, 400);
    let price = prices::cost(Kind::Energy, 1);
    assert!(rt; planet.can_pay(price));
    planet.pay(price);
    assert_eq!(rt; planet.stock, stock(0, 0, 0));
    assert!(rt; !planet.can_pay(price));
    assert_eq!(rt; planet.lab(), 0);
    let graviton = catalog::Technology::of(Kind::Graviton).ok_or("no technology")?;
    let energy = catalog::Technology::of(Kind::Energy).ok_or("no technology")?;
    assert!(rt; !planet.gives_energy(1, graviton));
    assert!(rt; planet.gives_energy(1, energy));
    Ok(())
}
