ghost use Rattle.std.specs.Prelude.{◌≡◌, ◌+◌, ◌≤◌, IfOk, OnErr, OnOk, map};
ghost use Rattle.account_cell.specs.Account.{research_of};
ghost use Rattle.base_ids.specs.declared.cell_id.CellId.{CellId};
ghost use Rattle.base_ids.specs.declared.cell_id.CellId.TheVariants.{Planet as PlanetId};
ghost use Rattle.fleet_rec.specs.Fleet.{fleet_seen};
ghost use Rattle.happenings.specs.Held.{CopiesFrom, IsEqual, IsNamed, PicksFrom, held_at, planet_stand};
ghost use Rattle.lazy.specs.Running.{YardsRun, first_second, first_turn, is_running, landing_second, ran_at, reached_second, run_until, turn_at, turn_of};
ghost use Rattle.planet_cell.specs.Planet.{batches_of, buildings_of};
ghost use Rattle.planet_cell.specs.Yard.{IsAhead};
ghost use Rattle.ports.specs.declared.clock.TheConstants.{LATEST};

use base_ids::{CellId, Coord};
use fleet_rec::Fleet;
use happenings::{AccountCell, Held, PlanetCell};
use planet_cell::Planet;
use std::alloc::{AllocError, Global};
use tick_model::Rules;

/// The yards of these cells build on alone, until another event has its turn, and at most until a moment of at most 2^40 − 1
/// seconds. It fails only if memory runs out, and the cells then stay as they were.
pub fn run_yards(
    alloc: Global,
    cells: &mut Held,
    rules: &Rules,
    moment: u64,
) -> Result<(), AllocError>
    requires named { IsNamed cells.old }
    requires in_time { moment ≤ LATEST }
    ensures runs { OnOk result (YardsRun rules.now moment cells.old cells.new) }
    ensures named { OnOk result (IsNamed cells.new) }
    ensures err { OnErr result (IsEqual cells.old cells.new) }
{
    let names = cells.names(alloc)?;
    let limit = first_turn(cells, &names, moment + 1);
    let ran = ran_before(alloc, cells, &names, rules, limit)?;
    cells.put_all(ran);
    Ok(())
}

/// The first second before a limit at which an event of these cells has to wait for its turn, or else the limit.
fn first_turn(cells: &Held, names: &[CellId], limit: u64) -> u64
    ensures value { result ≡ first_turn cells.now limit names.now }
    ensures within { result ≤ limit }
{
    let mut first = limit;
    'names: for name in names {
        first = turn_at(cells, *name, first);
    }
    first
}

/// The second before a limit at which an event of this cell has to wait for its turn, or else the limit.
fn turn_at(cells: &Held, name: CellId, limit: u64) -> u64
    ensures value { result ≡ turn_at limit name (held_at cells.now name) }
    ensures within { result ≤ limit }
{
    match name {
        CellId::Account(player) => match cells.account(player) {
            Some(cell) => research_turn(cell, limit),
            None => limit,
        },
        CellId::Planet(at) => match cells.planet(at) {
            Some(cell) => planet_turn(cell, at, limit),
            None => limit,
        },
    }
}

/// The second before a limit at which an event of the planet at a place has to wait for its turn, or else the limit.
fn planet_turn(cell: &PlanetCell, at: Coord, limit: u64) -> u64
    ensures value { result ≡ turn_of limit (PlanetId at) (planet_stand cell.now) }
    ensures within { result ≤ limit }
{
    let first = unit_turn(cell, building_turn(&cell.planet, limit));
    landing_turn(cell.fleets.as_slice(), at, first)
}

/// The second at which the first of these fleets lands at a place, if it comes before a limit, or else the limit.
fn landing_turn(fleets: &[Fleet], at: Coord, limit: u64) -> u64
    ensures value { result ≡ landing_second limit (PlanetId at) (map fleet_seen fleets.now) }
    ensures within { result ≤ limit }
{
    let mut first = limit;
    'fleets: for fleet in fleets {
        if fleet.landing() == at {
            first = fleet.second.min(first);
        }
    }
    first
}

/// The second at which the research that runs is done, if it comes before a limit, or else the limit.
fn research_turn(cell: &AccountCell, limit: u64) -> u64
    ensures value { result ≡ first_second limit (research_of cell.now.account) }
    ensures within { result ≤ limit }
{
    match cell.account.research.first() {
        Some(item) => item.second.min(limit),
        None => limit,
    }
}

/// The same of the building that runs.
fn building_turn(planet: &Planet, limit: u64) -> u64
    ensures value { result ≡ first_second limit (buildings_of planet.now) }
    ensures within { result ≤ limit }
{
    match planet.buildings.first() {
        Some(item) => item.second.min(limit),
        None => limit,
    }
}

/// The same of the next unit of the yard, but only if the planet has come to its second already.
fn unit_turn(cell: &PlanetCell, limit: u64) -> u64
    ensures value { result ≡ reached_second limit cell.now.second (batches_of cell.now.planet) }
    ensures within { result ≤ limit }
{
    let Some(batch) = cell.planet.yard.first() else {
        return limit;
    };
    if batch.second > cell.second {
        return limit;
    }
    batch.second.min(limit)
}

/// Copies of the planets whose yards run before a limit, each brought to the last second before it.
fn ran_before(
    alloc: Global,
    cells: &Held,
    names: &[CellId],
    rules: &Rules,
    limit: u64,
) -> Result<Held, AllocError>
    requires named { IsNamed cells.now }
    requires in_time { limit ≤ LATEST + 1 }
    ensures picks { IfOk result (PicksFrom (ran_at rules.now limit cells.now) names.now) }
    ensures named { IfOk result IsNamed }
{
    let mut ran = Held::new(alloc);
    'names: for name in names {
        run_cell(cells, *name, rules, limit, &mut ran)?;
    }
    Ok(ran)
}

/// Holds a copy of the planet there too that was brought to the last second before a limit, if it is held here and its yard runs.
fn run_cell(
    cells: &Held,
    name: CellId,
    rules: &Rules,
    limit: u64,
    ran: &mut Held,
) -> Result<(), AllocError>
    requires named { IsNamed cells.now }
    requires in_time { limit ≤ LATEST + 1 }
    ensures copies { OnOk result (CopiesFrom (ran_at rules.now limit cells.now) name ran.old ran.new) }
    ensures named { OnOk result (IsNamed ran.old → IsNamed ran.new) }
{
    let CellId::Planet(at) = name else {
        return Ok(());
    };
    let Some(cell) = cells.planet(at) else {
        return Ok(());
    };
    if !is_running(cell, limit) {
        return Ok(());
    }
    ran.put_planet(run_planet(cell, rules, limit - 1)?)
}

/// Whether a unit of the yard is done after the second at which the planet stands, and before a limit.
fn is_running(cell: &PlanetCell, limit: u64) -> bool
    ensures { result ≡ is_running limit cell.now.second (batches_of cell.now.planet) }
{
    match cell.planet.yard.first() {
        Some(batch) => cell.second < batch.second && batch.second < limit,
        None => false,
    }
}

/// The planet, brought until a second by which no other event comes to it, in memory of its own.
fn run_planet(cell: &PlanetCell, rules: &Rules, until: u64) -> Result<PlanetCell, AllocError>
    requires order { cell.now.second ≤ until }
    requires ahead { IsAhead cell.now.second (batches_of cell.now.planet) }
    requires in_time { until ≤ LATEST }
    ensures stand { IfOk result (λ ran. planet_stand ran ≡ run_until rules.now until (planet_stand cell.now)) }
    ensures at { IfOk result (λ ran. ran.planet.at ≡ cell.now.planet.at) }
{
    let mut ran = cell.copy()?;
    ran.planet.run_yard(cell.second, until, rules.speed);
    ran.second = until;
    Ok(ran)
}
