// What no clause says: that a fleet finds memory when it joins its cells, and that what happens doesn't fail.
ghost use Rattle.std.specs.Prelude.{◌≡◌, ◌≤◌, [], true, IfOk, IfSome};
ghost use Rattle.base_ids.specs.declared.cell_id.CellId.{CellId};
ghost use Rattle.base_ids.specs.declared.cell_id.CellId.TheVariants.{Planet as PlanetId};
ghost use Rattle.base_ids.specs.declared.numbers.TheConstants.{LAST_NUMBER};
ghost use Rattle.catalog.specs.declared.mission.Mission.TheVariants.{Transport};
ghost use Rattle.happenings.specs.Held.{IsNamed, held_at, holds};

use crate::{AccountCell, Due, Happening, Held, PlanetCell, Queue};
use account_cell::Account;
use base_ids::{Coord, LAST_NUMBER, Player};
use catalog::{Amounts, Building, Class, Kind, Mission, Ships, SpeedSetting, Techs};
use fleet_rec::{Fleet, Fleets};
use planet_cell::Planet;
use rates::{GRAINS, Resources};
use std::alloc::{AllocError, Global};
use std::process::Abort;
use std::test::Fail;
use tick_model::{Debris, Rules};

const RULES: Rules = Rules { seed: 9, speed: 1 };

const ORIGIN: Coord = Coord { g: 1, s: 1, p: 1 };

const TARGET: Coord = Coord { g: 1, s: 1, p: 2 };

const SENDER: Player = Player { k: 1 };

const RECEIVER: Player = Player { k: 2 };

/// A fleet with a number that flies out since second 0, to arrive at a target at second 108.
fn transport(number: u64, target: Coord) -> Fleet
    requires { number ≤ LAST_NUMBER }
    ensures outbound { result.outbound ≡ true }
    ensures mission { result.mission ≡ Transport }
    ensures target { result.target ≡ target }
{
    Fleet {
        number,
        group: number,
        owner: SENDER,
        mission: Mission::Transport,
        origin: ORIGIN,
        target,
        target_owner: RECEIVER,
        outbound: true,
        setting: SpeedSetting { p: 10 },
        launch: 0,
        second: 108,
        cargo: Amounts { m: 7, c: 0, d: 0 },
        ships: Ships {
            n: [2, 0, 0, 0, 0, 0, 0, 0, 0, 0, 0, 0, 0],
        },
    }
}

/// A player without technologies and with a planet, at second 0.
fn account(alloc: Global, player: Player, at: Coord) -> Result<AccountCell, AllocError>
    ensures second { IfOk result (λ cell. cell.second ≡ 0) }
    ensures fleets { IfOk result (λ cell. cell.fleets ≡ []) }
{
    Ok(AccountCell {
        second: 0,
        account: Account {
            player,
            techs: Techs { n: [0; 14] },
            planets: vec![in alloc; at]?,
            units: 0,
            research: Vec::new(alloc),
        },
        fleets: Fleets::new(alloc),
    })
}

/// A planet without buildings and with 60 units of each resource, at second 0.
fn planet(alloc: Global, owner: Player, at: Coord) -> PlanetCell
    ensures second { result.second ≡ 0 }
    ensures fleets { result.fleets ≡ [] }
    ensures at { result.planet.at ≡ at }
{
    PlanetCell {
        second: 0,
        planet: Planet {
            at,
            owner,
            temperature: 40,
            fields: 163,
            levels: [0; 11],
            tenths: [10; 5],
            stock: Resources {
                metal: GRAINS * 60,
                crystal: GRAINS * 60,
                deuterium: GRAINS * 60,
            },
            debris: Debris {
                metal: 0,
                crystal: 0,
            },
            units: [0; 22],
            buildings: Vec::new(alloc),
            yard: Vec::new(alloc),
        },
        fleets: Fleets::new(alloc),
    }
}

/// Two players, each with a planet, the second one at a target. All stand at second 0 and have no fleets.
fn cells(alloc: Global, target: Coord) -> Result<Held, AllocError>
    ensures fresh { IfOk result (λ held. (cell : CellId) → IfSome (held_at held cell) (λ stand. (stand.second ≡ 0) × (stand.seen.fleets ≡ []))) }
    ensures target { IfOk result (λ held. holds held (PlanetId target) ≡ true) }
    ensures named { IfOk result IsNamed }
{
    let mut cells = Held::new(alloc);
    cells.put_account(account(alloc, SENDER, ORIGIN)?)?;
    cells.put_account(account(alloc, RECEIVER, target)?)?;
    cells.put_planet(planet(alloc, SENDER, ORIGIN))?;
    cells.put_planet(planet(alloc, RECEIVER, target))?;
    Ok(cells)
}

/// How many fleets the accounts of the sender and of the receiver have, and the planets at the origin and at the target.
fn counts(cells: &Held) -> Result<[usize; 4], Fail> {
    Ok([
        cells.account(SENDER).ok_or("no sender")?.fleets.len(),
        cells.account(RECEIVER).ok_or("no receiver")?.fleets.len(),
        cells.planet(ORIGIN).ok_or("no origin")?.fleets.len(),
        cells.planet(TARGET).ok_or("no target")?.fleets.len(),
    ])
}

#[test]
fn a_fleet_joins_its_cells(rt: HostRuntime) -> Result<(), Fail> {
    let mut cells = cells(rt.alloc(), TARGET)?;
    cells.join_fleet(&transport(5, TARGET))?;
    assert_eq!(rt; counts(&cells)?, [1, 1, 1, 1]);
    cells.join_fleet(&transport(6, TARGET).turned(Amounts { m: 0, c: 0, d: 0 }))?;
    assert_eq!(rt; counts(&cells)?, [2, 1, 2, 1]);
    Ok(())
}

/// What is due first by second 108 among cells where a building of number 5 is done then, and a fleet of a number arrives.
#[tactic(auto, using(planet_cell::proofs::Granting::can_take))]
fn first_of_second(rt: &impl Abort, alloc: Global, number: u64) -> Result<Option<Happening>, Fail>
    requires { number ≤ LAST_NUMBER }
{
    let mut cells = cells(alloc, TARGET)?;
    let mut cell = planet(alloc, RECEIVER, TARGET);
    let mine = Building::of(Kind::MetalMine).ok_or("no building")?;
    assert_eq!(rt; cell.planet.build_refusal(&Techs { n: [0; 14] }, mine), 0);
    cell.planet.order_building(mine, 0, 1)?;
    cells.put_planet(cell)?;
    cells.number_last(Queue::Buildings(TARGET), 5);
    cells.join_fleet(&transport(number, TARGET))?;
    assert!(rt; cells.first_due(107).is_none());
    Ok(cells.first_due(108))
}

#[test]
fn of_one_second_the_lower_number_comes_first(rt: HostRuntime) -> Result<(), Fail> {
    let first = first_of_second(&rt, rt.alloc(), 4)?;
    assert!(rt; first == Some(Happening::Coming(transport(4, TARGET))));
    let due = Due {
        second: 108,
        number: 5,
        queue: Queue::Buildings(TARGET),
    };
    let first = first_of_second(&rt, rt.alloc(), 6)?;
    assert!(rt; first == Some(Happening::Item(due)));
    Ok(())
}

#[test]
fn a_transport_unloads_and_turns_back(rt: HostRuntime) -> Result<(), Fail> {
    let fleet = transport(5, TARGET);
    let mut cells = cells(rt.alloc(), TARGET)?;
    cells.join_fleet(&fleet)?;
    cells.land(&RULES, &fleet);
    assert_eq!(rt; counts(&cells)?, [1, 0, 1, 0]);
    let back = cells
        .planet(ORIGIN)
        .ok_or("no origin")?
        .fleets
        .find(SENDER, 5)
        .ok_or("no fleet")?;
    assert_eq!(rt; back.second, 216);
    assert!(rt; !back.outbound);
    assert_eq!(rt; back.cargo, Amounts { m: 0, c: 0, d: 0 });
    let stock = cells.planet(TARGET).ok_or("no target")?.planet.stock;
    assert_eq!(rt; stock.metal, GRAINS * 67 + 108 * 20);
    Ok(())
}
