ghost use Rattle.std.specs.Prelude.{◌≡◌, ◌≤◌, IsTrue, List, sum, true};
ghost use Rattle.std.specs.List.{list_all};
ghost use Rattle.fleet_rec.specs.Fleets.{MayFight};
ghost use Rattle.tick_model.specs.Universe.{Fleet as FleetSeen};
ghost use Rattle.base_ids.specs.declared.numbers.TheConstants.{LAST_NUMBER};

use crate::{Fleet, Fleets};
use base_ids::{CellId, Coord, Key, LAST_NUMBER, Player};
use catalog::{Amounts, Mission, Ships, SpeedSetting};
use reply_text::{Stage, Units};
use std::alloc::Global;
use std::test::Fail;

const HOME: Coord = Coord { g: 1, s: 1, p: 1 };

const AWAY: Coord = Coord { g: 1, s: 2, p: 3 };

const SENDER: Player = Player { k: 7 };

const RECEIVER: Player = Player { k: 8 };

/// A fleet with three ships that flies out, with this number and group, to arrive at a second.
fn flight(number: u64, group: u64, second: u64) -> Fleet
    requires number { number ≤ LAST_NUMBER }
    requires group { group ≤ LAST_NUMBER }
    requires second { second ≤ LAST_NUMBER }
    ensures number { result.number ≡ number }
    ensures outbound { result.outbound ≡ true }
    ensures second { result.second ≡ second }
    ensures ships { sum result.ships.n ≡ 3 }
{
    Fleet {
        number,
        group,
        owner: SENDER,
        mission: Mission::Transport,
        origin: HOME,
        target: AWAY,
        target_owner: RECEIVER,
        outbound: true,
        setting: SpeedSetting { p: 10 },
        launch: 1000,
        second,
        cargo: Amounts {
            m: 10,
            c: 20,
            d: 30,
        },
        ships: Ships {
            n: [2, 0, 0, 0, 1, 0, 0, 0, 0, 0, 0, 0, 0],
        },
    }
}

const NOTHING: Amounts = Amounts { m: 0, c: 0, d: 0 };

/// A list with these fleets.
fn list(alloc: Global, fleets: &[Fleet]) -> Result<Fleets, Fail> {
    let mut all = Fleets::new(alloc);
    'fleets: for fleet in fleets {
        all.push(*fleet)?;
    }
    Ok(all)
}

/// Whether all fleets fly out. Then any of them may fight.
fn all_fly_out(fleets: &Fleets) -> bool
    ensures { IsTrue result → (fought : List FleetSeen) → MayFight fought fleets.now }
{
    fly_out(fleets.as_slice())
}

fn fly_out(fleets: &[Fleet]) -> bool
    ensures { result ≡ list_all (λ fleet. fleet.outbound) fleets.now }
{
    fleets.iter().all(|fleet| fleet.outbound)
}

/// The numbers, groups and seconds of the fleets, and whether they fly out.
fn shown(alloc: Global, fleets: &Fleets) -> Result<Vec<(u64, u64, u64, bool)>, Fail> {
    let mut all = Vec::new(alloc);
    'fleets: for fleet in fleets.as_slice() {
        all.push((fleet.number, fleet.group, fleet.second, fleet.outbound))?;
    }
    Ok(all)
}

#[test]
fn a_fleet_belongs_to_fewer_cells_once_it_turns_back(rt: HostRuntime) {
    let out = flight(5, 5, 1600);
    let back = out.turned(NOTHING);
    let cells = [
        (CellId::Planet(HOME), true, true),
        (CellId::Account(SENDER), true, true),
        (CellId::Planet(AWAY), true, false),
        (CellId::Account(RECEIVER), true, false),
        (CellId::Account(Player { k: 9 }), false, false),
    ];
    'cells: for (cell, at_first, later) in cells {
        assert_eq!(rt; out.belongs(cell), at_first, "{cell:?}");
        assert_eq!(rt; back.belongs(cell), later, "{cell:?}");
    }
    assert_eq!(rt; (out.landing(), back.landing()), (AWAY, HOME));
    assert_eq!(rt; (out.step(), back.step()), (4, 6));
    assert!(rt; out.is_before(&back) && !back.is_before(&out));
    assert_eq!(rt; out.ship_total(), 3);
}

#[test]
fn the_way_back_takes_as_long_as_the_way_out(rt: HostRuntime) {
    let out = flight(5, 5, 1600);
    let turned = out.turned(NOTHING);
    assert_eq!(rt; (turned.second, turned.cargo), (2200, NOTHING));
    let recalled = out.recalled(1250);
    assert_eq!(rt; (recalled.second, recalled.cargo), (1500, out.cargo));
    assert_eq!(rt; out.recalled(1000).second, 1001);
    assert!(rt; !turned.outbound && !recalled.outbound);
}

#[test]
fn a_fleet_is_shown_by_its_line_and_ordered_by_its_key(rt: HostRuntime) {
    let fleet = flight(5, 4, 1600);
    let line = fleet.line();
    assert_eq!(rt; (line.number, line.group, line.stage), (5, 4, Stage::Out));
    assert_eq!(rt; (line.from, line.to, line.second), (HOME, AWAY, 1600));
    let cargo = Units {
        metal: 10,
        crystal: 20,
        deuterium: 30,
    };
    let (shown, ships) = (line.ships, fleet.ships.n);
    assert_eq!(rt; (line.cargo, shown), (cargo, ships));
    let key = Key {
        second: 1600,
        number: 5,
        step: 4,
    };
    assert_eq!(rt; fleet.key(), key);
}

#[test]
fn fleets_are_found_and_counted_by_their_owner(rt: HostRuntime) -> Result<(), Fail> {
    let alloc = rt.alloc();
    let fleets = list(alloc, &[flight(5, 5, 1600), flight(6, 6, 1500)])?;
    assert_eq!(rt; (fleets.len(), fleets.is_empty()), (2, false));
    assert_eq!(rt; fleets.find(SENDER, 6), Some(flight(6, 6, 1500)));
    assert_eq!(rt; fleets.find(RECEIVER, 6), None);
    assert_eq!(rt; fleets.find(SENDER, 7), None);
    assert_eq!(rt;
        (fleets.count_of(SENDER), fleets.count_of(RECEIVER)),
        (2, 0)
    );
    let copy = fleets.copy()?;
    assert_eq!(rt; copy.as_slice(), fleets.as_slice());
    Ok(())
}

#[test]
fn the_ships_of_an_account_are_counted(rt: HostRuntime) -> Result<(), Fail> {
    let mut fleets = Fleets::new(rt.alloc());
    assert_eq!(rt; fleets.ships_of(SENDER), 0);
    let fleet = flight(5, 5, 1600);
    fleets.push(fleet)?;
    assert_eq!(rt; fleets.ships_of(SENDER), 3);
    Ok(())
}

#[test]
fn the_first_fleet_comes_by_second_then_number(rt: HostRuntime) -> Result<(), Fail> {
    let alloc = rt.alloc();
    let later = flight(5, 5, 1600);
    let second = flight(8, 8, 1500);
    let first = flight(6, 6, 1500);
    let fleets = list(alloc, &[later, second, first])?;
    assert_eq!(rt; fleets.first_coming(AWAY, 1600), Some(first));
    assert_eq!(rt; fleets.first_coming(AWAY, 1499), None);
    assert_eq!(rt; fleets.first_coming(HOME, 1600), None);
    Ok(())
}

#[test]
fn fleets_are_recalled_kept_and_numbered(rt: HostRuntime) -> Result<(), Fail> {
    let alloc = rt.alloc();
    let mut fleets = list(alloc, &[flight(5, 5, 1600), flight(0, 0, 1500)])?;
    assert_eq!(rt; fleets.len(), 2);
    fleets.number_last(6);
    fleets.recall(5, 1100);
    let want = [(5, 5, 1200, false), (6, 6, 1500, true)];
    assert_eq!(rt; shown(alloc, &fleets)?.as_slice(), want.as_slice());
    fleets.keep(CellId::Planet(AWAY));
    let want = [(6, 6, 1500, true)];
    assert_eq!(rt; shown(alloc, &fleets)?.as_slice(), want.as_slice());
    Ok(())
}

#[test]
fn a_fleet_that_lands_turns_back_or_goes(rt: HostRuntime) -> Result<(), Fail> {
    let alloc = rt.alloc();
    let mut fleets = Fleets::new(alloc);
    fleets.push(flight(5, 5, 1600))?;
    fleets.land(5, Some(NOTHING));
    let want = [(5, 5, 2200, false)];
    assert_eq!(rt; shown(alloc, &fleets)?.as_slice(), want.as_slice());
    fleets.land(4, None);
    assert_eq!(rt; fleets.len(), 1);
    fleets.land(5, None);
    assert!(rt; fleets.is_empty());
    Ok(())
}

/// A fleet that attacks in a group.
fn raider(number: u64, group: u64) -> Fleet
    requires number { number ≤ LAST_NUMBER }
    requires group { group ≤ LAST_NUMBER }
    ensures outbound { result.outbound ≡ true }
    ensures number { result.number ≡ number }
{
    let fleet = flight(number, group, 1600);
    Fleet {
        number: fleet.number,
        group: fleet.group,
        owner: fleet.owner,
        mission: Mission::Attack,
        origin: fleet.origin,
        target: fleet.target,
        target_owner: fleet.target_owner,
        outbound: fleet.outbound,
        setting: fleet.setting,
        launch: fleet.launch,
        second: fleet.second,
        cargo: fleet.cargo,
        ships: fleet.ships,
    }
}

#[test]
fn a_group_attacks_and_what_is_left_turns_back(rt: HostRuntime) -> Result<(), Fail> {
    let alloc = rt.alloc();
    let mut fleets = list(
        alloc,
        &[raider(5, 5), flight(6, 5, 1600), raider(7, 5), raider(8, 8)],
    )?;
    assert_eq!(rt;
        (fleets.companions(AWAY, 5), fleets.companions(HOME, 5)),
        (3, 0)
    );
    let raid = fleets.raiders(AWAY, 5)?;
    assert_eq!(rt; raid.as_slice(), [raider(5, 5), raider(7, 5)].as_slice());
    assert_eq!(rt; (raid.has(7), raid.has(6)), (true, false));
    assert!(rt; fleets.first_raider(AWAY, 5) == Some(raider(5, 5)));
    assert!(rt; fleets.first_raider(HOME, 5).is_none());
    let left = list(alloc, &[raider(7, 5)])?;
    assert!(rt; all_fly_out(&fleets));
    fleets.fight(&raid, &left);
    let want = [(6, 5, 1600, true), (7, 5, 2200, false), (8, 8, 1600, true)];
    assert_eq!(rt; shown(alloc, &fleets)?.as_slice(), want.as_slice());
    Ok(())
}

#[test]
fn a_battle_comes_between_an_arrival_and_a_return(rt: HostRuntime) {
    let arrives = flight(5, 5, 1600);
    let fights = raider(7, 5);
    let back = flight(5, 5, 1300).turned(NOTHING);
    assert_eq!(rt; back.second, 1600);
    assert_eq!(rt; (arrives.step(), fights.step(), back.step()), (4, 5, 6));
    assert_eq!(rt;
        (fights.event_number(), raider(7, 6).event_number()),
        (5, 6)
    );
    assert!(rt; arrives.is_before(&fights) && fights.is_before(&back));
}
