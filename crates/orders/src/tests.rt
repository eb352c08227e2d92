ghost use Rattle.std.specs.Prelude.{◌≤◌, IsTrue, [], map, replicate};
ghost use Rattle.account_cell.specs.Bounds.{AreWithinCaps as AreTechsWithinCaps};
ghost use Rattle.catalog.specs.declared.amounts.TheConstants.{CAP};
ghost use Rattle.catalog.specs.declared.ships.TheConstants.{UNITS};
ghost use Rattle.fleet_rec.specs.Fleet.{fleet_seen};
ghost use Rattle.orders.specs.Granting.{AreCounted};
ghost use Rattle.planet_cell.specs.Bounds.{AreWithinCaps};
ghost use Rattle.ports.specs.declared.clock.TheConstants.{LATEST};

use crate::{Acted, PartFleets, Parts, account_lines, act};
use account_cell::Account;
use base_ids::{Coord, Player};
use catalog::{CAP, Techs};
use fleet_rec::{Fleet, Fleets};
use planet_cell::Planet;
use ports::LATEST;
use rates::{GRAINS, Resources};
use request_text::Request;
use std::alloc::{AllocError, Global};
use std::process::Abort;
use std::test::Fail;
use tick_model::{
    CEILING, Debris, LEVEL_CAP, NO_FIELDS, NO_PLANET, NO_PLAYER, NOT_YOURS, POOR, QUEUE_FULL,
    REQUIRES, Rules,
};

const RULES: Rules = Rules { seed: 9, speed: 1 };

const HOME: Coord = Coord { g: 1, s: 1, p: 1 };

/// Robotics 2, shipyard 1 and lab 1.
const WORKSHOPS: [u8; 11] = [0, 0, 0, 0, 0, 0, 0, 2, 1, 1, 0];

/// Graviton 1, which is as high as it goes, and energy 3.
const LEARNED: [u8; 14] = [3, 0, 0, 0, 0, 0, 0, 0, 0, 0, 0, 0, 0, 1];

/// A planet of a player at -20 degrees, with these levels, so many fields, and so many units of each resource.
fn planet_with(alloc: Global, k: u32, levels: [u8; 11], fields: u16, units: u64) -> Planet
    requires from { 1 ≤ k }
    requires to { k ≤ 65535 }
    requires levels { AreWithinCaps levels [] }
    requires units { units ≤ CAP }
{
    Planet {
        at: HOME,
        owner: Player { k },
        temperature: -20,
        fields,
        levels,
        tenths: [10; 5],
        stock: Resources {
            metal: GRAINS * units,
            crystal: GRAINS * units,
            deuterium: GRAINS * units,
        },
        debris: Debris {
            metal: 0,
            crystal: 0,
        },
        units: [0; 22],
        buildings: Vec::new(alloc),
        yard: Vec::new(alloc),
    }
}

/// A planet without buildings.
#[tactic(auto, using(crate::proofs::Fresh::levels_fresh))]
pub fn planet(alloc: Global, k: u32, fields: u16, units: u64) -> Planet
    requires from { 1 ≤ k }
    requires to { k ≤ 65535 }
    requires units { units ≤ CAP }
{
    planet_with(alloc, k, [0; 11], fields, units)
}

/// A planet of player 1 with a shipyard and a lab.
#[tactic(auto, using(crate::proofs::Fresh::levels_of_workshops))]
fn workshops(alloc: Global, units: u64) -> Planet
    requires { units ≤ CAP }
{
    planet_with(alloc, 1, WORKSHOPS, 163, units)
}

/// The account of a player, with these technologies and so many units.
pub fn account_with(alloc: Global, k: u32, n: [u8; 14], units: u32) -> Result<Account, AllocError>
    requires from { 1 ≤ k }
    requires to { k ≤ 65535 }
    requires levels { AreTechsWithinCaps n [] }
    requires units { units ≤ UNITS }
{
    Ok(Account {
        player: Player { k },
        techs: Techs { n },
        planets: [HOME].to_vec(alloc)?,
        units,
        research: Vec::new(alloc),
    })
}

/// The account of player 1, without technologies and units.
#[tactic(auto, using(account_cell::proofs::Queues::caps_fresh))]
fn account(alloc: Global) -> Result<Account, AllocError> {
    account_with(alloc, 1, [0; 14], 0)
}

/// The same, with technologies and so many units.
#[tactic(auto, using(crate::proofs::Fresh::levels_learned))]
fn learned(alloc: Global, units: u32) -> Result<Account, AllocError>
    requires { units ≤ UNITS }
{
    account_with(alloc, 1, LEARNED, units)
}

/// These are asked for, and no fleet flies.
pub fn parts_of(alloc: Global, caller: Option<Account>, from: Option<Planet>) -> Parts {
    Parts {
        caller,
        from,
        to: None,
        to_owner: None,
        fleets: PartFleets {
            caller: Fleets::new(alloc),
            from: Fleets::new(alloc),
            to: Fleets::new(alloc),
            to_owner: Fleets::new(alloc),
        },
        seen: Vec::new(alloc),
    }
}

/// Player 1 asks, and this planet stands at the place.
fn parts(alloc: Global, planet: Planet) -> Result<Parts, AllocError> {
    Ok(parts_of(alloc, Some(account(alloc)?), Some(planet)))
}

/// Whether the caller's account counts the units of the planet.
#[tactic(auto, using(crate::proofs::Fresh::counts))]
fn is_counted(parts: &Parts) -> bool
    ensures { IsTrue result → AreCounted parts.now.caller parts.now.from }
{
    let (Some(account), Some(planet)) = (&parts.caller, &parts.from) else {
        return true;
    };
    planet.unit_total() <= account.units
}

/// What a line comes to at a moment.
pub fn asked(alloc: Global, parts: &mut Parts, line: &[u8], moment: u64) -> Result<Acted, Fail>
    requires { moment ≤ LATEST }
{
    let req = Request::read(line).ok_or("no request")?;
    if !is_counted(parts) {
        return Err(Fail::from("units are not counted"));
    }
    Ok(act(alloc, parts, &RULES, &req, moment)?)
}

/// A line is refused with this code.
pub fn refuses(
    rt: &impl Abort,
    alloc: Global,
    parts: &mut Parts,
    line: &[u8],
    code: u8,
) -> Result<(), Fail> {
    let acted = asked(alloc, parts, line, 0)?;
    assert_eq!(rt; acted.code, code);
    assert!(rt; acted.body.is_empty());
    Ok(())
}

/// A line is granted, and answered with this text.
pub fn grants(
    rt: &impl Abort,
    alloc: Global,
    parts: &mut Parts,
    line: &[u8],
    text: &[u8],
) -> Result<(), Fail> {
    let acted = asked(alloc, parts, line, 0)?;
    assert_eq!(rt; acted.code, 0);
    assert!(rt; acted.body.as_slice() == text);
    Ok(())
}

/// Each line is refused with its code.
pub fn refuses_each(
    rt: &impl Abort,
    alloc: Global,
    parts: &mut Parts,
    cases: &[(&[u8], u8)],
) -> Result<(), Fail> {
    'cases: for (line, code) in cases {
        refuses(rt, alloc, parts, line, *code)?;
    }
    Ok(())
}

/// Each line is granted, and answered with its text.
pub fn grants_each(
    rt: &impl Abort,
    alloc: Global,
    parts: &mut Parts,
    cases: &[(&[u8], &[u8])],
) -> Result<(), Fail> {
    'cases: for (line, text) in cases {
        grants(rt, alloc, parts, line, text)?;
    }
    Ok(())
}

/// A line is granted so many times, whatever the answer says.
fn fills(
    rt: &impl Abort,
    alloc: Global,
    parts: &mut Parts,
    line: &[u8],
    times: u8,
) -> Result<(), Fail> {
    'times: for _ in 0..times {
        let acted = asked(alloc, parts, line, 0)?;
        assert_eq!(rt; acted.code, 0);
    }
    Ok(())
}

/// The planet of player 1 is shown to its owner.
fn owner_is_shown(rt: &impl Abort, alloc: Global) -> Result<(), Fail> {
    let mut own = parts(alloc, planet(alloc, 1, 163, 500))?;
    let text =
        b"planet 1:1:1 1 -20 163 0\nstock 500 500 500\nhourly 20 10 0\nlimit 10000 10000 10000\nenergy 0 0\ndebris 0 0\n";
    grants(rt, alloc, &mut own, b"planet 1:1:1", text)
}

/// Player 1 is refused what only the owner of the planet is granted.
fn others_are_refused(rt: &impl Abort, alloc: Global) -> Result<(), Fail> {
    let mut other = parts(alloc, planet(alloc, 2, 163, 500))?;
    let cases = [
        (b"planet 1:1:1".as_slice(), NOT_YOURS),
        (b"build 1:1:1 metalmine", NOT_YOURS),
        (b"set 1:1:1 metalmine 3", NOT_YOURS),
        (b"research 1:1:1 energy", NOT_YOURS),
        (b"yard 1:1:1 launcher 1", NOT_YOURS),
    ];
    refuses_each(rt, alloc, &mut other, &cases)
}

#[test]
fn only_the_caller_is_shown_the_planet(rt: HostRuntime) -> Result<(), Fail> {
    let alloc = rt.alloc();
    owner_is_shown(&rt, alloc)?;
    others_are_refused(&rt, alloc)
}

/// Who is no player is told so.
fn nobody_is_told(rt: &impl Abort, alloc: Global) -> Result<(), Fail> {
    let mut nobody = parts_of(alloc, None, Some(planet(alloc, 1, 163, 500)));
    let cases = [
        (b"planet 1:1:1".as_slice(), NO_PLAYER),
        (b"build 1:1:1 metalmine", NO_PLAYER),
        (b"research 1:1:1 energy", NO_PLAYER),
        (b"account", NO_PLAYER),
    ];
    refuses_each(rt, alloc, &mut nobody, &cases)
}

/// Who names what is no planet is told so.
fn nowhere_is_told(rt: &impl Abort, alloc: Global) -> Result<(), Fail> {
    let mut nowhere = parts_of(alloc, Some(account(alloc)?), None);
    let cases = [
        (b"planet 1:1:1".as_slice(), NO_PLANET),
        (b"set 1:1:1 metalmine 3", NO_PLANET),
        (b"yard 1:1:1 launcher 1", NO_PLANET),
        (b"join 1 1:1:1 1:1:2 10 smallcargo=1 0 0 0", NO_PLANET),
    ];
    refuses_each(rt, alloc, &mut nowhere, &cases)
}

#[test]
fn who_is_no_player_and_what_is_no_planet_is_told(rt: HostRuntime) -> Result<(), Fail> {
    let alloc = rt.alloc();
    nobody_is_told(&rt, alloc)?;
    nowhere_is_told(&rt, alloc)
}

#[test]
fn a_building_starts_and_the_next_one_waits(rt: HostRuntime) -> Result<(), Fail> {
    let alloc = rt.alloc();
    let mut own = parts(alloc, planet(alloc, 1, 163, 500))?;
    let cases = [
        (
            b"build 1:1:1 metalmine".as_slice(),
            b"starts 1 108\n".as_slice(),
        ),
        (b"build 1:1:1 crystalstore", b"waits 2\n"),
        (
            b"planet 1:1:1",
            b"planet 1:1:1 1 -20 163 0\nstock 440 485 500\nhourly 20 10 0\nlimit 10000 10000 10000\nenergy 0 0\ndebris 0 0\nbuilding 0 metalmine 1 108\nwaiting 0 crystalstore\n",
        ),
    ];
    grants_each(&rt, alloc, &mut own, &cases)
}

#[test]
fn a_work_is_set(rt: HostRuntime) -> Result<(), Fail> {
    let alloc = rt.alloc();
    let mut own = parts(alloc, planet(alloc, 1, 163, 500))?;
    let cases = [
        (b"set 1:1:1 satellite 3".as_slice(), b"".as_slice()),
        (
            b"planet 1:1:1",
            b"planet 1:1:1 1 -20 163 0\nstock 500 500 500\nhourly 20 10 0\nlimit 10000 10000 10000\nenergy 0 0\ndebris 0 0\nset satellite 3\n",
        ),
    ];
    grants_each(&rt, alloc, &mut own, &cases)
}

/// A building that is too dear is refused, and one that requires another.
fn dear_buildings_are_refused(rt: &impl Abort, alloc: Global) -> Result<(), Fail> {
    let mut poor = parts(alloc, planet(alloc, 1, 163, 47))?;
    let cases = [
        (b"build 1:1:1 crystalmine".as_slice(), POOR),
        (b"build 1:1:1 shipyard", REQUIRES),
    ];
    refuses_each(rt, alloc, &mut poor, &cases)
}

/// A building for which no field is left is refused.
fn a_bare_planet_is_refused(rt: &impl Abort, alloc: Global) -> Result<(), Fail> {
    let mut bare = parts(alloc, planet(alloc, 1, 0, 500))?;
    refuses(rt, alloc, &mut bare, b"build 1:1:1 metalmine", NO_FIELDS)
}

/// The sixth building of a queue is refused.
fn a_full_queue_is_refused(rt: &impl Abort, alloc: Global) -> Result<(), Fail> {
    let mut full = parts(alloc, planet(alloc, 1, 163, 500))?;
    let line = b"build 1:1:1 metalmine";
    fills(rt, alloc, &mut full, line, 5)?;
    refuses(rt, alloc, &mut full, line, QUEUE_FULL)
}

#[test]
fn each_refusal_of_a_building_is_told(rt: HostRuntime) -> Result<(), Fail> {
    let alloc = rt.alloc();
    dear_buildings_are_refused(&rt, alloc)?;
    a_bare_planet_is_refused(&rt, alloc)?;
    a_full_queue_is_refused(&rt, alloc)
}

/// The building that runs is done.
#[tactic(auto, using(planet_cell::proofs::Starts::runs))]
fn finish(rt: &impl Abort, parts: &mut Parts) -> Result<(), Fail> {
    let Some(planet) = &mut parts.from else {
        return Err(Fail::from("no planet"));
    };
    let first = planet.first_building().ok_or("no building")?;
    assert!(rt; first.second <= LATEST);
    planet.finish_building(1);
    Ok(())
}

/// A metal store is built so many times, one after another.
fn builds(rt: &impl Abort, alloc: Global, parts: &mut Parts, times: u8) -> Result<(), Fail> {
    'times: for _ in 0..times {
        fills(rt, alloc, parts, b"build 1:1:1 metalstore", 1)?;
        finish(rt, parts)?;
    }
    Ok(())
}

#[test]
fn no_building_rises_above_its_cap(rt: HostRuntime) -> Result<(), Fail> {
    let alloc = rt.alloc();
    let mut rich = parts(alloc, planet(alloc, 1, 163, CAP))?;
    builds(&rt, alloc, &mut rich, 16)?;
    refuses(&rt, alloc, &mut rich, b"build 1:1:1 metalstore", LEVEL_CAP)
}

#[test]
fn an_account_lists_its_technologies_and_planets(rt: HostRuntime) -> Result<(), Fail> {
    let alloc = rt.alloc();
    let account = learned(alloc, 12)?;
    let text = b"account 1 12 0 1\ntech energy 3\ntech graviton 1\nplanet 1:1:1\n";
    assert!(rt; account_lines(alloc, &account, &Fleets::new(alloc))?.as_slice() == text.as_slice());
    Ok(())
}

#[test]
fn a_batch_is_paid_and_counts_for_the_account(rt: HostRuntime) -> Result<(), Fail> {
    let alloc = rt.alloc();
    let mut own = parts(alloc, workshops(alloc, 9000))?;
    let line = b"yard 1:1:1 launcher 2".as_slice();
    let cases = [
        (line, b"starts 2 1440\n".as_slice()),
        (line, b"waits 2\n"),
        (
            b"planet 1:1:1",
            b"planet 1:1:1 1 -20 163 4\nstock 1000 9000 9000\nhourly 20 10 0\nlimit 10000 10000 10000\nenergy 0 0\ndebris 0 0\nlevel robotics 2\nlevel shipyard 1\nlevel lab 1\nyard 0 launcher 2 1440\nyardwaiting 0 launcher 2\n",
        ),
        (b"account", b"account 1 4 0 1\nplanet 1:1:1\n"),
    ];
    grants_each(&rt, alloc, &mut own, &cases)
}

#[test]
fn a_technology_starts_and_the_next_one_waits(rt: HostRuntime) -> Result<(), Fail> {
    let alloc = rt.alloc();
    let mut own = parts(alloc, workshops(alloc, 1000))?;
    let line = b"research 1:1:1 energy".as_slice();
    let cases = [
        (line, b"starts 1 1440\n".as_slice()),
        (line, b"waits 2\n"),
        (
            b"account",
            b"account 1 0 0 1\nplanet 1:1:1\nresearch 0 energy 1 1440 1:1:1\nwaiting 0 energy 1:1:1\n",
        ),
        (
            b"planet 1:1:1",
            b"planet 1:1:1 1 -20 163 4\nstock 1000 200 600\nhourly 20 10 0\nlimit 10000 10000 10000\nenergy 0 0\ndebris 0 0\nlevel robotics 2\nlevel shipyard 1\nlevel lab 1\n",
        ),
    ];
    grants_each(&rt, alloc, &mut own, &cases)
}

/// The account and the planet of player 1, who has learned, with so many units and so many units of each resource.
fn learned_parts(alloc: Global, units: u32, resources: u64) -> Result<Parts, AllocError>
    requires units { units ≤ UNITS }
    requires resources { resources ≤ CAP }
{
    let account = learned(alloc, units)?;
    Ok(parts_of(alloc, Some(account), Some(workshops(alloc, resources))))
}

#[test]
fn each_refusal_of_units_is_told(rt: HostRuntime) -> Result<(), Fail> {
    let alloc = rt.alloc();
    let mut own = learned_parts(alloc, 99_990, 1_000_000)?;
    let cases = [
        (b"yard 1:1:1 smalldome 2".as_slice(), LEVEL_CAP),
        (b"yard 1:1:1 smalldome 1", REQUIRES),
        (b"yard 1:1:1 launcher 501", POOR),
        (b"yard 1:1:1 launcher 11", CEILING),
    ];
    refuses_each(&rt, alloc, &mut own, &cases)?;
    fills(&rt, alloc, &mut own, b"yard 1:1:1 launcher 2", 5)?;
    refuses(&rt, alloc, &mut own, b"yard 1:1:1 smalldome 2", QUEUE_FULL)
}

/// A technology that is at its cap is refused, one that requires another, and the sixth one of a queue.
fn what_is_no_research_is_refused(rt: &impl Abort, alloc: Global) -> Result<(), Fail> {
    let mut own = learned_parts(alloc, 0, 10_000)?;
    let cases = [
        (b"research 1:1:1 graviton".as_slice(), LEVEL_CAP),
        (b"research 1:1:1 plasma", REQUIRES),
    ];
    refuses_each(rt, alloc, &mut own, &cases)?;
    fills(rt, alloc, &mut own, b"research 1:1:1 energy", 5)?;
    refuses(rt, alloc, &mut own, b"research 1:1:1 graviton", QUEUE_FULL)
}

/// A technology that is too dear is refused.
fn dear_research_is_refused(rt: &impl Abort, alloc: Global) -> Result<(), Fail> {
    let mut poor = parts(alloc, workshops(alloc, 799))?;
    refuses(rt, alloc, &mut poor, b"research 1:1:1 energy", POOR)
}

#[test]
fn each_refusal_of_research_is_told(rt: HostRuntime) -> Result<(), Fail> {
    let alloc = rt.alloc();
    what_is_no_research_is_refused(&rt, alloc)?;
    dear_research_is_refused(&rt, alloc)
}
