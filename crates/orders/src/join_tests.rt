ghost use Rattle.std.specs.Prelude.{◌≤◌};
ghost use Rattle.base_ids.specs.declared.numbers.TheConstants.{LAST_NUMBER};
ghost use Rattle.ports.specs.declared.clock.TheConstants.{LATEST};

use crate::Parts;
use crate::fleet_tests::parts;
use crate::tests::{grants, grants_each, refuses, refuses_each};
use base_ids::{Coord, Player};
use catalog::{Amounts, Mission, Ships, SpeedSetting};
use fleet_rec::Fleet;
use std::alloc::Global;
use std::process::Abort;
use std::test::Fail;
use tick_model::{BAD_MISSION, GROUP_FULL, NO_FLEET, NO_SHIPS, NO_SLOT, TOO_LATE};

/// Joins group 7 with a small cargo, which takes 4972 seconds to the planet of player 2.
const JOIN: &[u8] = b"join 7 1:1:1 1:1:2 10 smallcargo=1 0 0 0";

/// A fleet of player 3 that flies in a group to the planet of player 2, to arrive at a second.
fn flight(group: u64, mission: Mission, second: u64) -> Fleet
    requires group { group ≤ LAST_NUMBER }
    requires second { second ≤ LATEST }
{
    Fleet {
        number: group,
        group,
        owner: Player { k: 3 },
        mission,
        origin: Coord { g: 1, s: 1, p: 3 },
        target: Coord { g: 1, s: 1, p: 2 },
        target_owner: Player { k: 2 },
        outbound: true,
        setting: SpeedSetting { p: 10 },
        launch: 0,
        second,
        cargo: Amounts { m: 0, c: 0, d: 0 },
        ships: Ships {
            n: [2, 0, 0, 0, 0, 0, 0, 0, 0, 0, 0, 0, 0],
        },
    }
}

/// Such a fleet flies to the planet of player 2.
fn fly(parts: &mut Parts, group: u64, mission: Mission, second: u64, times: u8) -> Result<(), Fail>
    requires group { group ≤ LAST_NUMBER }
    requires second { second ≤ LATEST }
{
    'fleets: for _ in 0..times {
        parts.fleets.to.push(flight(group, mission, second))?;
    }
    Ok(())
}

/// Joining is refused with this code, and changes nothing that a reply shows.
fn keeps(rt: &impl Abort, alloc: Global, own: &mut Parts, code: u8) -> Result<(), Fail> {
    refuses(rt, alloc, own, JOIN, code)?;
    let cases = [
        (
            b"planet 1:1:1".as_slice(),
            b"planet 1:1:1 1 -20 163 0\nstock 500 500 500\nhourly 20 10 0\nlimit 10000 10000 10000\nenergy 0 0\ndebris 0 0\nunits smallcargo 2\n".as_slice(),
        ),
        (b"fleets", b""),
    ];
    grants_each(rt, alloc, own, &cases)?;
    assert!(rt; own.fleets.from.is_empty());
    assert!(rt; own.fleets.to_owner.is_empty());
    Ok(())
}

/// Group 7 has a fleet of player 3 that arrives at second 5000, and player 1 joins it.
fn joins(rt: &impl Abort, alloc: Global, own: &mut Parts) -> Result<(), Fail> {
    fly(own, 7, Mission::Attack, 5000, 1)?;
    let cases = [
        (JOIN, b"arrives 5000 fuel 2\n".as_slice()),
        (
            b"fleets",
            b"fleet 0 7 attack 1:1:1 1:1:2 out 5000 0 0 0 smallcargo=1\n",
        ),
    ];
    grants_each(rt, alloc, own, &cases)?;
    assert_eq!(rt; own.fleets.to.len(), 2);
    assert_eq!(rt; own.fleets.to.companions(Coord { g: 1, s: 1, p: 2 }, 7), 2);
    Ok(())
}

#[test]
fn a_fleet_arrives_with_the_raid_that_it_joins(rt: HostRuntime) -> Result<(), Fail> {
    let alloc = rt.alloc();
    let mut own = parts(&rt, alloc, 500)?;
    joins(&rt, alloc, &mut own)?;
    let cases = [
        (JOIN, NO_SLOT),
        (b"join 7 1:1:1 1:1:2 10 smallcargo=2 0 0 0", NO_SHIPS),
    ];
    refuses_each(&rt, alloc, &mut own, &cases)
}

/// Group 7 isn't there, and then is no raid.
fn no_raid_is_joined(rt: &impl Abort, alloc: Global, own: &mut Parts) -> Result<(), Fail> {
    keeps(rt, alloc, own, NO_FLEET)?;
    fly(own, 8, Mission::Attack, 5000, 8)?;
    fly(own, 7, Mission::Transport, 5000, 7)?;
    keeps(rt, alloc, own, NO_FLEET)
}

/// Group 7 is full, and then flies to where no planet is.
fn no_full_raid_is_joined(rt: &impl Abort, alloc: Global, own: &mut Parts) -> Result<(), Fail> {
    fly(own, 7, Mission::Attack, 4971, 1)?;
    keeps(rt, alloc, own, GROUP_FULL)?;
    own.to = None;
    keeps(rt, alloc, own, NO_FLEET)
}

#[test]
fn only_a_raid_is_joined(rt: HostRuntime) -> Result<(), Fail> {
    let alloc = rt.alloc();
    let mut own = parts(&rt, alloc, 500)?;
    no_raid_is_joined(&rt, alloc, &mut own)?;
    no_full_raid_is_joined(&rt, alloc, &mut own)
}

/// A raid that arrives a second before the joiner could isn't joined.
fn is_too_late(rt: &impl Abort, alloc: Global) -> Result<(), Fail> {
    let mut late = parts(rt, alloc, 500)?;
    fly(&mut late, 7, Mission::Attack, 4971, 1)?;
    keeps(rt, alloc, &mut late, TOO_LATE)
}

/// A raid of seven fleets that arrives when the joiner can is joined.
fn is_in_time(rt: &impl Abort, alloc: Global) -> Result<(), Fail> {
    let mut own = parts(rt, alloc, 500)?;
    fly(&mut own, 7, Mission::Attack, 4972, 7)?;
    grants(rt, alloc, &mut own, JOIN, b"arrives 4972 fuel 2\n")
}

#[test]
fn a_raid_is_joined_in_time(rt: HostRuntime) -> Result<(), Fail> {
    let alloc = rt.alloc();
    is_too_late(&rt, alloc)?;
    is_in_time(&rt, alloc)
}

#[test]
fn nobody_joins_a_raid_on_an_own_planet(rt: HostRuntime) -> Result<(), Fail> {
    let alloc = rt.alloc();
    let mut own = parts(&rt, alloc, 500)?;
    fly(&mut own, 7, Mission::Attack, 5000, 1)?;
    if let Some(target) = &mut own.to {
        target.owner = Player { k: 1 };
    }
    keeps(&rt, alloc, &mut own, BAD_MISSION)?;
    let home = b"join 7 1:1:1 1:1:1 10 smallcargo=1 0 0 0";
    refuses(&rt, alloc, &mut own, home, NO_FLEET)
}
