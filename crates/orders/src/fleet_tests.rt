ghost use Rattle.std.specs.Prelude.{◌≤◌};
ghost use Rattle.catalog.specs.declared.amounts.TheConstants.{CAP};

use crate::tests::{
    account_with, asked, grants, grants_each, parts_of, planet, refuses, refuses_each,
};
use crate::{PartFleets, Parts, SystemPlanet};
use base_ids::{Coord, Player};
use catalog::{Amounts, Ships, UNITS};
use fleet_rec::Fleets;
use planet_cell::Planet;
use std::alloc::Global;
use std::process::Abort;
use std::test::Fail;
use tick_model::{
    BAD_MISSION, Debris, NO_FLEET, NO_PLANET, NO_PLAYER, NO_ROOM, NO_SHIPS, NO_SLOT, NOT_OUTBOUND,
    NOT_YOURS, POOR,
};

/// Two small cargos.
const CARGOS: Ships = Ships {
    n: [2, 0, 0, 0, 0, 0, 0, 0, 0, 0, 0, 0, 0],
};

/// The planet of player 1, with so many units of each resource and two small cargos.
fn harbour(rt: &impl Abort, alloc: Global, units: u64) -> Planet
    requires { units ≤ CAP }
{
    let mut planet = planet(alloc, 1, 163, units);
    assert!(rt; planet.unit_total() <= UNITS - 2);
    planet.moor(Amounts { m: 0, c: 0, d: 0 }, &CARGOS);
    planet
}

/// Player 1 sends to the planet of player 2, and has so many units of each resource and two small cargos.
#[tactic(auto, using(account_cell::proofs::Queues::caps_fresh))]
pub fn parts(rt: &impl Abort, alloc: Global, units: u64) -> Result<Parts, Fail>
    requires { units ≤ CAP }
{
    let account = account_with(alloc, 1, [0; 14], 2)?;
    let mut parts = parts_of(alloc, Some(account), Some(harbour(rt, alloc, units)));
    let mut target = planet(alloc, 2, 163, 0);
    target.at = Coord { g: 1, s: 1, p: 2 };
    parts.to = Some(target);
    parts.to_owner = Some(account_with(alloc, 2, [0; 14], 0)?);
    Ok(parts)
}

/// The fleet that joined these last gets a number.
fn number_in(rt: &impl Abort, fleets: &mut Fleets, number: u64)
    requires { number ≤ 1000 }
{
    assert!(rt; fleets.len() > 0);
    fleets.number_last(number);
}

/// The fleet that was sent gets a number, in all parts.
fn number(rt: &impl Abort, fleets: &mut PartFleets, number: u64)
    requires { number ≤ 1000 }
{
    number_in(rt, &mut fleets.caller, number);
    number_in(rt, &mut fleets.from, number);
    number_in(rt, &mut fleets.to, number);
    number_in(rt, &mut fleets.to_owner, number);
}

/// A fleet is sent, paid by the planet, and gets number 7.
fn is_sent(rt: &impl Abort, alloc: Global, own: &mut Parts) -> Result<(), Fail> {
    let cases = [
        (
            b"send 1:1:1 1:1:2 transport 10 smallcargo=2 100 0 0".as_slice(),
            b"arrives 4972 fuel 3\n".as_slice(),
        ),
        (
            b"planet 1:1:1",
            b"planet 1:1:1 1 -20 163 0\nstock 400 500 497\nhourly 20 10 0\nlimit 10000 10000 10000\nenergy 0 0\ndebris 0 0\n",
        ),
    ];
    grants_each(rt, alloc, own, &cases)?;
    number(rt, &mut own.fleets, 7);
    Ok(())
}

/// The fleet that was sent is shown, and no other one is called back.
fn is_out(rt: &impl Abort, alloc: Global, own: &mut Parts) -> Result<(), Fail> {
    let cases = [
        (
            b"account".as_slice(),
            b"account 1 2 1 1\nplanet 1:1:1\n".as_slice(),
        ),
        (
            b"fleets",
            b"fleet 7 7 transport 1:1:1 1:1:2 out 4972 100 0 0 smallcargo=2\n",
        ),
    ];
    grants_each(rt, alloc, own, &cases)?;
    refuses(rt, alloc, own, b"recall 8", NO_FLEET)
}

/// The fleet is called back at second 100.
fn is_called_back(rt: &impl Abort, alloc: Global, own: &mut Parts) -> Result<(), Fail> {
    let acted = asked(alloc, own, b"recall 7", 100)?;
    assert_eq!(rt; acted.code, 0);
    assert!(rt; acted.body.as_slice() == b"back 200\n".as_slice());
    Ok(())
}

/// The fleet flies back, belongs to its owner alone, and isn't called back once more.
fn flies_back(rt: &impl Abort, alloc: Global, own: &mut Parts) -> Result<(), Fail> {
    let back = b"fleet 7 7 transport 1:1:1 1:1:2 back 200 100 0 0 smallcargo=2\n";
    grants(rt, alloc, own, b"fleets", back)?;
    assert_eq!(rt; own.fleets.from.len(), 1);
    assert!(rt; own.fleets.to.is_empty());
    assert!(rt; own.fleets.to_owner.is_empty());
    refuses(rt, alloc, own, b"recall 7", NOT_OUTBOUND)
}

#[test]
fn a_fleet_is_sent_and_called_back(rt: HostRuntime) -> Result<(), Fail> {
    let alloc = rt.alloc();
    let mut own = parts(&rt, alloc, 500)?;
    is_sent(&rt, alloc, &mut own)?;
    is_out(&rt, alloc, &mut own)?;
    is_called_back(&rt, alloc, &mut own)?;
    flies_back(&rt, alloc, &mut own)
}

/// What is no fleet that the caller could send is refused.
fn no_fleet_is_sent(rt: &impl Abort, alloc: Global, own: &mut Parts) -> Result<(), Fail> {
    let cases = [
        (
            b"send 1:1:1 1:1:2 deploy 10 smallcargo=3 0 0 0".as_slice(),
            NO_SHIPS,
        ),
        (
            b"send 1:1:1 1:1:2 deploy 10 smallcargo=1 0 0 0",
            BAD_MISSION,
        ),
        (
            b"send 1:1:1 1:1:1 transport 10 smallcargo=1 0 0 0",
            BAD_MISSION,
        ),
        (
            b"send 1:1:1 1:1:2 transport 10 smallcargo=1 4999 0 0",
            NO_ROOM,
        ),
        (b"send 1:1:1 1:1:2 transport 10 smallcargo=1 501 0 0", POOR),
        (b"send 1:1:1 1:1:2 transport 10 smallcargo=1 0 0 499", POOR),
    ];
    refuses_each(rt, alloc, own, &cases)
}

/// A line that sends a small cargo with all the deuterium that is left.
const SEND: &[u8] = b"send 1:1:1 1:1:2 transport 10 smallcargo=1 0 0 498";

/// A fleet is sent, and then no other one has a slot.
fn no_slot_is_left(rt: &impl Abort, alloc: Global, own: &mut Parts) -> Result<(), Fail> {
    grants(rt, alloc, own, SEND, b"arrives 4972 fuel 2\n")?;
    refuses(rt, alloc, own, SEND, NO_SLOT)
}

/// No fleet is sent from a planet of player 2, and none from where no planet is.
fn no_origin_is_own(rt: &impl Abort, alloc: Global, own: &mut Parts) -> Result<(), Fail> {
    own.from = Some(planet(alloc, 2, 163, 0));
    refuses(rt, alloc, own, SEND, NOT_YOURS)?;
    own.from = None;
    refuses(rt, alloc, own, SEND, NO_PLANET)
}

/// Who is no player has no fleets.
fn nobody_has_fleets(rt: &impl Abort, alloc: Global, own: &mut Parts) -> Result<(), Fail> {
    own.caller = None;
    let cases = [
        (SEND, NO_PLAYER),
        (b"fleets", NO_PLAYER),
        (b"recall 7", NO_PLAYER),
    ];
    refuses_each(rt, alloc, own, &cases)
}

#[test]
fn each_refusal_of_a_fleet_is_told(rt: HostRuntime) -> Result<(), Fail> {
    let alloc = rt.alloc();
    let mut own = parts(&rt, alloc, 500)?;
    no_fleet_is_sent(&rt, alloc, &mut own)?;
    no_slot_is_left(&rt, alloc, &mut own)?;
    no_origin_is_own(&rt, alloc, &mut own)?;
    nobody_has_fleets(&rt, alloc, &mut own)
}

/// The system shows a planet of player 1 at this place, with so much metal and 50 crystal in its debris.
fn see(own: &mut Parts, at: Coord, metal: u64) -> Result<(), Fail> {
    own.seen.push(SystemPlanet {
        at,
        owner: Player { k: 1 },
        debris: Debris { metal, crystal: 50 },
    })?;
    Ok(())
}

#[test]
fn a_system_lists_its_planets(rt: HostRuntime) -> Result<(), Fail> {
    let alloc = rt.alloc();
    let mut own = parts(&rt, alloc, 0)?;
    see(&mut own, Coord { g: 1, s: 1, p: 1 }, 0)?;
    see(&mut own, Coord { g: 1, s: 1, p: 2 }, 300)?;
    let text = b"at 1:1:1 1 0 50\nat 1:1:2 1 300 50\n";
    grants(&rt, alloc, &mut own, b"system 1:1", text)
}
