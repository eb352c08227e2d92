// Whether the fleets of a base keep the rules, each for itself.
ghost use Rattle.std.specs.Prelude.{◌≡◌, ◌↔◌, ◌<◌, ◌≤◌, ◌^◌, All, AllPairs, IsTrue, false, map, true};
ghost use Rattle.base_bytes.specs.Sound.{IsInGroup, IsSoundFleet};
ghost use Rattle.base_bytes.specs.Told.{DoRise, IsOwnAt};
ghost use Rattle.base_bytes.specs.declared.base.Base.{Base};
ghost use Rattle.base_ids.specs.Cells.{same_coord, same_player};
ghost use Rattle.fleet_rec.specs.Fleet.{cargo_seen, fleet_seen};
ghost use Rattle.flight.specs.Freight.{capacity_of};
ghost use Rattle.tick_model.specs.Flights.{cargo_units};
ghost use Rattle.tick_model.specs.Sending.{suits};

use crate::base::Base;
use crate::fleets::owner_at;
use base_ids::{Coord, Player};
use catalog::{Mission, Ships};
use fleet_rec::{Fleet, Fleets};
use planet_cell::Planet;

/// Whether fleets rise strictly by number.
pub fn fleets_rise(fleets: &Fleets) -> bool
    ensures { IsTrue result ↔ AllPairs (λ first second. first.number < second.number) fleets.now }
{
    fleets
        .as_slice()
        .is_sorted_by(|first, second| first.number < second.number)
}

/// Whether each fleet of a base is sound. The planets rise.
pub fn all_fleets_sound(base: &Base) -> bool
    requires { DoRise base.now.planets.items }
    ensures { IsTrue result ↔ All (IsSoundFleet base.now) base.now.fleets }
{
    are_sound(base, base.fleets.as_slice())
}

fn are_sound(base: &Base, fleets: &[Fleet]) -> bool
    requires { DoRise base.now.planets.items }
    ensures { IsTrue result ↔ All (IsSoundFleet base.now) (map fleet_seen fleets.now) }
{
    'fleets: for fleet in fleets {
        if !is_sound_fleet(base, fleet) {
            return false;
        }
    }
    true
}

/// Whether a fleet is sound in a base whose planets rise. It looks at a number of planets that grows with the logarithm of how many
/// there are.
pub fn is_sound_fleet(base: &Base, fleet: &Fleet) -> bool
    requires { DoRise base.now.planets.items }
    ensures { IsTrue result ↔ IsSoundFleet base.now (fleet_seen fleet.now) }
{
    is_numbered(fleet, base.number)
        && flies_between(fleet, &base.planets)
        && is_fit(fleet)
        && is_flying(fleet, base.moment)
}

// Whether it has the number of a request up to the last one, and flies in a group.
fn is_numbered(fleet: &Fleet, last: u64) -> bool
    ensures { IsTrue result ↔ ((1 ≤ fleet.now.number) × (fleet.now.number ≤ last) × IsInGroup fleet.now.mission fleet.now.number fleet.now.group) }
{
    fleet.number >= 1
        && fleet.number <= last
        && is_in_group(fleet.mission, fleet.number, fleet.group)
}

fn is_in_group(mission: Mission, number: u64, group: u64) -> bool
    ensures { IsTrue result ↔ IsInGroup mission number group }
{
    match mission {
        Mission::Attack => group >= 1 && group <= number,
        Mission::Transport | Mission::Deploy | Mission::Harvest => group == number,
    }
}

// Whether it flies from a planet of its owner to another planet, of the player whom it names.
fn flies_between(fleet: &Fleet, planets: &[Planet]) -> bool
    requires { DoRise planets.now }
    ensures { IsTrue result ↔ (IsOwnAt planets.now fleet.now.owner fleet.now.origin × IsOwnAt planets.now fleet.now.target_owner fleet.now.target
        × (same_coord fleet.now.origin fleet.now.target ≡ false)) }
{
    is_own_at(planets, fleet.owner, fleet.origin)
        && is_own_at(planets, fleet.target_owner, fleet.target)
        && !is_same(fleet.origin, fleet.target)
}

// Whether a player's planet stands at a place.
fn is_own_at(planets: &[Planet], player: Player, at: Coord) -> bool
    requires { DoRise planets.now }
    ensures { IsTrue result ↔ IsOwnAt planets.now player at }
{
    match owner_at(planets, at) {
        Some(owner) => owner == player,
        None => false,
    }
}

// Whether both are the same place.
fn is_same(one: Coord, other: Coord) -> bool
    ensures { result ≡ same_coord one other }
{
    one.g == other.g && one.s == other.s && one.p == other.p
}

// Whether its mission suits the owner of its target, and its ships carry its cargo.
fn is_fit(fleet: &Fleet) -> bool
    ensures { IsTrue result ↔ ((suits fleet.now.mission (same_player fleet.now.target_owner fleet.now.owner) fleet.now.ships.n ≡ true)
        × (cargo_units (cargo_seen fleet.now.cargo) ≤ capacity_of fleet.now.ships.n)) }
{
    let cargo = fleet.cargo;
    suits(
        fleet.mission,
        fleet.target_owner.k == fleet.owner.k,
        &fleet.ships,
    ) && cargo.m + cargo.c + cargo.d <= flight::capacity(&fleet.ships)
}

/// Where the recyclers stand among the ships.
const RECYCLERS: usize = 10;

// Whether a mission suits the owner of the target, and the ships that are sent.
fn suits(mission: Mission, is_own: bool, ships: &Ships) -> bool
    ensures { result ≡ suits mission is_own ships.now.n }
{
    match mission {
        Mission::Transport => true,
        Mission::Deploy => is_own,
        Mission::Harvest => ships.n[RECYCLERS] >= 1,
        Mission::Attack => !is_own,
    }
}

// Whether it was sent by a moment, and lands past it and in time.
fn is_flying(fleet: &Fleet, moment: u64) -> bool
    ensures { IsTrue result ↔ ((fleet.now.launch ≤ moment) × (moment < fleet.now.second) × (fleet.now.second < 2 ^ 42)) }
{
    fleet.launch <= moment && moment < fleet.second && fleet.second < 1 << 42
}
