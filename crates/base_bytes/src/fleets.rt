// Fleets, read from bytes.
ghost use Rattle.std.specs.Prelude.{◌≡◌, ◌++◌, Bool, IfSome, IsSomeAnd, List, Some, ℕ};
ghost use Rattle.base_bytes.specs.Spelling.{fleet_bytes, flight_bytes, load_of, stage_number, timing_bytes};
ghost use Rattle.base_bytes.specs.Told.{DoRise, FleetFits, IsOwnAt, course_of, timing_of};
ghost use Rattle.base_ids.specs.declared.player.Player.{Player};
ghost use Rattle.fleet_rec.specs.Fleet.{fleet_seen};
ghost use Rattle.fleet_rec.specs.declared.fleet.Fleet.{Fleet};

use crate::fields::next_player;
use crate::parts::{Course, Timing};
use crate::queues::next_coord;
use base_ids::{Coord, LAST_NUMBER, Player};
use fleet_rec::Fleet;
use planet_cell::Planet;
use ports::LATEST;
use records::fields::Load;
use records::numbers::Numbers;
use records::readers::next_load;
use records::values::{cargo, mission, ships, speed_setting};

/// The next fleet, if its target is one of these planets, which rise. Its bytes don't tell whose the target is.
pub fn next_fleet(numbers: &mut Numbers, planets: &[Planet]) -> Option<Fleet>
    ensures fleet { (fleet : Fleet) (more : List ℕ) → DoRise planets.now → FleetFits planets.now fleet → numbers.old.rest.now ≡ fleet_bytes (fleet_seen fleet) ++ more
        → IsSomeAnd result (λ found. fleet_seen found ≡ fleet_seen fleet) × (numbers.new.rest.now ≡ more) }
    ensures owner { IfSome result (λ found. IsOwnAt planets.now found.target_owner found.target) }
{
    let course = next_course(numbers);
    let timing = next_timing(numbers);
    let load = next_load(numbers);
    fleet_of(course, timing, &load, planets)
}

fn next_course(numbers: &mut Numbers) -> Course
    ensures { (fleet : Fleet) (more : List ℕ) → numbers.old.rest.now ≡ flight_bytes (fleet_seen fleet) ++ more
        → (result ≡ course_of fleet) × (numbers.new.rest.now ≡ more) }
{
    let number = numbers.next_u64();
    let group = numbers.next_u64();
    let owner = next_player(numbers);
    let mission = mission(numbers.next_u8());
    let outbound = is_outbound(numbers.next_u8());
    let origin = next_coord(numbers);
    let target = next_coord(numbers);
    Course {
        number,
        group,
        owner,
        mission,
        outbound,
        origin,
        target,
    }
}

// Whether the fleet of a stage flies out, if there is such a stage.
fn is_outbound(stage: u8) -> Option<bool>
    ensures { (outbound : Bool) → stage ≡ stage_number outbound → result ≡ Some outbound }
{
    match stage {
        1 => Some(true),
        2 => Some(false),
        _ => None,
    }
}

fn next_timing(numbers: &mut Numbers) -> Timing
    ensures { (fleet : Fleet) (more : List ℕ) → numbers.old.rest.now ≡ timing_bytes (fleet_seen fleet) ++ more
        → (result ≡ timing_of fleet) × (numbers.new.rest.now ≡ more) }
{
    let setting = speed_setting(numbers.next_u8());
    let launch = numbers.next_u64();
    let second = numbers.next_u64();
    Timing {
        setting,
        launch,
        second,
    }
}

// The fleet that flies so with this load, if a fleet can.
fn fleet_of(course: Course, timing: Timing, load: &Load, planets: &[Planet]) -> Option<Fleet>
    ensures fleet { (fleet : Fleet) → DoRise planets.now → FleetFits planets.now fleet → course ≡ course_of fleet → timing ≡ timing_of fleet
        → load.now ≡ load_of (fleet_seen fleet) → IsSomeAnd result (λ found. fleet_seen found ≡ fleet_seen fleet) }
    ensures owner { IfSome result (λ found. IsOwnAt planets.now found.target_owner found.target) }
{
    let (Some(owner), Some(mission), Some(outbound)) = (
        course.owner,
        course.mission,
        course.outbound,
    ) else {
        return None;
    };
    let (Some(origin), Some(target)) = (course.origin, course.target) else {
        return None;
    };
    let setting = timing.setting?;
    let cargo = cargo(load)?;
    let ships = ships(load)?;
    let target_owner = owner_at(planets, target)?;
    if course.number > LAST_NUMBER || course.group > LAST_NUMBER {
        return None;
    }
    if timing.launch > LATEST || timing.second >= 1 << 42 {
        return None;
    }
    Some(Fleet {
        number: course.number,
        group: course.group,
        owner,
        mission,
        origin,
        target,
        target_owner,
        outbound,
        setting,
        launch: timing.launch,
        second: timing.second,
        cargo,
        ships,
    })
}

/// Whose the planet at a place is, of planets that rise. It looks at a number of them that grows with the logarithm of how many
/// there are.
pub fn owner_at(planets: &[Planet], at: Coord) -> Option<Player>
    ensures owner { (owner : Player) → DoRise planets.now → IsOwnAt planets.now owner at → result ≡ Some owner }
    ensures own { IfSome result (λ owner. IsOwnAt planets.now owner at) }
{
    match planets.binary_search_by_key(&at, |planet| planet.at) {
        Ok(place) => Some(planets[place].owner),
        Err(_) => None,
    }
}
