ghost use Rattle.std.specs.Prelude.{◌≡◌, ◌&&◌, map, nat_le, option_map};
ghost use Rattle.base_ids.specs.Cells.{same_cell};
ghost use Rattle.base_ids.specs.declared.cell_id.CellId.TheVariants.{Planet};
ghost use Rattle.fleet_rec.specs.Fleet.{fleet_seen};
ghost use Rattle.fleet_rec.specs.Fleets.{coming_by, first_fleet, sooner_fleet};
ghost use Rattle.tick_model.specs.Flights.{landing};

use crate::fleet::Fleet;
use crate::fleets::Fleets;
use base_ids::Coord;

impl Fleets {
    /// The fleet that comes first to a place by a second: it lands, or fights with its group.
    pub fn first_coming(&self, at: Coord, second: u64) -> Option<Fleet>
        ensures { option_map fleet_seen result ≡ first_fleet (coming_by at second self.now) }
    {
        first_coming(&self.items, at, second)
    }
}

/// The fleet that comes first, of those that come to a place by a second.
fn first_coming(fleets: &[Fleet], at: Coord, second: u64) -> Option<Fleet>
    ensures { option_map fleet_seen result ≡ first_fleet (coming_by at second (map fleet_seen fleets.now)) }
{
    let mut first = None;
    let mut left = fleets.len();
    'fleets: while left > 0 {
        left -= 1;
        let fleet = fleets[left];
        if is_due(&fleet, at, second) {
            first = Some(sooner(fleet, first));
        }
    }
    first
}

/// Whether a fleet comes to a place by a second.
fn is_due(fleet: &Fleet, at: Coord, second: u64) -> bool
    ensures { result ≡ (same_cell (Planet (landing (fleet_seen fleet.now))) (Planet at) && nat_le fleet.now.second second) }
{
    let place = fleet.landing();
    place.g == at.g && place.s == at.s && place.p == at.p && fleet.second <= second
}

/// The one that comes first of two fleets, of which the second may be missing.
fn sooner(fleet: Fleet, other: Option<Fleet>) -> Fleet
    ensures { fleet_seen result ≡ sooner_fleet (fleet_seen fleet) (option_map fleet_seen other) }
{
    let Some(other) = other else {
        return fleet;
    };
    if other.is_before(&fleet) {
        other
    } else {
        fleet
    }
}
