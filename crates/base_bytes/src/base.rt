ghost use Rattle.std.specs.Prelude.{◌≤◌};
ghost use Rattle.base_bytes.specs.declared.base.TheConstants.{MOST_REQUESTS};
ghost use Rattle.base_ids.specs.declared.numbers.TheConstants.{LAST_NUMBER};
ghost use Rattle.catalog.specs.declared.settings.TheConstants.{TOP_SPEED};
ghost use Rattle.ports.specs.declared.clock.TheConstants.{LATEST};

use account_cell::Account;
use fleet_rec::Fleets;
use planet_cell::Planet;

/// The most requests that the history of a universe may keep.
pub const MOST_REQUESTS: u32 = 262144;

/// A universe at one moment, in memory: the seed of all draws; the speed of its economy, 1 to `catalog::TOP_SPEED`; how many
/// requests its history may keep, 1 to `MOST_REQUESTS`; the second at which all of it stands, at most `ports::LATEST`; the number
/// of the last request, at most `base_ids::LAST_NUMBER`; its accounts by player; its planets by coordinate; and its fleets by number.
#[derive(Debug, Drop)]
pub struct Base {
    pub seed: u64,
    pub speed: u32,
    pub capacity: u32,
    pub moment: u64,
    pub number: u64,
    pub accounts: Vec<Account>,
    pub planets: Vec<Planet>,
    pub fleets: Fleets,
    pub ghost speed_from: { 1 ≤ speed },
    pub ghost speed_to: { speed ≤ TOP_SPEED },
    pub ghost capacity_from: { 1 ≤ capacity },
    pub ghost capacity_to: { capacity ≤ MOST_REQUESTS },
    pub ghost in_time: { moment ≤ LATEST },
    pub ghost number_to: { number ≤ LAST_NUMBER },
}
