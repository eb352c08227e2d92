// The parts of a base, as its bytes tell them.
ghost use Rattle.std.specs.Prelude.{◌≤◌, vec_len};
ghost use Rattle.std.specs.Option.{ForSome};
ghost use Rattle.base_bytes.specs.declared.base.TheConstants.{MOST_REQUESTS};
ghost use Rattle.base_bytes.specs.declared.limits.TheConstants.{MOST_PLANETS, MOST_PLAYERS};
ghost use Rattle.base_ids.specs.declared.numbers.TheConstants.{LAST_NUMBER};
ghost use Rattle.catalog.specs.declared.settings.TheConstants.{TOP_SPEED};
ghost use Rattle.ports.specs.declared.clock.TheConstants.{LATEST};
ghost use Rattle.tick_model.specs.declared.codes.TheConstants.{MOST_QUEUED};

use base_ids::{Coord, Player};
use catalog::{Mission, SpeedSetting};
use planet_cell::{Batch, BuildingItem};
use rates::Resources;
use tick_model::Debris;

/// What the first 40 bytes of a base tell, behind the mark.
#[derive(Clone, Copy)]
pub struct Head {
    pub seed: u64,
    pub speed: u32,
    pub capacity: u32,
    pub moment: u64,
    pub number: u64,
    pub ghost speed_from: { 1 ≤ speed },
    pub ghost speed_to: { speed ≤ TOP_SPEED },
    pub ghost capacity_from: { 1 ≤ capacity },
    pub ghost capacity_to: { capacity ≤ MOST_REQUESTS },
    pub ghost in_time: { moment ≤ LATEST },
    pub ghost number_to: { number ≤ LAST_NUMBER },
}

/// How many accounts, planets and fleets a base has.
#[derive(Clone, Copy)]
pub struct Sizes {
    pub accounts: usize,
    pub planets: usize,
    pub fleets: usize,
    pub ghost few_accounts: { accounts ≤ MOST_PLAYERS },
    pub ghost few_planets: { planets ≤ MOST_PLANETS },
}

/// What a planet is, if its place and its owner have names.
#[derive(Drop)]
pub struct Ground {
    pub at: Option<Coord>,
    pub owner: Option<Player>,
    pub temperature: i16,
    pub fields: u16,
    pub levels: [u8; 11],
    pub tenths: [u8; 5],
}

/// What stands on a planet and around it.
#[derive(Drop)]
pub struct Goods {
    pub stock: Resources,
    pub debris: Debris,
    pub units: [u32; 22],
}

/// What a planet builds, if it builds no more than it may.
#[derive(Drop)]
pub struct Works {
    pub buildings: Option<Vec<BuildingItem>>,
    pub yard: Option<Vec<Batch>>,
    pub ghost few_buildings: { ForSome buildings (λ queue. vec_len queue ≤ MOST_QUEUED) },
    pub ghost few_batches: { ForSome yard (λ queue. vec_len queue ≤ MOST_QUEUED) },
}

/// Who flies in which group, and from where to where, if all of these have names.
#[derive(Drop)]
pub struct Course {
    pub number: u64,
    pub group: u64,
    pub owner: Option<Player>,
    pub mission: Option<Mission>,
    pub outbound: Option<bool>,
    pub origin: Option<Coord>,
    pub target: Option<Coord>,
}

/// How fast a fleet flies, if it can, when it was sent, and when it arrives or is back.
#[derive(Drop)]
pub struct Timing {
    pub setting: Option<SpeedSetting>,
    pub launch: u64,
    pub second: u64,
}
