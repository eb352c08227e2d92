ghost use Rattle.std.specs.Prelude.{◌≡◌, ◌≤◌};
ghost use Rattle.base_ids.specs.Cells.{same_coord};
ghost use Rattle.tick_model.specs.Sending.{suits};

use crate::company::Company;
use account_cell::Account;
use base_ids::{Coord, FleetNumber, Player};
use catalog::{Amounts, Mission, Ships, SpeedSetting};
use fleet_rec::Fleet;
use planet_cell::Planet;
use rates::Resources;
use tick_model::Rules;

/// With which mission a fleet flies, if it joins nobody, or else the group that it joins, to attack with it.
#[derive(Clone, Copy, Debug)]
pub enum Purpose {
    Flies(Mission),
    Joins(FleetNumber),
}

/// What a fleet is sent for: from where, to where, for which purpose, at which speed setting, with which ships and which cargo.
#[derive(Clone, Copy, Debug)]
pub struct Errand {
    pub from: Coord,
    pub to: Coord,
    pub purpose: Purpose,
    pub setting: SpeedSetting,
    pub ships: Ships,
    pub cargo: Amounts,
}

/// Where the recyclers stand among the ships.
const RECYCLERS: usize = 10;

/// Whether a mission suits the owner of the target, and the ships that are sent.
fn suits(mission: Mission, is_own: bool, ships: &Ships) -> bool
    ensures { result ≡ suits mission is_own ships.now.n }
{
    match mission {
        Mission::Transport => true,
        Mission::Deploy => is_own,
        Mission::Harvest => ships.n[RECYCLERS] >= 1,
        Mission::Attack => !is_own,
    }
}

/// Whether both are the same place.
pub fn is_same(one: Coord, other: Coord) -> bool
    ensures { result ≡ same_coord one other }
{
    one.g == other.g && one.s == other.s && one.p == other.p
}

impl Errand {
    ghost use Rattle.std.specs.Prelude.{◌≡◌, ℕ, ◌+◌, ◌≤◌, ◌<◌, ◌^◌, nat_le};
    ghost use Rattle.account_cell.specs.Account.{account_fields};
    ghost use Rattle.base_ids.specs.Cells.{same_coord};
    ghost use Rattle.fleet_rec.specs.Fleet.{fleet_seen};
    ghost use Rattle.flight.specs.Distances.{distance_of};
    ghost use Rattle.flight.specs.Freight.{capacity_of};
    ghost use Rattle.orders.specs.Sending.{arrival_alone, errand_seen, mission_of, own_of};
    ghost use Rattle.planet_cell.specs.Freight.{load_cost};
    ghost use Rattle.ports.specs.declared.clock.TheConstants.{LATEST};
    ghost use Rattle.tick_model.specs.Sending.{can_go, fuel_of, launched, load_of, seconds_to, with_group};
    ghost use Rattle.tick_model.specs.Universe.{AccountFields};

    /// With which mission the fleet flies.
    fn mission(&self) -> Mission
        ensures { result ≡ mission_of self.now.purpose }
    {
        match self.purpose {
            Purpose::Flies(mission) => mission,
            Purpose::Joins(_) => Mission::Attack,
        }
    }

    /// How far it is.
    fn distance(&self) -> u32
        ensures value { result ≡ distance_of self.now.from self.now.to }
        ensures to { result ≤ 160000 }
    {
        flight::distance(self.from, self.to)
    }

    /// The deuterium that the flight burns, by the technologies of an account.
    #[tactic(auto, unfolding(tick_model::specs::Sending::fuel_of))]
    pub fn fuel(&self, account: &Account) -> u64
        ensures value { result ≡ fuel_of (account_fields account.now) (errand_seen self.now) }
        ensures to { result ≤ 30000000000 }
    {
        flight::fuel(&self.ships, &account.techs, self.distance(), self.setting.p)
    }

    /// What the origin gives: the cargo, and the fuel.
    #[tactic(auto, unfolding(tick_model::specs::Sending::load_of))]
    pub fn load(&self, account: &Account) -> Resources
        ensures value { load_of (account_fields account.now) (errand_seen self.now) ≡ load_cost result }
        ensures to { result.metal + result.crystal + result.deuterium < 2 ^ 50 }
    {
        Resources {
            metal: self.cargo.m,
            crystal: self.cargo.c,
            deuterium: self.cargo.d + self.fuel(account),
        }
    }

    /// Whether a load fits into the ships.
    pub fn has_room(&self, load: Resources) -> bool
        requires { load.metal + load.crystal + load.deuterium < 2 ^ 50 }
        ensures { result ≡ nat_le (load.metal + load.crystal + load.deuterium) (capacity_of self.now.ships.n) }
    {
        load.metal + load.crystal + load.deuterium <= flight::capacity(&self.ships)
    }

    /// The seconds that the flight takes.
    #[tactic(auto, unfolding(tick_model::specs::Sending::seconds_to))]
    fn seconds(&self, account: &Account, rules: &Rules) -> u64
        ensures value { result ≡ seconds_to rules.now.speed (account_fields account.now) (errand_seen self.now) }
        ensures to { result < 2 ^ 41 }
    {
        let speed = flight::speed(&self.ships, &account.techs);
        flight::seconds(self.distance(), speed, self.setting.p, rules.speed)
    }

    /// Whether the target is another planet that suits the mission.
    pub fn can_go(&self, player: Player, to: &Option<Planet>) -> bool
        ensures { result ≡ can_go player (errand_seen self.now) (own_of to.now) }
    {
        match to {
            Some(planet) => {
                !is_same(self.from, self.to)
                    && suits(self.mission(), planet.owner.k == player.k, &self.ships)
            }
            None => false,
        }
    }

    /// When a fleet arrives that an account sends at a moment, if it joins nobody.
    pub fn arrival(&self, account: &Account, rules: &Rules, moment: u64) -> u64
        requires { moment ≤ LATEST }
        ensures value { result ≡ arrival_alone rules.now.speed moment account.now self.now }
        ensures in_time { result < 2 ^ 42 }
    {
        moment + self.seconds(account, rules)
    }

    /// The fleet that a player sends at a moment in this company, to a planet of the owner: its number isn't drawn yet.
    pub fn launched(&self, player: Player, owner: Player, moment: u64, company: &Company) -> Fleet
        requires { moment ≤ LATEST }
        ensures { (speed : ℕ) (account : AccountFields)
            → fleet_seen result ≡ with_group company.now.group company.now.second (launched speed 0 moment player account owner (errand_seen self.now)) }
    {
        Fleet {
            number: 0,
            group: company.group,
            owner: player,
            mission: self.mission(),
            origin: self.from,
            target: self.to,
            target_owner: owner,
            outbound: true,
            setting: self.setting,
            launch: moment,
            second: company.second,
            cargo: self.cargo,
            ships: self.ships,
        }
    }
}
