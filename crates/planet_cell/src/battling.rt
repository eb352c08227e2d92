ghost use Rattle.std.specs.Prelude.{◌≡◌, ◌+◌, ◌-◌, ◌≤◌, min, slice_index};
ghost use Rattle.catalog.specs.Kinds.{place_in};
ghost use Rattle.catalog.specs.declared.amounts.TheConstants.{CAP};
ghost use Rattle.catalog.specs.declared.kind.Kind.TheVariants.{Recycler};
ghost use Rattle.catalog.specs.declared.ships.TheConstants.{SHIPS};
ghost use Rattle.fleet_rec.specs.Fleet.{cargo_seen, fleet_seen};
ghost use Rattle.flight.specs.Freight.{capacity_of};
ghost use Rattle.spoils.specs.Harvest.{scraping};
ghost use Rattle.tick_model.specs.Flights.{free_room, harvest_room};

use crate::paying::paid;
use crate::planet::Planet;
use catalog::{Amounts, CAP};
use fleet_rec::Fleet;
use flight::capacity;
use spoils::scrape;
use tick_model::{Debris, RECYCLER_ROOM};

/// The place of the recycler among the ships.
const RECYCLER: usize = 10;

/// The room that a fleet has free, in units.
#[tactic(auto, unfolding(tick_model::specs::Flights::free_room), using(crate::proofs::Holds::holds))]
pub fn free_room(fleet: &Fleet) -> u64
    ensures room { result ≡ free_room (fleet_seen fleet.now) }
    ensures metal { result + fleet.now.cargo.m ≤ CAP }
    ensures crystal { result + fleet.now.cargo.c ≤ CAP }
    ensures deuterium { result + fleet.now.cargo.d ≤ CAP }
{
    let cargo = fleet.cargo;
    capacity(&fleet.ships).saturating_sub(cargo.m + cargo.c + cargo.d)
}

/// The room for a harvest: what is free, but no more than each recycler can fill.
#[tactic(auto, unfolding(tick_model::specs::Flights::harvest_room))]
fn harvest_room(fleet: &Fleet) -> u64
    ensures room { result ≡ harvest_room (fleet_seen fleet.now) }
    ensures metal { result + fleet.now.cargo.m ≤ CAP }
    ensures crystal { result + fleet.now.cargo.c ≤ CAP }
{
    let recyclers = u64::from(fleet.ships.n[RECYCLER]);
    free_room(fleet).min(RECYCLER_ROOM * recyclers)
}

/// What a fleet takes of the debris around a planet, in units. It takes no deuterium.
#[tactic(auto, using(crate::proofs::Holds::taking))]
fn taken(debris: Debris, room: u64) -> Amounts
    requires { room ≤ CAP }
    ensures metal { let steps = scraping room debris.metal debris.crystal in result.m ≡ steps.first_metal + steps.second_metal }
    ensures crystal { result.c ≡ (scraping room debris.metal debris.crystal).first_crystal }
    ensures deuterium { result.d ≡ 0 }
    ensures room { result.m + result.c ≤ room }
    ensures there { (result.m ≤ debris.metal) × (result.c ≤ debris.crystal) }
{
    scrape(
        room,
        Amounts {
            m: debris.metal.min(CAP),
            c: debris.crystal.min(CAP),
            d: 0,
        },
    )
}

impl Planet {
    ghost use Rattle.std.specs.Prelude.{◌≡◌, ◌≤◌, IsTrue, sum};
    ghost use Rattle.fleet_rec.specs.Fleet.{cargo_seen, fleet_seen};
    ghost use Rattle.planet_cell.specs.Planet.{batches_of, buildings_of, fields_of};
    ghost use Rattle.prices.specs.Prices.{cost_in};
    ghost use Rattle.tick_model.specs.Buildings.{can_pay, paid};
    ghost use Rattle.tick_model.specs.Flights.{both_cargoes, harvest, harvested};

    /// The cargo of a fleet with what it can take of the debris around the planet.
    #[tactic(auto, unfolding(tick_model::specs::Flights::harvest), using(crate::proofs::Holds::holds))]
    pub fn harvest_cargo(&self, fleet: &Fleet) -> Amounts
        ensures { cargo_seen result ≡ both_cargoes (fleet_seen fleet.now).cargo (harvest (fields_of self.now) (fleet_seen fleet.now)) }
    {
        let taken = taken(self.debris, harvest_room(fleet));
        Amounts {
            m: fleet.cargo.m + taken.m,
            c: fleet.cargo.c + taken.c,
            d: fleet.cargo.d,
        }
    }

    /// A fleet takes what it can of the debris around the planet.
    #[tactic(auto, unfolding(tick_model::specs::Flights::harvest, tick_model::specs::Flights::harvested), using(crate::proofs::Holds::holds))]
    pub fn harvest(&mut self, fleet: &Fleet)
        ensures fields { fields_of self.new ≡ harvested (fields_of self.old) (fleet_seen fleet.now) }
        ensures buildings { buildings_of self.new ≡ buildings_of self.old }
        ensures yard { batches_of self.new ≡ batches_of self.old }
        ensures at { self.new.at ≡ self.old.at }
    {
        let taken = taken(self.debris, harvest_room(fleet));
        self.debris = Debris {
            metal: self.debris.metal - taken.m,
            crystal: self.debris.crystal - taken.c,
        };
    }

    /// A battle is over: attackers have taken this of the stocks, and this debris and these units are there now.
    #[tactic(auto, unfolding(tick_model::specs::Buildings::can_pay))]
    pub fn settle(&mut self, taken: Amounts, debris: Debris, units: [u32; 22])
        requires taken { IsTrue (can_pay (fields_of self.old).stock (cost_in taken)) }
        requires units { sum units ≤ sum (fields_of self.old).units }
        ensures fields { fields_of self.new ≡ record (fields_of self.old) { stock = paid (fields_of self.old).stock (cost_in taken); debris = debris; units = units } }
        ensures buildings { buildings_of self.new ≡ buildings_of self.old }
        ensures yard { batches_of self.new ≡ batches_of self.old }
        ensures at { self.new.at ≡ self.old.at }
    {
        self.stock = paid(self.stock, taken);
        self.debris = debris;
        self.units = units;
    }
}
