ghost use Rattle.std.specs.Prelude.{◌≡◌, ◌+◌, ◌*◌, ◌≤◌, sum};
ghost use Rattle.catalog.specs.declared.amounts.TheConstants.{CAP};
ghost use Rattle.catalog.specs.declared.ships.TheConstants.{UNITS};
ghost use Rattle.fleet_rec.specs.Fleet.{cargo_seen};
ghost use Rattle.rates.specs.Stock.{IsWithinCap};
ghost use Rattle.rates.specs.declared.stock.TheConstants.{GRAINS};
ghost use Rattle.tick_model.specs.Flights.{filled, joined_by, unloaded};

use crate::planet::Planet;
use catalog::{Amounts, CAP, Ships};
use rates::{GRAINS, Resources};

/// The grains of a stock that took so many units. It holds at most the cap, and what goes above is lost.
fn filled(grains: u64, units: u64) -> u64
    requires grains { grains ≤ GRAINS * CAP }
    requires units { units ≤ CAP }
    ensures value { result ≡ filled grains units }
    ensures within { result ≤ GRAINS * CAP }
{
    (grains + GRAINS * units).min(GRAINS * CAP)
}

/// Stocks, in grains, that took a cargo.
#[tactic(auto, unfolding(tick_model::specs::Flights::unloaded))]
fn unloaded(stock: Resources, cargo: Amounts) -> Resources
    requires { IsWithinCap stock }
    ensures value { result ≡ unloaded stock (cargo_seen cargo) }
    ensures within { IsWithinCap result }
{
    Resources {
        metal: filled(stock.metal, cargo.m),
        crystal: filled(stock.crystal, cargo.c),
        deuterium: filled(stock.deuterium, cargo.d),
    }
}

/// Counts of units, with so many more of the first kinds.
#[tactic(auto, using(crate::proofs::Freights::counted))]
fn join(units: &mut [u32; 22], ships: &[u32; 13])
    requires { sum units.old + sum ships.now ≤ UNITS }
    ensures value { units.new ≡ joined_by units.old ships.now }
    ensures total { sum units.new ≡ sum units.old + sum ships.now }
{
    'ships: for (place, count) in ships.iter().enumerate() {
        units[place] += *count;
    }
}

impl Planet {
    ghost use Rattle.std.specs.Prelude.{◌≡◌, ◌+◌, ◌≤◌, sum};
    ghost use Rattle.catalog.specs.declared.ships.TheConstants.{UNITS};
    ghost use Rattle.fleet_rec.specs.Fleet.{cargo_seen};
    ghost use Rattle.planet_cell.specs.Planet.{batches_of, buildings_of, fields_of};
    ghost use Rattle.tick_model.specs.Flights.{moored, supplied};
    ghost use Rattle.tick_model.specs.Universe.{Fleet};
    ghost use Rattle.tick_model.specs.Views.{units_left};

    /// The planet takes the cargo of a fleet.
    #[tactic(auto, unfolding(tick_model::specs::Flights::supplied))]
    pub fn supply(&mut self, cargo: Amounts)
        ensures fields { (fleet : Fleet) → fleet.cargo ≡ cargo_seen cargo → fields_of self.new ≡ supplied (fields_of self.old) fleet }
        ensures buildings { buildings_of self.new ≡ buildings_of self.old }
        ensures yard { batches_of self.new ≡ batches_of self.old }
        ensures at { self.new.at ≡ self.old.at }
    {
        self.stock = unloaded(self.stock, cargo);
    }

    /// The planet takes the cargo of a fleet, and its ships as well. With them it has at most `catalog::UNITS` units, those that its
    /// yard is to build included.
    #[tactic(auto, unfolding(tick_model::specs::Flights::moored))]
    pub fn moor(&mut self, cargo: Amounts, ships: &Ships)
        requires { sum (fields_of self.old).units + units_left (batches_of self.old) + sum ships.now.n ≤ UNITS }
        ensures fields { (fleet : Fleet) → fleet.cargo ≡ cargo_seen cargo → fleet.ships ≡ ships.now.n → fields_of self.new ≡ moored (fields_of self.old) fleet }
        ensures buildings { buildings_of self.new ≡ buildings_of self.old }
        ensures yard { batches_of self.new ≡ batches_of self.old }
        ensures at { self.new.at ≡ self.old.at }
    {
        self.stock = unloaded(self.stock, cargo);
        join(&mut self.units, &ships.n);
    }
}
