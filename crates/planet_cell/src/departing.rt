ghost use Rattle.std.specs.Prelude.{◌≡◌, ◌≤◌, IsTrue, sum};
ghost use Rattle.tick_model.specs.Flights.{left_by};
ghost use Rattle.tick_model.specs.Sending.{has_ships};

use crate::paying::paid;
use crate::planet::Planet;
use catalog::{Amounts, Ships};
use rates::{Resources, whole_units};

/// Whether there are so many units of each of the first kinds.
fn has_ships(units: &[u32; 22], ships: &[u32; 13]) -> bool
    ensures { result ≡ has_ships units.now ships.now }
{
    'ships: for (place, count) in ships.iter().enumerate() {
        if units[place] < *count {
            return false;
        }
    }
    true
}

/// Counts of units, with so many fewer of the first kinds.
#[tactic(auto, using(crate::proofs::Freights::counted))]
fn part(units: &mut [u32; 22], ships: &[u32; 13])
    requires { IsTrue (has_ships units.old ships.now) }
    ensures value { units.new ≡ left_by units.old ships.now }
    ensures total { sum units.new ≤ sum units.old }
{
    'ships: for (place, count) in ships.iter().enumerate() {
        units[place] -= *count;
    }
}

impl Planet {
    ghost use Rattle.std.specs.Prelude.{◌≡◌, IsTrue};
    ghost use Rattle.planet_cell.specs.Freight.{load_cost};
    ghost use Rattle.planet_cell.specs.Planet.{batches_of, buildings_of, fields_of};
    ghost use Rattle.tick_model.specs.Buildings.{can_pay};
    ghost use Rattle.tick_model.specs.Sending.{Errand, departed, has_ships, load_of};
    ghost use Rattle.tick_model.specs.Universe.{AccountFields};

    /// Whether the planet has so many ships of each kind.
    pub fn has_ships(&self, ships: &Ships) -> bool
        ensures { result ≡ has_ships (fields_of self.now).units ships.now.n }
    {
        has_ships(&self.units, &ships.n)
    }

    /// Whether the whole units of the planet's stocks suffice for the cargo and the fuel of a fleet, which may be above the cap.
    #[tactic(auto, unfolding(tick_model::specs::Buildings::can_pay))]
    pub fn can_pay_load(&self, load: Resources) -> bool
        ensures { result ≡ can_pay (fields_of self.now).stock (load_cost load) }
    {
        let units = whole_units(self.stock);
        load.metal <= units.metal
            && load.crystal <= units.crystal
            && load.deuterium <= units.deuterium
    }

    /// A fleet leaves the planet, with its ships, its cargo and its fuel.
    #[tactic(auto, unfolding(tick_model::specs::Buildings::can_pay, tick_model::specs::Sending::departed))]
    pub fn depart(&mut self, load: Resources, ships: &Ships)
        requires load { IsTrue (can_pay (fields_of self.old).stock (load_cost load)) }
        requires ships { IsTrue (has_ships (fields_of self.old).units ships.now.n) }
        ensures fields { (account : AccountFields) (errand : Errand) → load_of account errand ≡ load_cost load → errand.ships ≡ ships.now.n
            → fields_of self.new ≡ departed account (fields_of self.old) errand }
        ensures buildings { buildings_of self.new ≡ buildings_of self.old }
        ensures yard { batches_of self.new ≡ batches_of self.old }
        ensures at { self.new.at ≡ self.old.at }
    {
        let price = Amounts {
            m: load.metal,
            c: load.crystal,
            d: load.deuterium,
        };
        self.stock = paid(self.stock, price);
        part(&mut self.units, &ships.n);
    }
}
