use crate::paying::{can_pay, paid};
use crate::planet::Planet;
use catalog::{Amounts, Building, GRAVITON_ENERGY, Kind, Technology};

impl Planet {
    ghost use Rattle.std.specs.Prelude.{◌≡◌, ◌≤◌, IsTrue};
    ghost use Rattle.catalog.specs.declared.kind.Kind.TheVariants.{Lab};
    ghost use Rattle.catalog.specs.declared.settings.TheConstants.{TOP_SPEED};
    ghost use Rattle.planet_cell.specs.Planet.{batches_of, buildings_of, fields_of};
    ghost use Rattle.prices.specs.Prices.{cost_in};
    ghost use Rattle.tick_model.specs.Buildings.{can_pay, paid};
    ghost use Rattle.tick_model.specs.Production.{level_of};
    ghost use Rattle.tick_model.specs.Researches.{gives_energy};

    /// The level of the lab, 0 to 14.
    pub fn lab(&self) -> u8
        ensures value { result ≡ level_of (fields_of self.now) Lab }
        ensures within { result ≤ 14 }
    {
        self.level(Building { kind: Kind::Lab })
    }

    /// Whether the whole units of the planet's stocks suffice for a price.
    pub fn can_pay(&self, price: Amounts) -> bool
        ensures { result ≡ can_pay (fields_of self.now).stock (cost_in price) }
    {
        can_pay(self.stock, price)
    }

    /// The planet pays a price.
    pub fn pay(&mut self, price: Amounts)
        requires { IsTrue (can_pay (fields_of self.old).stock (cost_in price)) }
        ensures fields { fields_of self.new ≡ record (fields_of self.old) { stock = paid (fields_of self.old).stock (cost_in price) } }
        ensures buildings { buildings_of self.new ≡ buildings_of self.old }
        ensures yard { batches_of self.new ≡ batches_of self.old }
        ensures at { self.new.at ≡ self.old.at }
    {
        self.stock = paid(self.stock, price);
    }

    /// Whether the planet gives the energy that a technology takes, at a speed of 1 to `catalog::TOP_SPEED`: only graviton takes
    /// any.
    #[tactic(auto, unfolding(tick_model::specs::Researches::gives_energy))]
    pub fn gives_energy(&self, speed: u32, technology: Technology) -> bool
        requires { speed ≤ TOP_SPEED }
        ensures { result ≡ gives_energy speed (fields_of self.now) technology.kind }
    {
        if technology.kind.number() != Kind::Graviton.number() {
            return true;
        }
        GRAVITON_ENERGY <= self.yields(speed).given
    }
}
