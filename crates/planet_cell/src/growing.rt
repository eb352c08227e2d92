ghost use Rattle.std.specs.Prelude.{◌≡◌, ℕ, ◌+◌};
ghost use Rattle.rates.specs.Times.{times};
ghost use Rattle.tick_model.specs.Production.{planet_second};
ghost use Rattle.tick_model.specs.Universe.{PlanetFields};

use crate::planet::Planet;
use rates::produce;
use std::alloc::AllocError;

impl Planet {
    ghost use Rattle.std.specs.Prelude.{◌≡◌, ◌≤◌, IfOk};
    ghost use Rattle.catalog.specs.declared.settings.TheConstants.{TOP_SPEED};
    ghost use Rattle.planet_cell.specs.Planet.{AreSame, batches_of, buildings_of, fields_of};
    ghost use Rattle.rates.specs.Times.{times};
    ghost use Rattle.tick_model.specs.Production.{planet_second};

    /// Brings the planet so many seconds further, in which no building and no unit is done. The speed is 1 to `catalog::TOP_SPEED`.
    ///
    /// The stocks grow, and the queues stay. No loop over the seconds is made.
    #[tactic(auto, using(crate::proofs::Seconds::seconds_of_planets))]
    pub fn advance(&mut self, seconds: u64, speed: u32)
        requires { speed ≤ TOP_SPEED }
        ensures fields { fields_of self.new ≡ times seconds (planet_second speed) (fields_of self.old) }
        ensures buildings { buildings_of self.new ≡ buildings_of self.old }
        ensures yard { batches_of self.new ≡ batches_of self.old }
        ensures at { self.new.at ≡ self.old.at }
    {
        let limits = self.limits();
        let yields = self.yields(speed);
        self.stock = produce(self.stock, limits, yields, seconds);
    }

    /// The same planet, in memory of its own.
    pub fn copy(&self) -> Result<Planet, AllocError>
        ensures { IfOk result (AreSame self.now) }
    {
        let buildings = Vec::from_slice(*self.buildings.allocator(), &self.buildings)?;
        let yard = Vec::from_slice(*self.yard.allocator(), &self.yard)?;
        Ok(Planet {
            at: self.at,
            owner: self.owner,
            temperature: self.temperature,
            fields: self.fields,
            levels: self.levels,
            tenths: self.tenths,
            stock: self.stock,
            debris: self.debris,
            units: self.units,
            buildings,
            yard,
        })
    }
}

/// A planet that is brought some seconds further, and then some more, is brought as many seconds further as both together. It
/// does nothing: the law is its contract.
#[tactic(auto, using(crate::proofs::Seconds::seconds_add))]
pub fn seconds_add_up()
    ensures { (first second speed : ℕ) (planet : PlanetFields)
        → times second (planet_second speed) (times first (planet_second speed) planet)
        ≡ times (first + second) (planet_second speed) planet }
{}
