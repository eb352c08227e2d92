use crate::places::{SATELLITES, place_of};
use crate::planet::Planet;
use catalog::Building;
use rates::{Hourly, Resources, Works, hourly, storage_of};

impl Planet {
    ghost use Rattle.std.specs.Prelude.{◌≡◌, ◌+◌, ◌≤◌, sum};
    ghost use Rattle.catalog.specs.Levels.{level_cap_of};
    ghost use Rattle.catalog.specs.declared.settings.TheConstants.{TOP_SPEED};
    ghost use Rattle.planet_cell.specs.Planet.{batches_of, fields_of};
    ghost use Rattle.rates.specs.Energy.{IsInRange};
    ghost use Rattle.rates.specs.Production.{IsStorable};
    ghost use Rattle.rates.specs.Yields.{AreSmall};
    ghost use Rattle.tick_model.specs.Production.{level_of, limits_of, works_of, yields_of};
    ghost use Rattle.tick_model.specs.Refusals.{used_fields};
    ghost use Rattle.tick_model.specs.Views.{units_left};

    /// The level of a building.
    #[tactic(auto, using(crate::proofs::Caps::kind_within), unfolding(tick_model::specs::Production::level_of))]
    pub fn level(&self, building: Building) -> u8
        ensures value { result ≡ level_of (fields_of self.now) building.kind }
        ensures within { result ≤ level_cap_of building.kind }
    {
        self.levels[place_of(building)]
    }

    /// The works of the planet, which yield by their levels, tenths and number.
    #[tactic(auto, using(crate::proofs::Caps::caps, crate::proofs::Totals::each_within), unfolding(tick_model::specs::Production::level_of, tick_model::specs::Production::works_of))]
    pub fn works(&self) -> Works
        ensures value { result ≡ works_of (fields_of self.now) }
        ensures within { IsInRange result }
    {
        let [metal, crystal, deuterium, solar, ..] = self.levels;
        Works {
            metal,
            crystal,
            deuterium,
            solar,
            sets: self.tenths,
            satellites: self.units[SATELLITES],
            t: self.temperature,
        }
    }

    /// What the planet yields an hour, in units, and its energy, at a speed of 1 to `catalog::TOP_SPEED`.
    #[tactic(auto, unfolding(tick_model::specs::Production::yields_of))]
    pub fn yields(&self, speed: u32) -> Hourly
        requires { speed ≤ TOP_SPEED }
        ensures value { result ≡ yields_of speed (fields_of self.now) }
        ensures within { AreSmall result }
    {
        hourly(&self.works(), speed)
    }

    /// How far production fills the stocks of the planet, in units.
    #[tactic(auto, using(crate::proofs::Caps::caps), unfolding(tick_model::specs::Production::level_of, tick_model::specs::Production::limits_of))]
    pub fn limits(&self) -> Resources
        ensures value { result ≡ limits_of (fields_of self.now) }
        ensures within { IsStorable result }
    {
        let [_, _, _, _, metal, crystal, tank, ..] = self.levels;
        storage_of(metal, crystal, tank)
    }

    /// How many fields are used: each level of a building uses one.
    pub fn used_fields(&self) -> u16
        ensures { result ≡ used_fields (fields_of self.now) }
    {
        let mut used = 0;
        'levels: for level in &self.levels {
            used += u16::from(*level);
        }
        used
    }

    /// How many units the planet has, those that its yard is to build included: at most `catalog::UNITS`.
    #[tactic(auto, using(crate::proofs::Totals::left_items))]
    pub fn unit_total(&self) -> u32
        ensures { result ≡ sum (fields_of self.now).units + units_left (batches_of self.now) }
    {
        let standing: u32 = self.units.iter().sum();
        let left: u32 = self.yard.iter().map(|batch| batch.left).sum();
        standing + left
    }
}
