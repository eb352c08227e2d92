ghost use Rattle.std.specs.Prelude.{◌≡◌};
ghost use Rattle.tick_model.specs.Refusals.{is_dome};

use crate::batching::batch_price;
use crate::paying::can_pay;
use crate::places::place_of_unit;
use crate::planet::Planet;
use catalog::{Count, Kind, Techs, UNITS, Unit};
use tick_model::{CEILING, LEVEL_CAP, MOST_QUEUED, POOR, QUEUE_FULL, REQUIRES};

/// Whether a unit is a dome, of which a planet may have one of each kind.
fn is_dome(unit: Unit) -> bool
    ensures { result ≡ is_dome unit.kind }
{
    let number = unit.kind.number();
    Kind::SmallDome.number() <= number && number <= Kind::LargeDome.number()
}

impl Planet {
    ghost use Rattle.std.specs.Prelude.{◌≡◌, ◌+◌, ◌≤◌, ◌&&◌, nat_le, length};
    ghost use Rattle.planet_cell.specs.Planet.{batches_of, fields_of};
    ghost use Rattle.tick_model.specs.Refusals.{is_dome, queued, yard_refusal};
    ghost use Rattle.tick_model.specs.Yards.{count_of};

    /// Why a batch can't be ordered on the planet by an account with these technologies and so many units: the code of the first
    /// reason that there is, or 0 if there is none.
    ///
    /// The reasons are, in this order: `tick_model::QUEUE_FULL`, `LEVEL_CAP`, `REQUIRES`, `POOR` and `CEILING`.
    #[tactic(auto, unfolding(tick_model::specs::Refusals::yard_refusal))]
    pub fn yard_refusal(&self, techs: &Techs, units: u32, unit: Unit, count: Count) -> u8
        ensures { result ≡ yard_refusal (record { techs = techs.now }) units (fields_of self.now) (batches_of self.now) unit.kind count.n }
    {
        if self.is_yard_full() {
            return QUEUE_FULL;
        }
        if self.has_dome(unit, count) {
            return LEVEL_CAP;
        }
        if !self.meets_needs(techs, unit.kind) {
            return REQUIRES;
        }
        if !can_pay(self.stock, batch_price(unit, count)) {
            return POOR;
        }
        if u64::from(units) + u64::from(count.n) > u64::from(UNITS) {
            return CEILING;
        }
        0
    }

    /// Whether the yard has as many batches as it may have.
    fn is_yard_full(&self) -> bool
        ensures { result ≡ nat_le MOST_QUEUED (length (batches_of self.now)) }
    {
        self.yard.len() >= MOST_QUEUED
    }

    /// Whether the units are domes, and the planet would have more than one of them, those that are ordered included.
    fn has_dome(&self, unit: Unit, count: Count) -> bool
        ensures { result ≡ (is_dome unit.kind && nat_le 2 (count_of (fields_of self.now) unit.kind + queued unit.kind (batches_of self.now) + count.n)) }
    {
        is_dome(unit) && self.has_two(unit, count)
    }

    /// Whether the units of a kind that stand, the batches of it and the units that are ordered are two or more.
    #[tactic(auto, unfolding(tick_model::specs::Yards::count_of))]
    fn has_two(&self, unit: Unit, count: Count) -> bool
        ensures { result ≡ nat_le 2 (count_of (fields_of self.now) unit.kind + queued unit.kind (batches_of self.now) + count.n) }
    {
        let standing = u64::from(self.units[place_of_unit(unit)]);
        standing + self.queued_batches(unit) as u64 + u64::from(count.n) >= 2
    }

    /// How many batches of a kind stand in the yard.
    #[tactic(auto, using(crate::proofs::Counts::queued_batches))]
    fn queued_batches(&self, unit: Unit) -> usize
        ensures value { result ≡ queued unit.kind (batches_of self.now) }
        ensures within { result ≤ MOST_QUEUED }
    {
        self.yard
            .iter()
            .filter(|batch| batch.kind.kind.number() == unit.kind.number())
            .count()
    }
}
