use crate::batch::Batch;
use crate::places::place_of_unit;
use crate::planet::Planet;
use catalog::{Amounts, Building, Kind, Unit};
use prices::{Helpers, cost, seconds};

impl Planet {
    ghost use Rattle.std.specs.Prelude.{◌≡◌, ◌<◌, ◌≤◌, ◌^◌, drop, slice_get, vec_len};
    ghost use Rattle.catalog.specs.declared.settings.TheConstants.{TOP_SPEED};
    ghost use Rattle.planet_cell.specs.Bounds.{left_in};
    ghost use Rattle.planet_cell.specs.Planet.{batch_item_of, batches_of, buildings_of, fields_of};
    ghost use Rattle.planet_cell.specs.Yard.{Builds, HasMore, built, built_ahead, unit_finished, yard_of};
    ghost use Rattle.ports.specs.declared.clock.TheConstants.{LATEST};
    ghost use Rattle.tick_model.specs.Yards.{begins_first, begun, unit_duration};

    /// The first batch of the yard, whose units are built.
    pub fn first_batch(&self) -> Option<Batch>
        ensures { result ≡ slice_get self.now.yard.items 0 }
    {
        self.yard.first().copied()
    }

    /// The batch behind the first one.
    fn second_batch(&self) -> Option<Batch>
        ensures { result ≡ slice_get self.now.yard.items 1 }
    {
        self.yard.get(1).copied()
    }

    /// A unit of the first batch is done, and stands on the planet. If it was the last one, the next batch begins.
    ///
    /// The speed is 1 to `catalog::TOP_SPEED`.
    pub fn finish_unit(&mut self, speed: u32)
        requires yard { Builds (batches_of self.old) }
        requires speed_from { 1 ≤ speed }
        requires speed_to { speed ≤ TOP_SPEED }
        ensures built { built (yard_of self.new) ≡ unit_finished speed (fields_of self.old) (batches_of self.old) }
        ensures buildings { buildings_of self.new ≡ buildings_of self.old }
        ensures at { self.new.at ≡ self.old.at }
    {
        let done = self.yard[0];
        if done.left > 1 {
            self.build_ahead(1);
            return;
        }
        self.begin_next(done.second, speed);
        self.units[place_of_unit(done.kind)] += 1;
    }

    /// So many units of the first batch are done, of which none is the last one.
    pub(crate) fn build_ahead(&mut self, count: u32)
        requires { HasMore count (batches_of self.old) }
        ensures works { yard_of self.new ≡ built_ahead count (fields_of self.old) (batches_of self.old) }
        ensures buildings { buildings_of self.new ≡ buildings_of self.old }
        ensures at { self.new.at ≡ self.old.at }
    {
        let batch = self.yard[0];
        self.yard[0] = Batch {
            number: batch.number,
            kind: batch.kind,
            left: batch.left - count,
            unit_seconds: batch.unit_seconds,
            second: batch.second + u64::from(count) * batch.unit_seconds,
        };
        self.units[place_of_unit(batch.kind)] += count;
    }

    /// The first batch goes, and the next one begins at a second.
    fn begin_next(&mut self, second: u64, speed: u32)
        requires some { 0 < vec_len self.old.yard }
        requires second { second ≤ LATEST }
        requires speed_from { 1 ≤ speed }
        requires speed_to { speed ≤ TOP_SPEED }
        ensures fields { fields_of self.new ≡ fields_of self.old }
        ensures yard { batches_of self.new ≡ begins_first speed second (fields_of self.old) (drop 1 (batches_of self.old)) }
        ensures fewer { left_in self.new.yard.items < left_in self.old.yard.items }
        ensures buildings { buildings_of self.new ≡ buildings_of self.old }
        ensures at { self.new.at ≡ self.old.at }
    {
        let Some(next) = self.second_batch() else {
            self.yard.remove(0);
            return;
        };
        self.yard[1] = self.begun(next, second, speed);
        self.yard.remove(0);
    }

    /// A batch that becomes the first one of the yard at a second.
    pub(crate) fn begun(&self, batch: Batch, second: u64, speed: u32) -> Batch
        requires second { second ≤ LATEST }
        requires speed_from { 1 ≤ speed }
        requires speed_to { speed ≤ TOP_SPEED }
        ensures item { batch_item_of self.now.at result ≡ begun speed second (fields_of self.now) (batch_item_of self.now.at batch) }
        ensures some { 1 ≤ result.unit_seconds }
        ensures left { result.left ≡ batch.left }
    {
        let unit_seconds = self.unit_seconds(batch.kind, speed);
        Batch {
            number: batch.number,
            kind: batch.kind,
            left: batch.left,
            unit_seconds,
            second: second + unit_seconds,
        }
    }

    /// The seconds that a unit takes, 1 to 2^24, at a speed of 1 to `catalog::TOP_SPEED`.
    #[tactic(auto, using(crate::proofs::Spans::unit_duration_within, crate::proofs::Spans::unit_duration_from), unfolding(tick_model::specs::Yards::unit_duration))]
    pub(crate) fn unit_seconds(&self, unit: Unit, speed: u32) -> u64
        requires speed_from { 1 ≤ speed }
        requires speed_to { speed ≤ TOP_SPEED }
        ensures value { result ≡ unit_duration speed (fields_of self.now) unit.kind }
        ensures some { 1 ≤ result }
        ensures within { result ≤ 2 ^ 24 }
    {
        let helpers = Helpers::Yard {
            shipyard: self.level(Building {
                kind: Kind::Shipyard,
            }),
            nanite: self.level(Building { kind: Kind::Nanite }),
        };
        seconds(cost(unit.kind, 1), helpers, speed)
    }
}
