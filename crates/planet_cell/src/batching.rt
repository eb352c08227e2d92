ghost use Rattle.std.specs.Prelude.{◌≡◌};
ghost use Rattle.prices.specs.Prices.{cost_in};
ghost use Rattle.tick_model.specs.Yards.{batch_price};

use crate::batch::Batch;
use crate::paying::paid;
use crate::planet::Planet;
use catalog::{Amounts, Count, Unit};
use prices::cost;
use std::alloc::AllocError;
use tick_model::Placed;

/// What so many units of a kind cost.
#[tactic(auto, using(crate::proofs::Batches::units_fit), unfolding(tick_model::specs::Yards::batch_price))]
pub(crate) fn batch_price(unit: Unit, count: Count) -> Amounts
    ensures { cost_in result ≡ batch_price unit.kind count.n }
{
    let one = cost(unit.kind, 1);
    let units = u64::from(count.n);
    Amounts {
        m: units * one.m,
        c: units * one.c,
        d: units * one.d,
    }
}

impl Planet {
    ghost use Rattle.std.specs.Prelude.{◌≡◌, ◌+◌, ◌<◌, ◌≤◌, [], IfOk, IsTrue, OnErr, OnOk, sum, vec_len};
    ghost use Rattle.catalog.specs.declared.settings.TheConstants.{TOP_SPEED};
    ghost use Rattle.catalog.specs.declared.ships.TheConstants.{UNITS};
    ghost use Rattle.planet_cell.specs.Planet.{batch_item_of, batches_of, buildings_of, fields_of};
    ghost use Rattle.planet_cell.specs.Queue.{numbered};
    ghost use Rattle.planet_cell.specs.Yard.{CanTakeBatch, batch_ordered, batch_placed, new_batch, yard_of};
    ghost use Rattle.ports.specs.declared.clock.TheConstants.{LATEST};
    ghost use Rattle.prices.specs.Prices.{cost_in};
    ghost use Rattle.tick_model.specs.Buildings.{can_pay};
    ghost use Rattle.tick_model.specs.Views.{units_left};
    ghost use Rattle.tick_model.specs.Yards.{batch_price};

    /// Orders a batch of units at a moment. It is paid at once; in an empty yard it is the first batch at once, else it waits. The
    /// number of the batch is 0.
    ///
    /// The speed is 1 to `catalog::TOP_SPEED`. It fails only if memory runs out, and the planet then stays as it was.
    pub fn order_batch(
        &mut self,
        unit: Unit,
        count: Count,
        moment: u64,
        speed: u32,
    ) -> Result<Placed, AllocError>
        requires order { CanTakeBatch (sum (fields_of self.old).units + units_left (batches_of self.old)) (fields_of self.old) (batches_of self.old) unit.kind count.n }
        requires moment { moment ≤ LATEST }
        requires speed_from { 1 ≤ speed }
        requires speed_to { speed ≤ TOP_SPEED }
        ensures ok { IfOk result (λ order. order ≡ batch_placed speed moment (fields_of self.old) (batches_of self.old) (new_batch self.old.at unit.kind count.n)) }
        ensures works { OnOk result (yard_of self.new ≡ batch_ordered speed moment (fields_of self.old) (batches_of self.old) (new_batch self.old.at unit.kind count.n)) }
        ensures err { OnErr result (yard_of self.new ≡ yard_of self.old) }
        ensures buildings { buildings_of self.new ≡ buildings_of self.old }
        ensures at { self.new.at ≡ self.old.at }
    {
        let batch = Batch {
            number: 0,
            kind: unit,
            left: count.n,
            unit_seconds: 0,
            second: 0,
        };
        let price = batch_price(unit, count);
        if self.yard.is_empty() {
            return self.start_batch(batch, price, moment, speed);
        }
        self.yard.push(batch)?;
        self.stock = paid(self.stock, price);
        Ok(Placed::Waits {
            place: self.yard.len(),
        })
    }

    /// A batch that is ordered in an empty yard is paid and begins at a moment.
    fn start_batch(
        &mut self,
        batch: Batch,
        price: Amounts,
        moment: u64,
        speed: u32,
    ) -> Result<Placed, AllocError>
        requires empty { self.old.yard.items ≡ [] }
        requires price { cost_in price ≡ batch_price batch.kind.kind batch.left }
        requires payable { IsTrue (can_pay (fields_of self.old).stock (cost_in price)) }
        requires units { sum self.old.units + batch.left ≤ UNITS }
        requires moment { moment ≤ LATEST }
        requires speed_from { 1 ≤ speed }
        requires speed_to { speed ≤ TOP_SPEED }
        ensures ok { IfOk result (λ order. order ≡ batch_placed speed moment (fields_of self.old) [] (batch_item_of self.old.at batch)) }
        ensures works { OnOk result (yard_of self.new ≡ batch_ordered speed moment (fields_of self.old) [] (batch_item_of self.old.at batch)) }
        ensures err { OnErr result (yard_of self.new ≡ yard_of self.old) }
        ensures buildings { buildings_of self.new ≡ buildings_of self.old }
        ensures at { self.new.at ≡ self.old.at }
    {
        let first = self.begun(batch, moment, speed);
        self.yard.push(first)?;
        self.stock = paid(self.stock, price);
        Ok(Placed::Starts {
            amount: u64::from(first.left),
            second: first.second,
        })
    }

    /// The last batch of the yard has this number.
    pub fn number_last_batch(&mut self, number: u64)
        requires { 0 < vec_len self.old.yard }
        ensures fields { fields_of self.new ≡ fields_of self.old }
        ensures yard { batches_of self.new ≡ numbered number (batches_of self.old) }
        ensures buildings { buildings_of self.new ≡ buildings_of self.old }
        ensures at { self.new.at ≡ self.old.at }
    {
        let last = self.yard.len() - 1;
        let batch = self.yard[last];
        self.yard[last] = Batch {
            number,
            kind: batch.kind,
            left: batch.left,
            unit_seconds: batch.unit_seconds,
            second: batch.second,
        };
    }
}
