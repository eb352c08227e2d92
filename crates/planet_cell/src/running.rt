ghost use Rattle.std.specs.Prelude.{◌≤◌};
ghost use Rattle.planet_cell.specs.Yard.{IsMore};

use crate::batch::Batch;
use crate::places::{SATELLITES, place_of_unit};
use crate::planet::Planet;

/// How many units of a batch, besides the next one, are done by a second and can be counted together with it: none of satellites,
/// since each of them changes what the planet yields.
#[tactic(auto, using(crate::proofs::Yards::counted))]
fn more_units(batch: Batch, until: u64) -> u32
    requires due { batch.second ≤ until }
    requires takes { 1 ≤ batch.unit_seconds }
    ensures { IsMore batch until result }
{
    if place_of_unit(batch.kind) == SATELLITES {
        return 0;
    }
    let passed = (until - batch.second) / batch.unit_seconds;
    passed.min(u64::from(batch.left - 1)) as u32
}

impl Planet {
    ghost use Rattle.std.specs.Prelude.{◌≡◌, ◌-◌, ◌≤◌, MatchOption};
    ghost use Rattle.catalog.specs.declared.settings.TheConstants.{TOP_SPEED};
    ghost use Rattle.planet_cell.specs.Planet.{batches_of, buildings_of};
    ghost use Rattle.planet_cell.specs.Yard.{IsAhead, IsDue, ticked_yard, yard_of};
    ghost use Rattle.ports.specs.declared.clock.TheConstants.{LATEST};

    /// Brings the planet from a second to a later one, between which no building is done and no fleet comes. The units that are due
    /// by then are done, each at its own second.
    ///
    /// The speed is 1 to `catalog::TOP_SPEED`. Units of a batch that change no yields are counted by a division: no loop over the
    /// seconds or over such units is made.
    pub fn run_yard(&mut self, from: u64, until: u64, speed: u32)
        requires order { from ≤ until }
        requires latest { until ≤ LATEST }
        requires ahead { IsAhead from (batches_of self.old) }
        requires speed_from { 1 ≤ speed }
        requires speed_to { speed ≤ TOP_SPEED }
        ensures works { yard_of self.new ≡ ticked_yard speed from (until - from) (yard_of self.old) }
        ensures buildings { buildings_of self.new ≡ buildings_of self.old }
        ensures at { self.new.at ≡ self.old.at }
    {
        let mut now = from;
        'batches: while let Some(batch) = self.due_batch(until) {
            let more = more_units(batch, until);
            let last = batch.second + u64::from(more) * batch.unit_seconds;
            self.advance(last - now, speed);
            self.build_ahead(more);
            self.finish_unit(speed);
            now = last;
        }
        self.advance(until - now, speed);
    }

    /// The first batch, if a unit of it is due by a second.
    fn due_batch(&self, until: u64) -> Option<Batch>
        ensures { MatchOption result (IsAhead until (batches_of self.now)) (IsDue until self.now.yard.items) }
    {
        let Some(batch) = self.first_batch() else {
            return None;
        };
        if until < batch.second {
            return None;
        }
        Some(batch)
    }
}
