use crate::building_item::BuildingItem;
use crate::paying::{can_pay, paid};
use crate::places::place_of;
use crate::planet::Planet;

impl Planet {
    ghost use Rattle.std.specs.Prelude.{◌≡◌, ◌≤◌, slice_get};
    ghost use Rattle.catalog.specs.declared.settings.TheConstants.{TOP_SPEED};
    ghost use Rattle.planet_cell.specs.Planet.{batches_of, buildings_of, fields_of};
    ghost use Rattle.planet_cell.specs.Queue.{Runs, built_of, finished, works_of};
    ghost use Rattle.ports.specs.declared.clock.TheConstants.{LATEST};
    ghost use Rattle.tick_model.specs.Buildings.{starts_first};

    /// The building that runs is done: its level rises. Then the first of the items that wait is paid and starts, if it can be
    /// paid; those before it are dropped.
    ///
    /// The speed is 1 to `catalog::TOP_SPEED`.
    pub fn finish_building(&mut self, speed: u32)
        requires queue { Runs self.old.buildings.items }
        requires speed_from { 1 ≤ speed }
        requires speed_to { speed ≤ TOP_SPEED }
        ensures built { built_of self.new ≡ finished speed (fields_of self.old) (buildings_of self.old) }
        ensures yard { batches_of self.new ≡ batches_of self.old }
        ensures at { self.new.at ≡ self.old.at }
    {
        let done = self.buildings.remove(0);
        let place = place_of(done.kind);
        self.levels[place] += 1;
        self.start_waiting(done.second, speed);
    }

    /// The first of the items, which all wait, is paid and starts at a second, if it can be paid. Those before it are dropped.
    #[tactic(auto, using(crate::proofs::Queues::first_below))]
    fn start_waiting(&mut self, second: u64, speed: u32)
        requires second { second ≤ LATEST }
        requires speed_from { 1 ≤ speed }
        requires speed_to { speed ≤ TOP_SPEED }
        ensures works { works_of self.new ≡ starts_first speed second (fields_of self.old) (buildings_of self.old) }
        ensures yard { batches_of self.new ≡ batches_of self.old }
        ensures at { self.new.at ≡ self.old.at }
    {
        'waiting: while let Some(item) = self.first_building() {
            let price = self.next_price(item.kind);
            if can_pay(self.stock, price) {
                let running = self.started(item, second, speed);
                self.stock = paid(self.stock, price);
                self.buildings[0] = running;
                return;
            }
            self.buildings.remove(0);
        }
    }

    /// The first item of the queue, which is the building that runs.
    pub fn first_building(&self) -> Option<BuildingItem>
        ensures { result ≡ slice_get self.now.buildings.items 0 }
    {
        self.buildings.first().copied()
    }
}
