use crate::building_item::BuildingItem;
use crate::paying::paid;
use crate::places::place_of_work;
use crate::planet::Planet;
use catalog::{Building, Tenths, Work};
use std::alloc::AllocError;
use tick_model::Placed;

impl Planet {
    ghost use Rattle.std.specs.Prelude.{◌≡◌, ◌+◌, ◌<◌, ◌≤◌, ◌++◌, ◌∷◌, [], IfOk, IsTrue, OnErr, OnOk, slice_set, vec_len};
    ghost use Rattle.catalog.specs.Kinds.{place_in};
    ghost use Rattle.catalog.specs.Levels.{level_cap_of};
    ghost use Rattle.catalog.specs.declared.classes.TheConstants.{WORKS};
    ghost use Rattle.catalog.specs.declared.settings.TheConstants.{TOP_SPEED};
    ghost use Rattle.planet_cell.specs.Planet.{batches_of, buildings_of, fields_of, item_of};
    ghost use Rattle.planet_cell.specs.Queue.{CanTake, new_item, numbered, ordered, placed, works_of};
    ghost use Rattle.ports.specs.declared.clock.TheConstants.{LATEST};
    ghost use Rattle.tick_model.specs.Buildings.{can_pay, next_price};
    ghost use Rattle.tick_model.specs.Production.{level_of};

    /// Orders the next level of a building at a moment: in an empty queue it is paid and starts at once, else it waits. The
    /// number of its item is 0.
    ///
    /// The speed is 1 to `catalog::TOP_SPEED`. It fails only if memory runs out, and the planet then stays as it was.
    #[tactic(auto, using(crate::proofs::Queues::caps_ordered, crate::proofs::Counts::queued_items))]
    pub fn order_building(
        &mut self,
        building: Building,
        moment: u64,
        speed: u32,
    ) -> Result<Placed, AllocError>
        requires order { CanTake (fields_of self.old) (buildings_of self.old) building.kind }
        requires moment { moment ≤ LATEST }
        requires speed_from { 1 ≤ speed }
        requires speed_to { speed ≤ TOP_SPEED }
        ensures ok { IfOk result (λ order. order ≡ placed speed moment (fields_of self.old) (buildings_of self.old) building.kind) }
        ensures works { OnOk result (works_of self.new ≡ ordered speed moment (fields_of self.old) (buildings_of self.old) (new_item self.old.at building.kind)) }
        ensures err { OnErr result (works_of self.new ≡ works_of self.old) }
        ensures yard { batches_of self.new ≡ batches_of self.old }
        ensures at { self.new.at ≡ self.old.at }
    {
        let item = BuildingItem {
            number: 0,
            kind: building,
            level: 0,
            second: 0,
        };
        if self.buildings.is_empty() {
            return self.start_order(item, moment, speed);
        }
        self.buildings.push(item)?;
        Ok(Placed::Waits {
            place: self.buildings.len(),
        })
    }

    /// An order in an empty queue is paid and starts at a moment.
    #[tactic(auto, using(crate::proofs::Queues::caps_ordered))]
    fn start_order(
        &mut self,
        item: BuildingItem,
        moment: u64,
        speed: u32,
    ) -> Result<Placed, AllocError>
        requires empty { self.old.buildings.items ≡ [] }
        requires level { level_of (fields_of self.old) item.kind.kind < level_cap_of item.kind.kind }
        requires payable { IsTrue (can_pay (fields_of self.old).stock (next_price (fields_of self.old) item.kind.kind)) }
        requires moment { moment ≤ LATEST }
        requires speed_from { 1 ≤ speed }
        requires speed_to { speed ≤ TOP_SPEED }
        ensures ok { IfOk result (λ order. order ≡ placed speed moment (fields_of self.old) [] item.kind.kind) }
        ensures works { OnOk result (works_of self.new ≡ ordered speed moment (fields_of self.old) [] (item_of self.old.at item)) }
        ensures err { OnErr result (works_of self.new ≡ works_of self.old) }
        ensures yard { batches_of self.new ≡ batches_of self.old }
        ensures at { self.new.at ≡ self.old.at }
    {
        let price = self.next_price(item.kind);
        let running = self.started(item, moment, speed);
        self.buildings.push(running)?;
        self.stock = paid(self.stock, price);
        Ok(Placed::Starts {
            amount: u64::from(running.level),
            second: running.second,
        })
    }

    /// The last item of the building queue has this number.
    pub fn number_last_building(&mut self, number: u64)
        requires { 0 < vec_len self.old.buildings }
        ensures fields { fields_of self.new ≡ fields_of self.old }
        ensures buildings { buildings_of self.new ≡ numbered number (buildings_of self.old) }
        ensures yard { batches_of self.new ≡ batches_of self.old }
        ensures at { self.new.at ≡ self.old.at }
    {
        let last = self.buildings.len() - 1;
        let item = self.buildings[last];
        self.buildings[last] = BuildingItem {
            number,
            kind: item.kind,
            level: item.level,
            second: item.second,
        };
    }

    /// Sets the tenths at which a work runs.
    pub fn set_tenths(&mut self, work: Work, tenths: Tenths)
        ensures fields { fields_of self.new ≡ record (fields_of self.old) { tenths = slice_set (fields_of self.old).tenths (place_in WORKS work.kind) tenths.n } }
        ensures buildings { buildings_of self.new ≡ buildings_of self.old }
        ensures yard { batches_of self.new ≡ batches_of self.old }
        ensures at { self.new.at ≡ self.old.at }
    {
        self.tenths[place_of_work(work)] = tenths.n;
    }
}
