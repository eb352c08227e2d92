ghost use Rattle.std.specs.Prelude.{◌≡◌, IsTrue};
ghost use Rattle.prices.specs.Prices.{cost_in};
ghost use Rattle.rates.specs.Stock.{IsWithinCap};
ghost use Rattle.tick_model.specs.Buildings.{can_pay, paid};

use crate::building_item::BuildingItem;
use crate::planet::Planet;
use catalog::{Amounts, Building, Kind};
use prices::{Helpers, cost, seconds};
use rates::{GRAINS, Resources, whole_units};

/// Whether the whole units of stocks, which are given in grains, suffice for a price.
#[tactic(auto, unfolding(tick_model::specs::Buildings::can_pay))]
pub fn can_pay(stock: Resources, price: Amounts) -> bool
    ensures { result ≡ can_pay stock (cost_in price) }
{
    let units = whole_units(stock);
    price.m <= units.metal && price.c <= units.crystal && price.d <= units.deuterium
}

/// What is left of stocks, in grains, after a price is paid.
#[tactic(auto, unfolding(tick_model::specs::Buildings::can_pay, tick_model::specs::Buildings::paid))]
pub fn paid(stock: Resources, price: Amounts) -> Resources
    requires stock { IsWithinCap stock }
    requires enough { IsTrue (can_pay stock (cost_in price)) }
    ensures value { result ≡ paid stock (cost_in price) }
    ensures within { IsWithinCap result }
{
    Resources {
        metal: stock.metal - GRAINS * price.m,
        crystal: stock.crystal - GRAINS * price.c,
        deuterium: stock.deuterium - GRAINS * price.d,
    }
}

impl Planet {
    ghost use Rattle.std.specs.Prelude.{◌≡◌, ◌<◌, ◌≤◌, ◌^◌};
    ghost use Rattle.catalog.specs.Levels.{level_cap_of};
    ghost use Rattle.catalog.specs.declared.settings.TheConstants.{TOP_SPEED};
    ghost use Rattle.planet_cell.specs.Planet.{fields_of, item_of};
    ghost use Rattle.ports.specs.declared.clock.TheConstants.{LATEST};
    ghost use Rattle.prices.specs.Prices.{cost_in};
    ghost use Rattle.tick_model.specs.Buildings.{next_duration, next_price, started};
    ghost use Rattle.tick_model.specs.Production.{level_of};

    /// What the next level of a building costs, in units.
    #[tactic(auto, unfolding(tick_model::specs::Buildings::next_price))]
    pub(crate) fn next_price(&self, building: Building) -> Amounts
        requires { level_of (fields_of self.now) building.kind < level_cap_of building.kind }
        ensures { cost_in result ≡ next_price (fields_of self.now) building.kind }
    {
        cost(building.kind, self.level(building) + 1)
    }

    /// The seconds that the next level of a building takes, at most 2^29, at a speed of 1 to `catalog::TOP_SPEED`.
    #[tactic(auto, using(crate::proofs::Spans::next_within), unfolding(tick_model::specs::Buildings::next_price, tick_model::specs::Buildings::next_duration))]
    pub(crate) fn next_seconds(&self, building: Building, speed: u32) -> u64
        requires level { level_of (fields_of self.now) building.kind < level_cap_of building.kind }
        requires speed_from { 1 ≤ speed }
        requires speed_to { speed ≤ TOP_SPEED }
        ensures value { result ≡ next_duration speed (fields_of self.now) building.kind }
        ensures within { result ≤ 2 ^ 29 }
    {
        let helpers = Helpers::Building {
            robotics: self.level(Building {
                kind: Kind::Robotics,
            }),
            nanite: self.level(Building { kind: Kind::Nanite }),
        };
        seconds(self.next_price(building), helpers, speed)
    }

    /// An item that starts to run at a second.
    pub(crate) fn started(&self, item: BuildingItem, second: u64, speed: u32) -> BuildingItem
        requires second { second ≤ LATEST }
        requires level { level_of (fields_of self.now) item.kind.kind < level_cap_of item.kind.kind }
        requires speed_from { 1 ≤ speed }
        requires speed_to { speed ≤ TOP_SPEED }
        ensures { item_of self.now.at result ≡ started speed second (fields_of self.now) (item_of self.now.at item) }
    {
        BuildingItem {
            number: item.number,
            kind: item.kind,
            level: self.level(item.kind) + 1,
            second: second + self.next_seconds(item.kind, speed),
        }
    }
}
