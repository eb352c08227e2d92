ghost use Rattle.std.specs.Prelude.{◌≡◌, ◌*◌, IsTrue, map, min, sum_by};
ghost use Rattle.fleet_rec.specs.Fleet.{cargo_seen, fleet_seen};
ghost use Rattle.prices.specs.Prices.{cost_in};
ghost use Rattle.raids.specs.declared.plundering.TheConstants.{PLENTY};
ghost use Rattle.rates.specs.Stock.{IsWithinCap};
ghost use Rattle.tick_model.specs.Battles.{loot, loot_if};
ghost use Rattle.tick_model.specs.Buildings.{can_pay};
ghost use Rattle.tick_model.specs.Flights.{free_room};

use battle::Verdict;
use catalog::Amounts;
use fleet_rec::Fleet;
use planet_cell::free_room;
use rates::{Resources, whole_units};
use spoils::load;

/// Free room is counted up to this, in units: all that a planet can have fits into it.
pub(crate) const PLENTY: u64 = 16_000_000_000_000;

/// What the fleets take of stocks, which are in grains: if the attackers have won, at most half of the whole units of each.
#[tactic(auto, unfolding(tick_model::specs::Buildings::can_pay))]
pub(crate) fn plunder(verdict: Verdict, fleets: &[Fleet], stock: Resources) -> Amounts
    requires { IsWithinCap stock }
    ensures value { cargo_seen result ≡ loot_if verdict (map fleet_seen fleets.now) stock }
    ensures paid { IsTrue (can_pay stock (cost_in result)) }
{
    match verdict {
        Verdict::Attackers => loot(fleets, stock),
        Verdict::Planet | Verdict::Draw => Amounts { m: 0, c: 0, d: 0 },
    }
}

/// What fleets that have won take of stocks.
#[tactic(auto, unfolding(tick_model::specs::Buildings::can_pay))]
fn loot(fleets: &[Fleet], stock: Resources) -> Amounts
    requires { IsWithinCap stock }
    ensures value { cargo_seen result ≡ loot (map fleet_seen fleets.now) stock }
    ensures paid { IsTrue (can_pay stock (cost_in result)) }
{
    let there = whole_units(stock);
    let may = Amounts {
        m: there.metal / 2,
        c: there.crystal / 2,
        d: there.deuterium / 2,
    };
    load(room_of(fleets), may)
}

/// The free room of all fleets, counted up to `PLENTY`.
fn room_of(fleets: &[Fleet]) -> u64
    ensures { result ≡ min (sum_by free_room (map fleet_seen fleets.now)) PLENTY }
{
    let mut room = 0;
    'fleets: for fleet in fleets {
        room = (room + free_room(fleet)).min(PLENTY);
    }
    room
}
