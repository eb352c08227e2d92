ghost use Rattle.std.specs.Prelude.{◌≡◌, ℕ, List, [], ◌∷◌, ◌++◌, ◌+◌, ◌*◌, ◌/◌, ◌≤◌, length, min, sum_by};
ghost use Rattle.battle.specs.declared.part.Part.{Part};
ghost use Rattle.catalog.specs.declared.amounts.TheConstants.{CAP};
ghost use Rattle.flight.specs.Fleets.{total};
ghost use Rattle.raids.specs.Losses.{crystal_of, metal_of};
ghost use Rattle.raids.specs.Parts.{raider_parts};
ghost use Rattle.raids.specs.declared.wrecking.TheConstants.{ENOUGH};
ghost use Rattle.tick_model.specs.Battles.{debris_after, losses, wrecks};
ghost use Rattle.tick_model.specs.Flights.{left_by};

use crate::aftermath::Raider;
use crate::mustering::fleet_units;
use battle::Part;
use catalog::{CAP, Kind};
use planet_cell::Planet;
use tick_model::Debris;

/// No more than this is counted of what was lost, in units: its three tenths are more than debris can be.
pub(crate) const ENOUGH: u64 = 16_000_000_000_000;

/// The kinds of which debris is left: all ships and satellites.
const WRECKS: [Kind; 14] = [
    Kind::SmallCargo,
    Kind::LargeCargo,
    Kind::LightFighter,
    Kind::HeavyFighter,
    Kind::Cruiser,
    Kind::Battleship,
    Kind::Battlecruiser,
    Kind::Bomber,
    Kind::Destroyer,
    Kind::Deathstar,
    Kind::Recycler,
    Kind::ColonyShip,
    Kind::Probe,
    Kind::Satellite,
];

/// What lost ships and satellites have cost, in units, counted up to `ENOUGH`.
#[derive(Clone, Copy)]
struct Wrecks {
    metal: u64,
    crystal: u64,
    ghost most_metal: { metal ≤ ENOUGH },
    ghost most_crystal: { crystal ≤ ENOUGH },
}

impl Wrecks {
    ghost use Rattle.std.specs.Prelude.{◌≡◌, ◌+◌, ◌*◌, min};
    ghost use Rattle.flight.specs.Fleets.{total};
    ghost use Rattle.raids.specs.Losses.{crystal_of, metal_of};
    ghost use Rattle.raids.specs.declared.wrecking.TheConstants.{ENOUGH};
    ghost use Rattle.tick_model.specs.Battles.{wrecks};
    ghost use Rattle.tick_model.specs.Flights.{left_by};

    /// Nothing was lost.
    fn none() -> Wrecks
        ensures metal { result.metal ≡ 0 }
        ensures crystal { result.crystal ≡ 0 }
    {
        Wrecks {
            metal: 0,
            crystal: 0,
        }
    }

    /// The same, and what was lost of these units, of which so many are left.
    fn and(self, before: &[u32; 22], left: &[u32; 22]) -> Wrecks
        ensures metal { result.metal ≡ min (self.metal + total metal_of wrecks (left_by before.now left.now)) ENOUGH }
        ensures crystal { result.crystal ≡ min (self.crystal + total crystal_of wrecks (left_by before.now left.now)) ENOUGH }
    {
        let mut all = self;
        'kinds: for (place, kind) in WRECKS.iter().enumerate() {
            let lost = before[place].saturating_sub(left[place]);
            all = all.and_some(*kind, lost);
        }
        all
    }

    /// The same, and so many of a kind.
    fn and_some(self, kind: Kind, count: u32) -> Wrecks
        ensures metal { result.metal ≡ min (self.metal + count * metal_of kind) ENOUGH }
        ensures crystal { result.crystal ≡ min (self.crystal + count * crystal_of kind) ENOUGH }
    {
        let price = kind.first_cost();
        Wrecks {
            metal: raised(self.metal, count, price.m),
            crystal: raised(self.crystal, count, price.c),
        }
    }
}

/// A sum with the price of so many units, up to `ENOUGH`.
fn raised(sum: u64, count: u32, price: u64) -> u64
    requires { price ≤ CAP }
    ensures { result ≡ min (sum + count * price) ENOUGH }
{
    let sum = u128::from(sum) + u128::from(count) * u128::from(price);
    sum.min(u128::from(ENOUGH)) as u64
}

/// What the fleets have lost of which so many ships are left.
fn wrecks_of(raiders: &[Raider], left: &[Part]) -> Wrecks
    requires { length left.now ≡ length raiders.now }
    ensures metal { result.metal ≡ min (sum_by (total metal_of wrecks) (losses (raider_parts raiders.now) left.now)) ENOUGH }
    ensures crystal { result.crystal ≡ min (sum_by (total crystal_of wrecks) (losses (raider_parts raiders.now) left.now)) ENOUGH }
{
    let mut all = Wrecks::none();
    'raiders: for (place, raider) in raiders.iter().enumerate() {
        all = all.and(&fleet_units(&raider.fleet.ships), &left[place].n);
    }
    all
}

/// The debris around a planet after a battle that left these parts of the fleets, and this one of the planet.
pub(crate) fn debris_left(raiders: &[Raider], left: &[Part], planet: &Planet, home: &Part) -> Debris
    requires { length left.now ≡ length raiders.now }
    ensures { result ≡ debris_after planet.now.debris (losses (raider_parts raiders.now) left.now ++ left_by planet.now.units home.now.n ∷ []) }
{
    let wrecks = wrecks_of(raiders, left);
    debris_after(planet.debris, wrecks.and(&planet.units, &home.n))
}

/// Debris with what is left of wrecks.
fn debris_after(there: Debris, fallen: Wrecks) -> Debris
    ensures { (lost : List (List ℕ))
        → fallen.metal ≡ min (sum_by (total metal_of wrecks) lost) ENOUGH
        → fallen.crystal ≡ min (sum_by (total crystal_of wrecks) lost) ENOUGH
        → result ≡ debris_after there lost }
{
    Debris {
        metal: littered(there.metal, fallen.metal),
        crystal: littered(there.crystal, fallen.crystal),
    }
}

/// Debris of a resource with three tenths of what was lost, up to the cap.
fn littered(there: u64, lost: u64) -> u64
    requires { lost ≤ ENOUGH }
    ensures { (all : ℕ) → lost ≡ min all ENOUGH → result ≡ min (there + 3 * all / 10) CAP }
{
    there.saturating_add(3 * lost / 10).min(CAP)
}
