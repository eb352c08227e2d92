ghost use Rattle.std.specs.Prelude.{◌≡◌, ◌≤◌};
ghost use Rattle.catalog.specs.Levels.{level_cap_of};
ghost use Rattle.catalog.specs.declared.kind.Kind.TheVariants.{CrystalStore, DeuteriumTank, MetalStore};
ghost use Rattle.rates.specs.Production.{IsStorable, produced_once, stores};
ghost use Rattle.rates.specs.Stock.{IsWithinCap};
ghost use Rattle.rates.specs.Times.{times};
ghost use Rattle.rates.specs.Yields.{AreSmall};

use crate::resources::Resources;
use crate::stock::{GRAINS, gain};
use crate::works::Hourly;
use catalog::storage_limit;

/// The stocks of a planet, in grains, after `seconds` seconds of production with these limits, in units, and these
/// yields, in units an hour.
///
/// Each stock gains by itself, as `gain` says: below its limit it gains and is cut there, and at its limit or above it
/// stays. No loop over the seconds is made.
#[tactic(auto, using(crate::proofs::Gains::production))]
pub fn produce(stock: Resources, limits: Resources, hourly: Hourly, seconds: u64) -> Resources
    requires stock { IsWithinCap stock }
    requires limits { IsStorable limits }
    requires hourly { AreSmall hourly }
    ensures value { result ≡ times seconds (produced_once limits hourly) stock }
    ensures within { IsWithinCap result }
{
    Resources {
        metal: gain(stock.metal, GRAINS * limits.metal, hourly.metal, seconds),
        crystal: gain(
            stock.crystal,
            GRAINS * limits.crystal,
            hourly.crystal,
            seconds,
        ),
        deuterium: gain(
            stock.deuterium,
            GRAINS * limits.deuterium,
            hourly.deuterium,
            seconds,
        ),
    }
}

/// How far production fills a planet's stocks, in units, by the levels of its metal store, its crystal store and its
/// deuterium tank, 0 to 16 each.
pub fn storage_of(metal_store: u8, crystal_store: u8, tank: u8) -> Resources
    requires metal { metal_store ≤ level_cap_of MetalStore }
    requires crystal { crystal_store ≤ level_cap_of CrystalStore }
    requires deuterium { tank ≤ level_cap_of DeuteriumTank }
    ensures value { result ≡ stores metal_store crystal_store tank }
    ensures within { IsStorable result }
{
    Resources {
        metal: storage_limit(metal_store),
        crystal: storage_limit(crystal_store),
        deuterium: storage_limit(tank),
    }
}
