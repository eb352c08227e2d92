// Whether what is read of a planet is in its ranges.
ghost use Rattle.std.specs.Prelude.{◌≡◌, ◌↔◌, ◌+◌, ◌*◌, ◌^◌, ◌≤◌, ◌≤ℤ◌, IsTrue, length, nat_le, sum};
ghost use Rattle.std.specs.List.{list_all};
ghost use Rattle.catalog.specs.declared.ships.TheConstants.{UNITS};
ghost use Rattle.planet_cell.specs.Bounds.{AreAtMost, HasBegun, left_in};
ghost use Rattle.rates.specs.Stock.{IsWithinCap};
ghost use Rattle.rates.specs.declared.works.TheConstants.{COLDEST, HOTTEST};
ghost use Rattle.tick_model.specs.declared.codes.TheConstants.{MOST_QUEUED};

use catalog::{CAP, UNITS};
use planet_cell::Batch;
use rates::{COLDEST, GRAINS, HOTTEST, Resources};

/// Whether a planet can be so warm.
pub fn is_warm(temperature: i16) -> bool
    ensures { IsTrue result ↔ ((COLDEST ≤ℤ temperature) × (temperature ≤ℤ HOTTEST)) }
{
    (COLDEST..=HOTTEST).contains(&temperature)
}

/// Whether works can run at these tenths.
pub fn are_tenths(tenths: &[u8; 5]) -> bool
    ensures { IsTrue result ↔ AreAtMost 10 tenths.now }
{
    are_within_ten(tenths)
}

fn are_within_ten(numbers: &[u8]) -> bool
    ensures { result ≡ list_all (λ n. nat_le n 10) numbers.now }
{
    numbers.iter().all(|n| *n <= 10)
}

/// Whether there are so many items.
pub fn are_so_many<T>(items: &[T], count: usize) -> bool
    ensures { IsTrue result ↔ (length items.now ≡ count) }
{
    items.len() == count
}

/// Whether no stock is above the cap.
pub fn is_within_cap(stock: Resources) -> bool
    ensures { IsTrue result ↔ IsWithinCap stock }
{
    let most = GRAINS * CAP;
    stock.metal <= most && stock.crystal <= most && stock.deuterium <= most
}

/// Whether an account can have all these units, those that stand and those that are to be built.
pub fn are_units_within(units: &[u32; 22], yard: &[Batch]) -> bool
    requires { length yard.now ≤ MOST_QUEUED }
    ensures { IsTrue result ↔ (sum units.now + left_in yard.now ≤ UNITS) }
{
    standing(units) + ordered(yard) <= u64::from(UNITS)
}

fn standing(units: &[u32; 22]) -> u64
    ensures total { result ≡ sum units.now }
    ensures small { result ≤ 22 * 2 ^ 32 }
{
    let mut total = 0;
    'units: for count in units {
        total += u64::from(*count);
    }
    total
}

fn ordered(yard: &[Batch]) -> u64
    requires { length yard.now ≤ MOST_QUEUED }
    ensures total { result ≡ left_in yard.now }
    ensures small { result ≤ 5 * 2 ^ 32 }
{
    let mut total = 0;
    'batches: for batch in yard {
        total += u64::from(batch.left);
    }
    total
}

/// Whether the first batch has begun.
pub fn has_begun(yard: &[Batch]) -> bool
    ensures { IsTrue result ↔ HasBegun yard.now }
{
    match yard.first() {
        Some(batch) => batch.unit_seconds >= 1,
        None => true,
    }
}
