// The first bytes of a base.
ghost use Rattle.std.specs.Prelude.{◌≡◌, ◌++◌, ◌<◌, ◌≤◌, ◌^◌, ◌↔◌, IsSomeAnd, IsTrue, List, ℕ};
ghost use Rattle.base_bytes.specs.Spelling.{counts_bytes, rules_bytes};
ghost use Rattle.base_bytes.specs.Told.{AreSizes, IsHead, SizesFit};
ghost use Rattle.base_bytes.specs.declared.base.Base.{Base};
ghost use Rattle.base_bytes.specs.declared.base.TheConstants.{MOST_REQUESTS};
ghost use Rattle.base_bytes.specs.declared.head.TheConstants.{MARK};
ghost use Rattle.base_ids.specs.declared.numbers.TheConstants.{LAST_NUMBER};
ghost use Rattle.catalog.specs.declared.settings.TheConstants.{TOP_SPEED};
ghost use Rattle.ports.specs.declared.clock.TheConstants.{LATEST};

use crate::base::MOST_REQUESTS;
use crate::limits::{MOST_PLANETS, MOST_PLAYERS};
use crate::parts::{Head, Sizes};
use base_ids::LAST_NUMBER;
use catalog::TOP_SPEED;
use ports::LATEST;
use records::numbers::Numbers;

/// The eight bytes `OGBASE01`, as a number.
const MARK: u64 = 0x4f47_4241_5345_3031;

/// The head of a base, if it has the mark and all is in its range.
pub fn next_head(numbers: &mut Numbers) -> Option<Head>
    ensures { (base : Base) (more : List ℕ) → base.seed < 2 ^ 64 → numbers.old.rest.now ≡ rules_bytes base ++ more
        → IsSomeAnd result (IsHead base) × (numbers.new.rest.now ≡ more) }
{
    let mark = numbers.next_u64();
    let seed = numbers.next_u64();
    let speed = numbers.next_u32();
    let capacity = numbers.next_u32();
    let moment = numbers.next_u64();
    let number = numbers.next_u64();
    if !is_head(mark, speed, capacity, moment, number) {
        return None;
    }
    Some(Head {
        seed,
        speed,
        capacity,
        moment,
        number,
    })
}

// Whether a base can begin with this mark and have these numbers.
fn is_head(mark: u64, speed: u32, capacity: u32, moment: u64, number: u64) -> bool
    ensures { IsTrue result ↔ ((mark ≡ MARK) × (1 ≤ speed) × (speed ≤ TOP_SPEED) × (1 ≤ capacity) × (capacity ≤ MOST_REQUESTS)
        × (moment ≤ LATEST) × (number ≤ LAST_NUMBER)) }
{
    mark == MARK
        && (1..=TOP_SPEED).contains(&speed)
        && (1..=MOST_REQUESTS).contains(&capacity)
        && moment <= LATEST
        && number <= LAST_NUMBER
}

/// The sizes of a base, if it has no more accounts and planets than it may have.
pub fn next_sizes(numbers: &mut Numbers) -> Option<Sizes>
    ensures { (base : Base) (more : List ℕ) → SizesFit base → numbers.old.rest.now ≡ counts_bytes base ++ more
        → IsSomeAnd result (AreSizes base) × (numbers.new.rest.now ≡ more) }
{
    let accounts = numbers.next_u32() as usize;
    let planets = numbers.next_u32() as usize;
    let fleets = numbers.next_u32() as usize;
    if accounts > MOST_PLAYERS || planets > MOST_PLANETS {
        return None;
    }
    Some(Sizes {
        accounts,
        planets,
        fleets,
    })
}
