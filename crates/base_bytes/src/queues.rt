// The queues of a base, read from its bytes.
ghost use Rattle.std.specs.Prelude.{◌≡◌, ◌≤◌, ◌<◌, ◌^◌, ◌∷◌, ◌++◌, ◌↔◌, All, IfOk, IfSome, IsSomeAnd, IsTrue, List, ℕ, Some, length, vec_len};
ghost use Rattle.std.specs.List.{flat_map};
ghost use Rattle.base_bytes.specs.Spelling.{batch_bytes, building_bytes, coord_bytes, research_bytes};
ghost use Rattle.base_ids.specs.declared.coord.Coord.{Coord};
ghost use Rattle.catalog.specs.Kinds.{kind_number};
ghost use Rattle.tick_model.specs.declared.codes.TheConstants.{MOST_QUEUED};

use account_cell::ResearchItem;
use base_ids::Coord;
use catalog::Class;
use planet_cell::{Batch, BuildingItem};
use records::numbers::Numbers;
use records::readers::next_place;
use records::values::{coord, member};
use std::alloc::{AllocError, Global};
use tick_model::MOST_QUEUED;

/// An item of a queue, which bytes spell.
pub trait Spelled: Sized {
    ghost bytes: { Self → List ℕ };

    // whether its numbers fit in the bytes that they have
    ghost Fits: { Self → Type 0 };

    fn next(numbers: &mut Numbers) -> Option<Self>
        ensures { (item : Self) (more : List ℕ) → Fits item → numbers.old.rest.now ≡ bytes item ++ more
            → (result ≡ Some item) × (numbers.new.rest.now ≡ more) };
}

/// How many items a queue has, and the items.
pub fn next_queue<T: Spelled + Drop>(
    alloc: Global,
    numbers: &mut Numbers,
) -> Result<Option<Vec<T>>, AllocError>
    ensures items { IfOk result (λ found. (items : List T) (more : List ℕ) → length items ≤ MOST_QUEUED → All T.Fits items
        → numbers.old.rest.now ≡ length items ∷ (flat_map T.bytes items ++ more)
        → IsSomeAnd found (λ queue. queue.items ≡ items) × (numbers.new.rest.now ≡ more)) }
    ensures room { IfOk result (λ found. IfSome found (λ queue. vec_len queue ≤ MOST_QUEUED)) }
{
    let count = numbers.next_u8();
    if usize::from(count) > MOST_QUEUED {
        return Ok(None);
    }
    let mut queue = Vec::new(alloc);
    'items: for _ in 0..count {
        let Some(item) = T::next(numbers) else {
            return Ok(None);
        };
        queue.push(item)?;
    }
    Ok(Some(queue))
}

pub fn next_coord(numbers: &mut Numbers) -> Option<Coord>
    ensures { (at : Coord) (more : List ℕ) → numbers.old.rest.now ≡ coord_bytes at ++ more
        → (result ≡ Some at) × (numbers.new.rest.now ≡ more) }
{
    coord(next_place(numbers))
}

fn next_member<C: Class>(numbers: &mut Numbers) -> Option<C>
    ensures { (member : C) (more : List ℕ) → numbers.old.rest.now ≡ kind_number (C.kind_of member) ∷ more
        → IsSomeAnd result (λ found. C.kind_of found ≡ C.kind_of member) × (numbers.new.rest.now ≡ more) }
{
    member(numbers.next_u8())
}

impl Spelled for ResearchItem {
    ghost bytes = { research_bytes };

    ghost Fits = { λ item. item.number < 2 ^ 64 };

    fn next(numbers: &mut Numbers) -> Option<ResearchItem> {
        let number = numbers.next_u64();
        let kind = next_member(numbers)?;
        let at = next_coord(numbers)?;
        let level = numbers.next_u8();
        let second = numbers.next_u64();
        if second >= 1 << 42 {
            return None;
        }
        Some(ResearchItem {
            number,
            kind,
            at,
            level,
            second,
        })
    }
}

impl Spelled for BuildingItem {
    ghost bytes = { building_bytes };

    ghost Fits = { λ item. item.number < 2 ^ 64 };

    fn next(numbers: &mut Numbers) -> Option<BuildingItem> {
        let number = numbers.next_u64();
        let kind = next_member(numbers)?;
        let level = numbers.next_u8();
        let second = numbers.next_u64();
        if second >= 1 << 42 {
            return None;
        }
        Some(BuildingItem {
            number,
            kind,
            level,
            second,
        })
    }
}

impl Spelled for Batch {
    ghost bytes = { batch_bytes };

    ghost Fits = { λ batch. (batch.number < 2 ^ 64) × (batch.left < 2 ^ 32) };

    fn next(numbers: &mut Numbers) -> Option<Batch> {
        let number = numbers.next_u64();
        let kind = next_member(numbers)?;
        let left = numbers.next_u32();
        let unit_seconds = numbers.next_u64();
        let second = numbers.next_u64();
        if !is_batch(left, unit_seconds, second) {
            return None;
        }
        Some(Batch {
            number,
            kind,
            left,
            unit_seconds,
            second,
        })
    }
}

// Whether a batch can have these numbers.
fn is_batch(left: u32, unit_seconds: u64, second: u64) -> bool
    ensures { IsTrue result ↔ ((1 ≤ left) × (unit_seconds ≤ 2 ^ 41) × (second < 2 ^ 42)) }
{
    left >= 1 && unit_seconds <= 1 << 41 && second < 1 << 42
}
