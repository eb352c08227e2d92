// Bases, read from bytes.
ghost use Rattle.std.specs.Prelude.{◌≡◌, IfOk, IfSome, IsSomeAnd};
ghost use Rattle.base_bytes.specs.Spelling.{base_spelling};
ghost use Rattle.base_bytes.specs.Told.{FitsBytes, IsRead, IsTold};
ghost use Rattle.base_bytes.specs.declared.base.Base.{Base};

use crate::base::Base;
use crate::head::{next_head, next_sizes};
use crate::lists::{next_fleets, next_list};
use crate::places::with_all_places;
use records::numbers::Numbers;
use std::alloc::{AllocError, Global};

/// The only base that the bytes may spell. Whether they do is not tested.
pub fn parse(alloc: Global, bytes: &[u8]) -> Result<Option<Base>, AllocError>
    ensures base { IfOk result (λ found. (base : Base) → FitsBytes base → bytes.now ≡ base_spelling base → IsSomeAnd found (IsTold base)) }
    ensures read { IfOk result (λ found. IfSome found IsRead) }
{
    let mut numbers = Numbers { rest: bytes };
    let (Some(head), Some(sizes)) = (next_head(&mut numbers), next_sizes(&mut numbers)) else {
        return Ok(None);
    };
    let accounts = next_list(alloc, &mut numbers, sizes.accounts)?;
    let planets = next_list(alloc, &mut numbers, sizes.planets)?;
    let (Some(accounts), Some(planets)) = (accounts, planets) else {
        return Ok(None);
    };
    let fleets = next_fleets(alloc, &mut numbers, &planets, sizes.fleets)?;
    let Some(fleets) = fleets else {
        return Ok(None);
    };
    let accounts = with_all_places(alloc, accounts, &planets)?;
    Ok(Some(Base {
        seed: head.seed,
        speed: head.speed,
        capacity: head.capacity,
        moment: head.moment,
        number: head.number,
        accounts,
        planets,
        fleets,
    }))
}
