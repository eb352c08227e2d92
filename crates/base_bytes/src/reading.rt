// Bases, read from bytes and tested.
ghost use Rattle.std.specs.Prelude.{◌↔◌, IfOk, IfSome, IsSomeAnd, IsTrue};
ghost use Rattle.base_bytes.specs.Rules.{Spells};
ghost use Rattle.base_bytes.specs.Told.{IsRead, IsTold};
ghost use Rattle.base_bytes.specs.declared.base.Base.{Base};

use crate::base::Base;
use crate::keeping::keeps_rules;
use crate::parsing::parse;
use crate::writing::write;
use std::alloc::{AllocError, Global};

/// The base that bytes spell, or none if they spell no base. It fails only if memory runs out.
///
/// A base has one spelling, and each base with this one is the same as the answer but for the memory that its lists have room for.
pub fn read(alloc: Global, bytes: &[u8]) -> Result<Option<Base>, AllocError>
    ensures spelt { IfOk result (λ found. IfSome found (Spells bytes.now)) }
    ensures each { IfOk result (λ found. (base : Base) → Spells bytes.now base → IsSomeAnd found (IsTold base)) }
{
    let Some(base) = parse(alloc, bytes)? else {
        return Ok(None);
    };
    if is_spelt(alloc, &base, bytes)? {
        Ok(Some(base))
    } else {
        Ok(None)
    }
}

// Whether a base that was read is as the rules say, and these bytes are its own.
fn is_spelt(alloc: Global, base: &Base, bytes: &[u8]) -> Result<bool, AllocError>
    requires { IsRead base.now }
    ensures { IfOk result (λ spelt. IsTrue spelt ↔ Spells bytes.now base.now) }
{
    if !keeps_rules(alloc, base)? {
        return Ok(false);
    }
    let spelling = write(alloc, base)?;
    Ok(spelling.as_slice() == bytes)
}
