// A base from its bytes.
ghost use Rattle.std.specs.Prelude.{◌≡◌, IsErrOf, List, ℕ, OnOk, length};
ghost use Rattle.recovery.specs.Reopening.{IsHeadIn, Restores, base_there};

use crate::head::{Head, digest};
use crate::outcome::OpenFault;
use base_bytes::Base;
use base_text::is_same;
use std::alloc::Global;

/// The base that these bytes spell, if the digest of the head is theirs.
pub fn restore(alloc: Global, head: &Head, bytes: &[u8]) -> Result<Base, OpenFault>
    ensures restores { (content : List ℕ) → IsHeadIn content head.now → bytes.now ≡ base_there content → Restores content head.now result }
    ensures size { OnOk result (length bytes.now ≡ head.now.size) }
    ensures device { IsErrOf result OpenFault.DeviceFault → ⊥ }
{
    let computed = digest(head.generation, head.size, bytes);
    if !is_same(&computed, &head.digest) {
        return Err(OpenFault::Damaged {
            kept: head.digest,
            computed,
        });
    }
    if bytes.len() as u64 != head.size {
        return Err(OpenFault::BadBase);
    }
    match base_bytes::read(alloc, bytes)? {
        Some(base) => Ok(base),
        None => Err(OpenFault::BadBase),
    }
}
