ghost use Rattle.std.specs.Prelude.{◌≡◌, IfOk, OnOk};
ghost use Rattle.generate.specs.Calls.{AreCalls};
ghost use Rattle.generate.specs.Generated.{generated};

use crate::head::push_founding;
use crate::script::push_script;
use base_text::Bytes;
use std::alloc::{AllocError, Global};

/// A founding text of 50 players with two planets each, and then so many lines of requests, drawn from the seed. The same
/// seed and count always give the same text. It fails only if memory runs out.
pub fn text(alloc: Global, seed: u64, lines: u32) -> Result<Bytes, AllocError>
    ensures text { IfOk result (λ text. text ≡ generated seed lines) }
    ensures calls { OnOk result (AreCalls seed lines) }
{
    let mut out = Bytes::new(alloc);
    push_founding(alloc, &mut out, seed, lines)?;
    push_script(alloc, &mut out, seed, lines)?;
    Ok(out)
}
