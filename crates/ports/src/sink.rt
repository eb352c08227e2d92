// What bytes are written to.
ghost use Rattle.std.specs.Prelude.{ℕ, List, ◌<◌, length, IfOk};
ghost use Rattle.std.specs.declared.option.Option.{Option};
ghost use Rattle.std.specs.Io.{WritesAtMost};
ghost use Rattle.std.specs.Io.KnownBytes.{WriteAppends};
ghost use Rattle.ports.specs.Causes.{HasCause};

use crate::failed::Failed;

/// What bytes are written to, in order.
pub trait Sink {
    // the bytes that were written, if the object tells
    ghost written: { Self → Option (List ℕ) };

    // how many calls have failed, up to 2^64 - 1
    ghost faults: { Self → ℕ };

    /// Writes some of the bytes at the front of `from`, and returns how many: at least one, if
    /// `from` has one. If it fails it has written nothing, and may be called again.
    fn write(&mut self, from: &[u8]) -> Result<usize, Failed>
        ensures bound { WritesAtMost result from.now }
        ensures some { IfOk result (λ n. 0 < length from.now → 0 < n) }
        ensures bytes { WriteAppends (written self.old) (written self.new) result from.now }
        ensures cause { HasCause (faults self.old) (faults self.new) result };
}
