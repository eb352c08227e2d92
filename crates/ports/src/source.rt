// What bytes are read from.
ghost use Rattle.std.specs.Prelude.{ℕ, List};
ghost use Rattle.std.specs.declared.option.Option.{Option};
ghost use Rattle.std.specs.Io.{ReadsAtMost};
ghost use Rattle.std.specs.Io.KnownBytes.{ReadConsumes};
ghost use Rattle.ports.specs.Causes.{HasCause};

use crate::failed::Failed;

/// What bytes are read from, in order.
pub trait Source {
    // the bytes that are left to read, if the object tells
    ghost left: { Self → Option (List ℕ) };

    // how many calls have failed, up to 2^64 - 1
    ghost faults: { Self → ℕ };

    /// Reads some of the bytes that are left into the front of `into`, and returns how many.
    /// It returns 0 for an `into` with room only if no byte is left.
    /// If it fails it has read nothing, and may be called again.
    fn read(&mut self, into: &mut [u8]) -> Result<usize, Failed>
        ensures bound { ReadsAtMost result into.new }
        ensures bytes { ReadConsumes (left self.old) (left self.new) result into.new }
        ensures cause { HasCause (faults self.old) (faults self.new) result };
}
