// What tells the time.
ghost use Rattle.std.specs.Prelude.{◌≡◌, ℕ, ◌≤◌, List, [], IfSome};
ghost use Rattle.std.specs.declared.option.Option.{Option};
ghost use Rattle.ports.specs.Readings.{TellsReading};
ghost use Rattle.ports.specs.declared.clock.TheConstants.{LATEST};

/// The greatest reading that a clock tells, in whole seconds since 1970: 2^40 - 1.
pub const LATEST: u64 = (1 << 40) - 1;

/// What tells the time, in whole seconds since 1970, from 0 to `LATEST`. A call never fails, and
/// a reading may be lower than the one before it.
pub trait Clock: Sized {
    // the last reading told, and 0 before the first
    ghost last: { Self → ℕ };

    // all readings told, oldest first, if the object tells
    ghost told: { Self → Option (List ℕ) };

    /// Tells a reading.
    fn now(&mut self) -> u64
        ensures range { result ≤ LATEST }
        ensures latest { last self.new ≡ result }
        ensures gains { TellsReading (told self.old) (told self.new) result };

    /// Makes a clock of the same kind that has told nothing yet.
    fn twin(&self) -> Self
        ensures unread { last result ≡ 0 }
        ensures untold { IfSome (told result) (λ readings. readings ≡ []) };
}
