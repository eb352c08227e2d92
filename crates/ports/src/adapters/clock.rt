// A clock over the system's.
ghost use Rattle.std.specs.Prelude.{◌≡◌, ◌-◌, ◌/◌, ◌≤◌, min, None, [], IfSome, MatchResult};
ghost use Rattle.std.specs.Duration.{as_nanos};
ghost use Rattle.ports.specs.Readings.{TellsReading};
ghost use Rattle.ports.specs.declared.clock.TheConstants.{LATEST};

use crate::clock::{Clock, LATEST};
use std::time::Duration;
use std::{io, rt};

/// A clock over the system's. If the system gives no time it repeats its last reading, and it
/// tells a time after `LATEST` as `LATEST`. It keeps no list of its readings.
#[derive(Drop)]
pub struct SystemClock<'a, R> {
    system: &'a R,
    latest: u64,
    ghost in_range: { latest ≤ LATEST },
}

impl<'a, R: rt::Clock> SystemClock<'a, R> {
    /// Makes a clock that reads this system and has told nothing yet.
    pub fn new(system: &'a R) -> Self
        ensures { ⟦<SystemClock<'a, R> as Clock>⟧.last result ≡ 0 }
    {
        SystemClock { system, latest: 0 }
    }
}

impl<R: rt::Clock> Clock for SystemClock<'_, R> {
    ghost last = { λ c. c.latest };

    ghost told = { λ _. None };

    fn now(&mut self) -> u64 {
        self.latest = seconds_of(self.system.since_1970(), self.latest);
        self.latest
    }

    fn twin(&self) -> Self {
        SystemClock::new(self.system)
    }
}

// The whole seconds of a time that the system gave, or the last reading if it gave none.
fn seconds_of(time: io::Result<Duration>, latest: u64) -> u64
    ensures { MatchResult time (λ since. result ≡ min (as_nanos since / 1_000_000_000) LATEST) (λ _. result ≡ latest) }
{
    match time {
        Ok(since) => since.as_secs().min(LATEST),
        Err(_) => latest,
    }
}
