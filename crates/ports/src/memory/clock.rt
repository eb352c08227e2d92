// A clock that tells readings in memory.
ghost use Rattle.std.specs.Prelude.{◌≡◌, ◌≤◌, [], IfSome};
ghost use Rattle.ports.specs.Counts.{next_count};
ghost use Rattle.ports.specs.Readings.{TellsReading, reading_at, readings_told};
ghost use Rattle.ports.specs.declared.clock.TheConstants.{LATEST};

use crate::clock::{Clock, LATEST};

/// A clock that tells readings in memory, in order, for tests. It repeats the last one, tells 0
/// if there is none, and tells one above `LATEST` as `LATEST`.
#[derive(Clone, Copy)]
pub struct MemoryClock<'a> {
    /// The readings to tell, from the first.
    pub readings: &'a [u64],
    /// How many readings were told, up to 2^64 - 1.
    pub count: u64,
    /// The last reading told, and 0 before the first.
    pub latest: u64,
}

impl<'a> MemoryClock<'a> {
    /// Makes a clock that tells these readings.
    pub fn new(readings: &'a [u64]) -> Self
        ensures readings { result.readings.now ≡ readings.now }
        ensures untold { result.count ≡ 0 }
        ensures unread { result.latest ≡ 0 }
    {
        MemoryClock {
            readings,
            count: 0,
            latest: 0,
        }
    }
}

impl Clock for MemoryClock<'_> {
    ghost last = { λ c. c.latest };

    ghost told = { λ c. readings_told c.readings.now c.count };

    #[tactic(auto, using(crate::proofs::Tellings::tellings))]
    fn now(&mut self) -> u64
        ensures range { result ≤ LATEST }
        ensures latest { self.new.latest ≡ result }
        ensures gains { TellsReading (readings_told self.old.readings.now self.old.count)
            (readings_told self.new.readings.now self.new.count) result }
        ensures reading { result ≡ reading_at self.old.readings.now self.old.count }
        ensures count { self.new.count ≡ next_count self.old.count }
        ensures readings { self.new.readings.now ≡ self.old.readings.now }
    {
        let reading = take_reading(self.readings, self.count);
        self.count = self.count.saturating_add(1);
        self.latest = reading;
        reading
    }

    #[tactic(auto, using(crate::proofs::Tellings::tellings))]
    fn twin(&self) -> Self
        ensures unread { result.latest ≡ 0 }
        ensures untold { IfSome (readings_told result.readings.now result.count) (λ readings. readings ≡ []) }
        ensures count { result.count ≡ 0 }
        ensures readings { result.readings.now ≡ self.now.readings.now }
    {
        MemoryClock::new(self.readings)
    }
}

// The reading at a place of the list, the last one past its end, and 0 if it is empty.
#[tactic(auto, unfolding(crate::specs::Readings::reading_at))]
fn take_reading(readings: &[u64], place: u64) -> u64
    ensures value { result ≡ reading_at readings.now place }
    ensures range { result ≤ LATEST }
{
    let end = readings.len().saturating_sub(1);
    let place = (place as usize).min(end);
    let reading = readings.get(place).copied().unwrap_or(0);
    reading.min(LATEST)
}
