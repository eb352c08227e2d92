ghost use Rattle.std.specs.Prelude.{◌≤◌, ◌<◌, ◌^◌};
ghost use Rattle.base_ids.specs.declared.numbers.TheConstants.{LAST_NUMBER};

/// The key of an event: events of one second happen in the order of their keys.
///
/// Keys are ordered by the second at which the event is due (0 to 2^42 − 1), then by the number of the request that it
/// comes from (1 to `LAST_NUMBER`; for the arrival of an attack that of its group), then by the step. The steps are 1 a
/// building done, 2 a research done, 3 a unit done, 4 an arrival, 5 a battle, 6 a return.
#[derive(Clone, Copy, Debug, PartialEq, Eq, PartialOrd, Ord)]
pub struct Key {
    pub second: u64,
    pub number: u64,
    pub step: u8,
    pub ghost in_time: { second < 2 ^ 42 },
    pub ghost number_from: { 1 ≤ number },
    pub ghost number_to: { number ≤ LAST_NUMBER },
    pub ghost step_from: { 1 ≤ step },
    pub ghost step_to: { step ≤ 6 },
}

impl Key {
    ghost use Rattle.std.specs.Prelude.{◌≡◌};
    ghost use Rattle.base_ids.specs.Order.{event_key, key_before};

    /// Whether an event with this key happens before one with the other.
    pub fn is_before(self, other: Key) -> bool
        ensures { result ≡ key_before (event_key self) (event_key other) }
    {
        self < other
    }
}
