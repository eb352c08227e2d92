ghost use Rattle.std.specs.Prelude.{◌<◌, ◌≤◌, ◌^◌};
ghost use Rattle.base_ids.specs.declared.numbers.TheConstants.{LAST_NUMBER};

/// In what company a fleet flies: its group, which is 0 if it joins nobody; how many fleets of that group fly to the same place;
/// whether none of them attacks it; and the second at which the fleet arrives, below 2^42.
#[derive(Clone, Copy, Debug)]
pub struct Company {
    pub group: u64,
    pub others: usize,
    pub is_missing: bool,
    pub second: u64,
    pub ghost grouped: { group ≤ LAST_NUMBER },
    pub ghost in_time: { second < 2 ^ 42 },
}
