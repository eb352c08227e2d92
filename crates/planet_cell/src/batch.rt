ghost use Rattle.std.specs.Prelude.{◌<◌, ◌≤◌, ◌^◌};

use catalog::Unit;

/// A batch of a yard: the number of the request that ordered it, the kind of its units, and how many of them are left to build, at
/// least 1. Once it is the first of the yard it also has the seconds that each of them takes, at most 2^41, and the second at which
/// the next one is done, which is below 2^42.
///
/// The number is 0 until it is drawn. While the batch waits, the last two are 0.
#[derive(Clone, Copy, Debug, PartialEq, Eq)]
pub struct Batch {
    pub number: u64,
    pub kind: Unit,
    pub left: u32,
    pub unit_seconds: u64,
    pub second: u64,
    pub ghost some: { 1 ≤ left },
    pub ghost short: { unit_seconds ≤ 2 ^ 41 },
    pub ghost in_time: { second < 2 ^ 42 },
}
