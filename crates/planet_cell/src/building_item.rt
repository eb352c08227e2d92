ghost use Rattle.std.specs.Prelude.{◌<◌, ◌^◌};

use catalog::Building;

/// A building of a queue: the number of the request that ordered it, its kind, and, once it runs, the level that it reaches
/// and the second at which it does, which is below 2^42.
///
/// The number is 0 until it is drawn. While the building waits, the level and the second are 0.
#[derive(Clone, Copy, Debug, PartialEq, Eq)]
pub struct BuildingItem {
    pub number: u64,
    pub kind: Building,
    pub level: u8,
    pub second: u64,
    pub ghost in_time: { second < 2 ^ 42 },
}
