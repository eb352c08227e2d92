ghost use Rattle.std.specs.Prelude.{◌<◌, ◌^◌};

use base_ids::Coord;
use catalog::Technology;

/// A technology of a research queue: the number of the request that ordered it, its kind, the planet that pays it and in whose
/// lab it is researched, and, once it runs, the level that it reaches and the second at which it does, which is below 2^42.
///
/// The number is 0 until it is drawn. While the technology waits, the level and the second are 0.
#[derive(Clone, Copy, Debug, PartialEq, Eq)]
pub struct ResearchItem {
    pub number: u64,
    pub kind: Technology,
    pub at: Coord,
    pub level: u8,
    pub second: u64,
    pub ghost in_time: { second < 2 ^ 42 },
}
