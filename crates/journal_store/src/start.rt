// What a journal goes on from.

/// The last place at which a journal can start: 2^40.
pub const LAST_START: u64 = 1 << 40;

/// What a journal goes on from: what was found on its disk.
#[derive(Clone, Copy, Debug, PartialEq, Eq)]
pub struct Start {
    /// The number and the moment of the last entry, or those of the base if there is none.
    pub last_number: u64,
    pub last_moment: u64,
    /// How many entries there are since the base, and how many there may be.
    pub count: u64,
    pub capacity: u32,
    /// The place of the first closed gate.
    pub end: u64,
    /// Whether the disk ends before that place, so that there is no such gate yet.
    pub short: bool,
}
