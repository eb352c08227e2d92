/// What lies around a planet, in whole units, each at most `catalog::CAP`.
#[derive(Clone, Copy, Debug, PartialEq, Eq)]
pub struct Debris {
    pub metal: u64,
    pub crystal: u64,
}

/// How much debris a recycler takes up at most, in units.
pub const RECYCLER_ROOM: u64 = 20_000;
