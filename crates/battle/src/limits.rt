//! The bounds of a battle, each of them once: code and definitions take them from here.

/// The most rounds of a battle.
pub(crate) const MOST_ROUNDS: u8 = 6;

/// The most shots that a unit fires in a round.
pub(crate) const MOST_SHOTS: u32 = 4096;

/// The most units of a side.
pub(crate) const MOST_UNITS: u64 = 800_000;
