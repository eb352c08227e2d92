/// The most accounts of a universe.
pub const MOST_PLAYERS: usize = 10000;

/// The most planets of a universe.
pub const MOST_PLANETS: usize = 20000;

/// The most planets of an account.
pub const MOST_OWNED: usize = 9;

/// The most fields of a planet.
pub const MOST_FIELDS: u16 = 400;
