/// The last number that a request can have: 2^40 − 1. A fleet has the number of the request that sent it.
pub const LAST_NUMBER: u64 = (1 << 40) - 1;

/// The last player. The first is 1.
pub const LAST_PLAYER: u32 = 65535;

/// The last galaxy. The first is 1.
pub const LAST_GALAXY: u8 = 9;

/// The last system of a galaxy. The first is 1.
pub const LAST_SYSTEM: u16 = 499;

/// The last position of a system. The first is 1.
pub const LAST_POSITION: u8 = 15;
