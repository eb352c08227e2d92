/// The caller isn't a player.
pub const NO_PLAYER: u8 = 1;

/// No planet stands at the place.
pub const NO_PLANET: u8 = 2;

/// The planet is somebody else's.
pub const NOT_YOURS: u8 = 3;

/// The queue has as many items as it may have.
pub const QUEUE_FULL: u8 = 4;

/// The level and the items of the kind that are queued reach the highest level.
pub const LEVEL_CAP: u8 = 5;

/// A prerequisite isn't met.
pub const REQUIRES: u8 = 6;

/// The levels and the buildings that are queued reach the planet's fields.
pub const NO_FIELDS: u8 = 7;

/// The planet has fewer ships of a kind than are to be sent.
pub const NO_SHIPS: u8 = 8;

/// No planet stands at the target, or it is the origin, or the mission doesn't suit it or the ships.
pub const BAD_MISSION: u8 = 9;

/// The account has as many fleets as it may have.
pub const NO_SLOT: u8 = 10;

/// Cargo and fuel don't fit into the ships.
pub const NO_ROOM: u8 = 11;

/// The planet can't pay.
pub const POOR: u8 = 12;

/// The caller has no fleet of that number.
pub const NO_FLEET: u8 = 13;

/// The fleet is on its way back.
pub const NOT_OUTBOUND: u8 = 14;

/// A fleet that is to join a group would arrive later than the group.
pub const TOO_LATE: u8 = 15;

/// The group has as many fleets that fly out as it may have.
pub const GROUP_FULL: u8 = 16;

/// The account's units, those that are ordered included, would be more than `catalog::UNITS`.
pub const CEILING: u8 = 17;

/// The most items of a queue, the one that runs included.
pub const MOST_QUEUED: usize = 5;

/// The most fleets that fly out in one group.
pub const MOST_IN_GROUP: usize = 8;
