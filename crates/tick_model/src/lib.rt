//! The game as it ticks second by second: the definitions that every answer of the server is held to.
#![tactic(auto)]

mod codes;
mod debris;
mod laws;
mod placed;
mod rules;

pub use codes::{
    BAD_MISSION, CEILING, GROUP_FULL, LEVEL_CAP, MOST_IN_GROUP, MOST_QUEUED, NO_FIELDS, NO_FLEET,
    NO_PLANET, NO_PLAYER, NO_ROOM, NO_SHIPS, NO_SLOT, NOT_OUTBOUND, NOT_YOURS, POOR, QUEUE_FULL,
    REQUIRES, TOO_LATE,
};
pub use debris::{Debris, RECYCLER_ROOM};
pub use laws::{
    answer_once, entries_are_answered, game_is_lawful, histories_are_kept, replies_are_numbered,
    worlds_are_founded, worlds_keep_limits, worlds_keep_time,
};
pub use placed::Placed;
pub use rules::Rules;
