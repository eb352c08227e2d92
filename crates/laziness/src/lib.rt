//! Lazy equals ticking: for every model that meets a list of laws, a universe whose cells stand at seconds of their
//! own, each brought up only when it is needed, answers as the universe that ticks second by second.
#![tactic(auto)]

mod laws;
mod ticks;

pub use laws::{
    cells_decide, closures_are_least, entries_touch_their_closure, lazy_equals_ticking,
    parcels_tick, parts_come_first, seconds_end, ticks_locally,
};
pub use ticks::Ticking;
