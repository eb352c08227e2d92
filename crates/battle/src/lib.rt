//! Battles, each judged by the list of its shots.
#![tactic(auto)]

mod army;
mod combatant;
mod fighter;
mod fighting;
mod firing;
mod laws;
mod limits;
mod muster;
mod outcome;
mod part;
mod rapid_fire;
mod ready;
mod rounds;
mod survivors;
mod unit_state;

pub use fighting::fight;
pub use laws::{battles_end_as_their_course, battles_have_one_trace, no_unit_is_gained};
pub use outcome::{Outcome, Verdict};
pub use part::{Part, Side};

#[cfg(test)]
mod tests;
