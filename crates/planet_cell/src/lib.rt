//! One planet: what it is at a moment, how it comes to a later one, and how its buildings and its units are ordered and done.
#![tactic(auto)]

mod batch;
mod batching;
mod battling;
mod building_item;
mod departing;
mod growing;
mod mooring;
mod ordering;
mod paying;
mod places;
mod planet;
mod queueing;
mod reading;
mod refusing;
mod researching;
mod running;
mod yard;
mod yard_refusing;

pub use batch::Batch;
pub use battling::free_room;
pub use building_item::BuildingItem;
pub use growing::seconds_add_up;
pub use places::{place_of, place_of_unit};
pub use planet::Planet;

#[cfg(test)]
mod fleet_tests;
#[cfg(test)]
mod tests;
#[cfg(test)]
mod yard_tests;
