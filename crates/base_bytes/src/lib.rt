//! A universe at one moment, as it lies in memory, its bytes, and the laws of what it stands for.
#![tactic(auto)]

mod account_rules;
mod accounts;
mod base;
mod caps;
mod distinct;
mod fields;
mod fleet_rules;
mod fleets;
mod group_rules;
mod head;
mod keeping;
mod laws;
mod limits;
mod lists;
mod numbers;
mod parsing;
mod parts;
mod places;
mod planet_rules;
mod planets;
mod queue_rules;
mod queues;
mod ranges;
mod reading;
mod rising;
#[cfg(test)]
mod rule_tests;
mod slot_rules;
mod tallies;
#[cfg(test)]
mod tests;
mod writing;

pub use base::{Base, MOST_REQUESTS};
pub use laws::stands_for_a_universe;
pub use limits::{MOST_FIELDS, MOST_OWNED, MOST_PLANETS, MOST_PLAYERS};
pub use reading::read;
pub use writing::write;
