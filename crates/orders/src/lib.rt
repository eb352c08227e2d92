//! The requests of players: what each comes to, what it changes of the parts that it asks for, and the lines that show them.
#![tactic(auto)]

mod acting;
mod company;
mod errand;
mod joining;
mod links;
mod ordering;
mod parts;
mod queues;
mod recalling;
mod researching;
mod sending;
mod telling;
mod writing;

pub use acting::act;
pub use parts::{Acted, PartFleets, Parts, SystemPlanet};
pub use writing::{account_lines, own_fleet_lines, planet_lines};

#[cfg(test)]
mod fleet_tests;
#[cfg(test)]
mod join_tests;
#[cfg(test)]
mod tests;
