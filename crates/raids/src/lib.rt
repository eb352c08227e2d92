//! Attacks: what a battle leaves of the fleets of a group and of the planet that they attack.
#![tactic(auto)]

mod aftermath;
mod carrying;
mod fighting;
mod leaving;
mod mustering;
mod plundering;
mod rebuilding;
mod wrecking;

pub use aftermath::{Aftermath, Raider};
pub use fighting::fight;

#[cfg(test)]
mod tests;
