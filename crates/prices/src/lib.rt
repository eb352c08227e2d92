//! What each level and each unit costs, and how long it takes: exact values, in constant time. Each function always
//! answers, and none allocates.
#![tactic(auto)]

mod duration;
mod laws;
mod price;

pub use duration::{Helpers, seconds};
pub use laws::{durations_are_bounded, prices_are_capped};
pub use price::cost;

#[cfg(test)]
mod tests;
