//! How far, how fast and how long fleets fly, what they burn and what they carry: exact values, in constant time. Each
//! function always answers, and none allocates.
#![tactic(auto)]

mod distances;
mod durations;
mod freight;
mod speeds;

pub use distances::distance;
pub use durations::seconds;
pub use freight::{capacity, fuel};
pub use speeds::speed;

#[cfg(test)]
mod tests;
