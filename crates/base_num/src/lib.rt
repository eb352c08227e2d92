//! Whole numbers of up to 128 bits: quotients rounded down and up, and whole square roots. Each function always
//! answers, and none allocates.
#![tactic(auto)]

mod division;
mod root;

pub use division::{ceiling, floor};
pub use root::isqrt;

#[cfg(test)]
mod tests;
