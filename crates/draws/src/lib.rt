//! Draws of whole numbers from a stream of random words. Nothing here takes memory or refuses.
#![tactic(auto)]

mod laws;
mod stream;

pub use laws::{draws_are_below, words_come_in_turn};
pub use stream::Draws;

#[cfg(test)]
mod tests;
