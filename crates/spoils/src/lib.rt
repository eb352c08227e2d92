//! What is loaded after a battle, what a harvest takes, and which defences stand again. Nothing here takes memory or
//! refuses.
#![tactic(auto)]

mod defences;
mod harvest;
mod laws;
mod loot;
mod share;

pub use defences::rebuilt;
pub use harvest::scrape;
pub use laws::steps_are_shares;
pub use loot::load;

#[cfg(test)]
mod tests;
