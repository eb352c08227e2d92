//! Fleets as records: where each is at home, what becomes of it, and the lists of them that cells keep.
#![tactic(auto)]

mod changing;
mod coming_first;
mod fleet;
mod fleets;
mod raiding;

pub use fleet::Fleet;
pub use fleets::Fleets;

#[cfg(test)]
mod tests;
