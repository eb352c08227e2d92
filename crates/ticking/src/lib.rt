//! The plain slow program: a universe in memory all of whose cells tick second by second, and that answers requests.
#![tactic(auto)]

mod passing;
mod universe;

pub use universe::TickingUniverse;

#[cfg(test)]
mod tests;
