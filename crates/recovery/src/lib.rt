//! Areas: the two files of a universe, each with a base and the entries since.
#![tactic(auto)]

mod choosing;
mod head;
mod laws;
mod laying;
mod looking;
mod outcome;
mod reading;
mod rebasing;
mod reopening;
#[cfg(test)]
mod reopening_tests;
mod restoring;
#[cfg(test)]
mod tests;

pub use head::{Head, MARK};
pub use laws::{areas_open_once, areas_reopen};
pub use laying::lay;
pub use looking::look;
pub use outcome::{Found, OpenFault};
pub use rebasing::{RebaseFault, rebase};
pub use reopening::reopen;
