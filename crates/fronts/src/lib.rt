//! One history that many callers share: what each of them has seen of it, and who may do what to it.
#![tactic(auto)]

mod claim;
#[cfg(test)]
mod demonstration;
mod ended;
mod fronts;
mod law;
mod laws;
mod naming;
mod notes;
mod opened;
mod passes;
mod steps;
#[cfg(test)]
mod tests;
mod tokens;
mod view;

pub use claim::Claim;
pub use ended::Ended;
pub use fronts::Fronts;
pub use laws::{named_cells_stand, numbers_tell_places};
pub use naming::{Naming, Origin};
pub use opened::Opened;
pub use tokens::{Note, Pass};
pub use view::{Sent, View};
