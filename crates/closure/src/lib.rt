//! Which cells a request needs: those that it asks for, those without which these can't be brought to its moment, and
//! so on.
#![tactic(auto)]

mod asking;
mod ids;
mod look;
mod outcome;
mod places;
mod spot;
mod walk;

pub use asking::asked;
pub use ids::Ids;
pub use look::CellLook;
pub use outcome::Needed;
pub use places::Places;
pub use spot::Spot;
pub use walk::needed;

#[cfg(test)]
mod tests;
