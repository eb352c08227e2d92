//! Cells that are held, and the events that come due among them.
#![tactic(auto)]

mod applying;
mod combat;
mod due;
mod fighting;
mod gaining;
mod happening;
mod held;
mod joining;
mod landing;
mod looking;
mod merging;
mod numbering;
mod queue;
mod researching;
#[cfg(test)]
mod tests;

pub use applying::apply;
pub use due::Due;
pub use happening::Happening;
pub use held::{AccountCell, Held, PlanetCell};
pub use queue::Queue;
