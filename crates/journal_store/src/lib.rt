//! The journal: entries are numbered in one order, and made durable in batches.
#![tactic(auto)]

mod batch;
mod drawing;
mod flush;
mod gate;
mod journal;
mod laws;
mod start;
#[cfg(test)]
mod tests;

pub use batch::BATCH;
pub use drawing::{Draw, Prepared};
pub use journal::Journal;
pub use laws::{batches_join, journals_stand};
pub use start::{LAST_START, Start};
