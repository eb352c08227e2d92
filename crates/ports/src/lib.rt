//! Where bytes come from and go to, and what tells the time: three traits, their forms in memory
//! for tests, and their adapters over the system.
#![tactic(auto)]

mod adapters;
mod clock;
mod failed;
mod memory;
mod sink;
mod source;
#[cfg(test)]
mod tests;

pub use adapters::clock::SystemClock;
pub use adapters::sink::WriteSink;
pub use adapters::source::ReadSource;
pub use clock::{Clock, LATEST};
pub use failed::Failed;
pub use memory::clock::MemoryClock;
pub use memory::sink::MemorySink;
pub use memory::source::MemorySource;
pub use sink::Sink;
pub use source::Source;
