//! A disk with its crashes: the trait, its form in memory for tests, and its form over a file.
#![tactic(auto)]

mod change;
mod disk;
mod disks;
mod file;
mod laws;
mod memory;
mod synced;
#[cfg(test)]
mod tests;

pub use change::Change;
pub use disk::Disk;
pub use disks::{Disks, OpenRefused, Served};
pub use file::FileDisk;
pub use laws::{cuts_tear, moments_chain, pairs_chain, writes_hold, writes_tear};
pub use memory::MemoryDisk;
pub use synced::write_and_sync;
