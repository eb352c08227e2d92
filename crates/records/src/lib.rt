//! Entries of the history as bytes: 256 for each, and one spelling. Numbers and values that are read from bytes.
#![tactic(auto)]

mod entries;
pub mod fields;
pub mod numbers;
pub mod readers;
mod requests;
mod sheet;
#[cfg(test)]
mod tests;
pub mod values;

pub use entries::{read, write};
