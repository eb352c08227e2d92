//! A large founding text and a script for it, drawn from a seed: for measuring.
#![tactic(auto)]

mod errand;
mod head;
mod home;
mod script;
#[cfg(test)]
mod tests;
mod writing;

pub use writing::text;
