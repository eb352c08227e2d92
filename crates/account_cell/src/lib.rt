//! One account: what it is at a moment, and how its research is ordered and done.
#![tactic(auto)]

mod account;
mod finishing;
mod ordering;
mod places;
mod pricing;
mod refusing;
mod research_item;

pub use account::Account;
pub use places::place_of;
pub use research_item::ResearchItem;

#[cfg(test)]
mod tests;
