//! What a planet gains: exact values, in constant time. Each function always answers, and none allocates.
#![tactic(auto)]

mod growth;
mod production;
mod resources;
mod stock;
mod temperature;
mod works;
mod yields;

pub use catalog::storage_limit as limit;
pub use production::{produce, storage_of};
pub use resources::Resources;
pub use stock::{GRAINS, basic_income, gain, stocks_after, storage, whole_units};
pub use works::{COLDEST, HOTTEST, Hourly, Works};
pub use yields::hourly;

#[cfg(test)]
mod tests;
