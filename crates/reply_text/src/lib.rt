//! Replies: the lines that answer a request, each appended to a body, and the text of a whole reply.
//!
//! Each writer of a line appends it whole, or it fails because memory ran out, and appends nothing.
#![tactic(auto)]

mod account_lines;
mod fleet_lines;
mod heads;
mod kind_lines;
mod lines;
mod order_lines;
mod planet_lines;
mod queue_lines;
mod reply;
#[cfg(test)]
mod tests;
mod units;

pub use account_lines::{AccountHead, push_account, push_own_planet, push_technologies};
pub use fleet_lines::{FleetLine, Stage, push_at, push_fleet};
pub use heads::{head, refused, write_reply};
pub use order_lines::{push_arrives, push_back, push_starts, push_waits};
pub use planet_lines::{
    PlanetHead, push_debris, push_energy, push_hourly, push_levels, push_limit, push_planet,
    push_settings, push_stock, push_units,
};
pub use queue_lines::{
    RunningBatch, RunningBuilding, RunningResearch, push_building, push_research,
    push_waiting_building, push_waiting_research, push_yard, push_yard_waiting,
};
pub use reply::{Refused, Reply};
pub use units::Units;
