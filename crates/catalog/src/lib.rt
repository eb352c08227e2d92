//! The kinds of things that a player builds, and their tables.
#![tactic(auto)]

mod amounts;
mod classes;
mod combat;
mod cost;
mod engine;
mod growth;
mod kind;
mod mission;
mod need;
mod rapid_fire;
mod settings;
mod ships;
mod storage;
mod table_laws;
mod techs;

pub use amounts::{Amounts, CAP};
pub use classes::{
    BUILDINGS, Building, Class, TECHNOLOGIES, Technology, UNIT_KINDS, Unit, WORKS, Work,
};
pub use engine::{Drive, Engine};
pub use growth::Growth;
pub use kind::{KINDS, Kind};
pub use mission::Mission;
pub use need::{GRAVITON_ENERGY, Need};
pub use rapid_fire::rapid;
pub use settings::{Count, SpeedSetting, TOP_SPEED, Tenths};
pub use ships::{SHIPS, Ships, UNITS};
pub use storage::storage_limit;
pub use table_laws::{
    costs_are_capped, kinds_are_listed, levels_are_in_range, needs_can_be_met, ships_fire_rapidly,
    ships_fly, stores_grow, units_fight,
};
pub use techs::Techs;

#[cfg(test)]
mod table_tests;
#[cfg(test)]
mod tests;
