//! Requests: what a player may ask of a universe, and how it is spelled.
#![tactic(auto)]

mod arguments;
mod call;
mod coordinates;
mod entry;
mod form;
mod forms;
mod laws;
mod line_reader;
mod request;
mod ship_counts;
#[cfg(test)]
mod tests;

pub use call::Call;
pub use coordinates::{coord, player, system};
pub use entry::Entry;
pub use form::Form;
pub use laws::spell_once;
pub use line_reader::{LONGEST_LINE, Line, LineReader, MOST_TAKEN, Stop, Told};
pub use request::Request;
pub use ship_counts::ships;

#[cfg(test)]
mod line_reader_tests;
