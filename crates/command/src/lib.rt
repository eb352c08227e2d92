//! The commands of the program, over any source, sink and clock.
#![tactic(auto)]

mod answering;
mod commands;
mod finding;
mod foundings;
mod status;
mod streams;
#[cfg(test)]
mod tests;
mod trials;

pub use answering::{Answer, answer_lines};
pub use commands::run;
pub use status::{
    ALREADY_FOUNDED, DISK_FAULT, DONE, NO_MEMORY, NOT_A_COMMAND, NOT_FOUNDED, SINK_FAULT,
    SOURCE_FAULT, Stopped, TOO_LONG, exit_status,
};
pub use streams::write_all;
