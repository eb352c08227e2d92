//! Founding texts: lines of which each is judged by the lines before it, and the universe that they found.
#![tactic(auto)]

mod account_sketch;
mod draft;
mod fault;
mod filing;
mod heading;
mod laws;
mod named;
mod read_lines;
mod read_text;
mod sketch;

pub use fault::FoundingFault;
pub use laws::found_once;
pub use read_text::read;

#[cfg(test)]
mod tests;
