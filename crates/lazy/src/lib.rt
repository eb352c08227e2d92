//! A universe whose cells stand at seconds of their own, each brought forward only if a request needs it.
#![tactic(auto)]

mod advancing;
mod beginning;
mod dumping;
mod ordered;
mod planning;
mod running;
mod taking;
mod universe;

pub use advancing::advance;
pub use dumping::text_of;
pub use planning::{Plan, prepare};
pub use universe::{LazyUniverse, Prepared};

#[cfg(test)]
mod tests;
