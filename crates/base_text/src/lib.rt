//! Reads texts that come as bytes: parts between separators, words between spaces, and numbers. It also
//! has `Bytes`, a list of bytes that grows.
#![tactic(auto)]

mod cursor;
mod cutting;
mod growing;
mod numbers;
mod signs;
#[cfg(test)]
mod tests;

pub use cursor::Parts;
pub use cutting::{cut, is_same, word};
pub use growing::Bytes;
pub use numbers::{number, positive_number};
pub use signs::signed_number;
