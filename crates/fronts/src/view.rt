use crate::claim::Claim;
use request_text::Entry;
use std::collections::LinkedList;

/// An entry of the shared history, beside the number of the pass that appended it. The entries found at the start have 0.
///
/// It stands in contracts alone: no value of it is made.
pub struct Sent {
    pub pass: u64,
    pub entry: Entry,
}

/// What a pass or a note knows and may do. It stands in contracts alone: no value of it is made.
pub struct View {
    /// The number of the pass. A note has 0.
    pub number: u64,
    /// The next number that it may give to a new pass. 0 if it may give none.
    pub next: u64,
    /// How many entries it knows to be durable.
    pub durable: u64,
    /// How many marks were given. Whoever may flush knows it.
    pub given: u64,
    /// How many marks it has.
    pub marks: u64,
    /// A beginning of the history.
    pub front: LinkedList<Sent>,
    pub claims: LinkedList<Claim>,
    /// While two views become one: the shorter of their fronts, and its claims.
    pub heard: LinkedList<Sent>,
    pub kept: LinkedList<Claim>,
}
