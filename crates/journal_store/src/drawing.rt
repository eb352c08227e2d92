// Requests that are about to be numbered, and what comes of it.
use base_ids::Player;
use request_text::Request;

/// A request that is ready to be numbered.
#[derive(Clone, Copy, Debug, PartialEq, Eq)]
pub struct Prepared {
    pub player: Player,
    pub req: Request,
    /// What the clock told when the request came.
    pub reading: u64,
    /// When it acts: the greater of the reading and the last moment that its caller saw.
    pub moment: u64,
    /// The pass of its caller. It isn't written.
    pub pass: u32,
}

/// What comes of a request that asks for its number.
#[derive(Clone, Copy, Debug, PartialEq, Eq)]
pub enum Draw {
    /// There may be no further entry. There are so many since the base.
    Full { count: u64 },
    /// The last entry acts later, at this moment.
    Late { last: u64 },
    /// The request is the entry with this number.
    Taken { number: u64 },
}
