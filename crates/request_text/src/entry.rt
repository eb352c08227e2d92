use crate::request::Request;
use base_ids::Player;

/// A request as the history keeps it.
///
/// Numbers rise by one from request to request. The moment is the second at which the request acts, and the
/// reading is what the clock told when it came.
#[derive(Clone, Copy, Debug, PartialEq, Eq)]
pub struct Entry {
    pub number: u64,
    pub moment: u64,
    pub reading: u64,
    pub player: Player,
    pub req: Request,
}
