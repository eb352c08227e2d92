use base_ids::{Coord, Player};

/// A planet's place, and its owner from the founding on.
#[derive(Clone, Copy, Debug, PartialEq, Eq)]
pub struct Spot {
    pub at: Coord,
    pub owner: Player,
}
