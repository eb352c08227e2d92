use crate::coord::Coord;
use crate::player::Player;

/// A cell of a universe: one account or one planet. All accounts come before all planets.
#[derive(Clone, Copy, Debug, PartialEq, Eq, PartialOrd, Ord)]
pub enum CellId {
    Account(Player),
    Planet(Coord),
}

impl CellId {
    ghost use Rattle.std.specs.Prelude.{◌≡◌};
    ghost use Rattle.base_ids.specs.Order.{cell_before};

    /// Whether this cell comes before the other: accounts by player, then planets by coordinate.
    pub fn is_before(self, other: CellId) -> bool
        ensures { result ≡ cell_before self other }
    {
        self < other
    }
}
