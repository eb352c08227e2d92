ghost use Rattle.std.specs.Prelude.{◌≡◌, true, AllPairs};
ghost use Rattle.std.specs.List.{list_any};
ghost use Rattle.base_ids.specs.Cells.{same_coord, same_player};
ghost use Rattle.base_ids.specs.Order.{coord_before, player_before};

use crate::spot::Spot;
use base_ids::{CellId, Coord, Player};

/// The names of all cells of a universe, fixed at its founding: the players, rising, and the planets, by rising
/// coordinates.
#[derive(Debug, Drop)]
pub struct Places {
    pub players: Vec<Player>,
    pub planets: Vec<Spot>,
    pub ghost players_rise: { AllPairs (λ one other. player_before one other ≡ true) players.items },
    pub ghost planets_rise: { AllPairs (λ one other. coord_before one.at other.at ≡ true) planets.items },
}

impl Places {
    ghost use Rattle.closure.specs.Directory.{cells_of};
    ghost use Rattle.closure.specs.Lists.{has};

    /// Whether the player is one of the universe's. It looks at a number of players that grows with the logarithm of how
    /// many there are.
    pub fn has_player(&self, player: Player) -> bool
        ensures { result ≡ list_any (same_player player) self.now.players.items }
    {
        self.players.binary_search(&player).is_ok()
    }

    /// Whether a planet stands at the place. It looks at a number of planets that grows with the logarithm of how many
    /// there are.
    pub fn has_planet(&self, at: Coord) -> bool
        ensures { result ≡ list_any (λ spot. same_coord at spot.at) self.now.planets.items }
    {
        self.planets
            .binary_search_by_key(&at, |spot| spot.at)
            .is_ok()
    }

    /// Whether the cell is one of the universe's.
    pub fn has(&self, id: CellId) -> bool
        ensures { result ≡ has (cells_of self.now) id }
    {
        match id {
            CellId::Account(player) => self.has_player(player),
            CellId::Planet(at) => self.has_planet(at),
        }
    }
}
