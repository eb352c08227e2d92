ghost use Rattle.std.specs.Prelude.{◌≤◌};
ghost use Rattle.base_ids.specs.declared.numbers.TheConstants.{LAST_POSITION};
ghost use Rattle.generate.specs.declared.home.TheConstants.{PLAYERS};

use base_ids::{Coord, Player, System};
use draws::Draws;

/// How many players there are.
pub const PLAYERS: u32 = 50;

/// The positions of the two planets of a player.
pub const POSITIONS: [u8; 2] = [4, 8];

/// A planet of a player. It stands in galaxy 1, in the system that has the player's number.
#[derive(Clone, Copy)]
pub struct Home {
    pub player: u32,
    pub position: u8,
    pub ghost player_from: { 1 ≤ player },
    pub ghost player_to: { player ≤ PLAYERS },
    pub ghost position_from: { 1 ≤ position },
    pub ghost position_to: { position ≤ LAST_POSITION },
}

impl Home {
    ghost use Rattle.std.specs.Prelude.{◌≡◌};
    ghost use Rattle.base_ids.specs.Text.{coord_text, system_text};
    ghost use Rattle.draws.specs.Draws.{after};
    ghost use Rattle.generate.specs.Homes.{drawn_player, drawn_position, home_text, system_of};

    /// The planet that the next two words draw.
    #[tactic(auto, unfolding(draws::specs::Draws::after))]
    pub fn next(draws: &mut Draws) -> Home
        ensures player { result.player ≡ drawn_player draws.old }
        ensures position { result.position ≡ drawn_position draws.old }
        ensures moves { draws.new ≡ after 2 draws.old }
    {
        let player = 1 + draws.below(PLAYERS);
        let position = POSITIONS[draws.below(2) as usize];
        Home { player, position }
    }

    /// Whose it is.
    pub fn owner(self) -> Player
        ensures { result.k ≡ self.player }
    {
        Player { k: self.player }
    }

    /// Where it stands.
    pub fn coord(self) -> Coord
        ensures { coord_text result ≡ home_text self.player self.position }
    {
        Coord {
            g: 1,
            s: self.player as u16,
            p: self.position,
        }
    }

    /// The system that it stands in.
    pub fn system(self) -> System
        ensures { system_text result ≡ system_of self.player }
    {
        System {
            g: 1,
            s: self.player as u16,
        }
    }
}
