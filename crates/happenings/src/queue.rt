ghost use Rattle.std.specs.Prelude.{◌≡◌};
ghost use Rattle.happenings.specs.Queues.{class_of};
ghost use Rattle.tick_model.specs.Events.{step_of};

use base_ids::{Coord, Player};

/// A queue of a cell.
#[derive(Clone, Copy, Debug, PartialEq, Eq)]
pub enum Queue {
    /// The building queue of the planet at a place.
    Buildings(Coord),
    /// The research queue of a player's account.
    Research(Player),
    /// The yard of the planet at a place.
    Yard(Coord),
}

impl Queue {
    /// Of what is due in one second by one request's order, buildings come first, then research, then units.
    pub fn step(self) -> u8
        ensures { result ≡ step_of (class_of self) }
    {
        match self {
            Queue::Buildings(_) => 1,
            Queue::Research(_) => 2,
            Queue::Yard(_) => 3,
        }
    }
}
