ghost use Rattle.std.specs.Prelude.{◌≡◌, map};
ghost use Rattle.std.specs.List.{list_any};
ghost use Rattle.fleet_rec.specs.Fleet.{fleet_seen};
ghost use Rattle.tick_model.specs.Views.{belongs};

use base_ids::{CellId, Coord, Player};
use fleet_rec::{Fleet, Fleets};
use raids::Aftermath;

/// A battle that is fought: when and where, whose planet that is, which fleets attack it, what is left, and how many units the planet
/// has lost.
#[derive(Debug, Drop)]
pub(crate) struct Battle {
    pub(crate) second: u64,
    pub(crate) target: Coord,
    pub(crate) owner: Player,
    pub(crate) raid: Fleets,
    pub(crate) after: Aftermath,
    pub(crate) lost: u32,
}

impl Battle {
    ghost use Rattle.std.specs.Prelude.{◌≡◌};
    ghost use Rattle.happenings.specs.Fighting.{touches};

    /// Whether it needs a cell: its planet, or a cell of a fleet that attacks.
    pub(crate) fn touches(&self, cell: CellId) -> bool
        ensures { result ≡ touches self.now cell }
    {
        CellId::Planet(self.target) == cell || any_belongs(self.raid.as_slice(), cell)
    }
}

/// Whether one of the fleets belongs to a cell.
fn any_belongs(fleets: &[Fleet], cell: CellId) -> bool
    ensures { result ≡ list_any (belongs cell) (map fleet_seen fleets.now) }
{
    'fleets: for fleet in fleets {
        if fleet.belongs(cell) {
            return true;
        }
    }
    false
}
