ghost use Rattle.std.specs.Prelude.{OnOk};
ghost use Rattle.base_ids.specs.declared.cell_id.CellId.TheVariants.{Account as AccountId, Planet as PlanetId};
ghost use Rattle.fleet_rec.specs.Fleet.{fleet_seen};
ghost use Rattle.happenings.specs.Held.{IsNamed};
ghost use Rattle.happenings.specs.Joining.{Joins, JoinsAt};

use crate::held::Held;
use base_ids::{Coord, Player};
use fleet_rec::Fleet;
use std::alloc::AllocError;

impl Held {
    /// The fleet joins those of each cell to which it belongs, as far as these cells are held. It fails only if memory runs out.
    pub fn join_fleet(&mut self, fleet: &Fleet) -> Result<(), AllocError>
        ensures joins { OnOk result (Joins (fleet_seen fleet.now) self.old self.new) }
        ensures named { OnOk result (IsNamed self.old → IsNamed self.new) }
    {
        self.join_planet(fleet.origin, fleet)?;
        self.join_account(fleet.owner, fleet)?;
        if !fleet.outbound {
            return Ok(());
        }
        if fleet.target != fleet.origin {
            self.join_planet(fleet.target, fleet)?;
        }
        if fleet.target_owner.k != fleet.owner.k {
            self.join_account(fleet.target_owner, fleet)?;
        }
        Ok(())
    }

    // The fleet joins those of the planet at a place, if it is held.
    fn join_planet(&mut self, at: Coord, fleet: &Fleet) -> Result<(), AllocError>
        ensures joins { OnOk result (JoinsAt (PlanetId at) (fleet_seen fleet.now) self.old self.new) }
        ensures named { OnOk result (IsNamed self.old → IsNamed self.new) }
    {
        match self.planets.get_mut(&at) {
            Some(cell) => cell.fleets.push(*fleet),
            None => Ok(()),
        }
    }

    // The fleet joins those of a player's account, if it is held.
    fn join_account(&mut self, player: Player, fleet: &Fleet) -> Result<(), AllocError>
        ensures joins { OnOk result (JoinsAt (AccountId player) (fleet_seen fleet.now) self.old self.new) }
        ensures named { OnOk result (IsNamed self.old → IsNamed self.new) }
    {
        match self.accounts.get_mut(&player) {
            Some(cell) => cell.fleets.push(*fleet),
            None => Ok(()),
        }
    }
}
