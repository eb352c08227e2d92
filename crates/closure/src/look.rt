ghost use Rattle.std.specs.Prelude.{◌≡◌, true, IfOk, List, Option, Some, is_some};
ghost use Rattle.base_ids.specs.declared.cell_id.CellId.{CellId};
ghost use Rattle.base_ids.specs.declared.cell_id.CellId.TheVariants.{Account};
ghost use Rattle.tick_model.specs.Views.{View};
ghost use Rattle.closure.specs.Closure.{AreBrought};
ghost use Rattle.closure.specs.Flown.{AreFlown};
ghost use Rattle.closure.specs.Lists.{has};

use crate::ids::Ids;
use base_ids::{CellId, FleetNumber, Player};
use std::alloc::{AllocError, Global};

/// Something that holds cells, and tells which further cells a cell needs.
pub trait CellLook {
    /// What it holds of a cell, if it holds it.
    ghost sees: { Self → CellId → Option View };

    /// The cells that it holds.
    ghost names: { Self → List CellId };

    /// Whether it holds a cell.
    fn holds(&self, id: CellId) -> bool
        ensures { result ≡ is_some (sees self.now id) };

    /// The cells of a player's fleet that flies out. `None` exactly if the player's account isn't held, or has no such
    /// fleet. It fails only if memory runs out.
    fn flown(
        &self,
        alloc: Global,
        player: Player,
        number: FleetNumber,
    ) -> Result<Option<Ids>, AllocError>
        ensures { IfOk result (AreFlown (sees self.now (Account player)) player number.f) };

    /// The cells without which a cell can't be brought to this second. `None` exactly if the cell isn't held. It fails
    /// only if memory runs out.
    fn next(&self, alloc: Global, id: CellId, moment: u64) -> Result<Option<Ids>, AllocError>
        ensures { IfOk result (AreBrought (sees self.now id) moment) };

    /// Each cell of which it holds something is one of its cells.
    ghost named: { (look : Self) (id : CellId) (seen : View) → sees look id ≡ Some seen → has (names look) id ≡ true };
}
