//! What holds of every shared history. The functions do nothing: their contracts are the laws.
ghost use Rattle.fronts.specs.Laws.{NamedCellsStand, NumbersTellPlaces};

use crate::naming::Origin;

/// A cell that is named stands for every longer history until an entry touches it.
pub fn named_cells_stand<O: Origin>()
    ensures { NamedCellsStand O.start }
{}

/// Each entry stands in a history once.
pub fn numbers_tell_places<O: Origin>()
    ensures { NumbersTellPlaces O.start }
{}
