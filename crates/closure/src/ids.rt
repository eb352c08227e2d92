ghost use Rattle.std.specs.Prelude.{◌≡◌, List, [], ◌∷◌, ◌++◌, length, true, IfOk, IsOk, OnOk, OnErr};
ghost use Rattle.base_ids.specs.Cells.{same_cell};
ghost use Rattle.base_ids.specs.declared.cell_id.CellId.{CellId};
ghost use Rattle.closure.specs.Lists.{IsUnion, has, with_cell};

use base_ids::CellId;
use std::alloc::{AllocError, Global};
use std::marker::Model;

/// A list of cells. Contracts see it as that list.
#[derive(Debug, Drop)]
pub struct Ids {
    items: Vec<CellId>,
}

impl Model for Ids {
    ghost Value = { List CellId };

    ghost view = { λ ids. ids.items.items };
}

impl Ids {
    /// No cells. It takes no memory.
    pub fn new(alloc: Global) -> Ids
        ensures { result ≡ [] }
    {
        Ids {
            items: Vec::new(alloc),
        }
    }

    /// All the cells.
    pub fn as_slice(&self) -> &[CellId]
        ensures { result.now ≡ self.now }
    {
        self.items.as_slice()
    }

    /// How many cells there are.
    pub fn len(&self) -> usize
        ensures { result ≡ length self.now }
    {
        self.items.len()
    }

    /// Whether the cell is one of these.
    pub fn contains(&self, id: CellId) -> bool
        ensures { result ≡ has self.now id }
    {
        self.items.iter().any(|other| is_same(id, *other))
    }

    /// Appends the cell. It fails only if memory runs out, and then appends nothing.
    pub fn push(&mut self, id: CellId) -> Result<(), AllocError>
        ensures ok { OnOk result (self.new ≡ self.old ++ id ∷ []) }
        ensures err { OnErr result (self.new ≡ self.old) }
    {
        self.items.push(id)?;
        Ok(())
    }

    /// Appends the cell unless it is there. It fails only if memory runs out, never for a cell that is there, and then
    /// appends nothing.
    pub fn add(&mut self, id: CellId) -> Result<(), AllocError>
        ensures ok { OnOk result (self.new ≡ with_cell self.old id) }
        ensures err { OnErr result (self.new ≡ self.old) }
        ensures there { has self.old id ≡ true → IsOk result }
    {
        if self.contains(id) {
            return Ok(());
        }
        self.push(id)
    }

    /// The list with those of the cells that it lacks, each once, behind its own. It fails only if memory runs out.
    #[tactic(auto, using(crate::proofs::Unions::union_more))]
    pub fn joined(mut self, ids: &[CellId]) -> Result<Ids, AllocError>
        ensures { IfOk result (IsUnion self ids.now) }
    {
        'ids: for id in ids {
            self.add(*id)?;
        }
        Ok(self)
    }
}

/// Whether both are the same cell.
fn is_same(one: CellId, other: CellId) -> bool
    ensures { result ≡ same_cell one other }
{
    one == other
}
