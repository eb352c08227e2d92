use crate::held::Held;

impl Held {
    ghost use Rattle.std.specs.Prelude.{◌≡◌, true};
    ghost use Rattle.base_ids.specs.declared.cell_id.CellId.{CellId};
    ghost use Rattle.happenings.specs.Held.{IsNamed, holds};
    ghost use Rattle.happenings.specs.Merging.{Merges};

    /// Holds these cells in place of those of their names, all of which are held. It takes no memory.
    pub fn put_all(&mut self, mut cells: Held)
        requires held { (cell : CellId) → holds cells cell ≡ true → holds self.old cell ≡ true }
        requires named { IsNamed cells }
        ensures merges { Merges self.old cells self.new }
        ensures named { IsNamed self.old → IsNamed self.new }
    {
        'accounts: while let Some((_, cell)) = cells.accounts.pop_first() {
            let Ok(()) = self.put_account(cell) else {
                unreachable!()
            };
        }
        'planets: while let Some((_, cell)) = cells.planets.pop_first() {
            let Ok(()) = self.put_planet(cell) else {
                unreachable!()
            };
        }
    }
}
