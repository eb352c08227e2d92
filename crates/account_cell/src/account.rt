ghost use Rattle.std.specs.Prelude.{◌≤◌, vec_len};
ghost use Rattle.account_cell.specs.Bounds.{AreWithinCaps};
ghost use Rattle.catalog.specs.declared.ships.TheConstants.{UNITS};
ghost use Rattle.tick_model.specs.declared.codes.TheConstants.{MOST_QUEUED};

use crate::research_item::ResearchItem;
use base_ids::{Coord, Player};
use catalog::Techs;
use std::alloc::AllocError;

/// An account: whose it is; the levels of its technologies; the places of its planets in the order of coordinates; how many
/// units it has, those that its yards are to build included, at most `catalog::UNITS`; and its research queue, of at most
/// `tick_model::MOST_QUEUED` items.
///
/// The first item of the queue runs, and the others wait. No technology rises above its highest level, even if all items of the
/// queue are researched.
#[derive(Debug, Drop)]
pub struct Account {
    pub player: Player,
    pub techs: Techs,
    pub planets: Vec<Coord>,
    pub units: u32,
    pub research: Vec<ResearchItem>,
    pub ghost within_units: { units ≤ UNITS },
    pub ghost within_room: { vec_len research ≤ MOST_QUEUED },
    pub ghost within_levels: { AreWithinCaps techs.n research.items },
}

impl Account {
    ghost use Rattle.std.specs.Prelude.{◌≡◌, ◌+◌, ◌-◌, ◌≤◌, IfOk};
    ghost use Rattle.account_cell.specs.Account.{AreSame, KeepsResearch};
    ghost use Rattle.catalog.specs.declared.ships.TheConstants.{UNITS};

    /// The same account, in memory of its own.
    pub fn copy(&self) -> Result<Account, AllocError>
        ensures { IfOk result (AreSame self.now) }
    {
        Ok(Account {
            player: self.player,
            techs: self.techs,
            planets: self.planets.clone()?,
            units: self.units,
            research: self.research.clone()?,
        })
    }

    /// The account has so many more units.
    pub fn add_units(&mut self, count: u32)
        requires { self.old.units + count ≤ UNITS }
        ensures units { self.new.units ≡ self.old.units + count }
        ensures keeps { KeepsResearch self.old self.new }
    {
        self.units += count;
    }

    /// The account has so many fewer units: they were lost in a battle.
    pub fn lose_units(&mut self, count: u32)
        requires { count ≤ self.old.units }
        ensures units { self.new.units ≡ self.old.units - count }
        ensures keeps { KeepsResearch self.old self.new }
    {
        self.units -= count;
    }
}
