ghost use Rattle.base_ids.specs.declared.cell_id.CellId.{CellId};
ghost use Rattle.closure.specs.Lists.{has};
ghost use Rattle.fleet_rec.specs.Fleet.{fleet_seen};
ghost use Rattle.happenings.specs.Naming.{seen_named};
ghost use Rattle.happenings.specs.Sights.{AreAllPayers, AreFlownOf, names_held, sees_held};
ghost use Rattle.std.specs.Prelude.{◌≡◌, ◌||◌, IfOk, OnOk, map};
ghost use Rattle.tick_model.specs.Game.{fleets_bring};
ghost use Rattle.tick_model.specs.Views.{belongs};

use crate::held::{AccountCell, Held, PlanetCell};
use account_cell::ResearchItem;
use base_ids::{CellId, FleetNumber, Player};
use closure::{CellLook, Ids};
use fleet_rec::{Fleet, Fleets};
use std::alloc::{AllocError, Global};

impl Held {
    ghost use Rattle.std.specs.Prelude.{◌≡◌, IfOk};
    ghost use Rattle.happenings.specs.Sights.{names_held};

    /// The names under which cells are held: the accounts, then the planets. It fails only if memory runs out.
    pub fn names(&self, alloc: Global) -> Result<Vec<CellId>, AllocError>
        ensures { IfOk result (λ names. names.items ≡ names_held self.now) }
    {
        let mut names = Vec::new(alloc);
        'players: for player in self.accounts.keys() {
            names.push(CellId::Account(*player))?;
        }
        'planets: for at in self.planets.keys() {
            names.push(CellId::Planet(*at))?;
        }
        Ok(names)
    }
}

/// A planet can't be brought to a moment without its owner's account; an account whose research is done by then can't be without the
/// planets that are to pay what waits; and no cell of a fleet that lands by then can be without all cells of the fleet.
impl CellLook for Held {
    ghost sees = { sees_held };

    ghost names = { names_held };

    fn holds(&self, id: CellId) -> bool {
        match id {
            CellId::Account(player) => self.account(player).is_some(),
            CellId::Planet(at) => self.planet(at).is_some(),
        }
    }

    fn flown(
        &self,
        alloc: Global,
        player: Player,
        number: FleetNumber,
    ) -> Result<Option<Ids>, AllocError> {
        match self.account(player) {
            Some(cell) => flown(alloc, &cell.fleets, player, number),
            None => Ok(None),
        }
    }

    fn next(&self, alloc: Global, id: CellId, moment: u64) -> Result<Option<Ids>, AllocError> {
        match id {
            CellId::Account(player) => match self.account(player) {
                Some(cell) => Ok(Some(cell.brings(alloc, moment)?)),
                None => Ok(None),
            },
            CellId::Planet(at) => match self.planet(at) {
                Some(cell) => Ok(Some(cell.brings(alloc, moment)?)),
                None => Ok(None),
            },
        }
    }

    ghost named = { seen_named };
}

impl AccountCell {
    ghost use Rattle.std.specs.Prelude.{◌≡◌, IfOk};
    ghost use Rattle.base_ids.specs.declared.cell_id.CellId.{CellId};
    ghost use Rattle.closure.specs.Lists.{has};
    ghost use Rattle.happenings.specs.Held.{account_stand};
    ghost use Rattle.tick_model.specs.Game.{brings};

    /// The cells without which the account can't be brought to a moment.
    fn brings(&self, alloc: Global, moment: u64) -> Result<Ids, AllocError>
        ensures { IfOk result (λ ids. (cell : CellId) → has ids cell ≡ brings (account_stand self.now).seen moment cell) }
    {
        let mut ids = payers(alloc, &self.account.research, moment)?;
        add_landings(self.fleets.as_slice(), moment, &mut ids)?;
        Ok(ids)
    }
}

impl PlanetCell {
    ghost use Rattle.std.specs.Prelude.{◌≡◌, IfOk};
    ghost use Rattle.base_ids.specs.declared.cell_id.CellId.{CellId};
    ghost use Rattle.closure.specs.Lists.{has};
    ghost use Rattle.happenings.specs.Held.{planet_stand};
    ghost use Rattle.tick_model.specs.Game.{brings};

    /// The cells without which the planet can't be brought to a moment.
    #[tactic(auto, using(crate::proofs::Brought::planet_needs))]
    fn brings(&self, alloc: Global, moment: u64) -> Result<Ids, AllocError>
        ensures { IfOk result (λ ids. (cell : CellId) → has ids cell ≡ brings (planet_stand self.now).seen moment cell) }
    {
        let mut ids = Ids::new(alloc);
        ids.push(CellId::Account(self.planet.owner))?;
        add_landings(self.fleets.as_slice(), moment, &mut ids)?;
        Ok(ids)
    }
}

/// The cells of a player's fleet that flies out, if these fleets have it.
#[tactic(auto, using(crate::proofs::Brought::flown_cells))]
fn flown(
    alloc: Global,
    fleets: &Fleets,
    player: Player,
    number: FleetNumber,
) -> Result<Option<Ids>, AllocError>
    ensures { IfOk result (AreFlownOf fleets.now player number.f) }
{
    let Some(fleet) = fleets.find(player, number.f) else {
        return Ok(None);
    };
    if !fleet.outbound {
        return Ok(None);
    }
    let mut ids = Ids::new(alloc);
    add_cells(&fleet, &mut ids)?;
    Ok(Some(ids))
}

/// Adds the cells of those of some fleets that land by a moment.
#[tactic(auto, using(crate::proofs::Brought::added))]
fn add_landings(fleets: &[Fleet], moment: u64, ids: &mut Ids) -> Result<(), AllocError>
    ensures { OnOk result ((cell : CellId) → has ids.new cell ≡ (has ids.old cell || fleets_bring moment (map fleet_seen fleets.now) cell)) }
{
    'fleets: for fleet in fleets {
        if fleet.second <= moment {
            add_cells(fleet, ids)?;
        }
    }
    Ok(())
}

/// Adds the cells of a fleet.
#[tactic(auto, using(crate::proofs::Brought::fleet_cells))]
fn add_cells(fleet: &Fleet, ids: &mut Ids) -> Result<(), AllocError>
    ensures { OnOk result ((cell : CellId) → has ids.new cell ≡ (has ids.old cell || belongs cell (fleet_seen fleet.now))) }
{
    ids.push(CellId::Planet(fleet.origin))?;
    ids.push(CellId::Account(fleet.owner))?;
    if fleet.outbound {
        ids.push(CellId::Planet(fleet.target))?;
        ids.push(CellId::Account(fleet.target_owner))?;
    }
    Ok(())
}

/// The planets that are to pay the items that wait, if the first item of a research queue is done by a moment, else none.
fn payers(alloc: Global, items: &[ResearchItem], moment: u64) -> Result<Ids, AllocError>
    ensures { IfOk result (AreAllPayers moment items.now) }
{
    let mut ids = Ids::new(alloc);
    let Some((first, waiting)) = items.split_first() else {
        return Ok(ids);
    };
    if first.second > moment {
        return Ok(ids);
    }
    'items: for item in waiting {
        ids.push(CellId::Planet(item.at))?;
    }
    Ok(ids)
}
