ghost use Rattle.std.specs.Prelude.{◌≡◌, ◌≤◌, IfOk, sum};
ghost use Rattle.catalog.specs.declared.ships.TheConstants.{UNITS};

use crate::combat::Battle;
use crate::held::{AccountCell, Held, PlanetCell};
use base_ids::{CellId, Player};
use catalog::Techs;
use fleet_rec::{Fleet, Fleets};
use raids::Raider;
use std::alloc::{AllocError, Global};
use tick_model::Rules;

impl AccountCell {
    ghost use Rattle.std.specs.Prelude.{◌≡◌, IfOk};
    ghost use Rattle.happenings.specs.Fighting.{CanLose, account_fought};
    ghost use Rattle.happenings.specs.Held.{account_stand};

    /// The account after a battle, in memory of its own: its fleets that fought have turned back or are gone, and it has lost units.
    fn fought(&self, battle: &Battle) -> Result<AccountCell, AllocError>
        requires { CanLose battle.now self.now.account.player (account_stand self.now).seen }
        ensures stand { IfOk result (λ cell. account_stand cell ≡ account_fought battle.now self.now.account.player (account_stand self.now)) }
        ensures player { IfOk result (λ cell. cell.account.player ≡ self.now.account.player) }
    {
        let mut cell = self.copy()?;
        cell.second = battle.second;
        let player = cell.account.player;
        let before = cell.fleets.ships_of(player);
        cell.fleets.fight(&battle.raid, &battle.after.fleets);
        let mut lost = before - cell.fleets.ships_of(player);
        cell.fleets.keep(CellId::Account(player));
        if battle.owner.k == player.k {
            lost += battle.lost;
        }
        cell.account.lose_units(lost);
        Ok(cell)
    }
}

impl PlanetCell {
    ghost use Rattle.std.specs.Prelude.{◌≡◌, ◌≤◌, true, IfOk};
    ghost use Rattle.base_ids.specs.Cells.{same_cell};
    ghost use Rattle.base_ids.specs.declared.cell_id.CellId.TheVariants.{Planet as PlanetId};
    ghost use Rattle.fleet_rec.specs.Fleets.{MayFight};
    ghost use Rattle.happenings.specs.Applying.{fields_then};
    ghost use Rattle.happenings.specs.Fighting.{CanSettle, planet_fought, stand_settled};
    ghost use Rattle.happenings.specs.Held.{planet_stand};
    ghost use Rattle.planet_cell.specs.Planet.{fields_of};

    /// The planet after a battle, in memory of its own: it gained until then, its fleets that fought have turned back or are gone, and
    /// if the battle was fought at it, it has what that left there.
    fn fought(&self, rules: &Rules, battle: &Battle) -> Result<PlanetCell, AllocError>
        requires behind { self.now.second ≤ battle.now.second }
        requires fight { MayFight battle.now.raid self.now.fleets }
        requires settle { same_cell (PlanetId battle.now.target) (PlanetId self.now.planet.at) ≡ true → CanSettle battle.now (fields_then rules.now battle.now.second self.now) }
        ensures stand { IfOk result (λ cell. planet_stand cell ≡ planet_fought rules.now battle.now (PlanetId self.now.planet.at) (planet_stand self.now)) }
        ensures at { IfOk result (λ cell. cell.planet.at ≡ self.now.planet.at) }
    {
        let mut cell = self.gained(rules, battle.second)?;
        cell.fleets.fight(&battle.raid, &battle.after.fleets);
        cell.fleets.keep(CellId::Planet(cell.planet.at));
        cell.settle(battle);
        Ok(cell)
    }

    /// If the battle was fought at the planet, it has what that left there.
    fn settle(&mut self, battle: &Battle)
        requires { same_cell (PlanetId battle.now.target) (PlanetId self.old.planet.at) ≡ true → CanSettle battle.now (fields_of self.old.planet) }
        ensures stand { planet_stand self.new ≡ stand_settled battle.now (PlanetId self.old.planet.at) (planet_stand self.old) }
        ensures at { self.new.planet.at ≡ self.old.planet.at }
    {
        if CellId::Planet(battle.target) == CellId::Planet(self.planet.at) {
            let left = &battle.after;
            self.planet.settle(left.taken, left.debris, left.units);
        }
    }
}

/// How many units there are, which are at most `catalog::UNITS`.
fn total(units: &[u32; 22]) -> u32
    requires { sum units.now ≤ UNITS }
    ensures { result ≡ sum units.now }
{
    units.iter().sum()
}

impl Held {
    ghost use Rattle.std.specs.Prelude.{◌≡◌, ◌≤◌, true, IfOk, OnErr, OnOk};
    ghost use Rattle.base_ids.specs.declared.cell_id.CellId.{CellId};
    ghost use Rattle.base_ids.specs.declared.cell_id.CellId.TheVariants.{Account as AccountId};
    ghost use Rattle.fleet_rec.specs.Fleet.{fleet_seen};
    ghost use Rattle.happenings.specs.Applying.{held_after};
    ghost use Rattle.happenings.specs.Fighting.{AreOwnersHeld, AreRaiders, CanBeFought, CanFight, HasTechs, IsBattle, fought_at, raid_in};
    ghost use Rattle.happenings.specs.Held.{CopiesFrom, IsEqual, IsNamed, held_at, holds};
    ghost use Rattle.tick_model.specs.Events.{fights};

    /// The fleets of a fleet's group fight at its target: all their cells gain until then, and have what the battle leaves.
    ///
    /// It fails only if memory runs out, and changes nothing then.
    pub(crate) fn fight(
        &mut self,
        alloc: Global,
        rules: &Rules,
        one: &Fleet,
    ) -> Result<(), AllocError>
        requires fight { CanFight rules.now self.old (fleet_seen one.now) }
        requires named { IsNamed self.old }
        ensures fights { OnOk result ((cell : CellId) → held_at self.new cell ≡ held_after rules.now (fights (raid_in self.old (fleet_seen one.now))) self.old cell) }
        ensures named { OnOk result (IsNamed self.new) }
        ensures err { OnErr result (IsEqual self.old self.new) }
    {
        let battle = self.battle(alloc, rules, one)?;
        let cells = self.fought(alloc, rules, &battle)?;
        self.put_all(cells);
        Ok(())
    }

    // The battle of a fleet's group at its target.
    fn battle(&self, alloc: Global, rules: &Rules, one: &Fleet) -> Result<Battle, AllocError>
        requires fight { CanFight rules.now self.now (fleet_seen one.now) }
        requires named { IsNamed self.now }
        ensures { IfOk result (IsBattle rules.now self.now (fleet_seen one.now)) }
    {
        let Some(cell) = self.planets.get(&one.target) else {
            unreachable!()
        };
        let raid = cell.fleets.raiders(one.target, one.group)?;
        let raiders = self.raiders(alloc, &raid)?;
        let planet = cell.gained(rules, one.second)?.planet;
        let techs = self.techs_of(planet.owner);
        let after = raids::fight(alloc, rules.seed, one.group, &raiders, &planet, techs)?;
        Ok(Battle {
            second: one.second,
            target: one.target,
            owner: planet.owner,
            lost: total(&planet.units) - total(&after.units),
            raid,
            after,
        })
    }

    // The fleets, each with the technologies of its owner.
    fn raiders(&self, alloc: Global, fleets: &Fleets) -> Result<Vec<Raider>, AllocError>
        requires { AreOwnersHeld self.now fleets.now }
        ensures { IfOk result (λ raiders. AreRaiders self.now fleets.now raiders.items) }
    {
        let mut raiders = Vec::new(alloc);
        'fleets: for fleet in fleets.as_slice() {
            raiders.push(Raider {
                fleet: *fleet,
                techs: self.techs_of(fleet.owner),
            })?;
        }
        Ok(raiders)
    }

    // The technologies of a player, whose account is held.
    fn techs_of(&self, player: Player) -> Techs
        requires { holds self.now (AccountId player) ≡ true }
        ensures { HasTechs self.now player result }
    {
        let Some(cell) = self.accounts.get(&player) else {
            unreachable!()
        };
        cell.account.techs
    }

    // Copies of the cells that a battle needs, each after it.
    fn fought(&self, alloc: Global, rules: &Rules, battle: &Battle) -> Result<Held, AllocError>
        requires fight { CanBeFought rules.now battle.now self.now }
        requires named { IsNamed self.now }
        ensures fought { IfOk result (λ cells. (cell : CellId) → held_at cells cell ≡ fought_at rules.now battle.now self.now cell) }
        ensures named { IfOk result IsNamed }
    {
        let names = self.names(alloc)?;
        let mut fought = Held::new(alloc);
        'names: for name in &names {
            self.fight_cell(*name, rules, battle, &mut fought)?;
        }
        Ok(fought)
    }

    // Holds the cell there too, after the battle, if the battle needs it and it is held here.
    fn fight_cell(
        &self,
        name: CellId,
        rules: &Rules,
        battle: &Battle,
        other: &mut Held,
    ) -> Result<(), AllocError>
        requires fight { CanBeFought rules.now battle.now self.now }
        requires named { IsNamed self.now }
        ensures copies { OnOk result (CopiesFrom (fought_at rules.now battle.now self.now) name other.old other.new) }
        ensures named { OnOk result (IsNamed other.old → IsNamed other.new) }
    {
        if !battle.touches(name) {
            return Ok(());
        }
        match name {
            CellId::Account(player) => match self.account(player) {
                Some(cell) => other.put_account(cell.fought(battle)?),
                None => Ok(()),
            },
            CellId::Planet(at) => match self.planet(at) {
                Some(cell) => other.put_planet(cell.fought(rules, battle)?),
                None => Ok(()),
            },
        }
    }
}
