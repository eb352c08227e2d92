ghost use Rattle.std.specs.Prelude.{◌≡◌, true, option_map};
ghost use Rattle.std.specs.Option.{ForSome};
ghost use Rattle.base_ids.specs.declared.cell_id.CellId.{CellId};
ghost use Rattle.fleet_rec.specs.Fleet.{cargo_seen, fleet_seen};
ghost use Rattle.happenings.specs.Landings.{is_home};
ghost use Rattle.tick_model.specs.Flights.{landed};
ghost use Rattle.planet_cell.specs.Planet.{fields_of};
ghost use Rattle.tick_model.specs.Universe.{of_planet};

use crate::held::{AccountCell, Held, PlanetCell};
use base_ids::{CellId, Coord, Player};
use catalog::{Amounts, Mission};
use fleet_rec::Fleet;
use planet_cell::Planet;
use tick_model::Rules;

/// Nothing on board.
const NO_CARGO: Amounts = Amounts { m: 0, c: 0, d: 0 };

/// The cargo with which a fleet that lands at a planet turns back, if it does. A fleet that is back stays.
#[tactic(auto, using(crate::proofs::Cargoes::backs))]
fn cargo_back(planet: &Planet, fleet: &Fleet) -> Option<Amounts>
    ensures back { option_map cargo_seen result ≡ (landed (fleet_seen fleet.now) (of_planet (fields_of planet.now))).back }
    ensures out { ForSome result (λ cargo. fleet.now.outbound ≡ true) }
{
    if !fleet.outbound {
        return None;
    }
    match fleet.mission {
        Mission::Transport => Some(NO_CARGO),
        Mission::Deploy => None,
        Mission::Harvest => Some(planet.harvest_cargo(fleet)),
        Mission::Attack => Some(fleet.cargo),
    }
}

/// Whether a fleet belongs to a cell on all its way.
fn is_home(fleet: &Fleet, cell: CellId) -> bool
    ensures { result ≡ is_home (fleet_seen fleet.now) cell }
{
    CellId::Planet(fleet.origin) == cell || CellId::Account(fleet.owner) == cell
}

impl AccountCell {
    ghost use Rattle.std.specs.Prelude.{◌≡◌, ◌≤◌, option_map};
    ghost use Rattle.std.specs.Option.{ForSome};
    ghost use Rattle.base_ids.specs.declared.cell_id.CellId.TheVariants.{Account as AccountId};
    ghost use Rattle.fleet_rec.specs.Fleet.{cargo_seen, fleet_seen};
    ghost use Rattle.fleet_rec.specs.Fleets.{AreOutbound};
    ghost use Rattle.happenings.specs.Held.{account_stand};
    ghost use Rattle.happenings.specs.Landings.{left};
    ghost use Rattle.tick_model.specs.declared.rules.Rules.{Rules};

    /// The account stands at the second at which a fleet landed, and its copy of the fleet turns back with a cargo, or goes.
    fn leave(&mut self, fleet: &Fleet, back: Option<Amounts>)
        requires { ForSome back (λ cargo. AreOutbound fleet.now.number self.old.fleets) }
        ensures stand { (rules : Rules) → account_stand self.new ≡ left rules (fleet_seen fleet.now) (option_map cargo_seen back) (AccountId self.old.account.player) (account_stand self.old) }
        ensures player { self.new.account.player ≡ self.old.account.player }
    {
        self.second = fleet.second;
        self.fleets.land(fleet.number, back);
        self.fleets.keep(CellId::Account(self.account.player));
    }
}

impl PlanetCell {
    ghost use Rattle.std.specs.Prelude.{◌≡◌, ◌≤◌, option_map};
    ghost use Rattle.std.specs.Option.{ForSome};
    ghost use Rattle.base_ids.specs.declared.cell_id.CellId.TheVariants.{Planet as PlanetId};
    ghost use Rattle.fleet_rec.specs.Fleet.{cargo_seen, fleet_seen};
    ghost use Rattle.fleet_rec.specs.Fleets.{AreOutbound};
    ghost use Rattle.happenings.specs.Held.{planet_stand};
    ghost use Rattle.happenings.specs.Landings.{HasRoom, left, stand_unloaded};

    /// The planet gains until a fleet landed, and its copy of the fleet turns back with a cargo, or goes.
    fn leave(&mut self, rules: &Rules, fleet: &Fleet, back: Option<Amounts>)
        requires behind { self.old.second ≤ fleet.now.second }
        requires flies { ForSome back (λ cargo. AreOutbound fleet.now.number self.old.fleets) }
        ensures stand { planet_stand self.new ≡ left rules.now (fleet_seen fleet.now) (option_map cargo_seen back) (PlanetId self.old.planet.at) (planet_stand self.old) }
        ensures at { self.new.planet.at ≡ self.old.planet.at }
    {
        self.gain_to(rules, fleet.second);
        self.fleets.land(fleet.number, back);
        self.fleets.keep(CellId::Planet(self.planet.at));
    }

    /// The planet takes what a fleet that landed leaves there: its cargo, or its cargo and its ships, or nothing.
    #[tactic(auto, using(crate::proofs::Landed::unloading))]
    fn unload(&mut self, fleet: &Fleet)
        requires { HasRoom (fleet_seen fleet.now) (planet_stand self.old) }
        ensures stand { planet_stand self.new ≡ stand_unloaded (fleet_seen fleet.now) (planet_stand self.old) }
        ensures at { self.new.planet.at ≡ self.old.planet.at }
    {
        if !fleet.outbound {
            self.planet.moor(fleet.cargo, &fleet.ships);
            return;
        }
        match fleet.mission {
            Mission::Transport => self.planet.supply(fleet.cargo),
            Mission::Deploy => self.planet.moor(fleet.cargo, &fleet.ships),
            Mission::Harvest => self.planet.harvest(fleet),
            Mission::Attack => {}
        }
    }
}

impl Held {
    ghost use Rattle.std.specs.Prelude.{◌≡◌, ◌&&◌, ◌||◌, true, false, not, IfSome, option_map};
    ghost use Rattle.base_ids.specs.Cells.{same_cell};
    ghost use Rattle.base_ids.specs.declared.cell_id.CellId.{CellId};
    ghost use Rattle.base_ids.specs.declared.cell_id.CellId.TheVariants.{Account as AccountId, Planet as PlanetId};
    ghost use Rattle.fleet_rec.specs.Fleet.{cargo_seen, fleet_seen};
    ghost use Rattle.happenings.specs.Applying.{held_after};
    ghost use Rattle.happenings.specs.Held.{IsNamed, held_at};
    ghost use Rattle.happenings.specs.Landings.{CanLand, CanLeave, HasRoom, Leaves, Unloads, is_abroad, is_home};
    ghost use Rattle.tick_model.specs.Events.{lands};
    ghost use Rattle.happenings.specs.Orders.{place_order};
    ghost use Rattle.happenings.specs.declared.held.PlanetCell.{PlanetCell};
    ghost use Rattle.planet_cell.specs.Planet.{fields_of};
    ghost use Rattle.std.specs.BTreeMap.{get};
    ghost use Rattle.std.specs.Option.{ForSome};
    ghost use Rattle.std.specs.Prelude.{Some};
    ghost use Rattle.tick_model.specs.Flights.{landed, landing};
    ghost use Rattle.tick_model.specs.Universe.{of_planet};
    ghost use Rattle.tick_model.specs.Views.{belongs};
    ghost use Rattle.tick_model.specs.declared.rules.Rules.{Rules};

    // A fleet lands: its cells gain until then, its planet takes what it leaves there, and each cell's copy turns back, or goes.
    pub(crate) fn land(&mut self, rules: &Rules, fleet: &Fleet)
        requires land { CanLand self.old (fleet_seen fleet.now) }
        requires named { IsNamed self.old }
        ensures lands { (cell : CellId) → held_at self.new cell ≡ held_after rules.now (lands (fleet_seen fleet.now)) self.old cell }
        ensures named { IsNamed self.new }
    {
        let back = self.cargo_back(fleet);
        self.leave_all(rules, fleet, back);
        self.unload(fleet);
    }

    // The cargo with which a fleet turns back, if it does.
    fn cargo_back(&self, fleet: &Fleet) -> Option<Amounts>
        ensures back { (place : PlanetCell) → get place_order self.now.planets (landing (fleet_seen fleet.now)) ≡ Some place
            → option_map cargo_seen result ≡ (landed (fleet_seen fleet.now) (of_planet (fields_of place.planet))).back }
        ensures out { ForSome result (λ cargo. fleet.now.outbound ≡ true) }
    {
        let cell = self.planets.get(&fleet.landing())?;
        cargo_back(&cell.planet, fleet)
    }

    // The fleet leaves all its cells.
    fn leave_all(&mut self, rules: &Rules, fleet: &Fleet, back: Option<Amounts>)
        requires leave { (cell : CellId) → belongs cell (fleet_seen fleet.now) ≡ true → CanLeave (fleet_seen fleet.now) (option_map cargo_seen back) self.old cell }
        requires named { IsNamed self.old }
        ensures leaves { Leaves (λ cell. belongs cell (fleet_seen fleet.now)) rules.now (fleet_seen fleet.now) (option_map cargo_seen back) self.old self.new }
        ensures named { IsNamed self.new }
    {
        self.leave_home(rules, fleet, back);
        if fleet.outbound {
            self.leave_abroad(rules, fleet, back);
        }
    }

    // The fleet leaves the cells to which it belongs on all its way.
    fn leave_home(&mut self, rules: &Rules, fleet: &Fleet, back: Option<Amounts>)
        requires leave { (cell : CellId) → is_home (fleet_seen fleet.now) cell ≡ true → CanLeave (fleet_seen fleet.now) (option_map cargo_seen back) self.old cell }
        requires named { IsNamed self.old }
        ensures leaves { Leaves (is_home (fleet_seen fleet.now)) rules.now (fleet_seen fleet.now) (option_map cargo_seen back) self.old self.new }
        ensures named { IsNamed self.new }
    {
        self.leave_planet(fleet.origin, rules, fleet, back);
        self.leave_account(fleet.owner, fleet, back);
    }

    // The fleet leaves those to which it belongs only on its way out.
    fn leave_abroad(&mut self, rules: &Rules, fleet: &Fleet, back: Option<Amounts>)
        requires leave { (cell : CellId) → is_abroad (fleet_seen fleet.now) cell ≡ true → CanLeave (fleet_seen fleet.now) (option_map cargo_seen back) self.old cell }
        requires named { IsNamed self.old }
        ensures leaves { Leaves (is_abroad (fleet_seen fleet.now)) rules.now (fleet_seen fleet.now) (option_map cargo_seen back) self.old self.new }
        ensures named { IsNamed self.new }
    {
        self.leave_target(rules, fleet, back);
        self.leave_target_owner(fleet, back);
    }

    // The fleet leaves its target, unless that is its origin.
    fn leave_target(&mut self, rules: &Rules, fleet: &Fleet, back: Option<Amounts>)
        requires leave { is_home (fleet_seen fleet.now) (PlanetId fleet.now.target) ≡ false → CanLeave (fleet_seen fleet.now) (option_map cargo_seen back) self.old (PlanetId fleet.now.target) }
        requires named { IsNamed self.old }
        ensures leaves { Leaves (λ cell. same_cell (PlanetId fleet.now.target) cell && not (is_home (fleet_seen fleet.now) cell)) rules.now (fleet_seen fleet.now) (option_map cargo_seen back) self.old self.new }
        ensures named { IsNamed self.new }
    {
        if is_home(fleet, CellId::Planet(fleet.target)) {
            return;
        }
        self.leave_planet(fleet.target, rules, fleet, back);
    }

    // The fleet leaves the account of its target's owner, unless that is its own owner's.
    fn leave_target_owner(&mut self, fleet: &Fleet, back: Option<Amounts>)
        requires leave { is_home (fleet_seen fleet.now) (AccountId fleet.now.target_owner) ≡ false → CanLeave (fleet_seen fleet.now) (option_map cargo_seen back) self.old (AccountId fleet.now.target_owner) }
        requires named { IsNamed self.old }
        ensures leaves { (rules : Rules) → Leaves (λ cell. same_cell (AccountId fleet.now.target_owner) cell && not (is_home (fleet_seen fleet.now) cell)) rules (fleet_seen fleet.now) (option_map cargo_seen back) self.old self.new }
        ensures named { IsNamed self.new }
    {
        if is_home(fleet, CellId::Account(fleet.target_owner)) {
            return;
        }
        self.leave_account(fleet.target_owner, fleet, back);
    }

    // The fleet leaves a player's account, if that is held.
    fn leave_account(&mut self, player: Player, fleet: &Fleet, back: Option<Amounts>)
        requires leave { CanLeave (fleet_seen fleet.now) (option_map cargo_seen back) self.old (AccountId player) }
        requires named { IsNamed self.old }
        ensures leaves { (rules : Rules) → Leaves (same_cell (AccountId player)) rules (fleet_seen fleet.now) (option_map cargo_seen back) self.old self.new }
        ensures named { IsNamed self.new }
    {
        if let Some(cell) = self.accounts.get_mut(&player) {
            cell.leave(fleet, back);
        }
    }

    // The fleet leaves the planet at a place, if that is held.
    fn leave_planet(&mut self, at: Coord, rules: &Rules, fleet: &Fleet, back: Option<Amounts>)
        requires leave { CanLeave (fleet_seen fleet.now) (option_map cargo_seen back) self.old (PlanetId at) }
        requires named { IsNamed self.old }
        ensures leaves { Leaves (same_cell (PlanetId at)) rules.now (fleet_seen fleet.now) (option_map cargo_seen back) self.old self.new }
        ensures named { IsNamed self.new }
    {
        if let Some(cell) = self.planets.get_mut(&at) {
            cell.leave(rules, fleet, back);
        }
    }

    // The planet at which a fleet landed takes what it leaves there.
    fn unload(&mut self, fleet: &Fleet)
        requires room { IfSome (held_at self.old (PlanetId (landing (fleet_seen fleet.now)))) (HasRoom (fleet_seen fleet.now)) }
        requires named { IsNamed self.old }
        ensures unloads { Unloads (fleet_seen fleet.now) self.old self.new }
        ensures named { IsNamed self.new }
    {
        if let Some(cell) = self.planets.get_mut(&fleet.landing()) {
            cell.unload(fleet);
        }
    }
}
