ghost use Rattle.happenings.specs.Held.{IsNamed, account_stand, planet_stand};
ghost use Rattle.happenings.specs.Numbering.{Numbers, numbered_stand};
ghost use Rattle.base_ids.specs.declared.numbers.TheConstants.{LAST_NUMBER};
ghost use Rattle.happenings.specs.Numbering.{NumbersFleet, fleet_numbered};
ghost use Rattle.std.specs.Prelude.{◌≡◌, ◌≤◌, ◌||◌};
ghost use Rattle.tick_model.specs.Universe.{Buildings as BuildingsClass, Researches as ResearchClass, Yard as YardClass};

use crate::held::{AccountCell, Held, PlanetCell};
use crate::queue::Queue;
use base_ids::{Coord, Player};
use fleet_rec::Fleet;

impl AccountCell {
    /// Gives a number to the last item of the account's research queue, if there is one.
    #[tactic(auto, using(crate::proofs::Numbered::numbered_cells))]
    fn number_research(&mut self, number: u64)
        ensures stand { account_stand self.new ≡ numbered_stand number ResearchClass (account_stand self.old) }
        ensures player { self.new.account.player ≡ self.old.account.player }
    {
        if !self.account.research.is_empty() {
            self.account.number_last_research(number);
        }
    }

    /// Gives a number to the last of the account's fleets, if there is one.
    #[tactic(auto, using(crate::proofs::Numbered::fleets_numbered))]
    fn number_fleet(&mut self, number: u64)
        requires { number ≤ LAST_NUMBER }
        ensures stand { account_stand self.new ≡ fleet_numbered number (account_stand self.old) }
        ensures player { self.new.account.player ≡ self.old.account.player }
    {
        if !self.fleets.is_empty() {
            self.fleets.number_last(number);
        }
    }
}

impl PlanetCell {
    /// Gives a number to the last item of the planet's building queue, if there is one.
    #[tactic(auto, using(crate::proofs::Numbered::numbered_cells))]
    fn number_building(&mut self, number: u64)
        ensures stand { planet_stand self.new ≡ numbered_stand number BuildingsClass (planet_stand self.old) }
        ensures at { self.new.planet.at ≡ self.old.planet.at }
    {
        if !self.planet.buildings.is_empty() {
            self.planet.number_last_building(number);
        }
    }

    /// Gives a number to the last batch of the planet's yard, if there is one.
    #[tactic(auto, using(crate::proofs::Numbered::numbered_cells))]
    fn number_batch(&mut self, number: u64)
        ensures stand { planet_stand self.new ≡ numbered_stand number YardClass (planet_stand self.old) }
        ensures at { self.new.planet.at ≡ self.old.planet.at }
    {
        if !self.planet.yard.is_empty() {
            self.planet.number_last_batch(number);
        }
    }

    /// Gives a number to the last of the planet's fleets, if there is one.
    #[tactic(auto, using(crate::proofs::Numbered::fleets_numbered))]
    fn number_fleet(&mut self, number: u64)
        requires { number ≤ LAST_NUMBER }
        ensures stand { planet_stand self.new ≡ fleet_numbered number (planet_stand self.old) }
        ensures at { self.new.planet.at ≡ self.old.planet.at }
    {
        if !self.fleets.is_empty() {
            self.fleets.number_last(number);
        }
    }
}

impl Held {
    ghost use Rattle.base_ids.specs.Cells.{same_cell};
    ghost use Rattle.base_ids.specs.declared.cell_id.CellId.TheVariants.{Account as AccountId, Planet as PlanetId};
    ghost use Rattle.fleet_rec.specs.Fleet.{fleet_seen};
    ghost use Rattle.happenings.specs.declared.queue.Queue.TheVariants.{Buildings, Research, Yard};
    ghost use Rattle.tick_model.specs.Views.{belongs};

    /// Gives a number to the last item of a queue, if such an item is held. It takes no memory.
    pub fn number_last(&mut self, queue: Queue, number: u64)
        ensures numbers { Numbers number queue self.old self.new }
        ensures named { IsNamed self.old → IsNamed self.new }
    {
        match queue {
            Queue::Buildings(at) => self.number_building(at, number),
            Queue::Research(player) => self.number_research(player, number),
            Queue::Yard(at) => self.number_batch(at, number),
        }
    }

    fn number_building(&mut self, at: Coord, number: u64)
        ensures numbers { Numbers number (Buildings at) self.old self.new }
        ensures named { IsNamed self.old → IsNamed self.new }
    {
        if let Some(cell) = self.planets.get_mut(&at) {
            cell.number_building(number);
        }
    }

    fn number_research(&mut self, player: Player, number: u64)
        ensures numbers { Numbers number (Research player) self.old self.new }
        ensures named { IsNamed self.old → IsNamed self.new }
    {
        if let Some(cell) = self.accounts.get_mut(&player) {
            cell.number_research(number);
        }
    }

    fn number_batch(&mut self, at: Coord, number: u64)
        ensures numbers { Numbers number (Yard at) self.old self.new }
        ensures named { IsNamed self.old → IsNamed self.new }
    {
        if let Some(cell) = self.planets.get_mut(&at) {
            cell.number_batch(number);
        }
    }

    /// Gives a number to the last fleet of each cell to which a fleet belongs, as far as these cells are held. It takes no memory.
    pub fn number_fleet(&mut self, fleet: &Fleet, number: u64)
        requires { number ≤ LAST_NUMBER }
        ensures numbers { NumbersFleet (λ cell. belongs cell (fleet_seen fleet.now)) number self.old self.new }
        ensures named { IsNamed self.old → IsNamed self.new }
    {
        self.number_at(fleet.origin, fleet.owner, number);
        if fleet.outbound {
            self.number_at(fleet.target, fleet.target_owner, number);
        }
    }

    // Gives the number to the last fleet of a planet and of an account.
    fn number_at(&mut self, at: Coord, player: Player, number: u64)
        requires { number ≤ LAST_NUMBER }
        ensures numbers { NumbersFleet (λ cell. same_cell (PlanetId at) cell || same_cell (AccountId player) cell) number self.old self.new }
        ensures named { IsNamed self.old → IsNamed self.new }
    {
        self.number_planet_fleet(at, number);
        self.number_account_fleet(player, number);
    }

    fn number_planet_fleet(&mut self, at: Coord, number: u64)
        requires { number ≤ LAST_NUMBER }
        ensures numbers { NumbersFleet (same_cell (PlanetId at)) number self.old self.new }
        ensures named { IsNamed self.old → IsNamed self.new }
    {
        if let Some(cell) = self.planets.get_mut(&at) {
            cell.number_fleet(number);
        }
    }

    fn number_account_fleet(&mut self, player: Player, number: u64)
        requires { number ≤ LAST_NUMBER }
        ensures numbers { NumbersFleet (same_cell (AccountId player)) number self.old self.new }
        ensures named { IsNamed self.old → IsNamed self.new }
    {
        if let Some(cell) = self.accounts.get_mut(&player) {
            cell.number_fleet(number);
        }
    }
}
