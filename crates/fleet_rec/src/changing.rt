ghost use Rattle.std.specs.Prelude.{◌≡◌, ◌≤◌, ◌<◌, None, Some, filter, length, map, option_map, true};
ghost use Rattle.std.specs.Option.{ForSome};
ghost use Rattle.base_ids.specs.declared.numbers.TheConstants.{LAST_NUMBER};
ghost use Rattle.fleet_rec.specs.Fleet.{cargo_seen, fleet_seen};
ghost use Rattle.fleet_rec.specs.Fleets.{AreOutbound, after_landing, after_recall, became_at, last_numbered, recalls_at};
ghost use Rattle.ports.specs.declared.clock.TheConstants.{LATEST};
ghost use Rattle.tick_model.specs.Flights.{turns};
ghost use Rattle.tick_model.specs.Views.{belongs};

use crate::fleet::Fleet;
use crate::fleets::Fleets;
use base_ids::CellId;
use catalog::Amounts;

impl Fleets {
    /// The fleet of a number has landed: it turns back with a cargo, or goes. It takes no memory.
    pub fn land(&mut self, number: u64, back: Option<Amounts>)
        requires { ForSome back (λ cargo. AreOutbound number self.old) }
        ensures { self.new ≡ after_landing number (option_map cargo_seen back) self.old }
    {
        match back {
            Some(cargo) => turn(&mut self.items, number, cargo),
            None => remove(&mut self.items, number),
        }
    }

    /// The fleet of a number is recalled at a moment, and turns back with what it has. It takes no memory.
    pub fn recall(&mut self, number: u64, moment: u64)
        requires { moment ≤ LATEST }
        ensures { self.new ≡ after_recall number moment self.old }
    {
        recall(&mut self.items, number, moment);
    }

    /// Those of the fleets go that don't belong to a cell. It takes no memory.
    pub fn keep(&mut self, cell: CellId)
        ensures { self.new ≡ filter (belongs cell) self.old }
    {
        keep(&mut self.items, cell);
    }

    /// The last fleet gets the number that was drawn for it, and if it joined nobody, so does its group.
    pub fn number_last(&mut self, number: u64)
        requires some { 0 < length self.old }
        requires number { number ≤ LAST_NUMBER }
        ensures { self.new ≡ last_numbered number self.old }
    {
        let last = self.items.len() - 1;
        self.items[last] = self.items[last].numbered(number);
    }
}

/// The fleet of a number turns back with a cargo.
fn turn(fleets: &mut [Fleet], number: u64, cargo: Amounts)
    requires { AreOutbound number (map fleet_seen fleets.old) }
    ensures { map fleet_seen fleets.new ≡ after_landing number (Some (cargo_seen cargo)) (map fleet_seen fleets.old) }
{
    'fleets: for fleet in fleets.iter_mut() {
        *fleet = turned_at(*fleet, number, cargo);
    }
}

/// What becomes of a fleet if the one of a number turns back with a cargo.
fn turned_at(fleet: Fleet, number: u64, cargo: Amounts) -> Fleet
    requires { fleet.number ≡ number → fleet.outbound ≡ true }
    ensures { became_at number (turns (Some (cargo_seen cargo))) (fleet_seen fleet) ≡ Some (fleet_seen result) }
{
    if fleet.number == number {
        fleet.turned(cargo)
    } else {
        fleet
    }
}

/// The fleet of a number goes.
fn remove(fleets: &mut Vec<Fleet>, number: u64)
    ensures { map fleet_seen fleets.new.items ≡ after_landing number None (map fleet_seen fleets.old.items) }
{
    fleets.retain(|fleet| fleet.number != number);
}

/// The fleet of a number turns back at a moment, with what it has.
fn recall(fleets: &mut [Fleet], number: u64, moment: u64)
    requires { moment ≤ LATEST }
    ensures { map fleet_seen fleets.new ≡ after_recall number moment (map fleet_seen fleets.old) }
{
    'fleets: for fleet in fleets.iter_mut() {
        *fleet = recalled_at(*fleet, number, moment);
    }
}

/// What becomes of a fleet if the one of a number is recalled at a moment.
fn recalled_at(fleet: Fleet, number: u64, moment: u64) -> Fleet
    requires { moment ≤ LATEST }
    ensures { became_at number (recalls_at moment) (fleet_seen fleet) ≡ Some (fleet_seen result) }
{
    if fleet.number == number {
        fleet.recalled(moment)
    } else {
        fleet
    }
}

/// Those of the fleets stay that belong to a cell.
fn keep(fleets: &mut Vec<Fleet>, cell: CellId)
    ensures { map fleet_seen fleets.new.items ≡ filter (belongs cell) (map fleet_seen fleets.old.items) }
{
    fleets.retain(|fleet| fleet.belongs(cell));
}
