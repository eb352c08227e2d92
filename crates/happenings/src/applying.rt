ghost use Rattle.std.specs.Prelude.{◌≡◌, ◌≤◌, OnErr, OnOk};
ghost use Rattle.happenings.specs.Applying.{Happens};
ghost use Rattle.happenings.specs.Coming.{ActsIn, CanHappen};
ghost use Rattle.happenings.specs.Held.{IsEqual, IsNamed};

use crate::due::Due;
use crate::happening::Happening;
use crate::held::{Held, PlanetCell};
use crate::queue::Queue;
use crate::researching::finish_research;
use base_ids::{Coord, Player};
use std::alloc::{AllocError, Global};
use tick_model::Rules;

/// An event happens: the cells that it needs gain until its second, and then the building or the research that runs is done, or the
/// next unit of a yard, or a fleet lands, or the fleets of a group fight.
///
/// It fails only if memory runs out, and the cells then stay as they were. Only a battle takes any.
pub fn apply(
    alloc: Global,
    cells: &mut Held,
    rules: &Rules,
    what: Happening,
) -> Result<(), AllocError>
    requires can { CanHappen cells.old what }
    requires named { IsNamed cells.old }
    ensures happens { OnOk result (Happens rules.now what cells.old cells.new) }
    ensures acts { OnOk result (ActsIn rules.now what cells.old cells.new) }
    ensures named { OnOk result (IsNamed cells.new) }
    ensures err { OnErr result (IsEqual cells.old cells.new) }
{
    match what {
        Happening::Item(due) => cells.finish(rules, due),
        Happening::Coming(fleet) => {
            if fleet.attacks() {
                cells.fight(alloc, rules, &fleet)?;
            } else {
                cells.land(rules, &fleet);
            }
        }
    }
    Ok(())
}

impl PlanetCell {
    ghost use Rattle.std.specs.Prelude.{◌≡◌, ◌≤◌};
    ghost use Rattle.happenings.specs.Applying.{fields_then};
    ghost use Rattle.planet_cell.specs.Planet.{batches_of, buildings_of};
    ghost use Rattle.planet_cell.specs.Queue.{Runs, built_of, finished};
    ghost use Rattle.planet_cell.specs.Yard.{Builds, built, unit_finished, yard_of};

    /// The building that runs is done at a second.
    fn finish_building(&mut self, rules: &Rules, second: u64)
        requires runs { Runs self.old.planet.buildings.items }
        requires behind { self.old.second ≤ second }
        ensures second { self.new.second ≡ second }
        ensures built { built_of self.new.planet ≡ finished rules.now.speed (fields_then rules.now second self.old) (buildings_of self.old.planet) }
        ensures yard { batches_of self.new.planet ≡ batches_of self.old.planet }
        ensures fleets { self.new.fleets ≡ self.old.fleets }
        ensures at { self.new.planet.at ≡ self.old.planet.at }
    {
        self.planet.advance(second - self.second, rules.speed);
        self.planet.finish_building(rules.speed);
        self.second = second;
    }

    /// The next unit of the yard is done at a second.
    fn finish_unit(&mut self, rules: &Rules, second: u64)
        requires builds { Builds (batches_of self.old.planet) }
        requires behind { self.old.second ≤ second }
        ensures second { self.new.second ≡ second }
        ensures built { built (yard_of self.new.planet) ≡ unit_finished rules.now.speed (fields_then rules.now second self.old) (batches_of self.old.planet) }
        ensures buildings { buildings_of self.new.planet ≡ buildings_of self.old.planet }
        ensures fleets { self.new.fleets ≡ self.old.fleets }
        ensures at { self.new.planet.at ≡ self.old.planet.at }
    {
        self.planet.advance(second - self.second, rules.speed);
        self.planet.finish_unit(rules.speed);
        self.second = second;
    }
}

impl Held {
    ghost use Rattle.std.specs.Prelude.{◌≡◌};
    ghost use Rattle.happenings.specs.Applying.{CanFinish, Finishes};
    ghost use Rattle.happenings.specs.Held.{IsNamed};
    ghost use Rattle.happenings.specs.declared.queue.Queue.TheVariants.{Buildings, Research, Yard};

    // The first item of a queue is done, or of a yard the next unit.
    fn finish(&mut self, rules: &Rules, due: Due)
        requires due { CanFinish self.old due }
        requires named { IsNamed self.old }
        ensures finishes { Finishes rules.now due self.old self.new }
        ensures named { IsNamed self.new }
    {
        match due.queue {
            Queue::Buildings(at) => self.finish_building(rules, due, at),
            Queue::Research(player) => self.finish_research(rules, due, player),
            Queue::Yard(at) => self.finish_unit(rules, due, at),
        }
    }

    // The building that runs on the planet at a place is done.
    fn finish_building(&mut self, rules: &Rules, due: Due, at: Coord)
        requires due { CanFinish self.old due }
        requires named { IsNamed self.old }
        requires queue { due.queue ≡ Buildings at }
        ensures happens { Finishes rules.now due self.old self.new }
        ensures named { IsNamed self.new }
    {
        let Some(cell) = self.planets.get_mut(&at) else {
            unreachable!()
        };
        cell.finish_building(rules, due.second);
    }

    // The next unit of the yard of the planet at a place is done.
    fn finish_unit(&mut self, rules: &Rules, due: Due, at: Coord)
        requires due { CanFinish self.old due }
        requires named { IsNamed self.old }
        requires queue { due.queue ≡ Yard at }
        ensures happens { Finishes rules.now due self.old self.new }
        ensures named { IsNamed self.new }
    {
        let Some(cell) = self.planets.get_mut(&at) else {
            unreachable!()
        };
        cell.finish_unit(rules, due.second);
    }

    // The research that runs in a player's account is done.
    fn finish_research(&mut self, rules: &Rules, due: Due, player: Player)
        requires due { CanFinish self.old due }
        requires named { IsNamed self.old }
        requires queue { due.queue ≡ Research player }
        ensures happens { Finishes rules.now due self.old self.new }
        ensures named { IsNamed self.new }
    {
        let Some(cell) = self.accounts.get_mut(&player) else {
            unreachable!()
        };
        finish_research(cell, &mut self.planets, rules, due.second);
    }
}
