ghost use Rattle.std.specs.Prelude.{◌≡◌, ◌&&◌, ◌==◌, Some, IfOk, IfSome, IsTrue, OnOk, filter, length, map, option_map, true};
ghost use Rattle.std.specs.List.{filter_map, find, list_any};
ghost use Rattle.base_ids.specs.Cells.{same_coord};
ghost use Rattle.fleet_rec.specs.Fleet.{fleet_seen};
ghost use Rattle.fleet_rec.specs.Fleets.{MayFight, after_battle, bears, first_of, is_left, is_raider, turned_if};
ghost use Rattle.tick_model.specs.Raids.{companions, is_attack, raiders};
ghost use Rattle.tick_model.specs.Rules.{same_flight};

use crate::fleet::Fleet;
use crate::fleets::Fleets;
use base_ids::Coord;
use catalog::Mission;
use std::alloc::AllocError;

impl Fleets {
    /// How many fleets fly out to a place in a group.
    #[tactic(auto, using(crate::proofs::Raids::companions_count))]
    pub fn companions(&self, at: Coord, group: u64) -> usize
        ensures { result ≡ length (companions at group self.now) }
    {
        self.items
            .iter()
            .filter(|fleet| goes_with(fleet, at, group))
            .count()
    }

    /// The fleets of a group that fly out to attack a place.
    pub fn raiders(&self, at: Coord, group: u64) -> Result<Fleets, AllocError>
        ensures { IfOk result (λ fleets. fleets ≡ raiders at group self.now) }
    {
        let mut all = self.copy()?;
        keep_companions(&mut all.items, at, group);
        keep_attackers(&mut all.items);
        Ok(all)
    }

    /// The first fleet of a group that flies out to attack a place. It takes no memory.
    pub fn first_raider(&self, at: Coord, group: u64) -> Option<Fleet>
        ensures seen { option_map fleet_seen result ≡ first_of (raiders at group self.now) }
        ensures outbound { IfSome result (λ fleet. IsTrue fleet.outbound) }
    {
        first_raider(&self.items, at, group)
    }

    /// Whether one of the fleets has this number.
    #[tactic(auto, using(crate::proofs::Raids::any_found))]
    pub fn has(&self, number: u64) -> bool
        ensures { result ≡ list_any (bears number) self.now }
    {
        self.numbered(number).is_some()
    }

    /// The first of the fleets that has this number.
    pub fn numbered(&self, number: u64) -> Option<Fleet>
        ensures { option_map fleet_seen result ≡ find (bears number) self.now }
    {
        numbered(&self.items, number)
    }

    /// These fleets have fought, and this is left of them: each turns back with what is left of it, or is gone. It takes no memory.
    pub fn fight(&mut self, fought: &Fleets, left: &Fleets)
        requires { MayFight fought.now self.old }
        ensures { self.new ≡ after_battle fought.now left.now self.old }
    {
        turn_in(&mut self.items, fought, left);
        keep_left(&mut self.items, fought, left);
    }
}

/// Whether a fleet flies out to a place in a group.
fn goes_with(fleet: &Fleet, at: Coord, group: u64) -> bool
    ensures { result ≡ (fleet.now.outbound && same_coord fleet.now.target at && fleet.now.group == group) }
{
    let place = fleet.target;
    fleet.outbound && place.g == at.g && place.s == at.s && place.p == at.p && fleet.group == group
}

/// Whether a fleet flies out to attack a place in a group.
fn is_raider(fleet: &Fleet, at: Coord, group: u64) -> bool
    ensures seen { result ≡ is_raider at group (fleet_seen fleet.now) }
    ensures outbound { IsTrue result → IsTrue fleet.now.outbound }
{
    goes_with(fleet, at, group) && matches!(fleet.mission, Mission::Attack)
}

/// The first of the fleets that flies out to attack a place in a group.
#[tactic(auto, using(crate::proofs::Raids::raider_more))]
fn first_raider(fleets: &[Fleet], at: Coord, group: u64) -> Option<Fleet>
    ensures seen { option_map fleet_seen result ≡ first_of (raiders at group (map fleet_seen fleets.now)) }
    ensures outbound { IfSome result (λ fleet. IsTrue fleet.outbound) }
{
    'fleets: for fleet in fleets {
        if is_raider(fleet, at, group) {
            return Some(*fleet);
        }
    }
    None
}

/// Those of the fleets stay that fly out to a place in a group.
fn keep_companions(fleets: &mut Vec<Fleet>, at: Coord, group: u64)
    ensures { map fleet_seen fleets.new.items ≡ companions at group (map fleet_seen fleets.old.items) }
{
    fleets.retain(|fleet| goes_with(fleet, at, group));
}

/// Those of the fleets stay that are to attack.
fn keep_attackers(fleets: &mut Vec<Fleet>)
    ensures { map fleet_seen fleets.new.items ≡ filter (λ fleet. is_attack fleet.mission) (map fleet_seen fleets.old.items) }
{
    fleets.retain(|fleet| matches!(fleet.mission, Mission::Attack));
}

/// The first of the fleets that has this number.
fn numbered(fleets: &[Fleet], number: u64) -> Option<Fleet>
    ensures { option_map fleet_seen result ≡ find (bears number) (map fleet_seen fleets.now) }
{
    'fleets: for fleet in fleets {
        if number == fleet.number {
            return Some(*fleet);
        }
    }
    None
}

/// Each fleet of a list that has fought turns back with what is left of it, if anything is.
fn turn_in(fleets: &mut Vec<Fleet>, fought: &Fleets, left: &Fleets)
    requires { MayFight fought.now (map fleet_seen fleets.old.items) }
    ensures { map fleet_seen fleets.new.items ≡ filter_map (λ fleet. Some (turned_if fought.now left.now fleet)) (map fleet_seen fleets.old.items) }
{
    turn_all(fleets, fought, left);
}

/// Each fleet that has fought turns back with what is left of it, if anything is.
fn turn_all(fleets: &mut [Fleet], fought: &Fleets, left: &Fleets)
    requires { MayFight fought.now (map fleet_seen fleets.old) }
    ensures { map fleet_seen fleets.new ≡ filter_map (λ fleet. Some (turned_if fought.now left.now fleet)) (map fleet_seen fleets.old) }
{
    'fleets: for fleet in fleets.iter_mut() {
        *fleet = turned_if(*fleet, fought, left);
    }
}

/// A fleet, or if it has fought and something is left of it, what turns back.
fn turned_if(fleet: Fleet, fought: &Fleets, left: &Fleets) -> Fleet
    requires { list_any (same_flight (fleet_seen fleet)) fought.now ≡ true → fleet.outbound ≡ true }
    ensures { fleet_seen result ≡ turned_if fought.now left.now (fleet_seen fleet) }
{
    if !fought.has(fleet.number) {
        return fleet;
    }
    match left.numbered(fleet.number) {
        Some(rest) => fleet.back_with(&rest),
        None => fleet,
    }
}

/// Those of the fleets stay that have not fought, or of which something is left.
fn keep_left(fleets: &mut Vec<Fleet>, fought: &Fleets, left: &Fleets)
    ensures { map fleet_seen fleets.new.items ≡ filter (is_left fought.now left.now) (map fleet_seen fleets.old.items) }
{
    fleets.retain(|fleet| !fought.has(fleet.number) || left.has(fleet.number));
}
