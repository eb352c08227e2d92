// Whether the fleets of a base fit into their groups.
ghost use Rattle.std.specs.Prelude.{◌≡◌, ◌↔◌, ◌∷◌, ◌++◌, [], IfOk, IsTrue, List, MatchOption, map};
ghost use Rattle.std.specs.BTreeMap.{get};
ghost use Rattle.std.specs.Ordering.{nat_cmp};
ghost use Rattle.base_bytes.specs.Tallies.{AreNoted, AreOf, CanJoin, FitInGroups, IsNoted};
ghost use Rattle.fleet_rec.specs.Fleet.{fleet_seen};
ghost use Rattle.tick_model.specs.Universe.{Fleet as FleetInList};

use base_ids::Coord;
use fleet_rec::{Fleet, Fleets};
use std::alloc::{AllocError, Global};
use std::collections::BTreeMap;
use tick_model::MOST_IN_GROUP;

/// The fleets that fly out in a group: where and when they arrive, and how many they are, 1 to `tick_model::MOST_IN_GROUP`.
#[derive(Clone, Copy, Debug)]
pub struct Group {
    pub target: Coord,
    pub second: u64,
    pub count: usize,
}

/// Whether the fleets that fly out in one group arrive together, and are no more than a group may have. It looks at each fleet once.
pub fn groups_fit(alloc: Global, fleets: &Fleets) -> Result<bool, AllocError>
    ensures { IfOk result (λ fit. IsTrue fit ↔ FitInGroups fleets.now) }
{
    do_fit(alloc, fleets.as_slice())
}

fn do_fit(alloc: Global, fleets: &[Fleet]) -> Result<bool, AllocError>
    ensures { IfOk result (λ fit. IsTrue fit ↔ FitInGroups (map fleet_seen fleets.now)) }
{
    let mut groups = BTreeMap::new(alloc);
    'fleets: for fleet in fleets {
        let fits = add_fleet(&mut groups, fleet)?;
        if !fits {
            return Ok(false);
        }
    }
    Ok(true)
}

// Notes a fleet in its group, if it flies out. The answer is whether it fits there.
fn add_fleet(groups: &mut BTreeMap<u64, Group>, fleet: &Fleet) -> Result<bool, AllocError>
    ensures noted { IfOk result (λ fits. (seen : List FleetInList) → AreNoted groups.old seen → IsTrue fits → AreNoted groups.new (seen ++ fleet_seen fleet.now ∷ [])) }
    ensures fits { IfOk result (λ fits. (seen : List FleetInList) → AreNoted groups.old seen → FitInGroups (seen ++ fleet_seen fleet.now ∷ []) → IsTrue fits) }
{
    if !fleet.outbound {
        return Ok(true);
    }
    let Some(group) = with_fleet(groups, fleet) else {
        return Ok(false);
    };
    groups.insert(fleet.group, group)?;
    Ok(true)
}

// The group of a fleet, with it.
fn with_fleet(groups: &BTreeMap<u64, Group>, fleet: &Fleet) -> Option<Group>
    ensures { MatchOption result ((seen : List FleetInList) → IsNoted (get nat_cmp groups.now fleet.now.group) seen → CanJoin (fleet_seen fleet.now) seen → ⊥)
        (λ group. (seen : List FleetInList) → IsNoted (get nat_cmp groups.now fleet.now.group) seen → AreOf group (seen ++ fleet_seen fleet.now ∷ [])) }
{
    match groups.get(&fleet.group) {
        Some(group) => joined(group, fleet),
        None => Some(Group {
            target: fleet.target,
            second: fleet.second,
            count: 1,
        }),
    }
}

// The group with one fleet more, if it arrives with the others, and there is room.
fn joined(group: &Group, fleet: &Fleet) -> Option<Group>
    ensures { MatchOption result ((seen : List FleetInList) → AreOf group.now seen → CanJoin (fleet_seen fleet.now) seen → ⊥)
        (λ new. (seen : List FleetInList) → AreOf group.now seen → AreOf new (seen ++ fleet_seen fleet.now ∷ [])) }
{
    if fleet.target != group.target || fleet.second != group.second {
        return None;
    }
    if group.count >= MOST_IN_GROUP {
        return None;
    }
    Some(Group {
        target: group.target,
        second: group.second,
        count: group.count + 1,
    })
}
