// How many units the players of a base have.
ghost use Rattle.std.specs.Prelude.{◌≡◌, ◌↔◌, ◌+◌, ◌^◌, ◌-◌, All, IfOk, IsTrue, OnOk, if◌then◌else◌, map, min};
ghost use Rattle.std.specs.BTreeMap.{get};
ghost use Rattle.base_bytes.specs.Counting.{HasUnits, count_in, player_order};
ghost use Rattle.base_bytes.specs.Sound.{units_counted, units_owned};
ghost use Rattle.base_ids.specs.Cells.{same_player};
ghost use Rattle.base_ids.specs.declared.player.Player.{Player};
ghost use Rattle.fleet_rec.specs.Fleet.{fleet_seen};

use account_cell::Account;
use base_ids::Player;
use fleet_rec::Fleet;
use planet_cell::Planet;
use std::alloc::{AllocError, Global};
use std::collections::BTreeMap;

/// Whether each account counts the units of its planets, of their yards and of its fleets.
pub fn count_their_units(
    alloc: Global,
    accounts: &[Account],
    planets: &[Planet],
    fleets: &[Fleet],
) -> Result<bool, AllocError>
    ensures { IfOk result (λ counted. IsTrue counted ↔ All (λ account. account.units ≡ units_owned account.player planets.now (map fleet_seen fleets.now)) accounts.now) }
{
    let counts = units_by_owner(alloc, planets, fleets)?;
    Ok(accounts.iter().all(|account| count(&counts, account.player) == u64::from(account.units)))
}

// How many units each player has who has some, or 2^64 − 1 if there are more.
fn units_by_owner(
    alloc: Global,
    planets: &[Planet],
    fleets: &[Fleet],
) -> Result<BTreeMap<Player, u64>, AllocError>
    ensures { IfOk result (λ counts. HasUnits counts planets.now (map fleet_seen fleets.now)) }
{
    let mut counts = BTreeMap::new(alloc);
    'planets: for planet in planets {
        add_units(&mut counts, planet.owner, units_of(planet))?;
    }
    'fleets: for fleet in fleets {
        add_units(&mut counts, fleet.owner, u64::from(fleet.ship_total()))?;
    }
    Ok(counts)
}

// A player has so many more units, but not more than 2^64 − 1.
fn add_units(counts: &mut BTreeMap<Player, u64>, owner: Player, more: u64) -> Result<(), AllocError>
    ensures { OnOk result ((player : Player) → count_in (get player_order counts.new player)
        ≡ (if same_player owner player then min (count_in (get player_order counts.old player) + more) (2 ^ 64 - 1) else count_in (get player_order counts.old player))) }
{
    let sum = count(counts, owner).saturating_add(more);
    counts.insert(owner, sum)?;
    Ok(())
}

// The count of a player.
fn count(counts: &BTreeMap<Player, u64>, player: Player) -> u64
    ensures { result ≡ count_in (get player_order counts.now player) }
{
    counts.get(&player).copied().unwrap_or(0)
}

// How many units stand on a planet or are to be built in its yard.
fn units_of(planet: &Planet) -> u64
    ensures { result ≡ units_counted planet.now }
{
    let standing: u32 = planet.units.iter().sum();
    let ordered: u32 = planet.yard.iter().map(|batch| batch.left).sum();
    u64::from(standing + ordered)
}
