ghost use Rattle.std.specs.Prelude.{◌≡◌, IfOk, MatchOption, IsTrue, length, nat_le, nat_lt, option_map, sum, take};
ghost use Rattle.std.specs.List.{list_all, list_any};
ghost use Rattle.catalog.specs.declared.ships.TheConstants.{SHIPS, UNITS};
ghost use Rattle.fleet_rec.specs.Fleet.{fleet_seen};
ghost use Rattle.raids.specs.Leaving.{AreFleets, IsFleet, fleets_seen, survivor};
ghost use Rattle.tick_model.specs.Battles.{survivors};

use crate::aftermath::Raider;
use crate::carrying::fitting;
use battle::Part;
use catalog::Ships;
use fleet_rec::{Fleet, Fleets};
use flight::capacity;
use std::alloc::{AllocError, Global};

/// The fleets that have ships left, with these ships and with as much of their cargo as they carry.
pub(crate) fn survivors(
    alloc: Global,
    raiders: &[Raider],
    left: &[Part],
) -> Result<Fleets, AllocError>
    requires parts { length left.now ≡ length raiders.now }
    requires fleets { AreFleets left.now }
    ensures { IfOk result (λ fleets. fleets ≡ survivors (fleets_seen raiders.now) left.now) }
{
    let mut fleets = Fleets::new(alloc);
    'raiders: for (place, raider) in raiders.iter().enumerate() {
        if let Some(fleet) = survivor(&raider.fleet, &left[place]) {
            fleets.push(fleet)?;
        }
    }
    Ok(fleets)
}

/// The fleet with what is left of it, if it has ships left.
pub(crate) fn survivor(fleet: &Fleet, left: &Part) -> Option<Fleet>
    requires { IsFleet left.now }
    ensures { option_map fleet_seen result ≡ survivor (fleet_seen fleet.now) left.now }
{
    let ships = ships_of(&left.n)?;
    let mut after = *fleet;
    after.ships = ships;
    after.cargo = fitting(capacity(&ships), fleet.cargo);
    Some(after)
}

/// The ships among units, if there are any.
#[tactic(auto, using(crate::proofs::Manned::ships))]
fn ships_of(units: &[u32; 22]) -> Option<Ships>
    requires { IsTrue (list_all (λ count. nat_le count UNITS) (take (length SHIPS) units.now)) }
    ensures { MatchOption result (sum (take (length SHIPS) units.now) ≡ 0) (λ ships. ships.n ≡ take (length SHIPS) units.now) }
{
    let mut n = [0; 13];
    n.copy_from_slice(&units[..13]);
    if are_some(&n) {
        Some(Ships { n })
    } else {
        None
    }
}

/// Whether any of the counts is not 0.
fn are_some(counts: &[u32]) -> bool
    ensures { result ≡ list_any (λ count. nat_lt 0 count) counts.now }
{
    counts.iter().any(|count| 0 < *count)
}
