ghost use Rattle.std.specs.Prelude.{◌≡◌, ◌≤◌, IfOk, length, map, sum, sum_by};
ghost use Rattle.std.specs.List.Sorted.{IsStrictlyIncreasing};
ghost use Rattle.raids.specs.Aftermath.{IsAftermath};
ghost use Rattle.raids.specs.Leaving.{AreFleets, IsLeft};

use crate::aftermath::{Aftermath, Raider};
use crate::carrying::laden;
use crate::leaving::survivors;
use crate::mustering::{attackers, home_part, side_of};
use crate::plundering::plunder;
use crate::rebuilding::units_after;
use crate::wrecking::debris_left;
use battle::{Part, Verdict};
use catalog::Techs;
use planet_cell::Planet;
use std::alloc::{AllocError, Global};

/// The battle of the fleets of a group on a planet whose owner has these technologies. Its random words come from the universe's
/// seed and the number of the group. It fails only if memory runs out.
pub fn fight(
    alloc: Global,
    seed: u64,
    group: u64,
    raiders: &[Raider],
    planet: &Planet,
    techs: Techs,
) -> Result<Aftermath, AllocError>
    requires rising { IsStrictlyIncreasing (map (λ raider. raider.fleet.number) raiders.now) }
    requires few { sum_by (λ raider. sum raider.fleet.ships.n) raiders.now ≤ 800000 }
    ensures { IfOk result (IsAftermath seed group raiders.now planet.now techs) }
{
    let mut fleets = attackers(alloc, raiders)?;
    let part = home_part(&planet.units, techs);
    let mut home = side_of(alloc, part)?;
    let outcome = battle::fight(alloc, &mut fleets, &mut home, seed, group)?;
    let home = home.as_slice()[0];
    aftermath(
        alloc,
        raiders,
        fleets.as_slice(),
        planet,
        &home,
        outcome.verdict,
    )
}

/// What a battle leaves, by who has won it and by what is left of the parts of the fleets and of the planet's part.
fn aftermath(
    alloc: Global,
    raiders: &[Raider],
    left: &[Part],
    planet: &Planet,
    home: &Part,
    verdict: Verdict,
) -> Result<Aftermath, AllocError>
    requires parts { length left.now ≡ length raiders.now }
    requires fleets { AreFleets left.now }
    ensures { IfOk result (IsLeft raiders.now left.now planet.now home.now verdict) }
{
    let fleets = survivors(alloc, raiders, left)?;
    let taken = plunder(verdict, fleets.as_slice(), planet.stock);
    Ok(Aftermath {
        fleets: laden(alloc, fleets.as_slice(), taken)?,
        taken,
        debris: debris_left(raiders, left, planet, home),
        units: units_after(&planet.units, &home.n),
    })
}
