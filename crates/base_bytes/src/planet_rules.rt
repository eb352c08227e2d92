// Whether a planet by itself is as the rules say.
ghost use Rattle.std.specs.Prelude.{◌≡◌, ◌↔◌, ◌+◌, ◌*◌, ◌^◌, ◌≤◌, ◌==◌, All, IsTrue, if◌then◌else◌, length, sum_by, true};
ghost use Rattle.base_bytes.specs.Base.{planet_items};
ghost use Rattle.base_bytes.specs.Kept.{IsDrawn, PlanetKeeps};
ghost use Rattle.base_bytes.specs.Rules.{IsInRange};
ghost use Rattle.base_bytes.specs.Sound.{RunsAfter};
ghost use Rattle.catalog.specs.Kinds.{kind_number};
ghost use Rattle.catalog.specs.declared.kind.Kind.{Kind};
ghost use Rattle.planet_cell.specs.Planet.{batches_of, buildings_of, fields_of, queue_of};
ghost use Rattle.tick_model.specs.Limits.{KeepsLevels, OthersWait, Rises, ordered_units};
ghost use Rattle.tick_model.specs.Moments.{IsTimed};
ghost use Rattle.tick_model.specs.Production.{level_of};
ghost use Rattle.tick_model.specs.Refusals.{is_dome, used_fields};
ghost use Rattle.tick_model.specs.Yards.{count_of};
ghost use Rattle.tick_model.specs.declared.codes.TheConstants.{MOST_QUEUED};

use crate::limits::MOST_FIELDS;
use crate::queue_rules::{are_drawn, others_wait, runs_after};
use crate::ranges::are_so_many;
use catalog::{BUILDINGS, CAP, Kind, UNIT_KINDS, Unit, WORKS};
use planet_cell::{Batch, Planet, place_of_unit};

/// Whether each planet is as the rules say, at a moment and after so many requests.
#[tactic(auto, using(crate::proofs::Checks::one_more, crate::proofs::Checks::not_all))]
pub fn all_planets_keep(moment: u64, number: u64, planets: &[Planet]) -> bool
    ensures { IsTrue result ↔ All (PlanetKeeps moment number) planets.now }
{
    'planets: for planet in planets {
        if !planet_keeps(moment, number, planet) {
            return false;
        }
    }
    true
}

/// Whether a planet is as the rules say, at a moment and after so many requests.
pub fn planet_keeps(moment: u64, number: u64, planet: &Planet) -> bool
    ensures { IsTrue result ↔ PlanetKeeps moment number planet.now }
{
    is_in_range(planet)
        && are_so_many(&planet.units, UNIT_KINDS.len())
        && keeps_levels(planet)
        && planet_runs_after(moment, planet)
        && planet_is_drawn(number, planet)
        && planet_is_timed(moment, planet)
}

/// Whether a planet is in its ranges: its levels, its tenths, its fields and its debris.
pub fn is_in_range(planet: &Planet) -> bool
    ensures { IsTrue result ↔ IsInRange planet.now }
{
    are_so_many(&planet.levels, BUILDINGS.len())
        && are_so_many(&planet.tenths, WORKS.len())
        && 1 <= planet.fields
        && planet.fields <= MOST_FIELDS
        && planet.debris.metal <= CAP
        && planet.debris.crystal <= CAP
}

/// Whether a planet keeps its levels, its fields and its domes, even if all that is queued is built, and its queues wait in turn.
#[tactic(auto, using(crate::proofs::PlanetChecks::levels_kept))]
pub fn keeps_levels(planet: &Planet) -> bool
    ensures { IsTrue result ↔ KeepsLevels (fields_of planet.now) (queue_of planet.now) }
{
    has_fields(planet) && has_lone_domes(planet) && rises(planet) && yard_waits(planet)
}

fn has_fields(planet: &Planet) -> bool
    ensures { IsTrue result ↔ (used_fields (fields_of planet.now) + length (buildings_of planet.now) ≤ planet.now.fields) }
{
    usize::from(planet.used_fields()) + planet.buildings.len() <= usize::from(planet.fields)
}

#[tactic(auto, using(crate::proofs::PlanetChecks::domes))]
fn has_lone_domes(planet: &Planet) -> bool
    ensures { IsTrue result ↔ ((kind : Kind) → is_dome kind ≡ true → count_of (fields_of planet.now) kind + ordered_units kind (batches_of planet.now) ≤ 1) }
{
    let small = Unit {
        kind: Kind::SmallDome,
    };
    let large = Unit {
        kind: Kind::LargeDome,
    };
    is_lone(planet, small) && is_lone(planet, large)
}

// Whether the units of a kind are at most one, those that the yard is to build included.
#[tactic(auto, using(crate::proofs::PlanetChecks::ordered_items), unfolding(tick_model::specs::Yards::count_of))]
fn is_lone(planet: &Planet, unit: Unit) -> bool
    ensures { IsTrue result ↔ (count_of (fields_of planet.now) unit.kind + ordered_units unit.kind (batches_of planet.now) ≤ 1) }
{
    let standing = u64::from(planet.units[place_of_unit(unit)]);
    standing + ordered(unit, &planet.yard) <= 1
}

fn ordered(unit: Unit, yard: &[Batch]) -> u64
    requires { length yard.now ≤ MOST_QUEUED }
    ensures total { result ≡ sum_by (λ batch. if kind_number batch.kind.kind == kind_number unit.kind then batch.left else 0) yard.now }
    ensures small { result ≤ 5 * 2 ^ 32 }
{
    let mut total = 0;
    'batches: for batch in yard {
        if batch.kind.kind.number() == unit.kind.number() {
            total += u64::from(batch.left);
        }
    }
    total
}

// Whether the first building is the next level of its kind, and the others wait.
#[tactic(auto, using(crate::proofs::PlanetChecks::building_rises, crate::proofs::PlanetChecks::rises_building, crate::proofs::PlanetChecks::rises_none))]
fn rises(planet: &Planet) -> bool
    ensures { IsTrue result ↔ Rises (level_of (fields_of planet.now)) (buildings_of planet.now) }
{
    let Some(first) = planet.first_building() else {
        return true;
    };
    u16::from(first.level) == u16::from(planet.level(first.kind)) + 1
        && others_wait(&planet.buildings)
}

#[tactic(auto, using(crate::proofs::PlanetChecks::yard_waits, crate::proofs::PlanetChecks::yard_idle))]
fn yard_waits(planet: &Planet) -> bool
    ensures { IsTrue result ↔ OthersWait (batches_of planet.now) }
{
    others_wait(&planet.yard)
}

/// Whether what runs on a planet comes due past a moment.
pub fn planet_runs_after(moment: u64, planet: &Planet) -> bool
    ensures { IsTrue result ↔ (RunsAfter moment (buildings_of planet.now) × RunsAfter moment (batches_of planet.now)) }
{
    runs_after(moment, &planet.buildings) && runs_after(moment, &planet.yard)
}

/// Whether each item of a planet's queues has the number of one of the first so many requests.
#[tactic(auto, using(crate::proofs::PlanetChecks::items_drawn, crate::proofs::PlanetChecks::drawn_items))]
pub fn planet_is_drawn(number: u64, planet: &Planet) -> bool
    ensures { IsTrue result ↔ All (IsDrawn number) (planet_items planet.now) }
{
    are_drawn(number, &planet.buildings) && are_drawn(number, &planet.yard)
}

/// Whether each item of a planet's queues has its time, at a moment.
#[tactic(auto, using(crate::proofs::PlanetChecks::items_timed, crate::proofs::PlanetChecks::timed_items))]
pub fn planet_is_timed(moment: u64, planet: &Planet) -> bool
    ensures { IsTrue result ↔ All (IsTimed moment) (planet_items planet.now) }
{
    are_timed(moment, &planet.yard)
}

// Whether the next unit of each batch is done at most its seconds after a moment.
#[tactic(auto, using(crate::proofs::Checks::one_more, crate::proofs::Checks::not_all))]
fn are_timed(moment: u64, yard: &[Batch]) -> bool
    ensures { IsTrue result ↔ All (λ batch. batch.second ≤ moment + batch.unit_seconds) yard.now }
{
    'batches: for batch in yard {
        if batch.second.saturating_sub(batch.unit_seconds) > moment {
            return false;
        }
    }
    true
}
