ghost use Rattle.std.specs.Prelude.{◌≡◌, ◌<◌};
ghost use Rattle.catalog.specs.Kinds.{place_in};
ghost use Rattle.catalog.specs.declared.classes.TheConstants.{BUILDINGS, UNIT_KINDS, WORKS};

use catalog::{Building, Kind, UNIT_KINDS, Unit, WORKS, Work};

/// The place of the satellites in the order of `catalog::UNIT_KINDS`.
pub(crate) const SATELLITES: usize = 13;

/// The place of a building in the order of `catalog::BUILDINGS`, counted from 0.
pub fn place_of(building: Building) -> usize
    ensures value { result ≡ place_in BUILDINGS building.kind }
    ensures within { result < 11 }
{
    usize::from(building.kind.number() - Kind::MetalMine.number())
}

/// The place of a kind in a list, counted from 0. A kind that isn't listed stands after all that are.
#[tactic(auto, using(crate::proofs::Counts::first_place))]
pub fn place_in(kinds: &[Kind], kind: Kind) -> usize
    ensures { result ≡ place_in kinds.now kind }
{
    'kinds: for (place, other) in kinds.iter().enumerate() {
        if other.number() == kind.number() {
            return place;
        }
    }
    kinds.len()
}

/// The place of a work in the order of `catalog::WORKS`, counted from 0.
#[tactic(auto, using(crate::proofs::Counts::work_within))]
pub fn place_of_work(work: Work) -> usize
    ensures value { result ≡ place_in WORKS work.kind }
    ensures within { result < 5 }
{
    place_in(&WORKS, work.kind)
}

/// The place of a unit in the order of `catalog::UNIT_KINDS`, counted from 0.
#[tactic(auto, using(crate::proofs::Counts::unit_within))]
pub fn place_of_unit(unit: Unit) -> usize
    ensures value { result ≡ place_in UNIT_KINDS unit.kind }
    ensures within { result < 22 }
{
    place_in(&UNIT_KINDS, unit.kind)
}
