ghost use Rattle.std.specs.Prelude.{◌≡◌, ◌<◌, ◌^◌, []};
ghost use Rattle.base_ids.specs.declared.coord.Coord.{Coord as CoordOf};
ghost use Rattle.orders.specs.Sending.{company_of, company_seen, fleets_there, in_group};

use crate::company::Company;
use crate::errand::{Errand, Purpose, is_same};
use crate::parts::PartFleets;
use base_ids::{Coord, FleetNumber};
use fleet_rec::Fleets;
use planet_cell::Planet;

/// The company of a fleet that is sent, by what is seen of its target. If it joins nobody, it arrives at the second.
pub fn company_of(errand: &Errand, to: &Option<Planet>, fleets: &PartFleets, second: u64) -> Company
    requires { second < 2 ^ 42 }
    ensures { company_seen result ≡ company_of errand.now.purpose errand.now.to (fleets_there errand.now to.now fleets.now) second }
{
    match errand.purpose {
        Purpose::Flies(_) => Company {
            group: 0,
            others: 0,
            is_missing: false,
            second,
        },
        Purpose::Joins(group) => company_at(errand, group, to, fleets),
    }
}

/// The company of a fleet that joins a group. If it flies to its own origin, the target's fleets are those of the origin.
fn company_at(
    errand: &Errand,
    group: FleetNumber,
    to: &Option<Planet>,
    fleets: &PartFleets,
) -> Company
    ensures { company_seen result ≡ in_group group.f errand.now.to (fleets_there errand.now to.now fleets.now) }
{
    if is_same(errand.from, errand.to) {
        return in_group(group, errand.to, &fleets.from);
    }
    match to {
        Some(_planet) => in_group(group, errand.to, &fleets.to),
        None => nobody(group),
    }
}

/// The company of a fleet that joins a group, by the fleets at its target.
#[tactic(auto, using(crate::proofs::Raided::first_raider))]
fn in_group(group: FleetNumber, at: Coord, fleets: &Fleets) -> Company
    ensures { company_seen result ≡ in_group group.f at fleets.now }
{
    let others = fleets.companions(at, group.f);
    match fleets.first_raider(at, group.f) {
        Some(first) => Company {
            group: group.f,
            others,
            is_missing: false,
            second: first.second,
        },
        None => Company {
            group: group.f,
            others,
            is_missing: true,
            second: 0,
        },
    }
}

/// The company of a fleet that joins a group, if no fleet flies to its target.
fn nobody(group: FleetNumber) -> Company
    ensures { (at : CoordOf) → company_seen result ≡ in_group group.f at [] }
{
    Company {
        group: group.f,
        others: 0,
        is_missing: true,
        second: 0,
    }
}
