ghost use Rattle.std.specs.Prelude.{◌≡◌, ◌+◌, ◌≤◌, IfOk, map};
ghost use Rattle.catalog.specs.declared.amounts.TheConstants.{CAP};
ghost use Rattle.fleet_rec.specs.Fleet.{cargo_seen, fleet_seen};
ghost use Rattle.tick_model.specs.Battles.{fitting, laden, without};
ghost use Rattle.tick_model.specs.Flights.{both_cargoes, free_room};

use catalog::Amounts;
use fleet_rec::{Fleet, Fleets};
use planet_cell::free_room;
use std::alloc::{AllocError, Global};

/// As much of a cargo as a room holds: first metal, then crystal, then deuterium.
#[tactic(auto, unfolding(tick_model::specs::Battles::fitting))]
pub(crate) fn fitting(room: u64, cargo: Amounts) -> Amounts
    ensures value { cargo_seen result ≡ fitting room (cargo_seen cargo) }
    ensures within { (result.m ≤ cargo.m) × (result.c ≤ cargo.c) × (result.d ≤ cargo.d) }
    ensures room { result.m + result.c + result.d ≤ room }
{
    let metal = room.min(cargo.m);
    let crystal = (room - metal).min(cargo.c);
    Amounts {
        m: metal,
        c: crystal,
        d: (room - metal - crystal).min(cargo.d),
    }
}

/// The fleets with what is taken on board, each with as much as it has room for. It fails only if memory runs out.
pub(crate) fn laden(alloc: Global, fleets: &[Fleet], taken: Amounts) -> Result<Fleets, AllocError>
    ensures { IfOk result (λ all. all ≡ laden (cargo_seen taken) (map fleet_seen fleets.now)) }
{
    let mut all = Fleets::new(alloc);
    let mut left = taken;
    'fleets: for fleet in fleets {
        let part = part_for(fleet, left);
        all.push(loaded(fleet, part))?;
        left = without(left, part);
    }
    Ok(all)
}

/// What a fleet has room for, of what is taken.
fn part_for(fleet: &Fleet, taken: Amounts) -> Amounts
    ensures value { cargo_seen result ≡ fitting (free_room (fleet_seen fleet.now)) (cargo_seen taken) }
    ensures within { (result.m ≤ taken.m) × (result.c ≤ taken.c) × (result.d ≤ taken.d) }
    ensures metal { fleet.now.cargo.m + result.m ≤ CAP }
    ensures crystal { fleet.now.cargo.c + result.c ≤ CAP }
    ensures deuterium { fleet.now.cargo.d + result.d ≤ CAP }
{
    fitting(free_room(fleet), taken)
}

/// A fleet with so much more on board.
fn loaded(fleet: &Fleet, more: Amounts) -> Fleet
    requires metal { fleet.now.cargo.m + more.m ≤ CAP }
    requires crystal { fleet.now.cargo.c + more.c ≤ CAP }
    requires deuterium { fleet.now.cargo.d + more.d ≤ CAP }
    ensures { fleet_seen result ≡ record (fleet_seen fleet.now) { cargo = both_cargoes (fleet_seen fleet.now).cargo (cargo_seen more) } }
{
    let mut after = *fleet;
    after.cargo = Amounts {
        m: fleet.cargo.m + more.m,
        c: fleet.cargo.c + more.c,
        d: fleet.cargo.d + more.d,
    };
    after
}

/// What is left of a cargo.
fn without(cargo: Amounts, part: Amounts) -> Amounts
    requires { (part.m ≤ cargo.m) × (part.c ≤ cargo.c) × (part.d ≤ cargo.d) }
    ensures { cargo_seen result ≡ without (cargo_seen cargo) (cargo_seen part) }
{
    Amounts {
        m: cargo.m - part.m,
        c: cargo.c - part.c,
        d: cargo.d - part.d,
    }
}
