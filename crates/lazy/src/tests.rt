// What no clause says: that a request finds memory, and that a planet is the same however often it was asked for.
ghost use Rattle.std.specs.Prelude.{◌≡◌, ◌≤◌, [], ◌∷◌, true, IfOk, length, sum};
ghost use Rattle.base_bytes.specs.Sound.{IsSound};
ghost use Rattle.base_ids.specs.Order.{coord_before};
ghost use Rattle.catalog.specs.declared.amounts.TheConstants.{CAP};
ghost use Rattle.catalog.specs.declared.classes.TheConstants.{UNIT_KINDS};
ghost use Rattle.ports.specs.declared.clock.TheConstants.{LATEST};
ghost use Rattle.lazy.specs.Keeping.{KeepsSome};

use crate::LazyUniverse;
use account_cell::Account;
use base_bytes::Base;
use base_ids::{Coord, LAST_NUMBER, Player};
use catalog::{Building, Count, Kind, Technology, Techs, Unit};
use fleet_rec::Fleets;
use planet_cell::Planet;
use rates::{GRAINS, Resources};
use reply_text::Reply;
use request_text::Request;
use std::alloc::{AllocError, Global};
use std::process::Abort;
use std::test::Fail;
use tick_model::Debris;

const FIRST: Coord = Coord { g: 1, s: 1, p: 1 };

const SECOND: Coord = Coord { g: 1, s: 1, p: 2 };

const MINE: Building = Building {
    kind: Kind::MetalMine,
};

/// A planet of player 1 without buildings, with so many units of each resource.
fn planet(alloc: Global, at: Coord, units: u64) -> Planet
    requires { units ≤ CAP }
    ensures at { result.at ≡ at }
    ensures owner { result.owner.k ≡ 1 }
    ensures kinds { length result.units ≡ length UNIT_KINDS }
    ensures levels { sum result.levels ≡ 0 }
    ensures units { sum result.units ≡ 0 }
    ensures buildings { result.buildings.items ≡ [] }
    ensures yard { result.yard.items ≡ [] }
{
    Planet {
        at,
        owner: Player { k: 1 },
        temperature: 40,
        fields: 163,
        levels: [0; 11],
        tenths: [10; 5],
        stock: Resources {
            metal: GRAINS * units,
            crystal: GRAINS * units,
            deuterium: GRAINS * units,
        },
        debris: Debris {
            metal: 0,
            crystal: 0,
        },
        units: [0; 22],
        buildings: Vec::new(alloc),
        yard: Vec::new(alloc),
    }
}

/// Player 1 with planets at two places and no technologies.
fn account(alloc: Global, first: Coord, second: Coord) -> Result<Account, AllocError>
    ensures player { IfOk result (λ account. account.player.k ≡ 1) }
    ensures planets { IfOk result (λ account. account.planets.items ≡ first ∷ second ∷ []) }
    ensures units { IfOk result (λ account. account.units ≡ 0) }
    ensures research { IfOk result (λ account. account.research.items ≡ []) }
{
    Ok(Account {
        player: Player { k: 1 },
        techs: Techs { n: [0; 14] },
        planets: vec![in alloc; first, second]?,
        units: 0,
        research: Vec::new(alloc),
    })
}

/// A universe at second 0 with one player and planets at two places, with so many units of each resource.
fn base(alloc: Global, first: Coord, second: Coord, units: u64) -> Result<Base, AllocError>
    requires rises { coord_before first second ≡ true }
    requires units { units ≤ CAP }
    ensures { IfOk result IsSound }
{
    Ok(Base {
        seed: 7,
        speed: 1,
        capacity: 10000,
        moment: 0,
        number: 0,
        accounts: vec![in alloc; account(alloc, first, second)?]?,
        planets: vec![in alloc; planet(alloc, first, units), planet(alloc, second, units)]?,
        fleets: Fleets::new(alloc),
    })
}

/// Player 1 asks. If memory runs out, all cells stay as they were.
fn ask(
    rt: &impl Abort,
    alloc: Global,
    universe: &mut LazyUniverse,
    req: Request,
    reading: u64,
) -> Result<Reply, Fail>
    requires keeps { KeepsSome universe.old }
    requires reading { reading ≤ LATEST }
    ensures { KeepsSome universe.new }
{
    assert!(rt; universe.number < LAST_NUMBER);
    Ok(universe.ask(alloc, Player { k: 1 }, &req, reading)?)
}

#[test]
fn a_planet_is_the_same_however_often_it_was_asked_for(rt: HostRuntime) -> Result<(), Fail> {
    let mut universe = LazyUniverse::new(rt.alloc(), &base(rt.alloc(), FIRST, SECOND, 9000)?)?;
    ask(
        &rt,
        rt.alloc(),
        &mut universe,
        Request::Build(FIRST, MINE),
        0,
    )?;
    ask(
        &rt,
        rt.alloc(),
        &mut universe,
        Request::Build(SECOND, MINE),
        0,
    )?;
    'readings: for reading in 1..3600 {
        ask(
            &rt,
            rt.alloc(),
            &mut universe,
            Request::Planet(FIRST),
            reading,
        )?;
    }
    let often = ask(&rt, rt.alloc(), &mut universe, Request::Planet(FIRST), 3600)?;
    let once = ask(
        &rt,
        rt.alloc(),
        &mut universe,
        Request::Planet(SECOND),
        3600,
    )?;
    assert_eq!(rt;
        often.body.as_slice(),
        b"planet 1:1:1 1 40 163 1\nstock 8960 8995 9000\nhourly 20 10 0\nlimit 10000 10000 10000\nenergy 0 11\ndebris 0 0\nlevel metalmine 1\n".as_slice(),
    );
    assert_eq!(rt;
        once.body.as_slice(),
        b"planet 1:1:2 1 40 163 1\nstock 8960 8995 9000\nhourly 20 10 0\nlimit 10000 10000 10000\nenergy 0 11\ndebris 0 0\nlevel metalmine 1\n".as_slice(),
    );
    Ok(())
}

#[test]
fn research_and_a_batch_are_ordered(rt: HostRuntime) -> Result<(), Fail> {
    let robotics = Request::Build(
        FIRST,
        Building {
            kind: Kind::Robotics,
        },
    );
    let lab = Request::Build(FIRST, Building { kind: Kind::Lab });
    let shipyard = Request::Build(
        FIRST,
        Building {
            kind: Kind::Shipyard,
        },
    );
    let energy = Request::Research(FIRST, Technology { kind: Kind::Energy });
    let launchers = Request::Yard(
        FIRST,
        Unit {
            kind: Kind::Launcher,
        },
        Count { n: 2 },
    );
    let mut universe = LazyUniverse::new(rt.alloc(), &base(rt.alloc(), FIRST, SECOND, 9000)?)?;
    ask(&rt, rt.alloc(), &mut universe, robotics, 0)?;
    ask(&rt, rt.alloc(), &mut universe, robotics, 0)?;
    ask(&rt, rt.alloc(), &mut universe, lab, 0)?;
    ask(&rt, rt.alloc(), &mut universe, shipyard, 2000)?;
    let research = ask(&rt, rt.alloc(), &mut universe, energy, 3000)?;
    assert_eq!(rt; research.body.as_slice(), b"starts 1 4440\n".as_slice());
    let batch = ask(&rt, rt.alloc(), &mut universe, launchers, 3000)?;
    assert_eq!(rt; batch.body.as_slice(), b"starts 2 4440\n".as_slice());
    let before = ask(&rt, rt.alloc(), &mut universe, Request::Account, 4439)?;
    assert_eq!(rt;
        before.body.as_slice(),
        b"account 1 2 0 1\nplanet 1:1:1\nplanet 1:1:2\nresearch 5 energy 1 4440 1:1:1\n".as_slice(),
    );
    let after = ask(&rt, rt.alloc(), &mut universe, Request::Account, 4440)?;
    assert_eq!(rt;
        after.body.as_slice(),
        b"account 1 2 0 1\ntech energy 1\nplanet 1:1:1\nplanet 1:1:2\n".as_slice(),
    );
    Ok(())
}

/// A planet that builds 100000 launchers, one in 1440 seconds, and meanwhile five levels of a lab. The third launcher and the fourth
/// level are done in one second.
#[test]
fn a_batch_is_built_beside_a_lab(rt: HostRuntime) -> Result<(), Fail> {
    let robotics = Request::Build(
        FIRST,
        Building {
            kind: Kind::Robotics,
        },
    );
    let shipyard = Request::Build(
        FIRST,
        Building {
            kind: Kind::Shipyard,
        },
    );
    let lab = Request::Build(FIRST, Building { kind: Kind::Lab });
    let launchers = Request::Yard(
        FIRST,
        Unit {
            kind: Kind::Launcher,
        },
        Count { n: 100000 },
    );
    let rich = base(rt.alloc(), FIRST, SECOND, 300000000)?;
    let mut universe = LazyUniverse::new(rt.alloc(), &rich)?;
    ask(&rt, rt.alloc(), &mut universe, robotics, 0)?;
    ask(&rt, rt.alloc(), &mut universe, robotics, 0)?;
    ask(&rt, rt.alloc(), &mut universe, shipyard, 2000)?;
    let batch = ask(&rt, rt.alloc(), &mut universe, launchers, 3000)?;
    assert_eq!(rt; batch.body.as_slice(), b"starts 100000 4440\n".as_slice());
    'levels: for _ in 0..5 {
        ask(&rt, rt.alloc(), &mut universe, lab, 3000)?;
    }
    let meanwhile = ask(&rt, rt.alloc(), &mut universe, Request::Planet(FIRST), 7320)?;
    assert_eq!(rt;
        meanwhile.body.as_slice(),
        b"planet 1:1:1 1 40 163 7\nstock 99992200 299987040 299993100\nhourly 20 10 0\nlimit 10000 10000 10000\nenergy 0 0\ndebris 0 0\nlevel robotics 2\nlevel shipyard 1\nlevel lab 4\nunits launcher 3\nbuilding 9 lab 5 11928\nyard 4 launcher 99997 8760\n".as_slice(),
    );
    let later = ask(
        &rt,
        rt.alloc(),
        &mut universe,
        Request::Planet(FIRST),
        1000000000,
    )?;
    assert_eq!(rt;
        later.body.as_slice(),
        b"planet 1:1:1 1 40 163 8\nstock 99992200 299987040 299993100\nhourly 20 10 0\nlimit 10000 10000 10000\nenergy 0 0\ndebris 0 0\nlevel robotics 2\nlevel shipyard 1\nlevel lab 5\nunits launcher 100000\n".as_slice(),
    );
    Ok(())
}

// Each allocation may fail: `rt try --test --fail-alloc N`.
#[test]
fn without_memory_the_cells_stay(rt: HostRuntime) -> Result<(), Fail> {
    let mut universe = LazyUniverse::new(rt.alloc(), &base(rt.alloc(), FIRST, SECOND, 9000)?)?;
    let before = universe.dump(rt.alloc())?;
    assert!(rt; universe.number < LAST_NUMBER);
    let req = Request::Build(FIRST, MINE);
    let reply = match universe.ask(rt.alloc(), Player { k: 1 }, &req, 5) {
        Ok(reply) => reply,
        Err(_) => {
            assert_eq!(rt; universe.dump(rt.alloc())?.as_slice(), before.as_slice());
            ask(&rt, rt.alloc(), &mut universe, req, 5)?
        }
    };
    assert_eq!(rt; (reply.number, reply.moment, reply.code), (1, 5, 0));
    assert_eq!(rt; reply.body.as_slice(), b"starts 1 113\n".as_slice());
    Ok(())
}
