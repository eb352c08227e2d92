ghost use Rattle.std.specs.Prelude.{◌≤◌, sum};
ghost use Rattle.catalog.specs.declared.ships.TheConstants.{UNITS};
ghost use Rattle.rates.specs.Stock.{IsWithinCap};

use crate::carrying::laden;
use crate::leaving::survivor;
use crate::rebuilding::units_after;
use crate::{Aftermath, Raider, fight};
use base_ids::{Coord, Player};
use battle::Part;
use catalog::{Amounts, Mission, Ships, SpeedSetting, Techs};
use fleet_rec::Fleet;
use planet_cell::Planet;
use rates::{GRAINS, Resources};
use std::alloc::Global;
use std::process::Abort;
use std::test::Fail;
use tick_model::Debris;

const NO_TECHS: Techs = Techs { n: [0; 14] };

const NOTHING: Amounts = Amounts { m: 0, c: 0, d: 0 };

const SMALL_CARGO: Ships = Ships {
    n: [1, 0, 0, 0, 0, 0, 0, 0, 0, 0, 0, 0, 0],
};

const TWO_SMALL_CARGOS: Ships = Ships {
    n: [2, 0, 0, 0, 0, 0, 0, 0, 0, 0, 0, 0, 0],
};

const LIGHT_FIGHTER: Ships = Ships {
    n: [0, 0, 1, 0, 0, 0, 0, 0, 0, 0, 0, 0, 0],
};

const LIGHT_FIGHTERS: Ships = Ships {
    n: [0, 0, 92, 0, 0, 0, 0, 0, 0, 0, 0, 0, 0],
};

const NO_UNITS: [u32; 22] = [0; 22];

const SMALL_DOME: [u32; 22] = [
    0, 0, 0, 0, 0, 0, 0, 0, 0, 0, 0, 0, 0, 0, 0, 0, 0, 0, 0, 0, 1, 0,
];

const PLASMA_TURRET: [u32; 22] = [
    0, 0, 0, 0, 0, 0, 0, 0, 0, 0, 0, 0, 0, 0, 0, 0, 0, 0, 0, 1, 0, 0,
];

/// A fleet with number 2 that flies out to attack.
fn fleet(ships: Ships, cargo: Amounts) -> Fleet {
    Fleet {
        number: 2,
        group: 2,
        owner: Player { k: 1 },
        mission: Mission::Attack,
        origin: Coord { g: 1, s: 1, p: 1 },
        target: Coord { g: 1, s: 1, p: 2 },
        target_owner: Player { k: 2 },
        outbound: true,
        setting: SpeedSetting { p: 10 },
        launch: 0,
        second: 3148,
        cargo,
        ships,
    }
}

/// A planet with these stocks in grains and these units.
fn planet(alloc: Global, stock: Resources, units: [u32; 22]) -> Planet
    requires stock { IsWithinCap stock }
    requires units { sum units ≤ UNITS }
{
    Planet {
        at: Coord { g: 1, s: 1, p: 2 },
        owner: Player { k: 2 },
        temperature: 40,
        fields: 163,
        levels: [0; 11],
        tenths: [10; 5],
        stock,
        debris: Debris {
            metal: 0,
            crystal: 0,
        },
        units,
        buildings: Vec::new(alloc),
        yard: Vec::new(alloc),
    }
}

/// Stocks of so many whole units.
fn units(metal: u32, crystal: u32, deuterium: u32) -> Resources
    ensures { IsWithinCap result }
{
    Resources {
        metal: GRAINS * u64::from(metal),
        crystal: GRAINS * u64::from(crystal),
        deuterium: GRAINS * u64::from(deuterium),
    }
}

/// What is left after these ships have attacked a planet alone.
fn attack(
    rt: &impl Abort,
    alloc: Global,
    ships: Ships,
    techs: Techs,
    planet: &Planet,
    planet_techs: Techs,
) -> Result<Aftermath, Fail> {
    let raider = Raider {
        fleet: fleet(ships, NOTHING),
        techs,
    };
    assert!(rt; raider.fleet.ship_total() <= 800_000);
    Ok(fight(alloc, 7, 2, &[raider], planet, planet_techs)?)
}

#[test]
fn better_weapons_break_a_dome(rt: HostRuntime) -> Result<(), Fail> {
    let alloc = rt.alloc();
    let planet = planet(alloc, units(532, 517, 0), SMALL_DOME);
    let shielded = Techs {
        n: [0, 0, 0, 0, 0, 0, 0, 0, 0, 0, 0, 20, 0, 0],
    };
    let weak = Techs {
        n: [0, 0, 0, 0, 0, 0, 0, 0, 0, 0, 3, 0, 0, 0],
    };
    let after = attack(&rt, alloc, LIGHT_FIGHTERS, weak, &planet, shielded)?;
    assert_eq!(rt; (after.taken, after.units[20]), (NOTHING, 1));
    assert_eq!(rt;
        after.fleets.as_slice(),
        [fleet(LIGHT_FIGHTERS, NOTHING)].as_slice()
    );
    let strong = Techs {
        n: [0, 0, 0, 0, 0, 0, 0, 0, 0, 0, 4, 0, 0, 0],
    };
    let after = attack(&rt, alloc, LIGHT_FIGHTERS, strong, &planet, shielded)?;
    let taken = Amounts {
        m: 266,
        c: 258,
        d: 0,
    };
    assert_eq!(rt; (after.taken, after.units), (taken, NO_UNITS));
    assert_eq!(rt; (after.debris.metal, after.debris.crystal), (0, 0));
    assert_eq!(rt;
        after.fleets.as_slice(),
        [fleet(LIGHT_FIGHTERS, taken)].as_slice()
    );
    Ok(())
}

#[test]
fn a_lost_ship_leaves_debris(rt: HostRuntime) -> Result<(), Fail> {
    let alloc = rt.alloc();
    let planet = planet(alloc, units(517, 508, 0), PLASMA_TURRET);
    let after = attack(&rt, alloc, LIGHT_FIGHTER, NO_TECHS, &planet, NO_TECHS)?;
    assert_eq!(rt; (after.debris.metal, after.debris.crystal), (900, 300));
    assert_eq!(rt; (after.taken, after.units), (NOTHING, PLASMA_TURRET));
    assert!(rt; after.fleets.is_empty());
    Ok(())
}

#[test]
fn winners_take_up_to_half_of_the_stocks(rt: HostRuntime) -> Result<(), Fail> {
    let alloc = rt.alloc();
    let rich = planet(alloc, units(20_000, 14_000, 0), NO_UNITS);
    let after = attack(&rt, alloc, SMALL_CARGO, NO_TECHS, &rich, NO_TECHS)?;
    let taken = Amounts {
        m: 2499,
        c: 2501,
        d: 0,
    };
    assert_eq!(rt; after.taken, taken);
    assert_eq!(rt;
        after.fleets.as_slice(),
        [fleet(SMALL_CARGO, taken)].as_slice()
    );
    let richer = planet(alloc, units(30_000, 30_000, 30_000), NO_UNITS);
    let after = attack(&rt, alloc, SMALL_CARGO, NO_TECHS, &richer, NO_TECHS)?;
    let taken = Amounts {
        m: 1666,
        c: 1667,
        d: 1667,
    };
    assert_eq!(rt; after.taken, taken);
    Ok(())
}

#[test]
fn a_fleet_keeps_the_cargo_that_its_ships_carry(rt: HostRuntime) {
    let cargo = Amounts {
        m: 4000,
        c: 3000,
        d: 2000,
    };
    let before = fleet(TWO_SMALL_CARGOS, cargo);
    let mut left = Part {
        number: 2,
        techs: NO_TECHS,
        n: [
            1, 0, 0, 0, 0, 0, 0, 0, 0, 0, 0, 0, 0, 0, 0, 0, 0, 0, 0, 0, 0, 0,
        ],
    };
    let kept = Amounts {
        m: 4000,
        c: 1000,
        d: 0,
    };
    assert_eq!(rt; survivor(&before, &left), Some(fleet(SMALL_CARGO, kept)));
    left.n = NO_UNITS;
    assert_eq!(rt; survivor(&before, &left), None);
}

#[test]
fn fleets_load_one_after_the_other(rt: HostRuntime) -> Result<(), Fail> {
    let alloc = rt.alloc();
    let some = Amounts {
        m: 0,
        c: 1000,
        d: 0,
    };
    let taken = Amounts {
        m: 6000,
        c: 2000,
        d: 1000,
    };
    let fleets = [fleet(SMALL_CARGO, some), fleet(SMALL_CARGO, NOTHING)];
    let all = laden(alloc, &fleets, taken)?;
    let first = Amounts {
        m: 4000,
        c: 1000,
        d: 0,
    };
    let second = Amounts {
        m: 2000,
        c: 2000,
        d: 1000,
    };
    let want = [fleet(SMALL_CARGO, first), fleet(SMALL_CARGO, second)];
    assert_eq!(rt; all.as_slice(), want.as_slice());
    Ok(())
}

#[test]
fn seven_tenths_of_the_lost_defences_stand_again(rt: HostRuntime) {
    let mut before = NO_UNITS;
    before[13] = 10;
    before[14] = 9;
    before[21] = 1;
    let mut left = NO_UNITS;
    left[14] = 1;
    let mut want = NO_UNITS;
    want[14] = 6;
    assert_eq!(rt; units_after(&before, &left), want);
}
