use crate::tests::planet;
use catalog::{Amounts, CAP, Ships, UNITS};
use rates::{GRAINS, Resources};

/// Two small cargos and a probe.
const SHIPS: Ships = Ships {
    n: [2, 0, 0, 0, 0, 0, 0, 0, 0, 0, 0, 0, 1],
};

#[test]
fn a_planet_takes_what_a_fleet_brings_up_to_the_cap(rt: HostRuntime) {
    let mut planet = planet(rt.alloc(), 100, 0, CAP);
    planet.supply(Amounts { m: 5, c: 6, d: 7 });
    let want = Resources {
        metal: 105 * GRAINS,
        crystal: 6 * GRAINS,
        deuterium: CAP * GRAINS,
    };
    assert_eq!(rt; planet.stock, want);
    assert!(rt; planet.unit_total() <= UNITS - 3);
    planet.moor(Amounts { m: 1, c: 0, d: 0 }, &SHIPS);
    assert_eq!(rt; planet.stock.metal, 106 * GRAINS);
    assert_eq!(rt; (planet.units[0], planet.units[12]), (2, 1));
    assert_eq!(rt; planet.unit_total(), 3);
}

#[test]
fn a_fleet_leaves_with_its_ships_and_its_load(rt: HostRuntime) {
    let mut planet = planet(rt.alloc(), 10, 10, 10);
    assert!(rt; !planet.has_ships(&SHIPS));
    assert!(rt; planet.unit_total() <= UNITS - 3);
    planet.moor(Amounts { m: 0, c: 0, d: 0 }, &SHIPS);
    let load = Resources {
        metal: 3,
        crystal: 0,
        deuterium: 10,
    };
    let more = Resources {
        metal: 0,
        crystal: 0,
        deuterium: CAP + 1,
    };
    assert!(rt; !planet.can_pay_load(more));
    assert!(rt; planet.has_ships(&SHIPS));
    assert!(rt; planet.can_pay_load(load));
    planet.depart(load, &SHIPS);
    let want = Resources {
        metal: 7 * GRAINS,
        crystal: 10 * GRAINS,
        deuterium: 0,
    };
    assert_eq!(rt; planet.stock, want);
    assert_eq!(rt; planet.unit_total(), 0);
}
