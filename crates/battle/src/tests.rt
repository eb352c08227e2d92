use crate::{Outcome, Part, Side, Verdict, fight};
use catalog::Kind::{
    Battlecruiser, Battleship, Bomber, ColonyShip, Cruiser, Deathstar, Destroyer, Gauss,
    HeavyFighter, HeavyLaser, IonCannon, LargeCargo, LargeDome, Launcher, LightFighter, LightLaser,
    PlasmaTurret, Probe, Recycler, Satellite, SmallCargo, SmallDome,
};
use catalog::{Kind, Techs, UNIT_KINDS};
use std::alloc::{AllocError, Global};
use std::process::Abort;
use std::test::Fail;

const NO_TECHS: Techs = Techs {
    n: [0, 0, 0, 0, 0, 0, 0, 0, 0, 0, 0, 0, 0, 0],
};

const HIGH_TECHS: Techs = Techs {
    n: [3, 4, 0, 0, 7, 5, 5, 0, 4, 6, 12, 9, 14, 0],
};

const LOW_TECHS: Techs = Techs {
    n: [1, 0, 0, 0, 0, 2, 3, 0, 1, 0, 2, 3, 1, 0],
};

const LAST_TECHS: Techs = Techs {
    n: [
        255, 255, 255, 255, 255, 255, 255, 255, 255, 255, 255, 255, 255, 255,
    ],
};

/// How many units of a kind there are.
type Units = (Kind, u32);

/// A part of a side: its number, its technologies and its units.
type Force = (u64, Techs, &'static [Units]);

/// A battle, how it ends, and which units each part has left.
struct Case {
    attackers: &'static [Force],
    planet: &'static [Force],
    seed: u64,
    number: u64,
    verdict: Verdict,
    rounds: u8,
    attackers_left: &'static [&'static [Units]],
    planet_left: &'static [&'static [Units]],
}

const TWO_FLEETS: [Force; 2] = [
    (3, LOW_TECHS, &[(LightFighter, 12), (Cruiser, 4)]),
    (
        9,
        HIGH_TECHS,
        &[(LightFighter, 10), (Cruiser, 3), (Bomber, 1)],
    ),
];

const GUARDED_PLANET: [Force; 2] = [
    (
        0,
        LOW_TECHS,
        &[
            (Satellite, 6),
            (Launcher, 20),
            (LightLaser, 8),
            (SmallDome, 1),
        ],
    ),
    (5, NO_TECHS, &[(HeavyFighter, 4)]),
];

/// Computed with Python's integers by the rules of docs/RULES.md, with lists of units that are shot at one by one.
const CASES: [Case; 18] = [
    // A light fighter against a plasma turret.
    Case {
        attackers: &[(1, NO_TECHS, &[(LightFighter, 1)])],
        planet: &[(0, NO_TECHS, &[(PlasmaTurret, 1)])],
        seed: 7,
        number: 1,
        verdict: Verdict::Planet,
        rounds: 1,
        attackers_left: &[&[]],
        planet_left: &[&[(PlasmaTurret, 1)]],
    },
    // A destroyed turret still fires.
    Case {
        attackers: &[(1, NO_TECHS, &[(LightFighter, 300)])],
        planet: &[(0, NO_TECHS, &[(PlasmaTurret, 1)])],
        seed: 7,
        number: 1,
        verdict: Verdict::Attackers,
        rounds: 1,
        attackers_left: &[&[(LightFighter, 299)]],
        planet_left: &[&[]],
    },
    Case {
        attackers: &[(1, NO_TECHS, &[(LightFighter, 300)])],
        planet: &[(0, NO_TECHS, &[(PlasmaTurret, 1)])],
        seed: 0,
        number: 0,
        verdict: Verdict::Attackers,
        rounds: 1,
        attackers_left: &[&[(LightFighter, 299)]],
        planet_left: &[&[]],
    },
    Case {
        attackers: &[(1, NO_TECHS, &[(LightFighter, 300)])],
        planet: &[(0, NO_TECHS, &[(PlasmaTurret, 1)])],
        seed: u64::MAX,
        number: u64::MAX,
        verdict: Verdict::Attackers,
        rounds: 1,
        attackers_left: &[&[(LightFighter, 299)]],
        planet_left: &[&[]],
    },
    // Two draws over weak hulls, and a shot at a unit that is destroyed already.
    Case {
        attackers: &[(1, NO_TECHS, &[(HeavyFighter, 2)])],
        planet: &[(0, NO_TECHS, &[(Launcher, 1), (LightLaser, 1)])],
        seed: 7,
        number: 1,
        verdict: Verdict::Attackers,
        rounds: 2,
        attackers_left: &[&[(HeavyFighter, 2)]],
        planet_left: &[&[]],
    },
    // Rapid fire.
    Case {
        attackers: &[(1, NO_TECHS, &[(Cruiser, 1)])],
        planet: &[(0, NO_TECHS, &[(Launcher, 1), (LightLaser, 1)])],
        seed: 42,
        number: 1,
        verdict: Verdict::Attackers,
        rounds: 1,
        attackers_left: &[&[(Cruiser, 1)]],
        planet_left: &[&[]],
    },
    // No planet's unit.
    Case {
        attackers: &[(1, NO_TECHS, &[(LightFighter, 1)])],
        planet: &[],
        seed: 7,
        number: 1,
        verdict: Verdict::Attackers,
        rounds: 0,
        attackers_left: &[&[(LightFighter, 1)]],
        planet_left: &[],
    },
    // No attacking unit.
    Case {
        attackers: &[(1, NO_TECHS, &[])],
        planet: &[(0, NO_TECHS, &[(PlasmaTurret, 1)])],
        seed: 7,
        number: 1,
        verdict: Verdict::Planet,
        rounds: 0,
        attackers_left: &[&[]],
        planet_left: &[&[(PlasmaTurret, 1)]],
    },
    // No unit at all.
    Case {
        attackers: &[],
        planet: &[],
        seed: 7,
        number: 1,
        verdict: Verdict::Draw,
        rounds: 0,
        attackers_left: &[],
        planet_left: &[],
    },
    // Probes have no attack.
    Case {
        attackers: &[(1, NO_TECHS, &[(Probe, 5)])],
        planet: &[(0, NO_TECHS, &[(Launcher, 3)])],
        seed: 7,
        number: 1,
        verdict: Verdict::Planet,
        rounds: 3,
        attackers_left: &[&[]],
        planet_left: &[&[(Launcher, 3)]],
    },
    // Probes against probes.
    Case {
        attackers: &[(1, NO_TECHS, &[(Probe, 2)])],
        planet: &[(0, NO_TECHS, &[(Probe, 3)])],
        seed: 7,
        number: 1,
        verdict: Verdict::Draw,
        rounds: 6,
        attackers_left: &[&[(Probe, 2)]],
        planet_left: &[&[(Probe, 3)]],
    },
    // Shots bounce off a large dome.
    Case {
        attackers: &[(4, NO_TECHS, &[(LightFighter, 40), (Recycler, 3)])],
        planet: &[(0, NO_TECHS, &[(Satellite, 2), (LargeDome, 1)])],
        seed: 7,
        number: 2,
        verdict: Verdict::Draw,
        rounds: 6,
        attackers_left: &[&[(LightFighter, 40), (Recycler, 3)]],
        planet_left: &[&[(LargeDome, 1)]],
    },
    // Two parts with technologies of their own.
    Case {
        attackers: &TWO_FLEETS,
        planet: &GUARDED_PLANET,
        seed: 7,
        number: 1,
        verdict: Verdict::Attackers,
        rounds: 4,
        attackers_left: &[
            &[(LightFighter, 9), (Cruiser, 4)],
            &[(LightFighter, 8), (Cruiser, 3), (Bomber, 1)],
        ],
        planet_left: &[&[], &[]],
    },
    Case {
        attackers: &TWO_FLEETS,
        planet: &GUARDED_PLANET,
        seed: 8,
        number: 1,
        verdict: Verdict::Attackers,
        rounds: 3,
        attackers_left: &[
            &[(LightFighter, 9), (Cruiser, 4)],
            &[(LightFighter, 9), (Cruiser, 3), (Bomber, 1)],
        ],
        planet_left: &[&[], &[]],
    },
    Case {
        attackers: &TWO_FLEETS,
        planet: &GUARDED_PLANET,
        seed: 7,
        number: 2,
        verdict: Verdict::Attackers,
        rounds: 3,
        attackers_left: &[
            &[(LightFighter, 7), (Cruiser, 4)],
            &[(LightFighter, 10), (Cruiser, 3), (Bomber, 1)],
        ],
        planet_left: &[&[], &[]],
    },
    // The highest levels.
    Case {
        attackers: &[(
            1,
            LAST_TECHS,
            &[(Battlecruiser, 3), (Destroyer, 2), (Deathstar, 1)],
        )],
        planet: &[(
            0,
            LAST_TECHS,
            &[(Deathstar, 1), (HeavyLaser, 9), (Gauss, 2), (IonCannon, 3)],
        )],
        seed: 1 << 40,
        number: 1 << 40,
        verdict: Verdict::Attackers,
        rounds: 3,
        attackers_left: &[&[(Battlecruiser, 1), (Destroyer, 2), (Deathstar, 1)]],
        planet_left: &[&[]],
    },
    // Rapid fire ends with the 4096th shot: 4095 or 4097 would leave a light fighter less.
    Case {
        attackers: &[(1, NO_TECHS, &[(LightFighter, 20), (Deathstar, 1)])],
        planet: &[(0, NO_TECHS, &[(Satellite, 600), (Launcher, 60)])],
        seed: 7,
        number: 71,
        verdict: Verdict::Attackers,
        rounds: 2,
        attackers_left: &[&[(LightFighter, 9), (Deathstar, 1)]],
        planet_left: &[&[]],
    },
    // Eight parts of a hundred units on each side.
    Case {
        attackers: &[
            (
                10,
                NO_TECHS,
                &[(LightFighter, 60), (Cruiser, 30), (Battleship, 10)],
            ),
            (
                11,
                LOW_TECHS,
                &[(SmallCargo, 40), (LargeCargo, 20), (HeavyFighter, 40)],
            ),
            (
                12,
                HIGH_TECHS,
                &[(Bomber, 30), (Destroyer, 20), (Recycler, 50)],
            ),
            (
                13,
                NO_TECHS,
                &[(Battlecruiser, 60), (ColonyShip, 20), (Probe, 20)],
            ),
            (
                14,
                LOW_TECHS,
                &[(LightFighter, 60), (Cruiser, 30), (Battleship, 10)],
            ),
            (
                15,
                HIGH_TECHS,
                &[(SmallCargo, 40), (LargeCargo, 20), (HeavyFighter, 40)],
            ),
            (
                16,
                NO_TECHS,
                &[(Bomber, 30), (Destroyer, 20), (Recycler, 50)],
            ),
            (
                17,
                LOW_TECHS,
                &[(Battlecruiser, 60), (ColonyShip, 20), (Probe, 20)],
            ),
        ],
        planet: &[
            (
                0,
                HIGH_TECHS,
                &[
                    (Satellite, 20),
                    (Launcher, 50),
                    (LightLaser, 20),
                    (Gauss, 8),
                    (SmallDome, 1),
                    (LargeDome, 1),
                ],
            ),
            (
                1,
                NO_TECHS,
                &[(HeavyLaser, 50), (IonCannon, 40), (PlasmaTurret, 10)],
            ),
            (4, LOW_TECHS, &[(LightFighter, 80), (Cruiser, 20)]),
            (
                9,
                HIGH_TECHS,
                &[(Battleship, 40), (Destroyer, 30), (Probe, 30)],
            ),
            (
                16,
                NO_TECHS,
                &[
                    (Satellite, 20),
                    (Launcher, 50),
                    (LightLaser, 20),
                    (Gauss, 8),
                    (SmallDome, 1),
                    (LargeDome, 1),
                ],
            ),
            (
                25,
                LOW_TECHS,
                &[(HeavyLaser, 50), (IonCannon, 40), (PlasmaTurret, 10)],
            ),
            (36, HIGH_TECHS, &[(LightFighter, 80), (Cruiser, 20)]),
            (
                49,
                NO_TECHS,
                &[(Battleship, 40), (Destroyer, 30), (Probe, 30)],
            ),
        ],
        seed: 7,
        number: 1,
        verdict: Verdict::Draw,
        rounds: 6,
        attackers_left: &[
            &[(LightFighter, 4), (Cruiser, 5), (Battleship, 2)],
            &[(SmallCargo, 1), (LargeCargo, 3), (HeavyFighter, 7)],
            &[(Bomber, 23), (Destroyer, 19), (Recycler, 8)],
            &[(Battlecruiser, 23), (ColonyShip, 3)],
            &[(LightFighter, 2), (Cruiser, 1), (Battleship, 3)],
            &[(SmallCargo, 4), (LargeCargo, 5), (HeavyFighter, 4)],
            &[(Bomber, 13), (Destroyer, 11), (Recycler, 10)],
            &[(Battlecruiser, 25), (ColonyShip, 5)],
        ],
        planet_left: &[
            &[(SmallDome, 1), (LargeDome, 1)],
            &[(HeavyLaser, 1), (IonCannon, 1), (PlasmaTurret, 4)],
            &[],
            &[(Battleship, 18), (Destroyer, 27)],
            &[(LargeDome, 1)],
            &[(IonCannon, 1), (PlasmaTurret, 2)],
            &[(LightFighter, 1), (Cruiser, 3)],
            &[(Battleship, 4), (Destroyer, 7)],
        ],
    },
];

#[test]
fn battles_end_as_the_rules_say(rt: HostRuntime) -> Result<(), Fail> {
    for case in CASES.iter() {
        let mut attackers = side(rt.alloc(), case.attackers)?;
        let mut planet = side(rt.alloc(), case.planet)?;
        assert!(rt; attackers.can_fight() && planet.can_fight());
        let outcome = fight(
            rt.alloc(),
            &mut attackers,
            &mut planet,
            case.seed,
            case.number,
        )?;
        assert_eq!(rt;
            outcome,
            Outcome {
                verdict: case.verdict,
                rounds: case.rounds
            }
        );
        check_left(&rt, case.attackers, case.attackers_left, &attackers);
        check_left(&rt, case.planet, case.planet_left, &planet);
    }
    Ok(())
}

fn side(alloc: Global, forces: &[Force]) -> Result<Side, AllocError> {
    let mut side = Side::new(alloc);
    for (number, techs, units) in forces {
        side.push(part(*number, *techs, units))?;
    }
    Ok(side)
}

fn part(number: u64, techs: Techs, units: &[Units]) -> Part {
    let mut n = [0; 22];
    for (i, kind) in UNIT_KINDS.iter().enumerate() {
        for (named, count) in units {
            if named == kind {
                n[i] = *count;
            }
        }
    }
    Part { number, techs, n }
}

/// The parts have their numbers and technologies still, and these units left.
fn check_left(rt: &impl Abort, before: &[Force], left: &[&[Units]], after: &Side) {
    assert_eq!(rt; after.len(), before.len());
    assert_eq!(rt; after.len(), left.len());
    for (((number, techs, _), units), kept) in before.iter().zip(left).zip(after.as_slice()) {
        assert_eq!(rt; *kept, part(*number, *techs, units));
    }
}

/// A thousand parts on each side; computed likewise.
#[test]
fn a_thousand_parts_fight(rt: HostRuntime) -> Result<(), Fail> {
    let mut attackers = Side::new(rt.alloc());
    let mut planet = Side::new(rt.alloc());
    for number in 0..1000 {
        attackers.push(part(number, LOW_TECHS, &[(LightFighter, 1), (Battleship, 1)]))?;
        planet.push(part(number, LOW_TECHS, &[(Satellite, 1), (HeavyLaser, 4)]))?;
    }
    assert!(rt; attackers.can_fight() && planet.can_fight());
    let outcome = fight(rt.alloc(), &mut attackers, &mut planet, 7, 1)?;
    assert_eq!(rt;
        outcome,
        Outcome {
            verdict: Verdict::Draw,
            rounds: 6
        }
    );
    assert_eq!(rt; left_of(&attackers, 2), (1, 751));
    assert_eq!(rt; left_of(&attackers, 5), (728, 367_528));
    assert_eq!(rt; left_of(&planet, 13), (11, 6856));
    assert_eq!(rt; left_of(&planet, 16), (35, 18_988));
    Ok(())
}

/// How many units are left of the kind at this place, and the sum of the numbers of their parts.
fn left_of(side: &Side, place: usize) -> (u64, u64) {
    let mut units = 0u64;
    let mut numbers = 0u64;
    for part in side.as_slice() {
        let left = u64::from(part.n.get(place).copied().unwrap_or(0));
        units = units.wrapping_add(left);
        numbers = numbers.wrapping_add(part.number.wrapping_mul(left));
    }
    (units, numbers)
}

/// Eight fleets of 100000 small cargos cannot harm a large dome, and it cannot harm one of them for good: as many units as
/// a side may have fight six rounds, and nothing is lost.
#[test]
fn the_largest_side_and_a_large_dome_end_in_a_draw(rt: HostRuntime) -> Result<(), Fail> {
    let mut attackers = Side::new(rt.alloc());
    let mut planet = Side::new(rt.alloc());
    for number in 1..9 {
        attackers.push(part(number, NO_TECHS, &[(SmallCargo, 100_000)]))?;
    }
    planet.push(part(0, NO_TECHS, &[(LargeDome, 1)]))?;
    assert!(rt; attackers.can_fight() && planet.can_fight());
    let outcome = fight(rt.alloc(), &mut attackers, &mut planet, 7, 1)?;
    assert_eq!(rt;
        outcome,
        Outcome {
            verdict: Verdict::Draw,
            rounds: 6
        }
    );
    assert_eq!(rt; left_of(&attackers, 0), (800_000, 3_600_000));
    assert_eq!(rt; left_of(&planet, 21), (1, 0));
    Ok(())
}

/// As many units as a side may have, on both sides; computed by the plain program of bench/battle.
#[test]
fn the_largest_sides_fight(rt: HostRuntime) -> Result<(), Fail> {
    let mut attackers = Side::new(rt.alloc());
    let mut planet = Side::new(rt.alloc());
    attackers.push(part(1, NO_TECHS, &[(Battleship, 800_000)]))?;
    planet.push(part(0, NO_TECHS, &[(PlasmaTurret, 800_000)]))?;
    assert!(rt; attackers.can_fight() && planet.can_fight());
    let outcome = fight(rt.alloc(), &mut attackers, &mut planet, 7, 1)?;
    assert_eq!(rt;
        outcome,
        Outcome {
            verdict: Verdict::Planet,
            rounds: 4
        }
    );
    assert_eq!(rt; left_of(&attackers, 5), (0, 0));
    assert_eq!(rt; left_of(&planet, 19), (764_049, 0));
    Ok(())
}

#[test]
fn a_side_can_fight_in_order_and_within_the_limit(rt: HostRuntime) -> Result<(), Fail> {
    let first = Part {
        number: 3,
        techs: NO_TECHS,
        n: [36_363; 22],
    };
    let second = Part {
        number: 4,
        techs: LAST_TECHS,
        n: [0; 22],
    };
    let mut side = Side::new(rt.alloc());
    assert!(rt; side.is_empty() && side.can_fight());
    side.push(first)?;
    side.push(second)?;
    assert!(rt; !side.is_empty() && side.can_fight());
    side.push(Part {
        number: 5,
        techs: NO_TECHS,
        n: [1; 22],
    })?;
    assert!(rt; !side.can_fight());

    let mut twice = Side::new(rt.alloc());
    twice.push(second)?;
    twice.push(second)?;
    assert!(rt; !twice.can_fight());
    Ok(())
}
