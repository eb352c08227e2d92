ghost use Rattle.std.specs.Prelude.{◌≡◌};
ghost use Rattle.rates.specs.Energy.{IsInRange};

use crate::{
    COLDEST, GRAINS, HOTTEST, Hourly, Resources, Works, basic_income, gain, hourly, limit, produce,
    stocks_after, storage, storage_of, whole_units,
};
use catalog::{CAP, UNITS};

/// One stock: its grains, limit and hourly yield, the seconds that pass, and the grains wanted then.
type Case = (u64, u64, u64, u64, u64);

const CASES: [Case; 9] = [
    (0, 36_000_000, 20, 0, 0),
    (1_800_000, 36_000_000, 20, 3600, 1_872_000),
    (35_996_400, 36_000_000, 20, 179, 35_999_980),
    (35_996_400, 36_000_000, 20, 180, 36_000_000),
    (35_996_400, 36_000_000, 20, 100_000, 36_000_000),
    (36_000_000, 36_000_000, 20, 1, 36_000_000),
    (72_000_000, 36_000_000, 20, 100_000, 72_000_000),
    (7, 36_000_000, 0, 1_099_511_627_775, 7),
    (0, GRAINS * CAP, 1 << 50, u64::MAX, GRAINS * CAP),
];

#[test]
fn a_stock_below_its_limit_gains_and_is_cut_there(rt: HostRuntime) {
    for (grains, limit, hourly, seconds, want) in CASES {
        assert!(rt; grains <= GRAINS * CAP && limit <= GRAINS * CAP && hourly <= 1 << 50);
        assert_eq!(rt;
            gain(grains, limit, hourly, seconds),
            want,
            "from {grains} in {seconds} s"
        );
    }
}

/// One planet: the levels of its metal mine, crystal mine, synthesizer and solar plant, the tenths at which these and
/// the satellites work, the number of satellites, the maximum temperature, the speed; and what is wanted: metal,
/// crystal, deuterium, energy given and energy needed.
type Planet = ([u8; 4], [u8; 5], u32, i16, u32, [u64; 5]);

/// Each work at all its tenths.
const FULL: [u8; 5] = [10; 5];

/// The wanted numbers were computed with Python's integers by the formulas of docs/RULES.md, "Mines", "Energy" and
/// "Yields".
const PLANETS: [Planet; 34] = [
    ([1, 0, 0, 0], FULL, 0, 40, 1, [20, 10, 0, 0, 11]),
    ([1, 0, 0, 1], FULL, 0, 40, 1, [53, 10, 0, 22, 11]),
    ([1, 0, 1, 1], FULL, 0, 40, 1, [42, 10, 8, 22, 33]),
    ([0, 0, 0, 0], [0, 0, 0, 0, 0], 0, -130, 1, [20, 10, 0, 0, 0]),
    ([0, 0, 0, 0], FULL, 0, 260, 100, [2_000, 1_000, 0, 0, 0]),
    (
        [0, 0, 0, 0],
        [10, 0, 5, 1, 10],
        0,
        1,
        99,
        [1_980, 990, 0, 0, 0],
    ),
    ([0, 0, 0, 0], FULL, 1, 0, 2, [40, 20, 0, 23, 0]),
    (
        [0, 0, 0, 0],
        [10, 10, 10, 10, 1],
        7,
        -129,
        2,
        [40, 20, 0, 0, 0],
    ),
    (
        [0, 0, 0, 0],
        [10, 10, 10, 10, 5],
        7,
        -130,
        1,
        [20, 10, 0, 3, 0],
    ),
    (
        [0, 0, 0, 0],
        FULL,
        100_000,
        260,
        100,
        [2_000, 1_000, 0, 6_600_000, 0],
    ),
    (
        [0, 0, 0, 0],
        [10, 10, 10, 10, 1],
        99_999,
        259,
        100,
        [2_000, 1_000, 0, 659_993, 0],
    ),
    (
        [30, 30, 30, 30],
        [0, 0, 0, 10, 10],
        100_000,
        40,
        100,
        [2_000, 1_000, 0, 3_010_469, 0],
    ),
    (
        [30, 30, 30, 30],
        FULL,
        100_000,
        260,
        100,
        [1_572_400, 1_047_900, 397_800, 6_610_469, 20_940],
    ),
    (
        [30, 30, 30, 30],
        FULL,
        100_000,
        -130,
        100,
        [1_572_400, 1_047_900, 806_100, 110_469, 20_940],
    ),
    (
        [30, 30, 30, 30],
        FULL,
        0,
        -130,
        100,
        [787_125, 524_400, 403_011, 10_469, 20_940],
    ),
    (
        [30, 30, 30, 30],
        FULL,
        0,
        -130,
        1,
        [7_871, 5_244, 4_030, 10_469, 20_940],
    ),
    (
        [30, 30, 30, 30],
        [1, 1, 1, 1, 1],
        0,
        -129,
        99,
        [79_583, 52_692, 39_790, 1_046, 2_095],
    ),
    (
        [30, 30, 30, 0],
        FULL,
        1,
        -130,
        100,
        [2_074, 1_049, 38, 1, 20_940],
    ),
    (
        [29, 30, 2, 29],
        [10, 1, 5, 10, 0],
        99_999,
        0,
        99,
        [1_368_180, 104_544, 1_485, 9_200, 5_150],
    ),
    (
        [15, 15, 15, 15],
        FULL,
        0,
        1,
        1,
        [958, 636, 399, 1_253, 2_508],
    ),
    (
        [15, 15, 15, 15],
        FULL,
        7,
        259,
        2,
        [2_609, 1_733, 652, 1_715, 2_508],
    ),
    (
        [15, 2, 29, 15],
        [5, 10, 1, 10, 5],
        7,
        40,
        99,
        [94_941, 5_742, 54_648, 1_358, 1_260],
    ),
    ([2, 2, 2, 2], FULL, 0, 0, 1, [54, 33, 14, 48, 99]),
    (
        [2, 2, 2, 2],
        [1, 1, 1, 1, 1],
        1,
        -129,
        100,
        [2_254, 1_145, 109, 4, 11],
    ),
    (
        [2, 1, 1, 1],
        [5, 5, 5, 5, 5],
        1,
        260,
        2,
        [112, 42, 8, 44, 30],
    ),
    ([1, 1, 1, 1], [1, 1, 1, 1, 1], 0, 1, 1, [20, 10, 0, 2, 7]),
    (
        [29, 29, 29, 29],
        [5, 10, 1, 5, 10],
        1,
        260,
        2,
        [8_270, 10_994, 416, 4_666, 7_823],
    ),
    (
        [29, 15, 0, 30],
        [10, 5, 10, 1, 1],
        7,
        0,
        1,
        [3_001, 145, 0, 1_062, 4_915],
    ),
    (
        [0, 30, 1, 2],
        FULL,
        1,
        259,
        100,
        [2_000, 23_702, 17, 114, 5_257],
    ),
    (
        [0, 0, 30, 15],
        [10, 10, 10, 5, 10],
        7,
        -130,
        99,
        [1_980, 990, 48_248, 633, 10_470],
    ),
    (
        [0, 0, 29, 30],
        [10, 10, 5, 10, 10],
        0,
        260,
        1,
        [20, 10, 1_748, 10_469, 4_601],
    ),
    (
        [1, 29, 15, 2],
        FULL,
        100_000,
        -129,
        2,
        [106, 18_420, 1_926, 100_048, 5_866],
    ),
    ([1, 2, 0, 1], FULL, 0, 40, 100, [4_016, 3_933, 0, 22, 36]),
    (
        [2, 15, 1, 2],
        FULL,
        7,
        40,
        99,
        [4_708, 48_473, 492, 258, 674],
    ),
];

/// The works of a planet of the table. A number beyond its range counts as the end of the range, so that the check sees
/// works in range.
fn works_of(levels: [u8; 4], sets: [u8; 5], satellites: u32, t: i16) -> Works
    ensures { IsInRange result }
{
    let [metal, crystal, deuterium, solar] = levels;
    let [first, second, third, fourth, fifth] = sets;
    Works {
        metal: metal.min(30),
        crystal: crystal.min(30),
        deuterium: deuterium.min(30),
        solar: solar.min(30),
        sets: [
            first.min(10),
            second.min(10),
            third.min(10),
            fourth.min(10),
            fifth.min(10),
        ],
        satellites: satellites.min(UNITS),
        t: t.clamp(COLDEST, HOTTEST),
    }
}

#[test]
fn a_planet_yields_by_its_works_and_their_energy(rt: HostRuntime) {
    for (levels, sets, satellites, t, speed, want) in PLANETS {
        assert!(rt; speed <= 100);
        let works = works_of(levels, sets, satellites, t);
        let is = hourly(&works, speed);
        assert_eq!(rt;
            [is.metal, is.crystal, is.deuterium, is.given, is.need],
            want,
            "of {works:?} at speed {speed}"
        );
    }
}

#[test]
fn a_planet_without_works_has_the_basic_income_alone(rt: HostRuntime) {
    for (speed, t) in [(1, -130), (2, 0), (99, 41), (100, 260)] {
        let works = works_of([0; 4], FULL, 0, t);
        let is = hourly(&works, speed);
        let alone = Resources {
            metal: is.metal,
            crystal: is.crystal,
            deuterium: is.deuterium,
        };
        assert_eq!(rt; alone, basic_income(speed));
        assert_eq!(rt; (is.given, is.need), (0, 0));
    }
}

#[test]
fn a_store_is_filled_up_to_the_limit_of_its_level(rt: HostRuntime) {
    for (level, units) in [
        (0, 10_000),
        (1, 20_000),
        (7, 865_000),
        (15, 110_925_000),
        (16, 203_350_000),
    ] {
        assert_eq!(rt; limit(level), units);
    }
    assert_eq!(rt; storage(), resources(10_000, 10_000, 10_000));
}

#[test]
fn stocks_gain_the_basic_income_and_show_whole_units(rt: HostRuntime) {
    let first = resources(500 * GRAINS, 9999 * GRAINS, 7);
    let hour = stocks_after(first, 7, 3600);
    assert_eq!(rt; hour, resources(640 * GRAINS, 10_000 * GRAINS, 7));
    let second = stocks_after(first, 7, 1);
    assert_eq!(rt; second, resources(1_800_140, 35_996_470, 7));
    assert_eq!(rt; whole_units(second), resources(500, 9999, 0));
}

#[test]
fn the_levels_of_three_stores_set_three_limits(rt: HostRuntime) {
    assert_eq!(rt; storage_of(0, 0, 0), storage());
    assert_eq!(rt;
        storage_of(0, 1, 16),
        resources(10_000, 20_000, 203_350_000)
    );
    assert_eq!(rt;
        storage_of(15, 7, 0),
        resources(110_925_000, 865_000, 10_000)
    );
}

/// The seconds that pass, and the grains of the stocks then. The wanted numbers were added up second by second with
/// Python's integers.
const PRODUCED: [(u64, [u64; 3]); 8] = [
    (0, [35_996_400, 0, 72_000_000]),
    (1, [35_996_420, 4111, 72_000_000]),
    (179, [35_999_980, 735_869, 72_000_000]),
    (180, [36_000_000, 739_980, 72_000_000]),
    (181, [36_000_000, 744_091, 72_000_000]),
    (17_513, [36_000_000, 71_995_943, 72_000_000]),
    (17_514, [36_000_000, 72_000_000, 72_000_000]),
    (1_099_511_627_775, [36_000_000, 72_000_000, 72_000_000]),
];

#[test]
fn each_stock_is_produced_up_to_its_own_limit(rt: HostRuntime) {
    let stock = resources(9999 * GRAINS, 0, 20_000 * GRAINS);
    let limits = storage_of(0, 1, 0);
    let hourly = yields(20, 4111, 30);
    for (seconds, [metal, crystal, deuterium]) in PRODUCED {
        assert_eq!(rt;
            produce(stock, limits, hourly, seconds),
            resources(metal, crystal, deuterium),
            "in {seconds} s"
        );
    }
    let before = produce(stock, limits, hourly, 179);
    assert_eq!(rt; whole_units(before), resources(9999, 204, 20_000));
    let then = produce(before, limits, hourly, 1);
    assert_eq!(rt; whole_units(then), resources(10_000, 205, 20_000));
}

/// Yields of metal, crystal and deuterium, without energy.
fn yields(metal: u64, crystal: u64, deuterium: u64) -> Hourly
    ensures metal { result.metal ≡ metal }
    ensures crystal { result.crystal ≡ crystal }
    ensures deuterium { result.deuterium ≡ deuterium }
    ensures given { result.given ≡ 0 }
    ensures need { result.need ≡ 0 }
{
    Hourly {
        metal,
        crystal,
        deuterium,
        given: 0,
        need: 0,
    }
}

/// Metal, crystal and deuterium.
fn resources(metal: u64, crystal: u64, deuterium: u64) -> Resources
    ensures metal { result.metal ≡ metal }
    ensures crystal { result.crystal ≡ crystal }
    ensures deuterium { result.deuterium ≡ deuterium }
{
    Resources {
        metal,
        crystal,
        deuterium,
    }
}
