use crate::{Helpers, cost, seconds};
use catalog::{Amounts, CAP, Kind};
use std::process::Abort;

// The expected values were computed with Python's integers by the formulas of docs/RULES.md, "Costs and durations".

/// A kind, a level, and what that level costs. Each kind stands here at level 1 and at its cap.
const COSTS: [(Kind, u8, [u64; 3]); 80] = [
    (Kind::MetalMine, 1, [60, 15, 0]),
    (Kind::MetalMine, 2, [90, 22, 0]),
    (Kind::MetalMine, 15, [17_515, 4378, 0]),
    (Kind::MetalMine, 30, [7_670_042, 1_917_510, 0]),
    (Kind::CrystalMine, 1, [48, 24, 0]),
    (Kind::CrystalMine, 2, [76, 38, 0]),
    (Kind::CrystalMine, 3, [122, 61, 0]),
    (Kind::CrystalMine, 29, [24_923_024, 12_461_512, 0]),
    (Kind::CrystalMine, 30, [39_876_839, 19_938_419, 0]),
    (Kind::DeuteriumSynth, 1, [225, 75, 0]),
    (Kind::DeuteriumSynth, 17, [147_789, 49_263, 0]),
    (Kind::DeuteriumSynth, 30, [28_762_658, 9_587_552, 0]),
    (Kind::SolarPlant, 1, [75, 30, 0]),
    (Kind::SolarPlant, 4, [253, 101, 0]),
    (Kind::SolarPlant, 30, [9_587_552, 3_835_021, 0]),
    (Kind::MetalStore, 1, [1000, 0, 0]),
    (Kind::MetalStore, 16, [32_768_000, 0, 0]),
    (Kind::CrystalStore, 1, [1000, 500, 0]),
    (Kind::CrystalStore, 16, [32_768_000, 16_384_000, 0]),
    (Kind::DeuteriumTank, 1, [1000, 1000, 0]),
    (Kind::DeuteriumTank, 16, [32_768_000, 32_768_000, 0]),
    (Kind::Robotics, 1, [400, 120, 200]),
    (Kind::Robotics, 12, [819_200, 245_760, 409_600]),
    (Kind::Shipyard, 1, [400, 200, 100]),
    (Kind::Shipyard, 14, [3_276_800, 1_638_400, 819_200]),
    (Kind::Lab, 1, [200, 400, 200]),
    (Kind::Lab, 14, [1_638_400, 3_276_800, 1_638_400]),
    (Kind::Nanite, 1, [1_000_000, 500_000, 100_000]),
    (Kind::Nanite, 5, [16_000_000, 8_000_000, 1_600_000]),
    (Kind::Nanite, 8, [128_000_000, 64_000_000, 12_800_000]),
    (Kind::Energy, 1, [0, 800, 400]),
    (Kind::Energy, 20, [0, 419_430_400, 209_715_200]),
    (Kind::Laser, 1, [200, 100, 0]),
    (Kind::Laser, 20, [104_857_600, 52_428_800, 0]),
    (Kind::Ion, 1, [1000, 300, 100]),
    (Kind::Ion, 20, [524_288_000, 157_286_400, 52_428_800]),
    (Kind::Hyperspace, 1, [0, 4000, 2000]),
    (Kind::Hyperspace, 20, [0, 2_097_152_000, 1_048_576_000]),
    (Kind::Plasma, 1, [2000, 4000, 1000]),
    (
        Kind::Plasma,
        20,
        [1_048_576_000, 2_097_152_000, 524_288_000],
    ),
    (Kind::Combustion, 1, [400, 0, 600]),
    (Kind::Combustion, 20, [209_715_200, 0, 314_572_800]),
    (Kind::Impulse, 1, [2000, 4000, 600]),
    (
        Kind::Impulse,
        20,
        [1_048_576_000, 2_097_152_000, 314_572_800],
    ),
    (Kind::Hyperdrive, 1, [10_000, 20_000, 6000]),
    (
        Kind::Hyperdrive,
        20,
        [5_242_880_000, 10_485_760_000, 3_145_728_000],
    ),
    (Kind::Espionage, 1, [200, 1000, 200]),
    (Kind::Espionage, 20, [104_857_600, 524_288_000, 104_857_600]),
    (Kind::Computer, 1, [0, 400, 600]),
    (Kind::Computer, 20, [0, 209_715_200, 314_572_800]),
    (Kind::Weapons, 1, [800, 200, 0]),
    (Kind::Weapons, 4, [6400, 1600, 0]),
    (Kind::Weapons, 20, [419_430_400, 104_857_600, 0]),
    (Kind::Shielding, 1, [200, 600, 0]),
    (Kind::Shielding, 20, [104_857_600, 314_572_800, 0]),
    (Kind::Armour, 1, [1000, 0, 0]),
    (Kind::Armour, 20, [524_288_000, 0, 0]),
    (Kind::Graviton, 1, [0, 0, 0]),
    (Kind::SmallCargo, 1, [2000, 2000, 0]),
    (Kind::LargeCargo, 1, [6000, 6000, 0]),
    (Kind::LightFighter, 1, [3000, 1000, 0]),
    (Kind::HeavyFighter, 1, [6000, 4000, 0]),
    (Kind::Cruiser, 1, [20_000, 7000, 2000]),
    (Kind::Battleship, 1, [45_000, 15_000, 0]),
    (Kind::Battlecruiser, 1, [30_000, 40_000, 15_000]),
    (Kind::Bomber, 1, [50_000, 25_000, 15_000]),
    (Kind::Destroyer, 1, [60_000, 50_000, 15_000]),
    (Kind::Deathstar, 1, [5_000_000, 4_000_000, 1_000_000]),
    (Kind::Recycler, 1, [10_000, 6000, 2000]),
    (Kind::ColonyShip, 1, [10_000, 20_000, 10_000]),
    (Kind::Probe, 1, [0, 1000, 0]),
    (Kind::Satellite, 1, [0, 2000, 500]),
    (Kind::Launcher, 1, [2000, 0, 0]),
    (Kind::LightLaser, 1, [1500, 500, 0]),
    (Kind::HeavyLaser, 1, [6000, 2000, 0]),
    (Kind::Gauss, 1, [20_000, 15_000, 2000]),
    (Kind::IonCannon, 1, [2000, 6000, 0]),
    (Kind::PlasmaTurret, 1, [50_000, 50_000, 30_000]),
    (Kind::SmallDome, 1, [10_000, 10_000, 0]),
    (Kind::LargeDome, 1, [50_000, 50_000, 0]),
];

/// The cost, the levels of robotics and nanite, the speed of the universe, and the seconds of a building.
const BUILDINGS: [([u64; 3], u8, u8, u32, u64); 15] = [
    ([60, 15, 0], 0, 0, 1, 108),
    ([90, 22, 0], 0, 0, 1, 161),
    ([90, 22, 7], 0, 0, 1, 161),
    ([60, 15, 0], 12, 8, 100, 1),
    ([0, 0, 5], 0, 0, 1, 1),
    (
        [4_000_000_000_000, 4_000_000_000_000, 4_000_000_000_000],
        0,
        0,
        1,
        11_520_000_000_000,
    ),
    (
        [4_000_000_000_000, 4_000_000_000_000, 0],
        12,
        8,
        100,
        34_615_384,
    ),
    ([0, 1, 0], 0, 0, 1, 1),
    ([1, 0, 0], 0, 0, 2, 1),
    ([2_000_000, 1_000_000, 200_000], 10, 1, 3, 65_454),
    ([12_345, 678, 9], 7, 3, 5, 58),
    ([69, 0, 0], 0, 0, 100, 1),
    ([70, 0, 0], 0, 0, 100, 1),
    ([138, 0, 0], 0, 0, 100, 1),
    ([139, 0, 0], 0, 0, 100, 2),
];

/// The cost, the level of the lab, the speed of the universe, and the seconds of a research.
const RESEARCH: [([u64; 3], u8, u32, u64); 11] = [
    ([6400, 1600, 0], 4, 1, 5760),
    ([0, 800, 400], 0, 1, 2880),
    ([0, 800, 400], 14, 1, 192),
    (
        [4_000_000_000_000, 4_000_000_000_000, 4_000_000_000_000],
        0,
        1,
        28_800_000_000_000,
    ),
    (
        [4_000_000_000_000, 4_000_000_000_000, 0],
        14,
        100,
        19_200_000_000,
    ),
    ([0, 0, 0], 12, 1, 1),
    ([200, 100, 0], 1, 7, 77),
    ([27, 0, 0], 0, 100, 1),
    ([28, 0, 0], 0, 100, 1),
    ([55, 0, 0], 0, 100, 1),
    ([0, 56, 9], 0, 100, 2),
];

/// The cost, the levels of the shipyard and of nanite, the speed of the universe, and the seconds of a unit.
const YARDS: [([u64; 3], u8, u8, u32, u64); 9] = [
    ([2000, 0, 0], 1, 0, 1, 1440),
    ([2000, 2000, 0], 2, 0, 1, 1920),
    ([5_000_000, 4_000_000, 1_000_000], 12, 0, 1, 996_923),
    ([5_000_000, 4_000_000, 1_000_000], 14, 8, 100, 33),
    ([0, 1000, 0], 3, 2, 1, 90),
    (
        [4_000_000_000_000, 4_000_000_000_000, 4_000_000_000_000],
        0,
        0,
        1,
        11_520_000_000_000,
    ),
    (
        [4_000_000_000_000, 4_000_000_000_000, 0],
        14,
        8,
        100,
        30_000_000,
    ),
    ([0, 2000, 500], 1, 8, 100, 1),
    ([3000, 1000, 0], 1, 1, 7, 205),
];

#[test]
fn costs_grow_by_exact_fractions_and_are_floored_once(rt: HostRuntime) {
    for (kind, level, want) in COSTS {
        assert!(rt; 1 <= level && level <= kind.level_cap());
        let price = cost(kind, level);
        assert_eq!(rt; [price.m, price.c, price.d], want, "{kind:?} {level}");
    }
}

#[test]
fn metal_and_crystal_take_time_and_helpers_shorten_it(rt: HostRuntime) {
    for (price, robotics, nanite, speed, want) in BUILDINGS {
        assert!(rt; robotics <= 12 && nanite <= 8 && 1 <= speed && speed <= 100);
        let helpers = Helpers::Building { robotics, nanite };
        assert_eq!(rt;
            seconds(amounts(&rt, price), helpers, speed),
            want,
            "{price:?}"
        );
    }
    for (price, lab, speed, want) in RESEARCH {
        assert!(rt; lab <= 14 && 1 <= speed && speed <= 100);
        let helpers = Helpers::Research { lab };
        assert_eq!(rt;
            seconds(amounts(&rt, price), helpers, speed),
            want,
            "{price:?}"
        );
    }
    for (price, shipyard, nanite, speed, want) in YARDS {
        assert!(rt; shipyard <= 14 && nanite <= 8 && 1 <= speed && speed <= 100);
        let helpers = Helpers::Yard { shipyard, nanite };
        assert_eq!(rt;
            seconds(amounts(&rt, price), helpers, speed),
            want,
            "{price:?}"
        );
    }
}

#[test]
fn the_dearest_work_takes_the_longest(rt: HostRuntime) {
    let building = Helpers::Building {
        robotics: 0,
        nanite: 0,
    };
    assert_eq!(rt; seconds(cost(Kind::Nanite, 8), building, 1), 276_480_000);
    let research = Helpers::Research { lab: 0 };
    assert_eq!(rt;
        seconds(cost(Kind::Hyperdrive, 20), research, 1),
        56_623_104_000
    );
    let yard = Helpers::Yard {
        shipyard: 0,
        nanite: 0,
    };
    assert_eq!(rt; seconds(cost(Kind::Deathstar, 1), yard, 1), 12_960_000);
}

/// Amounts of metal, crystal and deuterium.
fn amounts(rt: &impl Abort, units: [u64; 3]) -> Amounts {
    let [m, c, d] = units;
    assert!(rt; m <= CAP && c <= CAP && d <= CAP);
    Amounts { m, c, d }
}
