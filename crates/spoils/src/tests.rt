use crate::{load, rebuilt, scrape};
use catalog::{Amounts, CAP};

/// Units of metal, crystal and deuterium.
type Units = (u64, u64, u64);

/// A room, what may be taken, and what is loaded: computed with Python's integers by the steps of docs/RULES.md.
const LOADS: [(u64, Units, Units); 25] = [
    (0, (CAP, CAP, CAP), (0, 0, 0)),
    (1, (CAP, CAP, CAP), (0, 0, 1)),
    (2, (CAP, CAP, CAP), (0, 1, 1)),
    (3, (CAP, CAP, CAP), (1, 1, 1)),
    (4, (7, 7, 7), (1, 1, 2)),
    (5, (7, 7, 0), (2, 3, 0)),
    (7, (1, 9, 1), (1, 5, 1)),
    (5000, (0, 0, 0), (0, 0, 0)),
    (5000, (10_000, 7000, 0), (2499, 2501, 0)),
    (5000, (15_000, 15_000, 15_000), (1666, 1667, 1667)),
    (5000, (10_000, 0, 0), (3333, 0, 0)),
    (5001, (10_000, 0, 0), (3334, 0, 0)),
    (5000, (0, 0, 10_000), (0, 0, 5000)),
    (5000, (0, 10_000, 0), (0, 5000, 0)),
    (5000, (100, 10_000, 30), (100, 4870, 30)),
    (5000, (3000, 100, 50), (3000, 100, 50)),
    (5000, (1666, 1667, 9), (1666, 1667, 9)),
    (100, (1, 2, 3), (1, 2, 3)),
    (
        6_000_000,
        (1_999_999, 5_000_000, 1_000_001),
        (1_999_999, 3_000_000, 1_000_001),
    ),
    (12_000_000_000_000, (CAP, CAP, CAP), (CAP, CAP, CAP)),
    (
        11_999_999_999_999,
        (CAP, CAP, CAP),
        (3_999_999_999_999, CAP, CAP),
    ),
    (
        CAP,
        (CAP, 0, CAP),
        (1_333_333_333_333, 0, 2_666_666_666_667),
    ),
    (u64::MAX, (CAP, CAP, CAP), (CAP, CAP, CAP)),
    (u64::MAX, (0, 0, 0), (0, 0, 0)),
    (u64::MAX, (CAP, 0, 1), (CAP, 0, 1)),
];

/// A room, the metal and crystal of the debris, and what is taken of them: computed likewise.
const HARVESTS: [(u64, (u64, u64), (u64, u64)); 16] = [
    (0, (CAP, CAP), (0, 0)),
    (1, (CAP, CAP), (0, 1)),
    (2, (CAP, CAP), (1, 1)),
    (3, (CAP, CAP), (1, 2)),
    (20_000, (900, 300), (900, 300)),
    (20_000, (15_000, 300), (15_000, 300)),
    (20_000, (15_000, 15_000), (10_000, 10_000)),
    (20_000, (300, 90_000), (300, 19_700)),
    (20_001, (90_000, 90_000), (10_000, 10_001)),
    (20_001, (90_000, 7), (19_994, 7)),
    (20_000, (0, 0), (0, 0)),
    (20_000, (10_001, 9999), (10_001, 9999)),
    (8_000_000_000_000, (CAP, CAP), (CAP, CAP)),
    (7_999_999_999_999, (CAP, CAP), (3_999_999_999_999, CAP)),
    (u64::MAX, (CAP, CAP), (CAP, CAP)),
    (u64::MAX, (0, CAP), (0, CAP)),
];

/// Defences that were lost, and how many stand again: computed likewise.
const REBUILT: [(u32, u32); 13] = [
    (0, 0),
    (1, 0),
    (2, 1),
    (3, 2),
    (9, 6),
    (10, 7),
    (11, 7),
    (14, 9),
    (100, 70),
    (99_999, 69_999),
    (100_000, 70_000),
    (2_863_311_531, 2_004_318_071),
    (4_294_967_295, 3_006_477_106),
];

#[test]
fn spoils_are_taken_in_their_steps(rt: HostRuntime) {
    for (room, (m, c, d), want) in LOADS {
        assert!(rt; m <= CAP && c <= CAP && d <= CAP);
        let loaded = load(room, Amounts { m, c, d });
        assert_eq!(rt;
            (loaded.m, loaded.c, loaded.d),
            want,
            "of {m}, {c}, {d} into {room}"
        );
    }
    for (room, (m, c), (metal, crystal)) in HARVESTS {
        assert!(rt; m <= CAP && c <= CAP);
        let taken = scrape(room, Amounts { m, c, d: 5 });
        assert_eq!(rt;
            (taken.m, taken.c, taken.d),
            (metal, crystal, 0),
            "of {m}, {c} into {room}"
        );
    }
}

#[test]
fn seven_tenths_stand_again(rt: HostRuntime) {
    for (lost, want) in REBUILT {
        assert_eq!(rt; rebuilt(lost), want, "of {lost}");
    }
}
