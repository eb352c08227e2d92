use crate::Draws;

/// The first six words of the generator's reference code, seeded with 42 and 54.
const REFERENCE: [u32; 6] = [
    0xa15c_02b7,
    0x7b47_f409,
    0xba1d_3330,
    0x83d2_f293,
    0xbfa4_784b,
    0xcbed_606e,
];

/// A seed and a number, and what is drawn in turn below 6, 52, 1, 2^32 − 1 and 2: computed with Python's integers by
/// the published generator and the formula of docs/RULES.md.
const CASES: [(u64, u64, [u32; 5]); 9] = [
    (0, 0, [5, 11, 0, 1_612_522_463, 0]),
    (1, 0, [5, 0, 0, 194_195_273, 1]),
    (0, 1, [0, 4, 0, 4_175_973_424, 1]),
    (7, 1, [3, 3, 0, 4_195_553_630, 0]),
    (1 << 40, 1 << 40, [1, 4, 0, 2_825_504_243, 0]),
    (u64::MAX, u64::MAX, [0, 24, 0, 1_600_907_045, 0]),
    (u64::MAX, 0, [0, 46, 0, 1_548_399_546, 0]),
    (0, u64::MAX, [1, 41, 0, 1_178_546_233, 1]),
    (42, 54, [3, 25, 0, 2_211_639_954, 1]),
];

#[test]
fn numbers_come_from_the_words_in_turn(rt: HostRuntime) {
    for (seed, number, want) in CASES {
        let mut draws = Draws::new(seed, number);
        let drawn = [
            draws.below(6),
            draws.below(52),
            draws.below(1),
            draws.below(u32::MAX),
            draws.below(2),
        ];
        assert_eq!(rt; drawn, want, "seed {seed}, number {number}");
    }

    // Below 2^32 − 1 a word other than 0 gives itself less 1.
    let mut draws = Draws::new(42, 54);
    for word in REFERENCE {
        assert!(rt; word > 0);
        assert_eq!(rt; draws.below(u32::MAX), word - 1);
    }
}
