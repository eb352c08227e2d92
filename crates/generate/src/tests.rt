use crate::text;
use std::test::Fail;

/// The first lines of the text of seed 1 with 30 lines of requests.
const FIRST: &str = "\
universe 1 10 30 0
player 1
player 2
";

/// The lines of its last planet, of the line that ends the founding, and of the requests: made by a program in Python.
const LAST: &str = "\
planet 1:50:8 50 0 200
stock 1:50:8 1000000 1000000 1000000
level 1:50:8 metalmine 10
level 1:50:8 crystalmine 8
level 1:50:8 deuteriumsynth 5
level 1:50:8 solarplant 14
level 1:50:8 robotics 4
level 1:50:8 shipyard 6
level 1:50:8 lab 5
units 1:50:8 smallcargo 20
units 1:50:8 lightfighter 50
units 1:50:8 recycler 5
units 1:50:8 launcher 30
.
@106 1 planet 1:1:8
@170 28 send 1:28:8 1:44:8 transport 10 smallcargo=1 100 0 0
@215 14 fleets
@217 13 recall 3
@306 12 send 1:12:4 1:20:8 attack 10 lightfighter=5 0 0 0
@393 24 send 1:24:4 1:16:4 attack 10 lightfighter=5 0 0 0
@430 44 recall 1
@510 10 research 1:10:4 computer
@513 8 system 1:8
@560 18 system 1:18
@634 37 research 1:37:8 combustion
@651 42 system 1:42
@660 48 research 1:48:4 shielding
@713 38 recall 14
@778 34 research 1:34:8 computer
@862 5 yard 1:5:8 satellite 1
@885 33 yard 1:33:4 lightfighter 2
@923 41 build 1:41:8 solarplant
@961 44 planet 1:44:4
@971 22 research 1:22:8 espionage
@1044 11 fleets
@1072 2 build 1:2:4 deuteriumsynth
@1151 28 system 1:28
@1216 21 yard 1:21:8 cruiser 1
@1272 4 fleets
@1313 43 research 1:43:8 combustion
@1406 22 send 1:22:8 1:25:8 transport 10 smallcargo=1 100 0 0
@1426 37 yard 1:37:4 destroyer 1
@1427 12 system 1:12
@1433 46 research 1:46:4 hyperspace
";

/// A seed, how many lines of requests there are, and the length and the checksum of the text that the program in Python
/// makes of them.
const CHECKSUMS: [(u64, u32, usize, u64); 3] = [
    (0, 1000, 69_750, 0x8e6e_36e6_dd79_86f5),
    (7, 20_000, 708_777, 0x2371_8ad8_8d5d_3c2a),
    (u64::MAX, 1000, 69_680, 0x4c6f_d245_3b32_4e28),
];

/// The checksum of bytes after Fowler, Noll and Vo: FNV-1a, 64 bits.
fn checksum(bytes: &[u8]) -> u64 {
    let mut sum: u64 = 0xcbf2_9ce4_8422_2325;
    for byte in bytes {
        sum = (sum ^ u64::from(*byte)).wrapping_mul(0x0000_0100_0000_01b3);
    }
    sum
}

#[test]
fn a_text_begins_with_its_universe_and_ends_with_its_requests(rt: HostRuntime) -> Result<(), Fail> {
    let made = text(rt.alloc(), 1, 30)?;
    assert!(rt; made.as_slice().starts_with(FIRST.as_bytes()));
    assert!(rt; made.as_slice().ends_with(LAST.as_bytes()));
    Ok(())
}

#[test]
fn texts_are_those_of_a_second_program(rt: HostRuntime) -> Result<(), Fail> {
    for (seed, lines, length, sum) in CHECKSUMS {
        let made = text(rt.alloc(), seed, lines)?;
        assert_eq!(rt; made.len(), length, "seed {seed}");
        assert_eq!(rt; checksum(made.as_slice()), sum, "seed {seed}");
    }
    Ok(())
}
