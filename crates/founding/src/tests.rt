// What no clause says: founding texts that are good, and where others are bad.
use crate::{FoundingFault, read};
use base_bytes::Base;
use base_ids::{Coord, Player};
use ports::MemorySource;
use rates::Resources;
use request_text::{Line, LineReader};
use std::alloc::{AllocError, Global};
use std::test::Fail;

// What comes of a text that is read in pieces.
fn founding_of(alloc: Global, text: &[u8]) -> Result<Result<Base, FoundingFault>, AllocError> {
    let mut source = MemorySource::new(text, &[]).in_pieces(100);
    let mut reader = LineReader::new(alloc)?;
    Ok(read(alloc, &mut reader, &mut source))
}

// The base that a good text founds.
fn base_of(alloc: Global, text: &[u8]) -> Result<Base, Fail> {
    match founding_of(alloc, text)? {
        Ok(base) => Ok(base),
        Err(_) => Err(Fail::from("not founded")),
    }
}

// How many players and planets a text founds, or its first bad line.
fn counts_of(alloc: Global, text: &[u8]) -> Result<Result<(usize, usize), u64>, Fail> {
    match founding_of(alloc, text)? {
        Ok(base) => Ok(Ok((base.accounts.len(), base.planets.len()))),
        Err(FoundingFault::Bad { line }) => Ok(Err(line)),
        Err(_) => Err(Fail::from("no answer")),
    }
}

#[test]
fn good_texts_found_what_they_name(rt: HostRuntime) -> Result<(), Fail> {
    let cases: [(&[u8], usize, usize); 7] = [
        (b"universe 0 1 1 0\n.\n", 0, 0),
        (b"universe 7 100 262144 1099511627775\n.", 0, 0),
        (b"universe 7 1 1000 0\r\nplayer 1\r\n.\r\n", 1, 0),
        (
            b"universe 18446744073709551615 1 1000 0\nplayer 1\nplayer 65535\n.",
            2,
            0,
        ),
        (
            b"universe 7 1 9 0\nplayer 1\nplanet 1:1:1 1 -130 1\nplanet 9:499:15 1 260 400\n.\n",
            1,
            2,
        ),
        (
            b"universe 7 1 9 0\nplayer 2\nplanet 1:1:2 2 0 163\nplayer 1\nplanet 1:1:1 1 40 163\n.",
            2,
            2,
        ),
        (b"universe 7 1 9 0\n.\nplayer 0\nuniverse\n", 0, 0),
    ];
    for (text, players, planets) in cases {
        assert_eq!(rt; counts_of(rt.alloc(), text)?, Ok((players, planets)));
    }
    Ok(())
}

#[test]
fn a_text_is_bad_at_its_first_line(rt: HostRuntime) -> Result<(), Fail> {
    let cases: [&[u8]; 12] = [
        b"",
        b".",
        b"\n",
        b"player 1\n.\n",
        b"universe 7 1 1000\n.\n",
        b"universe 7 1 1000 0 0\n.\n",
        b"universe 7 0 1000 0\n.\n",
        b"universe 7 101 1000 0\n.\n",
        b"universe 7 1 0 0\n.\n",
        b"universe 7 1 262145 0\n.\n",
        b"universe 7 1 1000 1099511627776\n.\n",
        b"universe 18446744073709551616 1 1000 0\n.\n",
    ];
    for text in cases {
        assert_eq!(rt; counts_of(rt.alloc(), text)?, Err(1));
    }
    Ok(())
}

// The first bad line of a text of a heading, player 1 and these lines.
fn bad_behind(alloc: Global, lines: &[u8]) -> Result<Result<(usize, usize), u64>, Fail> {
    let mut text = Vec::from_slice(alloc, b"universe 7 1 1000 0\nplayer 1\n")?;
    text.extend_from_slice(lines)?;
    counts_of(alloc, &text)
}

#[test]
fn a_line_is_judged_by_the_lines_before_it(rt: HostRuntime) -> Result<(), Fail> {
    let cases: [(&[u8], u64); 12] = [
        (b"", 3),
        (b"player 2", 4),
        (b"player 2\n", 4),
        (b"player 1\n.\n", 3),
        (b"player 2\nplayer 1\n.\n", 4),
        (b"universe 7 1 1000 0\n.\n", 3),
        (b"planet 1:1:1 2 40 163\nplayer 2\n.\n", 3),
        (b"planet 1:1:1 1 40 163\nplanet 1:1:1 1 41 163\n.\n", 4),
        (
            b"player 2\nplanet 1:1:1 1 40 163\nplanet 1:1:1 2 40 163\n.\n",
            5,
        ),
        (b"player 2\n\n.\n", 4),
        (b"free 1:1:1 40 163\n.\n", 3),
        (b" .\n.\n", 3),
    ];
    for (lines, number) in cases {
        assert_eq!(rt; bad_behind(rt.alloc(), lines)?, Err(number));
    }
    Ok(())
}

#[test]
fn a_planet_has_one_spelling(rt: HostRuntime) -> Result<(), Fail> {
    let cases: [&[u8]; 12] = [
        b"planet 1:1:1 1 -131 163\n.\n",
        b"planet 1:1:1 1 261 163\n.\n",
        b"planet 1:1:1 1 -0 163\n.\n",
        b"planet 1:1:1 1 40 0\n.\n",
        b"planet 1:1:1 1 40 401\n.\n",
        b"planet 01:1:1 1 40 163\n.\n",
        b"planet 1:500:1 1 40 163\n.\n",
        b"planet 1:1:16 1 40 163\n.\n",
        b"planet 1:1:1  1 40 163\n.\n",
        b"planet 1:1:1 1 40 163 \n.\n",
        b"player 0\n.\n",
        b"player 65536\n.\n",
    ];
    for lines in cases {
        assert_eq!(rt; bad_behind(rt.alloc(), lines)?, Err(3));
    }
    Ok(())
}

#[test]
fn a_player_has_nine_planets_at_most(rt: HostRuntime) -> Result<(), Fail> {
    let mut lines = Vec::new(rt.alloc());
    for position in 1..11 {
        let line = format!(in rt.alloc(); "planet 1:1:{position} 1 40 163\n")?;
        lines.extend_from_slice(line.as_bytes())?;
        if position == 9 {
            let mut nine = lines.clone()?;
            nine.extend_from_slice(b".")?;
            assert_eq!(rt; bad_behind(rt.alloc(), &nine)?, Ok((1, 9)));
        }
    }
    assert_eq!(rt; bad_behind(rt.alloc(), &lines)?, Err(12));
    Ok(())
}

#[test]
fn a_line_of_401_bytes_is_bad(rt: HostRuntime) -> Result<(), Fail> {
    let mut lines = vec![in rt.alloc(); b'1'; 401]?;
    lines.extend_from_slice(b"\n.\n")?;
    assert_eq!(rt; bad_behind(rt.alloc(), &lines)?, Err(3));
    assert_eq!(rt; counts_of(rt.alloc(), &lines)?, Err(1));
    Ok(())
}

#[test]
fn the_script_stays(rt: HostRuntime) -> Result<(), Fail> {
    let mut source = MemorySource::new(b"universe 7 1 9 5\n.\n@9 1 account\n", &[]);
    let mut reader = LineReader::new(rt.alloc())?;
    let Ok(base) = read(rt.alloc(), &mut reader, &mut source) else {
        return Err(Fail::from("not founded"));
    };
    assert_eq!(rt; base.moment, 5);
    assert_eq!(rt; reader.next(&mut source), Line::Text(12));
    assert_eq!(rt; reader.line(), b"@9 1 account".as_slice());
    Ok(())
}

#[test]
fn a_new_planet_holds_500_units(rt: HostRuntime) -> Result<(), Fail> {
    let text = b"universe 7 3 9 5\nplayer 4\nplanet 2:33:5 4 -12 163\n.\n";
    let base = base_of(rt.alloc(), text)?;
    assert_eq!(rt; (base.seed, base.speed, base.capacity), (7, 3, 9));
    assert_eq!(rt; (base.moment, base.number), (5, 0));
    assert_eq!(rt; base.accounts.len(), 1);
    let account = &base.accounts[0];
    assert_eq!(rt; account.player, Player { k: 4 });
    assert_eq!(rt; account.techs.n, [0; 14]);
    assert_eq!(rt; account.units, 0);
    assert_eq!(rt; base.planets.len(), 1);
    let planet = &base.planets[0];
    assert_eq!(rt; planet.at, Coord { g: 2, s: 33, p: 5 });
    assert_eq!(rt; planet.owner, Player { k: 4 });
    assert_eq!(rt; planet.temperature, -12);
    assert_eq!(rt; planet.fields, 163);
    assert_eq!(rt; planet.levels, [0; 11]);
    assert_eq!(rt; planet.tenths, [10; 5]);
    assert_eq!(rt; planet.stock.metal, 1_800_000);
    assert_eq!(rt; planet.stock.crystal, 1_800_000);
    assert_eq!(rt; planet.stock.deuterium, 0);
    assert_eq!(rt; planet.units, [0; 22]);
    assert_eq!(rt; planet.buildings.len(), 0);
    Ok(())
}

// Five planets, each line before some line that it comes after.
const OUT_OF_ORDER: &[u8] = b"universe 7 1 9 0
player 30
player 2
planet 2:1:1 30 40 163
planet 1:10:1 2 40 163
player 10
planet 1:9:15 30 40 163
planet 1:10:3 10 40 163
planet 1:10:2 2 40 163
.
";

#[test]
fn players_come_by_number_and_planets_by_coordinates(rt: HostRuntime) -> Result<(), Fail> {
    let base = base_of(rt.alloc(), OUT_OF_ORDER)?;
    let first = Coord { g: 1, s: 9, p: 15 };
    let second = Coord { g: 1, s: 10, p: 1 };
    let third = Coord { g: 1, s: 10, p: 2 };
    let fourth = Coord { g: 1, s: 10, p: 3 };
    let fifth = Coord { g: 2, s: 1, p: 1 };
    let places = [first, second, third, fourth, fifth];
    assert_eq!(rt; base.planets.len(), places.len());
    for (planet, at) in base.planets.iter().zip(places.iter()) {
        assert_eq!(rt; planet.at, *at);
    }
    assert_eq!(rt; base.accounts.len(), 3);
    assert_eq!(rt; base.accounts[0].player, Player { k: 2 });
    assert_eq!(rt;
        base.accounts[0].planets.as_slice(),
        [second, third].as_slice()
    );
    assert_eq!(rt; base.accounts[1].player, Player { k: 10 });
    assert_eq!(rt; base.accounts[1].planets.as_slice(), [fourth].as_slice());
    assert_eq!(rt; base.accounts[2].player, Player { k: 30 });
    assert_eq!(rt;
        base.accounts[2].planets.as_slice(),
        [first, fifth].as_slice()
    );
    Ok(())
}

// The base of a heading, player 1, a planet of his with 20 fields at 1:1:1, and these lines.
fn built_of(alloc: Global, lines: &[u8]) -> Result<Base, Fail> {
    let mut text = Vec::from_slice(
        alloc,
        b"universe 7 1 1000 0\nplayer 1\nplanet 1:1:1 1 40 20\n",
    )?;
    text.extend_from_slice(lines)?;
    base_of(alloc, &text)
}

// The stocks in grains and the levels of the first planet of such a base.
fn first_built(alloc: Global, lines: &[u8]) -> Result<(Resources, [u8; 11]), Fail> {
    let base = built_of(alloc, lines)?;
    let Some(planet) = base.planets.first() else {
        return Err(Fail::from("no planet"));
    };
    let levels = planet.levels;
    Ok((planet.stock, levels))
}

// The first bad line of such a text.
fn bad_built(alloc: Global, lines: &[u8]) -> Result<Result<(usize, usize), u64>, Fail> {
    let mut text = Vec::from_slice(alloc, b"planet 1:1:1 1 40 20\n")?;
    text.extend_from_slice(lines)?;
    bad_behind(alloc, &text)
}

#[test]
fn a_stock_line_says_the_units_of_a_planet(rt: HostRuntime) -> Result<(), Fail> {
    let cases: [(&[u8], u64, u64, u64); 4] = [
        (b"stock 1:1:1 0 0 0\n.\n", 0, 0, 0),
        (b"stock 1:1:1 1 20 300\n.\n", 3600, 72000, 1_080_000),
        (b"stock 1:1:1 500 500 0\n.", 1_800_000, 1_800_000, 0),
        (
            b"planet 1:1:2 1 40 20\nstock 1:1:2 7 7 7\nstock 1:1:1 4000000000000 0 1\n.\n",
            14_400_000_000_000_000,
            0,
            3600,
        ),
    ];
    for (lines, metal, crystal, deuterium) in cases {
        let (stock, _) = first_built(rt.alloc(), lines)?;
        assert_eq!(rt;
            (stock.metal, stock.crystal, stock.deuterium),
            (metal, crystal, deuterium)
        );
    }
    Ok(())
}

#[test]
fn a_level_line_says_the_level_of_a_building(rt: HostRuntime) -> Result<(), Fail> {
    let cases: [(&[u8], [u8; 11]); 3] = [
        (
            b"level 1:1:1 metalmine 1\n.\n",
            [1, 0, 0, 0, 0, 0, 0, 0, 0, 0, 0],
        ),
        (
            b"level 1:1:1 nanite 8\nlevel 1:1:1 robotics 12\n.\n",
            [0, 0, 0, 0, 0, 0, 0, 12, 0, 0, 8],
        ),
        (
            b"planet 1:1:2 1 40 9\nlevel 1:1:2 lab 9\nlevel 1:1:1 lab 6\nstock 1:1:1 1 1 1\nlevel 1:1:1 crystalmine 14\n.",
            [0, 14, 0, 0, 0, 0, 0, 0, 0, 6, 0],
        ),
    ];
    for (lines, levels) in cases {
        let (_, said) = first_built(rt.alloc(), lines)?;
        assert_eq!(rt; said, levels);
    }
    Ok(())
}

#[test]
fn bad_stock_and_level_lines_are_named(rt: HostRuntime) -> Result<(), Fail> {
    let cases: [(&[u8], u64); 18] = [
        (b"stock 1:1:1 4000000000001 0 0\n.\n", 4),
        (b"stock 1:1:1 0 4000000000001 0\n.\n", 4),
        (b"stock 1:1:1 0 0 4000000000001\n.\n", 4),
        (b"stock 1:1:1 1 1\n.\n", 4),
        (b"stock 1:1:1 01 1 1\n.\n", 4),
        (b"stock 1:1:2 1 1 1\n.\n", 4),
        (b"stock 1:1:2 1 1 1\nplanet 1:1:2 1 40 20\n.\n", 4),
        (b"stock 1:1:1 500 500 0\nstock 1:1:1 500 500 0\n.\n", 5),
        (b"level 1:1:2 metalmine 1\n.\n", 4),
        (b"level 1:1:1 metalmine 0\n.\n", 4),
        (b"level 1:1:1 metalmine\n.\n", 4),
        (b"level 1:1:1 energy 1\n.\n", 4),
        (b"level 1:1:1 smallcargo 1\n.\n", 4),
        (b"level 1:1:1 nanite 9\n.\n", 4),
        (b"level 1:1:1 metalmine 1\nlevel 1:1:1 metalmine 1\n.\n", 5),
        (b"level 1:1:1 metalmine 1\nlevel 1:1:1 metalmine 2\n.\n", 5),
        (b"level 1:1:1 metalmine 21\n.\n", 4),
        (
            b"level 1:1:1 metalmine 20\nstock 1:1:1 1 1 1\nlevel 1:1:1 lab 1\n.\n",
            6,
        ),
    ];
    for (lines, number) in cases {
        assert_eq!(rt; bad_built(rt.alloc(), lines)?, Err(number));
    }
    Ok(())
}

#[test]
fn a_tech_line_says_the_level_of_a_technology(rt: HostRuntime) -> Result<(), Fail> {
    let base = base_of(
        rt.alloc(),
        b"universe 7 1 9 0\nplayer 2\ntech 2 laser 20\nplayer 1\ntech 1 graviton 1\ntech 1 laser 3\n.\n",
    )?;
    assert_eq!(rt; base.accounts.len(), 2);
    assert_eq!(rt;
        base.accounts[0].techs.n,
        [0, 3, 0, 0, 0, 0, 0, 0, 0, 0, 0, 0, 0, 1]
    );
    assert_eq!(rt;
        base.accounts[1].techs.n,
        [0, 20, 0, 0, 0, 0, 0, 0, 0, 0, 0, 0, 0, 0]
    );
    assert_eq!(rt; base.accounts[0].research.len(), 0);
    Ok(())
}

#[test]
fn a_units_line_says_the_units_of_a_planet(rt: HostRuntime) -> Result<(), Fail> {
    let base = built_of(
        rt.alloc(),
        b"units 1:1:1 probe 3\nplanet 1:1:2 1 40 20\nunits 1:1:1 largedome 1\nunits 1:1:1 smalldome 1\nunits 1:1:2 probe 99995\nplayer 2\nplanet 1:1:3 2 40 20\nunits 1:1:3 smallcargo 100000\n.\n",
    )?;
    assert_eq!(rt; (base.accounts.len(), base.planets.len()), (2, 3));
    let first = [
        0, 0, 0, 0, 0, 0, 0, 0, 0, 0, 0, 0, 3, 0, 0, 0, 0, 0, 0, 0, 1, 1,
    ];
    assert_eq!(rt; base.planets[0].units, first);
    assert_eq!(rt; base.planets[2].units[0], 100_000);
    assert_eq!(rt;
        (base.accounts[0].units, base.accounts[1].units),
        (100_000, 100_000)
    );
    Ok(())
}

#[test]
fn bad_tech_and_units_lines_are_named(rt: HostRuntime) -> Result<(), Fail> {
    let cases: [(&[u8], u64); 17] = [
        (b"tech 2 energy 1\n.\n", 4),
        (b"tech 2 energy 1\nplayer 2\n.\n", 4),
        (b"tech 1 energy 0\n.\n", 4),
        (b"tech 1 energy 21\n.\n", 4),
        (b"tech 1 graviton 2\n.\n", 4),
        (b"tech 1 metalmine 1\n.\n", 4),
        (b"tech 1 energy\n.\n", 4),
        (b"tech 1 energy 1\ntech 1 energy 2\n.\n", 5),
        (b"units 1:1:2 probe 1\n.\n", 4),
        (b"units 1:1:1 probe 0\n.\n", 4),
        (b"units 1:1:1 probe 100001\n.\n", 4),
        (b"units 1:1:1 smalldome 2\n.\n", 4),
        (b"units 1:1:1 largedome 2\n.\n", 4),
        (b"units 1:1:1 lab 1\n.\n", 4),
        (b"units 1:1:1 probe 1\nunits 1:1:1 probe 1\n.\n", 5),
        (
            b"units 1:1:1 probe 60000\nunits 1:1:1 launcher 40001\n.\n",
            5,
        ),
        (
            b"planet 1:1:2 1 40 20\nunits 1:1:1 probe 60000\nunits 1:1:2 probe 40001\n.\n",
            6,
        ),
    ];
    for (lines, number) in cases {
        assert_eq!(rt; bad_built(rt.alloc(), lines)?, Err(number));
    }
    Ok(())
}

#[test]
fn lines_of_each_form_found_one_universe(rt: HostRuntime) -> Result<(), Fail> {
    let base = built_of(
        rt.alloc(),
        b"stock 1:1:1 1 1 1\nlevel 1:1:1 lab 1\nplayer 2\nplanet 1:1:2 2 40 20\ntech 2 ion 1\nunits 1:1:2 gauss 2\n.\n",
    )?;
    assert_eq!(rt; (base.accounts.len(), base.planets.len()), (2, 2));
    assert_eq!(rt; (base.accounts[0].units, base.accounts[1].units), (0, 2));
    Ok(())
}

#[test]
fn a_fault_ends_the_reading(rt: HostRuntime) -> Result<(), Fail> {
    let text = b"universe 7 3 9 5\nplayer 4\nplayer 5\n.\n";
    let mut source = MemorySource::new(text, &[2]).in_pieces(20);
    let mut reader = LineReader::new(rt.alloc())?;
    let founding = read(rt.alloc(), &mut reader, &mut source);
    assert!(rt; matches!(&founding, Err(FoundingFault::ReadFault)));
    assert_eq!(rt; reader.next(&mut source), Line::Text(8));
    assert_eq!(rt; reader.line(), b"player 4".as_slice());
    Ok(())
}

// A heading, so many players and so many planets, two for each player from the first on, and then the ending.
fn large_text(
    alloc: Global,
    players: u32,
    planets: u32,
    ending: &[u8],
) -> Result<Vec<u8>, AllocError> {
    let mut text = Vec::from_slice(alloc, b"universe 7 1 1000 0\n")?;
    for i in 0..players {
        let k = i + 1;
        let line = format!(in alloc; "player {k}\n")?;
        text.extend_from_slice(line.as_bytes())?;
    }
    for i in 0..planets {
        let galaxy = i / 7485 + 1;
        let system = i / 15 % 499 + 1;
        let position = i % 15 + 1;
        let owner = i / 2 + 1;
        let line = format!(in alloc; "planet {galaxy}:{system}:{position} {owner} 40 163\n")?;
        text.extend_from_slice(line.as_bytes())?;
    }
    text.extend_from_slice(ending)?;
    Ok(text)
}

#[test]
fn a_universe_has_10000_players_and_20000_planets_at_most(rt: HostRuntime) -> Result<(), Fail> {
    let cases: [(u32, u32, &[u8], Result<(usize, usize), u64>); 4] = [
        (10000, 20000, b".\n", Ok((10000, 20000))),
        (10000, 20000, b"planet 9:1:1 10000 40 163\n.\n", Err(30002)),
        (10000, 0, b".\n", Ok((10000, 0))),
        (10001, 0, b".\n", Err(10002)),
    ];
    for (players, planets, ending, want) in cases {
        let text = large_text(rt.alloc(), players, planets, ending)?;
        assert_eq!(rt; counts_of(rt.alloc(), &text)?, want);
    }
    Ok(())
}
