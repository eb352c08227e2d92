use crate::{Call, Form, Request, coord, player, ships, system};
use base_ids::{Coord, FleetNumber, Player, System};
use base_text::Bytes;
use catalog::{
    Amounts, Building, Count, Kind, Mission, Ships, SpeedSetting, Technology, Tenths, Unit, Work,
};
use std::test::Fail;

const HERE: Coord = Coord { g: 1, s: 1, p: 1 };

const THERE: Coord = Coord {
    g: 9,
    s: 499,
    p: 15,
};

const TWO_KINDS: Ships = Ships {
    n: [2, 0, 0, 0, 1, 0, 0, 0, 0, 0, 0, 0, 0],
};

const CARGO: Amounts = Amounts { m: 3, c: 4, d: 5 };

#[test]
fn each_form_is_read_with_its_arguments_in_place(rt: HostRuntime) {
    let cases: [(&[u8], Request); 11] = [
        (b"planet 9:499:15", Request::Planet(THERE)),
        (b"account", Request::Account),
        (b"fleets", Request::Fleets),
        (b"system 4:30", Request::System(System { g: 4, s: 30 })),
        (
            b"build 1:1:1 metalmine",
            Request::Build(
                HERE,
                Building {
                    kind: Kind::MetalMine,
                },
            ),
        ),
        (
            b"research 1:1:1 graviton",
            Request::Research(
                HERE,
                Technology {
                    kind: Kind::Graviton,
                },
            ),
        ),
        (
            b"yard 1:1:1 largedome 100000",
            Request::Yard(
                HERE,
                Unit {
                    kind: Kind::LargeDome,
                },
                Count { n: 100_000 },
            ),
        ),
        (
            b"set 1:1:1 satellite 0",
            Request::Set(
                HERE,
                Work {
                    kind: Kind::Satellite,
                },
                Tenths { n: 0 },
            ),
        ),
        (
            b"send 1:1:1 9:499:15 harvest 10 smallcargo=2,cruiser=1 3 4 5",
            Request::Send(
                HERE,
                THERE,
                Mission::Harvest,
                SpeedSetting { p: 10 },
                TWO_KINDS,
                CARGO,
            ),
        ),
        (
            b"join 7 1:1:1 9:499:15 1 smallcargo=2,cruiser=1 3 4 5",
            Request::Join(
                FleetNumber { f: 7 },
                HERE,
                THERE,
                SpeedSetting { p: 1 },
                TWO_KINDS,
                CARGO,
            ),
        ),
        (
            b"recall 1099511627775",
            Request::Recall(FleetNumber {
                f: 1_099_511_627_775,
            }),
        ),
    ];
    for (line, want) in cases {
        assert!(rt; Request::read(line) == Some(want));
    }
}

#[test]
fn requests_are_written_as_they_were_read(rt: HostRuntime) -> Result<(), Fail> {
    let cases: [&[u8]; 24] = [
        b"planet 1:1:1",
        b"planet 9:499:15",
        b"account",
        b"fleets",
        b"system 1:1",
        b"system 9:499",
        b"build 2:3:4 nanite",
        b"research 2:3:4 energy",
        b"yard 2:3:4 smallcargo 1",
        b"yard 2:3:4 satellite 99999",
        b"yard 2:3:4 launcher 100000",
        b"set 2:3:4 metalmine 0",
        b"set 2:3:4 crystalmine 9",
        b"set 2:3:4 deuteriumsynth 10",
        b"set 2:3:4 solarplant 1",
        b"send 1:2:3 4:5:6 transport 1 probe=1 0 0 0",
        b"send 1:2:3 4:5:6 deploy 9 smallcargo=100000 4000000000000 4000000000000 4000000000000",
        b"send 1:2:3 1:2:3 attack 10 largecargo=1,deathstar=10,probe=7 0 0 1",
        b"send 1:2:3 4:5:6 harvest 5 smallcargo=1,largecargo=2,lightfighter=3,heavyfighter=4,cruiser=5,battleship=6,battlecruiser=7,bomber=8,destroyer=9,deathstar=10,recycler=11,colonyship=12,probe=13 1 2 3",
        b"join 1 1:2:3 4:5:6 2 lightfighter=9 0 0 0",
        b"join 1099511627775 1:2:3 4:5:6 10 lightfighter=9 10 20 30",
        b"recall 1",
        b"recall 10",
        b"recall 1099511627775",
    ];
    for line in cases {
        let req = Request::read(line).ok_or("no request")?;
        let mut out = Bytes::new(rt.alloc());
        out.push(b"> ")?;
        req.write(rt.alloc(), &mut out)?;
        let mut want = Bytes::new(rt.alloc());
        want.push(b"> ")?;
        want.push(line)?;
        assert!(rt; out == want);
    }
    Ok(())
}

#[test]
fn lines_with_other_spaces_or_words_spell_no_request(rt: HostRuntime) {
    let cases: [&[u8]; 35] = [
        b"",
        b" ",
        b"account ",
        b" account",
        b"account  ",
        b"account 1",
        b"fleets all",
        b"planet",
        b"planet ",
        b"planet  1:1:1",
        b"planet 1:1:1 ",
        b" planet 1:1:1",
        b"planet 1:1:1 1:1:1",
        b"planet\t1:1:1",
        b"planet 1:1:1\r",
        b"system",
        b"system 1",
        b"system 1:1:1",
        b"build 1:1:1",
        b"build metalmine",
        b"build metalmine 1:1:1",
        b"build 1:1:1 metalmine ",
        b"build 1:1:1 metalmine 1",
        b"research 1:1:1",
        b"research 1:1:1 laser 2",
        b"yard 1:1:1 launcher",
        b"yard 1:1:1 1 launcher",
        b"yard 1:1:1 launcher 1 1",
        b"set 1:1:1 metalmine",
        b"set 1:1:1 metalmine 1 1",
        b"set 1:1:1 1",
        b"recall",
        b"recall ",
        b"recall 1 1",
        b"recall 1:1:1",
    ];
    for line in cases {
        assert!(rt; Request::read(line).is_none());
    }
}

#[test]
fn lines_with_words_of_another_form_spell_no_request(rt: HostRuntime) {
    let cases: [&[u8]; 36] = [
        b"Planet 1:1:1",
        b"PLANET 1:1:1",
        b"ACCOUNT",
        b"accounts",
        b"fleet",
        b"reports",
        b"rank",
        b"moon 1:1:1",
        b"p\xecanet 1:1:1",
        b"planet 1:1:1\xff",
        b"planet \xb1:1:1",
        b"account\x00",
        b"account\xff",
        b"build 1:1:1 MetalMine",
        b"build 1:1:1 fusion",
        b"build 1:1:1 laser",
        b"build 1:1:1 launcher",
        b"build 1:1:1 smallcargo",
        b"build 1:1:1 satellite",
        b"build 1:1:1 moon",
        b"research 1:1:1 metalmine",
        b"research 1:1:1 probe",
        b"research 1:1:1 Laser",
        b"research 1:1:1 astrophysics",
        b"yard 1:1:1 metalmine 1",
        b"yard 1:1:1 laser 1",
        b"yard 1:1:1 metalstore 1",
        b"yard 1:1:1 missile 1",
        b"set 1:1:1 metalstore 1",
        b"set 1:1:1 robotics 1",
        b"set 1:1:1 smallcargo 1",
        b"set 1:1:1 energy 1",
        b"set 1:1:1 fusion 1",
        b"1 account",
        b"@5 1 account",
        b"recall probe=1",
    ];
    for line in cases {
        assert!(rt; Request::read(line).is_none());
    }
}

#[test]
fn numbers_of_requests_stop_at_their_bounds(rt: HostRuntime) {
    let cases: [(&[u8], bool); 37] = [
        (b"yard 1:1:1 launcher 0", false),
        (b"yard 1:1:1 launcher 1", true),
        (b"yard 1:1:1 launcher 100000", true),
        (b"yard 1:1:1 launcher 100001", false),
        (b"yard 1:1:1 launcher 4294967297", false),
        (b"yard 1:1:1 launcher 18446744073709551616", false),
        (b"yard 1:1:1 launcher 18446744073709551617", false),
        (b"yard 1:1:1 launcher 01", false),
        (b"yard 1:1:1 launcher +1", false),
        (b"yard 1:1:1 launcher -1", false),
        (b"yard 1:1:1 launcher 1a", false),
        (b"yard 1:1:1 launcher 1\xb0", false),
        (b"yard 1:1:1 launcher ", false),
        (b"set 1:1:1 metalmine 0", true),
        (b"set 1:1:1 metalmine 10", true),
        (b"set 1:1:1 metalmine 11", false),
        (b"set 1:1:1 metalmine 00", false),
        (b"set 1:1:1 metalmine 010", false),
        (b"set 1:1:1 metalmine 256", false),
        (b"set 1:1:1 metalmine 18446744073709551616", false),
        (b"set 1:1:1 metalmine ", false),
        (b"recall 0", false),
        (b"recall 1", true),
        (b"recall 1099511627775", true),
        (b"recall 1099511627776", false),
        (b"recall 18446744073709551617", false),
        (b"recall 01", false),
        (b"planet 1:1:0", false),
        (b"planet 1:1:16", false),
        (b"planet 1:1:01", false),
        (b"planet 01:1:1", false),
        (b"planet 10:1:1", false),
        (b"planet 1:500:1", false),
        (b"system 0:1", false),
        (b"system 10:1", false),
        (b"system 1:500", false),
        (b"system 1:01", false),
    ];
    for (line, want) in cases {
        assert!(rt; Request::read(line).is_some() == want);
    }
}

#[test]
fn flights_have_all_their_words_within_their_bounds(rt: HostRuntime) {
    let cases: [(&[u8], bool); 40] = [
        (b"send 1:1:1 1:1:2 attack 1 probe=1 0 0 0", true),
        (b"send 1:1:1 1:1:2 attack 0 probe=1 0 0 0", false),
        (b"send 1:1:1 1:1:2 attack 10 probe=1 0 0 0", true),
        (b"send 1:1:1 1:1:2 attack 11 probe=1 0 0 0", false),
        (b"send 1:1:1 1:1:2 attack 01 probe=1 0 0 0", false),
        (b"send 1:1:1 1:1:2 attack 257 probe=1 0 0 0", false),
        (b"send 1:1:1 1:1:2 attack probe=1 0 0 0", false),
        (b"send 1:1:1 1:1:2 1 probe=1 0 0 0", false),
        (b"send 1:1:1 attack 1 probe=1 0 0 0", false),
        (b"send 1:1:1 1:1:2 attack 1 probe=1 0 0", false),
        (b"send 1:1:1 1:1:2 attack 1 probe=1 0 0 0 0", false),
        (b"send 1:1:1 1:1:2 attack 1 probe=1 0 0 0 ", false),
        (b"send 1:1:1 1:1:2 attack 1  0 0 0", false),
        (b"send 1:1:1 1:1:2 attack 1 0 0 0", false),
        (b"send 1:1:1 1:1:2 attack 1 probe=1 0  0", false),
        (b"send 1:1:1 1:1:2 attack  1 probe=1 0 0 0", false),
        (b"send 1:1:1 1:1:2 spy 1 probe=1 0 0 0", false),
        (b"send 1:1:1 1:1:2 settle 1 colonyship=1 0 0 0", false),
        (b"send 1:1:1 1:1:2 Attack 1 probe=1 0 0 0", false),
        (b"send 1:1:1 1:1:2 attack 1 Probe=1 0 0 0", false),
        (b"send 1:1:1 1:1:2 attack 1 satellite=1 0 0 0", false),
        (b"send 1:1:1 1:1:16 attack 1 probe=1 0 0 0", false),
        (b"send 1:01:1 1:1:2 attack 1 probe=1 0 0 0", false),
        (b"send 7 1:1:1 1:1:2 1 probe=1 0 0 0", false),
        (b"send 1:1:1 1:1:2 attack 1 probe=1 4000000000000 0 0", true),
        (
            b"send 1:1:1 1:1:2 attack 1 probe=1 4000000000001 0 0",
            false,
        ),
        (b"send 1:1:1 1:1:2 attack 1 probe=1 0 4000000000000 0", true),
        (
            b"send 1:1:1 1:1:2 attack 1 probe=1 0 4000000000001 0",
            false,
        ),
        (b"send 1:1:1 1:1:2 attack 1 probe=1 0 0 4000000000000", true),
        (
            b"send 1:1:1 1:1:2 attack 1 probe=1 0 0 4000000000001",
            false,
        ),
        (
            b"send 1:1:1 1:1:2 attack 1 probe=1 0 0 18446744073709551616",
            false,
        ),
        (b"send 1:1:1 1:1:2 attack 1 probe=1 00 0 0", false),
        (b"join 1 1:1:1 1:1:2 1 probe=1 0 0 0", true),
        (b"join 0 1:1:1 1:1:2 1 probe=1 0 0 0", false),
        (b"join 1099511627775 1:1:1 1:1:2 1 probe=1 0 0 0", true),
        (b"join 1099511627776 1:1:1 1:1:2 1 probe=1 0 0 0", false),
        (b"join 1:1:1 1:1:2 1 probe=1 0 0 0", false),
        (b"join 1 1:1:1 1:1:2 attack 1 probe=1 0 0 0", false),
        (b"join 1 1:1:1 1:1:2 1 probe=1 0 0 4000000000001", false),
        (b"join 1 1:1:1 1:1:2 1 probe=1 0 0 0 1", false),
    ];
    for (line, want) in cases {
        assert!(rt; Request::read(line).is_some() == want);
    }
}

#[test]
fn ships_are_read_as_a_count_for_each_kind(rt: HostRuntime) {
    let cases: [(&[u8], Ships); 5] = [
        (
            b"smallcargo=1",
            Ships {
                n: [1, 0, 0, 0, 0, 0, 0, 0, 0, 0, 0, 0, 0],
            },
        ),
        (
            b"probe=100000",
            Ships {
                n: [0, 0, 0, 0, 0, 0, 0, 0, 0, 0, 0, 0, 100_000],
            },
        ),
        (b"smallcargo=2,cruiser=1", TWO_KINDS),
        (
            b"battleship=10,battlecruiser=20",
            Ships {
                n: [0, 0, 0, 0, 0, 10, 20, 0, 0, 0, 0, 0, 0],
            },
        ),
        (
            b"smallcargo=1,largecargo=2,lightfighter=3,heavyfighter=4,cruiser=5,battleship=6,battlecruiser=7,bomber=8,destroyer=9,deathstar=10,recycler=11,colonyship=12,probe=13",
            Ships {
                n: [1, 2, 3, 4, 5, 6, 7, 8, 9, 10, 11, 12, 13],
            },
        ),
    ];
    for (word, want) in cases {
        assert!(rt; ships(word) == Some(want));
    }
}

#[test]
fn other_words_are_no_ships(rt: HostRuntime) {
    let cases: [&[u8]; 36] = [
        b"",
        b",",
        b"=",
        b"=1",
        b"smallcargo",
        b"smallcargo=",
        b"smallcargo=0",
        b"smallcargo=01",
        b"smallcargo=100001",
        b"smallcargo=4294967297",
        b"smallcargo=18446744073709551616",
        b"smallcargo=18446744073709551617",
        b"smallcargo=-1",
        b"smallcargo==1",
        b"smallcargo=1=1",
        b"smallcargo:1",
        b"smallcargo 1",
        b"smallcargo=1 ",
        b"smallcargo=1,",
        b",smallcargo=1",
        b"smallcargo=1,,cruiser=1",
        b"smallcargo=1,smallcargo=1",
        b"cruiser=1,smallcargo=2",
        b"cruiser=1,cruiser=2",
        b"smallcargo=1;cruiser=1",
        b"smallcargo=1,cruiser=0",
        b"smallcargo=0,cruiser=1",
        b"satellite=1",
        b"probe=1,satellite=1",
        b"launcher=1",
        b"metalmine=1",
        b"laser=1",
        b"frigate=1",
        b"SmallCargo=1",
        b"smallcargo=1\xff",
        b"41=1",
    ];
    for word in cases {
        assert!(rt; ships(word).is_none());
    }
}

#[test]
fn calls_tell_reading_player_and_request(rt: HostRuntime) -> Result<(), Fail> {
    let cases: [(&[u8], Option<u64>, u32, Request); 6] = [
        (b"1 account", None, 1, Request::Account),
        (b"65535 planet 1:1:1", None, 65535, Request::Planet(HERE)),
        (b"@0 1 planet 9:499:15", Some(0), 1, Request::Planet(THERE)),
        (b"@1 2 fleets", Some(1), 2, Request::Fleets),
        (
            b"@3600 17 system 4:30",
            Some(3600),
            17,
            Request::System(System { g: 4, s: 30 }),
        ),
        (
            b"@1099511627775 65535 recall 1",
            Some(1_099_511_627_775),
            65535,
            Request::Recall(FleetNumber { f: 1 }),
        ),
    ];
    for (line, reading, k, req) in cases {
        let call = Call::read(line, true).ok_or("no call")?;
        assert!(rt; call.reading == reading);
        assert!(rt; call.player.k == k);
        assert!(rt; call.req == req);
        let of_connection = if reading.is_none() { Some(call) } else { None };
        assert!(rt; Call::read(line, false) == of_connection);
    }
    Ok(())
}

#[test]
fn other_lines_are_no_calls(rt: HostRuntime) {
    let cases: [&[u8]; 34] = [
        b"",
        b" ",
        b"1",
        b"1 ",
        b"account",
        b"1  account",
        b"1 account ",
        b" 1 account",
        b"0 account",
        b"01 account",
        b"+1 account",
        b"65536 account",
        b"4294967297 account",
        b"18446744073709551617 account",
        b"1 1 account",
        b"1 @5 account",
        b"\xb1 account",
        b"@",
        b"@ 1 account",
        b"@5",
        b"@5 1",
        b"@5 account",
        b"@5  1 account",
        b"@ 5 1 account",
        b"@@5 1 account",
        b"@5 @6 1 account",
        b"@05 1 account",
        b"@00 1 account",
        b"@-1 1 account",
        b"@1099511627776 1 account",
        b"@18446744073709551616 1 account",
        b"@5 0 account",
        b"@5 65536 account",
        b"@5 1 account 2",
    ];
    for line in cases {
        assert!(rt; Call::read(line, true).is_none());
        assert!(rt; Call::read(line, false).is_none());
    }
}

#[test]
fn coordinates_are_read_from_1_1_1_to_9_499_15(rt: HostRuntime) {
    let cases: [(&[u8], Option<Coord>); 25] = [
        (b"1:1:1", Some(HERE)),
        (b"4:30:7", Some(Coord { g: 4, s: 30, p: 7 })),
        (b"9:499:15", Some(THERE)),
        (b"0:1:1", None),
        (b"1:0:1", None),
        (b"1:1:0", None),
        (b"10:1:1", None),
        (b"1:500:1", None),
        (b"1:1:16", None),
        (b"257:1:1", None),
        (b"1:65537:1", None),
        (b"1:1:257", None),
        (b"01:1:1", None),
        (b"1:01:1", None),
        (b"1:1:01", None),
        (b"1:1", None),
        (b"1:1:", None),
        (b":1:1", None),
        (b"1:1:1:1", None),
        (b"", None),
        (b"a:1:1", None),
        (b"+1:1:1", None),
        (b"\xb1:1:1", None),
        (b"1:1:1\xff", None),
        (b"1:1:1 ", None),
    ];
    for (word, want) in cases {
        assert!(rt; coord(word) == want);
    }
}

#[test]
fn systems_are_read_from_1_1_to_9_499(rt: HostRuntime) {
    let cases: [(&[u8], Option<System>); 16] = [
        (b"1:1", Some(System { g: 1, s: 1 })),
        (b"4:30", Some(System { g: 4, s: 30 })),
        (b"9:499", Some(System { g: 9, s: 499 })),
        (b"0:1", None),
        (b"1:0", None),
        (b"10:1", None),
        (b"1:500", None),
        (b"257:1", None),
        (b"1:65537", None),
        (b"01:1", None),
        (b"1:01", None),
        (b"1:1:1", None),
        (b"1:", None),
        (b":1", None),
        (b"1", None),
        (b"", None),
    ];
    for (word, want) in cases {
        assert!(rt; system(word) == want);
    }
}

#[test]
fn players_are_read_from_1_to_65535(rt: HostRuntime) {
    let cases: [(&[u8], Option<Player>); 8] = [
        (b"1", Some(Player { k: 1 })),
        (b"65535", Some(Player { k: 65535 })),
        (b"0", None),
        (b"65536", None),
        (b"4294967297", None),
        (b"07", None),
        (b"1 ", None),
        (b"", None),
    ];
    for (word, want) in cases {
        assert!(rt; player(word) == want);
    }
}

#[test]
fn forms_have_their_words_and_numbers(rt: HostRuntime) -> Result<(), Fail> {
    let cases: [(&str, u8); 11] = [
        ("planet", 1),
        ("account", 2),
        ("fleets", 3),
        ("system", 4),
        ("build", 5),
        ("research", 6),
        ("yard", 7),
        ("set", 8),
        ("send", 9),
        ("join", 10),
        ("recall", 11),
    ];
    for (word, number) in cases {
        let form = Form::read(word.as_bytes()).ok_or("no form")?;
        assert_eq!(rt; form.number(), number, "{word}");
        assert_eq!(rt; form.word(), word);
    }
    Ok(())
}

#[test]
fn other_words_are_of_no_form(rt: HostRuntime) {
    let cases: [&[u8]; 7] = [
        b"", b"Planet", b"planets", b"plane", b" planet", b"reports", b"1",
    ];
    for word in cases {
        assert!(rt; Form::read(word).is_none());
    }
}

#[test]
fn requests_are_of_the_form_that_they_begin_with(rt: HostRuntime) {
    let cases: [(&[u8], Form); 11] = [
        (b"planet 1:1:1", Form::Planet),
        (b"account", Form::Account),
        (b"fleets", Form::Fleets),
        (b"system 1:1", Form::System),
        (b"build 1:1:1 lab", Form::Build),
        (b"research 1:1:1 ion", Form::Research),
        (b"yard 1:1:1 gauss 1", Form::Yard),
        (b"set 1:1:1 solarplant 1", Form::Set),
        (b"send 1:1:1 1:1:2 attack 1 probe=1 0 0 0", Form::Send),
        (b"join 1 1:1:1 1:1:2 1 probe=1 0 0 0", Form::Join),
        (b"recall 1", Form::Recall),
    ];
    for (line, want) in cases {
        let form = Request::read(line).map(|req| req.form());
        assert!(rt; form == Some(want));
    }
}
