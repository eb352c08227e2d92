use crate::{
    AccountHead, FleetLine, PlanetHead, Refused, Reply, RunningBatch, RunningBuilding,
    RunningResearch, Stage, Units, head, push_account, push_arrives, push_at, push_back,
    push_building, push_debris, push_energy, push_fleet, push_hourly, push_levels, push_limit,
    push_own_planet, push_planet, push_research, push_settings, push_starts, push_stock,
    push_technologies, push_units, push_waiting_building, push_waiting_research, push_waits,
    push_yard, push_yard_waiting, refused, write_reply,
};
use base_ids::{Coord, Player};
use base_text::Bytes;
use catalog::{Kind, Mission};
use std::test::Fail;

const LOW: Coord = Coord { g: 1, s: 1, p: 1 };

const MIDDLE: Coord = Coord { g: 2, s: 30, p: 4 };

const HIGH: Coord = Coord {
    g: 9,
    s: 499,
    p: 15,
};

const NONE: Units = Units {
    metal: 0,
    crystal: 0,
    deuterium: 0,
};

const SOME: Units = Units {
    metal: 520,
    crystal: 51,
    deuterium: 7,
};

const MOST: Units = Units {
    metal: u64::MAX,
    crystal: u64::MAX,
    deuterium: u64::MAX,
};

#[test]
fn writes_the_head_of_a_planet(rt: HostRuntime) -> Result<(), Fail> {
    let cases: [(Coord, u32, i16, u16, u16, &[u8]); 4] = [
        (LOW, 1, -130, 1, 0, b"planet 1:1:1 1 -130 1 0\n"),
        (
            HIGH,
            65535,
            260,
            400,
            399,
            b"planet 9:499:15 65535 260 400 399\n",
        ),
        (MIDDLE, 7, 0, 163, 12, b"planet 2:30:4 7 0 163 12\n"),
        (
            MIDDLE,
            7,
            -1,
            u16::MAX,
            u16::MAX,
            b"planet 2:30:4 7 -1 65535 65535\n",
        ),
    ];
    let mut body = Bytes::new(rt.alloc());
    for (at, k, temperature, fields, used, want) in cases {
        assert!(rt; 1 <= k && k <= 65535);
        body.clear();
        let planet = PlanetHead {
            at,
            owner: Player { k },
            temperature,
            fields,
            used,
        };
        push_planet(rt.alloc(), &mut body, planet)?;
        assert!(rt; body.as_slice() == want);
    }
    Ok(())
}

#[test]
fn writes_what_a_planet_has(rt: HostRuntime) -> Result<(), Fail> {
    let mut body = Bytes::new(rt.alloc());
    push_stock(rt.alloc(), &mut body, SOME)?;
    push_stock(rt.alloc(), &mut body, NONE)?;
    push_hourly(rt.alloc(), &mut body, SOME)?;
    push_limit(rt.alloc(), &mut body, SOME)?;
    assert!(rt;
        body.as_slice()
            == b"stock 520 51 7\nstock 0 0 0\nhourly 520 51 7\nlimit 520 51 7\n".as_slice()
    );
    body.clear();
    push_limit(rt.alloc(), &mut body, MOST)?;
    assert!(rt;
        body.as_slice()
            == b"limit 18446744073709551615 18446744073709551615 18446744073709551615\n".as_slice()
    );
    body.clear();
    push_energy(rt.alloc(), &mut body, 22, u64::MAX)?;
    push_debris(rt.alloc(), &mut body, u64::MAX, 300)?;
    assert!(rt;
        body.as_slice()
            == b"energy 22 18446744073709551615\ndebris 18446744073709551615 300\n".as_slice()
    );
    Ok(())
}

#[test]
fn lists_buildings_by_their_numbers(rt: HostRuntime) -> Result<(), Fail> {
    let cases: [([u8; 11], &[u8]); 4] = [
        ([0; 11], b""),
        (
            [1, 2, 3, 4, 5, 6, 7, 8, 9, 10, 255],
            b"level metalmine 1\nlevel crystalmine 2\nlevel deuteriumsynth 3\nlevel solarplant 4\nlevel metalstore 5\nlevel crystalstore 6\nlevel deuteriumtank 7\nlevel robotics 8\nlevel shipyard 9\nlevel lab 10\nlevel nanite 255\n",
        ),
        ([0, 0, 0, 0, 0, 0, 0, 0, 0, 0, 1], b"level nanite 1\n"),
        (
            [30, 0, 0, 12, 0, 0, 0, 0, 0, 0, 0],
            b"level metalmine 30\nlevel solarplant 12\n",
        ),
    ];
    let mut body = Bytes::new(rt.alloc());
    for (levels, want) in cases {
        body.clear();
        push_levels(rt.alloc(), &mut body, &levels)?;
        assert!(rt; body.as_slice() == want);
    }
    Ok(())
}

#[test]
fn lists_settings_other_than_10(rt: HostRuntime) -> Result<(), Fail> {
    let cases: [([u8; 5], &[u8]); 4] = [
        ([10, 10, 10, 10, 10], b""),
        (
            [0, 1, 2, 3, 4],
            b"set metalmine 0\nset crystalmine 1\nset deuteriumsynth 2\nset solarplant 3\nset satellite 4\n",
        ),
        ([10, 10, 10, 10, 0], b"set satellite 0\n"),
        ([9, 10, 10, 10, 10], b"set metalmine 9\n"),
    ];
    let mut body = Bytes::new(rt.alloc());
    for (settings, want) in cases {
        body.clear();
        push_settings(rt.alloc(), &mut body, &settings)?;
        assert!(rt; body.as_slice() == want);
    }
    Ok(())
}

#[test]
fn lists_units_by_their_numbers(rt: HostRuntime) -> Result<(), Fail> {
    let cases: [([u32; 22], &[u8]); 3] = [
        ([0; 22], b""),
        (
            [
                1,
                2,
                3,
                4,
                5,
                6,
                7,
                8,
                9,
                10,
                11,
                12,
                13,
                14,
                15,
                16,
                17,
                18,
                19,
                20,
                100_000,
                u32::MAX,
            ],
            b"units smallcargo 1\nunits largecargo 2\nunits lightfighter 3\nunits heavyfighter 4\nunits cruiser 5\nunits battleship 6\nunits battlecruiser 7\nunits bomber 8\nunits destroyer 9\nunits deathstar 10\nunits recycler 11\nunits colonyship 12\nunits probe 13\nunits satellite 14\nunits launcher 15\nunits lightlaser 16\nunits heavylaser 17\nunits gauss 18\nunits ioncannon 19\nunits plasmaturret 20\nunits smalldome 100000\nunits largedome 4294967295\n",
        ),
        (
            [
                0, 0, 0, 0, 0, 0, 0, 0, 0, 0, 0, 0, 0, 3, 40, 0, 0, 0, 0, 0, 0, 0,
            ],
            b"units satellite 3\nunits launcher 40\n",
        ),
    ];
    let mut body = Bytes::new(rt.alloc());
    for (counts, want) in cases {
        body.clear();
        push_units(rt.alloc(), &mut body, &counts)?;
        assert!(rt; body.as_slice() == want);
    }
    Ok(())
}

#[test]
fn lists_technologies_by_their_numbers(rt: HostRuntime) -> Result<(), Fail> {
    let cases: [([u8; 14], &[u8]); 3] = [
        ([0; 14], b""),
        (
            [1, 2, 3, 4, 5, 6, 7, 8, 9, 10, 11, 12, 13, 255],
            b"tech energy 1\ntech laser 2\ntech ion 3\ntech hyperspace 4\ntech plasma 5\ntech combustion 6\ntech impulse 7\ntech hyperdrive 8\ntech espionage 9\ntech computer 10\ntech weapons 11\ntech shielding 12\ntech armour 13\ntech graviton 255\n",
        ),
        (
            [0, 0, 0, 0, 0, 0, 0, 0, 0, 20, 0, 0, 0, 1],
            b"tech computer 20\ntech graviton 1\n",
        ),
    ];
    let mut body = Bytes::new(rt.alloc());
    for (levels, want) in cases {
        body.clear();
        push_technologies(rt.alloc(), &mut body, &levels)?;
        assert!(rt; body.as_slice() == want);
    }
    Ok(())
}

#[test]
fn writes_the_queues_of_a_planet(rt: HostRuntime) -> Result<(), Fail> {
    let mut body = Bytes::new(rt.alloc());
    push_building(
        rt.alloc(),
        &mut body,
        RunningBuilding {
            number: 5,
            kind: Kind::DeuteriumSynth,
            level: 12,
            second: 3600,
        },
    )?;
    push_building(
        rt.alloc(),
        &mut body,
        RunningBuilding {
            number: u64::MAX,
            kind: Kind::DeuteriumSynth,
            level: 255,
            second: u64::MAX,
        },
    )?;
    push_waiting_building(rt.alloc(), &mut body, 6, Kind::MetalMine)?;
    assert!(rt;
        body.as_slice()
            == b"building 5 deuteriumsynth 12 3600\nbuilding 18446744073709551615 deuteriumsynth 255 18446744073709551615\nwaiting 6 metalmine\n".as_slice()
    );
    body.clear();
    push_yard(
        rt.alloc(),
        &mut body,
        RunningBatch {
            number: 7,
            kind: Kind::LargeDome,
            left: 9,
            second: 100,
        },
    )?;
    push_yard(
        rt.alloc(),
        &mut body,
        RunningBatch {
            number: 0,
            kind: Kind::LargeDome,
            left: u32::MAX,
            second: 0,
        },
    )?;
    push_yard_waiting(rt.alloc(), &mut body, 8, Kind::Satellite, 100_000)?;
    assert!(rt;
        body.as_slice()
            == b"yard 7 largedome 9 100\nyard 0 largedome 4294967295 0\nyardwaiting 8 satellite 100000\n".as_slice()
    );
    Ok(())
}

#[test]
fn writes_an_account(rt: HostRuntime) -> Result<(), Fail> {
    let mut body = Bytes::new(rt.alloc());
    push_account(
        rt.alloc(),
        &mut body,
        AccountHead {
            player: Player { k: 3 },
            units: 40,
            fleets: 0,
            slots: 1,
        },
    )?;
    push_account(
        rt.alloc(),
        &mut body,
        AccountHead {
            player: Player { k: 65535 },
            units: u32::MAX,
            fleets: 17,
            slots: 21,
        },
    )?;
    push_own_planet(rt.alloc(), &mut body, HIGH)?;
    assert!(rt;
        body.as_slice()
            == b"account 3 40 0 1\naccount 65535 4294967295 17 21\nplanet 9:499:15\n".as_slice()
    );
    body.clear();
    push_research(
        rt.alloc(),
        &mut body,
        RunningResearch {
            number: 4,
            kind: Kind::Hyperspace,
            level: 6,
            second: 77,
            at: MIDDLE,
        },
    )?;
    push_waiting_research(rt.alloc(), &mut body, 9, Kind::Graviton, LOW)?;
    assert!(rt;
        body.as_slice()
            == b"research 4 hyperspace 6 77 2:30:4\nwaiting 9 graviton 1:1:1\n".as_slice()
    );
    Ok(())
}

#[test]
fn writes_fleets(rt: HostRuntime) -> Result<(), Fail> {
    let cases: [(u64, Mission, Stage, Units, [u32; 13], &[u8]); 4] = [
        (
            8,
            Mission::Attack,
            Stage::Out,
            SOME,
            [2, 0, 0, 0, 1, 0, 0, 0, 0, 0, 0, 0, 0],
            b"fleet 8 6 attack 1:1:1 9:499:15 out 500 520 51 7 smallcargo=2,cruiser=1\n",
        ),
        (
            1,
            Mission::Harvest,
            Stage::Back,
            NONE,
            [0, 0, 0, 0, 0, 0, 0, 0, 0, 0, 1, 0, 0],
            b"fleet 1 6 harvest 1:1:1 9:499:15 back 500 0 0 0 recycler=1\n",
        ),
        (
            2,
            Mission::Transport,
            Stage::Back,
            MOST,
            [1, 2, 3, 4, 5, 6, 7, 8, 9, 10, 11, 12, 100_000],
            b"fleet 2 6 transport 1:1:1 9:499:15 back 500 18446744073709551615 18446744073709551615 18446744073709551615 smallcargo=1,largecargo=2,lightfighter=3,heavyfighter=4,cruiser=5,battleship=6,battlecruiser=7,bomber=8,destroyer=9,deathstar=10,recycler=11,colonyship=12,probe=100000\n",
        ),
        (
            u64::MAX,
            Mission::Deploy,
            Stage::Out,
            NONE,
            [0, 0, 0, 0, 0, 0, 0, 0, 0, 0, 0, 1, 1],
            b"fleet 18446744073709551615 6 deploy 1:1:1 9:499:15 out 500 0 0 0 colonyship=1,probe=1\n",
        ),
    ];
    let mut body = Bytes::new(rt.alloc());
    for (number, mission, stage, cargo, n, want) in cases {
        body.clear();
        let fleet = FleetLine {
            number,
            group: 6,
            mission,
            from: LOW,
            to: HIGH,
            stage,
            second: 500,
            cargo,
            ships: n,
        };
        push_fleet(rt.alloc(), &mut body, &fleet)?;
        assert!(rt; body.as_slice() == want);
    }
    Ok(())
}

#[test]
fn writes_systems_and_orders(rt: HostRuntime) -> Result<(), Fail> {
    let mut body = Bytes::new(rt.alloc());
    push_at(rt.alloc(), &mut body, MIDDLE, Player { k: 12 }, 300, 0)?;
    push_at(
        rt.alloc(),
        &mut body,
        HIGH,
        Player { k: 65535 },
        u64::MAX,
        u64::MAX,
    )?;
    assert!(rt;
        body.as_slice()
            == b"at 2:30:4 12 300 0\nat 9:499:15 65535 18446744073709551615 18446744073709551615\n".as_slice()
    );
    body.clear();
    push_starts(rt.alloc(), &mut body, 3, 7200)?;
    push_starts(rt.alloc(), &mut body, 100_000, u64::MAX)?;
    push_waits(rt.alloc(), &mut body, 5)?;
    push_arrives(rt.alloc(), &mut body, 4000, 21)?;
    push_back(rt.alloc(), &mut body, 4001)?;
    assert!(rt;
        body.as_slice()
            == b"starts 3 7200\nstarts 100000 18446744073709551615\nwaits 5\narrives 4000 fuel 21\nback 4001\n".as_slice()
    );
    Ok(())
}

#[test]
fn writes_heads_and_refusals(rt: HostRuntime) -> Result<(), Fail> {
    let heads: [(u64, u64, u8, &[u8]); 4] = [
        (1, 3600, 0, b"ok 1 3600\n"),
        (
            u64::MAX,
            u64::MAX,
            0,
            b"ok 18446744073709551615 18446744073709551615\n",
        ),
        (2, 0, 17, b"no 2 0 17\n"),
        (
            u64::MAX,
            u64::MAX,
            255,
            b"no 18446744073709551615 18446744073709551615 255\n",
        ),
    ];
    let mut line = [b'x'; 80];
    for (number, moment, code, want) in heads {
        let body = Bytes::new(rt.alloc());
        let len = head(
            &Reply {
                number,
                moment,
                code,
                body,
            },
            &mut line,
        );
        assert!(rt; &line[..len] == want);
    }
    let refusals: [(Refused, &[u8]); 4] = [
        (Refused::Full { count: 262_144 }, b"full 262144\n"),
        (
            Refused::Full { count: u64::MAX },
            b"full 18446744073709551615\n",
        ),
        (Refused::DeviceFault { number: 0 }, b"fault 0\n"),
        (Refused::Memory, b"memory\n"),
    ];
    for (refusal, want) in refusals {
        let len = refused(&refusal, &mut line);
        assert!(rt; &line[..len] == want);
    }
    Ok(())
}

#[test]
fn writes_whole_replies(rt: HostRuntime) -> Result<(), Fail> {
    let cases: [(u8, &[u8], &[u8]); 3] = [
        (0, b"waits 2\n", b"before\nok 9 55\nwaits 2\n.\n"),
        (0, b"", b"before\nok 9 55\n.\n"),
        (12, b"", b"before\nno 9 55 12\n"),
    ];
    for (code, lines, want) in cases {
        let mut body = Bytes::new(rt.alloc());
        body.push(lines)?;
        let mut out = Bytes::new(rt.alloc());
        out.push(b"before\n")?;
        write_reply(
            &mut out,
            &Reply {
                number: 9,
                moment: 55,
                code,
                body,
            },
        )?;
        assert!(rt; out.as_slice() == want);
    }
    Ok(())
}

#[test]
fn keeps_the_body_if_memory_runs_out(rt: HostRuntime) -> Result<(), Fail> {
    let mut body = Bytes::new(rt.alloc());
    for _ in 0..40 {
        let before = body.len();
        if push_levels(rt.alloc(), &mut body, &[7; 11]).is_err() {
            assert_eq!(rt; body.len(), before);
            push_levels(rt.alloc(), &mut body, &[7; 11])?;
        }
        let before = body.len();
        if push_own_planet(rt.alloc(), &mut body, HIGH).is_err() {
            assert_eq!(rt; body.len(), before);
            push_own_planet(rt.alloc(), &mut body, HIGH)?;
        }
    }
    let mut out = Bytes::new(rt.alloc());
    let reply = Reply {
        number: 1,
        moment: 2,
        code: 0,
        body,
    };
    if write_reply(&mut out, &reply).is_err() {
        assert!(rt; out.is_empty());
        write_reply(&mut out, &reply)?;
    }
    assert!(rt; reply.body.len() < out.len());
    assert_eq!(rt; out.len() - reply.body.len(), 9);
    Ok(())
}
