use crate::{
    Amounts, Building, CAP, Class, Count, KINDS, Kind, Mission, Ships, SpeedSetting, Technology,
    Techs, Tenths, Unit, Work,
};
use std::test::Fail;

#[test]
fn other_words_name_no_kind(rt: HostRuntime) {
    let cases: [&[u8]; 15] = [
        b"",
        b"metal",
        b"metalmin",
        b"metalmines",
        b"Metalmine",
        b"METALMINE",
        b" metalmine",
        b"metalmine ",
        b"metalmine\x00",
        b"metalmin\xe5",
        b"1",
        b"lab=1",
        b"armor",
        b"fusion",
        b"planet",
    ];
    for word in cases {
        assert!(rt; Kind::read(word).is_none());
    }
}

#[test]
fn each_class_reads_the_words_of_its_own_kinds(rt: HostRuntime) {
    for kind in KINDS {
        let word = kind.word();
        let (building, technology, unit, work) = match kind.number() {
            1..=4 => (true, false, false, true),
            5..=11 => (true, false, false, false),
            21..=34 => (false, true, false, false),
            54 => (false, false, true, true),
            _ => (false, false, true, false),
        };
        let bytes = word.as_bytes();
        assert_eq!(rt; Building::read(bytes).is_some(), building, "{word}");
        assert_eq!(rt; Technology::read(bytes).is_some(), technology, "{word}");
        assert_eq!(rt; Unit::read(bytes).is_some(), unit, "{word}");
        assert_eq!(rt; Work::read(bytes).is_some(), work, "{word}");
    }
}

#[test]
fn members_of_a_class_are_written_as_their_kinds(rt: HostRuntime) -> Result<(), Fail> {
    let building = Building { kind: Kind::Nanite };
    let technology = Technology {
        kind: Kind::Graviton,
    };
    let unit = Unit {
        kind: Kind::LargeDome,
    };
    let work = Work {
        kind: Kind::Satellite,
    };
    assert!(rt; Building::read(b"nanite") == Some(building));
    assert!(rt; Technology::read(b"graviton") == Some(technology));
    assert!(rt; Unit::read(b"largedome") == Some(unit));
    assert!(rt; Work::read(b"satellite") == Some(work));
    let text = format!(in rt.alloc(); "{building} {technology} {unit} {work}")?;
    assert_eq!(rt; text.as_str(), "nanite graviton largedome satellite");
    Ok(())
}

#[test]
fn missions_have_their_words_and_numbers(rt: HostRuntime) -> Result<(), Fail> {
    let cases: [(&str, u8); 4] = [
        ("transport", 1),
        ("deploy", 2),
        ("harvest", 3),
        ("attack", 4),
    ];
    for (word, number) in cases {
        let mission = Mission::read(word.as_bytes()).ok_or("no mission")?;
        assert_eq!(rt; mission.number(), number, "{word}");
        assert_eq!(rt; mission.word(), word);
        let text = format!(in rt.alloc(); "{mission}")?;
        assert_eq!(rt; text.as_str(), word);
    }
    Ok(())
}

#[test]
fn other_words_are_of_no_mission(rt: HostRuntime) {
    let cases: [&[u8]; 9] = [
        b"",
        b"transports",
        b"Attack",
        b"attac",
        b" attack",
        b"attack ",
        b"spy",
        b"settle",
        b"1",
    ];
    for word in cases {
        assert!(rt; Mission::read(word).is_none());
    }
}

#[test]
fn ships_are_written_by_number_without_the_kinds_that_are_missing(
    rt: HostRuntime,
) -> Result<(), Fail> {
    let cases: [(Ships, &str); 4] = [
        (
            Ships {
                n: [1, 0, 0, 0, 0, 0, 0, 0, 0, 0, 0, 0, 0],
            },
            "smallcargo=1",
        ),
        (
            Ships {
                n: [0, 0, 0, 0, 0, 0, 0, 0, 0, 0, 0, 0, 100_000],
            },
            "probe=100000",
        ),
        (
            Ships {
                n: [2, 0, 0, 0, 1, 0, 0, 0, 0, 0, 0, 0, 0],
            },
            "smallcargo=2,cruiser=1",
        ),
        (
            Ships {
                n: [1, 2, 3, 4, 5, 6, 7, 8, 9, 10, 11, 12, 13],
            },
            "smallcargo=1,largecargo=2,lightfighter=3,heavyfighter=4,cruiser=5,battleship=6,battlecruiser=7,bomber=8,destroyer=9,deathstar=10,recycler=11,colonyship=12,probe=13",
        ),
    ];
    for (ships, want) in cases {
        let text = format!(in rt.alloc(); "{ships}")?;
        assert_eq!(rt; text.as_str(), want);
    }
    Ok(())
}

#[test]
fn settings_are_written_as_numbers(rt: HostRuntime) -> Result<(), Fail> {
    let setting = SpeedSetting { p: 10 };
    let tenths = Tenths { n: 0 };
    let count = Count { n: 100_000 };
    let text = format!(in rt.alloc(); "{setting} {tenths} {count}")?;
    assert_eq!(rt; text.as_str(), "10 0 100000");
    Ok(())
}

#[test]
fn amounts_are_written_as_metal_crystal_deuterium(rt: HostRuntime) -> Result<(), Fail> {
    let amounts = Amounts {
        m: CAP,
        c: 0,
        d: 17,
    };
    let text = format!(in rt.alloc(); "{amounts}")?;
    assert_eq!(rt; text.as_str(), "4000000000000 0 17");
    Ok(())
}

#[test]
fn the_first_level_is_that_of_energy_and_the_last_that_of_graviton(
    rt: HostRuntime,
) -> Result<(), Fail> {
    let techs = Techs {
        n: [1, 2, 3, 4, 5, 6, 7, 8, 9, 10, 11, 12, 13, 14],
    };
    for (kind, want) in [
        (Kind::Energy, 1),
        (Kind::Combustion, 6),
        (Kind::Armour, 13),
        (Kind::Graviton, 14),
    ] {
        let technology = Technology::of(kind).ok_or("no technology")?;
        assert_eq!(rt; techs.level(technology), want);
    }
    Ok(())
}
