// What no clause says: bytes that were worked out by hand.
use crate::{read, write};
use base_ids::{Coord, FleetNumber, Player, System};
use catalog::{
    Amounts, Building, Count, Kind, Mission, Ships, SpeedSetting, Technology, Tenths, Unit, Work,
};
use request_text::{Entry, Request};

const HERE: Coord = Coord { g: 1, s: 2, p: 3 };

const THERE: Coord = Coord {
    g: 9,
    s: 499,
    p: 15,
};

const SHIPS: Ships = Ships {
    n: [2, 0, 0, 0, 1, 0, 0, 0, 0, 0, 0, 0, 100_000],
};

const CARGO: Amounts = Amounts {
    m: 4_000_000_000_000,
    c: 1,
    d: 0,
};

// 256 bytes with these pieces at these places, and zeros elsewhere.
fn page(pieces: &[(usize, &[u8])]) -> [u8; 256] {
    let mut page = [0; 256];
    for (at, piece) in pieces {
        for (i, byte) in piece.iter().enumerate() {
            if let Some(cell) = page.get_mut(at.wrapping_add(i)) {
                *cell = *byte;
            }
        }
    }
    page
}

fn entry(req: Request) -> Entry {
    Entry {
        number: 1,
        moment: 256,
        reading: 255,
        player: Player { k: 65535 },
        req,
    }
}

fn written(entry: &Entry) -> [u8; 256] {
    let mut page = [7; 256];
    write(entry, &mut page);
    page
}

fn read_page(page: &[u8; 256]) -> Option<Entry> {
    read(page)
}

// The pieces of `entry`, and two more.
fn page_of(form: u8, at: usize, piece: &[u8], other: usize, second: &[u8]) -> [u8; 256] {
    page(&[
        (0, b"OGE1"),
        (11, &[1]),
        (18, &[1]),
        (27, &[255]),
        (30, &[255, 255]),
        (32, &[form]),
        (at, piece),
        (other, second),
    ])
}

#[test]
fn each_form_has_its_bytes(rt: HostRuntime) {
    let kind = Kind::MetalMine;
    let building = Building { kind };
    let technology = Technology {
        kind: Kind::Graviton,
    };
    let unit = Unit {
        kind: Kind::LargeDome,
    };
    let work = Work { kind };
    let setting = SpeedSetting { p: 10 };
    let fleet = FleetNumber { f: (1 << 40) - 1 };
    let here: &[u8] = &[1, 0, 2, 3];
    let cases: [(Request, [u8; 256]); 9] = [
        (
            Request::Planet(THERE),
            page_of(1, 33, &[9, 1, 243, 15], 0, b""),
        ),
        (Request::Account, page_of(2, 0, b"", 0, b"")),
        (Request::Fleets, page_of(3, 0, b"", 0, b"")),
        (
            Request::System(System { g: 4, s: 258 }),
            page_of(4, 33, &[4, 1, 2, 0], 0, b""),
        ),
        (
            Request::Build(HERE, building),
            page_of(5, 33, here, 41, &[1]),
        ),
        (
            Request::Research(HERE, technology),
            page_of(6, 33, here, 41, &[34]),
        ),
        (
            Request::Yard(HERE, unit, Count { n: 100_000 }),
            page_of(7, 33, here, 41, &[68, 0, 0, 0, 1, 134, 160]),
        ),
        (
            Request::Set(HERE, work, Tenths { n: 10 }),
            page_of(8, 33, here, 41, &[1, 0, 10]),
        ),
        (
            Request::Recall(fleet),
            page_of(11, 48, &[0, 0, 0, 255, 255, 255, 255, 255], 0, b""),
        ),
    ];
    for (req, want) in cases {
        let entry = entry(req);
        assert!(rt; written(&entry) == want);
        assert_eq!(rt; read_page(&want), Some(entry));
    }
    let send = entry(Request::Send(HERE, THERE, Mission::Attack, setting, SHIPS, CARGO));
    let join = entry(Request::Join(fleet, HERE, THERE, setting, SHIPS, CARGO));
    for (form, mission, group, flight) in [(9, 4, 0, send), (10, 0, 255, join)] {
        let want = page(&[
            (0, b"OGE1"),
            (11, &[1]),
            (18, &[1]),
            (27, &[255]),
            (30, &[255, 255]),
            (32, &[form, 1, 0, 2, 3, 9, 1, 243, 15, 0, mission, 10]),
            (51, &[group, group, group, group, group]),
            (56, &[0, 0, 3, 163, 82, 148, 64, 0]),
            (71, &[1]),
            (83, &[2]),
            (99, &[1]),
            (129, &[1, 134, 160]),
        ]);
        assert!(rt; written(&flight) == want);
        assert_eq!(rt; read_page(&want), Some(flight));
    }
}

#[test]
fn other_bytes_spell_no_entry(rt: HostRuntime) {
    let account = page_of(2, 0, b"", 0, b"");
    let join = written(&entry(Request::Join(
        FleetNumber { f: 1 },
        HERE,
        THERE,
        SpeedSetting { p: 1 },
        SHIPS,
        CARGO,
    )));
    let system = page_of(4, 33, &[4, 1, 2, 0], 0, b"");
    let cases: [([u8; 256], usize, u8, &str); 18] = [
        (account, 3, b'2', "another mark"),
        (account, 11, 0, "number 0"),
        (account, 6, 1, "a number above 2^40"),
        (account, 14, 1, "a moment above 2^40"),
        (account, 26, 2, "a reading above the moment"),
        (account, 28, 1, "a player above 65535"),
        (account, 32, 0, "no form"),
        (account, 32, 12, "a form that is none"),
        (account, 33, 1, "a coordinate without use"),
        (account, 44, 1, "a count without use"),
        (account, 132, 1, "the first byte of the padding"),
        (account, 255, 1, "the last byte of the padding"),
        (system, 36, 1, "a system with a position"),
        (system, 34, 2, "a system above 499"),
        (join, 55, 0, "group 0"),
        (join, 42, 1, "a mission of a joiner"),
        (join, 43, 11, "a speed setting above 10"),
        (join, 58, 4, "a cargo above the cap"),
    ];
    for (good, at, byte, name) in cases {
        assert!(rt; read_page(&good).is_some(), "{name}");
        let mut page = good;
        if let Some(cell) = page.get_mut(at) {
            *cell = byte;
        }
        assert_eq!(rt; read_page(&page), None, "{name}");
    }
}
