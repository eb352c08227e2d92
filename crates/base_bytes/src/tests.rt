// What no clause says: bytes that were worked out by hand.
use crate::parsing::parse;
use crate::writing::{put_batch, put_building, put_research};
use crate::{Base, read, write};
use account_cell::{Account, ResearchItem};
use base_ids::{Coord, Player};
use base_text::Bytes;
use catalog::{Amounts, Building, Kind, Mission, Ships, SpeedSetting, Technology, Techs, Unit};
use fleet_rec::{Fleet, Fleets};
use planet_cell::{Batch, BuildingItem, Planet};
use rates::Resources;
use std::alloc::{AllocError, Global};
use std::test::Fail;
use tick_model::Debris;

pub const HOME: Coord = Coord { g: 1, s: 2, p: 3 };

pub const THERE: Coord = Coord {
    g: 9,
    s: 499,
    p: 15,
};

/// A base of these lists at second 256, with seed 7, speed 1 and a history of at most 9 requests, of which 5 have come.
fn base(alloc: Global) -> Base {
    Base {
        seed: 7,
        speed: 1,
        capacity: 9,
        moment: 256,
        number: 5,
        accounts: Vec::new(alloc),
        planets: Vec::new(alloc),
        fleets: Fleets::new(alloc),
    }
}

#[tactic(auto, using(account_cell::proofs::Queues::caps_fresh))]
pub fn account(alloc: Global) -> Account {
    Account {
        player: Player { k: 65535 },
        techs: Techs { n: [0; 14] },
        planets: Vec::new(alloc),
        units: 12,
        research: Vec::new(alloc),
    }
}

fn planet(alloc: Global) -> Planet {
    Planet {
        at: HOME,
        owner: Player { k: 65535 },
        temperature: -20,
        fields: 163,
        levels: [0; 11],
        tenths: [10, 9, 8, 7, 6],
        stock: Resources {
            metal: 1,
            crystal: 256,
            deuterium: 0,
        },
        debris: Debris {
            metal: 2,
            crystal: 3,
        },
        units: [0; 22],
        buildings: Vec::new(alloc),
        yard: Vec::new(alloc),
    }
}

fn fleet() -> Fleet {
    Fleet {
        number: 5,
        group: 4,
        owner: Player { k: 65535 },
        mission: Mission::Attack,
        origin: HOME,
        target: THERE,
        target_owner: Player { k: 1 },
        outbound: false,
        setting: SpeedSetting { p: 10 },
        launch: 255,
        second: 257,
        cargo: Amounts { m: 1, c: 2, d: 3 },
        ships: Ships {
            n: [12, 0, 0, 0, 0, 0, 0, 0, 0, 0, 0, 0, 0],
        },
    }
}

const HEAD: [u8; 40] = [
    0x4f, 0x47, 0x42, 0x41, 0x53, 0x45, 0x30, 0x31, 0, 0, 0, 0, 0, 0, 0, 7, 0, 0, 0, 1, 0, 0, 0, 9,
    0, 0, 0, 0, 0, 0, 1, 0, 0, 0, 0, 0, 0, 0, 0, 5,
];

#[test]
fn a_base_without_cells_is_its_head(rt: HostRuntime) -> Result<(), Fail> {
    let bytes = write(rt.alloc(), &base(rt.alloc()))?;
    assert_eq!(rt; bytes.len(), 52);
    let (head, counts) = bytes.as_slice().split_at(40);
    assert!(rt; head == HEAD.as_slice());
    assert!(rt; counts == [0; 12].as_slice());
    Ok(())
}

#[test]
fn each_part_has_its_bytes(rt: HostRuntime) -> Result<(), Fail> {
    let alloc = rt.alloc();
    let mut base = base(alloc);
    base.accounts.push(account(alloc))?;
    base.planets.push(planet(alloc))?;
    base.fleets.push(fleet())?;
    let mut want = Bytes::new(alloc);
    want.push(&HEAD)?;
    want.push(&[0, 0, 0, 1, 0, 0, 0, 1, 0, 0, 0, 1])?;
    want.push(&[0, 0, 255, 255])?;
    want.push(&[0; 14])?;
    want.push(&[0, 0, 0, 12, 0])?;
    want.push(&[1, 0, 2, 3, 0, 0, 255, 255, 255, 236, 0, 163])?;
    want.push(&[0; 11])?;
    want.push(&[10, 9, 8, 7, 6])?;
    want.push(&[0, 0, 0, 0, 0, 0, 0, 1, 0, 0, 0, 0, 0, 0, 1, 0])?;
    want.push(&[0; 15])?;
    want.push(&[2, 0, 0, 0, 0, 0, 0, 0, 3])?;
    want.push(&[0; 90])?;
    want.push(&[0, 0, 0, 0, 0, 0, 0, 5, 0, 0, 0, 0, 0, 0, 0, 4])?;
    want.push(&[0, 0, 255, 255, 4, 2, 1, 0, 2, 3, 9, 1, 243, 15, 10])?;
    want.push(&[0, 0, 0, 0, 0, 0, 0, 255, 0, 0, 0, 0, 0, 0, 1, 1])?;
    want.push(&[0, 0, 0, 0, 0, 0, 0, 1, 0, 0, 0, 0, 0, 0, 0, 2])?;
    want.push(&[0, 0, 0, 0, 0, 0, 0, 3, 0, 0, 0, 12])?;
    want.push(&[0; 48])?;
    assert!(rt; write(alloc, &base)?.as_slice() == want.as_slice());
    Ok(())
}

#[test]
fn items_have_their_bytes(rt: HostRuntime) -> Result<(), Fail> {
    let mut bytes = Bytes::new(rt.alloc());
    let research = ResearchItem {
        number: 5,
        kind: Technology { kind: Kind::Energy },
        at: HOME,
        level: 1,
        second: 258,
    };
    put_research(&mut bytes, &research)?;
    let building = BuildingItem {
        number: 4,
        kind: Building { kind: Kind::Nanite },
        level: 2,
        second: 259,
    };
    put_building(&mut bytes, &building)?;
    let batch = Batch {
        number: 3,
        kind: Unit {
            kind: Kind::LargeDome,
        },
        left: 256,
        unit_seconds: 4,
        second: 260,
    };
    put_batch(&mut bytes, &batch)?;
    let want: [u8; 69] = [
        0, 0, 0, 0, 0, 0, 0, 5, 21, 1, 0, 2, 3, 1, 0, 0, 0, 0, 0, 0, 1, 2, 0, 0, 0, 0, 0, 0, 0, 4,
        11, 2, 0, 0, 0, 0, 0, 0, 1, 3, 0, 0, 0, 0, 0, 0, 0, 3, 68, 0, 0, 1, 0, 0, 0, 0, 0, 0, 0, 0,
        4, 0, 0, 0, 0, 0, 0, 1, 4,
    ];
    assert!(rt; bytes.as_slice() == want.as_slice());
    Ok(())
}

#[test]
fn a_base_is_read_from_its_bytes(rt: HostRuntime) -> Result<(), Fail> {
    let alloc = rt.alloc();
    let mut base = base(alloc);
    base.accounts.push(account(alloc))?;
    base.planets.push(planet(alloc))?;
    let mut there = planet(alloc);
    there.at = THERE;
    there.owner = Player { k: 1 };
    base.planets.push(there)?;
    base.fleets.push(fleet())?;
    let bytes = write(alloc, &base)?;
    let found = parse(alloc, bytes.as_slice())?.ok_or("no base")?;
    assert!(rt; write(alloc, &found)?.as_slice() == bytes.as_slice());
    assert_eq!(rt; found.accounts.len(), 1);
    assert!(rt; found.accounts[0].planets.as_slice() == [HOME].as_slice());
    assert!(rt; found.fleets.as_slice() == base.fleets.as_slice());
    Ok(())
}

#[test]
fn no_base_is_read_from_other_bytes(rt: HostRuntime) -> Result<(), Fail> {
    let alloc = rt.alloc();
    assert!(rt; parse(alloc, &[])?.is_none());
    let counts: [[u8; 12]; 3] = [
        [0, 0, 39, 17, 0, 0, 0, 0, 0, 0, 0, 0],
        [0, 0, 0, 0, 0, 0, 78, 33, 0, 0, 0, 0],
        [0, 0, 0, 0, 0, 0, 0, 0, 255, 255, 255, 255],
    ];
    'counts: for count in &counts {
        let mut bytes = Bytes::new(alloc);
        bytes.push(&HEAD)?;
        bytes.push(count)?;
        assert!(rt; parse(alloc, bytes.as_slice())?.is_none());
    }
    Ok(())
}

#[test]
fn a_base_is_read_if_it_keeps_the_rules(rt: HostRuntime) -> Result<(), Fail> {
    let alloc = rt.alloc();
    let mut base = base(alloc);
    base.accounts.push(account(alloc))?;
    base.planets.push(planet(alloc))?;
    let miscounted = write(alloc, &base)?;
    assert!(rt; read(alloc, miscounted.as_slice())?.is_none());
    let mut idle = account(alloc);
    idle.units = 0;
    base.accounts = vec![in alloc; idle]?;
    let mut bytes = write(alloc, &base)?;
    assert!(rt; is_read_as(alloc, bytes.as_slice())?);
    bytes.push(&[0])?;
    assert!(rt; !is_read_as(alloc, bytes.as_slice())?);
    Ok(())
}

// Whether these bytes spell a base, and that is spelled by them.
fn is_read_as(alloc: Global, bytes: &[u8]) -> Result<bool, AllocError> {
    let Some(base) = read(alloc, bytes)? else {
        return Ok(false);
    };
    let again = write(alloc, &base)?;
    Ok(again.as_slice() == bytes)
}
