ghost use Rattle.std.specs.Prelude.{◌≤◌};
ghost use Rattle.ports.specs.declared.clock.TheConstants.{LATEST};

use crate::Account;
use base_ids::{Coord, Player};
use catalog::{Class, Kind, Technology, Techs};
use ports::LATEST;
use std::alloc::{AllocError, Global};
use std::process::Abort;
use std::test::Fail;
use tick_model::{LEVEL_CAP, POOR, Placed, QUEUE_FULL, REQUIRES};

// The expected prices and seconds were computed by the formulas of docs/RULES.md, "Costs and durations".

const HOME: Coord = Coord { g: 1, s: 1, p: 1 };

const COLONY: Coord = Coord {
    g: 9,
    s: 499,
    p: 15,
};

/// An account without technologies and research, with these planets and 12 units.
fn idle(alloc: Global, planets: Vec<Coord>) -> Account {
    Account {
        player: Player { k: 7 },
        techs: Techs { n: [0; 14] },
        planets,
        units: 12,
        research: Vec::new(alloc),
    }
}

/// The same, with two planets.
fn fresh(alloc: Global) -> Result<Account, Fail> {
    Ok(idle(alloc, [HOME, COLONY].to_vec(alloc)?))
}

fn technology(kind: Kind) -> Result<Technology, Fail> {
    Ok(Technology::of(kind).ok_or("no technology")?)
}

/// Orders a technology at speed 1 in a lab of level 4, which nothing refuses.
fn order(rt: &impl Abort, account: &mut Account, kind: Kind, moment: u64) -> Result<Placed, Fail>
    requires { moment ≤ LATEST }
{
    let technology = technology(kind)?;
    assert_eq!(rt; account.research_refusal(technology, true, true), 0);
    Ok(account.order_research(HOME, technology, moment, 4, 1)?)
}

/// The items of the queue: their kinds, levels and seconds.
fn shown(account: &Account) -> Result<Vec<(Kind, u8, u64)>, AllocError> {
    let alloc = *account.research.allocator();
    account
        .research
        .iter()
        .map(|item| (item.kind.kind, item.level, item.second))
        .collect(alloc)
}

#[test]
fn a_technology_starts_at_once_and_the_next_one_waits(rt: HostRuntime) -> Result<(), Fail> {
    let mut account = fresh(rt.alloc())?;
    let starts = Placed::Starts {
        amount: 1,
        second: 1000 + 576,
    };
    assert_eq!(rt; order(&rt, &mut account, Kind::Energy, 1000)?, starts);
    let waits = Placed::Waits { place: 2 };
    assert_eq!(rt; order(&rt, &mut account, Kind::Laser, 1100)?, waits);
    assert_eq!(rt; account.research.len(), 2);
    account.number_last_research(77);
    let want = [(Kind::Energy, 1, 1576), (Kind::Laser, 0, 0)];
    assert_eq!(rt; shown(&account)?.as_slice(), want.as_slice());
    assert_eq!(rt; account.research.len(), 2);
    assert_eq!(rt;
        (account.research[0].number, account.research[1].number),
        (0, 77)
    );
    Ok(())
}

#[test]
fn a_technology_that_is_done_makes_room_for_the_next_one(rt: HostRuntime) -> Result<(), Fail> {
    let mut account = fresh(rt.alloc())?;
    let _ = order(&rt, &mut account, Kind::Energy, 1000)?;
    let _ = order(&rt, &mut account, Kind::Laser, 1000)?;
    let _ = order(&rt, &mut account, Kind::Energy, 1000)?;
    assert_eq!(rt; account.research.len(), 3);
    let done = account.finish_research();
    assert_eq!(rt; (done.kind.kind, done.second), (Kind::Energy, 1576));
    assert_eq!(rt; account.techs.level(done.kind), 1);
    assert!(rt; done.second <= LATEST && account.research.len() == 2);
    account.drop_research();
    account.start_research(done.second, 0, 3);
    let want = [(Kind::Energy, 2, 1576 + 1920)];
    assert_eq!(rt; shown(&account)?.as_slice(), want.as_slice());
    let next = account.first_research().ok_or("nothing runs")?;
    let price = account.next_price(next.kind);
    assert_eq!(rt; (price.m, price.c, price.d), (0, 1600, 800));
    Ok(())
}

#[test]
fn the_first_reason_to_refuse_is_told(rt: HostRuntime) -> Result<(), Fail> {
    let mut account = fresh(rt.alloc())?;
    let energy = technology(Kind::Energy)?;
    assert_eq!(rt; account.research_refusal(energy, false, false), REQUIRES);
    assert_eq!(rt; account.research_refusal(energy, true, false), POOR);
    let _ = order(&rt, &mut account, Kind::Graviton, 1000)?;
    assert_eq!(rt; account.research_refusal(energy, true, false), 0);
    let graviton = technology(Kind::Graviton)?;
    assert!(rt; account.can_rise(graviton));
    assert_eq!(rt; account.research_refusal(graviton, false, false), LEVEL_CAP);
    for _ in 0..4u8 {
        let _ = order(&rt, &mut account, Kind::Energy, 1000)?;
    }
    assert_eq!(rt;
        account.research_refusal(graviton, false, false),
        QUEUE_FULL
    );
    Ok(())
}

#[test]
fn a_copy_is_the_same_until_units_are_added(rt: HostRuntime) -> Result<(), Fail> {
    let mut account = fresh(rt.alloc())?;
    let _ = order(&rt, &mut account, Kind::Energy, 1000)?;
    let mut copy = account.copy()?;
    assert_eq!(rt;
        (copy.player, copy.techs, copy.units),
        (account.player, account.techs, 12)
    );
    assert_eq!(rt; copy.planets.as_slice(), [HOME, COLONY].as_slice());
    assert_eq!(rt; copy.research.as_slice(), account.research.as_slice());
    assert!(rt; copy.units <= 12);
    copy.add_units(88);
    assert_eq!(rt; (copy.units, account.units), (100, 12));
    Ok(())
}
