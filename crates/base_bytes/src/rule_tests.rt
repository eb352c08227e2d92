ghost use Rattle.std.specs.Prelude.{◌≤◌, ◌<◌, ◌^◌};
ghost use Rattle.base_ids.specs.declared.numbers.TheConstants.{LAST_NUMBER};

use crate::fleet_rules::fleets_rise;
use crate::group_rules::groups_fit;
use crate::slot_rules::fleets_fit_slots;
use crate::tests::{HOME, THERE, account};
use base_ids::{LAST_NUMBER, Player};
use catalog::{Amounts, Mission, Ships, SpeedSetting};
use fleet_rec::{Fleet, Fleets};
use std::test::Fail;

/// A fleet that flies out to attack, in a group, to arrive at a second.
fn raider(number: u64, group: u64, second: u64) -> Fleet
    requires number { number ≤ LAST_NUMBER }
    requires group { group ≤ LAST_NUMBER }
    requires second { second < 2 ^ 42 }
{
    Fleet {
        number,
        group,
        owner: Player { k: 65535 },
        mission: Mission::Attack,
        origin: HOME,
        target: THERE,
        target_owner: Player { k: 1 },
        outbound: true,
        setting: SpeedSetting { p: 10 },
        launch: 255,
        second,
        cargo: Amounts { m: 1, c: 2, d: 3 },
        ships: Ships {
            n: [12, 0, 0, 0, 0, 0, 0, 0, 0, 0, 0, 0, 0],
        },
    }
}

#[test]
fn no_two_fleets_have_one_number(rt: HostRuntime) -> Result<(), Fail> {
    let mut fleets = Fleets::new(rt.alloc());
    assert!(rt; fleets_rise(&fleets));
    fleets.push(raider(4, 4, 257))?;
    fleets.push(raider(5, 4, 257))?;
    assert!(rt; fleets_rise(&fleets));
    fleets.push(raider(5, 4, 257))?;
    assert!(rt; !fleets_rise(&fleets));
    Ok(())
}

#[test]
fn a_group_has_eight_fleets_that_arrive_together(rt: HostRuntime) -> Result<(), Fail> {
    let alloc = rt.alloc();
    let mut fleets = Fleets::new(alloc);
    'numbers: for number in 1..=8 {
        fleets.push(raider(number, 1, 257))?;
    }
    fleets.push(raider(9, 9, 258))?;
    assert!(rt; groups_fit(alloc, &fleets)?);
    let mut more = fleets.copy()?;
    more.push(raider(10, 1, 257))?;
    assert!(rt; !groups_fit(alloc, &more)?);
    fleets.push(raider(10, 9, 259))?;
    assert!(rt; !groups_fit(alloc, &fleets)?);
    Ok(())
}

#[test]
fn an_account_without_computers_has_one_fleet(rt: HostRuntime) -> Result<(), Fail> {
    let alloc = rt.alloc();
    let accounts = [account(alloc)];
    let mut fleets = Fleets::new(alloc);
    fleets.push(raider(4, 4, 257))?;
    assert!(rt; fleets_fit_slots(alloc, &accounts, &fleets)?);
    fleets.push(raider(5, 5, 257))?;
    assert!(rt; !fleets_fit_slots(alloc, &accounts, &fleets)?);
    Ok(())
}
