// Attacks: groups, battles, loot, debris and harvests.
use super::Answers;
use super::flights::is_told;
use std::test::Fail;

/// A planet that a transport of player 2 and an attack of player 3 reach in one second.
const TRANSPORT_AND_RAID: &[u8] =
    b"universe 7 1 1000 0\nplayer 1\nplayer 2\nplayer 3\nplanet 1:1:2 1 40 163\nplanet 1:1:1 2 40 163\n\
planet 1:1:3 3 40 163\ntech 2 combustion 2\ntech 3 combustion 2\nstock 1:1:1 1000 0 10\nstock 1:1:3 0 0 10\n\
units 1:1:1 smallcargo 1\nunits 1:1:3 smallcargo 1\n.\n";

#[test]
fn what_arrives_in_one_second_comes_by_number(rt: HostRuntime) -> Result<(), Fail> {
    let told: Answers = (
        b"@0 2 send 1:1:1 1:1:2 transport 10 smallcargo=1 1000 0 0\n@0 3 send 1:1:3 1:1:2 attack 10 smallcargo=1 0 0 0\n\
@4539 1 planet 1:1:2\n",
        b"ok 1 0\narrives 4539 fuel 2\n.\nok 2 0\narrives 4539 fuel 2\n.\nok 3 4539\nplanet 1:1:2 1 40 163 0\n\
stock 763 256 0\nhourly 20 10 0\nlimit 10000 10000 10000\nenergy 0 0\ndebris 0 0\n.\n",
    );
    assert!(rt; is_told(rt.alloc(), TRANSPORT_AND_RAID, told)?);
    let told: Answers = (
        b"@0 3 send 1:1:3 1:1:2 attack 10 smallcargo=1 0 0 0\n@0 2 send 1:1:1 1:1:2 transport 10 smallcargo=1 1000 0 0\n\
@4539 1 planet 1:1:2\n",
        b"ok 1 0\narrives 4539 fuel 2\n.\nok 2 0\narrives 4539 fuel 2\n.\nok 3 4539\nplanet 1:1:2 1 40 163 0\n\
stock 1263 256 0\nhourly 20 10 0\nlimit 10000 10000 10000\nenergy 0 0\ndebris 0 0\n.\n",
    );
    assert!(rt; is_told(rt.alloc(), TRANSPORT_AND_RAID, told)?);
    Ok(())
}

/// A light fighter of player 1, and three of player 2, who can be back when it comes.
const FIGHTERS: &[u8] =
    b"universe 7 1 1000 0\nplayer 1\nplayer 2\nplanet 1:1:1 1 40 163\nplanet 1:1:2 2 40 163\nstock 1:1:1 0 0 10\n\
stock 1:1:2 0 0 10\nunits 1:1:1 lightfighter 1\nunits 1:1:2 lightfighter 3\n.\n";

#[test]
fn who_is_back_in_the_second_of_a_battle_fights_by_number(rt: HostRuntime) -> Result<(), Fail> {
    let told: Answers = (
        b"@0 2 send 1:1:2 1:1:1 transport 10 lightfighter=3 0 0 0\n@3148 1 send 1:1:1 1:1:2 attack 10 lightfighter=1 0 0 0\n\
@6296 2 planet 1:1:2\n@6296 1 fleets\n",
        b"ok 1 0\narrives 3148 fuel 7\n.\nok 2 3148\narrives 6296 fuel 3\n.\nok 3 6296\nplanet 1:1:2 2 40 163 0\n\
stock 34 17 3\nhourly 20 10 0\nlimit 10000 10000 10000\nenergy 0 0\ndebris 900 300\nunits lightfighter 3\n.\nok 4 6296\n.\n",
    );
    assert!(rt; is_told(rt.alloc(), FIGHTERS, told)?);
    let told: Answers = (
        b"@0 1 send 1:1:1 1:1:2 attack 4 lightfighter=1 0 0 0\n@1559 2 send 1:1:2 1:1:1 transport 10 lightfighter=3 0 0 0\n\
@7855 2 planet 1:1:2\n@7855 1 fleets\n",
        b"ok 1 0\narrives 7855 fuel 2\n.\nok 2 1559\narrives 4707 fuel 7\n.\nok 3 7855\nplanet 1:1:2 2 40 163 0\n\
stock 22 11 2\nhourly 20 10 0\nlimit 10000 10000 10000\nenergy 0 0\ndebris 0 0\nunits lightfighter 3\n.\nok 4 7855\n\
fleet 1 1 attack 1:1:1 1:1:2 back 15710 21 10 1 lightfighter=1\n.\n",
    );
    assert!(rt; is_told(rt.alloc(), FIGHTERS, told)?);
    Ok(())
}

/// A player who researches weapons while light fighters fly to a planet behind a small dome.
const RESEARCHING: &[u8] =
    b"universe 7 1 1000 0\nplayer 1\nplayer 2\nplanet 1:1:1 1 40 163\nplanet 1:1:2 2 40 163\ntech 1 weapons 3\n\
tech 2 shielding 20\nstock 1:1:1 10000 10000 1000\nlevel 1:1:1 lab 4\nunits 1:1:1 lightfighter 92\n\
units 1:1:2 smalldome 1\n.\n";

#[test]
fn a_battle_is_fought_with_the_weapons_of_its_second(rt: HostRuntime) -> Result<(), Fail> {
    let told: Answers = (
        b"@0 1 research 1:1:1 weapons\n@2612 1 send 1:1:1 1:1:2 attack 10 lightfighter=92 0 0 0\n@5760 1 fleets\n\
@5760 2 planet 1:1:2\n",
        b"ok 1 0\nstarts 4 5760\n.\nok 2 2612\narrives 5760 fuel 212\n.\nok 3 5760\n\
fleet 2 2 attack 1:1:1 1:1:2 back 8908 266 258 0 lightfighter=92\n.\nok 4 5760\nplanet 1:1:2 2 40 163 0\n\
stock 266 258 0\nhourly 20 10 0\nlimit 10000 10000 10000\nenergy 0 0\ndebris 0 0\n.\n",
    );
    assert!(rt; is_told(rt.alloc(), RESEARCHING, told)?);
    let told: Answers = (
        b"@0 1 research 1:1:1 weapons\n@2611 1 send 1:1:1 1:1:2 attack 10 lightfighter=92 0 0 0\n@5760 1 fleets\n\
@5760 2 planet 1:1:2\n",
        b"ok 1 0\nstarts 4 5760\n.\nok 2 2611\narrives 5759 fuel 212\n.\nok 3 5760\n\
fleet 2 2 attack 1:1:1 1:1:2 back 8907 0 0 0 lightfighter=92\n.\nok 4 5760\nplanet 1:1:2 2 40 163 0\n\
stock 532 516 0\nhourly 20 10 0\nlimit 10000 10000 10000\nenergy 0 0\ndebris 0 0\nunits smalldome 1\n.\n",
    );
    assert!(rt; is_told(rt.alloc(), RESEARCHING, told)?);
    Ok(())
}

/// A light fighter and a recycler of player 1, and a plasma turret of player 2.
const TURRET: &[u8] =
    b"universe 7 1 1000 0\nplayer 1\nplayer 2\nplanet 1:1:1 1 40 163\nplanet 1:1:2 2 40 163\nstock 1:1:1 0 0 100\n\
units 1:1:1 lightfighter 1\nunits 1:1:1 recycler 1\nunits 1:1:2 plasmaturret 1\n.\n";

#[test]
fn debris_of_a_lost_ship_is_harvested(rt: HostRuntime) -> Result<(), Fail> {
    let told: Answers = (
        b"@0 1 send 1:1:1 1:1:2 attack 10 lightfighter=1 0 0 0\n@3148 2 planet 1:1:2\n@3148 1 account\n\
@3148 1 send 1:1:1 1:1:2 harvest 10 recycler=1 0 0 0\n@11003 1 fleets\n",
        b"ok 1 0\narrives 3148 fuel 3\n.\nok 2 3148\nplanet 1:1:2 2 40 163 0\nstock 517 508 0\nhourly 20 10 0\n\
limit 10000 10000 10000\nenergy 0 0\ndebris 900 300\nunits plasmaturret 1\n.\nok 3 3148\naccount 1 1 0 1\n\
planet 1:1:1\n.\nok 4 3148\narrives 11003 fuel 35\n.\nok 5 11003\n\
fleet 4 4 harvest 1:1:1 1:1:2 back 18858 900 300 0 recycler=1\n.\n",
    );
    assert!(rt; is_told(rt.alloc(), TURRET, told)?);
    Ok(())
}

#[test]
fn a_battle_that_nobody_saw_is_found_years_later(rt: HostRuntime) -> Result<(), Fail> {
    let told: Answers = (
        b"@0 1 send 1:1:1 1:1:2 attack 10 lightfighter=1 0 0 0\n@1000000000 2 planet 1:1:2\n@1000000000 1 account\n",
        b"ok 1 0\narrives 3148 fuel 3\n.\nok 2 1000000000\nplanet 1:1:2 2 40 163 0\nstock 10000 10000 0\n\
hourly 20 10 0\nlimit 10000 10000 10000\nenergy 0 0\ndebris 900 300\nunits plasmaturret 1\n.\n\
ok 3 1000000000\naccount 1 1 0 1\nplanet 1:1:1\n.\n",
    );
    assert!(rt; is_told(rt.alloc(), TURRET, told)?);
    Ok(())
}

/// A small cargo of player 1, and stocks of player 2.
const RICH: &[u8] =
    b"universe 7 1 1000 0\nplayer 1\nplayer 2\nplanet 1:1:1 1 40 163\nplanet 1:1:2 2 40 163\ntech 1 combustion 2\n\
stock 1:1:1 0 0 10\nstock 1:1:2 20000 14000 0\nunits 1:1:1 smallcargo 1\n.\n";

/// The same with more of everything.
const RICHER: &[u8] =
    b"universe 7 1 1000 0\nplayer 1\nplayer 2\nplanet 1:1:1 1 40 163\nplanet 1:1:2 2 40 163\ntech 1 combustion 2\n\
stock 1:1:1 0 0 10\nstock 1:1:2 30000 30000 30000\nunits 1:1:1 smallcargo 1\n.\n";

#[test]
fn half_of_the_stocks_is_taken_as_far_as_there_is_room(rt: HostRuntime) -> Result<(), Fail> {
    let told: Answers = (
        b"@0 1 send 1:1:1 1:1:2 attack 10 smallcargo=1 0 0 0\n@4539 1 fleets\n@4539 2 planet 1:1:2\n",
        b"ok 1 0\narrives 4539 fuel 2\n.\nok 2 4539\nfleet 1 1 attack 1:1:1 1:1:2 back 9078 2499 2501 0 smallcargo=1\n\
.\nok 3 4539\nplanet 1:1:2 2 40 163 0\nstock 17501 11499 0\nhourly 20 10 0\nlimit 10000 10000 10000\n\
energy 0 0\ndebris 0 0\n.\n",
    );
    assert!(rt; is_told(rt.alloc(), RICH, told)?);
    let told: Answers = (
        b"@0 1 send 1:1:1 1:1:2 attack 10 smallcargo=1 0 0 0\n@4539 1 fleets\n@4539 2 planet 1:1:2\n",
        b"ok 1 0\narrives 4539 fuel 2\n.\nok 2 4539\n\
fleet 1 1 attack 1:1:1 1:1:2 back 9078 1666 1667 1667 smallcargo=1\n.\nok 3 4539\nplanet 1:1:2 2 40 163 0\n\
stock 28334 28333 28333\nhourly 20 10 0\nlimit 10000 10000 10000\nenergy 0 0\ndebris 0 0\n.\n",
    );
    assert!(rt; is_told(rt.alloc(), RICHER, told)?);
    Ok(())
}

/// Ten small cargos of player 1 and two of player 3, in reach of a planet of player 2.
const ALLIES: &[u8] =
    b"universe 7 1 1000 0\nplayer 1\nplayer 2\nplayer 3\nplanet 1:1:1 1 40 163\nplanet 1:1:2 2 40 163\n\
planet 1:1:3 3 40 163\ntech 1 combustion 2\ntech 1 computer 8\ntech 3 combustion 2\ntech 3 computer 1\n\
stock 1:1:1 500 500 1000\nstock 1:1:3 500 500 1000\nunits 1:1:1 smallcargo 10\nunits 1:1:3 smallcargo 2\n.\n";

#[test]
fn a_fleet_joins_a_raid_if_it_is_in_time(rt: HostRuntime) -> Result<(), Fail> {
    let told: Answers = (
        b"@0 1 send 1:1:1 1:1:2 attack 10 smallcargo=1 0 0 0\n@0 3 join 1 1:1:3 1:1:2 10 smallcargo=1 0 0 0\n\
@1 3 join 1 1:1:3 1:1:2 10 smallcargo=1 0 0 0\n@4539 3 fleets\n@4539 1 fleets\n@4539 2 planet 1:1:2\n",
        b"ok 1 0\narrives 4539 fuel 2\n.\nok 2 0\narrives 4539 fuel 2\n.\nno 3 1 15\nok 4 4539\n\
fleet 2 1 attack 1:1:3 1:1:2 back 9078 0 0 0 smallcargo=1\n.\nok 5 4539\n\
fleet 1 1 attack 1:1:1 1:1:2 back 9078 262 256 0 smallcargo=1\n.\nok 6 4539\nplanet 1:1:2 2 40 163 0\n\
stock 263 256 0\nhourly 20 10 0\nlimit 10000 10000 10000\nenergy 0 0\ndebris 0 0\n.\n",
    );
    assert!(rt; is_told(rt.alloc(), ALLIES, told)?);
    Ok(())
}

#[test]
fn a_raid_whose_first_fleet_turned_back_is_fought(rt: HostRuntime) -> Result<(), Fail> {
    let told: Answers = (
        b"@0 1 send 1:1:1 1:1:2 attack 10 smallcargo=1 0 0 0\n@0 3 join 1 1:1:3 1:1:2 10 smallcargo=1 0 0 0\n\
@1 1 recall 1\n@4539 3 fleets\n@4539 1 fleets\n@4539 2 planet 1:1:2\n",
        b"ok 1 0\narrives 4539 fuel 2\n.\nok 2 0\narrives 4539 fuel 2\n.\nok 3 1\nback 2\n.\nok 4 4539\n\
fleet 2 1 attack 1:1:3 1:1:2 back 9078 262 256 0 smallcargo=1\n.\nok 5 4539\n.\nok 6 4539\n\
planet 1:1:2 2 40 163 0\nstock 263 256 0\nhourly 20 10 0\nlimit 10000 10000 10000\nenergy 0 0\ndebris 0 0\n.\n",
    );
    assert!(rt; is_told(rt.alloc(), ALLIES, told)?);
    Ok(())
}

#[test]
fn a_raid_has_eight_fleets_at_most(rt: HostRuntime) -> Result<(), Fail> {
    let told: Answers = (
        b"@0 1 send 1:1:1 1:1:2 attack 10 smallcargo=1 0 0 0\n@0 1 join 1 1:1:1 1:1:2 10 smallcargo=1 0 0 0\n\
@0 1 join 1 1:1:1 1:1:2 10 smallcargo=1 0 0 0\n@0 1 join 1 1:1:1 1:1:2 10 smallcargo=1 0 0 0\n\
@0 1 join 1 1:1:1 1:1:2 10 smallcargo=1 0 0 0\n@0 1 join 1 1:1:1 1:1:2 10 smallcargo=1 0 0 0\n\
@0 1 join 1 1:1:1 1:1:2 10 smallcargo=1 0 0 0\n@0 1 join 1 1:1:1 1:1:2 10 smallcargo=1 0 0 0\n\
@0 1 join 1 1:1:1 1:1:2 10 smallcargo=1 0 0 0\n@0 1 send 1:1:1 1:1:2 attack 10 smallcargo=1 0 0 0\n\
@0 1 send 1:1:1 1:1:2 attack 10 smallcargo=1 0 0 0\n@4539 2 planet 1:1:2\n",
        b"ok 1 0\narrives 4539 fuel 2\n.\nok 2 0\narrives 4539 fuel 2\n.\nok 3 0\narrives 4539 fuel 2\n.\nok 4 0\n\
arrives 4539 fuel 2\n.\nok 5 0\narrives 4539 fuel 2\n.\nok 6 0\narrives 4539 fuel 2\n.\nok 7 0\n\
arrives 4539 fuel 2\n.\nok 8 0\narrives 4539 fuel 2\n.\nno 9 0 16\nok 10 0\narrives 4539 fuel 2\n.\n\
no 11 0 10\nok 12 4539\nplanet 1:1:2 2 40 163 0\nstock 132 128 0\nhourly 20 10 0\nlimit 10000 10000 10000\n\
energy 0 0\ndebris 0 0\n.\n",
    );
    assert!(rt; is_told(rt.alloc(), ALLIES, told)?);
    Ok(())
}

/// Two planets of player 1, five small cargos, and a planet of player 2.
const NEIGHBOURS: &[u8] =
    b"universe 7 1 1000 0\nplayer 1\nplayer 2\nplanet 1:1:1 1 40 163\nplanet 1:1:2 2 40 163\nplanet 1:1:3 1 40 163\n\
tech 1 combustion 2\ntech 1 computer 3\nstock 1:1:1 100 100 100\nunits 1:1:1 smallcargo 5\n.\n";

#[test]
fn each_refusal_of_a_raid_has_its_code(rt: HostRuntime) -> Result<(), Fail> {
    let told: Answers = (
        b"@0 1 send 1:1:1 1:1:3 attack 10 smallcargo=1 0 0 0\n@0 1 send 1:1:1 1:1:2 harvest 10 smallcargo=1 0 0 0\n\
@0 1 join 9 1:1:1 1:1:2 10 smallcargo=1 0 0 0\n@0 1 send 1:1:1 1:1:2 attack 5 smallcargo=1 0 0 0\n\
@0 1 join 4 1:1:1 1:1:3 10 smallcargo=1 0 0 0\n@0 1 join 4 1:1:1 1:1:2 10 smallcargo=9 0 0 0\n\
@0 1 join 4 1:1:1 1:1:2 10 smallcargo=1 6000 0 0\n@0 1 join 4 1:1:1 1:1:2 10 smallcargo=1 101 0 0\n\
@0 1 join 4 1:1:1 1:1:2 1 smallcargo=1 0 0 0\n",
        b"no 1 0 9\nno 2 0 9\nno 3 0 13\nok 4 0\narrives 9069 fuel 1\n.\nno 5 0 13\nno 6 0 8\nno 7 0 11\nno 8 0 12\n\
no 9 0 15\n",
    );
    assert!(rt; is_told(rt.alloc(), NEIGHBOURS, told)?);
    Ok(())
}
