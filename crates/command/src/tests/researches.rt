// Research from the order on: who pays, when it is done, and what becomes of what waits.
use super::buildings::{Played, is_played};
use std::test::Fail;

#[test]
fn research_is_seen_in_the_account_if_nobody_asks_its_planet(rt: HostRuntime) -> Result<(), Fail> {
    let case: Played = (
        b"tech 1 weapons 3\nstock 1:1:1 10000 10000 1000\nlevel 1:1:1 lab 4\n",
        b"@0 1 research 1:1:1 weapons\n@5759 1 account\n@5760 1 account\n",
        b"ok 1 0\nstarts 4 5760\n.\n\
ok 2 5759\naccount 1 0 0 1\ntech weapons 3\nplanet 1:1:1\nresearch 1 weapons 4 5760 1:1:1\n.\n\
ok 3 5760\naccount 1 0 0 1\ntech weapons 4\nplanet 1:1:1\n.\n",
    );
    assert!(rt; is_played(rt.alloc(), case)?);
    Ok(())
}

#[test]
fn research_that_waits_is_paid_at_its_turn(rt: HostRuntime) -> Result<(), Fail> {
    let case: Played = (
        b"stock 1:1:1 5000 1200 1000\nlevel 1:1:1 lab 1\nlevel 1:1:1 shipyard 1\n",
        b"@0 1 research 1:1:1 energy\n@0 1 yard 1:1:1 launcher 2\n@0 1 research 1:1:1 computer\n@0 1 account\n\
@1440 1 account\n@1440 1 planet 1:1:1\n@2880 1 planet 1:1:1\n",
        b"ok 1 0\nstarts 1 1440\n.\nok 2 0\nstarts 2 1440\n.\nok 3 0\nwaits 2\n.\n\
ok 4 0\naccount 1 2 0 1\nplanet 1:1:1\nresearch 1 energy 1 1440 1:1:1\nwaiting 3 computer 1:1:1\n.\n\
ok 5 1440\naccount 1 2 0 1\ntech energy 1\nplanet 1:1:1\nresearch 3 computer 1 2160 1:1:1\n.\n\
ok 6 1440\nplanet 1:1:1 1 40 163 2\nstock 1008 4 0\nhourly 20 10 0\nlimit 10000 10000 10000\n\
energy 0 0\ndebris 0 0\nlevel shipyard 1\nlevel lab 1\nunits launcher 1\nyard 2 launcher 1 2880\n.\n\
ok 7 2880\nplanet 1:1:1 1 40 163 2\nstock 1016 8 0\nhourly 20 10 0\nlimit 10000 10000 10000\n\
energy 0 0\ndebris 0 0\nlevel shipyard 1\nlevel lab 1\nunits launcher 2\n.\n",
    );
    assert!(rt; is_played(rt.alloc(), case)?);
    Ok(())
}

#[test]
fn research_whose_planet_became_too_poor_is_dropped_and_the_next_starts(
    rt: HostRuntime,
) -> Result<(), Fail> {
    let case: Played = (
        b"planet 1:1:2 1 40 163\nstock 1:1:1 0 800 400\nstock 1:1:2 0 500 600\nlevel 1:1:1 lab 1\nlevel 1:1:2 lab 1\n",
        b"@0 1 research 1:1:1 energy\n@0 1 research 1:1:1 computer\n@0 1 research 1:1:2 computer\n\
@1440 1 account\n@1440 1 planet 1:1:2\n@2160 1 account\n",
        b"ok 1 0\nstarts 1 1440\n.\nok 2 0\nwaits 2\n.\nok 3 0\nwaits 3\n.\n\
ok 4 1440\naccount 1 0 0 1\ntech energy 1\nplanet 1:1:1\nplanet 1:1:2\nresearch 3 computer 1 2160 1:1:2\n.\n\
ok 5 1440\nplanet 1:1:2 1 40 163 1\nstock 8 104 0\nhourly 20 10 0\nlimit 10000 10000 10000\n\
energy 0 0\ndebris 0 0\nlevel lab 1\n.\n\
ok 6 2160\naccount 1 0 0 2\ntech energy 1\ntech computer 1\nplanet 1:1:1\nplanet 1:1:2\n.\n",
    );
    assert!(rt; is_played(rt.alloc(), case)?);
    Ok(())
}

#[test]
fn a_building_a_research_and_a_unit_are_done_in_one_second(rt: HostRuntime) -> Result<(), Fail> {
    let case: Played = (
        b"stock 1:1:1 2060 815 400\nlevel 1:1:1 lab 1\nlevel 1:1:1 shipyard 1\n",
        b"@0 1 research 1:1:1 energy\n@0 1 yard 1:1:1 launcher 1\n@1332 1 build 1:1:1 metalmine\n@1440 1 planet 1:1:1\n@1440 1 account\n",
        b"ok 1 0\nstarts 1 1440\n.\nok 2 0\nstarts 1 1440\n.\nok 3 1332\nstarts 1 1440\n.\n\
ok 4 1440\nplanet 1:1:1 1 40 163 3\nstock 8 4 0\nhourly 20 10 0\nlimit 10000 10000 10000\n\
energy 0 11\ndebris 0 0\nlevel metalmine 1\nlevel shipyard 1\nlevel lab 1\nunits launcher 1\n.\n\
ok 5 1440\naccount 1 1 0 1\ntech energy 1\nplanet 1:1:1\n.\n",
    );
    assert!(rt; is_played(rt.alloc(), case)?);
    Ok(())
}
