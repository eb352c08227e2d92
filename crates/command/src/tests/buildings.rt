// What is built and what it yields, from the founding text on.
use super::{answers_to, tried};
use crate::DONE;
use std::alloc::Global;
use std::test::Fail;

#[test]
fn a_metal_mine_is_built_in_108_seconds(rt: HostRuntime) -> Result<(), Fail> {
    let script = b"@0 1 build 1:1:1 metalmine\n@107 1 planet 1:1:1\n@108 1 planet 1:1:1\n";
    let (status, sink) = answers_to(rt.alloc(), script)?;
    assert_eq!(rt; status, DONE);
    let wanted = b"ok 1 0\nstarts 1 108\n.\n\
ok 2 107\nplanet 1:1:1 1 40 163 0\nstock 440 485 0\nhourly 20 10 0\nlimit 10000 10000 10000\n\
energy 0 0\ndebris 0 0\nbuilding 1 metalmine 1 108\n.\n\
ok 3 108\nplanet 1:1:1 1 40 163 1\nstock 440 485 0\nhourly 20 10 0\nlimit 10000 10000 10000\n\
energy 0 11\ndebris 0 0\nlevel metalmine 1\n.\n";
    assert_eq!(rt; sink.written(), wanted.as_slice());
    Ok(())
}

/// Lines of the founding text about the planet at 1:1:1, a script, and the answers to it.
pub(super) type Played<'a> = (&'a [u8], &'a [u8], &'a [u8]);

/// What `trial` writes if the founding text has more lines about the one planet.
pub(super) fn is_played(alloc: Global, played: Played) -> Result<bool, Fail> {
    let (said, script, wanted) = played;
    let mut input = Vec::from_slice(
        alloc,
        b"universe 7 1 1000 0\nplayer 1\nplanet 1:1:1 1 40 163\n",
    )?;
    input.extend_from_slice(said)?;
    input.extend_from_slice(b".\n")?;
    input.extend_from_slice(script)?;
    let (status, sink) = tried(alloc, &input, usize::MAX, &[], &[])?;
    Ok(status == DONE && sink.written() == wanted)
}

#[test]
fn mines_yield_by_the_energy_that_is_given(rt: HostRuntime) -> Result<(), Fail> {
    let cases: [Played; 3] = [
        (
            b"level 1:1:1 metalmine 1\n",
            b"@3600 1 planet 1:1:1\n",
            b"ok 1 3600\nplanet 1:1:1 1 40 163 1\nstock 520 510 0\nhourly 20 10 0\nlimit 10000 10000 10000\n\
energy 0 11\ndebris 0 0\nlevel metalmine 1\n.\n",
        ),
        (
            b"level 1:1:1 metalmine 1\nlevel 1:1:1 solarplant 1\n",
            b"@3600 1 planet 1:1:1\n",
            b"ok 1 3600\nplanet 1:1:1 1 40 163 2\nstock 553 510 0\nhourly 53 10 0\nlimit 10000 10000 10000\n\
energy 22 11\ndebris 0 0\nlevel metalmine 1\nlevel solarplant 1\n.\n",
        ),
        (
            b"level 1:1:1 metalmine 1\nlevel 1:1:1 solarplant 1\nlevel 1:1:1 deuteriumsynth 1\n",
            b"@3600 1 planet 1:1:1\n",
            b"ok 1 3600\nplanet 1:1:1 1 40 163 3\nstock 542 510 8\nhourly 42 10 8\nlimit 10000 10000 10000\n\
energy 22 33\ndebris 0 0\nlevel metalmine 1\nlevel deuteriumsynth 1\nlevel solarplant 1\n.\n",
        ),
    ];
    for case in cases {
        assert!(rt; is_played(rt.alloc(), case)?);
    }
    Ok(())
}

#[test]
fn a_stock_fills_to_its_limit_and_stays_above_it(rt: HostRuntime) -> Result<(), Fail> {
    let case: Played = (
        b"stock 1:1:1 9999 20000 0\n",
        b"@179 1 planet 1:1:1\n@180 1 planet 1:1:1\n@100000 1 planet 1:1:1\n",
        b"ok 1 179\nplanet 1:1:1 1 40 163 0\nstock 9999 20000 0\nhourly 20 10 0\nlimit 10000 10000 10000\n\
energy 0 0\ndebris 0 0\n.\n\
ok 2 180\nplanet 1:1:1 1 40 163 0\nstock 10000 20000 0\nhourly 20 10 0\nlimit 10000 10000 10000\n\
energy 0 0\ndebris 0 0\n.\n\
ok 3 100000\nplanet 1:1:1 1 40 163 0\nstock 10000 20000 0\nhourly 20 10 0\nlimit 10000 10000 10000\n\
energy 0 0\ndebris 0 0\n.\n",
    );
    assert!(rt; is_played(rt.alloc(), case)?);
    Ok(())
}

#[test]
fn an_order_that_cannot_be_paid_at_its_turn_is_dropped(rt: HostRuntime) -> Result<(), Fail> {
    let case: Played = (
        b"",
        b"@0 1 build 1:1:1 metalmine\n@0 1 build 1:1:1 crystalstore\n@0 1 build 1:1:1 solarplant\n@108 1 planet 1:1:1\n",
        b"ok 1 0\nstarts 1 108\n.\nok 2 0\nwaits 2\n.\nok 3 0\nwaits 3\n.\n\
ok 4 108\nplanet 1:1:1 1 40 163 1\nstock 365 455 0\nhourly 20 10 0\nlimit 10000 10000 10000\n\
energy 0 11\ndebris 0 0\nlevel metalmine 1\nbuilding 3 solarplant 1 259\n.\n",
    );
    assert!(rt; is_played(rt.alloc(), case)?);
    Ok(())
}

#[test]
fn a_sixth_order_finds_the_queue_full(rt: HostRuntime) -> Result<(), Fail> {
    let order = b"@0 1 build 1:1:1 metalmine\n";
    let mut script = Vec::new(rt.alloc());
    for _ in 0..6u8 {
        script.extend_from_slice(order.as_slice())?;
    }
    let case: Played = (
        b"",
        &script,
        b"ok 1 0\nstarts 1 108\n.\nok 2 0\nwaits 2\n.\nok 3 0\nwaits 3\n.\nok 4 0\nwaits 4\n.\nok 5 0\nwaits 5\n.\nno 6 0 4\n",
    );
    assert!(rt; is_played(rt.alloc(), case)?);
    Ok(())
}

#[test]
fn each_code_of_a_refusal_and_a_setting(rt: HostRuntime) -> Result<(), Fail> {
    let input =
        b"universe 7 1 1000 0\nplayer 1\nplayer 2\nplanet 1:1:1 1 40 19\nplanet 1:1:2 2 40 163\n\
level 1:1:1 metalmine 2\nlevel 1:1:1 crystalstore 16\n.\n\
@0 1 planet 1:1:9\n@0 1 planet 1:1:2\n@0 1 build 1:1:1 nanite\n@0 1 build 1:1:1 crystalstore\n\
@0 1 build 1:1:1 metalmine\n@0 1 build 1:1:1 solarplant\n@0 1 set 1:1:1 solarplant 5\n@0 3 planet 1:1:1\n\
@0 3 account\n@0 1 research 1:1:1 energy\n@0 1 yard 1:1:1 launcher 1\n";
    let (status, sink) = tried(rt.alloc(), input, usize::MAX, &[], &[])?;
    assert_eq!(rt; status, DONE);
    let wanted = b"no 1 0 2\nno 2 0 3\nno 3 0 6\nno 4 0 5\n\
ok 5 0\nstarts 3 241\n.\nno 6 0 7\nok 7 0\n.\nno 8 0 1\nno 9 0 1\nno 10 0 6\nno 11 0 6\n";
    assert_eq!(rt; sink.written(), wanted.as_slice());
    Ok(())
}
