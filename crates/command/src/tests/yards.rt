// Units from the order on: one by one, and many at once.
use super::buildings::{Played, is_played};
use super::tried;
use crate::DONE;
use std::test::Fail;

#[test]
fn launchers_are_built_one_by_one(rt: HostRuntime) -> Result<(), Fail> {
    let case: Played = (
        b"level 1:1:1 shipyard 1\nstock 1:1:1 5000 0 0\n",
        b"@0 1 yard 1:1:1 launcher 2\n@2879 1 planet 1:1:1\n",
        b"ok 1 0\nstarts 2 1440\n.\n\
ok 2 2879\nplanet 1:1:1 1 40 163 1\nstock 1015 7 0\nhourly 20 10 0\nlimit 10000 10000 10000\n\
energy 0 0\ndebris 0 0\nlevel shipyard 1\nunits launcher 1\nyard 1 launcher 1 2880\n.\n",
    );
    assert!(rt; is_played(rt.alloc(), case)?);
    Ok(())
}

#[test]
fn one_unit_too_many_has_17(rt: HostRuntime) -> Result<(), Fail> {
    let case: Played = (
        b"level 1:1:1 shipyard 1\nstock 1:1:1 2000 0 0\nunits 1:1:1 launcher 100000\n",
        b"@0 1 yard 1:1:1 launcher 1\n@0 1 account\n",
        b"no 1 0 17\nok 2 0\naccount 1 100000 0 1\nplanet 1:1:1\n.\n",
    );
    assert!(rt; is_played(rt.alloc(), case)?);
    Ok(())
}

/// A universe at speed 100 with 100000 launchers to build, one a second; the answers at the last second but one and 10^9 seconds
/// later.
const MANY_LAUNCHERS: &[u8] =
    b"universe 7 100 1000 0\nplayer 1\nplanet 1:1:1 1 40 163\nlevel 1:1:1 shipyard 14\nlevel 1:1:1 nanite 8\n\
stock 1:1:1 200000000 0 0\n.\n@0 1 yard 1:1:1 launcher 100000\n@99999 1 planet 1:1:1\n@1000099999 1 planet 1:1:1\n";

#[test]
fn a_batch_of_100000_launchers_is_built(rt: HostRuntime) -> Result<(), Fail> {
    let (status, sink) = tried(rt.alloc(), MANY_LAUNCHERS, usize::MAX, &[], &[])?;
    assert_eq!(rt; status, DONE);
    let wanted = b"ok 1 0\nstarts 100000 1\n.\n\
ok 2 99999\nplanet 1:1:1 1 40 163 22\nstock 10000 10000 0\nhourly 2000 1000 0\nlimit 10000 10000 10000\n\
energy 0 0\ndebris 0 0\nlevel shipyard 14\nlevel nanite 8\nunits launcher 99999\nyard 1 launcher 1 100000\n.\n\
ok 3 1000099999\nplanet 1:1:1 1 40 163 22\nstock 10000 10000 0\nhourly 2000 1000 0\nlimit 10000 10000 10000\n\
energy 0 0\ndebris 0 0\nlevel shipyard 14\nlevel nanite 8\nunits launcher 100000\n.\n";
    assert_eq!(rt; sink.written(), wanted.as_slice());
    Ok(())
}
