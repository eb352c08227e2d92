// Fleets: transports, deployments, recalls, and what is shown of them.
use super::{Answers, run_undisturbed, tried, words_of};
use crate::DONE;
use ports::{MemoryClock, MemorySink, MemorySource};
use std::alloc::Global;
use std::test::Fail;

/// Two planets of one player, and a small cargo on the first.
const ONE_CARGO: &[u8] =
    b"universe 7 1 1000 0\nplayer 1\nplanet 1:1:1 1 40 163\nplanet 1:1:2 1 40 163\n\
tech 1 combustion 2\nstock 1:1:1 1000 1000 100\nunits 1:1:1 smallcargo 1\n.\n";

/// What `trial` writes for a founding text and a script is what is wanted.
pub(super) fn is_told(alloc: Global, founding: &[u8], told: Answers) -> Result<bool, Fail> {
    let (script, wanted) = told;
    let mut input = Vec::from_slice(alloc, founding)?;
    input.extend_from_slice(script)?;
    let (status, sink) = tried(alloc, &input, usize::MAX, &[], &[])?;
    Ok(status == DONE && sink.written() == wanted)
}

#[test]
fn a_transport_unloads_turns_back_and_is_home(rt: HostRuntime) -> Result<(), Fail> {
    let told: Answers = (
        b"@0 1 send 1:1:1 1:1:2 transport 10 smallcargo=1 300 200 0\n@4539 1 planet 1:1:2\n@4539 1 fleets\n\
@9078 1 planet 1:1:1\n",
        b"ok 1 0\narrives 4539 fuel 2\n.\n\
ok 2 4539\nplanet 1:1:2 1 40 163 0\nstock 825 712 0\nhourly 20 10 0\nlimit 10000 10000 10000\n\
energy 0 0\ndebris 0 0\n.\n\
ok 3 4539\nfleet 1 1 transport 1:1:1 1:1:2 back 9078 0 0 0 smallcargo=1\n.\n\
ok 4 9078\nplanet 1:1:1 1 40 163 0\nstock 750 825 98\nhourly 20 10 0\nlimit 10000 10000 10000\n\
energy 0 0\ndebris 0 0\nunits smallcargo 1\n.\n",
    );
    assert!(rt; is_told(rt.alloc(), ONE_CARGO, told)?);
    Ok(())
}

/// A planet of player 1, and a small cargo and metal on a planet of player 2.
const TWO_PLAYERS: &[u8] =
    b"universe 7 1 1000 0\nplayer 1\nplayer 2\nplanet 1:1:1 2 40 163\nplanet 1:1:2 1 40 163\n\
tech 2 combustion 2\nstock 1:1:1 1000 0 10\nunits 1:1:1 smallcargo 1\n.\n";

#[test]
fn a_transport_unloads_at_a_planet_of_somebody_else(rt: HostRuntime) -> Result<(), Fail> {
    let told: Answers = (
        b"@0 2 send 1:1:1 1:1:2 transport 10 smallcargo=1 1000 0 0\n@4539 1 planet 1:1:2\n@4539 2 fleets\n\
@9078 2 planet 1:1:1\n",
        b"ok 1 0\narrives 4539 fuel 2\n.\n\
ok 2 4539\nplanet 1:1:2 1 40 163 0\nstock 1525 512 0\nhourly 20 10 0\nlimit 10000 10000 10000\n\
energy 0 0\ndebris 0 0\n.\n\
ok 3 4539\nfleet 1 1 transport 1:1:1 1:1:2 back 9078 0 0 0 smallcargo=1\n.\n\
ok 4 9078\nplanet 1:1:1 2 40 163 0\nstock 50 25 8\nhourly 20 10 0\nlimit 10000 10000 10000\n\
energy 0 0\ndebris 0 0\nunits smallcargo 1\n.\n",
    );
    assert!(rt; is_told(rt.alloc(), TWO_PLAYERS, told)?);
    Ok(())
}

#[test]
fn a_recalled_fleet_turns_back_with_its_cargo(rt: HostRuntime) -> Result<(), Fail> {
    let told: Answers = (
        b"@0 1 send 1:1:1 1:1:2 transport 10 smallcargo=1 300 200 0\n@1 1 recall 1\n@2 1 fleets\n@2 1 planet 1:1:1\n",
        b"ok 1 0\narrives 4539 fuel 2\n.\nok 2 1\nback 2\n.\nok 3 2\n.\n\
ok 4 2\nplanet 1:1:1 1 40 163 0\nstock 1000 1000 98\nhourly 20 10 0\nlimit 10000 10000 10000\n\
energy 0 0\ndebris 0 0\nunits smallcargo 1\n.\n",
    );
    assert!(rt; is_told(rt.alloc(), ONE_CARGO, told)?);
    Ok(())
}

#[test]
fn a_fleet_on_its_way_back_has_14(rt: HostRuntime) -> Result<(), Fail> {
    let told: Answers = (
        b"@0 1 send 1:1:1 1:1:2 transport 10 smallcargo=1 300 200 0\n@4539 1 recall 1\n",
        b"ok 1 0\narrives 4539 fuel 2\n.\nno 2 4539 14\n",
    );
    assert!(rt; is_told(rt.alloc(), ONE_CARGO, told)?);
    Ok(())
}

#[test]
fn a_fleet_that_nobody_asks_about_is_home_at_its_second(rt: HostRuntime) -> Result<(), Fail> {
    let told: Answers = (
        b"@0 1 send 1:1:1 1:1:2 transport 10 smallcargo=1 0 0 0\n@9077 1 account\n@9078 1 account\n",
        b"ok 1 0\narrives 4539 fuel 2\n.\n\
ok 2 9077\naccount 1 1 1 1\ntech combustion 2\nplanet 1:1:1\nplanet 1:1:2\n.\n\
ok 3 9078\naccount 1 1 0 1\ntech combustion 2\nplanet 1:1:1\nplanet 1:1:2\n.\n",
    );
    assert!(rt; is_told(rt.alloc(), ONE_CARGO, told)?);
    Ok(())
}

/// Planets of two players: the first has a small cargo, little crystal room to spare, and no deuterium.
const POOR: &[u8] =
    b"universe 7 1 1000 0\nplayer 1\nplayer 2\nplanet 1:1:1 1 40 19\nplanet 1:1:2 2 40 163\n\
tech 1 combustion 2\nlevel 1:1:1 metalmine 2\nlevel 1:1:1 crystalstore 16\nunits 1:1:1 smallcargo 1\n.\n";

#[test]
fn each_refusal_of_a_fleet_has_its_code(rt: HostRuntime) -> Result<(), Fail> {
    let told: Answers = (
        b"@0 1 recall 5\n@0 1 send 1:1:1 1:1:2 transport 10 largecargo=1 0 0 0\n\
@0 1 send 1:1:1 1:1:2 deploy 10 smallcargo=1 0 0 0\n@0 1 send 1:1:1 1:1:2 transport 10 smallcargo=1 6000 0 0\n\
@0 1 send 1:1:1 1:1:2 transport 10 smallcargo=1 0 0 0\n",
        b"no 1 0 13\nno 2 0 8\nno 3 0 9\nno 4 0 11\nno 5 0 12\n",
    );
    assert!(rt; is_told(rt.alloc(), POOR, told)?);
    Ok(())
}

/// Two planets of one player, with two small cargos on the first.
const TWO_CARGOS: &[u8] =
    b"universe 7 1 1000 0\nplayer 1\nplanet 1:1:1 1 40 163\nplanet 1:1:2 1 40 163\n\
tech 1 combustion 2\nstock 1:1:1 1000 1000 100\nunits 1:1:1 smallcargo 2\n.\n";

#[test]
fn one_fleet_more_than_the_computers_allow_has_10(rt: HostRuntime) -> Result<(), Fail> {
    let told: Answers = (
        b"@0 1 send 1:1:1 1:1:2 transport 10 smallcargo=1 0 0 0\n@0 1 send 1:1:1 1:1:2 transport 10 smallcargo=1 0 0 0\n",
        b"ok 1 0\narrives 4539 fuel 2\n.\nno 2 0 10\n",
    );
    assert!(rt; is_told(rt.alloc(), TWO_CARGOS, told)?);
    Ok(())
}

#[test]
fn ships_that_fly_count_against_the_ceiling(rt: HostRuntime) -> Result<(), Fail> {
    let founding = b"universe 7 1 1000 0\nplayer 1\nplanet 1:1:1 1 40 163\nplanet 1:1:2 1 40 163\n\
tech 1 combustion 2\nlevel 1:1:1 shipyard 1\nstock 1:1:1 5000 1000 100\nunits 1:1:1 smallcargo 1\nunits 1:1:1 launcher 99999\n.\n";
    let told: Answers = (
        b"@0 1 send 1:1:1 1:1:2 transport 10 smallcargo=1 0 0 0\n@0 1 yard 1:1:1 launcher 1\n",
        b"ok 1 0\narrives 4539 fuel 2\n.\nno 2 0 17\n",
    );
    assert!(rt; is_told(rt.alloc(), founding.as_slice(), told)?);
    Ok(())
}

/// Four players in one system; the first two have a small cargo each.
const FOUR_PLAYERS: &[u8] = b"universe 7 1 1000 0\nplayer 1\nplayer 2\nplayer 3\nplayer 4\n\
planet 1:1:1 1 40 163\nplanet 1:1:2 2 40 163\nplanet 1:1:3 3 40 163\nplanet 1:1:4 4 40 163\n\
tech 1 combustion 2\ntech 2 combustion 2\nstock 1:1:1 500 500 10\nstock 1:1:2 500 500 10\n\
units 1:1:1 smallcargo 1\nunits 1:1:2 smallcargo 1\n.\n";

/// Two transports of which one lands where the other starts; the last planet of the two is asked for when both land.
const TWO_TRANSPORTS: &[u8] = b"@0 1 send 1:1:1 1:1:2 transport 10 smallcargo=1 0 0 0\n\
@0 2 send 1:1:2 1:1:3 transport 10 smallcargo=1 0 0 0\n@4539 3 planet 1:1:3\n";

/// The answers, and all cells: the fourth player's stand where they stood.
const TWO_TRANSPORTS_TOLD: &[u8] =
    b"ok 1 0\narrives 4539 fuel 2\n.\nok 2 0\narrives 4539 fuel 2\n.\n\
ok 3 4539\nplanet 1:1:3 3 40 163 0\nstock 525 512 0\nhourly 20 10 0\nlimit 10000 10000 10000\n\
energy 0 0\ndebris 0 0\n.\n\
cell account 1 at 4539\naccount 1 1 1 1\ntech combustion 2\nplanet 1:1:1\nfleet 1 1 transport 1:1:1 1:1:2 back 9078 0 0 0 smallcargo=1\n\
cell account 2 at 4539\naccount 2 1 1 1\ntech combustion 2\nplanet 1:1:2\nfleet 2 2 transport 1:1:2 1:1:3 back 9078 0 0 0 smallcargo=1\n\
cell account 3 at 4539\naccount 3 0 0 1\nplanet 1:1:3\n\
cell account 4 at 0\naccount 4 0 0 1\nplanet 1:1:4\n\
cell planet 1:1:1 at 4539\nplanet 1:1:1 1 40 163 0\nstock 525 512 8\nhourly 20 10 0\nlimit 10000 10000 10000\nenergy 0 0\ndebris 0 0\nlink 1 9078\n\
cell planet 1:1:2 at 4539\nplanet 1:1:2 2 40 163 0\nstock 525 512 8\nhourly 20 10 0\nlimit 10000 10000 10000\nenergy 0 0\ndebris 0 0\nlink 2 9078\n\
cell planet 1:1:3 at 4539\nplanet 1:1:3 3 40 163 0\nstock 525 512 0\nhourly 20 10 0\nlimit 10000 10000 10000\nenergy 0 0\ndebris 0 0\n\
cell planet 1:1:4 at 0\nplanet 1:1:4 4 40 163 0\nstock 500 500 0\nhourly 20 10 0\nlimit 10000 10000 10000\nenergy 0 0\ndebris 0 0\n.\n";

#[test]
fn fleets_that_meet_at_a_planet_bring_each_others_cells(rt: HostRuntime) -> Result<(), Fail> {
    let words = words_of(rt.alloc(), "trial dump")?;
    let mut input = Vec::from_slice(rt.alloc(), FOUR_PLAYERS)?;
    input.extend_from_slice(TWO_TRANSPORTS)?;
    let mut source = MemorySource::new(&input, &[]);
    let mut sink = MemorySink::new(rt.alloc(), &[]);
    let mut clock = MemoryClock::new(&[]);
    let status = run_undisturbed(rt.alloc(), &words, &mut source, &mut sink, &mut clock)?;
    assert_eq!(rt; status, DONE);
    assert_eq!(rt; sink.written(), TWO_TRANSPORTS_TOLD);
    Ok(())
}

/// Three planets of one player, with a small cargo on each of the first two.
const CHAIN: &[u8] =
    b"universe 7 1 1000 0\nplayer 1\nplanet 1:1:1 1 40 163\nplanet 1:1:2 1 40 163\nplanet 1:1:3 1 40 163\n\
tech 1 combustion 2\ntech 1 computer 1\nstock 1:1:1 500 500 10\nstock 1:1:2 500 500 10\n\
units 1:1:1 smallcargo 1\nunits 1:1:2 smallcargo 1\n.\n";

#[test]
fn a_chain_of_fleets_lands_in_one_second_by_number(rt: HostRuntime) -> Result<(), Fail> {
    let told: Answers = (
        b"@0 1 send 1:1:1 1:1:2 deploy 10 smallcargo=1 100 0 0\n@0 1 send 1:1:2 1:1:3 transport 10 smallcargo=1 200 0 0\n\
@4538 1 fleets\n@4539 1 fleets\n@4539 1 planet 1:1:2\n@4539 1 planet 1:1:3\n",
        b"ok 1 0\narrives 4539 fuel 2\n.\nok 2 0\narrives 4539 fuel 2\n.\n\
ok 3 4538\nfleet 1 1 deploy 1:1:1 1:1:2 out 4539 100 0 0 smallcargo=1\n\
fleet 2 2 transport 1:1:2 1:1:3 out 4539 200 0 0 smallcargo=1\n.\n\
ok 4 4539\nfleet 2 2 transport 1:1:2 1:1:3 back 9078 0 0 0 smallcargo=1\n.\n\
ok 5 4539\nplanet 1:1:2 1 40 163 0\nstock 425 512 8\nhourly 20 10 0\nlimit 10000 10000 10000\nenergy 0 0\ndebris 0 0\nunits smallcargo 1\n.\n\
ok 6 4539\nplanet 1:1:3 1 40 163 0\nstock 725 512 0\nhourly 20 10 0\nlimit 10000 10000 10000\nenergy 0 0\ndebris 0 0\n.\n",
    );
    assert!(rt; is_told(rt.alloc(), CHAIN, told)?);
    Ok(())
}
