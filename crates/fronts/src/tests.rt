ghost use Rattle.std.specs.Prelude.{◌≡◌, ◌≢◌};
ghost use Rattle.fronts.specs.Pair.{pair};

use crate::demonstration::share;
use crate::{Naming, Opened, Origin, named_cells_stand, numbers_tell_places};
use base_ids::Player;
use std::alloc::Global;
use std::marker::Brand;
use std::process::Abort;
use std::sync::Wait;
use std::test::*;
use std::thread::Threads;

#[test]
fn two_threads_share_one_history(rt: HostRuntime) -> Result<(), Fail> {
    started::<Brand, _>(&rt, rt.alloc(), Player { k: 1 }, Player { k: 2 }, 300)
}

// The history gets its start.
fn started<O: Origin + Send + Sync, R: Threads + Wait + Abort + Sync>(
    rt: &R,
    alloc: Global,
    first: Player,
    second: Player,
    times: u64,
) -> Result<(), Fail>
    requires start { O.start ≡ pair first second }
    requires apart { first.k ≢ second.k }
{
    named::<O, Brand, R>(rt, Opened::new(alloc, 0)?, (first, second), times)
}

// The history gets its name. There is room for all entries, so each is appended.
fn named<O: Origin + Send + Sync, J: Naming + Send + Sync, R: Threads + Wait + Abort + Sync>(
    rt: &R,
    opened: Opened<O>,
    players: (Player, Player),
    times: u64,
) -> Result<(), Fail>
    requires start { O.start ≡ pair players.0 players.1 }
    requires apart { players.0.k ≢ players.1.k }
    requires named { opened ≡ J.table }
{
    let (ended, first, second) = share::<O, J, R>(rt, opened, players, times).ok_or("shared")?;
    assert_eq!(rt; first, times);
    assert_eq!(rt; second, times);
    assert_eq!(rt; ended.entries, 2 * times);
    assert_eq!(rt; ended.durable, 2 * times);
    Ok(())
}

#[test]
fn marks_and_notes_go_round(rt: HostRuntime) -> Result<(), Fail> {
    opened_for_notes::<Brand, _>(&rt, rt.alloc(), Player { k: 1 }, Player { k: 2 })
}

fn opened_for_notes<O: Origin, R: Abort>(
    rt: &R,
    alloc: Global,
    first: Player,
    second: Player,
) -> Result<(), Fail>
    requires start { O.start ≡ pair first second }
{
    notes::<O, Brand, R>(rt, Opened::new(alloc, 0)?)
}

fn notes<O: Origin, J: Naming, R: Abort>(rt: &R, opened: Opened<O>) -> Result<(), Fail>
    requires named { opened ≡ J.table }
{
    let (fronts, mut pass) = opened.named::<J>();
    fronts.mark(&mut pass);
    let mark = fronts.give_mark(&mut pass);
    let mut note = fronts.note(&mut pass);
    let copy = fronts.copy(&mut note);
    fronts.gather(&mut note, copy);
    fronts.gather(&mut note, mark);
    assert_eq!(rt; fronts.look_again(&mut note), 0);
    assert_eq!(rt; fronts.look(&mut pass), 0);
    assert_eq!(rt; fronts.read(&mut pass), 0);
    fronts.take(&mut pass, note);
    Ok(())
}

#[test]
fn the_laws_are_called() {
    named_cells_stand::<Brand>();
    numbers_tell_places::<Brand>();
}
