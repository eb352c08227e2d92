// What no clause says: flushes over a disk in memory, run.
ghost use Rattle.std.specs.Prelude.{◌≡◌, ◌≤◌, ◌∷◌, [], ◌++◌, codes, IfOk, if◌then◌else◌};
ghost use Rattle.disk_port.specs.Memory.{memory_story};
ghost use Rattle.journal_store.specs.Ledger.{CanStart, IsPrepared};
ghost use Rattle.journal_store.specs.Standing.{CanFlush};

use crate::{Draw, Journal, Prepared, Start, batches_join, journals_stand};
use base_ids::{LAST_NUMBER, Player};
use disk_port::MemoryDisk;
use ports::{Failed, LATEST};
use records::read;
use request_text::Request;
use std::alloc::Global;
use std::process::Abort;
use std::test::Fail;

const START: Start = Start {
    last_number: 0,
    last_moment: 0,
    count: 0,
    capacity: 1000,
    end: 4,
    short: false,
};

// A journal with its disk.
#[derive(Drop)]
struct Desk<'a> {
    journal: Journal,
    disk: MemoryDisk<'a>,
}

// A disk that holds four bytes and, unless it is short, a closed gate.
fn open<'a>(alloc: Global, start: Start, failing: &'a [u64]) -> Result<Desk<'a>, Fail>
    requires can_start { CanStart start }
    requires end { start.end ≡ 4 }
    ensures { IfOk result (λ desk. CanFlush memory_story desk.journal desk.disk) }
{
    let journal = Journal::new(alloc, start)?;
    let content = content(start.short);
    let disk = MemoryDisk::new(alloc, content, failing)?;
    Ok(Desk { journal, disk })
}

fn content(short: bool) -> &'static [u8]
    ensures { result.now ≡ (if short then codes "base" else codes "base" ++ 0 ∷ []) }
{
    if short { b"base" } else { b"base\0" }
}

// Draws a request of player 1 whose caller saw this moment, or the last one, if that is sooner.
fn add(desk: &mut Desk, reading: u64, seen: u64) -> Result<Draw, Fail>
    requires { CanFlush memory_story desk.old.journal desk.old.disk }
    ensures { CanFlush memory_story desk.new.journal desk.new.disk }
{
    desk.journal.reserve()?;
    let prepared = prepared(reading, seen.min(desk.journal.last_moment()));
    Ok(desk.journal.draw(prepared))
}

fn prepared(reading: u64, seen: u64) -> Prepared
    requires { seen ≤ LATEST }
    ensures { IsPrepared result seen }
{
    let reading = reading.min(LATEST);
    Prepared {
        player: Player { k: 1 },
        req: Request::Account,
        reading,
        moment: reading.max(seen),
        pass: 1,
    }
}

fn flush(desk: &mut Desk) -> Result<u64, Failed>
    requires { CanFlush memory_story desk.old.journal desk.old.disk }
    ensures { CanFlush memory_story desk.new.journal desk.new.disk }
{
    desk.journal.flush(&mut desk.disk)
}

// How many entries the open batches have, if they are the entries 1, 2 and so on, and a closed gate stands behind them.
fn held(bytes: &[u8]) -> Option<u64> {
    let mut rest = bytes.get(4..)?;
    let mut count: u64 = 0;
    for _ in 0..8 {
        let (gate, batch) = rest.split_first()?;
        if *gate != 1 {
            return Some(count);
        }
        let (size, entries) = batch.split_first()?;
        rest = entries;
        for _ in 0..*size {
            let (page, more) = rest.split_first_chunk::<256>()?;
            count = count.wrapping_add(1);
            if read(page)?.number != count {
                return None;
            }
            rest = more;
        }
    }
    None
}

// How many entries each image that a crash now may leave holds.
fn check_images<R: Abort + AllocGlobal>(
    rt: &R,
    disk: &MemoryDisk,
    wants: [u64; 4],
) -> Result<(), Fail> {
    for (pick, want) in wants.iter().enumerate() {
        let image = disk.image(rt.alloc(), pick as u8)?;
        assert_eq!(rt; held(image.bytes()), Some(*want), "pick {pick}");
    }
    Ok(())
}

// The images after a flush whose call with each of these numbers fails, and after the next one.
#[test]
fn a_flush_that_fails_goes_on(rt: HostRuntime) -> Result<(), Fail> {
    for (failing, wants) in [
        ([1], [0, 0, 0, 0]),
        ([2], [0, 0, 0, 0]),
        ([3], [0, 0, 0, 1]),
        ([4], [0, 1, 0, 1]),
    ] {
        let mut desk = open(rt.alloc(), START, &failing)?;
        assert_eq!(rt; add(&mut desk, 0, 0)?, Draw::Taken { number: 1 });
        assert_eq!(rt; flush(&mut desk), Err(Failed));
        check_images(&rt, &desk.disk, wants)?;
        assert_eq!(rt; flush(&mut desk), Ok(1));
        check_images(&rt, &desk.disk, [1, 1, 1, 1])?;
    }
    Ok(())
}

// A batch that is staged stays as it is; one that isn't takes in what was drawn since.
#[test]
fn later_entries_join_a_batch_that_is_not_staged(rt: HostRuntime) -> Result<(), Fail> {
    for (failing, first) in [([2], 2), ([3], 1)] {
        let mut desk = open(rt.alloc(), START, &failing)?;
        add(&mut desk, 0, 0)?;
        assert_eq!(rt; flush(&mut desk), Err(Failed));
        add(&mut desk, 0, 0)?;
        assert_eq!(rt; flush(&mut desk), Ok(first));
        assert_eq!(rt; flush(&mut desk), Ok(2));
        check_images(&rt, &desk.disk, [2, 2, 2, 2])?;
    }
    Ok(())
}

#[test]
fn sixty_five_entries_take_two_flushes(rt: HostRuntime) -> Result<(), Fail> {
    let mut desk = open(rt.alloc(), START, &[])?;
    'entries: for _ in 0..65 {
        add(&mut desk, 0, 0)?;
    }
    assert_eq!(rt; flush(&mut desk), Ok(64));
    check_images(&rt, &desk.disk, [64, 64, 64, 64])?;
    assert_eq!(rt; flush(&mut desk), Ok(65));
    check_images(&rt, &desk.disk, [65, 65, 65, 65])?;
    assert_eq!(rt; desk.disk.calls, 8);
    assert_eq!(rt; flush(&mut desk), Ok(65));
    assert_eq!(rt; desk.disk.calls, 8);
    assert_eq!(rt; desk.journal.durable(), 65);
    Ok(())
}

#[test]
fn a_batch_has_the_bytes_that_were_worked_out(rt: HostRuntime) -> Result<(), Fail> {
    let mut desk = open(rt.alloc(), START, &[])?;
    add(&mut desk, 0, 0)?;
    assert_eq!(rt; flush(&mut desk), Ok(1));
    let bytes = desk.disk.bytes();
    let front = b"base\x01\x01OGE1\0\0\0\0\0\0\0\x01\0\0\0\0\0\0\0\0\0\0\0\0\0\0\0\0\0\0\0\x01\x02";
    assert_eq!(rt; bytes.get(..39), Some(front.as_slice()));
    assert_eq!(rt; bytes.get(39..), Some([0; 224].as_slice()));
    Ok(())
}

#[test]
fn a_gate_that_is_missing_is_written(rt: HostRuntime) -> Result<(), Fail> {
    let start = Start {
        short: true,
        ..START
    };
    let mut desk = open(rt.alloc(), start, &[2])?;
    add(&mut desk, 0, 0)?;
    assert_eq!(rt; flush(&mut desk), Err(Failed));
    assert_eq!(rt; flush(&mut desk), Ok(1));
    check_images(&rt, &desk.disk, [1, 1, 1, 1])
}

#[test]
fn a_journal_is_full(rt: HostRuntime) -> Result<(), Fail> {
    let small = Start {
        count: 6,
        capacity: 7,
        ..START
    };
    let mut desk = open(rt.alloc(), small, &[])?;
    assert_eq!(rt; add(&mut desk, 5, 0)?, Draw::Taken { number: 1 });
    assert_eq!(rt; add(&mut desk, 0, 0)?, Draw::Full { count: 7 });
    assert_eq!(rt; flush(&mut desk), Ok(7));
    let last = Start {
        last_number: LAST_NUMBER,
        ..START
    };
    let mut desk = open(rt.alloc(), last, &[])?;
    assert_eq!(rt; add(&mut desk, 0, 0)?, Draw::Full { count: 0 });
    Ok(())
}

#[test]
fn a_request_is_late(rt: HostRuntime) -> Result<(), Fail> {
    let mut desk = open(rt.alloc(), START, &[])?;
    assert_eq!(rt; add(&mut desk, 100, 0)?, Draw::Taken { number: 1 });
    assert_eq!(rt; add(&mut desk, 50, 0)?, Draw::Late { last: 100 });
    assert_eq!(rt; add(&mut desk, 50, 100)?, Draw::Taken { number: 2 });
    Ok(())
}

fn is_shared<T: Send + Sync>(_value: &T) -> bool {
    true
}

#[test]
fn a_journal_can_be_handed_to_threads(rt: HostRuntime) -> Result<(), Fail> {
    let mut journal = Journal::new(rt.alloc(), START)?;
    assert!(rt; is_shared(&journal));
    assert_eq!(rt; journal.spare(), 0);
    journal.reserve()?;
    assert!(rt; journal.spare() >= 1);
    journals_stand::<MemoryDisk>();
    batches_join();
    Ok(())
}
